//! What the variables of one call stand for.

use sqlite_items::Items;

/// An index of a reference's argument: the hidden cell that keeps it, how many elements the dimension has, and the stride.
#[derive(Clone, Copy, Debug, PartialEq, Eq)]
pub struct Kept {
    pub cell: u32,
    pub size: u32,
    pub stride: u32,
}

/// The place that a variable stands for in a call: a first cell, and the indices that were kept when the call began.
#[derive(Debug, Drop)]
pub struct Target {
    pub first: u32,
    pub rows: Items<Kept>,
}

/// The cells of a variable: the first one, and how many there are.
#[derive(Clone, Copy, Debug, PartialEq, Eq)]
pub struct Span {
    pub first: u32,
    pub cells: u32,
}

/// A parameter that stands for another object in a call.
#[derive(Debug, Drop)]
pub struct Reference {
    pub var: u32,
    pub target: Target,
}

/// One call while its function is lowered: the text of the path that leads to it, the number of its first cell, the cell of its
/// result, and what its references stand for.
#[derive(Debug, Drop)]
pub struct Frame {
    pub prefix: Vec<u8>,
    pub first: usize,
    pub result: u32,
    pub references: Vec<Reference>,
}

/// What a variable stands for: the number of its first cell, and the indices that were kept.
#[derive(Clone, Copy)]
pub struct Base<'a> {
    pub first: u32,
    pub rows: &'a [Kept],
}
