//! Lowered programs.

use crate::node::Node;
use sa_base::{Num, Text};
use sa_typed::Program;
use sqlite_items::Items;

/// What an analysis keeps one value for: its name as a report prints it, the type of its numbers, whether it stands for all
/// elements of a large array together, and whether it is a hidden one, which no report names.
#[derive(Drop)]
pub struct Cell {
    pub name: Text,
    pub num: Num,
    pub starred: bool,
    pub hidden: bool,
}

/// A loop on one call path: its name as a report prints it, and the cells that the report shows at it, rising.
#[derive(Drop)]
pub struct LoopInfo {
    pub name: Text,
    pub shown: Items<u32>,
}

/// The least and the greatest of some numbers.
#[derive(Clone, Copy, Debug, PartialEq, Eq)]
pub struct Ends {
    pub lo: i128,
    pub hi: i128,
}

/// A lowered program: its cells, its loops in walk order, what each cell of a global or a static local begins with, the body
/// of main, and the program that it was made from. Cells and loops are named by their places in these lists.
#[derive(Drop)]
pub struct Ir {
    pub cells: Items<Cell>,
    pub loops: Items<LoopInfo>,
    pub initial: Items<Ends>,
    pub body: Items<Node>,
    pub program: Program,
}
