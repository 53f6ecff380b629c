/// A place in the source: its line and its column, each from 1; a column is one byte.
///
/// Positions are in the order of the text: first by line, then by column.
#[derive(Clone, Copy, Debug, PartialEq, Eq, PartialOrd, Ord)]
pub struct Pos {
    pub line: u32,
    pub col: u32,
}
