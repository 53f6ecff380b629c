//! Reports as data.

use sa_base::{Alarm, Text};
use sqlite_items::Items;

/// A line of a loop: what holds of the clock, of a cell, of a cell less the clock and with it, and of two cells, whenever an
/// execution reaches the loop. Bounds are inclusive.
#[derive(Drop)]
pub enum Line {
    /// `clock in [lo, hi]`
    Clock(i128, i128),
    /// `c in [lo, hi]`
    Span(Text, i128, i128),
    /// `c - clock in [lo, hi]`
    Minus(Text, i128, i128),
    /// `c + clock in [lo, hi]`
    Plus(Text, i128, i128),
    /// `c - d <= k`, with a `-` before a cell where it isn't added.
    Pair(bool, Text, bool, Text, i128),
}

/// A loop of the inlined program: its name, the greatest number of passes of its entries, 0 where it isn't reached, and its
/// lines.
#[derive(Drop)]
pub struct LoopReport {
    pub name: Text,
    pub passes: u32,
    pub lines: Items<Line>,
}

/// The loops in walk order, and the alarms by line, column and kind.
#[derive(Drop)]
pub struct Report {
    pub loops: Items<LoopReport>,
    pub alarms: Items<Alarm>,
}
