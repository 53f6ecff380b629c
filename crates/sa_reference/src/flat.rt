use sa_interval::Interval;
use sqlite_items::Items;

/// An environment that isn't dead: where the clock is, and one interval for each cell, within the cell's type.
#[derive(Debug, Drop)]
pub struct Flat {
    pub clock: Interval,
    pub cells: Items<Interval>,
}
