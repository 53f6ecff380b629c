//! What an analysis finds.

use sa_base::Alarm;
use sa_interval::Interval;
use sqlite_items::Items;

/// A loop that the checking walk reached: its number in the lowered program, the greatest number of passes of its entries, and
/// at the head of a turn the numbers of the clock and of each cell that the loop shows, in their order.
#[derive(Drop)]
pub struct LoopFacts {
    pub index: u32,
    pub passes: u32,
    pub clock: Interval,
    pub cells: Items<Interval>,
}

/// What an analysis finds: of each loop of the lowered program its facts, None where no execution of the analysis reaches it,
/// and the alarms by line, column and kind, each once.
#[derive(Drop)]
pub struct Found {
    pub loops: Items<Option<LoopFacts>>,
    pub alarms: Items<Alarm>,
}
