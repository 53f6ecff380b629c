//! An environment.

use sa_interval::Interval;
use sa_shared::Root;

/// An environment of a shop: nothing gets there, or an interval for the clock and the root of a list of slots in the
/// shop's layer. What it stands for is said by the shop alone, so nothing outside this crate opens it.
#[derive(Clone, Copy, Debug)]
pub enum Env {
    Dead,
    Live { clock: Interval, root: Root },
}
