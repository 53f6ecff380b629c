//! Values relative to the clock: for each cell an interval for its value, one for the value less the clock, and one for the
//! value and the clock together (the clocked domain of Blanchet and others 2003).
//!
//! It stands on the intervals of `sa_interval`. The layer above uses that each call gives its rule of `specs/Triples.antt`, and
//! that what it gives holds of every value and clock of which the rule's premise holds; `reduce` is None exactly where a meet of
//! the rule is empty. No call takes memory. A change must keep that no bound is cut: the bounds that come in are at most 2^98 in
//! size, so that sums of them stay below 2^100.
#![tactic(auto)]

mod clocked;

pub use clocked::Clocked;
