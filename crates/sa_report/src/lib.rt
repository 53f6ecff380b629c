//! Reports: the lines of the loops that the analysis reached, and its alarms.
//!
//! It stands on what the analysis finds. `specs/` has which cells are shown, how they are named and what the text is.
#![tactic(auto)]

mod alarms;
mod names;
mod reports;
mod shown;

pub use alarms::rising;
pub use reports::report;
