//! The reference analysis, on flat lists: what one thread makes of a typed program, statement by statement.
//!
//! It stands on typed programs and intervals. `specs/` has the operations of an abstract domain (`Domain`), the passes of a
//! loop and the walk over any domain (`Passes`, `Steps`, `Reference`), the domain of today (`Environments`, `Values`,
//! `Assignments`, `Intervals`), and what makes the whole sound (`Sound`). The code of the analyzer is proved equal to it elsewhere.
#![tactic(auto)]

mod flat;
mod reach;
mod soundness;

pub use flat::Flat;
pub use reach::Reach;
pub use soundness::is_sound;
