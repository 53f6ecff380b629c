//! Reports: what an analysis found as lines, and the lines as text.
//!
//! It stands on lowered programs and on what the reference analysis says is found. `specs/Report.antt` has the lines of each
//! loop, `specs/Texts.antt` their text. Nothing here computes anything of cells or environments: which cells a loop shows, and
//! their names, stand in the lowered program.
#![tactic(auto)]

mod lines;
mod reports;
mod texts;

pub use lines::{Line, LoopReport, Report};
pub use reports::report;
pub use sa_base::OutOfMemory;
pub use texts::write_text;
