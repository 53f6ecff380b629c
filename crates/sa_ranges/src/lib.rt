//! The ranges file: what it tells of a program's inputs, and when it is refused.
//!
//! The file is one JSON value, which `serde_json` reads. `specs/Told.antt` has the forms of spans in both versions,
//! `specs/Table.antt` the rows by which a file is refused, in their order, and `specs/Answer.antt` the ranges of an accepted one.
#![tactic(auto)]

mod fault;
mod file;
mod inputs;
mod key;
mod names;
mod read;
mod told;

pub use fault::RangesFault;
pub use read::read_ranges;
pub use sa_base::OutOfMemory;
