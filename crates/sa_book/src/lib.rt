//! The board of a job: passes claim branches by one atomic step, and file them one after another in one book.
#![tactic(auto)]

mod board;
mod entry;
mod rule;
mod view;

pub use entry::{Entry, Filing};
pub use rule::{Board, BoardRule, Book, Pass};
pub use sa_core::OutOfMemory;
pub use view::{Pages, Slip, Terms, View};
