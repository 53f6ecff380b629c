//! The top calls of the analyzer.
//!
//! It stands on the whole of it: tokens, trees, typing, the analysis, reports and the outside. The layer above uses the
//! contracts of `run` and `run_alone`: the bytes written are the answer's, the answer's report is sound and for a program that
//! is held for sure comes whole, and each refusal has its cause. `specs/` is the trusted part here: which sources are accepted,
//! what they are answered with, and what is true of a report. Nothing there knows the code.
#![tactic(auto)]

mod output;
mod reply;
mod source;
mod top;

pub use top::{run, run_alone};
