//! Tests of the parser, and of what a tree prints. They stand apart from `sa_parser`, since tests within a crate prove all
//! of its functions once more.
#![tactic(auto)]

#[cfg(test)]
mod display_tests;
#[cfg(test)]
mod tests;
