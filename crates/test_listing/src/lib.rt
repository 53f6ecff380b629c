//! Tests of reports. They stand apart from `sa_listing`, since tests within a crate prove all of its functions once more.
#![tactic(auto)]

#[cfg(test)]
mod tests;
