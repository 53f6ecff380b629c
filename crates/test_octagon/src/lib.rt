//! Tests of packs. They stand apart from `sa_octagon`, since tests within a crate prove all of its functions once more.
#![tactic(auto)]

#[cfg(test)]
mod tests;
