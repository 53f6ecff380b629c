//! Tests of intervals and of the thresholds of their widening. They stand apart from `sa_interval`, since tests within
//! a crate prove all of its functions once more.
#![tactic(auto)]

#[cfg(test)]
mod interval;
#[cfg(test)]
mod thresholds;
