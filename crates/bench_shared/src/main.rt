//! Times sets and joins of shared trees of 65,536 slots.
//!
//! With two numbers it makes that many sets and that many joins of two trees that differ in ten slots, and prints a
//! sum over what they leave. Without them it says what it wants. The clock stands outside: `bench/shared`.
#![tactic(auto)]

mod rounds;

use rounds::run;
use std::{env, io};

/// A number of rounds, 0 for another word.
fn count(word: Option<String>) -> u32 {
    match word {
        Some(word) => word.as_str().parse::<u32>().unwrap_or(0),
        None => 0,
    }
}

fn main(rt: HostRuntime) -> io::Result<()> {
    let mut words = env::args(&rt)?;
    let sets = words.nth(1);
    if sets.is_none() {
        return println!(rt; "give the numbers of sets and of joins");
    }
    let joins = count(words.next());
    let sum = run(rt.alloc(), count(sets), joins)?;
    println!(rt; "sum {sum}")
}
