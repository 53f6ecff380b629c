//! Times claims and filings of a board.
//!
//! With two numbers it works that many boards of 1,025 branches off, each by that many threads, and prints how many
//! events their books have in all. Without them it says what it wants. The clock stands outside: `bench/book`.
#![tactic(auto)]

mod rounds;

use rounds::run;
use std::{env, io};

/// A number of rounds or threads, 0 for another word.
fn count(word: Option<String>) -> u32 {
    match word {
        Some(word) => word.as_str().parse::<u32>().unwrap_or(0),
        None => 0,
    }
}

fn main(rt: HostRuntime) -> io::Result<()> {
    let mut words = env::args(&rt)?;
    let boards = words.nth(1);
    if boards.is_none() {
        return println!(rt; "give the numbers of boards and of threads");
    }
    let threads = count(words.next());
    let events = run(&rt, rt.alloc(), count(boards), threads)?;
    println!(rt; "events {events}")
}
