//! Times the closure of octagon matrices of eight variables.
//!
//! With a number it makes that many closures of one dense matrix and prints how many found points, and the sum
//! of a bound that they leave. Without one it says what it wants. The clock stands outside: `bench/dbm`.
#![tactic(auto)]

mod dense;

use dense::dense;
use sa_dbm::Closing;
use std::{env, io};

fn main(rt: HostRuntime) -> io::Result<()> {
    let count = match env::args(&rt)?.nth(1) {
        Some(word) => word.as_str().parse::<u32>().unwrap_or(0),
        None => return println!(rt; "give a number of closures"),
    };
    let matrix = dense(rt.alloc())?;
    let mut closed = 0u32;
    let mut sum = 0i128;
    for _ in 0..count {
        let mut m = matrix.copy(rt.alloc())?;
        if m.close() == Closing::Closed {
            closed = closed.wrapping_add(1);
            sum = sum.wrapping_add(m.bound(0, 15).unwrap_or(0));
        }
    }
    println!(rt; "{closed} closed, sum {sum}")
}
