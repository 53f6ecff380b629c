ghost use Rattle.std.specs.Prelude.{◌≡◌, ◌^◌, IfOk};
ghost use Rattle.sa_dbm.specs.Tables.{IsWithin};

use sa_dbm::{Matrix, OutOfMemory};
use std::alloc::Global;

const NODES: usize = 16;

/// A matrix of eight variables with a bound for each pair of nodes.
pub fn dense(alloc: Global) -> Result<Matrix, OutOfMemory>
    ensures vars { IfOk result (λ m. m.vars ≡ 8) }
    ensures within { IfOk result (λ m. IsWithin (2 ^ 100) m) }
{
    let mut m = Matrix::top(alloc, NODES / 2)?;
    for i in 0..NODES {
        for j in 0..NODES {
            if i != j {
                m.tighten(i, j, 1000 + ((7 * i + 13 * j) % 97) as i128);
            }
        }
    }
    Ok(m)
}
