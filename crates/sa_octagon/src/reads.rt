//! Places and nodes, and bounds as ends of intervals.

ghost use Rattle.std.specs.Prelude.{◌≡◌, ℕ, ℤ, ◌^◌, ◌<◌, ◌≤◌, length, slice_index, ◌+ℤ◌, ◌≢◌, neg_ℤ, unsigned_abs, Some, MatchOption};
ghost use Rattle.sa_dbm.specs.Bounds.{half};
ghost use Rattle.sa_octagon.specs.Packs.{node, above, below};

/// The size of an interval's bound that means no bound on its side: 2^100.
const LIMIT: i128 = 1 << 100;

/// The node of a place with a sign; `true` is plus.
pub fn node(sign: bool, x: usize) -> usize
    requires { x < 8 }
    ensures { result ≡ node sign x }
{
    if sign { 2 * x } else { 2 * x + 1 }
}

/// Half of a bound, rounded down.
pub fn half(bound: Option<i128>) -> Option<i128>
    ensures { result ≡ half bound }
{
    match bound {
        Some(b) => Some(b >> 1),
        None => None,
    }
}

/// The greatest number that a bound leaves.
pub fn above(bound: Option<i128>) -> i128
    ensures { result ≡ above bound }
{
    match bound {
        Some(b) => b,
        None => LIMIT,
    }
}

/// The least number that a bound on the negation leaves.
pub fn below(bound: Option<i128>) -> i128
    requires { (z : ℤ) → bound ≡ Some z → unsigned_abs z ≤ 2 ^ 100 }
    ensures { result ≡ below bound }
{
    match bound {
        Some(b) => negated(b),
        None => -LIMIT,
    }
}

/// Twice a number.
pub fn doubled(z: i128) -> i128
    requires { unsigned_abs z ≤ 2 ^ 100 }
    ensures { result ≡ z +ℤ z }
{
    z + z
}

/// The place of a cell.
pub fn find(cells: &[u32], cell: u32) -> Option<usize>
    ensures { MatchOption result
        ((k : ℕ) → k < length cells.now → slice_index cells.now k ≢ cell)
        (λ k. (k < length cells.now) × (slice_index cells.now k ≡ cell)) }
{
    for k in 0..cells.len() {
        if cells[k] == cell {
            return Some(k);
        }
    }
    None
}

/// A number with the other sign.
pub fn negated(z: i128) -> i128
    requires { unsigned_abs z ≤ 2 ^ 101 }
    ensures { result ≡ neg_ℤ z }
{
    -z
}
