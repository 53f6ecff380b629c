//! Bounds as stored numbers.

ghost use Rattle.std.specs.Prelude.{◌≡◌};
ghost use Rattle.sa_dbm.specs.Bounds.{plus, half, is_negative};
ghost use Rattle.sa_dbm.specs.Stored.{shown, IsSummable};

/// Stands for no bound, and is above all bounds.
pub const NO_BOUND: i128 = i128::MAX;

/// The sum of two bounds.
pub fn sum(a: i128, b: i128) -> i128
    requires first { IsSummable (shown a) }
    requires second { IsSummable (shown b) }
    ensures { shown result ≡ plus (shown a) (shown b) }
{
    if a < NO_BOUND && b < NO_BOUND {
        a + b
    } else {
        NO_BOUND
    }
}

/// Half of a bound, rounded down.
pub fn half(a: i128) -> i128
    ensures { shown result ≡ half (shown a) }
{
    if a < NO_BOUND { a >> 1 } else { NO_BOUND }
}

pub fn is_negative(a: i128) -> bool
    ensures { result ≡ is_negative (shown a) }
{
    a < 0
}
