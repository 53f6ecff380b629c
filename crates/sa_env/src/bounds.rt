//! Bounds that move: of a cell to the ends of its range, of the clock to the last one.

ghost use Rattle.std.specs.Prelude.{◌≡◌, ◌≤ℤ◌, ◌^◌, ◌≤◌};
ghost use Rattle.sa_interval.specs.Span.{IsPart};
ghost use Rattle.sa_env.specs.Slots.{fallen, risen, spread_to};
ghost use Rattle.sa_env.specs.Flat.{widened_clock};

use sa_interval::Interval;

pub(crate) fn fallen(least: i128, old: i128, new: i128) -> i128
    requires { least ≤ℤ old }
    ensures value { result ≡ fallen least old new }
    ensures no_less { least ≤ℤ result }
    ensures no_more { result ≤ℤ old }
{
    if old <= new { old } else { least }
}

pub(crate) fn risen(most: i128, old: i128, new: i128) -> i128
    requires { old ≤ℤ most }
    ensures value { result ≡ risen most old new }
    ensures no_less { old ≤ℤ result }
    ensures no_more { result ≤ℤ most }
{
    if new <= old { old } else { most }
}

/// Each bound that moves goes to that of the range.
pub(crate) fn spread_to(top: Interval, old: Interval, new: Interval) -> Interval
    requires { IsPart old top }
    ensures value { result ≡ spread_to top old new }
{
    let lo = fallen(top.lo(), old.lo(), new.lo());
    let hi = risen(top.hi(), old.hi(), new.hi());
    Interval::new(lo, hi)
}

/// A clock that rises goes to the last one.
pub(crate) fn widened_clock(whole: Interval, old: Interval, new: Interval) -> Interval
    requires old { IsPart old whole }
    ensures { result ≡ widened_clock whole old new }
{
    let hi = risen(whole.hi(), old.hi(), new.hi());
    Interval::new(old.lo().min(new.lo()), hi)
}
