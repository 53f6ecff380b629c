ghost use Rattle.std.specs.Prelude.{◌≡◌, ◌≤ℤ◌, IfOk};
ghost use Rattle.std.specs.List.Sorted.{IsStrictlySortedBy};
ghost use Rattle.std.specs.Ordering.{int_cmp};
ghost use Rattle.sa_interval.specs.Span.{IsPart, IsInterval};
ghost use Rattle.sa_interval.specs.Widening.{thresholds_of, candidates, IsRisingOf, nearest_below, nearest_above, lowered, raised, widening_of, StopsNearest, IsBetween};

use crate::{Interval, OutOfMemory};
use std::alloc::Global;
use std::marker::Model;

/// The thresholds of every program: the ends of C's types, and the numbers next to zero.
const FIXED: [i128; 15] = [
    -0x8000_0000_0000_0000,
    -0x8000_0000,
    -0x8000,
    -0x80,
    -1,
    0,
    1,
    0x7f,
    0xff,
    0x7fff,
    0xffff,
    0x7fff_ffff,
    0xffff_ffff,
    0x7fff_ffff_ffff_ffff,
    0xffff_ffff_ffff_ffff,
];

/// The numbers at which a bound that moves may stop (Blanchet and others 2003), strictly rising.
#[derive(Debug, Drop)]
pub struct Thresholds {
    values: Vec<i128>,
}

impl Model for Thresholds {
    ghost use Rattle.std.specs.Prelude.{List, ℤ};
    ghost use Rattle.std.specs.List.Sorted.{IsStrictlySortedBy};
    ghost use Rattle.std.specs.Ordering.{int_cmp};

    ghost Value = { List ℤ };

    ghost view = { λ t. t.values.items };

    ghost invariant = { λ t. IsStrictlySortedBy int_cmp t.values.items };
}

impl Thresholds {
    /// The fixed thresholds, and `c` and `-c` for each literal `c` of `values`.
    pub fn make(alloc: Global, values: &[u64]) -> Result<Thresholds, OutOfMemory>
        ensures row { IfOk result (λ t. t ≡ thresholds_of values.now) }
        ensures law { IfOk result (λ t. IsRisingOf (candidates values.now) t) }
    {
        let mut all = Vec::from_slice(alloc, &FIXED)?;
        for value in values {
            let literal = i128::from(*value);
            all.push(literal)?;
            all.push(-literal)?;
        }
        all.sort_unstable();
        all.dedup();
        Ok(Thresholds { values: all })
    }

    /// `old` where `new` lies in it. Else each bound that `new` passes moves to the nearest threshold that
    /// holds `new`, or to the bound of `top` where that is nearer or there is no such threshold.
    pub fn widen(&self, old: Interval, new: Interval, top: Interval) -> Interval
        requires old { IsPart old top }
        requires new { IsPart new top }
        ensures row { result ≡ widening_of self.now old new top }
        ensures stops { StopsNearest self.now old new top result }
        ensures between { IsBetween old new top result }
    {
        let lo = lowered(&self.values, old, new, top);
        let hi = raised(&self.values, old, new, top);
        Interval::new(lo, hi)
    }
}

/// The low bound after a step from `old` to `new`.
fn lowered(values: &[i128], old: Interval, new: Interval, top: Interval) -> i128
    requires rising { IsStrictlySortedBy int_cmp values.now }
    requires new { IsPart new top }
    ensures row { result ≡ lowered values.now old.lo new.lo top.lo }
    ensures whole { IsInterval top }
{
    let (from, to) = (old.lo(), new.lo());
    if from <= to {
        from
    } else {
        nearest_below(values, to, top.lo())
    }
}

/// The high bound after a step from `old` to `new`.
fn raised(values: &[i128], old: Interval, new: Interval, top: Interval) -> i128
    requires rising { IsStrictlySortedBy int_cmp values.now }
    requires new { IsPart new top }
    ensures row { result ≡ raised values.now old.hi new.hi top.hi }
    ensures whole { IsInterval old }
{
    let (from, to) = (old.hi(), new.hi());
    if to <= from {
        from
    } else {
        nearest_above(values, to, top.hi())
    }
}

/// The last threshold at most `z`, but no less than `least`.
fn nearest_below(values: &[i128], z: i128, least: i128) -> i128
    requires rising { IsStrictlySortedBy int_cmp values.now }
    requires least { least ≤ℤ z }
    ensures { result ≡ nearest_below values.now z least }
{
    let count = values.partition_point(|t| *t <= z);
    if count == 0 {
        least
    } else {
        values[count - 1].max(least)
    }
}

/// The first threshold at least `z`, but no more than `most`.
fn nearest_above(values: &[i128], z: i128, most: i128) -> i128
    requires rising { IsStrictlySortedBy int_cmp values.now }
    requires most { z ≤ℤ most }
    ensures { result ≡ nearest_above values.now z most }
{
    let count = values.partition_point(|t| *t < z);
    if count == values.len() {
        most
    } else {
        values[count].min(most)
    }
}
