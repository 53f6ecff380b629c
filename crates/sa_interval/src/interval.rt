ghost use Rattle.std.specs.Prelude.{◌≡◌, ◌≤ℤ◌, ◌↔◌, IsTrue, MatchOption};
ghost use Rattle.sa_interval.specs.Span.{Span, IsInterval, IsPart, IsJoin, IsMeet, AreDisjoint, low_limit, high_limit};
ghost use Rattle.sa_interval.specs.Rows.{single, join_of, meet_of, is_part};

mod arithmetic;
mod bits;

use std::marker::Model;

/// The size of a bound that means no bound on its side: 2^100.
const LIMIT: i128 = 1 << 100;

/// The numbers from `lo` to `hi`, at least one of them. A bound of size 2^100 means that there is no bound
/// on that side (intervals: Cousot and Cousot 1977; the limit is this project's own).
#[derive(Clone, Copy, Debug, PartialEq, Eq)]
pub struct Interval {
    lo: i128,
    hi: i128,
}

impl Model for Interval {
    ghost use Rattle.sa_interval.specs.Span.{Span, IsInterval};

    ghost Value = { Span };

    ghost view = { λ i. record { lo = i.lo; hi = i.hi } };

    ghost invariant = { λ i. IsInterval (record { lo = i.lo; hi = i.hi }) };

    ghost inverse = { λ s. record { lo = s.lo; hi = s.hi } };
}

impl Interval {
    /// The numbers from `lo` to `hi`.
    pub fn new(lo: i128, hi: i128) -> Interval
        requires ordered { lo ≤ℤ hi }
        requires low { low_limit ≤ℤ lo }
        requires high { hi ≤ℤ high_limit }
        ensures { result ≡ record { lo = lo; hi = hi } }
    {
        Interval { lo, hi }
    }

    /// One number.
    pub fn single(z: i128) -> Interval
        requires low { low_limit ≤ℤ z }
        requires high { z ≤ℤ high_limit }
        ensures { result ≡ single z }
    {
        Interval { lo: z, hi: z }
    }

    /// The least number.
    pub fn lo(self) -> i128
        ensures value { result ≡ self.lo }
        ensures whole { IsInterval self }
    {
        self.lo
    }

    /// The greatest number.
    pub fn hi(self) -> i128
        ensures value { result ≡ self.hi }
        ensures whole { IsInterval self }
    {
        self.hi
    }

    /// The least interval that both lie in.
    pub fn join(self, o: Interval) -> Interval
        ensures row { result ≡ join_of self o }
        ensures least { IsJoin self o result }
    {
        Interval {
            lo: self.lo.min(o.lo),
            hi: self.hi.max(o.hi),
        }
    }

    /// The numbers that lie in both; None exactly where there is none.
    pub fn meet(self, o: Interval) -> Option<Interval>
        ensures row { result ≡ meet_of self o }
        ensures cases { MatchOption result (AreDisjoint self o) (λ m. IsMeet self o m) }
    {
        let lo = self.lo.max(o.lo);
        let hi = self.hi.min(o.hi);
        if lo <= hi {
            Some(Interval { lo, hi })
        } else {
            None
        }
    }

    /// Whether `self` lies in `o`.
    pub fn le(self, o: Interval) -> bool
        ensures test { result ≡ is_part self o }
        ensures fact { IsTrue result ↔ IsPart self o }
    {
        o.lo <= self.lo && self.hi <= o.hi
    }
}
