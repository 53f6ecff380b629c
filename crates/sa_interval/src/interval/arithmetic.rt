ghost use Rattle.std.specs.Prelude.{◌≡◌, ◌≢◌, ◌≤ℤ◌, ◌*ℤ◌, ◌↔◌, pos, int_div, int_rem, option_map, IsNone, IfSome};
ghost use Rattle.sa_interval.specs.Span.{Span, IsBound, IsLeast, Holds, cut};
ghost use Rattle.sa_interval.specs.Rows.{hull, single, Sums, Differences, Products, Quotients, Remainders, sum_of, difference_of, product_of, quotients_by, below_zero, above_zero, join_some, quotient_of, largest_remainder, remainders_up_to, remainders_of, remainder_of, are_single, is_zero};

use super::{Interval, LIMIT};

impl Interval {
    /// The least interval that holds the cut of each sum.
    pub fn add(self, o: Interval) -> Interval
        ensures row { result ≡ sum_of self o }
        ensures least { IsLeast (Sums self o) result }
    {
        cut_between(self.lo + o.lo, self.hi + o.hi)
    }

    /// The least interval that holds the cut of each difference.
    pub fn sub(self, o: Interval) -> Interval
        ensures row { result ≡ difference_of self o }
        ensures least { IsLeast (Differences self o) result }
    {
        cut_between(self.lo - o.hi, self.hi - o.lo)
    }

    /// The least interval that holds the cut of each product.
    pub fn mul(self, o: Interval) -> Interval
        ensures row { result ≡ product_of self o }
        ensures least { IsLeast (Products self o) result }
    {
        hull(
            product(self.lo, o.lo),
            product(self.lo, o.hi),
            product(self.hi, o.lo),
            product(self.hi, o.hi),
        )
    }

    /// The least interval that holds each quotient, truncated towards zero (ISO C 6.5.5), by a divisor that
    /// is not 0; None exactly where the divisor is 0 alone.
    pub fn div(self, o: Interval) -> Option<Interval>
        ensures row { result ≡ quotient_of self o }
        ensures none { IsNone result ↔ (o ≡ single (pos 0)) }
        ensures least { IfSome result (λ q. IsLeast (Quotients self o) q) }
    {
        // to read a field of each tells the proof that both are intervals
        let (_, _) = (self.lo, o.lo);
        join_some(self.quotients_below_zero(o), self.quotients_above_zero(o))
    }

    /// An interval that holds each remainder, which has the dividend's sign (ISO C 6.5.5), by a divisor that
    /// is not 0; None exactly where the divisor is 0 alone.
    pub fn rem(self, o: Interval) -> Option<Interval>
        ensures row { result ≡ remainder_of self o }
        ensures none { IsNone result ↔ (o ≡ single (pos 0)) }
        ensures holds { IfSome result (λ r. Holds (Remainders self o) r) }
    {
        // to read a field of each tells the proof that both are intervals
        let (_, _) = (self.lo, o.lo);
        if o.is_zero() {
            None
        } else {
            Some(self.remainders(o))
        }
    }

    /// Whether it is 0 alone.
    fn is_zero(self) -> bool
        ensures { result ≡ is_zero self }
    {
        self.lo == 0 && self.hi == 0
    }

    /// Whether both are one number.
    pub(super) fn are_single(self, o: Interval) -> bool
        ensures { result ≡ are_single self o }
    {
        self.lo == self.hi && o.lo == o.hi
    }

    /// The quotients by the divisors below zero.
    fn quotients_below_zero(self, o: Interval) -> Option<Interval>
        ensures { result ≡ option_map (quotients_by self) (below_zero o) }
    {
        let divisors = o.meet(Interval { lo: -LIMIT, hi: -1 })?;
        Some(self.quotients_by(divisors))
    }

    /// The quotients by the divisors above zero.
    fn quotients_above_zero(self, o: Interval) -> Option<Interval>
        ensures { result ≡ option_map (quotients_by self) (above_zero o) }
    {
        let divisors = o.meet(Interval { lo: 1, hi: LIMIT })?;
        Some(self.quotients_by(divisors))
    }

    /// The quotients by divisors of one sign.
    fn quotients_by(self, o: Interval) -> Interval
        requires lo { o.lo ≢ pos 0 }
        requires hi { o.hi ≢ pos 0 }
        ensures { result ≡ quotients_by self o }
    {
        hull(
            quotient(self.lo, o.lo),
            quotient(self.lo, o.hi),
            quotient(self.hi, o.lo),
            quotient(self.hi, o.hi),
        )
    }

    /// The remainders by a divisor other than 0 alone.
    fn remainders(self, o: Interval) -> Interval
        requires { o ≢ single (pos 0) }
        ensures { result ≡ remainders_of self o }
    {
        if self.are_single(o) {
            single_remainder(self.lo, o.lo)
        } else {
            self.remainders_up_to(o.largest_remainder())
        }
    }

    /// The greatest size of a divisor, less 1.
    fn largest_remainder(self) -> i128
        requires { self ≢ single (pos 0) }
        ensures value { result ≡ largest_remainder self }
        ensures positive { pos 0 ≤ℤ result }
    {
        (-self.lo).max(self.hi) - 1
    }

    /// The remainders of at most this size.
    fn remainders_up_to(self, most: i128) -> Interval
        requires { pos 0 ≤ℤ most }
        ensures { result ≡ remainders_up_to most self }
    {
        Interval {
            lo: self.lo.min(0).max(-most),
            hi: self.hi.max(0).min(most),
        }
    }
}

/// From the cut of `lo` to the cut of `hi`.
fn cut_between(lo: i128, hi: i128) -> Interval
    requires { lo ≤ℤ hi }
    ensures { result ≡ record { lo = cut lo; hi = cut hi } }
{
    Interval {
        lo: limited(lo),
        hi: limited(hi),
    }
}

/// The least interval that holds four numbers.
pub(super) fn hull(p: i128, q: i128, r: i128, s: i128) -> Interval
    requires p { IsBound p }
    requires q { IsBound q }
    requires r { IsBound r }
    requires s { IsBound s }
    ensures { result ≡ hull p q r s }
{
    Interval {
        lo: p.min(q).min(r.min(s)),
        hi: p.max(q).max(r.max(s)),
    }
}

/// The join of those that are there.
fn join_some(a: Option<Interval>, b: Option<Interval>) -> Option<Interval>
    ensures { result ≡ join_some a b }
{
    match (a, b) {
        (Some(a), Some(b)) => Some(a.join(b)),
        (Some(a), None) => Some(a),
        (None, b) => b,
    }
}

/// The cut of a product. A product that is past an `i128` is past the limit too.
pub(super) fn product(x: i128, y: i128) -> i128
    ensures value { result ≡ cut (x *ℤ y) }
    ensures bound { IsBound result }
{
    limited(x.saturating_mul(y))
}

/// A quotient, truncated towards zero.
fn quotient(x: i128, y: i128) -> i128
    requires x { IsBound x }
    requires y { y ≢ pos 0 }
    ensures value { result ≡ int_div x y }
    ensures bound { IsBound result }
{
    x / y
}

/// A remainder, which has the dividend's sign.
fn single_remainder(x: i128, y: i128) -> Interval
    requires x { IsBound x }
    requires y { y ≢ pos 0 }
    ensures { result ≡ single (int_rem x y) }
{
    let remainder = x % y;
    Interval {
        lo: remainder,
        hi: remainder,
    }
}

/// The number, or the limit that it lies past.
fn limited(z: i128) -> i128
    ensures { result ≡ cut z }
{
    z.min(LIMIT).max(-LIMIT)
}
