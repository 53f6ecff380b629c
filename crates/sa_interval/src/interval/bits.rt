ghost use Rattle.std.specs.Prelude.{◌≡◌, ◌≤ℤ◌, ◌<ℤ◌, ◌≤◌, ◌^◌, ◌-◌, pos, negsuc, ◌&&◌, if◌then◌else◌, unsigned_abs, IsTrue};
ghost use Rattle.std.specs.Int.{int_shr, int_rem_euclid};
ghost use Rattle.sa_interval.specs.Span.{Span, high_limit, IsBound, IsInterval, IsPart, IsLeast, Holds};
ghost use Rattle.sa_interval.specs.Rows.{single};
ghost use Rattle.sa_interval.specs.Types.{IsTypeRange, is_width};
ghost use Rattle.sa_interval.specs.BitRows.{LeftShifts, RightShifts, Ands, Ors, Xors, Complements, Residues, left_shift_of, right_shift_of, and_of, or_of, xor_of, complement_of, wrap_of, in_one_block, is_cut, not_negative, mask_of_highs};
ghost use Rattle.sa_numbers.specs.Masks.{least_mask, IsLeastMask};

use super::arithmetic::{hull, product};
use super::{Interval, LIMIT};

impl Interval {
    /// The least interval that holds the cut of each shift to the left (ISO C 6.5.7). Counts are in bits.
    pub fn shl(self, count: Interval) -> Interval
        requires values { IsPart self (record { lo = pos 0; hi = pos (2 ^ 64 - 1) }) }
        requires count { IsPart count (record { lo = pos 0; hi = pos 63 }) }
        ensures row { result ≡ left_shift_of self count }
        ensures least { IsLeast (LeftShifts self count) result }
    {
        let (least, most) = count.as_counts();
        Interval {
            lo: product(self.lo, power(least)),
            hi: product(self.hi, power(most)),
        }
    }

    /// The least interval that holds each shift to the right (ISO C 6.5.7), rounded down. Counts are in bits.
    pub fn shr(self, count: Interval) -> Interval
        requires { IsPart count (record { lo = pos 0; hi = pos 63 }) }
        ensures row { result ≡ right_shift_of self count }
        ensures least { IsLeast (RightShifts self count) result }
    {
        let (least, most) = count.as_counts();
        hull(
            right_shift(self.lo, least),
            right_shift(self.lo, most),
            right_shift(self.hi, least),
            right_shift(self.hi, most),
        )
    }

    /// An interval that holds each `&` (ISO C 6.5.10) of operands within `full`, the range of a type.
    pub fn and(self, o: Interval, full: Interval) -> Interval
        requires full { IsTypeRange full }
        requires first { IsPart self full }
        requires second { IsPart o full }
        ensures row { result ≡ and_of self o full }
        ensures holds { Holds (Ands self o) result }
    {
        self.and_row(o, full)
    }

    /// An interval that holds each `|` (ISO C 6.5.12) of operands within `full`, the range of a type.
    pub fn or(self, o: Interval, full: Interval) -> Interval
        requires full { IsTypeRange full }
        requires first { IsPart self full }
        requires second { IsPart o full }
        ensures row { result ≡ or_of self o full }
        ensures holds { Holds (Ors self o) result }
    {
        self.or_row(o, full)
    }

    /// An interval that holds each `^` (ISO C 6.5.11) of operands within `full`, the range of a type.
    pub fn xor(self, o: Interval, full: Interval) -> Interval
        requires full { IsTypeRange full }
        requires first { IsPart self full }
        requires second { IsPart o full }
        ensures row { result ≡ xor_of self o full }
        ensures holds { Holds (Xors self o) result }
    {
        self.xor_row(o, full)
    }

    /// The complements `~` (ISO C 6.5.3.3) of operands within `full`, the range of a type.
    pub fn not(self, full: Interval) -> Interval
        requires full { IsTypeRange full }
        requires operand { IsPart self full }
        ensures row { result ≡ complement_of full self }
        ensures holds { Holds (Complements full self) result }
    {
        let top = full.complement_top();
        Interval {
            lo: top - self.hi,
            hi: top - self.lo,
        }
    }

    /// An interval that holds each number as a conversion to the unsigned type of `bits` bits leaves it
    /// (ISO C 6.3.1.3).
    pub fn wrap(self, bits: u32) -> Interval
        requires { IsTrue (is_width bits) }
        ensures row { result ≡ wrap_of self bits }
        ensures holds { Holds (Residues self bits) result }
    {
        self.wrap_row(bits)
    }

    /// The row of `and`, by cases.
    fn and_row(self, o: Interval, full: Interval) -> Interval
        requires full { IsTypeRange full }
        requires first { IsPart self full }
        requires second { IsPart o full }
        ensures { result ≡ and_of self o full }
    {
        if self.are_single(o) {
            return Interval::single(self.lo & o.lo);
        }
        match (self.is_not_negative(), o.is_not_negative()) {
            (true, true) => Interval {
                lo: 0,
                hi: self.hi.min(o.hi),
            },
            (true, false) => from_zero(self.hi),
            (false, true) => from_zero(o.hi),
            (false, false) => full,
        }
    }

    /// The row of `or`, by cases.
    fn or_row(self, o: Interval, full: Interval) -> Interval
        requires full { IsTypeRange full }
        requires first { IsPart self full }
        requires second { IsPart o full }
        ensures { result ≡ or_of self o full }
    {
        if self.are_single(o) {
            Interval::single(self.lo | o.lo)
        } else if self.are_not_negative(o) {
            Interval {
                lo: self.lo.max(o.lo),
                hi: self.mask_of_highs(o),
            }
        } else {
            full
        }
    }

    /// The row of `xor`, by cases.
    fn xor_row(self, o: Interval, full: Interval) -> Interval
        requires full { IsTypeRange full }
        requires first { IsPart self full }
        requires second { IsPart o full }
        ensures { result ≡ xor_of self o full }
    {
        if self.are_single(o) {
            Interval::single(self.lo ^ o.lo)
        } else if self.are_not_negative(o) {
            from_zero(self.mask_of_highs(o))
        } else {
            full
        }
    }

    /// The row of `wrap`, by cases.
    fn wrap_row(self, bits: u32) -> Interval
        requires { IsTrue (is_width bits) }
        ensures { result ≡ wrap_of self bits }
    {
        if self.in_one_block(bits) {
            Interval {
                lo: residue(self.lo, bits),
                hi: residue(self.hi, bits),
            }
        } else {
            from_zero(power(bits) - 1)
        }
    }

    /// Whether no number is negative.
    fn is_not_negative(self) -> bool
        ensures value { result ≡ not_negative self }
        ensures whole { IsInterval self }
    {
        self.lo >= 0
    }

    /// Whether no number of either is negative.
    fn are_not_negative(self, o: Interval) -> bool
        ensures value { result ≡ (not_negative self && not_negative o) }
        ensures first { IsInterval self }
        ensures second { IsInterval o }
    {
        self.lo >= 0 && o.lo >= 0
    }

    /// The least 2^n - 1 that holds both highs.
    fn mask_of_highs(self, o: Interval) -> i128
        requires low { pos 0 ≤ℤ self.hi }
        requires first { self.hi <ℤ pos (2 ^ 64) }
        requires second { o.hi <ℤ pos (2 ^ 64) }
        ensures row { result ≡ mask_of_highs self o }
        ensures above { (self.hi ≤ℤ result) × (o.hi ≤ℤ result) }
        ensures below { result <ℤ pos (2 ^ 64) }
    {
        least_mask(self.hi.max(o.hi))
    }

    /// What a complement takes its operand from: the greatest number of an unsigned type, -1 for a signed one.
    fn complement_top(self) -> i128
        requires { IsTypeRange self }
        ensures value { result ≡ (if not_negative self then self.hi else negsuc 0) }
        ensures low { negsuc 0 ≤ℤ result }
        ensures high { result <ℤ pos (2 ^ 64) }
    {
        if self.lo >= 0 { self.hi } else { -1 }
    }

    /// Whether no bound is cut and both lie in one block of 2^bits numbers.
    fn in_one_block(self, bits: u32) -> bool
        requires { bits ≤ 64 }
        ensures { result ≡ in_one_block self bits }
    {
        !self.is_cut() && right_shift(self.lo, bits) == right_shift(self.hi, bits)
    }

    /// Whether a bound is at the limit.
    fn is_cut(self) -> bool
        ensures { result ≡ is_cut self }
    {
        self.lo == -LIMIT || self.hi == LIMIT
    }

    /// The bounds as counts of bits.
    fn as_counts(self) -> (u32, u32)
        requires { IsPart self (record { lo = pos 0; hi = pos 63 }) }
        ensures least { result.0 ≡ unsigned_abs self.lo }
        ensures most { result.1 ≡ unsigned_abs self.hi }
        ensures small { (result.0 ≤ 63) × (result.1 ≤ 63) }
        ensures whole { IsInterval self }
    {
        (self.lo as u32, self.hi as u32)
    }
}

/// A power of two.
fn power(exponent: u32) -> i128
    requires { exponent ≤ 64 }
    ensures { result ≡ pos (2 ^ exponent) }
{
    1 << exponent
}

/// A shift to the right, rounded down.
fn right_shift(x: i128, count: u32) -> i128
    requires x { IsBound x }
    requires count { count ≤ 64 }
    ensures value { result ≡ int_shr x count }
    ensures bound { IsBound result }
{
    x >> count
}

/// The numbers from 0 to `hi`.
fn from_zero(hi: i128) -> Interval
    requires low { pos 0 ≤ℤ hi }
    requires high { hi ≤ℤ high_limit }
    ensures { result ≡ record { lo = pos 0; hi = hi } }
{
    Interval { lo: 0, hi }
}

/// The least 2^n - 1 that is at least `m`.
fn least_mask(m: i128) -> i128
    requires low { pos 0 ≤ℤ m }
    requires high { m <ℤ pos (2 ^ 64) }
    ensures row { result ≡ pos (least_mask (unsigned_abs m)) }
    ensures law { IsLeastMask (unsigned_abs m) (unsigned_abs result) }
    ensures above { m ≤ℤ result }
    ensures below { result <ℤ pos (2 ^ 64) }
{
    power(128 - m.leading_zeros()) - 1
}

/// What is left of a number modulo 2^bits.
fn residue(z: i128, bits: u32) -> i128
    requires z { IsBound z }
    requires bits { bits ≤ 64 }
    ensures { result ≡ int_rem_euclid z (pos (2 ^ bits)) }
{
    z & (power(bits) - 1)
}
