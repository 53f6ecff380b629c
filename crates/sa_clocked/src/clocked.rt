ghost use Rattle.std.specs.Prelude.{◌≡◌, ◌+ℤ◌, ◌-ℤ◌, ◌≤ℤ◌, ◌⊎◌, ◌↔◌, ℤ, pos, IsTrue, IfSome, IsNone};
ghost use Rattle.sa_interval.specs.Span.{Within, IsPart, IsInterval};
ghost use Rattle.sa_clocked.specs.Triples.{HoldsOf, IsSmall, IsNear, AreSmall, IsBelow, triple_of, shifted, ticked, reduced, AreEmpty, join_of, is_below, widening_of, low_end, high_end, escape};

use sa_interval::{Interval, Thresholds};

/// What is known of a cell's value x at a clock t, in ticks: x lies in `v`, x - t in `minus`, and x + t in `plus`.
#[derive(Clone, Copy, Debug, PartialEq, Eq)]
pub struct Clocked {
    /// The value.
    pub v: Interval,
    /// The value less the clock.
    pub minus: Interval,
    /// The value and the clock together.
    pub plus: Interval,
}

impl Clocked {
    /// What is known where the value lies in `v` and the clock in `clock`.
    pub fn of(v: Interval, clock: Interval) -> Clocked
        requires v { IsSmall v }
        requires clock { IsSmall clock }
        ensures rule { result ≡ triple_of v clock }
        ensures holds { (x t : ℤ) → Within v x → Within clock t → HoldsOf result x t }
    {
        Clocked {
            v,
            minus: v.sub(clock),
            plus: v.add(clock),
        }
    }

    /// What is known of a value in `v` that is `c` more than the value of `y` at the same clock.
    pub fn assign_shift(y: Clocked, v: Interval, c: i128) -> Clocked
        requires y { AreSmall y }
        requires v { IsSmall v }
        requires c { IsNear c }
        ensures rule { result ≡ shifted y v c }
        ensures holds { (x t : ℤ) → HoldsOf y x t → Within v (x +ℤ c) → HoldsOf result (x +ℤ c) t }
    {
        let by = Interval::new(c, c);
        Clocked {
            v,
            minus: y.minus.add(by),
            plus: y.plus.add(by),
        }
    }

    /// What is known one tick later of a value that stays.
    pub fn tick(self) -> Clocked
        requires { AreSmall self }
        ensures rule { result ≡ ticked self }
        ensures holds { (x t : ℤ) → HoldsOf self x t → HoldsOf result x (t +ℤ pos 1) }
    {
        let one = Interval::new(1, 1);
        Clocked {
            v: self.v,
            minus: self.minus.sub(one),
            plus: self.plus.add(one),
        }
    }

    /// The three intervals, each met with what the others and the clock say of it: the value with `minus` and the clock, then
    /// with `plus` less the clock, and then `minus` and `plus` with the value. None exactly where a meet is empty.
    pub fn reduce(self, clock: Interval) -> Option<Clocked>
        requires triple { AreSmall self }
        requires clock { IsSmall clock }
        ensures rule { result ≡ reduced self clock }
        ensures none { IsNone result ↔ AreEmpty self clock }
        ensures holds { (x t : ℤ) → HoldsOf self x t → Within clock t → IfSome result (λ r. HoldsOf r x t) }
        ensures never { (x t : ℤ) → HoldsOf self x t → Within clock t → IsNone result → ⊥ }
        ensures below { IfSome result (λ r. IsBelow r self) }
    {
        meets(self, clock)
    }

    /// The least triple above both.
    pub fn join(self, o: Clocked) -> Clocked
        ensures rule { result ≡ join_of self o }
        ensures holds { (x t : ℤ) → HoldsOf self x t ⊎ HoldsOf o x t → HoldsOf result x t }
        ensures above { IsBelow self result × IsBelow o result }
    {
        Clocked {
            v: self.v.join(o.v),
            minus: self.minus.join(o.minus),
            plus: self.plus.join(o.plus),
        }
    }

    /// Whether each interval lies in that of `o`.
    pub fn le(self, o: Clocked) -> bool
        ensures rule { result ≡ is_below self o }
        ensures fact { IsTrue result ↔ IsBelow self o }
    {
        self.v.le(o.v) && self.minus.le(o.minus) && self.plus.le(o.plus)
    }

    /// The widening (Cousot and Cousot 1977): a bound of the value that `new` passes moves to the nearest threshold, one of
    /// the other two intervals to that of `top`.
    pub fn widen(self, new: Clocked, t: &Thresholds, top: Clocked) -> Clocked
        requires old { IsBelow self top }
        requires new { IsBelow new top }
        ensures rule { result ≡ widening_of t.now self new top }
        ensures holds { (x c : ℤ) → HoldsOf self x c ⊎ HoldsOf new x c → HoldsOf result x c }
        ensures between { IsBelow self result × IsBelow new result × IsBelow result top }
    {
        Clocked {
            v: t.widen(self.v, new.v, top.v),
            minus: escape(self.minus, new.minus, top.minus),
            plus: escape(self.plus, new.plus, top.plus),
        }
    }
}

/// The meets of a reduction, one after another.
fn meets(c: Clocked, clock: Interval) -> Option<Clocked>
    ensures { result ≡ reduced c clock }
{
    let v = c.v.meet(c.minus.add(clock))?;
    let v = v.meet(c.plus.sub(clock))?;
    let minus = c.minus.meet(v.sub(clock))?;
    let plus = c.plus.meet(v.add(clock))?;
    Some(Clocked { v, minus, plus })
}

/// The low bound of `old`, or that of `top` where `new` passes it.
fn low_end(old: Interval, new: Interval, top: Interval) -> i128
    requires { IsPart old top }
    ensures row { result ≡ low_end old.lo new.lo top.lo }
    ensures inside { (top.lo ≤ℤ result) × (result ≤ℤ old.lo) }
    ensures whole { IsInterval top × IsInterval old }
{
    let (from, to, end) = (old.lo(), new.lo(), top.lo());
    if from <= to { from } else { end }
}

/// The high bound of `old`, or that of `top` where `new` passes it.
fn high_end(old: Interval, new: Interval, top: Interval) -> i128
    requires { IsPart old top }
    ensures row { result ≡ high_end old.hi new.hi top.hi }
    ensures inside { (old.hi ≤ℤ result) × (result ≤ℤ top.hi) }
    ensures whole { IsInterval top × IsInterval old }
{
    let (from, to, end) = (old.hi(), new.hi(), top.hi());
    if to <= from { from } else { end }
}

/// The old interval, with each bound that the new one passes moved to that of `top`.
fn escape(old: Interval, new: Interval, top: Interval) -> Interval
    requires { IsPart old top }
    ensures { result ≡ escape old new top }
{
    let lo = low_end(old, new, top);
    let hi = high_end(old, new, top);
    Interval::new(lo, hi)
}
