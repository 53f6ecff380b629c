//! Linear forms of cells, and environments in which one is at most a number.

ghost use Rattle.std.specs.Prelude.{◌≡◌, ◌<◌, ◌≤ℤ◌, ◌-◌, ◌^◌, length, pos, negsuc, IfOk, IfSome};
ghost use Rattle.sa_interval.specs.Span.{IsPart, low_limit, high_limit};
ghost use Rattle.sa_env.specs.Forms.{IsForm, IsModest, span_between, cut, cut_by, imposed, least_term, term_imposed};
ghost use Rattle.sa_env.specs.Shop.{flat_of, Belongs, Keeps};

use crate::{Env, OutOfMemory, Shop};
use sa_interval::Interval;

/// A cell with its sign.
#[derive(Clone, Copy, Debug, PartialEq, Eq)]
pub struct Term {
    pub plus: bool,
    pub cell: u32,
}

/// The sum of at most two terms, whose cells differ, and a constant (octagonal constraints: Miné 2006).
#[derive(Clone, Copy, Debug, PartialEq, Eq)]
pub struct Form {
    pub first: Option<Term>,
    pub second: Option<Term>,
    pub c: i128,
}

/// The numbers from `lo` to `hi`; None where they cross.
fn between(lo: i128, hi: i128) -> Option<Interval>
    requires low { low_limit ≤ℤ lo }
    requires high { hi ≤ℤ high_limit }
    ensures value { result ≡ span_between lo hi }
    ensures ends { IfSome result (λ t. (t.lo ≡ lo) × (t.hi ≡ hi)) }
{
    if lo <= hi {
        Some(Interval::new(lo, hi))
    } else {
        None
    }
}

/// The numbers of an interval that are at most `k`, or that are at most `k` when they are taken from 0; None where there
/// is none.
fn cut(plus: bool, k: i128, s: Interval) -> Option<Interval>
    requires low { negsuc (2 ^ 110 - 1) ≤ℤ k }
    requires high { k ≤ℤ pos (2 ^ 110) }
    ensures value { result ≡ cut plus k s }
    ensures part { IfSome result (λ t. IsPart t s) }
{
    if plus {
        between(s.lo(), s.hi().min(k))
    } else {
        between(s.lo().max(-k), s.hi())
    }
}

impl<'a> Shop<'a> {
    /// The environment in which a term is at most `k`.
    fn impose_term(&mut self, e: &Env, t: Term, k: i128) -> Result<Env, OutOfMemory>
        requires belongs { Belongs self.old e.now }
        requires cell { t.cell < length self.old.limits.tops }
        requires low { negsuc (2 ^ 110 - 1) ≤ℤ k }
        requires high { k ≤ℤ pos (2 ^ 110) }
        ensures belongs { IfOk result (λ made. Belongs self.new made) }
        ensures value { IfOk result (λ made. flat_of self.new made ≡ term_imposed t k (flat_of self.old e.now)) }
        ensures older { Keeps self.old self.new }
    {
        let Some(s) = self.cell(e, t.cell) else {
            return Ok(Env::Dead);
        };
        match cut(t.plus, k, s) {
            None => Ok(Env::Dead),
            Some(s) => self.assign(e, t.cell, s),
        }
    }

    /// The least number of a term, 0 in the dead environment.
    fn least_term(&self, e: &Env, t: Term) -> i128
        requires belongs { Belongs self.now e.now }
        requires cell { t.cell < length self.now.limits.tops }
        ensures value { result ≡ least_term t (flat_of self.now e.now) }
        ensures low { low_limit ≤ℤ result }
        ensures high { result ≤ℤ high_limit }
    {
        match self.cell(e, t.cell) {
            None => 0,
            Some(s) => { if t.plus { s.lo() } else { -s.hi() } }
        }
    }

    /// The environment in which the sum of two terms is at most `k`, of which the first is cut.
    fn cut_by(&mut self, e: &Env, t: Term, u: Term, k: i128) -> Result<Env, OutOfMemory>
        requires belongs { Belongs self.old e.now }
        requires first { t.cell < length self.old.limits.tops }
        requires second { u.cell < length self.old.limits.tops }
        requires low { negsuc (2 ^ 70 - 1) ≤ℤ k }
        requires high { k ≤ℤ pos (2 ^ 70) }
        ensures belongs { IfOk result (λ made. Belongs self.new made) }
        ensures value { IfOk result (λ made. flat_of self.new made ≡ cut_by t u k (flat_of self.old e.now)) }
        ensures older { Keeps self.old self.new }
    {
        let k = k - self.least_term(e, u);
        self.impose_term(e, t, k)
    }

    /// The environment in which a form is at most `k`: each of its cells is cut by what the other one may be, the first
    /// one first. Where a cell has no number left, it is dead.
    pub fn impose(&mut self, e: &Env, f: Form, k: i128) -> Result<Env, OutOfMemory>
        requires belongs { Belongs self.old e.now }
        requires form { IsForm self.old.limits.tops f }
        requires bound { IsModest k }
        ensures belongs { IfOk result (λ made. Belongs self.new made) }
        ensures value { IfOk result (λ made. flat_of self.new made ≡ imposed f k (flat_of self.old e.now)) }
        ensures older { Keeps self.old self.new }
    {
        let k = k - f.c;
        match (f.first, f.second) {
            (None, None) => Ok(*e),
            (Some(t), None) => self.impose_term(e, t, k),
            (None, Some(t)) => self.impose_term(e, t, k),
            (Some(t), Some(u)) => {
                let e = self.cut_by(e, t, u, k)?;
                self.cut_by(&e, u, t, k)
            }
        }
    }
}
