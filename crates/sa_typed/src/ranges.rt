//! The ranges of a program's inputs.

ghost use Rattle.std.specs.Prelude.{◌≡◌, ◌<◌, ◌≤◌, ◌^◌, length, map, IfOk};
ghost use Rattle.std.specs.List.{All};
ghost use Rattle.sa_typed.specs.Gathering.{with_span};
ghost use Rattle.sa_typed.specs.Ranges.{range, spans_of, at, AreSpans, AreRanges, AreOf, IsLeastRange, between, whole_type, spans_of_type, widest};

use crate::program::{Input, Program};
use sa_base::{Num, OutOfMemory};
use std::alloc::Global;
use std::marker::Model;

/// The last clock where none is told.
const CLOCK_UNLESS_TOLD: u64 = 3_600_000;

/// The last clock, in ticks, and for each input, in the program's order, the ranges in which it lies. They may change with
/// the clock: a span `(from, lo, hi)` says that from the tick `from` on, until the next span begins, the input is a number
/// from `lo` to `hi`.
#[derive(Debug, Drop)]
pub struct Ranges {
    max_clock: u64,
    inputs: Vec<Vec<(u64, i128, i128)>>,
}

impl Model for Ranges {
    ghost use Rattle.std.specs.Prelude.{map};
    ghost use Rattle.sa_typed.specs.Ranges.{InputRanges, AreRanges};

    ghost Value = { InputRanges };

    ghost view = { λ r. record { max_clock = r.max_clock; inputs = map (λ v. v.items) r.inputs.items } };

    ghost invariant = { λ r. AreRanges (record { max_clock = r.max_clock; inputs = map (λ v. v.items) r.inputs.items }) };
}

impl Ranges {
    /// Ranges with this last clock and, for each input, these spans.
    pub fn of(max_clock: u64, inputs: Vec<Vec<(u64, i128, i128)>>) -> Ranges
        requires clock { max_clock ≤ 2 ^ 62 }
        requires spans { All (λ v. AreSpans v.items) inputs.items }
        ensures { result ≡ record { max_clock = max_clock; inputs = map (λ v. v.items) inputs.items } }
    {
        Ranges { max_clock, inputs }
    }

    /// The last clock.
    pub fn max_clock(&self) -> u64
        ensures value { result ≡ self.now.max_clock }
        ensures whole { AreRanges self.now }
    {
        self.max_clock
    }

    /// The least range, as its least and its greatest number, that holds the ranges of the input at all ticks from `from`
    /// to `to`.
    pub fn between(&self, i: u32, from: u64, to: u64) -> (i128, i128)
        requires input { i < length self.now.inputs }
        requires ordered { from ≤ to }
        ensures value { range result ≡ between (spans_of self.now i) from to }
        ensures law { IsLeastRange (at (spans_of self.now i)) from to (range result) }
    {
        over_spans(&self.inputs[i as usize], from, to)
    }

    /// Each input has its type's range at every tick, and the clock goes up to 3,600,000.
    pub fn widest(alloc: Global, program: &Program) -> Result<Ranges, OutOfMemory>
        ensures value { IfOk result (λ r. r ≡ widest program.now) }
        ensures suits { IfOk result (λ r. AreOf r program.now) }
    {
        let inputs = whole_types(alloc, program.inputs.as_slice())?;
        Ok(Ranges::of(CLOCK_UNLESS_TOLD, inputs))
    }
}

/// For each input one span with all numbers of its type.
fn whole_types(alloc: Global, inputs: &[Input]) -> Result<Vec<Vec<(u64, i128, i128)>>, OutOfMemory>
    ensures { IfOk result (λ v. map (λ v. v.items) v.items ≡ map whole_type inputs.now) }
{
    let mut spans = Vec::new(alloc);
    for input in inputs {
        spans.push(whole_type(alloc, input.num)?)?;
    }
    Ok(spans)
}

/// One span with all numbers of the type.
fn whole_type(alloc: Global, num: Num) -> Result<Vec<(u64, i128, i128)>, OutOfMemory>
    ensures { IfOk result (λ v. v.items ≡ spans_of_type num) }
{
    Ok(Vec::from_slice(alloc, &[(0, num.lo(), num.hi())])?)
}

/// The least range that holds those at all ticks from `from` to `to`.
fn over_spans(spans: &[(u64, i128, i128)], from: u64, to: u64) -> (i128, i128)
    requires spans { AreSpans spans.now }
    requires ordered { from ≤ to }
    ensures value { range result ≡ between spans.now from to }
    ensures law { IsLeastRange (at spans.now) from to (range result) }
{
    let mut held = (0, 0);
    for span in spans {
        held = with_span(held, *span, from, to);
    }
    held
}

/// What `held` becomes by one more span, which begins after those that `held` is made of.
#[tactic(auto, unfolding(crate::specs::Gathering::with_span), using(std::proofs::lemmas::Int::ints))]
fn with_span(held: (i128, i128), span: (u64, i128, i128), from: u64, to: u64) -> (i128, i128)
    ensures { range result ≡ with_span from to (range held) span }
{
    let (begin, lo, hi) = span;
    if begin <= from {
        (lo, hi)
    } else if begin <= to {
        (held.0.min(lo), held.1.max(hi))
    } else {
        held
    }
}
