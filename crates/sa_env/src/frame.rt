//! What the environments of one analysis have in common.

ghost use Rattle.std.specs.Prelude.{◌≡◌, ◌≤◌, ◌<◌, ◌^◌, IfOk, length, slice_index_or};
ghost use Rattle.std.specs.List.{All};
ghost use Rattle.sa_shared.specs.Forest.{list_of};
ghost use Rattle.sa_env.specs.Flat.{IsFair, top_of, whole_clock};
ghost use Rattle.sa_env.specs.Shop.{IsBase, IsNarrow};
ghost use Rattle.sa_env.specs.Slots.{span_of, spans_of};

use crate::{OutOfMemory, SlotValue};
use sa_interval::Interval;
use sa_shared::{Frozen, Slot};
use std::alloc::Global;
use std::marker::Model;

/// The range of each cell, by its type, in the order of the cells, and the last clock. Contracts see both.
#[derive(Debug, Drop)]
pub struct Frame {
    tops: Vec<SlotValue>,
    max_clock: u64,
}

impl Model for Frame {
    ghost use Rattle.sa_env.specs.Flat.{Limits, AreLimits};
    ghost use Rattle.sa_env.specs.Slots.{spans_of};

    ghost Value = { Limits };

    ghost view = { λ f. record { tops = spans_of f.tops.items; max_clock = f.max_clock } };

    ghost invariant = { λ f. AreLimits (record { tops = spans_of f.tops.items; max_clock = f.max_clock }) };
}

impl Frame {
    /// The frame of cells with these ranges, one for each, whose clock goes from 0 to `max_clock`.
    pub fn of(spans: Vec<Interval>, max_clock: u64) -> Result<Frame, OutOfMemory>
        requires spans { All IsNarrow spans.items }
        requires clock { max_clock ≤ 2 ^ 62 }
        ensures { IfOk result (λ frame. frame ≡ record { tops = spans.items; max_clock = max_clock }) }
    {
        let mut tops = Vec::with_capacity(*spans.allocator(), spans.len())?;
        for span in &spans {
            tops.push(SlotValue::cell(*span))?;
        }
        Ok(Frame { tops, max_clock })
    }

    /// A frozen list of each slot's top, over which the first shop of an analysis stands.
    pub fn base(&self) -> Result<Frozen<SlotValue>, OutOfMemory>
        ensures base { IfOk result (λ base. IsBase self.now base) }
        ensures tops { IfOk result (λ base. spans_of (list_of base base.first) ≡ self.now.tops) }
    {
        let (base, _) = Frozen::of(self.tops()?)?;
        Ok(base)
    }

    /// Each slot's top.
    pub(crate) fn tops(&self) -> Result<Vec<SlotValue>, OutOfMemory>
        ensures { IfOk result (λ tops. spans_of tops.items ≡ self.now.tops) }
    {
        let alloc = self.allocator();
        let mut tops = Vec::with_capacity(alloc, self.tops.len())?;
        for top in &self.tops {
            tops.push(top.copy(alloc)?)?;
        }
        Ok(tops)
    }

    /// The top of a slot.
    pub(crate) fn top(&self, slot: u32) -> &SlotValue
        requires { slot < length self.now.tops }
        ensures { span_of result.now ≡ slice_index_or self.now.tops slot (span_of result.now) }
    {
        &self.tops[slot as usize]
    }

    /// From 0 to the last clock.
    pub(crate) fn clock(&self) -> Interval
        ensures value { result ≡ whole_clock self.now }
        ensures fair { IsFair self.now (top_of self.now) }
    {
        Interval::new(0, i128::from(self.max_clock))
    }

    pub(crate) fn allocator(&self) -> Global {
        *self.tops.allocator()
    }
}
