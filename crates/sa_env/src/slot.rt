//! What stands in a slot. Nothing else in this crate knows the variants.

ghost use Rattle.std.specs.Prelude.{◌≡◌, ◌↔◌, IfOk, IsTrue};
ghost use Rattle.sa_interval.specs.Span.{IsInterval, IsPart};
ghost use Rattle.sa_env.specs.declared.slot.SlotValue.TheVariants.{Cell};
ghost use Rattle.sa_env.specs.Slots.{span_of, Alike, slot_join, SlotBelow, slot_weakened, slot_spread};
ghost use Rattle.sa_env.specs.SlotLaws.{slot_laws};

use crate::OutOfMemory;
use crate::bounds::spread_to;
use sa_interval::{Interval, Thresholds};
use sa_shared::Slot;
use std::alloc::Global;

/// The value of a slot: the interval of a cell.
#[derive(Debug, Drop)]
pub enum SlotValue {
    Cell(Interval),
}

/// Cells are alike, and the least interval above two is their join.
impl Slot for SlotValue {
    ghost like = { Alike };

    ghost join_of = { slot_join };

    ghost below = { SlotBelow };

    ghost laws = { slot_laws };

    fn copy(&self, _alloc: Global) -> Result<SlotValue, OutOfMemory> {
        Ok(SlotValue::Cell(self.span()))
    }

    fn join(&self, _alloc: Global, other: &SlotValue) -> Result<SlotValue, OutOfMemory> {
        Ok(SlotValue::Cell(self.span().join(other.span())))
    }

    fn le(&self, other: &SlotValue) -> bool {
        self.span().le(other.span())
    }
}

impl SlotValue {
    /// A cell's value.
    pub fn cell(span: Interval) -> SlotValue
        ensures value { result ≡ Cell span }
        ensures whole { IsInterval span }
    {
        let _low = span.lo();
        SlotValue::Cell(span)
    }

    /// The interval of a cell.
    pub fn span(&self) -> Interval
        ensures { result ≡ span_of self.now }
    {
        match self {
            SlotValue::Cell(span) => *span,
        }
    }

    /// The join of a cell with an interval; None where it is the cell's own.
    pub(crate) fn weakened(&self, v: Interval) -> Option<SlotValue>
        ensures { result ≡ slot_weakened v self.now }
    {
        let span = self.span();
        if v.le(span) {
            None
        } else {
            Some(SlotValue::Cell(span.join(v)))
        }
    }

    /// What pass `pass`, from 4 to 30, makes of it and a newer value; None where it stays.
    pub(crate) fn spread(
        &self,
        new: &SlotValue,
        top: &SlotValue,
        thresholds: &Thresholds,
        pass: u32,
    ) -> Option<SlotValue>
        requires old { SlotBelow self.now top.now }
        requires new { SlotBelow new.now top.now }
        ensures { result ≡ slot_spread thresholds.now pass top.now self.now new.now }
    {
        let (old, new, top) = (self.span(), new.span(), top.span());
        if new.le(old) {
            None
        } else if pass <= 20 {
            Some(SlotValue::Cell(thresholds.widen(old, new, top)))
        } else {
            Some(SlotValue::Cell(spread_to(top, old, new)))
        }
    }
}
