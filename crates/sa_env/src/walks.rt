//! What is done with slots on a walk over them.

ghost use Rattle.std.specs.Prelude.{◌≡◌, ⊤};
ghost use Rattle.sa_env.specs.Slots.{span_of, slot_weakened};
ghost use Rattle.sa_env.specs.Walks.{AreUnder, spread_at};
ghost use Rattle.sa_env.specs.Flat.{joined_to};
ghost use Rattle.sa_env.specs.WalkLaws.{cells_alike, spread_laws};

use crate::{Frame, OutOfMemory, SlotValue};
use sa_interval::{Interval, Thresholds};
use sa_shared::{Change, Combine, Fold};
use std::alloc::Global;

/// A weak assignment: a slot takes the join with an interval.
#[derive(Drop)]
pub(crate) struct Weakly {
    pub(crate) span: Interval,
}

impl Change<SlotValue> for Weakly {
    ghost fits = { λ c k x. ⊤ };

    ghost changed_of = { λ c k x. slot_weakened c.span x };

    ghost laws = { λ c k x y _ _ _. cells_alike x y };

    fn changed(
        &self,
        _alloc: Global,
        _slot: u32,
        old: &SlotValue,
    ) -> Result<Option<SlotValue>, OutOfMemory> {
        Ok(old.weakened(self.span))
    }
}

/// A step of widening, from the first list towards the second.
#[derive(Drop)]
pub(crate) struct Spread<'a> {
    pub(crate) frame: &'a Frame,
    pub(crate) thresholds: &'a Thresholds,
    pub(crate) pass: u32,
}

impl<'a> Combine<SlotValue> for Spread<'a> {
    ghost fits = { λ c. AreUnder c.frame.now.tops };

    ghost combined_of = { λ c. spread_at c.frame.now.tops c.thresholds.now c.pass };

    ghost laws = { λ c. spread_laws c.frame.now.tops c.thresholds.now c.pass };

    fn combined(
        &self,
        _alloc: Global,
        slot: u32,
        a: &SlotValue,
        b: &SlotValue,
    ) -> Result<Option<SlotValue>, OutOfMemory> {
        Ok(a.spread(b, self.frame.top(slot), self.thresholds, self.pass))
    }
}

/// The join of the cells that it has taken in; None where there were none.
#[derive(Drop)]
pub(crate) struct Hull {
    pub(crate) span: Option<Interval>,
}

impl Fold<SlotValue> for Hull {
    ghost fits = { λ h k x. ⊤ };

    ghost with_of = { λ h k x. record { span = joined_to h.span (span_of x) } };

    ghost laws = { λ h j k x y _ _. tt };

    fn with(self, _slot: u32, value: &SlotValue) -> Hull {
        let span = match self.span {
            None => value.span(),
            Some(span) => span.join(value.span()),
        };
        Hull { span: Some(span) }
    }
}
