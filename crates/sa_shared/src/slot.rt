//! What a slot's value can do.

ghost use Rattle.std.specs.Prelude.{◌≡◌, ◌↔◌, IfOk, IsTrue};
ghost use Rattle.std.specs.Prelude.{max, ◌≤◌};
ghost use Rattle.sa_shared.specs.Slots.{SlotLaws, number_laws};

use crate::OutOfMemory;
use std::alloc::Global;

/// A value that joins with those that are like it. What is like a value, for contracts alone, is what may stand in
/// its slot: values of one kind over the same names, say. The laws make `le` a partial order on alike values, and
/// `join` its least upper bound.
pub trait Slot: Drop {
    ghost like: { Self → Self → Type 0 };

    ghost join_of: { Self → Self → Self };

    ghost below: { Self → Self → Type 0 };

    /// An equal value.
    fn copy(&self, alloc: Global) -> Result<Self, OutOfMemory>
        ensures { IfOk result (λ x. x ≡ self.now) };

    /// The least upper bound of both.
    fn join(&self, alloc: Global, other: &Self) -> Result<Self, OutOfMemory>
        requires { like self.now other.now }
        ensures { IfOk result (λ x. x ≡ join_of self.now other.now) };

    /// Whether the other is the same or greater.
    fn le(&self, other: &Self) -> bool
        requires { like self.now other.now }
        ensures { IsTrue result ↔ below self.now other.now };

    ghost laws: { SlotLaws like join_of below };
}

/// Numbers are all alike, and the greater of two is their join.
impl Slot for u32 {
    ghost like = { λ _ _. Unit {0} };

    ghost join_of = { max };

    ghost below = { ◌≤◌ };

    ghost laws = { number_laws };

    fn copy(&self, _alloc: Global) -> Result<u32, OutOfMemory> {
        Ok(*self)
    }

    fn join(&self, _alloc: Global, other: &u32) -> Result<u32, OutOfMemory> {
        Ok((*self).max(*other))
    }

    fn le(&self, other: &u32) -> bool {
        *self <= *other
    }
}
