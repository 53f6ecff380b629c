//! What is done with slots on a walk over them. Slots are numbered from 0 in the list's order.

ghost use Rattle.std.specs.Prelude.{◌≡◌, ℕ, IfOk, Option, Some};
ghost use Rattle.sa_shared.specs.Walks.{CombineLaws};

use crate::OutOfMemory;
use crate::slot::Slot;
use std::alloc::Global;

/// A change of slots, each by its number and its value alone.
pub trait Change<T: Slot> {
    /// Which values it may be asked about, and at which slots.
    ghost fits: { Self → ℕ → T → Type 0 };

    /// The value that a slot gets, none where it keeps its own.
    ghost changed_of: { Self → ℕ → T → Option T };

    /// The value that the slot gets, `None` where it keeps its own.
    fn changed(&self, alloc: Global, slot: u32, old: &T) -> Result<Option<T>, OutOfMemory>
        requires { fits self.now slot old.now }
        ensures { IfOk result (λ made. made ≡ changed_of self.now slot old.now) };

    ghost laws: { (c : Self) (k : ℕ) (x y : T) → T.like x x → fits c k x → changed_of c k x ≡ Some y → T.like x y };
}

/// A combination of two lists, slot by slot, by a slot's number and its two values alone.
pub trait Combine<T: Slot> {
    /// Which pairs of values it may be asked about, and at which slots.
    ghost fits: { Self → ℕ → T → T → Type 0 };

    /// The value that a slot gets, none where it keeps the first one.
    ghost combined_of: { Self → ℕ → T → T → Option T };

    /// The value that the slot gets, `None` where it keeps the first one.
    fn combined(&self, alloc: Global, slot: u32, a: &T, b: &T) -> Result<Option<T>, OutOfMemory>
        requires { fits self.now slot a.now b.now }
        ensures { IfOk result (λ made. made ≡ combined_of self.now slot a.now b.now) };

    ghost laws: { (c : Self) → CombineLaws T.like (fits c) (combined_of c) };
}

/// What takes in the values of slots, one after another.
pub trait Fold<T: Slot> {
    /// Which values it may take in next, and of which slots.
    ghost fits: { Self → ℕ → T → Type 0 };

    /// What it is after one more slot's value.
    ghost with_of: { Self → ℕ → T → Self };

    /// Itself with one more slot's value.
    fn with(self, slot: u32, value: &T) -> Self
        requires { fits self slot value.now }
        ensures { result ≡ with_of self slot value.now };

    ghost laws: { (a : Self) (j k : ℕ) (x y : T) → fits a j x → fits a k y → fits (with_of a j x) k y };
}
