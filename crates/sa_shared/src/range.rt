//! Walks over a range of slots.

ghost use Rattle.std.specs.Prelude.{◌≡◌, ◌+◌, ◌-◌, ◌/◌, ◌<◌, ◌≤◌, ◌↔◌, length, IfOk, IsTrue};
ghost use Rattle.sa_shared.specs.Tree.{IsTree, tree_at, values, Extends};
ghost use Rattle.sa_shared.specs.Walks.{AtEach, Within, IsKept, changed, changes, folded, in_range, step_in_range};

use crate::OutOfMemory;
use crate::nodes::Nodes;
use crate::slot::Slot;
use crate::walks::{Change, Fold};

/// The slots from one number up to another, which is not among them.
#[derive(Clone, Copy)]
pub(crate) struct Stretch {
    pub(crate) from: u32,
    pub(crate) to: u32,
}

impl Stretch {
    /// How many slots it has.
    pub(crate) fn slots(self) -> u32
        requires { self.from ≤ self.to }
        ensures { result ≡ self.to - self.from }
    {
        self.to - self.from
    }

    /// Whether it has a slot that may be in the range.
    fn meets(self, range: Stretch) -> bool
        ensures { IsTrue result ↔ ((self.from < self.to) × (range.from < self.to) × (self.from < range.to)) }
    {
        self.from < self.to && range.from < self.to && self.from < range.to
    }

    /// The number of the first slot of the right half of a tree over these slots.
    pub(crate) fn middle(self) -> u32
        requires { self.from ≤ self.to }
        ensures { result ≡ self.to - (self.to - self.from) / 2 }
    {
        self.to - (self.to - self.from) / 2
    }
}

impl<'a, T: Slot> Nodes<'a, T> {
    /// The tree over these slots with those in a range changed. A node is made for each place over a slot that changes.
    pub(crate) fn change<C: Change<T>>(
        &mut self,
        number: u32,
        over: Stretch,
        range: Stretch,
        by: &C,
    ) -> Result<u32, OutOfMemory>
        requires tree { IsTree self.old (over.to - over.from) number }
        requires order { over.from ≤ over.to }
        requires fits { AtEach (Within range.from range.to (C.fits by.now)) over.from (values (tree_at self.old number)) }
        ensures tree { IfOk result (λ n. IsTree self.new (over.to - over.from) n) }
        ensures list { IfOk result (λ n. values (tree_at self.new n)
            ≡ changed (in_range range.from range.to (C.changed_of by.now)) over.from (values (tree_at self.old number))) }
        ensures older { Extends self.old self.new }
        ensures nodes { length self.new ≤ length self.old + changes (in_range range.from range.to (C.changed_of by.now)) over.from (tree_at self.old number) }
        ensures kept { IfOk result
            (λ n. IsKept (changes (in_range range.from range.to (C.changed_of by.now)) over.from (tree_at self.old number)) number (length self.old) n) }
    {
        if !over.meets(range) {
            return Ok(number);
        }
        let slots = over.slots();
        if slots == 1 {
            let value = by.changed(self.allocator(), over.from, self.value(number))?;
            return self.with_value(number, value);
        }
        let (left, right) = self.halves(slots, number);
        let middle = over.middle();
        let front = Stretch {
            from: over.from,
            to: middle,
        };
        let behind = Stretch {
            from: middle,
            to: over.to,
        };
        let new_left = self.change(left, front, range, by)?;
        let new_right = self.change(right, behind, range, by)?;
        self.with_halves(slots, number, (left, right), (new_left, new_right))
    }

    /// What has taken in the values of the slots in a range, of a tree over these slots.
    pub(crate) fn fold<A: Fold<T>>(&self, number: u32, over: Stretch, range: Stretch, start: A) -> A
        requires tree { IsTree self.now (over.to - over.from) number }
        requires order { over.from ≤ over.to }
        requires fits { AtEach (Within range.from range.to (A.fits start)) over.from (values (tree_at self.now number)) }
        ensures { result ≡ folded (step_in_range range.from range.to A.with_of) over.from start (values (tree_at self.now number)) }
    {
        if !over.meets(range) {
            return start;
        }
        let slots = over.slots();
        if slots == 1 {
            return start.with(over.from, self.value(number));
        }
        let (left, right) = self.halves(slots, number);
        let middle = over.middle();
        let front = Stretch {
            from: over.from,
            to: middle,
        };
        let behind = Stretch {
            from: middle,
            to: over.to,
        };
        let start = self.fold(left, front, range, start);
        self.fold(right, behind, range, start)
    }
}
