//! Layers of new lists over a frozen part.

ghost use Rattle.std.specs.Prelude.{◌≡◌, ℕ, ◌+◌, ◌-◌, take, drop, ◌*◌, ◌^◌, ◌<◌, ◌≤◌, ◌↔◌, length, map, slice_get, slice_index_or, slice_set, Some, IfOk, OnOk, IsTrue};
ghost use Rattle.std.specs.List.{All};
ghost use Rattle.sa_shared.specs.Slots.{slotwise, EachSlot};
ghost use Rattle.sa_shared.specs.Tree.{differences, visits, way_length};
ghost use Rattle.sa_shared.specs.Walks.{in_range, changed, combined, folded, changes, combines, InRange, AtEachSlot};
ghost use Rattle.sa_shared.specs.Forest.{list_of, tree_of, reached, Belongs, Grows};

use crate::OutOfMemory;
use crate::frozen::Frozen;
use crate::nodes::{Nodes, Root};
use crate::range::Stretch;
use crate::slot::Slot;
use crate::walks::{Change, Combine, Fold};
use sa_steps::Steps;
use std::marker::Model;
use std::sync::ledger::Ledger;

/// A frozen part, and lists that were made from its lists since. Contracts see both as one, as they see a frozen
/// part. A root belongs to a layer where it names a list of the layer or of its base. No call changes a node: where
/// one answers `OutOfMemory`, every older root stands for the list that it stood for.
#[derive(Drop)]
pub struct Layer<'a, T: Slot> {
    slots: u32,
    first: Root,
    nodes: Nodes<'a, T>,
}

impl<'a, T: Slot> Model for Layer<'a, T> {
    ghost use Rattle.sa_shared.specs.Forest.{Forest, Belongs};

    ghost Value = { Forest T };

    ghost view = { λ l. record { slots = l.slots; first = l.first; nodes = l.nodes } };

    ghost invariant = { λ l. Belongs T.like (record { slots = l.slots; first = l.first; nodes = l.nodes }) l.first };
}

impl<'a, T: Slot> Layer<'a, T> {
    /// A layer with the lists of the base alone.
    pub fn over(base: &'a Frozen<T>) -> Layer<'a, T>
        ensures { result ≡ base.now }
    {
        Layer {
            slots: base.slots,
            first: base.first,
            nodes: Nodes::over(*base.nodes.allocator(), base.nodes.as_slice()),
        }
    }

    /// How many slots each list has.
    pub fn slots(&self) -> u32
        ensures { result ≡ self.now.slots }
    {
        self.slots
    }

    /// The value of a slot.
    pub fn get(&self, r: Root, slot: u32) -> &T
        requires root { Belongs T.like self.now r }
        requires slot { slot < self.now.slots }
        ensures { slice_get (list_of self.now r) slot ≡ Some result.now }
    {
        self.nodes.get(self.slots, r.node, slot)
    }

    /// The root of the same list with another value in a slot. It adds at most a node for each one on the way from
    /// the root to the slot.
    pub fn set(&mut self, r: Root, slot: u32, v: T) -> Result<Root, OutOfMemory>
        requires root { Belongs T.like self.old r }
        requires slot { slot < self.old.slots }
        requires like { T.like v (slice_index_or (list_of self.old r) slot v) }
        ensures root { IfOk result (λ made. Belongs T.like self.new made) }
        ensures list { IfOk result (λ made. list_of self.new made ≡ slice_set (list_of self.old r) slot v) }
        ensures older { Grows T.like self.old self.new }
        ensures nodes { length self.new.nodes ≤ length self.old.nodes + way_length (tree_of self.old r) slot }

        // a way through at most 2^d slots has at most d + 1 nodes: 17 for 65,536 slots
        ensures depth { (d : ℕ) → self.old.slots ≤ 2 ^ d → length self.new.nodes ≤ length self.old.nodes + (d + 1) }
    {
        let node = self.nodes.set(self.slots, r.node, slot, v)?;
        Ok(Root { node })
    }

    /// The root of a list that is built at once. A tree of n slots has 2n - 1 nodes, one of no slots has one.
    pub fn put(&mut self, list: Vec<T>) -> Result<Root, OutOfMemory>
        requires alike { EachSlot T.like (list_of self.old self.old.first) list.items }
        ensures root { IfOk result (λ made. Belongs T.like self.new made) }
        ensures list { IfOk result (λ made. list_of self.new made ≡ list.items) }
        ensures older { Grows T.like self.old self.new }
        ensures nodes { length self.new.nodes ≤ length self.old.nodes + (1 + 2 * (self.old.slots - 1)) }
    {
        let mut list = list;
        let node = self.nodes.build(&mut list, self.slots)?;
        Ok(Root { node })
    }

    /// The root of the same list with the slots of a range changed, from the first number up to the second, which is
    /// not among them. It adds a node for each place over a slot that changes, and no other.
    pub fn change<C: Change<T>>(
        &mut self,
        r: Root,
        from: u32,
        to: u32,
        by: &C,
    ) -> Result<Root, OutOfMemory>
        requires root { Belongs T.like self.old r }
        requires fits { InRange from to (C.fits by.now) (list_of self.old r) }
        ensures root { IfOk result (λ made. Belongs T.like self.new made) }
        ensures list { IfOk result (λ made. list_of self.new made ≡ changed (in_range from to (C.changed_of by.now)) 0 (list_of self.old r)) }
        ensures older { Grows T.like self.old self.new }
        ensures nodes { length self.new.nodes ≤ length self.old.nodes + changes (in_range from to (C.changed_of by.now)) 0 (tree_of self.old r) }
        ensures same { IfOk result (λ made. changes (in_range from to (C.changed_of by.now)) 0 (tree_of self.old r) ≡ 0 → made ≡ r) }
    {
        let over = Stretch {
            from: 0,
            to: self.slots,
        };
        let node = self.nodes.change(r.node, over, Stretch { from, to }, by)?;
        Ok(Root { node })
    }

    /// What takes in the values of a range's slots in their order, from the first number up to the second, which is
    /// not among them.
    pub fn fold<A: Fold<T>>(&self, r: Root, from: u32, to: u32, start: A) -> A
        requires root { Belongs T.like self.now r }
        requires fits { InRange from to (A.fits start) (list_of self.now r) }
        ensures { result ≡ folded A.with_of from start (take (to - from) (drop from (list_of self.now r))) }
    {
        let over = Stretch {
            from: 0,
            to: self.slots,
        };
        self.nodes.fold(r.node, over, Stretch { from, to }, start)
    }

    /// The root of the slot-wise combination of two lists. Halves that both lists share are not entered, and it adds
    /// a node for each place over a slot that changes, and no other.
    pub fn combine<C: Combine<T>>(&mut self, a: Root, b: Root, by: &C) -> Result<Root, OutOfMemory>
        requires first { Belongs T.like self.old a }
        requires second { Belongs T.like self.old b }
        requires fits { AtEachSlot (C.fits by.now) (list_of self.old a) (list_of self.old b) }
        ensures root { IfOk result (λ made. Belongs T.like self.new made) }
        ensures list { IfOk result (λ made. list_of self.new made ≡ combined (C.combined_of by.now) 0 (list_of self.old a) (list_of self.old b)) }
        ensures older { Grows T.like self.old self.new }
        ensures nodes { length self.new.nodes ≤ length self.old.nodes + combines (C.combined_of by.now) 0 (tree_of self.old a) (tree_of self.old b) }
        ensures differences { length self.new.nodes ≤ length self.old.nodes + differences (tree_of self.old a) (tree_of self.old b) }
        ensures same { IfOk result (λ made. combines (C.combined_of by.now) 0 (tree_of self.old a) (tree_of self.old b) ≡ 0 → made ≡ a) }
    {
        let over = Stretch {
            from: 0,
            to: self.slots,
        };
        let node = self.nodes.combine(a.node, b.node, over, by)?;
        Ok(Root { node })
    }

    /// The root of the slot-wise join of two lists. Each pair of nodes that it visits is a step, and halves that
    /// both lists share are not entered.
    pub fn join<L: Ledger>(
        &mut self,
        a: Root,
        b: Root,
        steps: &mut Steps<L>,
    ) -> Result<Root, OutOfMemory>
        requires first { Belongs T.like self.old a }
        requires second { Belongs T.like self.old b }
        ensures root { IfOk result (λ made. Belongs T.like self.new made) }
        ensures list { IfOk result (λ made. list_of self.new made ≡ slotwise T.join_of (list_of self.old a) (list_of self.old b)) }
        ensures older { Grows T.like self.old self.new }
        ensures nodes { length self.new.nodes ≤ length self.old.nodes + differences (tree_of self.old a) (tree_of self.old b) }
        ensures counted { OnOk result (steps.new ≡ steps.old + visits (tree_of self.old a) (tree_of self.old b)) }
        ensures visits { steps.new ≤ steps.old + (2 * differences (tree_of self.old a) (tree_of self.old b) + 1) }
    {
        let node = self.nodes.join(self.slots, a.node, b.node, steps)?;
        Ok(Root { node })
    }

    /// Whether each slot's value is the same in the second list, or greater.
    pub fn le(&self, a: Root, b: Root) -> bool
        requires first { Belongs T.like self.now a }
        requires second { Belongs T.like self.now b }
        ensures { IsTrue result ↔ EachSlot T.below (list_of self.now a) (list_of self.now b) }
    {
        self.nodes.le(self.slots, a.node, b.node)
    }

    /// A new frozen part of these lists alone, and their roots in it, in the same order. The first one's root is
    /// the part's first.
    pub fn compact(&self, roots: &[Root]) -> Result<(Frozen<T>, Vec<Root>), OutOfMemory>
        requires some { 0 < length roots.now }
        requires roots { All (Belongs T.like self.now) roots.now }
        ensures lists { IfOk result (λ made. map (list_of made.0) made.1.items ≡ map (list_of self.now) roots.now) }
        ensures slots { IfOk result (λ made. made.0.slots ≡ self.now.slots) }
        ensures roots { IfOk result (λ made. All (Belongs T.like made.0) made.1.items) }
        ensures first { IfOk result (λ made. slice_get made.1.items 0 ≡ Some made.0.first) }
        ensures nodes { IfOk result (λ made. length made.0.nodes ≤ reached self.now.nodes roots.now (length self.now.nodes)) }
    {
        let (nodes, made) = self.nodes.copy_all(self.slots, roots)?;
        let first = made[0];
        Ok((
            Frozen {
                slots: self.slots,
                first,
                nodes,
            },
            made,
        ))
    }
}
