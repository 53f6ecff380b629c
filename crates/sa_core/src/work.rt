//! What a job is made of: parts that can be merged in any order.

ghost use Rattle.std.specs.Prelude.{◌≡◌, ◌+◌, ◌≤◌, ℕ, Bool, IfOk, IsOk, OnOk, OnErr, IsTrue};
ghost use Rattle.sa_core.specs.Laws.{Parts, MergeLaws};

use crate::OutOfMemory;
use sa_steps::Steps;
use std::alloc::Global;
use std::sync::ledger::Ledger;

/// A work whose branches each have a part, and whose parts merge to one whatever the order and the grouping. Parts are
/// compared by their meaning, as `≡` does.
pub trait Work: Drop {
    type Part: Send + Drop;

    /// Which parts fit the work. Only these are merged.
    ghost fits: { Self → Self.Part → Type 0 };

    /// The part that stands for no branch, the part of each branch, and the merge of two parts that fit.
    ghost parts: { Self → Parts Self.Part };

    /// How many steps the part of each branch takes at most.
    ghost cost: { Self → ℕ → ℕ };

    /// Whether parts and merges never lack memory.
    ghost sure: { Self → Bool };

    fn none(&self) -> Self::Part
        ensures { result ≡ (parts self.now).none_of };

    fn part<L: Ledger>(
        &self,
        alloc: Global,
        branch: u32,
        steps: &mut Steps<L>,
    ) -> Result<Self::Part, OutOfMemory>
        ensures value { IfOk result (λ p. p ≡ (parts self.now).part_of branch) }
        ensures cost { steps.new ≤ steps.old + cost self.now branch }
        ensures sure { IsTrue (sure self.now) → IsOk result };

    /// Merges `p` into `acc`. After want of memory `acc` is as before.
    fn merge(&self, alloc: Global, acc: &mut Self::Part, p: &Self::Part) -> Result<(), OutOfMemory>
        requires acc { fits self.now acc.old }
        requires part { fits self.now p.now }
        ensures value { OnOk result (acc.new ≡ (parts self.now).merge_of acc.old p.now) }
        ensures unchanged { OnErr result (acc.new ≡ acc.old) }
        ensures sure { IsTrue (sure self.now) → IsOk result };

    ghost laws: { (w : Self) → MergeLaws (fits w) (parts w) };
}

/// A work with its number of branches, which are numbered from 0.
#[derive(Drop)]
pub struct Job<W> {
    pub work: W,
    pub branches: u32,
}
