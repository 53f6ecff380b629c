//! The rounds that are timed.

ghost use Rattle.std.specs.Prelude.{◌≡◌, ◌<◌, IfOk, replicate};
ghost use Rattle.sa_shared.specs.Forest.{Belongs};
ghost use Rattle.sa_shared.specs.declared.nodes.Root.{Root};

use sa_shared::{Frozen, Layer, OutOfMemory, Root, Slot};
use sa_steps::Steps;
use std::alloc::Global;
use std::marker::Brand;
use std::sync::ledger::{Blank, Ledger};

/// How many slots a tree has: the limit of cells.
const SLOTS: u32 = 65_536;

/// How many slots two trees differ in that are joined.
const CHANGED: u32 = 10;

/// Sets slots far from each other, one after another, and gives the last root.
fn set_rounds(layer: &mut Layer<u32>, root: Root, rounds: u32) -> Result<Root, OutOfMemory>
    requires slots { layer.old.slots ≡ 65536 }
    requires root { Belongs ⟦<u32 as Slot>⟧.like layer.old root }
    ensures slots { layer.new.slots ≡ 65536 }
    ensures root { IfOk result (λ made. Belongs ⟦<u32 as Slot>⟧.like layer.new made) }
    ensures older { (r : Root) → Belongs ⟦<u32 as Slot>⟧.like layer.old r → Belongs ⟦<u32 as Slot>⟧.like layer.new r }
{
    let mut last = root;
    for round in 0..rounds {
        let slot = round.wrapping_mul(40_503) % SLOTS;
        last = layer.set(last, slot, round)?;
    }
    Ok(last)
}

/// Joins two lists again and again, and gives the last join.
fn join_rounds<L: Ledger>(
    blank: Blank,
    layer: &mut Layer<u32>,
    a: Root,
    b: Root,
    rounds: u32,
) -> Result<Root, OutOfMemory>
    requires name { blank.name ≡ L.name }
    requires parts { blank.parts ≡ L.parts }
    requires some { 0 < blank.parts }
    requires slots { layer.old.slots ≡ 65536 }
    requires first { Belongs ⟦<u32 as Slot>⟧.like layer.old a }
    requires second { Belongs ⟦<u32 as Slot>⟧.like layer.old b }
    ensures slots { layer.new.slots ≡ 65536 }
    ensures root { IfOk result (λ made. Belongs ⟦<u32 as Slot>⟧.like layer.new made) }
{
    let mut steps = Steps::<L>::new(blank);
    let mut last = a;
    for _round in 0..rounds {
        last = layer.join(a, b, &mut steps)?;
    }
    Ok(last)
}

/// The sum over a root's first slots after so many sets and joins.
pub fn run(alloc: Global, sets: u32, joins: u32) -> Result<u64, OutOfMemory> {
    let (base, root) = Frozen::of(vec![in alloc; 7u32; SLOTS as usize]?)?;
    let mut layer = Layer::over(&base);
    let set = set_rounds(&mut layer, root, sets)?;
    let other = set_rounds(&mut layer, set, CHANGED)?;
    let joined = joined(&mut layer, set, other, joins)?;
    let mut sum = 0u64;
    for slot in 0..SLOTS {
        sum = sum.wrapping_add(u64::from(*layer.get(joined, slot)));
    }
    Ok(sum)
}

/// Joins that nobody counts.
fn joined(layer: &mut Layer<u32>, a: Root, b: Root, rounds: u32) -> Result<Root, OutOfMemory>
    requires slots { layer.old.slots ≡ 65536 }
    requires first { Belongs ⟦<u32 as Slot>⟧.like layer.old a }
    requires second { Belongs ⟦<u32 as Slot>⟧.like layer.old b }
    ensures slots { layer.new.slots ≡ 65536 }
    ensures root { IfOk result (λ made. Belongs ⟦<u32 as Slot>⟧.like layer.new made) }
{
    join_rounds::<Brand>(Blank::new(1), layer, a, b, rounds)
}
