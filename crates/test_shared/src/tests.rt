//! A tree of eight slots, with one slot set, and trees of as many slots as there may be.

ghost use Rattle.std.specs.Prelude.{◌≡◌, ◌<◌, IfOk, length};
ghost use Rattle.sa_shared.specs.Forest.{Belongs, Grows};

mod walks;

use sa_shared::{Frozen, Layer, Root, Slot};
use sa_steps::Steps;
use std::alloc::{AllocError, Global};
use std::marker::Brand;
use std::sync::ledger::{Blank, Ledger};
use std::test::Fail;

/// The numbers from 10 to 17.
fn eight(alloc: Global) -> Result<(Frozen<u32>, Root), AllocError>
    ensures slots { IfOk result (λ made. made.0.slots ≡ 8) }
    ensures root { IfOk result (λ made. Belongs ⟦<u32 as Slot>⟧.like made.0 made.1) }
{
    let list = vec![in alloc; 10, 11, 12, 13, 14, 15, 16, 17]?;
    Frozen::of(list)
}

/// Whether these are the values of a root's slots.
fn has(layer: &Layer<u32>, root: Root, values: &[u32]) -> bool
    requires root { Belongs ⟦<u32 as Slot>⟧.like layer.now root }
{
    let mut slot = 0;
    for value in values {
        if slot >= layer.slots() || *layer.get(root, slot) != *value {
            return false;
        }
        slot += 1;
    }
    slot == layer.slots()
}

#[test]
fn sets_one_slot(rt: HostRuntime) -> Result<(), Fail> {
    let alloc = rt.alloc();
    let (base, root) = eight(alloc)?;
    let mut layer = Layer::over(&base);
    let set = layer.set(root, 5, 9)?;
    assert!(rt; has(&layer, set, &[10, 11, 12, 13, 14, 9, 16, 17]));
    assert!(rt; has(&layer, root, &[10, 11, 12, 13, 14, 15, 16, 17]));
    assert!(rt; layer.le(set, root));
    assert!(rt; !layer.le(root, set));
    Ok(())
}

/// A join that is counted in a ledger of its own.
fn counted<L: Ledger>(
    blank: Blank,
    layer: &mut Layer<u32>,
    a: Root,
    b: Root,
) -> Result<Root, AllocError>
    requires name { blank.name ≡ L.name }
    requires parts { blank.parts ≡ L.parts }
    requires some { 0 < blank.parts }
    requires first { Belongs ⟦<u32 as Slot>⟧.like layer.old a }
    requires second { Belongs ⟦<u32 as Slot>⟧.like layer.old b }
    ensures root { IfOk result (λ made. Belongs ⟦<u32 as Slot>⟧.like layer.new made) }
    ensures older { Grows ⟦<u32 as Slot>⟧.like layer.old layer.new }
{
    let mut steps = Steps::<L>::new(blank);
    layer.join(a, b, &mut steps)
}

/// A join that nobody counts.
fn joined(layer: &mut Layer<u32>, a: Root, b: Root) -> Result<Root, AllocError>
    requires first { Belongs ⟦<u32 as Slot>⟧.like layer.old a }
    requires second { Belongs ⟦<u32 as Slot>⟧.like layer.old b }
    ensures root { IfOk result (λ made. Belongs ⟦<u32 as Slot>⟧.like layer.new made) }
    ensures older { Grows ⟦<u32 as Slot>⟧.like layer.old layer.new }
{
    counted::<Brand>(Blank::new(1), layer, a, b)
}

#[test]
fn joins_two_lists(rt: HostRuntime) -> Result<(), Fail> {
    let alloc = rt.alloc();
    let (base, root) = eight(alloc)?;
    let mut layer = Layer::over(&base);
    let low = layer.set(root, 5, 9)?;
    let high = layer.set(root, 2, 99)?;
    let both = joined(&mut layer, low, high)?;
    assert!(rt; has(&layer, both, &[10, 11, 99, 13, 14, 15, 16, 17]));
    assert!(rt; has(&layer, low, &[10, 11, 12, 13, 14, 9, 16, 17]));
    Ok(())
}

#[test]
fn compacts_two_roots(rt: HostRuntime) -> Result<(), Fail> {
    let alloc = rt.alloc();
    let (base, root) = eight(alloc)?;
    let mut layer = Layer::over(&base);
    let set = layer.set(root, 5, 9)?;
    let (kept, roots) = layer.compact(&[set, root])?;
    let again = Layer::over(&kept);
    assert!(rt; kept.first() == roots[0]);
    assert!(rt; has(&again, roots[0], &[10, 11, 12, 13, 14, 9, 16, 17]));
    assert!(rt; has(&again, roots[1], &[10, 11, 12, 13, 14, 15, 16, 17]));
    Ok(())
}

/// So many slots, all of them 7.
fn sevens(alloc: Global, slots: u32) -> Result<(Frozen<u32>, Root), AllocError>
    ensures slots { IfOk result (λ made. made.0.slots ≡ slots) }
    ensures root { IfOk result (λ made. Belongs ⟦<u32 as Slot>⟧.like made.0 made.1) }
{
    Frozen::of(vec![in alloc; 7; slots as usize]?)
}

/// The first two slots and the last one, after the first and the last were set apart, joined and copied; and the first one
/// of the list before.
fn ends_set(alloc: Global, slots: u32) -> Result<[u32; 4], AllocError>
    requires { 1 < slots }
{
    let (base, root) = sevens(alloc, slots)?;
    let mut layer = Layer::over(&base);
    let first = layer.set(root, 0, 8)?;
    let last = layer.set(root, slots - 1, 9)?;
    let both = joined(&mut layer, first, last)?;
    let (kept, roots) = layer.compact(&[both])?;
    let again = Layer::over(&kept);
    Ok([
        *again.get(roots[0], 0),
        *again.get(roots[0], 1),
        *again.get(roots[0], slots - 1),
        *layer.get(root, 0),
    ])
}

#[test]
fn sets_and_compacts_as_many_slots_as_there_may_be(rt: HostRuntime) -> Result<(), Fail> {
    assert_eq!(rt; ends_set(rt.alloc(), 65_536)?, [8, 7, 9, 7]);
    Ok(())
}
