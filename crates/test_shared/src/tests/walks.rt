//! Walks over lists of eight slots and of thousands.

ghost use Rattle.std.specs.Prelude.{◌≡◌, ◌<◌, ℕ, IfOk, Some, max, unwrap_or, length};
ghost use Rattle.sa_shared.specs.Forest.{Belongs, Grows};
ghost use Rattle.test_shared.specs.Samples.{raised, widened, widened_laws};

use super::{eight, has, sevens};
use sa_shared::{Change, Combine, Fold, Layer, Root, Slot};
use std::alloc::{AllocError, Global};
use std::test::Fail;

/// Raises what is below a number to it.
#[derive(Drop)]
struct Raise {
    least: u32,
}

impl Change<u32> for Raise {
    ghost fits = { λ _ _ _. Unit {0} };

    ghost changed_of = { λ by _ x. raised by.least x };

    ghost laws = { λ _ _ _ _ _ _ _. tt };

    fn changed(&self, _alloc: Global, _slot: u32, old: &u32) -> Result<Option<u32>, AllocError> {
        if *old < self.least {
            Ok(Some(self.least))
        } else {
            Ok(None)
        }
    }
}

/// Gives a limit where the second list is above the first.
#[derive(Drop)]
struct Widen {
    limit: u32,
}

impl Combine<u32> for Widen {
    ghost fits = { λ _ _ _ _. Unit {0} };

    ghost combined_of = { λ by _ x y. widened by.limit x y };

    ghost laws = { λ by. widened_laws by.limit };

    fn combined(
        &self,
        _alloc: Global,
        _slot: u32,
        a: &u32,
        b: &u32,
    ) -> Result<Option<u32>, AllocError> {
        if *a < *b {
            Ok(Some(self.limit))
        } else {
            Ok(None)
        }
    }
}

/// What a walk over slots has seen: the first value, the last one and the greatest.
#[derive(Clone, Copy, Debug, PartialEq, Eq)]
struct Seen {
    first: Option<u32>,
    last: Option<u32>,
    greatest: u32,
}

const NOTHING: Seen = Seen {
    first: None,
    last: None,
    greatest: 0,
};

impl Fold<u32> for Seen {
    ghost fits = { λ _ _ _. Unit {0} };

    ghost with_of = { λ seen _ x. record { first = Some (unwrap_or seen.first x); last = Some x; greatest = max seen.greatest x } };

    ghost laws = { λ _ _ _ _ _ _ _. tt };

    fn with(self, _slot: u32, value: &u32) -> Seen {
        Seen {
            first: Some(self.first.unwrap_or(*value)),
            last: Some(*value),
            greatest: self.greatest.max(*value),
        }
    }
}

/// Whether the numbers from 10 to 17, with those of a range raised, are these, and whether that made another list.
fn raised(
    alloc: Global,
    from: u32,
    to: u32,
    least: u32,
    values: &[u32],
) -> Result<(bool, bool), AllocError> {
    let (base, root) = eight(alloc)?;
    let mut layer = Layer::over(&base);
    let made = layer.change(root, from, to, &Raise { least })?;
    Ok((has(&layer, made, values), made != root))
}

#[test]
fn changes_the_slots_of_a_range(rt: HostRuntime) -> Result<(), Fail> {
    let rows = [
        (0, 8, 14, [14, 14, 14, 14, 14, 15, 16, 17], true),
        (2, 5, 14, [10, 11, 14, 14, 14, 15, 16, 17], true),
        (7, 8, 20, [10, 11, 12, 13, 14, 15, 16, 20], true),
        (0, 1, 20, [20, 11, 12, 13, 14, 15, 16, 17], true),
        (3, 3, 20, [10, 11, 12, 13, 14, 15, 16, 17], false),
        (5, 2, 20, [10, 11, 12, 13, 14, 15, 16, 17], false),
        (6, 90, 20, [10, 11, 12, 13, 14, 15, 20, 20], true),
        (0, 8, 10, [10, 11, 12, 13, 14, 15, 16, 17], false),
        (5, 8, 15, [10, 11, 12, 13, 14, 15, 16, 17], false),
    ];
    for (from, to, least, wanted, changed) in rows {
        assert_eq!(rt;
            raised(rt.alloc(), from, to, least, wanted.as_slice())?,
            (true, changed)
        );
    }
    Ok(())
}

/// What is seen in a range of the numbers from 10 to 17.
fn seen_in(alloc: Global, from: u32, to: u32) -> Result<Seen, AllocError> {
    let (base, root) = eight(alloc)?;
    let layer = Layer::over(&base);
    Ok(layer.fold(root, from, to, NOTHING))
}

#[test]
fn folds_the_slots_of_a_range(rt: HostRuntime) -> Result<(), Fail> {
    let rows = [
        (0, 8, Some(10), Some(17), 17),
        (2, 5, Some(12), Some(14), 14),
        (7, 8, Some(17), Some(17), 17),
        (0, 1, Some(10), Some(10), 10),
        (3, 90, Some(13), Some(17), 17),
        (4, 4, None, None, 0),
        (5, 2, None, None, 0),
        (8, 9, None, None, 0),
    ];
    for (from, to, first, last, greatest) in rows {
        let wanted = Seen {
            first,
            last,
            greatest,
        };
        assert_eq!(rt; seen_in(rt.alloc(), from, to)?, wanted);
    }
    Ok(())
}

/// Whether the numbers from 10 to 17, widened to 99 by those with one slot set, are these, and whether that made another
/// list.
fn widened(alloc: Global, slot: u32, value: u32, values: &[u32]) -> Result<(bool, bool), AllocError>
    requires { slot < 8 }
{
    let (base, root) = eight(alloc)?;
    let mut layer = Layer::over(&base);
    let other = layer.set(root, slot, value)?;
    let made = layer.combine(root, other, &Widen { limit: 99 })?;
    Ok((has(&layer, made, values), made != root))
}

#[test]
fn combines_two_lists(rt: HostRuntime) -> Result<(), Fail> {
    let alloc = rt.alloc();
    for (slot, value, wanted, changed) in [
        (0, 11, [99, 11, 12, 13, 14, 15, 16, 17], true),
        (7, 18, [10, 11, 12, 13, 14, 15, 16, 99], true),
        (3, 1, [10, 11, 12, 13, 14, 15, 16, 17], false),
        (3, 13, [10, 11, 12, 13, 14, 15, 16, 17], false),
    ] {
        if slot < 8 {
            assert_eq!(rt;
                widened(alloc, slot, value, wanted.as_slice())?,
                (true, changed)
            );
        } else {
            assert!(rt; false);
        }
    }
    Ok(())
}

/// The root of a list that is built at once, beside a root of the layer.
fn put(layer: &mut Layer<u32>, beside: Root, list: Vec<u32>) -> Result<Root, AllocError>
    requires root { Belongs ⟦<u32 as Slot>⟧.like layer.old beside }
    requires long { length list.items ≡ layer.old.slots }
    ensures root { IfOk result (λ made. Belongs ⟦<u32 as Slot>⟧.like layer.new made) }
    ensures older { Grows ⟦<u32 as Slot>⟧.like layer.old layer.new }
{
    layer.put(list)
}

#[test]
fn puts_a_list(rt: HostRuntime) -> Result<(), Fail> {
    let alloc = rt.alloc();
    let (base, root) = eight(alloc)?;
    let mut layer = Layer::over(&base);
    let made = put(
        &mut layer,
        root,
        vec![in alloc; 20, 21, 22, 23, 24, 25, 26, 27]?,
    )?;
    assert!(rt; has(&layer, made, &[20, 21, 22, 23, 24, 25, 26, 27]));
    assert!(rt; has(&layer, root, &[10, 11, 12, 13, 14, 15, 16, 17]));
    Ok(())
}

/// What is seen in the whole list and in its first 100 slots after sevens from slot 100 on were raised to 8, the last
/// one of them was set to 9, and the sevens were widened by that list to 20.
fn many(alloc: Global, slots: u32) -> Result<[Seen; 4], AllocError>
    requires { 100 < slots }
{
    let (base, root) = sevens(alloc, slots)?;
    let mut layer = Layer::over(&base);
    let raised = layer.change(root, 100, slots, &Raise { least: 8 })?;
    let set = layer.set(raised, slots - 1, 9)?;
    let widened = layer.combine(root, set, &Widen { limit: 20 })?;
    Ok([
        layer.fold(set, 0, slots, NOTHING),
        layer.fold(set, 0, 100, NOTHING),
        layer.fold(widened, 99, slots, NOTHING),
        layer.fold(root, 0, slots, NOTHING),
    ])
}

#[test]
fn walks_over_thousands_of_slots(rt: HostRuntime) -> Result<(), Fail> {
    let wanted = [
        Seen {
            first: Some(7),
            last: Some(9),
            greatest: 9,
        },
        Seen {
            first: Some(7),
            last: Some(7),
            greatest: 7,
        },
        Seen {
            first: Some(7),
            last: Some(20),
            greatest: 20,
        },
        Seen {
            first: Some(7),
            last: Some(7),
            greatest: 7,
        },
    ];
    assert_eq!(rt; many(rt.alloc(), 2_000)?, wanted);
    assert_eq!(rt; many(rt.alloc(), 65_536)?, wanted);
    Ok(())
}
