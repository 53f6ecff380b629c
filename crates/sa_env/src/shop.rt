//! Shops, and what is done with their environments.

ghost use Rattle.std.specs.Prelude.{◌≡◌, ℕ, ◌+◌, ◌<◌, ◌≤◌, ◌↔◌, length, map, slice_index_or, IfOk, IfSome, IsNone, IsTrue, pos};
ghost use Rattle.std.specs.List.{All, list_any};
ghost use Rattle.sa_interval.specs.Span.{IsPart};
ghost use Rattle.sa_shared.specs.Forest.{list_of, reached, Grows};
ghost use Rattle.sa_shared.specs.Forest as shared;
ghost use Rattle.sa_shared.specs.Slots.{slotwise};
ghost use Rattle.sa_env.specs.Slots.{Alike, slot_join, spans_of};
ghost use Rattle.sa_env.specs.Flat.{dead, live, IsIn, is_below, IsBelow, IsFair, whole_clock, top_of, join, clock_of, cells_of, cell_of, join_between, assigned, weakly_assigned, ticked, with_clock, spread, widened};
ghost use Rattle.sa_env.specs.Shop.{IsBase, shop_over, flat_of, env_at, is_live, roots_of, with_roots, Belongs, Keeps};

use crate::bounds::widened_clock;
use crate::walks::{Hull, Spread, Weakly};
use crate::{Env, Frame, OutOfMemory, SlotValue};
use sa_interval::{Interval, Thresholds};
use sa_shared::{Frozen, Layer, Root, Slot};
use sa_steps::Steps;
use std::alloc::Global;
use std::marker::{Brand, Model};
use std::sync::ledger::{Blank, Ledger};

/// Makes environments: a layer of lists over a frozen part, with the frame of the analysis. An environment belongs to
/// the shop that made it, or to the one over the frozen part with which it came. Contracts see the frame's limits and
/// the lists. No call changes what an environment stands for: where one answers `OutOfMemory`, every older one stands
/// for what it stood for.
#[derive(Drop)]
pub struct Shop<'a> {
    frame: &'a Frame,
    layer: Layer<'a, SlotValue>,
}

impl<'a> Model for Shop<'a> {
    ghost use Rattle.sa_env.specs.Shop.{Stock, IsBase};

    ghost Value = { Stock };

    ghost view = { λ s. record { limits = s.frame.now; lists = s.layer } };

    ghost invariant = { λ s. IsBase s.frame.now s.layer };
}

impl<'a> Shop<'a> {
    /// A shop over a frozen part, with the environments that came with it.
    pub fn over(frame: &'a Frame, base: &'a Frozen<SlotValue>) -> Shop<'a>
        requires base { IsBase frame.now base.now }
        ensures { result ≡ shop_over frame.now base.now }
    {
        Shop {
            frame,
            layer: Layer::over(base),
        }
    }

    /// The environment of every clock and every number of each cell's range.
    pub fn top(&mut self) -> Result<Env, OutOfMemory>
        ensures belongs { IfOk result (λ made. Belongs self.new made) }
        ensures value { IfOk result (λ made. flat_of self.new made ≡ top_of self.old.limits) }
        ensures older { Keeps self.old self.new }
    {
        let clock = self.frame.clock();
        let root = self.layer.put(self.frame.tops()?)?;
        Ok(Env::Live { clock, root })
    }

    /// The interval of a cell; None exactly for the dead environment.
    pub fn cell(&self, e: &Env, c: u32) -> Option<Interval>
        requires belongs { Belongs self.now e.now }
        requires cell { c < length self.now.limits.tops }
        ensures value { result ≡ cell_of c (flat_of self.now e.now) }
        ensures none { IsNone result ↔ (flat_of self.now e.now ≡ dead) }
        ensures range { IfSome result (λ s. IsIn (slice_index_or self.now.limits.tops c s) s) }
    {
        match e {
            Env::Dead => None,
            Env::Live { root, .. } => Some(self.layer.get(*root, c).span()),
        }
    }

    /// The join of so many cells from the first on; None exactly for the dead environment, and where there are none.
    pub fn cells_join(&self, e: &Env, first: u32, count: u32) -> Option<Interval>
        requires belongs { Belongs self.now e.now }
        requires cells { first + count ≤ length self.now.limits.tops }
        ensures { result ≡ join_between first count (flat_of self.now e.now) }
    {
        match e {
            Env::Dead => None,
            Env::Live { root, .. } => {
                let end = self.end(first, count);
                let none = Hull { span: None };
                self.layer.fold(*root, first, end, none).span
            }
        }
    }

    /// The number of the slot behind so many from the first on.
    fn end(&self, first: u32, count: u32) -> u32
        requires { first + count ≤ length self.now.limits.tops }
        ensures { result ≡ first + count }
    {
        let slots = self.layer.slots();
        prove!(count <= slots && first <= slots - count);
        first + count
    }

    /// The interval of the clock; None exactly for the dead environment.
    pub fn clock(&self, e: &Env) -> Option<Interval>
        requires belongs { Belongs self.now e.now }
        ensures value { result ≡ clock_of (flat_of self.now e.now) }
        ensures none { IsNone result ↔ (flat_of self.now e.now ≡ dead) }
        ensures range { IfSome result (λ t. IsIn (whole_clock self.now.limits) t) }
    {
        match e {
            Env::Dead => None,
            Env::Live { clock, .. } => Some(*clock),
        }
    }

    /// The environment after a strong assignment to a cell: it has the value, and no older one.
    pub fn assign(&mut self, e: &Env, c: u32, v: Interval) -> Result<Env, OutOfMemory>
        requires belongs { Belongs self.old e.now }
        requires cell { c < length self.old.limits.tops }
        requires range { IsPart v (slice_index_or self.old.limits.tops c v) }
        ensures belongs { IfOk result (λ made. Belongs self.new made) }
        ensures value { IfOk result (λ made. flat_of self.new made ≡ assigned c v (flat_of self.old e.now)) }
        ensures older { Keeps self.old self.new }
    {
        match e {
            Env::Dead => Ok(Env::Dead),
            Env::Live { clock, root } => {
                let root = self.layer.set(*root, c, SlotValue::cell(v))?;
                Ok(Env::Live {
                    clock: *clock,
                    root,
                })
            }
        }
    }

    /// The environment after a weak assignment to so many cells from the first on: one of them has the value and the
    /// others keep theirs, so each takes the join of its own with the value. It goes over the range once.
    pub fn assign_weak_range(
        &mut self,
        e: &Env,
        first: u32,
        count: u32,
        v: Interval,
    ) -> Result<Env, OutOfMemory>
        requires belongs { Belongs self.old e.now }
        requires cells { first + count ≤ length self.old.limits.tops }
        requires ranges { (k : ℕ) → first ≤ k → k < first + count → IsPart v (slice_index_or self.old.limits.tops k v) }
        ensures belongs { IfOk result (λ made. Belongs self.new made) }
        ensures value { IfOk result (λ made. flat_of self.new made ≡ weakly_assigned first count v (flat_of self.old e.now)) }
        ensures older { Keeps self.old self.new }
    {
        match e {
            Env::Dead => Ok(Env::Dead),
            Env::Live { clock, root } => {
                let end = self.end(first, count);
                let by = Weakly { span: v };
                let root = self.layer.change(*root, first, end, &by)?;
                Ok(Env::Live {
                    clock: *clock,
                    root,
                })
            }
        }
    }

    /// The environment after a weak assignment to a cell that stands for several elements.
    pub fn assign_weak(&mut self, e: &Env, c: u32, v: Interval) -> Result<Env, OutOfMemory>
        requires belongs { Belongs self.old e.now }
        requires cell { c < length self.old.limits.tops }
        requires range { IsPart v (slice_index_or self.old.limits.tops c v) }
        ensures belongs { IfOk result (λ made. Belongs self.new made) }
        ensures value { IfOk result (λ made. flat_of self.new made ≡ weakly_assigned c 1 v (flat_of self.old e.now)) }
        ensures older { Keeps self.old self.new }
    {
        self.assign_weak_range(e, c, 1, v)
    }

    /// The environment of this clock with these slots, in their order.
    pub fn put(&mut self, clock: Interval, slots: Vec<SlotValue>) -> Result<Env, OutOfMemory>
        requires fair { IsFair self.old.limits (live clock (spans_of slots.items)) }
        ensures belongs { IfOk result (λ made. Belongs self.new made) }
        ensures value { IfOk result (λ made. flat_of self.new made ≡ live clock (spans_of slots.items)) }
        ensures older { Keeps self.old self.new }
    {
        let root = self.layer.put(slots)?;
        Ok(Env::Live { clock, root })
    }

    /// Copies of the slots in their order; none for the dead environment.
    pub fn slots(&self, e: &Env) -> Result<Vec<SlotValue>, OutOfMemory>
        requires belongs { Belongs self.now e.now }
        ensures { IfOk result (λ slots. spans_of slots.items ≡ cells_of (flat_of self.now e.now)) }
    {
        let alloc = self.frame.allocator();
        match e {
            Env::Dead => Ok(Vec::new(alloc)),
            Env::Live { root, .. } => copies(alloc, &self.layer, *root),
        }
    }

    /// The environment after the wait: the clock adds 1, up to the last one; dead where it can't. The cells stay.
    pub fn tick(&mut self, e: &Env) -> Result<Env, OutOfMemory>
        requires belongs { Belongs self.old e.now }
        ensures belongs { IfOk result (λ made. Belongs self.new made) }
        ensures value { IfOk result (λ made. flat_of self.new made ≡ ticked self.old.limits (flat_of self.old e.now)) }
        ensures older { Keeps self.old self.new }
    {
        let (clock, root) = match e {
            Env::Dead => return Ok(Env::Dead),
            Env::Live { clock, root } => (clock, root),
        };
        let next = clock.add(Interval::new(1, 1));
        Ok(env_at(next.meet(self.frame.clock()), *root))
    }

    /// The environment with the same cells at the clock of another one; dead where one of them is.
    pub fn with_clock(&self, e: &Env, of: &Env) -> Env
        requires belongs { Belongs self.now e.now }
        requires of { Belongs self.now of.now }
        ensures belongs { Belongs self.now result }
        ensures value { flat_of self.now result ≡ with_clock (flat_of self.now e.now) (flat_of self.now of.now) }
    {
        match e {
            Env::Dead => Env::Dead,
            Env::Live { root, .. } => env_at(self.clock(of), *root),
        }
    }

    /// The least environment above both.
    pub fn join(&mut self, a: &Env, b: &Env) -> Result<Env, OutOfMemory>
        requires first { Belongs self.old a.now }
        requires second { Belongs self.old b.now }
        ensures belongs { IfOk result (λ made. Belongs self.new made) }
        ensures value { IfOk result (λ made. flat_of self.new made ≡ join (flat_of self.old a.now) (flat_of self.old b.now)) }
        ensures older { Keeps self.old self.new }
    {
        match (a, b) {
            (Env::Dead, _) => Ok(*b),
            (_, Env::Dead) => Ok(*a),
            (
                Env::Live { clock, root },
                Env::Live {
                    clock: other_clock,
                    root: other_root,
                },
            ) => {
                let root = joined::<Brand>(Blank::new(1), &mut self.layer, *root, *other_root)?;
                Ok(Env::Live {
                    clock: clock.join(*other_clock),
                    root,
                })
            }
        }
    }

    /// What pass `pass` of a loop makes of the iterate `a` before it and of `b`: up to 3 the join, up to 20 each bound
    /// that moves goes to the nearest threshold and up to 30 to that of the cell's range, a clock that rises to the
    /// last one, and then the top.
    pub fn widen(&mut self, a: &Env, b: &Env, t: &Thresholds, pass: u32) -> Result<Env, OutOfMemory>
        requires first { Belongs self.old a.now }
        requires second { Belongs self.old b.now }
        ensures belongs { IfOk result (λ made. Belongs self.new made) }
        ensures value { IfOk result (λ made. flat_of self.new made ≡ widened self.old.limits t.now pass (flat_of self.old a.now) (flat_of self.old b.now)) }
        ensures older { Keeps self.old self.new }
    {
        if pass <= 3 {
            self.join(a, b)
        } else if pass <= 30 {
            self.spread(a, b, t, pass)
        } else {
            self.top()
        }
    }

    /// Whether the second environment holds whatever the first one holds.
    pub fn le(&self, a: &Env, b: &Env) -> bool
        requires first { Belongs self.now a.now }
        requires second { Belongs self.now b.now }
        ensures test { result ≡ is_below (flat_of self.now a.now) (flat_of self.now b.now) }
        ensures fact { IsTrue result ↔ IsBelow (flat_of self.now a.now) (flat_of self.now b.now) }
    {
        match (a, b) {
            (Env::Dead, _) => true,
            (_, Env::Dead) => false,
            (
                Env::Live { clock, root },
                Env::Live {
                    clock: other_clock,
                    root: other_root,
                },
            ) => clock.le(*other_clock) && self.layer.le(*root, *other_root),
        }
    }

    /// What a pass from 4 to 30 makes of two environments.
    fn spread(
        &mut self,
        a: &Env,
        b: &Env,
        thresholds: &Thresholds,
        pass: u32,
    ) -> Result<Env, OutOfMemory>
        requires first { Belongs self.old a.now }
        requires second { Belongs self.old b.now }
        ensures belongs { IfOk result (λ made. Belongs self.new made) }
        ensures value { IfOk result (λ made. flat_of self.new made ≡ spread self.old.limits thresholds.now pass (flat_of self.old a.now) (flat_of self.old b.now)) }
        ensures older { Keeps self.old self.new }
    {
        match (a, b) {
            (Env::Dead, _) => Ok(*b),
            (_, Env::Dead) => Ok(*a),
            (
                Env::Live { clock, root },
                Env::Live {
                    clock: other_clock,
                    root: other_root,
                },
            ) => {
                let by = Spread {
                    frame: self.frame,
                    thresholds,
                    pass,
                };
                let root = self.layer.combine(*root, *other_root, &by)?;
                Ok(Env::Live {
                    clock: widened_clock(self.frame.clock(), *clock, *other_clock),
                    root,
                })
            }
        }
    }

    /// A frozen part with these environments alone, and the environments in it that equal them, in the same order.
    pub fn freeze(&self, envs: &[Env]) -> Result<(Frozen<SlotValue>, Vec<Env>), OutOfMemory>
        requires belong { All (Belongs self.now) envs.now }
        requires some { IsTrue (list_any (is_live self.now) envs.now) }
        ensures base { IfOk result (λ made. IsBase self.now.limits made.0) }
        ensures belong { IfOk result (λ made. All (Belongs (shop_over self.now.limits made.0)) made.1.items) }
        ensures values { IfOk result (λ made. map (flat_of (shop_over self.now.limits made.0)) made.1.items ≡ map (flat_of self.now) envs.now) }
        ensures nodes { IfOk result (λ made. length made.0.nodes ≤ reached self.now.lists.nodes (roots_of envs.now) (length self.now.lists.nodes)) }
    {
        let alloc = self.frame.allocator();
        let roots = roots_of(alloc, envs)?;
        let (base, moved) = self.layer.compact(&roots)?;
        let made = with_roots(alloc, envs, &moved)?;
        Ok((base, made))
    }
}

/// The environment of this list at a clock; dead where there is no clock.
fn env_at(clock: Option<Interval>, root: Root) -> Env
    ensures { result ≡ env_at clock root }
{
    match clock {
        None => Env::Dead,
        Some(clock) => Env::Live { clock, root },
    }
}

/// Copies of a list's values in their order.
fn copies(
    alloc: Global,
    layer: &Layer<SlotValue>,
    root: Root,
) -> Result<Vec<SlotValue>, OutOfMemory>
    requires { shared.Belongs Alike layer.now root }
    ensures { IfOk result (λ slots. slots.items ≡ list_of layer.now root) }
{
    let mut slots = Vec::with_capacity(alloc, layer.slots() as usize)?;
    for slot in 0..layer.slots() {
        slots.push(layer.get(root, slot).copy(alloc)?)?;
    }
    Ok(slots)
}

/// The roots of the live ones.
fn roots_of(alloc: Global, envs: &[Env]) -> Result<Vec<Root>, OutOfMemory>
    ensures { IfOk result (λ roots. roots.items ≡ roots_of envs.now) }
{
    let mut roots = Vec::new(alloc);
    for env in envs {
        let root = match env {
            Env::Dead => continue,
            Env::Live { root, .. } => *root,
        };
        roots.push(root)?;
    }
    Ok(roots)
}

/// The same environments with these roots in place of theirs, one for each live one.
fn with_roots(alloc: Global, envs: &[Env], roots: &[Root]) -> Result<Vec<Env>, OutOfMemory>
    requires { length roots.now ≡ length (roots_of envs.now) }
    ensures { IfOk result (λ made. made.items ≡ with_roots envs.now roots.now) }
{
    let mut made = Vec::with_capacity(alloc, envs.len())?;
    let mut next = 0;
    for env in envs {
        let clock = match env {
            Env::Dead => {
                made.push(Env::Dead)?;
                continue;
            }
            Env::Live { clock, .. } => *clock,
        };
        let root = roots[next];
        made.push(Env::Live { clock, root })?;
        next += 1;
    }
    Ok(made)
}

/// The join of two lists, where nobody counts the steps.
fn joined<L: Ledger>(
    blank: Blank,
    layer: &mut Layer<SlotValue>,
    a: Root,
    b: Root,
) -> Result<Root, OutOfMemory>
    requires name { blank.name ≡ L.name }
    requires parts { blank.parts ≡ L.parts }
    requires some { 0 < blank.parts }
    requires first { shared.Belongs Alike layer.old a }
    requires second { shared.Belongs Alike layer.old b }
    ensures root { IfOk result (λ made. shared.Belongs Alike layer.new made) }
    ensures list { IfOk result (λ made. list_of layer.new made ≡ slotwise slot_join (list_of layer.old a) (list_of layer.old b)) }
    ensures older { Grows Alike layer.old layer.new }
{
    let mut steps = Steps::<L>::new(blank);
    layer.join(a, b, &mut steps)
}
