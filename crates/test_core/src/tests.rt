ghost use Rattle.std.specs.Prelude.{◌≡◌, ◌<◌, true, All, length, IfOk};
ghost use Rattle.sa_core.specs.Bits.{FitsBits, bits, bits_laws};
ghost use Rattle.sa_core.specs.Machine.{IsWithin};
ghost use Rattle.sa_core.specs.Gathered.{IsCoreOf};

use sa_core::{Core, CoreError, Event, OutOfMemory, Work, order_is_free, replay};
use sa_steps::Steps;
use std::alloc::Global;
use std::process::Abort;
use std::sync::ledger::Ledger;
use std::test::Fail;

/// The part of each of 128 branches is its bit.
#[derive(Drop)]
struct Bits;

impl Work for Bits {
    type Part = u128;

    ghost fits = { λ _ p. FitsBits p };

    ghost parts = { λ _. bits };

    ghost cost = { λ _ _. 0 };

    ghost sure = { λ _. true };

    fn none(&self) -> u128 {
        0
    }

    fn part<L: Ledger>(
        &self,
        _alloc: Global,
        branch: u32,
        _steps: &mut Steps<L>,
    ) -> Result<u128, OutOfMemory> {
        Ok(if branch < 128 { 1 << branch } else { 0 })
    }

    fn merge(&self, _alloc: Global, acc: &mut u128, p: &u128) -> Result<(), OutOfMemory> {
        *acc |= *p;
        Ok(())
    }

    ghost laws = { λ _. bits_laws };
}

/// One event at a core of two branches.
fn step(alloc: Global, core: &mut Core<Bits>, event: Event) -> Result<(), CoreError>
    requires within { IsWithin 2 event }
    requires two { length core.old.branches ≡ 2 }
    requires same_work { IsCoreOf bits core.old }
    ensures two { length core.new.branches ≡ 2 }
    ensures same_work { IsCoreOf bits core.new }
{
    core.step(alloc, &Bits, event)
}

/// What is merged after all the events.
fn merged(alloc: Global, branches: u32, events: &[Event]) -> Result<u128, CoreError>
    requires { All (IsWithin branches) events.now }
{
    Ok(*replay(alloc, &Bits, branches, events)?.merged())
}

/// A core may go to another thread.
fn sent<T: Send>(value: T) -> T
    ensures { result ≡ value }
{
    value
}

#[test]
fn each_event_meets_the_table(rt: HostRuntime) -> Result<(), Fail> {
    let mut core = sent(Core::open(rt.alloc(), &Bits, 2)?);
    assert_eq!(rt; step(rt.alloc(), &mut core, Event::Claim(0)), Ok(()));
    assert_eq!(rt; step(rt.alloc(), &mut core, Event::Claim(1)), Ok(()));
    assert_eq!(rt;
        step(rt.alloc(), &mut core, Event::File(1, 0)),
        Err(CoreError::Taken(0))
    );
    assert_eq!(rt; step(rt.alloc(), &mut core, Event::File(0, 0)), Ok(()));
    assert_eq!(rt;
        step(rt.alloc(), &mut core, Event::File(0, 0)),
        Err(CoreError::Done(0))
    );
    assert_eq!(rt;
        step(rt.alloc(), &mut core, Event::Sweep(1)),
        Err(CoreError::Taken(1))
    );
    assert_eq!(rt; *core.merged(), 1);
    assert_eq!(rt; step(rt.alloc(), &mut core, Event::Gave(1, 1)), Ok(()));
    assert_eq!(rt; step(rt.alloc(), &mut core, Event::Sweep(1)), Ok(()));
    assert_eq!(rt; *core.merged(), 3);
    Ok(())
}

#[test]
fn replays(rt: HostRuntime) -> Result<(), Fail> {
    use Event::{Claim, File, Gave, Sweep};
    let alloc = rt.alloc();
    assert_eq!(rt;
        merged(alloc, 1, &[File(0, 0)]),
        Err(CoreError::NotClaimed(0))
    );
    assert_eq!(rt;
        merged(alloc, 1, &[Sweep(0)]),
        Err(CoreError::NotClaimed(0))
    );
    assert_eq!(rt;
        merged(alloc, 2, &[Claim(0), Claim(1), File(1, 1), File(0, 0)]),
        Ok(3)
    );
    assert_eq!(rt;
        merged(
            alloc,
            2,
            &[
                Claim(0),
                Gave(0, 0),
                Claim(1),
                File(1, 1),
                Sweep(0),
                Claim(0)
            ]
        ),
        Ok(3)
    );
    order_is_free(&Bits);
    Ok(())
}

/// A core of that many branches, all of which worker 0 holds.
fn all_claimed(alloc: Global, branches: u32) -> Result<Core<Bits>, OutOfMemory>
    ensures count { IfOk result (λ core. length core.branches ≡ branches) }
    ensures same_work { IfOk result (λ core. IsCoreOf bits core) }
{
    let mut core = Core::open(alloc, &Bits, branches)?;
    for _ in 0..branches {
        let _ = core.step(alloc, &Bits, Event::Claim(0));
    }
    Ok(core)
}

/// What the last of so many branches meets where all are held by worker 0: another worker, its own giving back, the
/// sweep, and one more.
fn at_the_last(alloc: Global, branches: u32) -> Result<[Result<(), CoreError>; 4], OutOfMemory>
    requires { 0 < branches }
{
    let last = branches - 1;
    let mut core = all_claimed(alloc, branches)?;
    let other = core.step(alloc, &Bits, Event::File(1, last));
    let gave = core.step(alloc, &Bits, Event::Gave(0, last));
    let swept = core.step(alloc, &Bits, Event::Sweep(last));
    let again = core.step(alloc, &Bits, Event::Sweep(last));
    Ok([other, gave, swept, again])
}

#[test]
fn takes_the_most_branches(rt: HostRuntime) -> Result<(), Fail> {
    let [other, gave, swept, again] = at_the_last(rt.alloc(), 1_025)?;
    assert_eq!(rt; other, Err(CoreError::Taken(1_024)));
    assert_eq!(rt; gave, Ok(()));
    assert_eq!(rt; swept, Ok(()));
    assert_eq!(rt; again, Err(CoreError::Done(1_024)));
    Ok(())
}
