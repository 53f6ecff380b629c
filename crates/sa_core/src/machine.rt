//! The machine itself.

ghost use Rattle.std.specs.Prelude.{◌≡◌, ◌<◌, ◌&&◌, ◌||◌, ◌++◌, ◌∷◌, [], ℕ, Bool, false, not, All, IfOk, IsOk, OnOk, OnErr, IsTrue, MatchOption, List, length};
ghost use Rattle.sa_core.specs.declared.event.Event.{Event};
ghost use Rattle.sa_core.specs.declared.event.Event.TheVariants.{Claim, File, Gave};
ghost use Rattle.sa_core.specs.declared.event.Branch.TheVariants.{Given};
ghost use Rattle.sa_core.specs.Machine.{State, Replays, replayed, opened, meets, after, claimed, marked, merged_in, branch_at, holder_meets, sweep_meets, takes_a_part, IsWithin, Answers};
ghost use Rattle.sa_core.specs.Gathered.{IsCoreOf, gathered, whole, is_in, is_taken_in, has_claim};

use crate::OutOfMemory;
use crate::event::{Branch, CoreError, Event};
use crate::work::Work;
use sa_steps::Steps;
use std::alloc::Global;
use std::marker::{Brand, Model};
use std::sync::ledger::{Blank, Ledger};

/// The branches of a job in order of their numbers, the next one to claim, and the merge of the parts of those that were
/// filed or swept. It holds no work: each call is given one with the meanings of the work that it was opened with.
#[derive(Drop)]
pub struct Core<W: Work> {
    next: usize,
    branches: Vec<Branch>,
    merged: W::Part,
}

impl<W: Work> Model for Core<W> {
    ghost use Rattle.sa_core.specs.Machine.{State};

    ghost Value = { State W.Part };

    ghost view = { λ c. record { next = c.next; branches = c.branches.items; merged = c.merged } };
}

impl<W: Work> Core<W> {
    /// A core of this many branches, all free, with nothing merged. The list of branches takes its memory here.
    pub fn open(alloc: Global, work: &W, branches: u32) -> Result<Core<W>, OutOfMemory>
        ensures value { IfOk result (λ core. core ≡ opened (W.parts work.now) branches) }
        ensures same_work { IfOk result (λ core. IsCoreOf (W.parts work.now) core) }
        ensures count { IfOk result (λ core. length core.branches ≡ branches) }
    {
        Ok(Core {
            next: 0,
            branches: vec![in alloc; Branch::Free; branches as usize]?,
            merged: work.none(),
        })
    }

    /// Lets one event happen, or refuses it by the table of `meets` and changes nothing. A claim is never refused, and does
    /// nothing where all numbers are out.
    ///
    /// Only a filing and a sweep need a part, so only these can lack memory, and over a sure work none does. What lacks
    /// memory hasn't happened and may be tried again.
    ///
    /// The work has the parts of the one that the core was opened with. What `open` and `step` leave then meets `same_work`.
    pub fn step(&mut self, alloc: Global, work: &W, e: Event) -> Result<(), CoreError>
        requires branch { IsWithin (length self.old.branches) e }
        requires same_work { IsCoreOf (W.parts work.now) self.old }
        ensures table { Answers (meets e self.old.branches) (IsTrue (takes_a_part e && not (W.sure work.now))) self.old (after (W.parts work.now) e self.old) self.new result }
        ensures same_work { IsCoreOf (W.parts work.now) self.new }
        ensures count { length self.new.branches ≡ length self.old.branches }
    {
        match e {
            Event::Claim(worker) => {
                self.claim(worker);
                Ok(())
            }
            Event::File(worker, branch) => {
                self.held_by(worker, branch)?;
                self.take_in(alloc, work, branch, Branch::Filed)?;
                Ok(())
            }
            Event::Gave(worker, branch) => {
                self.held_by(worker, branch)?;
                self.mark(branch, Branch::Given);
                Ok(())
            }
            Event::Sweep(branch) => {
                self.given(branch)?;
                self.take_in(alloc, work, branch, Branch::Swept)?;
                Ok(())
            }
        }
    }

    /// The merge of the parts of the branches that were filed or swept.
    pub fn merged(&self) -> &W::Part
        ensures { result.now ≡ self.now.merged }
    {
        &self.merged
    }

    /// Hands the next branch to the worker, where one is left.
    fn claim(&mut self, worker: u32)
        ensures { self.new ≡ claimed worker self.old }
    {
        if self.next < self.branches.len() {
            self.branches[self.next] = Branch::Held(worker);
            self.next += 1;
        }
    }

    /// Whether this worker holds the branch, or why not.
    fn held_by(&self, worker: u32, branch: u32) -> Result<(), CoreError>
        requires { branch < length self.now.branches }
        ensures { MatchOption (holder_meets worker branch (branch_at self.now.branches branch)) (IsOk result) (λ refused. result ≡ Err refused) }
    {
        match self.branches[branch as usize] {
            Branch::Free => Err(CoreError::NotClaimed(branch)),
            Branch::Held(holder) => {
                if holder == worker {
                    Ok(())
                } else {
                    Err(CoreError::Taken(branch))
                }
            }
            Branch::Filed | Branch::Given | Branch::Swept => Err(CoreError::Done(branch)),
        }
    }

    /// Whether the branch was given back and not swept since, or why not.
    fn given(&self, branch: u32) -> Result<(), CoreError>
        requires { branch < length self.now.branches }
        ensures { MatchOption (sweep_meets branch (branch_at self.now.branches branch)) (IsOk result) (λ refused. result ≡ Err refused) }
    {
        match self.branches[branch as usize] {
            Branch::Free => Err(CoreError::NotClaimed(branch)),
            Branch::Held(_) => Err(CoreError::Taken(branch)),
            Branch::Given => Ok(()),
            Branch::Filed | Branch::Swept => Err(CoreError::Done(branch)),
        }
    }

    fn mark(&mut self, branch: u32, now: Branch)
        requires { branch < length self.old.branches }
        ensures { self.new ≡ marked branch now self.old }
    {
        self.branches[branch as usize] = now;
    }

    /// Merges the part of the branch, and only then says where the branch stands.
    fn take_in(
        &mut self,
        alloc: Global,
        work: &W,
        branch: u32,
        now: Branch,
    ) -> Result<(), OutOfMemory>
        requires branch { branch < length self.old.branches }
        requires fits { W.fits work.now self.old.merged }
        requires part_fits { W.fits work.now ((W.parts work.now).part_of branch) }
        ensures value { OnOk result (self.new ≡ merged_in (W.parts work.now) branch now self.old) }
        ensures unchanged { OnErr result (self.new ≡ self.old) }
        ensures sure { IsTrue (W.sure work.now) → IsOk result }
    {
        let part = uncounted(alloc, work, branch)?;
        work.merge(alloc, &mut self.merged, &part)?;
        self.branches[branch as usize] = now;
        Ok(())
    }
}

/// The part of a branch, with a counter that is given up afterwards.
fn uncounted<W: Work>(alloc: Global, work: &W, branch: u32) -> Result<W::Part, OutOfMemory>
    ensures value { IfOk result (λ p. p ≡ (W.parts work.now).part_of branch) }
    ensures sure { IsTrue (W.sure work.now) → IsOk result }
{
    counted::<W, Brand>(alloc, work, branch, Blank::new(1))
}

fn counted<W: Work, L: Ledger>(
    alloc: Global,
    work: &W,
    branch: u32,
    blank: Blank,
) -> Result<W::Part, OutOfMemory>
    requires name { blank.name ≡ L.name }
    requires parts { blank.parts ≡ L.parts }
    requires some { 0 < blank.parts }
    ensures value { IfOk result (λ p. p ≡ (W.parts work.now).part_of branch) }
    ensures sure { IsTrue (W.sure work.now) → IsOk result }
{
    let mut steps = Steps::<L>::new(blank);
    work.part(alloc, branch, &mut steps)
}

/// The core after all the events, or the first refusal. Each event's branch is below `branches`.
///
/// After every list that is accepted, in whatever order its claims, filings and sweeps stand, filed or swept are the
/// branches which the list files or sweeps, and the merged part is that of these.
pub fn replay<W: Work>(
    alloc: Global,
    work: &W,
    branches: u32,
    events: &[Event],
) -> Result<Core<W>, CoreError>
    requires branches { All (IsWithin branches) events.now }
    ensures exact { Replays (replayed (W.parts work.now) events.now (opened (W.parts work.now) branches)) result }
    ensures stands { IfOk result (λ core. (k : ℕ) → is_in (branch_at core.branches k) ≡ is_taken_in events.now k) }
    ensures merged { IfOk result (λ core. core.merged ≡ gathered (W.parts work.now) branches (is_taken_in events.now)) }
    ensures whole { IfOk result (λ core. ((k : ℕ) → k < branches → IsTrue (is_taken_in events.now k)) → core.merged ≡ whole (W.parts work.now) branches) }
    ensures same_work { IfOk result (λ core. IsCoreOf (W.parts work.now) core) }
{
    let mut core = Core::open(alloc, work, branches)?;
    for event in events {
        core.step(alloc, work, *event)?;
    }
    Ok(core)
}

/// The law of the machine, over every list of events that the table accepts: what is merged follows from which branches
/// are filed or swept. Lists that agree on these leave equal parts, a list that has them all leaves the whole, and parts
/// that were gathered apart merge to what is gathered together, even where they share branches.
pub fn order_is_free<W: Work>(work: &W)
    ensures merged { (n : ℕ) (events : List Event) (core : State W.Part) → replayed (W.parts work.now) events (opened (W.parts work.now) n) ≡ Ok core → core.merged ≡ gathered (W.parts work.now) n (is_taken_in events) }
    ensures whole { (n : ℕ) (events : List Event) (core : State W.Part) → replayed (W.parts work.now) events (opened (W.parts work.now) n) ≡ Ok core → ((k : ℕ) → k < n → IsTrue (is_taken_in events k)) → core.merged ≡ whole (W.parts work.now) n }
    ensures grouped { (n : ℕ) (p q : ℕ → Bool) → (W.parts work.now).merge_of (gathered (W.parts work.now) n p) (gathered (W.parts work.now) n q) ≡ gathered (W.parts work.now) n (λ k. p k || q k) }
    ensures alike { (n : ℕ) (events others : List Event) (core other : State W.Part) → replayed (W.parts work.now) events (opened (W.parts work.now) n) ≡ Ok core → replayed (W.parts work.now) others (opened (W.parts work.now) n) ≡ Ok other → ((k : ℕ) → k < n → is_taken_in events k ≡ is_taken_in others k) → core.merged ≡ other.merged }
{}

/// Laws for who makes a list of events step by step, as threads do, over every list that the table accepts. A list behind
/// another goes on where that one ends. A claim leaves the same before the filings, givings back and sweeps of others as
/// behind them, so the claims of a history may all stand first. A filing whose merge was refused for memory may stand as
/// a giving back, which is accepted where the filing is and leaves the merged part as before.
pub fn lists_go_on<W: Work>(work: &W)
    ensures follows { (n : ℕ) (first others : List Event) (core : State W.Part) → replayed (W.parts work.now) first (opened (W.parts work.now) n) ≡ Ok core → replayed (W.parts work.now) (first ++ others) (opened (W.parts work.now) n) ≡ replayed (W.parts work.now) others core }
    ensures claims_first { (n w : ℕ) (first others : List Event) (core : State W.Part) → replayed (W.parts work.now) (first ++ others) (opened (W.parts work.now) n) ≡ Ok core → has_claim others ≡ false → replayed (W.parts work.now) ((first ++ Claim w ∷ []) ++ others) (opened (W.parts work.now) n) ≡ Ok (claimed w core) }
    ensures given_up { (n w k : ℕ) (first : List Event) (core : State W.Part) → replayed (W.parts work.now) first (opened (W.parts work.now) n) ≡ Ok core → meets (File w k) core.branches ≡ None → replayed (W.parts work.now) (first ++ Gave w k ∷ []) (opened (W.parts work.now) n) ≡ Ok (marked k Given core) }
{}
