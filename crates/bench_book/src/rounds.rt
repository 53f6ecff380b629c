//! The rounds that are timed.

ghost use Rattle.std.specs.Prelude.{◌≡◌, ◌<◌, ◌≤◌, ◌+◌, ◌-◌, true, false, [], None, Some, IfOk, length};
ghost use Rattle.std.specs.Thread.{IsSync};
ghost use Rattle.sa_core.specs.Bits.{FitsBits, bits, bits_laws};
ghost use Rattle.sa_book.specs.Passes.{IsPassOf, seen_of};
ghost use Rattle.sa_book.specs.Steps.{HasPart};

use sa_book::{Board, Book, Entry, Filing, OutOfMemory, Pass};
use sa_core::{Job, Work};
use sa_steps::Steps;
use std::alloc::Global;
use std::marker::Brand;
use std::sync::Wait;
use std::sync::ledger::{Blank, Ledger};
use std::thread::{Threads, join};

/// The part of each of 128 branches is its bit; the later branches have none.
#[derive(Drop)]
struct Bits;

impl Work for Bits {
    type Part = u128;

    ghost fits = { λ _ p. FitsBits p };

    ghost parts = { λ _. bits };

    ghost cost = { λ _ _. 0 };

    ghost sure = { λ _. true };

    fn none(&self) -> u128 {
        0
    }

    fn part<L: Ledger>(
        &self,
        _alloc: Global,
        branch: u32,
        _steps: &mut Steps<L>,
    ) -> Result<u128, OutOfMemory> {
        Ok(if branch < 128 { 1 << branch } else { 0 })
    }

    fn merge(&self, _alloc: Global, acc: &mut u128, p: &u128) -> Result<(), OutOfMemory> {
        *acc |= *p;
        Ok(())
    }

    ghost laws = { λ _. bits_laws };
}

/// What a seat files for a branch: its part, or that it is given up for want of memory.
fn filing<W: Work, L: Ledger>(alloc: Global, work: &W, branch: u32, blank: Blank) -> Filing<W::Part>
    requires name { blank.name ≡ L.name }
    requires parts { blank.parts ≡ L.parts }
    requires some { 0 < blank.parts }
    ensures { HasPart (W.parts work.now) record { seat = 0; branch = branch; what = result } }
{
    let mut steps = Steps::<L>::new(blank);
    match work.part(alloc, branch, &mut steps) {
        Ok(part) => Filing::Filed(part),
        Err(_) => Filing::Gave,
    }
}

/// The same, with a counter of its own.
fn uncounted<W: Work>(alloc: Global, work: &W, branch: u32) -> Filing<W::Part>
    ensures { HasPart (W.parts work.now) record { seat = 0; branch = branch; what = result } }
{
    filing::<W, Brand>(alloc, work, branch, Blank::new(1))
}

/// Files the branch that the pass holds.
fn file_one<R: Wait, W: Work>(
    rt: &R,
    alloc: Global,
    board: &Board<W>,
    pass: &mut Pass<W>,
    branch: u32,
) -> Result<(), OutOfMemory>
    requires of_board { IsPassOf board.now pass.old }
    requires held { (seen_of pass.old).held ≡ Some branch }
    ensures of_board { IsPassOf board.now pass.new }
    ensures free { (seen_of pass.new).held ≡ None }
    ensures over { (seen_of pass.new).over ≡ (seen_of pass.old).over }
    ensures gathered { (seen_of pass.new).gathered ≡ (seen_of pass.old).gathered }
    ensures spares { (seen_of pass.new).spares ≡ (seen_of pass.old).spares }
{
    let seat = pass.seat();
    let what = uncounted(alloc, &board.job().work, branch);
    board.file(rt, alloc, pass, Entry { seat, branch, what })
}

/// Claims and files until no branch is left.
fn drain<R: Wait, W: Work>(rt: &R, alloc: Global, board: &Board<W>, mut pass: Pass<W>) -> Pass<W>
    requires of_board { IsPassOf board.now pass }
    requires free { (seen_of pass).held ≡ None }
    requires unmarked { (seen_of pass).over ≡ [] }
    ensures of_board { IsPassOf board.now result }
    ensures free { (seen_of result).held ≡ None }
    ensures gathered { (seen_of result).gathered ≡ (seen_of pass).gathered }
    ensures spares { (seen_of result).spares ≡ (seen_of pass).spares }
{
    for _ in rt.forever() {
        match board.claim(&mut pass) {
            None => return pass,
            Some(branch) => {
                let _ = file_one(rt, alloc, board, &mut pass, branch);
            }
        }
    }
    unreachable!()
}

/// Claims and files with so many further passes, each in a thread of its own, and gives the one pass that remains.
fn work<R: Threads + Wait + Sync, W: Work + Sync>(
    rt: &R,
    alloc: Global,
    board: &Board<W>,
    mut pass: Pass<W>,
    further: u32,
) -> Pass<W>
    requires of_board { IsPassOf board.now pass }
    requires free { (seen_of pass).held ≡ None }
    requires unmarked { (seen_of pass).over ≡ [] }
    requires further { (seen_of pass).spares ≡ further }
    ensures of_board { IsPassOf board.now result }
    ensures free { (seen_of result).held ≡ None }
    ensures all { length (seen_of result).gathered ≡ length (seen_of pass).gathered + further }
    ensures none_spare { (seen_of result).spares ≡ 0 }
{
    if further == 0 {
        return drain(rt, alloc, board, pass);
    }
    let rest = further - 1;
    let other = board.split(&mut pass);
    let (mine, theirs) = join(
        rt,
        || -> Pass<W>
            requires { IsSync R.row × IsSync W.row × IsPassOf board.now pass × ((seen_of pass).held ≡ None) × ((seen_of pass).over ≡ []) × ((seen_of pass).spares ≡ rest) }
            ensures { IsPassOf board.entry.now result × ((seen_of result).held ≡ None) × (length (seen_of result).gathered ≡ length (seen_of pass).gathered + rest) × ((seen_of result).spares ≡ 0) }
        { work(rt, alloc, board, pass, rest) },
        || -> Pass<W>
            requires { IsSync R.row × IsSync W.row × IsPassOf board.now other × ((seen_of other).held ≡ None) × ((seen_of other).over ≡ []) }
            ensures { IsPassOf board.entry.now result × ((seen_of result).held ≡ None) × ((seen_of result).gathered ≡ (seen_of other).gathered) × ((seen_of result).spares ≡ (seen_of other).spares) }
        { drain(rt, alloc, board, other) },
    );
    board.meet(mine, theirs)
}

/// The book of the job, by so many threads.
fn spread<R: Threads + Wait + Sync, W: Work + Sync>(
    rt: &R,
    alloc: Global,
    job: Job<W>,
    seats: u32,
) -> Result<Book<W>, OutOfMemory>
    requires seats { (1 ≤ seats) × (seats ≤ 64) }
    requires branches { (1 ≤ job.branches) × (job.branches ≤ 1025) }
    ensures { IfOk result (λ book. book.job ≡ job) }
{
    let (board, pass) = Board::open(alloc, job, seats)?;
    let whole = work(rt, alloc, &board, pass, seats - 1);
    Ok(board.close(whole))
}

/// How many events the books of so many boards have in all. The number of threads is brought within 1 to 64.
pub fn run<R: Threads + Wait + Sync>(
    rt: &R,
    alloc: Global,
    boards: u32,
    threads: u32,
) -> Result<u64, OutOfMemory> {
    let seats = threads.max(1).min(64);
    let mut events: u64 = 0;
    for _ in 0..boards {
        let job = Job {
            work: Bits,
            branches: 1_025,
        };
        let book = spread(rt, alloc, job, seats)?;
        events = events.saturating_add(book.history.len() as u64);
    }
    Ok(events)
}
