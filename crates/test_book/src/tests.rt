//! The board on real threads.

ghost use Rattle.std.specs.Prelude.{◌≡◌, ◌<◌, ◌≤◌, ◌+◌, ◌-◌, true, false, [], None, Some, IfOk, length};
ghost use Rattle.std.specs.Thread.{IsSync};
ghost use Rattle.sa_core.specs.Bits.{FitsBits, bits, bits_laws};
ghost use Rattle.sa_book.specs.Passes.{IsPassOf, seen_of};
ghost use Rattle.sa_book.specs.Steps.{HasPart};

use sa_book::{Board, Book, Entry, Filing, OutOfMemory, Pass};
use sa_core::{Event, Job, Work};
use sa_steps::Steps;
use std::alloc::Global;
use std::marker::Brand;
use std::sync::Wait;
use std::sync::ledger::{Blank, Ledger};
use std::test::Fail;
use std::thread::{Threads, join};

/// The part of each of 128 branches is its bit.
#[derive(Drop)]
struct Bits;

impl Work for Bits {
    type Part = u128;

    ghost fits = { λ _ p. FitsBits p };

    ghost parts = { λ _. bits };

    ghost cost = { λ _ _. 0 };

    ghost sure = { λ _. true };

    fn none(&self) -> u128 {
        0
    }

    fn part<L: Ledger>(
        &self,
        _alloc: Global,
        branch: u32,
        _steps: &mut Steps<L>,
    ) -> Result<u128, OutOfMemory> {
        Ok(if branch < 128 { 1 << branch } else { 0 })
    }

    fn merge(&self, _alloc: Global, acc: &mut u128, p: &u128) -> Result<(), OutOfMemory> {
        *acc |= *p;
        Ok(())
    }

    ghost laws = { λ _. bits_laws };
}

/// The same parts; merging that of one branch is refused for memory. One thread merges in order, so it is the call after as
/// many as the branch's number.
#[derive(Drop)]
struct Frail {
    refused: u32,
}

impl Work for Frail {
    type Part = u128;

    ghost fits = { λ _ p. FitsBits p };

    ghost parts = { λ _. bits };

    ghost cost = { λ _ _. 0 };

    ghost sure = { λ _. false };

    fn none(&self) -> u128 {
        0
    }

    fn part<L: Ledger>(
        &self,
        _alloc: Global,
        branch: u32,
        _steps: &mut Steps<L>,
    ) -> Result<u128, OutOfMemory> {
        Ok(if branch < 128 { 1 << branch } else { 0 })
    }

    fn merge(&self, _alloc: Global, acc: &mut u128, p: &u128) -> Result<(), OutOfMemory> {
        if self.refused < 128 && *p == 1 << self.refused {
            return Err(OutOfMemory);
        }
        *acc |= *p;
        Ok(())
    }

    ghost laws = { λ _. bits_laws };
}

/// What a seat files for a branch: its part, or that it is given up for want of memory.
fn filing<W: Work, L: Ledger>(alloc: Global, work: &W, branch: u32, blank: Blank) -> Filing<W::Part>
    requires name { blank.name ≡ L.name }
    requires parts { blank.parts ≡ L.parts }
    requires some { 0 < blank.parts }
    ensures { HasPart (W.parts work.now) record { seat = 0; branch = branch; what = result } }
{
    let mut steps = Steps::<L>::new(blank);
    match work.part(alloc, branch, &mut steps) {
        Ok(part) => Filing::Filed(part),
        Err(_) => Filing::Gave,
    }
}

/// The same, with a counter of its own.
fn uncounted<W: Work>(alloc: Global, work: &W, branch: u32) -> Filing<W::Part>
    ensures { HasPart (W.parts work.now) record { seat = 0; branch = branch; what = result } }
{
    filing::<W, Brand>(alloc, work, branch, Blank::new(1))
}

/// Files the branch that the pass holds.
fn file_one<R: Wait, W: Work>(
    rt: &R,
    alloc: Global,
    board: &Board<W>,
    pass: &mut Pass<W>,
    branch: u32,
) -> Result<(), OutOfMemory>
    requires of_board { IsPassOf board.now pass.old }
    requires held { (seen_of pass.old).held ≡ Some branch }
    ensures of_board { IsPassOf board.now pass.new }
    ensures free { (seen_of pass.new).held ≡ None }
    ensures over { (seen_of pass.new).over ≡ (seen_of pass.old).over }
    ensures gathered { (seen_of pass.new).gathered ≡ (seen_of pass.old).gathered }
    ensures spares { (seen_of pass.new).spares ≡ (seen_of pass.old).spares }
{
    let seat = pass.seat();
    let what = uncounted(alloc, &board.job().work, branch);
    board.file(rt, alloc, pass, Entry { seat, branch, what })
}

/// Claims and files until no branch is left.
fn drain<R: Wait, W: Work>(rt: &R, alloc: Global, board: &Board<W>, mut pass: Pass<W>) -> Pass<W>
    requires of_board { IsPassOf board.now pass }
    requires free { (seen_of pass).held ≡ None }
    requires unmarked { (seen_of pass).over ≡ [] }
    ensures of_board { IsPassOf board.now result }
    ensures free { (seen_of result).held ≡ None }
    ensures gathered { (seen_of result).gathered ≡ (seen_of pass).gathered }
    ensures spares { (seen_of result).spares ≡ (seen_of pass).spares }
{
    for _ in rt.forever() {
        match board.claim(&mut pass) {
            None => return pass,
            Some(branch) => {
                let _ = file_one(rt, alloc, board, &mut pass, branch);
            }
        }
    }
    unreachable!()
}

/// Claims and files with so many further passes, each in a thread of its own, and gives the one pass that remains.
fn work<R: Threads + Wait + Sync, W: Work + Sync>(
    rt: &R,
    alloc: Global,
    board: &Board<W>,
    mut pass: Pass<W>,
    further: u32,
) -> Pass<W>
    requires of_board { IsPassOf board.now pass }
    requires free { (seen_of pass).held ≡ None }
    requires unmarked { (seen_of pass).over ≡ [] }
    requires further { (seen_of pass).spares ≡ further }
    ensures of_board { IsPassOf board.now result }
    ensures free { (seen_of result).held ≡ None }
    ensures all { length (seen_of result).gathered ≡ length (seen_of pass).gathered + further }
    ensures none_spare { (seen_of result).spares ≡ 0 }
{
    if further == 0 {
        return drain(rt, alloc, board, pass);
    }
    let rest = further - 1;
    let other = board.split(&mut pass);
    let (mine, theirs) = join(
        rt,
        || -> Pass<W>
            requires { IsSync R.row × IsSync W.row × IsPassOf board.now pass × ((seen_of pass).held ≡ None) × ((seen_of pass).over ≡ []) × ((seen_of pass).spares ≡ rest) }
            ensures { IsPassOf board.entry.now result × ((seen_of result).held ≡ None) × (length (seen_of result).gathered ≡ length (seen_of pass).gathered + rest) × ((seen_of result).spares ≡ 0) }
        { work(rt, alloc, board, pass, rest) },
        || -> Pass<W>
            requires { IsSync R.row × IsSync W.row × IsPassOf board.now other × ((seen_of other).held ≡ None) × ((seen_of other).over ≡ []) }
            ensures { IsPassOf board.entry.now result × ((seen_of result).held ≡ None) × ((seen_of result).gathered ≡ (seen_of other).gathered) × ((seen_of result).spares ≡ (seen_of other).spares) }
        { drain(rt, alloc, board, other) },
    );
    board.meet(mine, theirs)
}

/// The book of the job, by so many threads.
fn spread<R: Threads + Wait + Sync, W: Work + Sync>(
    rt: &R,
    alloc: Global,
    job: Job<W>,
    seats: u32,
) -> Result<Book<W>, OutOfMemory>
    requires seats { (1 ≤ seats) × (seats ≤ 64) }
    requires branches { (1 ≤ job.branches) × (job.branches ≤ 1025) }
    ensures { IfOk result (λ book. book.job ≡ job) }
{
    let (board, pass) = Board::open(alloc, job, seats)?;
    let whole = work(rt, alloc, &board, pass, seats - 1);
    Ok(board.close(whole))
}

/// The worked row: two passes, three branches, filed in another order than claimed.
fn two_seats<R: Wait>(rt: &R, alloc: Global) -> Result<Book<Bits>, OutOfMemory> {
    let job = Job {
        work: Bits,
        branches: 3,
    };
    row(rt, alloc, job)
}

/// The row for any work: claims, filings and the meeting in the order of the worked row. A claim that finds nothing ends
/// it.
fn row<R: Wait, W: Work>(rt: &R, alloc: Global, job: Job<W>) -> Result<Book<W>, OutOfMemory>
    requires branches { (1 ≤ job.branches) × (job.branches ≤ 1025) }
{
    let (board, mut a) = Board::open(alloc, job, 2)?;
    let mut b = board.split(&mut a);
    let first = board.claim(&mut a);
    let second = board.claim(&mut b);
    if let (Some(zero), Some(one)) = (first, second) {
        let _ = file_one(rt, alloc, &board, &mut b, one);
        let _ = file_one(rt, alloc, &board, &mut a, zero);
        if let Some(two) = board.claim(&mut a) {
            let _ = file_one(rt, alloc, &board, &mut a, two);
        }
        if let Some(more) = board.claim(&mut b) {
            let _ = file_one(rt, alloc, &board, &mut b, more);
        }
        let whole = board.meet(a, b);
        return Ok(board.close(whole));
    }
    Err(OutOfMemory)
}

/// Two seats, one of which files nothing.
fn one_idle<R: Wait, W: Work>(rt: &R, alloc: Global, job: Job<W>) -> Result<Book<W>, OutOfMemory>
    requires branches { (1 ≤ job.branches) × (job.branches ≤ 1025) }
{
    let (board, mut pass) = Board::open(alloc, job, 2)?;
    let idle = board.split(&mut pass);
    let busy = drain(rt, alloc, &board, pass);
    let whole = board.meet(busy, idle);
    Ok(board.close(whole))
}

/// How often each of the first 128 branches was filed.
fn times_filed(history: &[Event], branch: u32) -> usize {
    let mut times = 0;
    for event in history {
        if let Event::File(_, filed) = event {
            if *filed == branch && times < 1_000_000 {
                times += 1;
            }
        }
    }
    times
}

#[test]
fn two_seats_file_three_branches(rt: HostRuntime) -> Result<(), Fail> {
    let book = two_seats(&rt, rt.alloc())?;
    assert_eq!(rt;
        book.history.as_slice(),
        [Event::File(1, 1), Event::File(0, 0), Event::File(0, 2)].as_slice()
    );
    assert_eq!(rt; book.merged, 7);
    Ok(())
}

#[test]
fn eight_threads_file_a_hundred_branches(rt: HostRuntime) -> Result<(), Fail> {
    for _ in 0..1_000 {
        let job = Job {
            work: Bits,
            branches: 100,
        };
        let book = spread(&rt, rt.alloc(), job, 8)?;
        assert_eq!(rt; book.merged, (1 << 100) - 1);
        assert_eq!(rt; book.history.len(), 100);
        for branch in 0..100 {
            assert_eq!(rt; times_filed(book.history.as_slice(), branch), 1);
        }
    }
    Ok(())
}

#[test]
fn one_thread_takes_all(rt: HostRuntime) -> Result<(), Fail> {
    let job = Job {
        work: Bits,
        branches: 128,
    };
    let book = spread(&rt, rt.alloc(), job, 1)?;
    assert_eq!(rt; book.merged, u128::MAX);
    assert_eq!(rt; book.history.len(), 128);
    Ok(())
}

#[test]
fn a_seat_files_nothing(rt: HostRuntime) -> Result<(), Fail> {
    let job = Job {
        work: Bits,
        branches: 5,
    };
    let book = one_idle(&rt, rt.alloc(), job)?;
    assert_eq!(rt; book.merged, 31);
    assert_eq!(rt; book.history.len(), 5);
    Ok(())
}

#[test]
fn a_refused_merge_gives_up(rt: HostRuntime) -> Result<(), Fail> {
    let job = Job {
        work: Frail { refused: 2 },
        branches: 4,
    };
    let book = spread(&rt, rt.alloc(), job, 1)?;
    assert_eq!(rt;
        book.history.as_slice(),
        [
            Event::File(0, 0),
            Event::File(0, 1),
            Event::Gave(0, 2),
            Event::File(0, 3)
        ]
        .as_slice()
    );
    assert_eq!(rt; book.merged, 11);
    Ok(())
}
