//! The board and its passes.

ghost use Rattle.std.specs.Prelude.{◌≡◌, ◌<◌, ◌≤◌, ◌+◌, ◌-◌, ℕ, [], ◌∷◌, Some, None, IfOk, IfSome, IfNone, IsOk, IsTrue, MatchBool, MatchResult};
ghost use Rattle.sa_book.specs.Passes.{IsPassOf, seen_of};
ghost use Rattle.sa_book.specs.Closing.{HasAll, IsBookOf};
ghost use Rattle.sa_book.specs.Steps.{Claimed, holding, marked_over, parting, parted, both, nothing, first_view, drawing, serving, Looked, Sees, IsAtRest, IsIdle, IsWorking, IsLonger, IsFiled, HasPart, HasTurn, event_of, gives_up};
ghost use Rattle.std.specs.Vec.{vec_len, vec_capacity};
ghost use Rattle.sa_book.specs.declared.view.Pages.{Pages};
ghost use Rattle.sa_core.specs.declared.event.Event.TheVariants.{File, Gave};

use crate::OutOfMemory;
use crate::entry::{Entry, Filing};
use crate::rule::{Board, Book, Claims, Draws, Files, GivesUp, Looks, Meets, Parts, Pass, Token};
use crate::view::{Pages, Terms};
use atomic_table::Table;
use sa_core::{Event, Job, Work};
use std::alloc::Global;
use std::sync::Wait;
use std::thread;

impl<W: Work> Board<W> {
    /// A board of the job with so many seats, and the pass of seat 0, which has the other seats' numbers spare. It takes the
    /// room for one event of each branch here.
    pub fn open(alloc: Global, job: Job<W>, seats: u32) -> Result<(Board<W>, Pass<W>), OutOfMemory>
        requires seats { (1 ≤ seats) × (seats ≤ 64) }
        requires branches { (1 ≤ job.branches) × (job.branches ≤ 1025) }
        ensures terms { IfOk result (λ r. r.0.terms ≡ record { job = job; seats = seats }) }
        ensures of_board { IfOk result (λ r. IsPassOf r.0 r.1) }
        ensures first { IfOk result (λ r. seen_of r.1 ≡ first_view r.0.terms) }
    {
        let history = Vec::with_capacity(alloc, job.branches as usize)?;
        let merged = job.work.none();
        let mut slots = Vec::with_capacity(alloc, 1)?;
        slots.push_reserved(Some(Pages { history, merged }));
        let terms = Terms { job, seats };
        match Table::new(alloc, &[0, 0, 0], slots, &terms) {
            Ok((table, token)) => Ok((
                Board { table, terms },
                Pass {
                    token,
                    number: 0,
                    spares: seats - 1,
                },
            )),
            Err(_) => Err(OutOfMemory),
        }
    }

    /// Closes the board with the one pass that remains, and gives its book.
    pub fn close(self, pass: Pass<W>) -> Book<W>
        requires of_board { IsPassOf self pass }
        requires free { (seen_of pass).held ≡ None }
        requires all { HasAll self.terms.seats (seen_of pass) }
        ensures job { result.job ≡ self.terms.job }
        ensures book { IsBookOf (W.parts self.terms.job.work) self.terms (seen_of pass) result.history.items result.merged }
    {
        let Board { table, terms } = self;
        let mut closed = table.close_with(pass.token);
        let slot = closed.take(0);
        closed.free();
        match slot {
            Some(pages) => Book {
                job: terms.job,
                history: pages.history,
                merged: pages.merged,
            },
            None => unreachable!(),
        }
    }

    /// What the board was opened with.
    pub fn job(&self) -> &Job<W>
        ensures { result.now ≡ self.now.terms.job }
    {
        &self.terms.job
    }

    /// Cuts off a pass of the least spare number, for another thread.
    pub fn split(&self, pass: &mut Pass<W>) -> Pass<W>
        requires of_board { IsPassOf self.now pass.old }
        requires spare { 0 < (seen_of pass.old).spares }
        ensures of_board { IsPassOf self.now pass.new }
        ensures new_of_board { IsPassOf self.now result }
        ensures left { (seen_of pass.new) ≡ parting (seen_of pass.old) }
        ensures right { (seen_of result) ≡ parted (seen_of pass.old) }
    {
        let token = self.table.shared.split_seat::<Parts>(&mut pass.token);
        let number = self.terms.seats - pass.spares;
        pass.spares -= 1;
        Pass {
            token,
            number,
            spares: 0,
        }
    }

    /// Takes the next branch, in one step and without waiting, or none where all are out.
    pub fn claim(&self, pass: &mut Pass<W>) -> Option<u32>
        requires of_board { IsPassOf self.now pass.old }
        requires free { (seen_of pass.old).held ≡ None }
        requires unmarked { (seen_of pass.old).over ≡ [] }
        ensures of_board { IsPassOf self.now pass.new }
        ensures some { IfSome result (λ k. (k < self.now.terms.job.branches) × ((seen_of pass.new) ≡ holding k (seen_of pass.old))) }
        ensures none { IfNone result ((seen_of pass.new) ≡ marked_over (seen_of pass.old)) }
    {
        let drawn = self.table.shared.fetch_add::<Claims>(&mut pass.token, 0, 1);
        if drawn < self.terms.job.branches as u64 {
            Some(drawn as u32)
        } else {
            None
        }
    }

    /// Makes one pass of two.
    pub fn meet(&self, a: Pass<W>, b: Pass<W>) -> Pass<W>
        requires first { IsPassOf self.now a }
        requires second { IsPassOf self.now b }
        requires free { (seen_of b).held ≡ None }
        ensures of_board { IsPassOf self.now result }
        ensures both { (seen_of result) ≡ both (seen_of a) (seen_of b) }
    {
        let Pass {
            mut token,
            number,
            spares,
        } = a;
        self.table.shared.join_seat::<Meets>(&mut token, b.token);
        Pass {
            token,
            number,
            spares: spares.max(b.spares),
        }
    }

    /// Files the branch that the pass holds, or gives it up, when its turn comes. Where the merge is refused for memory
    /// the branch is given up.
    pub fn file<R: Wait>(
        &self,
        rt: &R,
        alloc: Global,
        pass: &mut Pass<W>,
        entry: Entry<W::Part>,
    ) -> Result<(), OutOfMemory>
        requires of_board { IsPassOf self.now pass.old }
        requires seat { entry.seat ≡ pass.old.number }
        requires held { (seen_of pass.old).held ≡ Some entry.branch }
        requires part { HasPart (W.parts self.now.terms.job.work) entry }
        ensures of_board { IsPassOf self.now pass.new }
        ensures filed { MatchResult result (λ _. IsFiled (event_of entry) (seen_of pass.old) (seen_of pass.new)) (λ _. IsFiled (Gave entry.seat entry.branch) (seen_of pass.old) (seen_of pass.new)) }
        ensures sure { IsTrue (W.sure self.now.terms.job.work) → IsOk result }
        ensures gave { IsTrue (gives_up entry) → IsOk result }
    {
        let Entry { seat, branch, what } = entry;
        let ticket = self.draw(&mut pass.token, branch);
        self.wait(rt, &mut pass.token, branch, ticket);
        match what {
            Filing::Filed(part) => self.file_part(alloc, &mut pass.token, seat, branch, &part),
            Filing::Gave => {
                self.give_up(&mut pass.token, seat, branch);
                Ok(())
            }
        }
    }

    /// Draws the next ticket.
    fn draw(&self, token: &mut Token<W>, branch: u32) -> u64
        requires of_board { token.old.table_id ≡ self.now.table.shared.table_id }
        requires idle { IsIdle self.now.terms branch token.old.me × (token.old.me.0.ticket ≡ None) }
        ensures of_board { token.new.table_id ≡ self.now.table.shared.table_id }
        ensures drawn { token.new.me ≡ (drawing result token.old.me.0, []) }
    {
        self.table.shared.fetch_add::<Draws>(token, 1, 1)
    }

    /// Waits until the ticket is served.
    fn wait<R: Wait>(&self, rt: &R, token: &mut Token<W>, branch: u32, ticket: u64)
        requires of_board { token.old.table_id ≡ self.now.table.shared.table_id }
        requires idle { IsIdle self.now.terms branch token.old.me × (token.old.me.0.ticket ≡ Some ticket) }
        ensures of_board { token.new.table_id ≡ self.now.table.shared.table_id }
        ensures sees { Sees W.fits token.old.me.0 token.new.me }
    {
        for _ in rt.forever() {
            if self.look(token, branch, ticket) {
                return;
            }
            thread::yield_now();
        }
        unreachable!()
    }

    /// Whether the ticket is served. If so, the slot is the seat's from here on.
    fn look(&self, token: &mut Token<W>, branch: u32, ticket: u64) -> bool
        requires of_board { token.old.table_id ≡ self.now.table.shared.table_id }
        requires idle { IsIdle self.now.terms branch token.old.me × (token.old.me.0.ticket ≡ Some ticket) }
        ensures of_board { token.new.table_id ≡ self.now.table.shared.table_id }
        ensures sees { MatchBool result (Sees W.fits token.old.me.0 token.new.me) (token.new.me ≡ token.old.me) }
    {
        self.table.shared.load::<Looks>(token, 2) == ticket
    }

    /// Takes the book out of the slot.
    fn take(&self, token: &mut Token<W>) -> Pages<W::Part>
        requires of_board { token.old.table_id ≡ self.now.table.shared.table_id }
        requires slot { (pages : Pages W.Part) × (token.old.me.1 ≡ (0, Some pages) ∷ []) }
        ensures of_board { token.new.table_id ≡ self.now.table.shared.table_id }
        ensures pages { token.old.me.1 ≡ (0, Some result) ∷ [] }
        ensures taken { token.new.me ≡ (token.old.me.0, (0, None) ∷ []) }
    {
        match self.table.shared.exchange(token, 0, None) {
            Some(pages) => pages,
            None => unreachable!(),
        }
    }

    /// Puts the book into the slot, with one event more.
    fn put(&self, token: &mut Token<W>, mut pages: Pages<W::Part>, event: Event)
        requires of_board { token.old.table_id ≡ self.now.table.shared.table_id }
        requires slot { token.old.me.1 ≡ (0, None) ∷ [] }
        requires room { vec_len pages.history < vec_capacity pages.history }
        ensures of_board { token.new.table_id ≡ self.now.table.shared.table_id }
        ensures put { (longer : Pages W.Part) × IsLonger event pages.merged pages longer × (token.new.me ≡ (token.old.me.0, (0, Some longer) ∷ [])) }
    {
        pages.history.push_reserved(event);
        self.table.shared.exchange(token, 0, Some(pages));
    }

    /// Files a part. After want of memory the branch is given up.
    fn file_part(
        &self,
        alloc: Global,
        token: &mut Token<W>,
        seat: u32,
        branch: u32,
        part: &W::Part,
    ) -> Result<(), OutOfMemory>
        requires of_board { token.old.table_id ≡ self.now.table.shared.table_id }
        requires turn { HasTurn W.fits self.now.terms seat branch token.old.me }
        requires part { part.now ≡ (W.parts self.now.terms.job.work).part_of branch }
        ensures of_board { token.new.table_id ≡ self.now.table.shared.table_id }
        ensures served { MatchResult result (λ _. token.new.me ≡ (serving File token.old.me.0, [])) (λ _. token.new.me ≡ (serving Gave token.old.me.0, [])) }
        ensures sure { IsTrue (W.sure self.now.terms.job.work) → IsOk result }
    {
        let mut pages = self.take(token);
        match self.terms.job.work.merge(alloc, &mut pages.merged, part) {
            Ok(()) => {
                self.put(token, pages, Event::File(seat, branch));
                self.table.shared.fetch_add::<Files>(token, 2, 1);
                Ok(())
            }
            Err(refused) => {
                self.put(token, pages, Event::Gave(seat, branch));
                self.table.shared.fetch_add::<GivesUp>(token, 2, 1);
                Err(refused)
            }
        }
    }

    /// Gives a branch up.
    fn give_up(&self, token: &mut Token<W>, seat: u32, branch: u32)
        requires of_board { token.old.table_id ≡ self.now.table.shared.table_id }
        requires turn { HasTurn W.fits self.now.terms seat branch token.old.me }
        ensures of_board { token.new.table_id ≡ self.now.table.shared.table_id }
        ensures served { token.new.me ≡ (serving Gave token.old.me.0, []) }
    {
        let pages = self.take(token);
        self.put(token, pages, Event::Gave(seat, branch));
        self.table.shared.fetch_add::<GivesUp>(token, 2, 1);
    }
}

impl<W: Work> Pass<W> {
    /// The number of its seat.
    pub fn seat(&self) -> u32
        ensures { result ≡ self.now.number }
    {
        self.number
    }
}
