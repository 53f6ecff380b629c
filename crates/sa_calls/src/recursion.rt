//! Which call leads back to its own function.

ghost use Rattle.sa_base.specs.declared.pos.Pos.{Pos};
ghost use Rattle.std.specs.Prelude.{◌≡◌, ◌<◌, ◌⊎◌, ◌+◌, Some, ◌||◌, ◌==◌, ◌&&◌, nat_lt, ℕ, true, false, length, get_or, IfOk, OnOk};
ghost use Rattle.sa_calls.specs.Recursion.{graph_of, calls_at, marks_after, order_after, marks_all, order_all, is_before, is_earlier, Leads, IsFirstBack, IsFirstAmong, IsSeen};

use crate::OutOfMemory;
use crate::graph::{Call, calls_at, graph};
use crate::weights::is_shallow;
use sa_base::Pos;
use sa_typed::Program;
use sqlite_items::Items;
use std::alloc::Global;

/// The functions that were met: marked by their numbers, and in the order in which they were met.
#[derive(Debug, Drop)]
struct Seen {
    marks: Vec<bool>,
    order: Vec<u32>,
}

impl Seen {
    /// Marks a function that wasn't met yet, and puts it last.
    #[tactic(auto, unfolding(crate::specs::Recursion::marks_after, crate::specs::Recursion::order_after))]
    fn visit(&mut self, f: u32) -> Result<(), OutOfMemory>
        ensures marks { OnOk result (self.new.marks.items ≡ marks_after f self.old.marks.items) }
        ensures order { OnOk result (self.new.order.items ≡ order_after f self.old.marks.items self.old.order.items) }
    {
        if (f as usize) < self.marks.len() && !self.marks[f as usize] {
            self.order.push(f)?;
            self.marks[f as usize] = true;
        }
        Ok(())
    }

    fn visit_all(&mut self, calls: &[Call]) -> Result<(), OutOfMemory>
        ensures marks { OnOk result (self.new.marks.items ≡ marks_all calls.now self.old.marks.items) }
        ensures order { OnOk result (self.new.order.items ≡ order_all calls.now self.old.marks.items self.old.order.items) }
    {
        for call in calls {
            self.visit(call.func)?;
        }
        Ok(())
    }
}

/// Which functions this one leads to, by however many calls.
fn reached(alloc: Global, graph: &[Items<Call>], start: u32) -> Result<Vec<bool>, OutOfMemory>
    ensures long { IfOk result (λ r. length r.items ≡ length graph.now) }
    ensures sound { IfOk result (λ r. (h : ℕ) → get_or r.items h false ≡ true → Leads graph.now h start) }
    ensures whole { IfOk result (λ r. (h : ℕ) → h < length graph.now → Leads graph.now h start → get_or r.items h false ≡ true) }
{
    let mut seen = Seen {
        marks: vec![in alloc; false; graph.len()]?,
        order: Vec::new(alloc),
    };
    seen.visit(start)?;
    let mut next: usize = 0;
    while next < seen.order.len() {
        let f = seen.order[next];
        seen.visit_all(calls_at(graph, f as usize))?;
        next += 1;
    }
    Ok(seen.marks)
}

/// Whether the first function leads to the other one, by however many calls.
fn leads(alloc: Global, graph: &[Items<Call>], from: u32, to: usize) -> Result<bool, OutOfMemory>
    requires { to < length graph.now }
    ensures sound { IfOk result (λ r. r ≡ true → Leads graph.now to from) }
    ensures whole { IfOk result (λ r. Leads graph.now to from → r ≡ true) }
{
    let marks = reached(alloc, graph, from)?;
    Ok(marks[to])
}

// ---- the first one

fn is_before(a: Pos, b: Pos) -> bool
    ensures { result ≡ is_before a b }
{
    a.line < b.line || (a.line == b.line && a.col < b.col)
}

/// Whether the place stands before the best so far, if there is one.
fn is_earlier(pos: Pos, best: Option<Pos>) -> bool
    ensures { result ≡ is_earlier pos best }
{
    match best {
        None => true,
        Some(best) => is_before(pos, best),
    }
}

/// The best so far, or the place of a call that leads back to the function and stands before it.
#[tactic(auto, using(crate::proofs::FirstLemmas::of_places))]
fn better(
    alloc: Global,
    graph: &[Items<Call>],
    f: usize,
    call: Call,
    best: Option<Pos>,
) -> Result<Option<Pos>, OutOfMemory>
    requires { f < length graph.now }
    ensures taken { IfOk result (λ r. (r ≡ best) ⊎ ((r ≡ Some call.pos) × Leads graph.now f call.func)) }
    ensures kept { IfOk result (λ r. Leads graph.now f call.func → is_earlier call.pos r ≡ false) }
    ensures least { IfOk result (λ r. (p : Pos) → is_earlier p best ≡ false → is_earlier p r ≡ false) }
{
    if !is_earlier(call.pos, best) {
        return Ok(best);
    }
    if leads(alloc, graph, call.func, f)? {
        Ok(Some(call.pos))
    } else {
        Ok(best)
    }
}

/// The best so far, or the place of the first call of the function that leads back to it and stands before.
fn best_of(
    alloc: Global,
    graph: &[Items<Call>],
    f: usize,
    best: Option<Pos>,
) -> Result<Option<Pos>, OutOfMemory>
    requires within { f < length graph.now }
    requires first { IsFirstAmong graph.now (IsSeen f 0) best }
    ensures { IfOk result (λ r. IsFirstAmong graph.now (IsSeen (f + 1) 0) r) }
{
    let mut best = best;
    for call in calls_at(graph, f) {
        best = better(alloc, graph, f, *call, best)?;
    }
    Ok(best)
}

/// The first of all calls that lead back.
fn first_in(alloc: Global, graph: &[Items<Call>]) -> Result<Option<Pos>, OutOfMemory>
    ensures { IfOk result (λ r. IsFirstBack graph.now r) }
{
    let mut best = None;
    for f in 0..graph.len() {
        best = best_of(alloc, graph, f, best)?;
    }
    Ok(best)
}

/// The place of the first call that leads back to the function that it stands in, by however many calls.
///
/// Where no path of calls is longer than may be, there is none, and the time grows with the text alone. Else it may grow with
/// the product of functions and calls.
pub fn first_back(alloc: Global, program: &Program) -> Result<Option<Pos>, OutOfMemory>
    ensures { IfOk result (λ r. IsFirstBack (graph_of program.now.funcs) r) }
{
    if is_shallow(alloc, program)? {
        return Ok(None);
    }
    let calls = graph(alloc, program.funcs.as_slice())?;
    first_in(alloc, calls.as_slice())
}
