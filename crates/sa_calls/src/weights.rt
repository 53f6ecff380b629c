//! How deep calls go, and how many statements the inlined program has.

ghost use Rattle.std.specs.Prelude.{◌≡◌, length, min, true, None, IfOk};
ghost use Rattle.sa_calls.specs.Weights.{nothing, one, both, one_more, called, with_step, weight_at, weight_in, weight_after, groups_after, deeper, all_below, is_settled, over_limit, first_over, AreWeights};
ghost use Rattle.sa_calls.specs.Recursion.{graph_of, IsFirstBack};

use crate::OutOfMemory;
use sa_base::Limit;
use sa_typed::{Func, Group, Program, Simple, Stmt};
use std::alloc::Global;

/// The greatest number of calls on one path, and the statements with those of what is called. A number that doesn't fit is the
/// greatest that does.
#[derive(Clone, Copy, Debug, PartialEq, Eq)]
pub struct Weight {
    pub calls: usize,
    pub statements: usize,
}

fn nothing() -> Weight
    ensures { result ≡ nothing }
{
    Weight {
        calls: 0,
        statements: 0,
    }
}

fn one() -> Weight
    ensures { result ≡ one }
{
    Weight {
        calls: 0,
        statements: 1,
    }
}

/// One after the other.
#[tactic(auto, unfolding(crate::specs::Weights::both))]
fn both(a: Weight, b: Weight) -> Weight
    ensures { result ≡ both a b }
{
    Weight {
        calls: a.calls.max(b.calls),
        statements: a.statements.saturating_add(b.statements),
    }
}

#[tactic(auto, unfolding(crate::specs::Weights::one_more))]
fn one_more(a: Weight) -> Weight
    ensures { result ≡ one_more a }
{
    Weight {
        calls: a.calls,
        statements: a.statements.saturating_add(1),
    }
}

#[tactic(auto, unfolding(crate::specs::Weights::called))]
fn called(a: Weight) -> Weight
    ensures { result ≡ called a }
{
    Weight {
        calls: a.calls.saturating_add(1),
        statements: a.statements.saturating_add(1),
    }
}

#[tactic(auto, unfolding(crate::specs::Weights::with_step))]
fn with_step(step: &Option<Simple>, a: Weight) -> Weight
    ensures { result ≡ with_step step.now a }
{
    match step {
        None => a,
        Some(_) => one_more(a),
    }
}

#[tactic(auto, unfolding(crate::specs::Weights::weight_at))]
fn weight_at(rows: &[Weight], f: u32) -> Weight
    ensures { result ≡ weight_at rows.now f }
{
    match rows.get(f as usize) {
        None => nothing(),
        Some(row) => *row,
    }
}

// ---- statements

/// Of a statement, by the weights of bodies.
#[cycle(statements)]
#[tactic(auto, using(crate::proofs::WeightLemmas::of_stmts))]
fn weigh(rows: &[Weight], stmt: &Stmt) -> Weight
    ensures { result ≡ weight_in rows.now stmt.now }
{
    match stmt {
        Stmt::Scope(_) => nothing(),
        Stmt::Block(all) => weigh_all(rows, all.as_slice()),
        Stmt::Call(_, f, _, _) => called(weight_at(rows, *f)),
        Stmt::If(_, yes, no, _) => one_more(both(weigh(rows, yes.get()), weigh(rows, no.get()))),
        Stmt::Switch(_, _, groups, _) => one_more(weigh_groups(rows, groups.as_slice())),
        Stmt::Loop(_, _, _, body, step) => with_step(step, one_more(weigh(rows, body.get()))),
        Stmt::Simple(_)
        | Stmt::Known(_)
        | Stmt::Assert(_, _)
        | Stmt::Wait
        | Stmt::Break
        | Stmt::Return(_, _, _) => one(),
    }
}

#[cycle(statements)]
#[tactic(auto, using(crate::proofs::WeightLemmas::of_lists))]
fn weigh_all(rows: &[Weight], stmts: &[Stmt]) -> Weight
    ensures { result ≡ weight_after rows.now stmts.now nothing }
{
    let mut sum = nothing();
    for stmt in stmts {
        sum = both(sum, weigh(rows, stmt));
    }
    sum
}

#[cycle(statements)]
#[tactic(auto, using(crate::proofs::WeightLemmas::of_lists))]
fn weigh_groups(rows: &[Weight], groups: &[Group]) -> Weight
    ensures { result ≡ groups_after rows.now groups.now nothing }
{
    let mut sum = nothing();
    for group in groups {
        sum = both(sum, weigh(rows, group.body.get()));
    }
    sum
}

// ---- programs

/// Of all functions, where calls go one deeper than these weights tell.
fn deeper(alloc: Global, rows: &[Weight], funcs: &[Func]) -> Result<Vec<Weight>, OutOfMemory>
    ensures { IfOk result (λ r. r.items ≡ deeper rows.now funcs.now) }
{
    let mut next = Vec::with_capacity(alloc, funcs.len())?;
    for func in funcs {
        next.push(weigh_all(rows, func.body.as_slice()))?;
    }
    Ok(next)
}

/// Whether all of them have fewer calls on a path.
fn all_below(rows: &[Weight], depth: usize) -> bool
    ensures { result ≡ all_below depth rows.now }
{
    for row in rows {
        if depth <= row.calls {
            return false;
        }
    }
    true
}

/// Whether one round more would change nothing after so many.
fn is_settled(rows: &[Weight], rounds: usize) -> bool
    ensures { result ≡ is_settled rounds rows.now }
{
    0 < rounds && all_below(rows, rounds)
}

/// The weights of all bodies, where calls inside calls go so deep.
fn weights(alloc: Global, program: &Program, depth: usize) -> Result<Vec<Weight>, OutOfMemory>
    ensures { IfOk result (λ r. AreWeights program.now depth r.items) }
{
    let mut rows = Vec::new(alloc);
    for done in 0..depth {
        if is_settled(&rows, done) {
            return Ok(rows);
        }
        rows = deeper(alloc, &rows, program.funcs.as_slice())?;
    }
    Ok(rows)
}

/// As many rounds as calls may stand on a path, and one more, tell the depth of each body that isn't too deep.
fn rounds(program: &Program) -> usize
    ensures { result ≡ min (length program.now.funcs) 65 }
{
    program.funcs.len().min(Limit::Calls.number() as usize + 1)
}

/// Whether no function has more calls on a path than may stand there: then none leads back to itself.
pub(crate) fn is_shallow(alloc: Global, program: &Program) -> Result<bool, OutOfMemory>
    ensures { IfOk result (λ r. r ≡ true → IsFirstBack (graph_of program.now.funcs) None) }
{
    let depth = rounds(program);
    let rows = weights(alloc, program, depth)?;
    Ok(all_below(&rows, depth))
}

#[tactic(auto, unfolding(crate::specs::Weights::over_limit))]
fn over_limit(weight: Weight) -> Option<Limit>
    ensures { result ≡ over_limit weight.calls weight.statements }
{
    if (Limit::Calls.number() as usize) < weight.calls {
        return Some(Limit::Calls);
    }
    if (Limit::Statements.number() as usize) < weight.statements {
        return Some(Limit::Statements);
    }
    None
}

/// The first limit of those on calls on one path and on statements that the inlined program is over.
pub fn first_over(alloc: Global, program: &Program) -> Result<Option<Limit>, OutOfMemory>
    ensures { IfOk result (λ r. r ≡ first_over program.now) }
{
    let rows = weights(alloc, program, rounds(program))?;
    Ok(over_limit(weight_at(&rows, program.entry)))
}
