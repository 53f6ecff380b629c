//! The calls of each function.

ghost use Rattle.std.specs.Prelude.{◌≡◌, ◌++◌, [], ◌∷◌, IfOk, OnOk};
ghost use Rattle.sa_typed.specs.TypedPrograms.{calls_in};
ghost use Rattle.sa_calls.specs.Recursion.{as_calls, calls_of_stmts, calls_of_groups, graph_of, calls_at};

use crate::OutOfMemory;
use sa_base::Pos;
use sa_typed::{Func, Group, Stmt};
use sqlite_items::{Items, at};
use std::alloc::Global;

/// A call: the place of the called name, and the function's number.
#[derive(Clone, Copy, Debug, PartialEq, Eq)]
pub struct Call {
    pub pos: Pos,
    pub func: u32,
}

/// Adds the calls of a statement.
#[cycle(statements)]
#[tactic(auto, using(crate::proofs::GraphLemmas::of_stmts))]
fn push_calls(calls: &mut Items<Call>, stmt: &Stmt) -> Result<(), OutOfMemory>
    ensures { OnOk result (calls.new ≡ calls.old ++ as_calls (calls_in stmt.now)) }
{
    match stmt {
        Stmt::Block(all) => push_stmts(calls, all.as_slice()),
        Stmt::Call(pos, func, _, _) => push_call(calls, *pos, *func),
        Stmt::If(_, yes, no, _) => {
            push_calls(calls, yes.get())?;
            push_calls(calls, no.get())
        }
        Stmt::Switch(_, _, groups, _) => push_groups(calls, groups.as_slice()),
        Stmt::Loop(_, _, _, body, _) => push_calls(calls, body.get()),
        Stmt::Simple(_)
        | Stmt::Scope(_)
        | Stmt::Known(_)
        | Stmt::Assert(_, _)
        | Stmt::Wait
        | Stmt::Break
        | Stmt::Return(_, _, _) => Ok(()),
    }
}

fn push_call(calls: &mut Items<Call>, pos: Pos, func: u32) -> Result<(), OutOfMemory>
    ensures { OnOk result (calls.new ≡ calls.old ++ record { pos = pos; func = func } ∷ []) }
{
    calls.push(Call { pos, func })?;
    Ok(())
}

#[cycle(statements)]
#[tactic(auto, using(crate::proofs::GraphLemmas::of_lists))]
fn push_stmts(calls: &mut Items<Call>, stmts: &[Stmt]) -> Result<(), OutOfMemory>
    ensures { OnOk result (calls.new ≡ calls.old ++ calls_of_stmts stmts.now) }
{
    for stmt in stmts {
        push_calls(calls, stmt)?;
    }
    Ok(())
}

#[cycle(statements)]
#[tactic(auto, using(crate::proofs::GraphLemmas::of_lists))]
fn push_groups(calls: &mut Items<Call>, groups: &[Group]) -> Result<(), OutOfMemory>
    ensures { OnOk result (calls.new ≡ calls.old ++ calls_of_groups groups.now) }
{
    for group in groups {
        push_calls(calls, group.body.get())?;
    }
    Ok(())
}

/// The calls of a function.
fn calls_of(alloc: Global, func: &Func) -> Result<Items<Call>, OutOfMemory>
    ensures { IfOk result (λ r. r ≡ calls_of_stmts func.now.body) }
{
    let mut calls = Items::new(alloc);
    push_stmts(&mut calls, func.body.as_slice())?;
    Ok(calls)
}

/// The calls of each function, by its number.
pub(crate) fn graph(alloc: Global, funcs: &[Func]) -> Result<Items<Items<Call>>, OutOfMemory>
    ensures { IfOk result (λ r. r ≡ graph_of funcs.now) }
{
    let mut graph = Vec::with_capacity(alloc, funcs.len())?;
    for func in funcs {
        graph.push(calls_of(alloc, func)?)?;
    }
    Ok(Items::from_vec(graph))
}

/// The calls of the function with this number.
#[tactic(auto, using(crate::proofs::GraphLemmas::of_calls))]
pub(crate) fn calls_at(graph: &[Items<Call>], f: usize) -> &[Call]
    ensures { result.now ≡ calls_at graph.now f }
{
    match at(graph, f) {
        None => &[],
        Some(calls) => calls.as_slice(),
    }
}
