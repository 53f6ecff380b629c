//! The block of `main`, with the clock loop directly in it.

ghost use Rattle.std.specs.Prelude.{◌≡◌, IfOk, option_map};
ghost use Rattle.sa_typer.specs.Bodies as spec;
ghost use Rattle.sa_scopes.specs.Typing.{Yields, given};

use crate::bodies::Body;
use crate::statement::{block, item, leave};
use sa_base::{OutOfMemory, Pos};
use sa_scopes::first::item_pos;
use sa_scopes::typer::Typer;
use sa_syntax::{BlockItem, Expr, First, Simple, is_wait};
use sa_typed::{LoopKind, Stmt};
use sqlite_items::{Boxed, Items};
use std::alloc::Global;

// ---- the clock loop

/// What stands before the wait that a block ends with.
fn before_wait(items: &[BlockItem]) -> Option<&[BlockItem]>
    ensures { option_map (λ before. before.now) result ≡ spec.before_wait items.now }
{
    match items.split_last() {
        None => None,
        Some((last, before)) => is_wait(last).then_some(before),
    }
}

/// What stands in a block; a body without braces is none.
fn in_block(stmt: &sa_syntax::Stmt) -> &[BlockItem]
    ensures { result.now ≡ spec.in_block stmt.now }
{
    match stmt {
        sa_syntax::Stmt::Block(block) => block.items.as_slice(),
        _ => &[],
    }
}

/// The token `1`.
fn is_one(e: &Expr) -> bool
    ensures { result ≡ spec.is_one e.now }
{
    match e {
        Expr::Number(value, unsigned, longs, decimal, _) => {
            *value == 1 && !*unsigned && *longs == 0 && *decimal
        }
        _ => false,
    }
}

fn for_ever<'a>(
    first: &First,
    condition: &Option<Expr>,
    step: &Option<Simple>,
    body: &'a sa_syntax::Stmt,
) -> Option<&'a [BlockItem]>
    ensures { option_map (λ before. before.now) result ≡ spec.for_ever first.now condition.now step.now body.now }
{
    match first {
        First::Nothing => match condition {
            None => match step {
                None => before_wait(in_block(body)),
                Some(_) => None,
            },
            Some(_) => None,
        },
        First::Simple(_) | First::Declares(_, _, _, _) => None,
    }
}

#[tactic(auto, unfolding(crate::specs::Bodies::loop_in))]
fn loop_in(stmt: &sa_syntax::Stmt) -> Option<&[BlockItem]>
    ensures { option_map (λ before. before.now) result ≡ spec.loop_in stmt.now }
{
    match stmt {
        sa_syntax::Stmt::While(_, condition, body) => {
            if is_one(condition) {
                before_wait(in_block(body.get()))
            } else {
                None
            }
        }
        sa_syntax::Stmt::For(_, first, condition, step, body) => {
            for_ever(first, condition, step, body.get())
        }
        _ => None,
    }
}

/// What stands before the wait of a clock loop.
#[tactic(auto, unfolding(crate::specs::Bodies::clock_loop))]
fn clock_loop(item: &BlockItem) -> Option<&[BlockItem]>
    ensures { option_map (λ before. before.now) result ≡ spec.clock_loop item.now }
{
    match item {
        BlockItem::Local(_) => None,
        BlockItem::Stmt(stmt) => loop_in(stmt),
    }
}

// ---- the block

/// The clock loop with these statements before its wait.
fn clock_stmt(alloc: Global, pos: Pos, before: Items<Stmt>) -> Result<Stmt, OutOfMemory>
    ensures { IfOk result (λ stmt. stmt ≡ spec.clock_stmt pos before) }
{
    let mut stmts = before;
    stmts.push(Stmt::Wait)?;
    let body = Boxed::new(alloc, Stmt::Block(stmts))?;
    Ok(Stmt::Loop(pos, LoopKind::Clock, None, body, None))
}

/// An item, which may be a clock loop.
fn main_by<'a>(
    alloc: Global,
    typer: &mut Typer<'a>,
    one: &'a BlockItem,
    found: &mut Body,
) -> Result<(), OutOfMemory>
    ensures { Yields (spec.main_by (spec.clock_loop one.now) one.now found.old typer.old) (given result found.new) typer.new }
{
    match clock_loop(one) {
        None => item(alloc, typer, one, &mut found.stmts),
        Some(before) => {
            found.clock = true;
            let stmts = block(alloc, typer, before)?;
            found.stmts.push(clock_stmt(alloc, item_pos(one), stmts)?)
        }
    }
}

/// An item of `main`, which is refused where the clock loop stands before it.
#[tactic(auto, unfolding(crate::specs::Bodies::main_item))]
fn main_item<'a>(
    alloc: Global,
    typer: &mut Typer<'a>,
    one: &'a BlockItem,
    found: &mut Body,
) -> Result<(), OutOfMemory>
    ensures { Yields (spec.main_item one.now found.old typer.old) (given result found.new) typer.new }
{
    typer.refuse_if(found.clock, 23, item_pos(one))?;
    main_by(alloc, typer, one, found)
}

#[tactic(auto, using(sa_scopes::proofs::Loops::loops))]
fn main_items<'a>(
    alloc: Global,
    typer: &mut Typer<'a>,
    all: &'a [BlockItem],
) -> Result<Body, OutOfMemory>
    ensures { Yields (spec.main_items all.now spec.no_body typer.old) result typer.new }
{
    let mut found = Body {
        stmts: Items::new(alloc),
        clock: false,
    };
    for one in all {
        main_item(alloc, typer, one, &mut found)?;
    }
    Ok(found)
}

/// The block of `main`.
#[tactic(auto, unfolding(crate::specs::Bodies::main_block, crate::specs::Statements::scoped))]
pub fn main_block<'a>(
    alloc: Global,
    typer: &mut Typer<'a>,
    all: &'a [BlockItem],
) -> Result<Body, OutOfMemory>
    ensures { Yields (spec.main_block all.now typer.old) result typer.new }
{
    let (names, tags) = (typer.names.count(), typer.tags.count());
    let found = main_items(alloc, typer, all)?;
    leave(typer, names, tags);
    Ok(found)
}
