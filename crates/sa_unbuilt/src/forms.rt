//! The first form of a source, in the order of its text, that isn't built yet.
//!
//! Each function here looks at one kind of part, and fails with the place of the first form in it that isn't built.

ghost use Rattle.std.specs.Prelude.{◌≡◌};
ghost use Rattle.std.specs.List.{list_any};
ghost use Rattle.std.specs.Result.{result_err};
ghost use Rattle.sa_unbuilt.specs.Unbuilt as spec;
ghost use Rattle.sa_unbuilt.specs.Unbuilt.{first_in};

use sa_base::Pos;
use sa_syntax::{
    Base, Block, BlockItem, Bound, Declr, Directive, Expr, Field, First, Init, InitDeclr, Item,
    Link, Local, LocalDeclr, LocalStart, Name, Operator, Params, Place, Qualified, Qualifier,
    Simple, Specifiers, Start, Step, Stmt, Struct, Unit, is_main, is_wait,
};

// ---- expressions, places and types

fn check_operator(op: Operator, pos: Pos) -> Result<(), Pos>
    ensures { result_err result ≡ spec.in_operator op pos }
{
    match op {
        Operator::And | Operator::Or => Err(pos),
        _ => Ok(()),
    }
}

#[cycle(trees)]
#[tactic(auto, using(crate::proofs::FormLemmas::of_exprs))]
fn check_expr(e: &Expr) -> Result<(), Pos>
    ensures { result_err result ≡ spec.in_expr e.now }
{
    match e {
        Expr::Number(_, _, _, _, _) => Ok(()),
        Expr::Place(place) => check_place(place),
        Expr::Bracket(_, inner) => check_expr(inner.get()),
        Expr::Prefix(_, _, operand) => check_expr(operand.get()),
        Expr::Cast(_, ty, operand) => {
            check_specifiers(ty.get())?;
            check_expr(operand.get())
        }
        Expr::Chain(first, links) => {
            check_expr(first.get())?;
            check_links(links.as_slice())
        }
        Expr::Choice(condition, pos, _, _) => {
            check_expr(condition.get())?;
            Err(*pos)
        }
    }
}

#[cycle(trees)]
#[tactic(auto, using(crate::proofs::FormLemmas::of_lists))]
fn check_links(links: &[Link]) -> Result<(), Pos>
    ensures { result_err result ≡ first_in spec.in_link links.now }
{
    for link in links {
        check_link(link)?;
    }
    Ok(())
}

#[cycle(trees)]
fn check_link(link: &Link) -> Result<(), Pos>
    ensures { result_err result ≡ spec.in_link link.now }
{
    check_operator(link.op, link.pos)?;
    check_expr(&link.operand)
}

#[cycle(trees)]
fn check_place(place: &Place) -> Result<(), Pos>
    ensures { result_err result ≡ spec.in_place place.now }
{
    check_steps(place.steps.as_slice())
}

#[cycle(trees)]
#[tactic(auto, using(crate::proofs::FormLemmas::of_lists))]
fn check_steps(steps: &[Step]) -> Result<(), Pos>
    ensures { result_err result ≡ first_in spec.in_step steps.now }
{
    for step in steps {
        check_step(step)?;
    }
    Ok(())
}

#[cycle(trees)]
#[tactic(auto, using(crate::proofs::FormLemmas::of_steps))]
fn check_step(step: &Step) -> Result<(), Pos>
    ensures { result_err result ≡ spec.in_step step.now }
{
    match step {
        Step::Index(_, at) => check_expr(at.get()),
        Step::Field(_, _) | Step::Arrow(_, _) => Ok(()),
    }
}

#[cycle(trees)]
#[tactic(auto, unfolding(crate::specs::Unbuilt::in_base))]
fn check_specifiers(ty: &Specifiers) -> Result<(), Pos>
    ensures { result_err result ≡ spec.in_specifiers ty.now }
{
    match &ty.base {
        Base::Struct(body) => check_struct(body),
        Base::Scalar(_) | Base::Void | Base::Tag(_) | Base::Named(_) => Ok(()),
    }
}

#[cycle(trees)]
#[tactic(auto, using(crate::proofs::FormLemmas::struct_fields))]
fn check_struct(body: &Struct) -> Result<(), Pos>
    ensures { result_err result ≡ spec.in_struct body.now }
{
    check_fields(body.fields.as_slice())
}

#[cycle(trees)]
#[tactic(auto, using(crate::proofs::FormLemmas::of_lists))]
fn check_fields(fields: &[Field]) -> Result<(), Pos>
    ensures { result_err result ≡ first_in spec.in_field fields.now }
{
    for field in fields {
        check_field(field)?;
    }
    Ok(())
}

#[cycle(trees)]
#[tactic(auto, using(crate::proofs::FormLemmas::field_declrs))]
fn check_field(field: &Field) -> Result<(), Pos>
    ensures { result_err result ≡ spec.in_field field.now }
{
    check_specifiers(&field.ty)?;
    check_declrs(field.declrs.as_slice())
}

#[cycle(trees)]
#[tactic(auto, using(crate::proofs::FormLemmas::of_lists))]
fn check_declrs(declrs: &[Declr]) -> Result<(), Pos>
    ensures { result_err result ≡ first_in spec.in_declr declrs.now }
{
    for declr in declrs {
        check_declr(declr)?;
    }
    Ok(())
}

#[cycle(trees)]
#[tactic(auto, using(crate::proofs::FormLemmas::declr_bounds))]
fn check_declr(declr: &Declr) -> Result<(), Pos>
    ensures { result_err result ≡ spec.in_declr declr.now }
{
    check_bounds(declr.bounds.as_slice())
}

#[cycle(trees)]
#[tactic(auto, using(crate::proofs::FormLemmas::of_lists))]
fn check_bounds(bounds: &[Bound]) -> Result<(), Pos>
    ensures { result_err result ≡ first_in spec.in_bound bounds.now }
{
    for bound in bounds {
        check_expr(&bound.size)?;
    }
    Ok(())
}

// ---- initialisers

#[cycle(initialisers)]
#[tactic(auto, using(crate::proofs::FormLemmas::of_inits))]
fn check_init(init: &Init) -> Result<(), Pos>
    ensures { result_err result ≡ spec.in_init init.now }
{
    match init {
        Init::Value(value) => check_expr(value),
        Init::Braces(_, inits) => check_inits(inits.as_slice()),
    }
}

#[cycle(initialisers)]
#[tactic(auto, using(crate::proofs::FormLemmas::of_lists))]
fn check_inits(inits: &[Init]) -> Result<(), Pos>
    ensures { result_err result ≡ first_in spec.in_init inits.now }
{
    for init in inits {
        check_init(init)?;
    }
    Ok(())
}

fn check_start(start: &Start) -> Result<(), Pos>
    ensures { result_err result ≡ spec.in_start start.now }
{
    match start {
        Start::Nothing => Ok(()),
        Start::Init(_, init) => check_init(init),
    }
}

#[tactic(auto, unfolding(crate::specs::Unbuilt::in_init_declr))]
fn check_init_declr(declr: &InitDeclr) -> Result<(), Pos>
    ensures { result_err result ≡ spec.in_init_declr declr.now }
{
    check_declr(&declr.declr)?;
    check_start(&declr.start)
}

#[tactic(auto, using(crate::proofs::FormLemmas::of_lists))]
fn check_init_declrs(declrs: &[InitDeclr]) -> Result<(), Pos>
    ensures { result_err result ≡ first_in spec.in_init_declr declrs.now }
{
    for declr in declrs {
        check_init_declr(declr)?;
    }
    Ok(())
}

fn check_local_start(start: &LocalStart) -> Result<(), Pos>
    ensures { result_err result ≡ spec.in_local_start start.now }
{
    match start {
        LocalStart::Nothing => Ok(()),
        LocalStart::Init(_, init) => check_init(init),
        LocalStart::Call(_, call) => Err(call.name.pos),
    }
}

#[tactic(auto, unfolding(crate::specs::Unbuilt::in_local_declr))]
fn check_local_declr(declr: &LocalDeclr) -> Result<(), Pos>
    ensures { result_err result ≡ spec.in_local_declr declr.now }
{
    check_declr(&declr.declr)?;
    check_local_start(&declr.start)
}

#[tactic(auto, using(crate::proofs::FormLemmas::of_lists))]
fn check_local_declrs(declrs: &[LocalDeclr]) -> Result<(), Pos>
    ensures { result_err result ≡ first_in spec.in_local_declr declrs.now }
{
    for declr in declrs {
        check_local_declr(declr)?;
    }
    Ok(())
}

fn is_static(qualified: &Qualified) -> bool
    ensures { result ≡ spec.is_static qualified.now }
{
    matches!(qualified.word, Qualifier::Static)
}

fn any_static(qualifiers: &[Qualified]) -> bool
    ensures { result ≡ list_any spec.is_static qualifiers.now }
{
    qualifiers.iter().any(|qualified| is_static(qualified))
}

/// A local name isn't static.
fn check_storage(ty: &Specifiers) -> Result<(), Pos>
    ensures { result_err result ≡ spec.in_storage ty.now }
{
    if any_static(ty.qualifiers.as_slice()) {
        Err(ty.pos)
    } else {
        Ok(())
    }
}

#[tactic(auto, unfolding(crate::specs::Unbuilt::in_local))]
fn check_local(local: &Local) -> Result<(), Pos>
    ensures { result_err result ≡ spec.in_local local.now }
{
    check_storage(&local.ty)?;
    check_specifiers(&local.ty)?;
    check_local_declrs(local.declrs.as_slice())
}

// ---- statements

#[tactic(auto, unfolding(crate::specs::Unbuilt::in_simple))]
fn check_simple(simple: &Simple) -> Result<(), Pos>
    ensures { result_err result ≡ spec.in_simple simple.now }
{
    match simple {
        Simple::Assign(place, _, value) | Simple::Compound(place, _, _, value) => {
            check_place(place)?;
            check_expr(value)
        }
        Simple::After(place, _, _) | Simple::Before(_, _, place) => check_place(place),
    }
}

fn check_directive(directive: &Directive, pos: Pos) -> Result<(), Pos>
    ensures { result_err result ≡ spec.in_directive directive.now pos }
{
    match directive {
        Directive::Wait => Ok(()),
        Directive::Partition | Directive::KnownFact(_) | Directive::Assert(_) => Err(pos),
    }
}

/// A statement that doesn't stand directly in main's block: no loop is built there.
#[cycle(statements)]
#[tactic(auto, using(crate::proofs::FormLemmas::of_stmts))]
fn check_stmt(stmt: &Stmt) -> Result<(), Pos>
    ensures { result_err result ≡ spec.in_stmt stmt.now }
{
    match stmt {
        Stmt::Block(block) => check_items(block.items.as_slice()),
        Stmt::Empty(_) => Ok(()),
        Stmt::Simple(simple) => check_simple(simple),
        Stmt::Gives(place, _, call) => {
            check_place(place)?;
            Err(call.name.pos)
        }
        Stmt::Call(call) => Err(call.name.pos),
        Stmt::If(pos, _, _)
        | Stmt::IfElse(pos, _, _, _)
        | Stmt::While(pos, _, _)
        | Stmt::DoWhile(pos, _, _)
        | Stmt::For(pos, _, _, _, _)
        | Stmt::Switch(pos, _, _)
        | Stmt::Break(pos)
        | Stmt::Return(pos, _) => Err(*pos),
        Stmt::Directive(pos, directive) => check_directive(directive, *pos),
    }
}

#[cycle(statements)]
#[tactic(auto, using(crate::proofs::FormLemmas::of_items))]
fn check_item(item: &BlockItem) -> Result<(), Pos>
    ensures { result_err result ≡ spec.in_item item.now }
{
    match item {
        BlockItem::Local(local) => check_local(local),
        BlockItem::Stmt(stmt) => check_stmt(stmt),
    }
}

#[cycle(statements)]
#[tactic(auto, using(crate::proofs::FormLemmas::of_lists))]
fn check_items(items: &[BlockItem]) -> Result<(), Pos>
    ensures { result_err result ≡ first_in spec.in_item items.now }
{
    for item in items {
        check_item(item)?;
    }
    Ok(())
}

// ---- the clock loop

/// The token `1`.
fn is_one(e: &Expr) -> bool
    ensures { result ≡ spec.is_one e.now }
{
    matches!(e, Expr::Number(1, false, 0, true, _))
}

/// `for (;;)`
fn is_endless(first: &First, condition: &Option<Expr>, next: &Option<Simple>) -> bool
    ensures { result ≡ spec.is_endless first.now condition.now next.now }
{
    matches!((first, condition, next), (First::Nothing, None, None))
}

#[tactic(auto, using(crate::proofs::FormLemmas::of_ends))]
fn ends_with_wait(items: &[BlockItem]) -> bool
    ensures { result ≡ spec.ends_with_wait items.now }
{
    match items {
        [] => false,
        [.., last] => is_wait(last),
    }
}

/// A block whose last statement is the wait.
fn is_turn(stmt: &Stmt) -> bool
    ensures { result ≡ spec.is_turn stmt.now }
{
    match stmt {
        Stmt::Block(block) => ends_with_wait(block.items.as_slice()),
        _ => false,
    }
}

/// A loop directly in main's block, with the place of its word, and whether its head goes on for ever.
fn check_loop(pos: Pos, endless: bool, body: &Stmt) -> Result<(), Pos>
    ensures { result_err result ≡ spec.in_loop pos endless body.now }
{
    if endless && is_turn(body) {
        check_stmt(body)
    } else {
        Err(pos)
    }
}

// ---- main

/// A statement directly in main's block.
#[tactic(auto, unfolding(crate::specs::Unbuilt::in_main_stmt))]
fn check_main_stmt(stmt: &Stmt) -> Result<(), Pos>
    ensures { result_err result ≡ spec.in_main_stmt stmt.now }
{
    match stmt {
        Stmt::While(pos, condition, body) => check_loop(*pos, is_one(condition), body.get()),
        Stmt::For(pos, first, condition, next, body) => {
            check_loop(*pos, is_endless(first, condition, next), body.get())
        }
        _ => check_stmt(stmt),
    }
}

#[tactic(auto, unfolding(crate::specs::Unbuilt::in_main_item))]
fn check_main_item(item: &BlockItem) -> Result<(), Pos>
    ensures { result_err result ≡ spec.in_main_item item.now }
{
    match item {
        BlockItem::Local(local) => check_local(local),
        BlockItem::Stmt(stmt) => check_main_stmt(stmt),
    }
}

#[tactic(auto, using(crate::proofs::FormLemmas::of_lists))]
fn check_main_items(items: &[BlockItem]) -> Result<(), Pos>
    ensures { result_err result ≡ first_in spec.in_main_item items.now }
{
    for item in items {
        check_main_item(item)?;
    }
    Ok(())
}

fn is_empty_list(params: &Params) -> bool
    ensures { result ≡ spec.is_empty_list params.now }
{
    match params {
        Params::Empty | Params::Void => true,
        Params::List(_) => false,
    }
}

#[tactic(auto, unfolding(crate::specs::Unbuilt::in_func))]
fn check_func(ty: &Specifiers, name: &Name, params: &Params, body: &Block) -> Result<(), Pos>
    ensures { result_err result ≡ spec.in_func ty.now name.now params.now body.now }
{
    if !(is_main(name) && is_empty_list(params)) {
        return Err(ty.pos);
    }
    check_specifiers(ty)?;
    check_main_items(body.items.as_slice())
}

// ---- the whole

#[tactic(auto, unfolding(crate::specs::Unbuilt::in_top))]
fn check_top(item: &Item) -> Result<(), Pos>
    ensures { result_err result ≡ spec.in_top item.now }
{
    match item {
        Item::Typedef(_, ty, _) => check_specifiers(ty),
        Item::Struct(_, body) => check_struct(body),
        Item::Global(ty, declrs) => {
            check_specifiers(ty)?;
            check_init_declrs(declrs.as_slice())
        }
        Item::Proto(ty, _, _) => Err(ty.pos),
        Item::Func(ty, name, params, body) => check_func(ty, name, params, body),
    }
}

#[tactic(auto, using(crate::proofs::FormLemmas::of_lists))]
fn check_tops(items: &[Item]) -> Result<(), Pos>
    ensures { result_err result ≡ first_in spec.in_top items.now }
{
    for item in items {
        check_top(item)?;
    }
    Ok(())
}

/// The place of the first form, in the order of the text, that isn't built yet, or `None` where all forms are built.
#[tactic(auto, unfolding(crate::specs::Unbuilt::first_unbuilt))]
pub fn first_unbuilt(unit: &Unit) -> Option<Pos>
    ensures { result ≡ spec.first_unbuilt unit.now }
{
    check_tops(unit.items.as_slice()).err()
}
