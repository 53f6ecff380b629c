//! Assignments, statements and the block of `main`.

ghost use Rattle.std.specs.Prelude.{◌≡◌, []};
ghost use Rattle.sa_syntax.specs.declared.stmt.Block.{out-Block};
ghost use Rattle.sa_typer.specs.Statements as spec;
ghost use Rattle.sa_typer.specs.Bodies as body;
ghost use Rattle.sa_scopes.specs.Typing.{Gives, Yields, given};

use sa_base::{Num, OutOfMemory, Pos};
use sa_declarations::declare_locals;
use sa_operands::expr::{expr, spot};
use sa_operands::{Operand, Sort, Spot, access_of, stand_in};
use sa_scopes::constant::{Value, working};
use sa_scopes::first::place_pos;
use sa_scopes::form::Form;
use sa_scopes::typer::Typer;
use sa_syntax::{Block, BlockItem, Compound, Directive, Place, Update};
use sa_typed::{Access, Expr, Operator, Simple, Stmt};
use sqlite_items::Items;
use std::alloc::Global;

// ---- assignments

fn some_assignment(access: Access, pos: Pos) -> Simple
    ensures { result ≡ spec.some_assignment access pos }
{
    Simple::Assign(access, Num::I32, pos, stand_in())
}

fn mismatched(typer: &mut Typer, access: Access, pos: Pos) -> Result<Simple, OutOfMemory>
    ensures { Yields (spec.mismatched access pos typer.old) result typer.new }
{
    typer.refuse(5, pos)?;
    Ok(some_assignment(access, pos))
}

fn to_number(
    typer: &mut Typer,
    access: Access,
    num: Num,
    pos: Pos,
    operand: Operand,
) -> Result<Simple, OutOfMemory>
    ensures { Yields (spec.to_number access num pos operand typer.old) result typer.new }
{
    match operand {
        Operand::Number(expr, _, _) => Ok(Simple::Assign(access, num, pos, expr)),
        Operand::Struct(_, _, _, _) | Operand::Array(_) => mismatched(typer, access, pos),
        Operand::Unknown => Ok(some_assignment(access, pos)),
    }
}

/// A whole structure is copied to one of the same number, where no index on either side varies.
fn to_struct(
    typer: &mut Typer,
    access: Access,
    fixed: bool,
    number: u32,
    pos: Pos,
    operand: Operand,
) -> Result<Simple, OutOfMemory>
    ensures { Yields (spec.to_struct access fixed number pos operand typer.old) result typer.new }
{
    match operand {
        Operand::Number(_, _, _) | Operand::Array(_) => mismatched(typer, access, pos),
        Operand::Struct(from, other, from_fixed, _) => {
            typer.refuse_if(!(number == other && fixed && from_fixed), 7, pos)?;
            Ok(Simple::Copy(number, access, pos, from))
        }
        Operand::Unknown => Ok(some_assignment(access, pos)),
    }
}

/// An assignment, with the place of the `=`. An array isn't assigned to, whatever stands at the right.
#[tactic(auto, unfolding(crate::specs::Statements::assigned))]
fn assigned(
    typer: &mut Typer,
    spot: Spot,
    pos: Pos,
    operand: Operand,
) -> Result<Simple, OutOfMemory>
    ensures { Yields (spec.assigned spot pos operand typer.old) result typer.new }
{
    let form = spot.form();
    let access = access_of(spot.root, spot.steps);
    match form {
        None => Ok(some_assignment(access, pos)),
        Some(Form::Scalar(num)) => to_number(typer, access, num, pos, operand),
        Some(Form::Struct(number)) => { to_struct(typer, access, spot.fixed, number, pos, operand) }
        Some(Form::Array(_)) => mismatched(typer, access, pos),
    }
}

// ---- compound assignments, `++` and `--`

fn compound_of(op: Compound) -> Operator
    ensures { result ≡ spec.compound_of op }
{
    match op {
        Compound::Plus => Operator::Plus,
        Compound::Minus => Operator::Minus,
        Compound::Times => Operator::Times,
        Compound::Divide => Operator::Divide,
        Compound::Remainder => Operator::Remainder,
        Compound::ShiftLeft => Operator::ShiftLeft,
        Compound::ShiftRight => Operator::ShiftRight,
        Compound::BitAnd => Operator::BitAnd,
        Compound::BitXor => Operator::BitXor,
        Compound::BitOr => Operator::BitOr,
    }
}

fn update_of(update: Update) -> Operator
    ensures { result ≡ spec.update_of update }
{
    match update {
        Update::Increment => Operator::Plus,
        Update::Decrement => Operator::Minus,
    }
}

fn one() -> Operand
    ensures { result ≡ spec.one }
{
    Operand::Number(Expr::Number(1, Num::I32), Num::I32, Value::Varies)
}

fn sort_by(form: Option<Form>) -> Sort
    ensures { result ≡ spec.sort_by form }
{
    match form {
        None => Sort::Unknown,
        Some(Form::Scalar(num)) => Sort::Number(num),
        Some(Form::Struct(_) | Form::Array(_)) => Sort::Object,
    }
}

/// A compound assignment, given the sort of its left side.
fn compounded_by(
    typer: &mut Typer,
    access: Access,
    op: Operator,
    pos: Pos,
    left: Sort,
    operand: Operand,
) -> Result<Simple, OutOfMemory>
    ensures { Yields (spec.compounded_by access op pos left operand typer.old) result typer.new }
{
    match operand {
        Operand::Number(expr, from, _) => match left {
            Sort::Number(to) => {
                Ok(Simple::Compound(access, to, op, pos, working(op, to, from), expr))
            }
            Sort::Object => mismatched(typer, access, pos),
            Sort::Unknown => Ok(some_assignment(access, pos)),
        },
        Operand::Struct(_, _, _, _) | Operand::Array(_) => mismatched(typer, access, pos),
        Operand::Unknown => {
            typer.refuse_if(left.is_object(), 5, pos)?;
            Ok(some_assignment(access, pos))
        }
    }
}

#[tactic(auto, unfolding(crate::specs::Statements::compounded))]
fn compounded(
    typer: &mut Typer,
    spot: Spot,
    op: Operator,
    pos: Pos,
    operand: Operand,
) -> Result<Simple, OutOfMemory>
    ensures { Yields (spec.compounded spot op pos operand typer.old) result typer.new }
{
    let left = sort_by(spot.form());
    let access = access_of(spot.root, spot.steps);
    compounded_by(typer, access, op, pos, left, operand)
}

/// A left side, which is neither constant nor an input.
fn left_side<'a>(
    alloc: Global,
    typer: &mut Typer<'a>,
    place: &'a Place,
) -> Result<Spot, OutOfMemory>
    ensures { Yields (spec.left_side place.now typer.old) result typer.new }
{
    let spot = spot(alloc, typer, place)?;
    typer.refuse_if(spot.locked, 6, place_pos(place))?;
    Ok(spot)
}

#[tactic(auto, unfolding(crate::specs::Statements::simple))]
pub fn simple<'a>(
    alloc: Global,
    typer: &mut Typer<'a>,
    simple: &'a sa_syntax::Simple,
) -> Result<Simple, OutOfMemory>
    ensures { Yields (spec.simple simple.now typer.old) result typer.new }
{
    match simple {
        sa_syntax::Simple::Assign(place, pos, value) => {
            let left = left_side(alloc, typer, place)?;
            let operand = expr(alloc, typer, value)?;
            assigned(typer, left, *pos, operand)
        }
        sa_syntax::Simple::Compound(place, op, pos, value) => {
            let left = left_side(alloc, typer, place)?;
            let operand = expr(alloc, typer, value)?;
            compounded(typer, left, compound_of(*op), *pos, operand)
        }
        sa_syntax::Simple::After(place, update, pos) => {
            let left = left_side(alloc, typer, place)?;
            compounded(typer, left, update_of(*update), *pos, one())
        }
        sa_syntax::Simple::Before(update, pos, place) => {
            let left = left_side(alloc, typer, place)?;
            compounded(typer, left, update_of(*update), *pos, one())
        }
    }
}

// ---- statements

/// What was declared in a block is not visible after it.
pub fn leave(typer: &mut Typer, names: usize, tags: usize)
    ensures { spec.left_scope names tags result typer.old ≡ Gives result typer.new }
{
    typer.names.truncate(names);
    typer.tags.truncate(tags);
}

fn directive(typer: &mut Typer, pos: Pos, directive: &Directive) -> Result<(), OutOfMemory>
    ensures { Yields (spec.directive pos directive.now typer.old) result typer.new }
{
    match directive {
        Directive::Wait => typer.refuse(23, pos),
        Directive::Partition | Directive::KnownFact(_) | Directive::Assert(_) => Ok(()),
    }
}

/// A statement, after the ones so far.
#[cycle(statements)]
#[tactic(auto, using(crate::proofs::StmtRows::stmt_rows))]
fn stmt<'a>(
    alloc: Global,
    typer: &mut Typer<'a>,
    stmt: &'a sa_syntax::Stmt,
    found: &mut Items<Stmt>,
) -> Result<(), OutOfMemory>
    ensures { Yields (spec.stmt stmt.now found.old typer.old) (given result found.new) typer.new }
{
    match stmt {
        sa_syntax::Stmt::Block(inner) => {
            let stmts = block(alloc, typer, inner.items.as_slice())?;
            found.push(Stmt::Block(stmts))
        }
        sa_syntax::Stmt::Simple(inner) => {
            let typed = simple(alloc, typer, inner)?;
            found.push(Stmt::Simple(typed))
        }
        sa_syntax::Stmt::Directive(pos, inner) => { directive(typer, *pos, inner) }
        sa_syntax::Stmt::Empty(_)
        | sa_syntax::Stmt::Gives(_, _, _)
        | sa_syntax::Stmt::Call(_)
        | sa_syntax::Stmt::If(_, _, _)
        | sa_syntax::Stmt::IfElse(_, _, _, _)
        | sa_syntax::Stmt::While(_, _, _)
        | sa_syntax::Stmt::DoWhile(_, _, _)
        | sa_syntax::Stmt::For(_, _, _, _, _)
        | sa_syntax::Stmt::Switch(_, _, _)
        | sa_syntax::Stmt::Break(_)
        | sa_syntax::Stmt::Return(_, _) => Ok(()),
    }
}

/// What stands in a block, after the statements so far.
#[cycle(statements)]
#[tactic(auto, using(crate::proofs::StmtRows::item_rows))]
pub fn item<'a>(
    alloc: Global,
    typer: &mut Typer<'a>,
    item: &'a BlockItem,
    found: &mut Items<Stmt>,
) -> Result<(), OutOfMemory>
    ensures { Yields (spec.item item.now found.old typer.old) (given result found.new) typer.new }
{
    match item {
        BlockItem::Local(local) => declare_locals(alloc, typer, local, found),
        BlockItem::Stmt(inner) => stmt(alloc, typer, inner, found),
    }
}

#[cycle(statements)]
#[tactic(auto, using(sa_scopes::proofs::Loops::loops))]
fn items<'a>(
    alloc: Global,
    typer: &mut Typer<'a>,
    all: &'a [BlockItem],
) -> Result<Items<Stmt>, OutOfMemory>
    ensures { Yields (body.items all.now [] typer.old) result typer.new }
{
    let mut found = Items::new(alloc);
    for one in all {
        item(alloc, typer, one, &mut found)?;
    }
    Ok(found)
}

/// A block by itself.
#[cycle(statements)]
#[tactic(auto, unfolding(crate::specs::Bodies::block, crate::specs::Statements::scoped))]
pub fn block<'a>(
    alloc: Global,
    typer: &mut Typer<'a>,
    all: &'a [BlockItem],
) -> Result<Items<Stmt>, OutOfMemory>
    ensures { Yields (body.block all.now typer.old) result typer.new }
{
    let (names, tags) = (typer.names.count(), typer.tags.count());
    let found = items(alloc, typer, all)?;
    leave(typer, names, tags);
    Ok(found)
}
