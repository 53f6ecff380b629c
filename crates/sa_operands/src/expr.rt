//! Expressions and types, which hold one another.

ghost use Rattle.std.specs.Prelude.{◌≡◌, []};
ghost use Rattle.sa_syntax.specs.declared.decl.Specifiers.{out-Specifiers};
ghost use Rattle.sa_operands.specs.Expressions as spec;
ghost use Rattle.sa_operands.specs.Lists as list;
ghost use Rattle.sa_scopes.specs.Typing.{Yields, given};

use crate::definition::{close, dimension, field, no_fields, open_tag};
use crate::operand::{
    Left, Operand, Spot, beside, cast, choice, left_of, linked, literal, prefix_of, prefixed,
};
use crate::place::{arrow, begins, field as step_field, index, operand};
use sa_base::OutOfMemory;
use sa_scopes::first::expr_pos;
use sa_scopes::structs::Fields;
use sa_scopes::typer::Typer;
use sa_scopes::types::{
    Element, Ty, check_qualifiers, not_void, num_of, plain, qualified, scalar, struct_named,
    type_name,
};
use sa_syntax::{Base, Bound, Declr, Expr, Field, Link, Place, Specifiers, Step, Struct};
use sqlite_items::Items;
use std::alloc::Global;

/// What an expression is typed as; what is wrong with it is noted in the state, and an error is want of memory alone.
#[cycle(typing)]
#[tactic(auto, using(crate::proofs::ExprRows::expr_rows))]
pub fn expr<'a>(alloc: Global, typer: &mut Typer<'a>, e: &'a Expr) -> Result<Operand, OutOfMemory>
    ensures { Yields (spec.expr e.now typer.old) result typer.new }
{
    match e {
        Expr::Number(value, unsigned, longs, decimal, _) => {
            Ok(literal(*value, *unsigned, *longs, *decimal))
        }
        Expr::Place(place) => {
            let spot = spot(alloc, typer, place)?;
            Ok(operand(spot))
        }
        Expr::Bracket(_, inner) => expr(alloc, typer, inner.get()),
        Expr::Prefix(op, pos, inner) => {
            let inner = expr(alloc, typer, inner.get())?;
            prefixed(alloc, typer, prefix_of(*op), *pos, inner)
        }
        Expr::Cast(pos, ty, inner) => {
            check_qualifiers(typer, false, true, ty.get().qualifiers.as_slice())?;
            let ty = object_type(alloc, typer, ty.get())?;
            let inner = expr(alloc, typer, inner.get())?;
            cast(alloc, typer, *pos, ty.element, inner)
        }
        Expr::Chain(first, more) => {
            let left = left_of(alloc, expr(alloc, typer, first.get())?);
            beside_head(typer, more.as_slice(), first.get())?;
            let left = links(alloc, typer, more.as_slice(), left)?;
            left.into_operand(alloc)
        }
        Expr::Choice(condition, pos, first, second) => {
            let condition = expr(alloc, typer, condition.get())?;
            let first = expr(alloc, typer, first.get())?;
            let second = expr(alloc, typer, second.get())?;
            choice(alloc, typer, *pos, condition, first, second)
        }
    }
}

/// The first operand of a chain stands beside its first operator.
#[tactic(auto, unfolding(crate::specs::Lists::beside_head))]
fn beside_head(typer: &mut Typer, more: &[Link], first: &Expr) -> Result<(), OutOfMemory>
    ensures { Yields (list.beside_head more.now first.now typer.old) result typer.new }
{
    match more {
        [] => Ok(()),
        [link, ..] => beside(typer, link.op, first),
    }
}

#[cycle(typing)]
fn link<'a>(
    alloc: Global,
    typer: &mut Typer<'a>,
    link: &'a Link,
    left: Left,
) -> Result<Left, OutOfMemory>
    ensures { Yields (list.link link.now left typer.old) result typer.new }
{
    let operand = expr(alloc, typer, &link.operand)?;
    beside(typer, link.op, &link.operand)?;
    linked(alloc, typer, link.op, link.pos, left, operand)
}

#[cycle(typing)]
#[tactic(auto, using(sa_scopes::proofs::Loops::loops))]
fn links<'a>(
    alloc: Global,
    typer: &mut Typer<'a>,
    all: &'a [Link],
    first: Left,
) -> Result<Left, OutOfMemory>
    ensures { Yields (list.links all.now first typer.old) result typer.new }
{
    let mut left = first;
    for one in all {
        left = link(alloc, typer, one, left)?;
    }
    Ok(left)
}

/// What a place is typed as, with its steps in the order of the text.
#[cycle(typing)]
#[tactic(auto, unfolding(crate::specs::Lists::spot))]
pub fn spot<'a>(alloc: Global, typer: &mut Typer<'a>, place: &'a Place) -> Result<Spot, OutOfMemory>
    ensures { Yields (list.spot place.now typer.old) result typer.new }
{
    let spot = begins(alloc, typer, &place.base)?;
    steps(alloc, typer, place.steps.as_slice(), spot)
}

#[cycle(typing)]
#[tactic(auto, using(sa_scopes::proofs::Loops::loops))]
fn steps<'a>(
    alloc: Global,
    typer: &mut Typer<'a>,
    all: &'a [Step],
    first: Spot,
) -> Result<Spot, OutOfMemory>
    ensures { Yields (list.steps all.now first typer.old) result typer.new }
{
    let mut spot = first;
    for one in all {
        spot = step(alloc, typer, one, spot)?;
    }
    Ok(spot)
}

#[cycle(typing)]
#[tactic(auto, using(crate::proofs::ExprRows::step_rows))]
fn step<'a>(
    alloc: Global,
    typer: &mut Typer<'a>,
    step: &'a Step,
    spot: Spot,
) -> Result<Spot, OutOfMemory>
    ensures { Yields (spec.step step.now spot typer.old) result typer.new }
{
    match step {
        Step::Index(pos, at) => {
            let at = expr(alloc, typer, at.get())?;
            index(alloc, typer, *pos, at, spot)
        }
        Step::Field(pos, name) => step_field(alloc, typer, *pos, name, spot),
        Step::Arrow(pos, _) => arrow(typer, *pos, spot),
    }
}

// ---- types

#[cycle(typing)]
#[tactic(auto, using(crate::proofs::ExprRows::base_rows))]
fn base_type<'a>(
    alloc: Global,
    typer: &mut Typer<'a>,
    ty: &'a Specifiers,
) -> Result<Ty, OutOfMemory>
    ensures { Yields (spec.base_type (out-Specifiers ty.now).pos (out-Specifiers ty.now).base typer.old) result typer.new }
{
    match &ty.base {
        Base::Scalar(words) => scalar(typer, ty.pos, num_of(words.as_slice())),
        Base::Void => Ok(plain(Element::Void)),
        Base::Tag(tag) => struct_named(typer, ty.pos, tag),
        Base::Struct(body) => structure(alloc, typer, body),
        Base::Named(name) => Ok(type_name(typer, name)),
    }
}

/// A type with its qualifiers, which aren't refused here.
#[cycle(typing)]
#[tactic(auto, unfolding(crate::specs::Lists::type_of))]
pub fn type_of<'a>(
    alloc: Global,
    typer: &mut Typer<'a>,
    ty: &'a Specifiers,
) -> Result<Ty, OutOfMemory>
    ensures { Yields (list.type_of ty.now typer.old) result typer.new }
{
    let base = base_type(alloc, typer, ty)?;
    Ok(qualified(ty.qualifiers.as_slice(), base))
}

/// The type of an object, where `void` is refused.
#[cycle(typing)]
#[tactic(auto, unfolding(crate::specs::Lists::object_type, crate::specs::Lists::type_of))]
pub fn object_type<'a>(
    alloc: Global,
    typer: &mut Typer<'a>,
    ty: &'a Specifiers,
) -> Result<Ty, OutOfMemory>
    ensures { Yields (list.object_type ty.now typer.old) result typer.new }
{
    let whole = type_of(alloc, typer, ty)?;
    not_void(typer, ty.pos, whole)
}

/// A structure that is defined, with its tag where it has one.
#[cycle(typing)]
#[tactic(auto, using(crate::proofs::ExprRows::struct_rows))]
pub fn structure<'a>(
    alloc: Global,
    typer: &mut Typer<'a>,
    body: &'a Struct,
) -> Result<Ty, OutOfMemory>
    ensures { Yields (spec.structure body.now typer.old) result typer.new }
{
    let at = open_tag(typer, &body.tag)?;
    let mut found = no_fields(alloc);
    fields(alloc, typer, body.fields.as_slice(), &mut found)?;
    close(alloc, typer, &body.tag, at, found)
}

#[cycle(typing)]
#[tactic(auto, using(sa_scopes::proofs::Loops::loops))]
fn fields<'a>(
    alloc: Global,
    typer: &mut Typer<'a>,
    all: &'a [Field],
    found: &mut Fields<'a>,
) -> Result<(), OutOfMemory>
    ensures { Yields (list.fields all.now found.old typer.old) (given result found.new) typer.new }
{
    for one in all {
        field_group(alloc, typer, one, found)?;
    }
    Ok(())
}

#[cycle(typing)]
#[tactic(auto, using(crate::proofs::ExprRows::struct_rows))]
fn field_group<'a>(
    alloc: Global,
    typer: &mut Typer<'a>,
    group: &'a Field,
    found: &mut Fields<'a>,
) -> Result<(), OutOfMemory>
    ensures { Yields (spec.field group.now found.old typer.old) (given result found.new) typer.new }
{
    check_qualifiers(typer, false, false, group.ty.qualifiers.as_slice())?;
    let ty = object_type(alloc, typer, &group.ty)?;
    declrs(alloc, typer, ty, group.declrs.as_slice(), found)
}

#[cycle(typing)]
#[tactic(auto, using(sa_scopes::proofs::Loops::loops))]
fn declrs<'a>(
    alloc: Global,
    typer: &mut Typer<'a>,
    ty: Ty,
    all: &'a [Declr],
    found: &mut Fields<'a>,
) -> Result<(), OutOfMemory>
    ensures { Yields (list.declrs ty all.now found.old typer.old) (given result found.new) typer.new }
{
    for one in all {
        declr(alloc, typer, ty, one, found)?;
    }
    Ok(())
}

#[cycle(typing)]
#[tactic(auto, using(crate::proofs::ExprRows::struct_rows))]
fn declr<'a>(
    alloc: Global,
    typer: &mut Typer<'a>,
    ty: Ty,
    declr: &'a Declr,
    found: &mut Fields<'a>,
) -> Result<(), OutOfMemory>
    ensures { Yields (spec.declr ty declr.now found.old typer.old) (given result found.new) typer.new }
{
    let dimensions = bounds(alloc, typer, declr.bounds.as_slice())?;
    field(alloc, typer, &declr.name, ty, dimensions, found)
}

/// The dimensions of a declared name, the outermost first.
#[cycle(typing)]
#[tactic(auto, using(sa_scopes::proofs::Loops::loops))]
pub fn bounds<'a>(
    alloc: Global,
    typer: &mut Typer<'a>,
    all: &'a [Bound],
) -> Result<Items<u32>, OutOfMemory>
    ensures { Yields (list.bounds all.now [] typer.old) result typer.new }
{
    let mut found = Items::new(alloc);
    for one in all {
        bound(alloc, typer, one, &mut found)?;
    }
    Ok(found)
}

#[cycle(typing)]
fn bound<'a>(
    alloc: Global,
    typer: &mut Typer<'a>,
    bound: &'a Bound,
    found: &mut Items<u32>,
) -> Result<(), OutOfMemory>
    ensures { Yields (list.bound bound.now found.old typer.old) (given result found.new) typer.new }
{
    let size = expr(alloc, typer, &bound.size)?;
    let count = dimension(typer, expr_pos(&bound.size), &size)?;
    found.push(count)
}
