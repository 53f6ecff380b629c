//! Declarations of variables, inputs and locals.

ghost use Rattle.std.specs.Prelude.{◌≡◌, ◌∷◌, ◌++◌, [], IfOk};
ghost use Rattle.sa_declarations.specs.Declarations as spec;
ghost use Rattle.sa_scopes.specs.Typing.{Yields, given};

use crate::beginning::Beginning;
use crate::initial::initial_values;
use sa_base::{Num, OutOfMemory, Pos, Text};
use sa_operands::Operand;
use sa_operands::expr::{bounds, expr, object_type};
use sa_scopes::first::{expr_pos, init_pos};
use sa_scopes::form::Form;
use sa_scopes::structs::number;
use sa_scopes::typer::Typer;
use sa_scopes::types::{Element, Named, Ty, check_qualifiers, has_volatile, shape_of};
use sa_syntax::{Bound, Init, InitDeclr, Local, LocalDeclr, LocalStart, Name, Specifiers};
use sa_typed::{Home, Input, Shape, Simple, Start, Stmt, Var};
use sqlite_items::Items;
use std::alloc::Global;

/// A name with what it stands for, or a refusal where it is visible already.
#[tactic(auto, unfolding(crate::specs::Declarations::named))]
pub fn declare<'a>(typer: &mut Typer<'a>, name: &'a Name, named: Named) -> Result<(), OutOfMemory>
    ensures { Yields (spec.named name.now named typer.old) result typer.new }
{
    if typer.names.contains(name.text.bytes()) {
        return typer.refuse(2, name.pos);
    }
    typer.names.declare(name.text.bytes(), named)
}

// ---- variables and inputs

fn var(
    alloc: Global,
    name: &Name,
    shape: Shape,
    home: Home,
    constant: bool,
    initial: Items<i128>,
) -> Result<Var, OutOfMemory>
    ensures { IfOk result (λ v. v ≡ spec.var name.now shape home constant initial) }
{
    Ok(Var {
        name: Text::of_bytes(alloc, name.text.bytes())?,
        pos: name.pos,
        shape,
        home,
        constant,
        initial,
    })
}

/// Another variable, and its number.
#[tactic(auto, unfolding(crate::specs::Declarations::variable))]
fn variable<'a>(
    alloc: Global,
    typer: &mut Typer<'a>,
    name: &'a Name,
    shape: Shape,
    home: Home,
    constant: bool,
    initial: Items<i128>,
) -> Result<u32, OutOfMemory>
    ensures { Yields (spec.variable name.now shape home constant initial typer.old) result typer.new }
{
    let number = number(typer.vars.len())?;
    declare(typer, name, Named::Variable(number))?;
    let var = var(alloc, name, shape, home, constant, initial)?;
    add_var(typer, var)?;
    Ok(number)
}

fn add_var(typer: &mut Typer, var: Var) -> Result<(), OutOfMemory>
    ensures { Yields (spec.added var typer.old) result typer.new }
{
    typer.vars.push(var)
}

/// Another input.
#[tactic(auto, unfolding(crate::specs::Declarations::input))]
fn input<'a>(
    alloc: Global,
    typer: &mut Typer<'a>,
    name: &'a Name,
    num: Num,
) -> Result<(), OutOfMemory>
    ensures { Yields (spec.input name.now num typer.old) result typer.new }
{
    let number = number(typer.inputs.len())?;
    declare(typer, name, Named::Input(number, num))?;
    let name = Text::of_bytes(alloc, name.text.bytes())?;
    typer.inputs.push(Input { name, num })
}

// ---- the file scope

fn input_by(element: Element, dimensions: &[u32], start: &sa_syntax::Start) -> Option<Num>
    ensures { result ≡ spec.input_by element dimensions.now start.now }
{
    match element {
        Element::Scalar(num) => match dimensions {
            [] => match start {
                sa_syntax::Start::Nothing => Some(num),
                sa_syntax::Start::Init(_, _) => None,
            },
            _ => None,
        },
        _ => None,
    }
}

/// The type of an input, where that is declared.
fn input_type(
    volatile: bool,
    element: Element,
    dimensions: &[u32],
    start: &sa_syntax::Start,
) -> Option<Num>
    ensures { result ≡ spec.input_type volatile element dimensions.now start.now }
{
    if volatile {
        input_by(element, dimensions, start)
    } else {
        None
    }
}

/// The initial values of a global.
fn initial<'a>(
    alloc: Global,
    typer: &mut Typer<'a>,
    volatile: bool,
    shape: &Shape,
    start: &'a sa_syntax::Start,
) -> Result<Items<i128>, OutOfMemory>
    ensures { Yields (spec.initial volatile shape.now start.now typer.old) result typer.new }
{
    match start {
        sa_syntax::Start::Nothing => Ok(Items::new(alloc)),
        sa_syntax::Start::Init(_, value) => {
            typer.refuse_if(volatile, 20, init_pos(value))?;
            initial_values(alloc, typer, value, shape)
        }
    }
}

fn global_by<'a>(
    alloc: Global,
    typer: &mut Typer<'a>,
    input_type: Option<Num>,
    volatile: bool,
    ty: Ty,
    name: &'a Name,
    shape: Shape,
    start: &'a sa_syntax::Start,
) -> Result<(), OutOfMemory>
    ensures { Yields (spec.global_by input_type volatile ty name.now shape start.now typer.old) result typer.new }
{
    match input_type {
        Some(num) => input(alloc, typer, name, num),
        None => {
            let values = initial(alloc, typer, volatile, &shape, start)?;
            let home = Home::Global;
            variable(alloc, typer, name, shape, home, ty.constant, values)?;
            Ok(())
        }
    }
}

#[tactic(auto, unfolding(crate::specs::Declarations::global))]
fn global<'a>(
    alloc: Global,
    typer: &mut Typer<'a>,
    volatile: bool,
    ty: Ty,
    declr: &'a InitDeclr,
) -> Result<(), OutOfMemory>
    ensures { Yields (spec.global volatile ty declr.now typer.old) result typer.new }
{
    let dimensions = bounds(alloc, typer, declr.declr.bounds.as_slice())?;
    let input_type = input_type(volatile, ty.element, dimensions.as_slice(), &declr.start);
    let shape = shape_of(ty.element, dimensions);
    global_by(
        alloc,
        typer,
        input_type,
        volatile,
        ty,
        &declr.declr.name,
        shape,
        &declr.start,
    )
}

#[tactic(auto, using(sa_scopes::proofs::Loops::loops))]
fn globals<'a>(
    alloc: Global,
    typer: &mut Typer<'a>,
    volatile: bool,
    ty: Ty,
    all: &'a [InitDeclr],
) -> Result<(), OutOfMemory>
    ensures { Yields (spec.globals volatile ty all.now typer.old) result typer.new }
{
    for one in all {
        global(alloc, typer, volatile, ty, one)?;
    }
    Ok(())
}

fn is_bare(bounds: &[Bound]) -> bool
    ensures { result ≡ spec.is_bare bounds.now }
{
    bounds.is_empty()
}

fn and_bare(found: bool, declr: &InitDeclr) -> bool
    ensures { result ≡ spec.and_bare found declr.now }
{
    found && is_bare(declr.declr.bounds.as_slice())
}

/// Whether all declared names are without dimensions.
fn are_bare(all: &[InitDeclr]) -> bool
    ensures { result ≡ spec.are_bare all.now }
{
    let mut found = true;
    for one in all {
        found = and_bare(found, one);
    }
    found
}

/// Whether an object of it is a structure, apart from dimensions.
pub fn is_struct(element: Element) -> bool
    ensures { result ≡ spec.is_struct element }
{
    matches!(element, Element::Struct(_))
}

/// A declaration at file scope, where `volatile` may stand before scalars: its variables and inputs, in the order of the text.
#[tactic(auto, unfolding(crate::specs::Declarations::declared))]
pub fn declare_globals<'a>(
    alloc: Global,
    typer: &mut Typer<'a>,
    ty: &'a Specifiers,
    all: &'a [InitDeclr],
) -> Result<(), OutOfMemory>
    ensures { Yields (spec.declared ty.now all.now typer.old) result typer.new }
{
    let words = ty.qualifiers.as_slice();
    let written = object_type(alloc, typer, ty)?;
    let fits = !is_struct(written.element) && are_bare(all);
    check_qualifiers(typer, fits, true, words)?;
    globals(alloc, typer, has_volatile(words), written, all)
}

// ---- locals

fn beginning(start: Start, initial: Items<i128>) -> Beginning
    ensures { result ≡ spec.beginning start initial }
{
    Beginning { start, initial }
}

/// A local begins with the value of an expression; the places are those of the `=` and of the expression's first token.
fn begun_with(
    alloc: Global,
    typer: &mut Typer,
    pos: Pos,
    first: Pos,
    form: Form,
    operand: Operand,
) -> Result<Beginning, OutOfMemory>
    ensures { Yields (spec.begun_with pos first form operand typer.old) result typer.new }
{
    match form {
        Form::Scalar(_) => {
            typer.refuse_if(operand.sort().is_object(), 5, pos)?;
            let start = Start::Value(pos, operand.into_expr());
            Ok(beginning(start, Items::new(alloc)))
        }
        Form::Struct(_) | Form::Array(_) => {
            typer.refuse(20, first)?;
            Ok(beginning(Start::Any, Items::new(alloc)))
        }
    }
}

fn begun_by<'a>(
    alloc: Global,
    typer: &mut Typer<'a>,
    pos: Pos,
    shape: &Shape,
    value: &'a Init,
) -> Result<Beginning, OutOfMemory>
    ensures { Yields (spec.begun_by pos shape.now value.now typer.old) result typer.new }
{
    match value {
        Init::Value(e) => {
            let operand = expr(alloc, typer, e)?;
            let form = Form::inside(shape, 0);
            begun_with(alloc, typer, pos, expr_pos(e), form, operand)
        }
        Init::Braces(_, _) => {
            let values = initial_values(alloc, typer, value, shape)?;
            Ok(beginning(Start::Items, values))
        }
    }
}

/// What a local begins with.
#[tactic(auto, unfolding(crate::specs::Declarations::begun))]
fn begun<'a>(
    alloc: Global,
    typer: &mut Typer<'a>,
    shape: &Shape,
    start: &'a LocalStart,
) -> Result<Beginning, OutOfMemory>
    ensures { Yields (spec.begun shape.now start.now typer.old) result typer.new }
{
    match start {
        LocalStart::Nothing | LocalStart::Call(_, _) => {
            Ok(beginning(Start::Any, Items::new(alloc)))
        }
        LocalStart::Init(pos, value) => begun_by(alloc, typer, *pos, shape, value),
    }
}

fn local_as<'a>(
    alloc: Global,
    typer: &mut Typer<'a>,
    ty: Ty,
    name: &'a Name,
    shape: Shape,
    beginning: Beginning,
) -> Result<Stmt, OutOfMemory>
    ensures { Yields (spec.local_as ty name.now shape beginning typer.old) result typer.new }
{
    let Beginning { start, initial } = beginning;
    let number = variable(
        alloc,
        typer,
        name,
        shape,
        Home::Local(0),
        ty.constant,
        initial,
    )?;
    Ok(Stmt::Simple(Simple::Declare(number, start)))
}

#[tactic(auto, unfolding(crate::specs::Declarations::local_of))]
fn local_of<'a>(
    alloc: Global,
    typer: &mut Typer<'a>,
    ty: Ty,
    declr: &'a LocalDeclr,
) -> Result<Stmt, OutOfMemory>
    ensures { Yields (spec.local_of ty declr.now typer.old) result typer.new }
{
    let dimensions = bounds(alloc, typer, declr.declr.bounds.as_slice())?;
    let shape = shape_of(ty.element, dimensions);
    let beginning = begun(alloc, typer, &shape, &declr.start)?;
    local_as(alloc, typer, ty, &declr.declr.name, shape, beginning)
}

fn next_local<'a>(
    alloc: Global,
    typer: &mut Typer<'a>,
    ty: Ty,
    declr: &'a LocalDeclr,
    found: &mut Items<Stmt>,
) -> Result<(), OutOfMemory>
    ensures { Yields (spec.next_local ty declr.now found.old typer.old) (given result found.new) typer.new }
{
    let stmt = local_of(alloc, typer, ty, declr)?;
    found.push(stmt)
}

#[tactic(auto, using(sa_scopes::proofs::Loops::loops))]
fn locals<'a>(
    alloc: Global,
    typer: &mut Typer<'a>,
    ty: Ty,
    all: &'a [LocalDeclr],
    found: &mut Items<Stmt>,
) -> Result<(), OutOfMemory>
    ensures { Yields (spec.locals ty all.now found.old typer.old) (given result found.new) typer.new }
{
    for one in all {
        next_local(alloc, typer, ty, one, found)?;
    }
    Ok(())
}

/// A declaration in a block: its variables, and for each a statement after those so far.
#[tactic(auto, unfolding(crate::specs::Declarations::local))]
pub fn declare_locals<'a>(
    alloc: Global,
    typer: &mut Typer<'a>,
    local: &'a Local,
    found: &mut Items<Stmt>,
) -> Result<(), OutOfMemory>
    ensures { Yields (spec.local local.now found.old typer.old) (given result found.new) typer.new }
{
    check_qualifiers(typer, false, true, local.ty.qualifiers.as_slice())?;
    let ty = object_type(alloc, typer, &local.ty)?;
    locals(alloc, typer, ty, local.declrs.as_slice(), found)
}
