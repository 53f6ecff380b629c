//! Places: a variable, and the steps into it.

ghost use Rattle.std.specs.Prelude.{◌≡◌, IfOk};
ghost use Rattle.std.specs.Option.{option_copied};
ghost use Rattle.sa_operands.specs.Places as spec;
ghost use Rattle.sa_scopes.specs.Typing.{Yields};

use crate::operand::{Operand, Root, Spot};
use sa_base::{Num, OutOfMemory, Pos};
use sa_scopes::constant::Value;
use sa_scopes::form::{Form, copy_shape, scalar};
use sa_scopes::structs::Member;
use sa_scopes::typer::Typer;
use sa_scopes::types::Named;
use sa_syntax::{Name, PlaceBase};
use sa_typed::{Access, Expr, Shape, Step, Var};
use sqlite_items::{Boxed, Items};
use std::alloc::Global;

// ---- where a place begins

fn root_by(typer: &mut Typer, pos: Pos, named: Option<Named>) -> Result<Root, OutOfMemory>
    ensures { Yields (spec.root_by pos named typer.old) result typer.new }
{
    match named {
        None => {
            typer.refuse(1, pos)?;
            Ok(Root::Nothing)
        }
        Some(Named::Variable(number)) => Ok(Root::Variable(number)),
        Some(Named::Input(number, num)) => Ok(Root::Input(number, num)),
        Some(Named::Alias(_) | Named::Function) => {
            typer.refuse(5, pos)?;
            Ok(Root::Nothing)
        }
    }
}

fn root_of(typer: &mut Typer, name: &Name) -> Result<Root, OutOfMemory>
    ensures { Yields (spec.root_of name.now typer.old) result typer.new }
{
    let named = typer.names.meaning(name.text.bytes());
    root_by(typer, name.pos, named)
}

fn pointed_by(
    typer: &mut Typer,
    star: Pos,
    pos: Pos,
    named: Option<Named>,
) -> Result<Root, OutOfMemory>
    ensures { Yields (spec.pointed_by star pos named typer.old) result typer.new }
{
    match named {
        None => {
            typer.refuse(1, pos)?;
            Ok(Root::Nothing)
        }
        Some(_) => {
            typer.refuse(5, star)?;
            Ok(Root::Nothing)
        }
    }
}

/// No name is that of a reference.
fn pointed(typer: &mut Typer, star: Pos, name: &Name) -> Result<Root, OutOfMemory>
    ensures { Yields (spec.pointed star name.now typer.old) result typer.new }
{
    let named = typer.names.meaning(name.text.bytes());
    pointed_by(typer, star, name.pos, named)
}

fn spot_at(alloc: Global, name: Pos, root: Root, shape: Option<Shape>, locked: bool) -> Spot
    ensures { result ≡ spec.spot_at name root shape locked }
{
    Spot {
        root,
        name,
        shape,
        depth: 0,
        locked,
        steps: Items::new(alloc),
        fixed: true,
    }
}

fn variable_at(alloc: Global, pos: Pos, number: u32, var: Option<&Var>) -> Result<Spot, OutOfMemory>
    ensures { IfOk result (λ l. l ≡ spec.variable_at pos number (option_copied var.entry)) }
{
    let root = Root::Variable(number);
    match var {
        None => Ok(spot_at(alloc, pos, root, None, false)),
        Some(var) => {
            let shape = copy_shape(alloc, &var.shape)?;
            Ok(spot_at(alloc, pos, root, Some(shape), var.constant))
        }
    }
}

#[tactic(auto, unfolding(crate::specs::Places::spot_of))]
fn spot_of(alloc: Global, typer: &Typer, pos: Pos, root: Root) -> Result<Spot, OutOfMemory>
    ensures { IfOk result (λ l. l ≡ spec.spot_of typer.now pos root) }
{
    match root {
        Root::Variable(number) => variable_at(alloc, pos, number, typer.vars.get(number as usize)),
        Root::Input(_, num) => {
            let shape = Some(scalar(alloc, num));
            Ok(spot_at(alloc, pos, root, shape, true))
        }
        Root::Nothing => Ok(spot_at(alloc, pos, root, None, false)),
    }
}

/// Where a place begins.
#[tactic(auto, unfolding(crate::specs::Places::begins))]
pub fn begins(alloc: Global, typer: &mut Typer, base: &PlaceBase) -> Result<Spot, OutOfMemory>
    ensures { Yields (spec.begins base.now typer.old) result typer.new }
{
    match base {
        PlaceBase::Name(name) => {
            let root = root_of(typer, name)?;
            spot_of(alloc, typer, name.pos, root)
        }
        PlaceBase::Through(_, star, name) | PlaceBase::Star(star, name) => {
            let root = pointed(typer, *star, name)?;
            spot_of(alloc, typer, name.pos, root)
        }
    }
}

// ---- steps

impl Spot {
    /// What stands there at the outside, where that is known.
    pub fn form(&self) -> Option<Form>
        ensures { result ≡ spec.form_at self.now }
    {
        match &self.shape {
            None => None,
            Some(shape) => Some(Form::inside(shape, self.depth)),
        }
    }

    /// A step to what isn't known.
    fn lost(mut self, step: Step) -> Result<Spot, OutOfMemory>
        ensures { IfOk result (λ l. l ≡ spec.lost step self) }
    {
        self.steps.push(step)?;
        self.shape = None;
        Ok(self)
    }

    /// A step to an element.
    fn deeper(mut self, step: Step) -> Result<Spot, OutOfMemory>
        ensures { IfOk result (λ l. l ≡ spec.deeper step self) }
    {
        // No memory holds so many dimensions.
        let depth = self.depth.checked_add(1).ok_or(OutOfMemory)?;
        self.steps.push(step)?;
        self.depth = depth;
        Ok(self)
    }

    /// A step to a field.
    fn stepped(mut self, step: Step, shape: Shape, locked: bool) -> Result<Spot, OutOfMemory>
        ensures { IfOk result (λ l. l ≡ spec.stepped step shape locked self) }
    {
        self.steps.push(step)?;
        self.shape = Some(shape);
        self.depth = 0;
        self.locked = locked;
        Ok(self)
    }
}

fn element_of(
    alloc: Global,
    typer: &mut Typer,
    pos: Pos,
    index: Expr,
    form: Option<Form>,
    spot: Spot,
) -> Result<Spot, OutOfMemory>
    ensures { Yields (spec.element_of pos index form spot typer.old) result typer.new }
{
    match form {
        None => spot.lost(Step::At(pos, 1, Boxed::new(alloc, index)?)),
        Some(Form::Array(count)) => spot.deeper(Step::At(pos, count, Boxed::new(alloc, index)?)),
        Some(Form::Scalar(_) | Form::Struct(_)) => {
            typer.refuse(5, pos)?;
            spot.lost(Step::At(pos, 1, Boxed::new(alloc, index)?))
        }
    }
}

/// `[i]`
#[tactic(auto, unfolding(crate::specs::Places::index))]
pub fn index(
    alloc: Global,
    typer: &mut Typer,
    pos: Pos,
    operand: Operand,
    mut spot: Spot,
) -> Result<Spot, OutOfMemory>
    ensures { Yields (spec.index pos operand spot typer.old) result typer.new }
{
    typer.refuse_if(operand.sort().is_object(), 5, pos)?;
    spot.fixed = spot.fixed && operand.known_value().is_constant();
    let form = spot.form();
    element_of(alloc, typer, pos, operand.into_expr(), form, spot)
}

fn to_member(
    typer: &mut Typer,
    pos: Pos,
    member: Option<Member>,
    spot: Spot,
) -> Result<Spot, OutOfMemory>
    ensures { Yields (spec.to_member pos member spot typer.old) result typer.new }
{
    match member {
        None => {
            typer.refuse(4, pos)?;
            spot.lost(Step::Field(0))
        }
        Some(member) => {
            let locked = spot.locked || member.constant;
            spot.stepped(Step::Field(member.number), member.shape, locked)
        }
    }
}

fn field_of(
    alloc: Global,
    typer: &mut Typer,
    pos: Pos,
    name: &Name,
    form: Option<Form>,
    spot: Spot,
) -> Result<Spot, OutOfMemory>
    ensures { Yields (spec.field_of pos name.now form spot typer.old) result typer.new }
{
    match form {
        None => spot.lost(Step::Field(0)),
        Some(Form::Struct(number)) => {
            let member = typer.structs.member(alloc, number, name.text.bytes())?;
            to_member(typer, name.pos, member, spot)
        }
        Some(Form::Scalar(_) | Form::Array(_)) => {
            typer.refuse(5, pos)?;
            spot.lost(Step::Field(0))
        }
    }
}

/// `.x`
#[tactic(auto, unfolding(crate::specs::Places::field))]
pub fn field(
    alloc: Global,
    typer: &mut Typer,
    pos: Pos,
    name: &Name,
    spot: Spot,
) -> Result<Spot, OutOfMemory>
    ensures { Yields (spec.field pos name.now spot typer.old) result typer.new }
{
    let form = spot.form();
    field_of(alloc, typer, pos, name, form, spot)
}

fn is_known(shape: &Option<Shape>) -> bool
    ensures { result ≡ spec.is_known shape.now }
{
    shape.is_some()
}

/// `->x`, of what is no reference.
#[tactic(auto, unfolding(crate::specs::Places::arrow))]
pub fn arrow(typer: &mut Typer, pos: Pos, spot: Spot) -> Result<Spot, OutOfMemory>
    ensures { Yields (spec.arrow pos spot typer.old) result typer.new }
{
    typer.refuse_if(is_known(&spot.shape), 5, pos)?;
    spot.lost(Step::Field(0))
}

// ---- the whole place

fn var_of(root: Root) -> u32
    ensures { result ≡ spec.var_of root }
{
    match root {
        Root::Variable(number) => number,
        _ => 0,
    }
}

/// The access that a root and steps make.
pub fn access_of(root: Root, steps: Items<Step>) -> Access
    ensures { result ≡ spec.access_of root steps }
{
    Access {
        var: var_of(root),
        steps,
    }
}

fn reading(root: Root, steps: Items<Step>, num: Num) -> Expr
    ensures { result ≡ spec.reading root steps num }
{
    match root {
        Root::Input(number, _) => Expr::Input(number, num),
        _ => Expr::Read(access_of(root, steps), num),
    }
}

/// What stands at a place.
#[tactic(auto, unfolding(crate::specs::Places::operand))]
pub fn operand(spot: Spot) -> Operand
    ensures { result ≡ spec.operand spot }
{
    match spot.form() {
        None => Operand::Unknown,
        Some(Form::Scalar(num)) => {
            Operand::Number(reading(spot.root, spot.steps, num), num, Value::Varies)
        }
        Some(Form::Struct(number)) => Operand::Struct(
            access_of(spot.root, spot.steps),
            number,
            spot.fixed,
            spot.name,
        ),
        Some(Form::Array(_)) => Operand::Array(spot.name),
    }
}
