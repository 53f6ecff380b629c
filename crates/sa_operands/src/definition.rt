//! Definitions of structures, and dimensions.

ghost use Rattle.std.specs.Prelude.{◌≡◌, false, IfOk, OnOk};
ghost use Rattle.sa_scopes.specs.Scopes.{is_visible};
ghost use Rattle.sa_operands.specs.Definitions as spec;
ghost use Rattle.sa_scopes.specs.Typing.{Yields, given};

use crate::operand::{Operand, no_object};
use sa_base::{OutOfMemory, Pos, Text};
use sa_scopes::constant::needed;
use sa_scopes::scope::Scope;
use sa_scopes::structs::Fields;
use sa_scopes::typer::Typer;
use sa_scopes::types::{Element, Named, Tagged, Ty, plain, shape_of};
use sa_syntax::Name;
use sa_typed::{FieldDef, Shape};
use sqlite_items::Items;
use std::alloc::Global;

// ---- dimensions

fn is_dimension(value: i128) -> bool
    ensures { result ≡ spec.is_dimension value }
{
    1 <= value && value <= 16_777_216
}

fn dimension_by(typer: &mut Typer, pos: Pos, value: Option<i128>) -> Result<u32, OutOfMemory>
    ensures { Yields (spec.dimension_by pos value typer.old) result typer.new }
{
    match value {
        None => Ok(1),
        Some(value) => {
            if is_dimension(value) {
                Ok(value as u32)
            } else {
                typer.refuse(19, pos)?;
                Ok(1)
            }
        }
    }
}

/// A dimension that is such an operand, with its first token at that place.
#[tactic(auto, unfolding(crate::specs::Definitions::dimension))]
pub fn dimension(typer: &mut Typer, pos: Pos, operand: &Operand) -> Result<u32, OutOfMemory>
    ensures { Yields (spec.dimension pos operand.now typer.old) result typer.new }
{
    no_object(typer, operand)?;
    let value = needed(typer, pos, operand.known_value())?;
    dimension_by(typer, pos, value)
}

// ---- fields

pub fn no_fields<'a>(alloc: Global) -> Fields<'a>
    ensures { result ≡ spec.no_fields }
{
    Fields {
        defs: Items::new(alloc),
        names: Scope::new(alloc),
    }
}

fn is_alias(named: Option<Named>) -> bool
    ensures { result ≡ spec.is_alias named }
{
    matches!(named, Some(Named::Alias(_)))
}

fn is_taken(typer: &Typer, fields: &Fields, name: &[u8]) -> bool
    ensures { result ≡ spec.is_taken typer.now fields.now name.now }
{
    fields.names.contains(name) || is_alias(typer.names.meaning(name))
}

/// Declares a field whose name isn't visible.
fn declare<'a>(
    alloc: Global,
    fields: &mut Fields<'a>,
    name: &'a [u8],
    shape: Shape,
    constant: bool,
) -> Result<(), OutOfMemory>
    requires { is_visible fields.old.names name.now ≡ false }
    ensures { OnOk result (fields.new ≡ spec.with_field fields.old name.now shape constant) }
{
    fields.defs.push(FieldDef {
        name: Text::of_bytes(alloc, name)?,
        shape,
    })?;
    fields.names.declare(name, constant)
}

/// Another field.
#[tactic(auto, unfolding(crate::specs::Definitions::field))]
pub fn field<'a>(
    alloc: Global,
    typer: &mut Typer<'a>,
    name: &'a Name,
    ty: Ty,
    dimensions: Items<u32>,
    fields: &mut Fields<'a>,
) -> Result<(), OutOfMemory>
    ensures { Yields (spec.field name.now ty dimensions fields.old typer.old) (given result fields.new) typer.new }
{
    if is_taken(typer, fields, name.text.bytes()) {
        return typer.refuse(2, name.pos);
    }
    let shape = shape_of(ty.element, dimensions);
    declare(alloc, fields, name.text.bytes(), shape, ty.constant)
}

// ---- tags

/// Declares a tag, and answers its number; none where it was declared before.
#[tactic(auto, unfolding(crate::specs::Definitions::opened))]
pub fn open_tag<'a>(
    typer: &mut Typer<'a>,
    tag: &'a Option<Name>,
) -> Result<Option<usize>, OutOfMemory>
    ensures { Yields (spec.opened tag.now typer.old) result typer.new }
{
    match tag {
        None => Ok(None),
        Some(tag) => {
            if typer.tags.contains(tag.text.bytes()) {
                typer.refuse(2, tag.pos)?;
                return Ok(None);
            }
            let at = typer.tags.count();
            typer.tags.declare(tag.text.bytes(), Tagged::Open)?;
            Ok(Some(at))
        }
    }
}

fn name_or_empty(alloc: Global, tag: &Option<Name>) -> Result<Text, OutOfMemory>
    ensures { IfOk result (λ t. t ≡ spec.name_or_empty tag.now) }
{
    match tag {
        None => Text::of(alloc, ""),
        Some(tag) => Text::of_bytes(alloc, tag.text.bytes()),
    }
}

fn set_tag(tags: &mut Scope<Tagged>, at: Option<usize>, number: u32)
    ensures { tags.new ≡ spec.with_tag tags.old at number }
{
    if let Some(at) = at {
        tags.set(at, Tagged::Struct(number));
    }
}

/// The structure, which is defined from here on.
#[tactic(auto, unfolding(crate::specs::Definitions::closed))]
pub fn close<'a>(
    alloc: Global,
    typer: &mut Typer<'a>,
    tag: &Option<Name>,
    at: Option<usize>,
    fields: Fields<'a>,
) -> Result<Ty, OutOfMemory>
    ensures { Yields (spec.closed tag.now at fields.entry typer.old) result typer.new }
{
    let name = name_or_empty(alloc, tag)?;
    let number = typer.structs.define(name, fields)?;
    set_tag(&mut typer.tags, at, number);
    Ok(plain(Element::Struct(number)))
}
