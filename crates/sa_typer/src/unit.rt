//! Whole sources.

ghost use Rattle.std.specs.Prelude.{◌≡◌, ◌≤◌, None, IfOk, IfErr, length, nat_le};
ghost use Rattle.sa_base.specs.Numbers.{limit_number};
ghost use Rattle.sa_base.specs.declared.limit.Limit.TheVariants.{Cells};
ghost use Rattle.sa_typed.specs.Cells.{cells};
ghost use Rattle.sa_typed.specs.TypedPrograms.{IsTypedProgram};
ghost use Rattle.sa_typed.specs.WellTyped.{IsTyped};
ghost use Rattle.sa_typer.specs.Units as spec;
ghost use Rattle.sa_typer.specs.Units.{Accepts, Tells};
ghost use Rattle.sa_typer.specs.Answers.{IsFault};
ghost use Rattle.sa_scopes.specs.Refusals.{least_of as least};
ghost use Rattle.sa_scopes.specs.Typing.{Yields};
ghost use Rattle.sa_unbuilt.specs.Unbuilt.{IsBuilt};

use crate::bodies::{Body, Entry};
use crate::body::main_block;
use crate::fault::TypeFault;
use sa_base::{Code, Limit, Num, OutOfMemory, Pos, Refusal, Text};
use sa_declarations::{declare, declare_globals, is_struct};
use sa_operands::expr::{structure, type_of};
use sa_scopes::scope::Scope;
use sa_scopes::structs::Structs;
use sa_scopes::typer::{Fault, Typer, least_of, lesser};
use sa_scopes::types::{Element, Named, Ty, check_qualifiers};
use sa_syntax::{Block, Item, Name, Specifiers, Unit, is_main};
use sa_typed::{Func, Program};
use sqlite_items::Items;
use std::alloc::Global;

// ---- items

/// A type before a name at file scope, where `volatile` is out of place.
fn plain_type<'a>(
    alloc: Global,
    typer: &mut Typer<'a>,
    ty: &'a Specifiers,
) -> Result<Ty, OutOfMemory>
    ensures { Yields (spec.plain_type ty.now typer.old) result typer.new }
{
    check_qualifiers(typer, false, true, ty.qualifiers.as_slice())?;
    type_of(alloc, typer, ty)
}

#[tactic(auto, unfolding(crate::specs::Units::type_name))]
fn type_name<'a>(
    alloc: Global,
    typer: &mut Typer<'a>,
    ty: &'a Specifiers,
    name: &'a Name,
) -> Result<(), OutOfMemory>
    ensures { Yields (spec.type_name ty.now name.now typer.old) result typer.new }
{
    let ty = plain_type(alloc, typer, ty)?;
    declare(typer, name, Named::Alias(ty))
}

fn entry(alloc: Global, name: &Name, ty: Ty, body: Body) -> Result<Entry, OutOfMemory>
    ensures { IfOk result (λ e. e ≡ spec.entry name.now ty body) }
{
    Ok(Entry {
        name: Text::of_bytes(alloc, name.text.bytes())?,
        result: ty.element,
        body,
    })
}

/// `main`, whose name wasn't visible.
fn first_main<'a>(
    alloc: Global,
    typer: &mut Typer<'a>,
    name: &'a Name,
    ty: Ty,
    block: &'a Block,
) -> Result<Option<Entry>, OutOfMemory>
    ensures { Yields (spec.first_main name.now ty block.now typer.old) result typer.new }
{
    declare(typer, name, Named::Function)?;
    typer.refuse_if(is_struct(ty.element), 5, name.pos)?;
    let body = main_block(alloc, typer, block.items.as_slice())?;
    Ok(Some(entry(alloc, name, ty, body)?))
}

/// `main`, after what was `main` before it.
#[tactic(auto, unfolding(crate::specs::Units::main))]
fn main<'a>(
    alloc: Global,
    typer: &mut Typer<'a>,
    ty: &'a Specifiers,
    name: &'a Name,
    block: &'a Block,
    found: Option<Entry>,
) -> Result<Option<Entry>, OutOfMemory>
    ensures { Yields (spec.main ty.now name.now block.now found typer.old) result typer.new }
{
    let ty = plain_type(alloc, typer, ty)?;
    if typer.names.contains(name.text.bytes()) {
        typer.refuse(2, name.pos)?;
        return Ok(found);
    }
    first_main(alloc, typer, name, ty, block)
}

/// An item, after what was `main` before it.
#[tactic(auto, unfolding(crate::specs::Units::item))]
fn item<'a>(
    alloc: Global,
    typer: &mut Typer<'a>,
    item: &'a Item,
    found: Option<Entry>,
) -> Result<Option<Entry>, OutOfMemory>
    ensures { Yields (spec.item item.now found typer.old) result typer.new }
{
    match item {
        Item::Typedef(_, ty, name) => {
            type_name(alloc, typer, ty, name)?;
            Ok(found)
        }
        Item::Struct(_, body) => {
            structure(alloc, typer, body)?;
            Ok(found)
        }
        Item::Global(ty, declrs) => {
            declare_globals(alloc, typer, ty, declrs.as_slice())?;
            Ok(found)
        }
        Item::Proto(_, _, _) => Ok(found),
        Item::Func(ty, name, _, block) => {
            if is_main(name) {
                main(alloc, typer, ty, name, block, found)
            } else {
                Ok(found)
            }
        }
    }
}

#[tactic(auto, using(sa_scopes::proofs::Loops::loops))]
fn items<'a>(
    alloc: Global,
    typer: &mut Typer<'a>,
    all: &'a [Item],
) -> Result<Option<Entry>, OutOfMemory>
    ensures { Yields (spec.items all.now None typer.old) result typer.new }
{
    let mut found = None;
    for one in all {
        found = item(alloc, typer, one, found)?;
    }
    Ok(found)
}

// ---- the whole

fn blank<'a>(alloc: Global) -> Typer<'a>
    ensures { result ≡ spec.blank }
{
    Typer {
        names: Scope::new(alloc),
        tags: Scope::new(alloc),
        structs: Structs::new(alloc),
        vars: Items::new(alloc),
        inputs: Items::new(alloc),
        thresholds: Items::new(alloc),
        faults: Items::new(alloc),
    }
}

fn refusal(fault: Fault) -> Refusal
    ensures { result ≡ spec.refusal fault }
{
    Refusal {
        code: Code::Typing(fault.rule),
        pos: fault.pos,
    }
}

fn is_result(num: Num) -> bool
    ensures { result ≡ spec.is_result num }
{
    matches!(num, Num::I32)
}

fn is_entry_type(element: Element) -> bool
    ensures { result ≡ spec.is_entry_type element }
{
    match element {
        Element::Scalar(num) => is_result(num),
        _ => true,
    }
}

fn is_entry(entry: &Entry) -> bool
    ensures { result ≡ spec.is_entry entry.now }
{
    entry.body.clock && is_entry_type(entry.result)
}

fn result_of(element: Element) -> Option<Num>
    ensures { result ≡ spec.result_of element }
{
    match element {
        Element::Scalar(num) => Some(num),
        _ => None,
    }
}

fn result_cells(num: Option<Num>) -> u64
    ensures { result ≡ spec.result_cells num }
{
    match num {
        None => 0,
        Some(_) => 1,
    }
}

fn function(alloc: Global, entry: Entry) -> Func
    ensures { result ≡ spec.function entry }
{
    Func {
        name: entry.name,
        params: Items::new(alloc),
        result: result_of(entry.result),
        body: entry.body.stmts,
    }
}

fn program(alloc: Global, typer: Typer, entry: Entry) -> Result<Program, OutOfMemory>
    ensures { IfOk result (λ p. p ≡ spec.program typer.entry entry) }
{
    let mut funcs = Items::new(alloc);
    funcs.push(function(alloc, entry))?;
    Ok(Program {
        structs: typer.structs.into_defs(),
        vars: typer.vars,
        inputs: typer.inputs,
        funcs,
        entry: 0,
        thresholds: typer.thresholds,
    })
}

/// Whether there are no more cells than may be.
#[tactic(auto, unfolding(crate::specs::Units::cells), using(crate::proofs::UnitLemmas::fits))]
fn fits(typer: &Typer, entry: &Entry) -> bool
    ensures { result ≡ nat_le (spec.cells typer.now entry.now) (limit_number Cells) }
{
    let cells = typer.structs.cells(typer.vars.as_slice());
    cells.saturating_add(result_cells(result_of(entry.result))) <= Limit::Cells.number()
}

fn accept(alloc: Global, typer: Typer, entry: Option<Entry>) -> Result<Program, TypeFault>
    ensures { Tells (spec.accepted_by entry typer.entry) result }
{
    match entry {
        None => Err(TypeFault::TooMany(Limit::Cells)),
        Some(entry) => {
            if fits(&typer, &entry) {
                Ok(program(alloc, typer, entry)?)
            } else {
                Err(TypeFault::TooMany(Limit::Cells))
            }
        }
    }
}

fn has_entry(entry: &Option<Entry>) -> bool
    ensures { result ≡ spec.has_entry entry.now }
{
    match entry {
        None => false,
        Some(entry) => is_entry(entry),
    }
}

/// The least refusal of a text that ends there.
#[tactic(auto, using(crate::proofs::RefusalLaws::one_more))]
fn least_refusal(typer: &Typer, entry: &Option<Entry>, end: Pos) -> Option<Fault>
    ensures { result ≡ least (spec.refusals_by end entry.now typer.now) }
{
    let found = least_of(typer.faults.as_slice());
    if has_entry(entry) {
        found
    } else {
        Some(lesser(found, Fault { pos: end, rule: 22 }))
    }
}

/// The answer at the end of the text.
fn finish(alloc: Global, typer: Typer, entry: Option<Entry>, end: Pos) -> Result<Program, TypeFault>
    ensures { Tells (spec.unless_refused (least (spec.refusals_by end entry typer.entry)) (spec.accepted_by entry typer.entry)) result }
{
    match least_refusal(&typer, &entry, end) {
        Some(fault) => Err(TypeFault::Refused(refusal(fault))),
        None => accept(alloc, typer, entry),
    }
}

#[tactic(auto, unfolding(crate::specs::Units::answer, crate::specs::Units::refusals))]
fn answer(alloc: Global, unit: &Unit, end: Pos) -> Result<Program, TypeFault>
    ensures { Tells (spec.answer unit.now end) result }
{
    let mut typer = blank(alloc);
    let entry = items(alloc, &mut typer, unit.items.as_slice())?;
    finish(alloc, typer, entry, end)
}

/// The typed program of a tree whose text ends there. It is refused by the least refusal of the text: the one with the least
/// place, and of those the one with the least rule; where nothing is refused, by the limit of cells. `specs/` has the rules
/// with their sources in ISO C. Where every form in the tree is one that is analysed, as `first_unbuilt` of `sa_unbuilt` tells,
/// the program has no others (`straight`).
#[tactic(auto, using(crate::proofs::AnswerLemmas::told_accepted, crate::proofs::AnswerLemmas::told_typed, crate::proofs::AnswerLemmas::told_program, crate::proofs::AnswerLemmas::told_small, crate::proofs::AnswerLemmas::told_refused))]
pub fn type_unit(alloc: Global, unit: &Unit, end: Pos) -> Result<Program, TypeFault>
    ensures accepted { IfOk result (λ p. spec.answer unit.now end ≡ Accepts p) }
    ensures typed { IfOk result IsTypedProgram }
    ensures straight { IsBuilt unit.now → IfOk result IsTyped }
    ensures small { IfOk result (λ p. length (cells p) ≤ 65536) }
    ensures refused { IfErr result (IsFault unit.now end) }
{
    answer(alloc, unit, end)
}
