//! Initial values of objects, in the order of their elements.

ghost use Rattle.std.specs.Prelude.{◌≡◌, ◌++◌, ◌∷◌, [], false, ℕ, ℤ, List, IfOk};
ghost use Rattle.sa_scopes.specs.Forms.{inside};
ghost use Rattle.sa_declarations.specs.Initialisers as spec;
ghost use Rattle.sa_declarations.specs.Initialisers.{GivesValues, Stands, zeros, trimmed};
ghost use Rattle.sa_scopes.specs.Structures.{kept};
ghost use Rattle.sa_scopes.specs.Typing.{Yields};

use sa_base::{Num, OutOfMemory, Pos};
use sa_operands::expr::expr;
use sa_operands::{Operand, no_object};
use sa_scopes::constant::needed;
use sa_scopes::first::expr_pos;
use sa_scopes::form::{Form, scalar};
use sa_scopes::structs::Slot;
use sa_scopes::typer::Typer;
use sa_syntax::Init;
use sa_typed::{Shape, is_of};
use sqlite_items::Items;
use std::alloc::Global;

/// Values, of which the zeros at the end are only counted, so that a large array costs nothing by its size. The greatest count
/// stands for all that are too large; they are written out only where another value follows.
#[derive(Drop)]
pub struct Values {
    pub written: Items<i128>,
    pub pending: u64,
}

/// Values with so many zeros after them.
fn with_zeros(values: Items<i128>, count: u64) -> Result<Items<i128>, OutOfMemory>
    ensures { IfOk result (λ v. v ≡ values ++ zeros count) }
{
    let mut written = values;
    for _i in 0..count {
        written.push(0)?;
    }
    Ok(written)
}

fn is_zero(value: i128) -> bool
    ensures { result ≡ spec.is_zero value }
{
    value == 0
}

impl Values {
    /// No values.
    fn new(alloc: Global) -> Values
        ensures { Stands result [] }
    {
        Values {
            written: Items::new(alloc),
            pending: 0,
        }
    }

    /// With so many zeros after them, given their count or the greatest one where they are more.
    fn skip(self, count: u64) -> Values
        ensures { (zs : List ℤ) (n : ℕ) → Stands self zs → count ≡ kept n → Stands result (zs ++ zeros n) }
    {
        Values {
            written: self.written,
            pending: self.pending.saturating_add(count),
        }
    }

    /// With a value that isn't 0.
    fn write(self, value: i128) -> Result<Values, OutOfMemory>
        requires { spec.is_zero value ≡ false }
        ensures { (zs : List ℤ) → Stands self zs → IfOk result (λ v. Stands v (zs ++ value ∷ [])) }
    {
        if self.pending == u64::MAX {
            return Err(OutOfMemory);
        }
        let mut written = with_zeros(self.written, self.pending)?;
        written.push(value)?;
        Ok(Values {
            written,
            pending: 0,
        })
    }

    /// With another value.
    fn push(self, value: i128) -> Result<Values, OutOfMemory>
        ensures { (zs : List ℤ) → Stands self zs → IfOk result (λ v. Stands v (zs ++ value ∷ [])) }
    {
        if is_zero(value) {
            Ok(self.skip(1))
        } else {
            self.write(value)
        }
    }
}

// ---- items

fn within(typer: &mut Typer, pos: Pos, num: Num, value: Option<i128>) -> Result<i128, OutOfMemory>
    ensures { Yields (spec.within pos num value typer.old) result typer.new }
{
    match value {
        None => Ok(0),
        Some(value) => {
            if is_of(num, value) {
                Ok(value)
            } else {
                typer.refuse(20, pos)?;
                Ok(0)
            }
        }
    }
}

/// The value of an item for an element of that type, with its first token at that place.
#[tactic(auto, unfolding(crate::specs::Initialisers::item))]
fn item(typer: &mut Typer, pos: Pos, num: Num, operand: &Operand) -> Result<i128, OutOfMemory>
    ensures { Yields (spec.item pos num operand.now typer.old) result typer.new }
{
    no_object(typer, operand)?;
    let value = needed(typer, pos, operand.known_value())?;
    within(typer, pos, num, value)
}

/// An expression for an object, after the values so far.
fn valued(
    typer: &mut Typer,
    pos: Pos,
    form: Form,
    operand: &Operand,
    found: Values,
) -> Result<Values, OutOfMemory>
    ensures { (zs : List ℤ) → Stands found zs → GivesValues (spec.valued pos form operand.now zs typer.old) result typer.new }
{
    match form {
        Form::Scalar(num) => {
            let value = item(typer, pos, num, operand)?;
            found.push(value)
        }
        Form::Struct(_) | Form::Array(_) => {
            typer.refuse(20, pos)?;
            Ok(found)
        }
    }
}

/// The values of an object's elements, after those so far. The object stands so many dimensions inside a shape.
#[cycle(initialising)]
fn init<'a>(
    alloc: Global,
    typer: &mut Typer<'a>,
    init: &'a Init,
    shape: &Shape,
    depth: usize,
    found: Values,
) -> Result<Values, OutOfMemory>
    ensures { (zs : List ℤ) → Stands found zs → GivesValues (spec.init init.now (inside depth shape.now) zs typer.old) result typer.new }
{
    match init {
        Init::Value(value) => {
            let operand = expr(alloc, typer, value)?;
            let form = Form::inside(shape, depth);
            valued(typer, expr_pos(value), form, &operand, found)
        }
        Init::Braces(pos, all) => items(alloc, typer, all.as_slice(), *pos, shape, depth, found),
    }
}

/// The items between braces, which stand at that place.
#[cycle(initialising)]
fn items<'a>(
    alloc: Global,
    typer: &mut Typer<'a>,
    all: &'a [Init],
    pos: Pos,
    shape: &Shape,
    depth: usize,
    first: Values,
) -> Result<Values, OutOfMemory>
    ensures { (zs : List ℤ) → Stands first zs → GivesValues (spec.items all.now pos (inside depth shape.now) 0 zs typer.old) result typer.new }
{
    let mut found = first;
    for (at, one) in all.iter().enumerate() {
        found = nth_item(alloc, typer, one, pos, shape, depth, at, found)?;
    }
    let missing = typer.structs.missing(shape, depth, all.len());
    Ok(found.skip(missing))
}

/// The item with that number; one too many counts as one for an int.
#[cycle(initialising)]
fn nth_item<'a>(
    alloc: Global,
    typer: &mut Typer<'a>,
    one: &'a Init,
    pos: Pos,
    shape: &Shape,
    depth: usize,
    at: usize,
    found: Values,
) -> Result<Values, OutOfMemory>
    ensures { (zs : List ℤ) → Stands found zs → GivesValues (spec.nth_item one.now pos (inside depth shape.now) at zs typer.old) result typer.new }
{
    match typer.structs.slot(alloc, shape, depth, at)? {
        Slot::Nothing => {
            typer.refuse(20, pos)?;
            init(alloc, typer, one, &scalar(alloc, Num::I32), 0, found)
        }
        Slot::Element(deeper) => init(alloc, typer, one, shape, deeper, found),
        Slot::Field(inner) => init(alloc, typer, one, &inner, 0, found),
    }
}

/// The values of an object that an initialiser gives, without the zeros at the end.
pub fn initial_values<'a>(
    alloc: Global,
    typer: &mut Typer<'a>,
    first: &'a Init,
    shape: &Shape,
) -> Result<Items<i128>, OutOfMemory>
    ensures { Yields (spec.values first.now shape.now typer.old) result typer.new }
{
    let found = init(alloc, typer, first, shape, 0, Values::new(alloc))?;
    Ok(found.written)
}
