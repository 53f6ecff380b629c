//! The structures that are defined so far.

ghost use Rattle.std.specs.Prelude.{◌≡◌, true, ◌++◌, ◌∷◌, [], IfOk, OnOk, OnErr, slice_get, List, ℕ, map, get_or, length, drop, replicate, option_map, false, ◌-◌, ◌+◌, ◌<◌};
ghost use Rattle.sa_typed.specs.declared.shape.Shape.{Shape};
ghost use Rattle.sa_scopes.specs.Forms.{inside};
ghost use Rattle.std.specs.Option.{option_copied};
ghost use Rattle.sa_scopes.specs.Structures as spec;

use crate::form::{Form, copy_shape};
use crate::scope::Scope;
use sa_base::{OutOfMemory, Text};
use sa_typed::{FieldDef, Plain, Shape, StructDef, Var};
use sqlite_items::Items;
use std::alloc::Global;
use std::marker::Model;

/// Structures in the order in which their definitions end, and for each the names of its fields, with whether they are `const`.
/// How many elements and how many cells each has is counted once.
#[derive(Drop)]
pub struct Structs<'a> {
    defs: Items<StructDef>,
    members: Items<Scope<'a, bool>>,
    sizes: Items<u64>,
    cells: Items<u64>,
}

impl<'a> Model for Structs<'a> {
    ghost use Rattle.sa_scopes.specs.Structures as spec;
    ghost use Rattle.std.specs.Coded.{codes};
    ghost use Rattle.sa_typed.specs.contracts.shape.Shape as shape;

    ghost Value = { spec.Structs };

    ghost coded = { Prim.hlevel (codes, shape.the_row.coded) };

    ghost view = { λ s. record { defs = s.defs; members = s.members } };

    ghost use Rattle.sa_scopes.specs.Structures.{AreCounted};
    ghost use Rattle.std.specs.Prelude.{true, false};

    ghost invariant = { λ s. AreCounted false s.sizes s.defs × AreCounted true s.cells s.defs };
}

/// The fields of a structure as far as they are declared, and their names, each with whether it is `const`.
#[derive(Drop)]
pub struct Fields<'a> {
    pub defs: Items<FieldDef>,
    pub names: Scope<'a, bool>,
}

/// A field: its number, its shape, and whether it is `const`.
#[derive(Drop)]
pub struct Member {
    pub number: u32,
    pub shape: Shape,
    pub constant: bool,
}

/// A count as a number of the typed program.
pub fn number(count: usize) -> Result<u32, OutOfMemory>
    ensures { IfOk result (λ n. n ≡ count) }
{
    match u32::try_from(count) {
        Ok(number) => Ok(number),
        Err(_) => Err(OutOfMemory),
    }
}

/// What an item between braces is for.
#[derive(Drop)]
pub enum Slot {
    /// There are too many items.
    Nothing,
    /// An element of the array, which stands so many dimensions inside its shape.
    Element(usize),
    /// A field with this shape.
    Field(Shape),
}

fn member_by(
    alloc: Global,
    at: usize,
    field: Option<&FieldDef>,
    constant: Option<bool>,
) -> Result<Option<Member>, OutOfMemory>
    ensures { IfOk result (λ m. m ≡ spec.member_by at (option_copied field.entry) constant) }
{
    match (field, constant) {
        (Some(field), Some(constant)) => Ok(Some(Member {
            number: number(at)?,
            shape: copy_shape(alloc, &field.shape)?,
            constant,
        })),
        _ => Ok(None),
    }
}

// ---- counts

fn times(starred: bool, count: u32) -> u64
    ensures { result ≡ spec.times starred count }
{
    if starred && count > 128 {
        1
    } else {
        u64::from(count)
    }
}

/// How many elements arrays of such dimensions have, around something that has so many.
fn extent(starred: bool, dims: &[u32], inner: u64) -> u64
    ensures { (exact : ℕ) → inner ≡ spec.kept exact → result ≡ spec.kept (spec.extent starred dims.now exact) }
{
    let mut size = inner;
    let count = dims.len();
    for taken in 0..count {
        size = times(starred, dims[count - 1 - taken]).saturating_mul(size);
    }
    size
}

#[tactic(auto, using(crate::proofs::SizeLemmas::plain_rows))]
fn plain_size(sizes: &[u64], plain: Plain) -> u64
    ensures { (exact : List ℕ) → sizes.now ≡ map spec.kept exact → result ≡ spec.kept (spec.plain_size exact plain) }
{
    match plain {
        Plain::Scalar(_) => 1,
        Plain::Struct(number) => struct_size(sizes, number as usize),
    }
}

fn struct_size(sizes: &[u64], at: usize) -> u64
    ensures { result ≡ get_or sizes.now at 0 }
{
    match sizes.get(at) {
        None => 0,
        Some(size) => *size,
    }
}

/// How many elements an object has, where the structures have so many.
fn size_by(starred: bool, sizes: &[u64], shape: &Shape) -> u64
    ensures { (exact : List ℕ) → sizes.now ≡ map spec.kept exact → result ≡ spec.kept (spec.size_by starred exact shape.now) }
{
    extent(
        starred,
        shape.dims.as_slice(),
        plain_size(sizes, shape.plain),
    )
}

/// How many elements fields have together.
#[tactic(auto, using(crate::proofs::SizeLemmas::sums))]
fn fields_size(starred: bool, sizes: &[u64], fields: &[FieldDef]) -> u64
    ensures { (exact : List ℕ) → sizes.now ≡ map spec.kept exact → result ≡ spec.kept (spec.sum_by starred exact (map spec.field_shape fields.now)) }
{
    let mut total = 0_u64;
    for field in fields {
        total = total.saturating_add(size_by(starred, sizes, &field.shape));
    }
    total
}

fn field_at(def: Option<&StructDef>, at: usize) -> Option<&FieldDef>
    ensures { option_copied result ≡ slice_get (spec.fields_in (option_copied def.entry)) at }
{
    match def {
        None => None,
        Some(def) => def.fields.get(at),
    }
}

impl<'a> Structs<'a> {
    /// No structures.
    pub fn new(alloc: Global) -> Structs<'a>
        ensures { result ≡ record { defs = []; members = [] } }
    {
        Structs {
            defs: Items::new(alloc),
            members: Items::new(alloc),
            sizes: Items::new(alloc),
            cells: Items::new(alloc),
        }
    }

    /// Defines another structure, and answers its number.
    pub fn define(&mut self, name: Text, fields: Fields<'a>) -> Result<u32, OutOfMemory>
        ensures number { IfOk result (λ n. n ≡ length self.old.defs) }
        ensures defined { OnOk result (self.new ≡ spec.with_struct self.old name fields.entry) }
    {
        let number = number(self.defs.len())?;
        let Fields { defs, names } = fields;
        let size = fields_size(false, self.sizes.as_slice(), defs.as_slice());
        let cells = fields_size(true, self.cells.as_slice(), defs.as_slice());
        self.members.push(names)?;
        self.sizes.push(size)?;
        if self.cells.push(cells).is_err() {
            self.sizes.pop();
            return Err(OutOfMemory);
        }
        if self.defs.push(StructDef { name, fields: defs }).is_err() {
            self.sizes.pop();
            self.cells.pop();
            return Err(OutOfMemory);
        }
        Ok(number)
    }

    /// What the item with that number is for, between the braces of an object that stands so many dimensions inside a shape.
    #[tactic(auto, using(crate::proofs::SlotLemmas::slot_rows))]
    pub fn slot(
        &self,
        alloc: Global,
        shape: &Shape,
        depth: usize,
        at: usize,
    ) -> Result<Slot, OutOfMemory>
        ensures { IfOk result (λ s. spec.shape_at shape.now s ≡ spec.slot self.now (inside depth shape.now) at) }
    {
        match Form::inside(shape, depth) {
            Form::Scalar(_) => Ok(Slot::Nothing),
            Form::Struct(number) => slot_of(alloc, field_at(self.defs.get(number as usize), at)),
            Form::Array(count) => element_slot(count, depth, at),
        }
    }

    /// How many elements such an object has after so many items; the greatest count stands for all that are too large.
    #[tactic(auto, using(crate::proofs::SlotLemmas::missing_rows))]
    pub fn missing(&self, shape: &Shape, depth: usize, given: usize) -> u64
        ensures { result ≡ spec.kept (spec.missing self.now (inside depth shape.now) given) }
    {
        let sizes = self.sizes.as_slice();
        match Form::inside(shape, depth) {
            Form::Scalar(_) => 1,
            Form::Struct(number) => {
                fields_size(
                    false,
                    sizes,
                    fields_from(self.defs.get(number as usize), given),
                )
            }
            Form::Array(count) => {
                left_of(count, given).saturating_mul(element_size(sizes, shape, depth))
            }
        }
    }

    /// How many cells variables have together, or the greatest count if that is too large.
    #[tactic(auto, unfolding(crate::specs::Structures::cells_in))]
    pub fn cells(&self, vars: &[Var]) -> u64
        ensures { result ≡ spec.kept (spec.cells_in self.now (map spec.var_shape vars.now)) }
    {
        vars_size(self.cells.as_slice(), vars)
    }

    /// The structures.
    pub fn into_defs(self) -> Items<StructDef>
        ensures { result ≡ self.entry.defs }
    {
        self.defs
    }

    /// The field with that name of the structure with that number.
    #[tactic(auto, unfolding(crate::specs::Structures::member_of))]
    pub fn member(
        &self,
        alloc: Global,
        number: u32,
        name: &[u8],
    ) -> Result<Option<Member>, OutOfMemory>
        ensures { IfOk result (λ m. m ≡ spec.member_of self.now number name.now) }
    {
        let at = number as usize;
        match self.members.get(at) {
            None => Ok(None),
            Some(names) => match names.index(name) {
                None => Ok(None),
                Some(index) => {
                    member_by(
                        alloc,
                        index,
                        field_at(self.defs.get(at), index),
                        names.nth(index),
                    )
                }
            },
        }
    }
}

fn slot_of(alloc: Global, field: Option<&FieldDef>) -> Result<Slot, OutOfMemory>
    ensures { (shape : Shape) → IfOk result (λ s. spec.shape_at shape s ≡ option_map spec.field_shape (option_copied field.entry)) }
{
    match field {
        None => Ok(Slot::Nothing),
        Some(field) => Ok(Slot::Field(copy_shape(alloc, &field.shape)?)),
    }
}

/// The slot of an item for an array of so many elements, which stands at that depth.
#[tactic(auto, using(crate::proofs::SlotLemmas::same_rows))]
fn element_slot(count: u32, depth: usize, at: usize) -> Result<Slot, OutOfMemory>
    ensures { (shape : Shape) → IfOk result (λ s. spec.shape_at shape s ≡ slice_get (replicate count (inside (depth + 1) shape)) at) }
{
    // No memory holds so many dimensions.
    let deeper = depth.checked_add(1).ok_or(OutOfMemory)?;
    if at < count as usize {
        Ok(Slot::Element(deeper))
    } else {
        Ok(Slot::Nothing)
    }
}

/// How many elements the elements of an array have that stands so many dimensions inside a shape.
fn element_size(sizes: &[u64], shape: &Shape, depth: usize) -> u64
    requires { depth < length shape.now.dims }
    ensures { (exact : List ℕ) → sizes.now ≡ map spec.kept exact → result ≡ spec.kept (spec.size_by false exact (inside (depth + 1) shape.now)) }
{
    let inner = plain_size(sizes, shape.plain);
    extent(false, &shape.dims.as_slice()[depth + 1..], inner)
}

fn fields_from(def: Option<&StructDef>, given: usize) -> &[FieldDef]
    ensures { result.now ≡ drop given (spec.fields_in (option_copied def.entry)) }
{
    match def {
        None => &[],
        Some(def) => {
            let fields = def.fields.as_slice();
            if given <= fields.len() {
                &fields[given..]
            } else {
                &[]
            }
        }
    }
}

fn left_of(count: u32, given: usize) -> u64
    ensures { result ≡ count - given }
{
    u64::from(count).saturating_sub(given as u64)
}

/// How many cells variables have together.
#[tactic(auto, using(crate::proofs::SizeLemmas::sums))]
fn vars_size(sizes: &[u64], vars: &[Var]) -> u64
    ensures { (exact : List ℕ) → sizes.now ≡ map spec.kept exact → result ≡ spec.kept (spec.sum_by true exact (map spec.var_shape vars.now)) }
{
    let mut total = 0_u64;
    for var in vars {
        total = total.saturating_add(size_by(true, sizes, &var.shape));
    }
    total
}
