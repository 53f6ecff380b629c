//! The cells of a variable, in their order: their types, and what they begin with.

ghost use Rattle.std.specs.Prelude.{ℕ, List, ◌≡◌, ◌+◌, ◌*◌, ◌≤◌, ◌<◌, ℤ, pos, Some, None, [], ◌∷◌, ◌++◌, length, map, get_or, option_map, nat_lt, if◌then◌else◌, IfOk, OnOk, MatchOption, slice_get};
ghost use Rattle.std.specs.List.{flat_map, list_all, list_any};
ghost use Rattle.sa_ir.specs.Initial.{single, join_some};
ghost use Rattle.sa_typed.specs.Layouts.{Layout, nums, shape_layout};
ghost use Rattle.sa_typed.specs.Layouts as layouts;
ghost use Rattle.sa_ir.specs.declared.slots.Core.{Core};
ghost use Rattle.sa_typed.specs.declared.shape.Plain.TheVariants.{Struct};
ghost use Rattle.sa_typed.specs.declared.shape.StructDef.{StructDef};
ghost use Rattle.sa_ir.specs.Sizes.{among, no_array, capped, made_of, Covers};
ghost use Rattle.sa_ir.specs.Slots.{values_of, or_zero, slot, slots_in, kept, any_past, moved_on, run, stops, any_stops, together, apart};
ghost use Rattle.sa_ir.specs.Spots.{all_slots, base_layout, IsKnown, AreKnown, spot_slots, left, work, weight, wound, HasWidths, AreArrays, StandFor, AreCores, IsCore, IsBase, IsSpotOf, IsNothing, is_single, ends_span, first_element};

use crate::OutOfMemory;
use crate::ir::Ends;
use crate::sizes::{Extent, plain_extent};
use sa_base::Num;
use sa_typed::{FieldDef, Plain, Program, Shape};
use sqlite_items::Items;
use std::alloc::Global;

/// A cell: the type of its numbers, whether it stands for several elements, and the least and the greatest initial value of
/// these.
#[derive(Clone, Copy, Debug, PartialEq, Eq)]
pub struct Slot {
    pub num: Num,
    pub starred: bool,
    pub lo: i128,
    pub hi: i128,
}

/// Elements that something stands at: whether they are several by a large array, the numbers of those that have initial
/// values, and whether there are others.
#[derive(Debug, Drop)]
struct Elements {
    starred: bool,
    at: Items<usize>,
    more: bool,
}

/// An object that is no array and stands at some elements, which is still to be read for its cells.
#[derive(Debug, Drop)]
struct Spot {
    base: Plain,
    elements: Elements,
}

/// A type that is no array and stands for another, whose cells it has: starred if this says so.
#[derive(Clone, Copy, Debug)]
pub struct Core {
    plain: Plain,
    starred: bool,
}

/// An array: how many there are, and how many elements each of them has.
#[derive(Clone, Copy, Debug)]
struct Row {
    n: u32,
    width: usize,
}

/// Those of some elements, moved on, that are below the length.
fn kept(alloc: Global, at: &[usize], by: usize, len: usize) -> Result<Items<usize>, OutOfMemory>
    ensures { IfOk result (λ r. r ≡ kept len by at.now) }
{
    let next = at.iter().map(|o| o.saturating_add(by));
    Ok(Items::from_vec(next.filter(|o| *o < len).collect(alloc)?))
}

/// Whether one of some elements, moved on, isn't below the length.
fn any_past(at: &[usize], by: usize, len: usize) -> bool
    ensures { result ≡ any_past len by at.now }
{
    for o in at {
        if o.saturating_add(by) >= len {
            return true;
        }
    }
    false
}

/// The elements so many further on.
fn moved_on(
    alloc: Global,
    elements: &Elements,
    by: usize,
    len: usize,
) -> Result<Elements, OutOfMemory>
    ensures { IfOk result (λ r. r ≡ moved_on len by elements.now) }
{
    let past = any_past(elements.at.as_slice(), by, len);
    Ok(Elements {
        starred: elements.starred,
        at: kept(alloc, elements.at.as_slice(), by, len)?,
        more: elements.more | past,
    })
}

/// Adds the elements of an array from one on, as far as they begin below the length. Whether there are others.
fn push_run(
    all: &mut Vec<usize>,
    from: usize,
    n: u32,
    width: usize,
    len: usize,
) -> Result<bool, OutOfMemory>
    ensures stops { IfOk result (λ r. r ≡ stops len width n from) }
    ensures run { OnOk result (all.new.items ≡ all.old.items ++ run len width n from) }
{
    let mut at = from;
    for _ in 0..n {
        if at >= len {
            return Ok(true);
        }
        all.push(at)?;
        at = at.saturating_add(width);
    }
    Ok(false)
}

/// All elements of the arrays that stand at some elements.
fn together(
    alloc: Global,
    elements: &Elements,
    row: Row,
    len: usize,
) -> Result<Elements, OutOfMemory>
    ensures { IfOk result (λ r. r ≡ together len row.width row.n elements.now) }
{
    let mut at = Vec::new(alloc);
    let mut more = elements.more;
    for o in elements.at.as_slice() {
        more |= push_run(&mut at, *o, row.n, row.width, len)?;
    }
    Ok(Elements {
        starred: true,
        at: Items::from_vec(at),
        more,
    })
}

/// Adds each element of the arrays that stand at some elements.
fn push_apart(
    alloc: Global,
    all: &mut Vec<Elements>,
    elements: &Elements,
    row: Row,
    len: usize,
) -> Result<(), OutOfMemory>
    ensures { OnOk result (all.new.items ≡ all.old.items ++ apart len row.width row.n 0 elements.now) }
{
    for k in 0..row.n {
        let by = row.width.saturating_mul(k as usize);
        all.push(moved_on(alloc, elements, by, len)?)?;
    }
    Ok(())
}

/// Each element of each of these arrays.
fn each_apart(
    alloc: Global,
    arrays: &[Elements],
    row: Row,
    len: usize,
) -> Result<Vec<Elements>, OutOfMemory>
    ensures { IfOk result (λ r. r.items ≡ flat_map (λ e. apart len row.width row.n 0 e) arrays.now) }
{
    let mut all = Vec::new(alloc);
    for elements in arrays {
        push_apart(alloc, &mut all, elements, row, len)?;
    }
    Ok(all)
}

/// Of each of these arrays its elements together.
fn each_together(
    alloc: Global,
    arrays: &[Elements],
    row: Row,
    len: usize,
) -> Result<Vec<Elements>, OutOfMemory>
    ensures { IfOk result (λ r. r.items ≡ map (λ e. together len row.width row.n e) arrays.now) }
{
    let mut all = Vec::new(alloc);
    for elements in arrays {
        all.push(together(alloc, elements, row, len)?)?;
    }
    Ok(all)
}

/// Each object within arrays that stand at some elements.
fn within(
    alloc: Global,
    arrays: Vec<Elements>,
    row: Row,
    len: usize,
) -> Result<Vec<Elements>, OutOfMemory>
    ensures slots { (zs : List ℤ) → (l : Layout) → length zs ≡ len → row.width ≡ capped (length (nums l)) → IfOk result (λ r. flat_map (slots_in zs l) r.items ≡ flat_map (slots_in zs (layouts.row row.n l)) arrays.items) }
    ensures work { (l : Layout) → IfOk result (λ r. length r.items * work l ≡ length arrays.items * work (layouts.row row.n l)) }
{
    if row.n == 1 {
        Ok(arrays)
    } else if row.n <= 128 {
        each_apart(alloc, &arrays, row, len)
    } else {
        each_together(alloc, &arrays, row, len)
    }
}

/// The arrays around something, the innermost first, and how many elements there are in all.
#[derive(Drop)]
struct Arrays {
    rows: Vec<Row>,
    elements: usize,
}

/// The arrays of a shape, which may hold the first `structs` structures.
fn around(
    alloc: Global,
    program: &Program,
    table: &[Items<Extent>],
    structs: usize,
    shape: &Shape,
) -> Result<Arrays, OutOfMemory>
    requires { Covers program.now.structs structs table.now }
    ensures { IfOk result (AreArrays program.now.structs structs shape.now) }
{
    let dims = shape.dims.as_slice();
    let mut rows = Vec::with_capacity(alloc, dims.len())?;
    let mut elements = plain_extent(program, table, structs, shape.plain).elements;
    let mut k = dims.len();
    while k > 0 {
        k -= 1;
        let n = dims[k];
        rows.push(Row { n, width: elements })?;
        elements = elements.saturating_mul(n as usize);
    }
    Ok(Arrays { rows, elements })
}

/// What is within the arrays that stand at these elements.
fn all_within(
    alloc: Global,
    rows: Vec<Row>,
    elements: Elements,
    len: usize,
) -> Result<Vec<Elements>, OutOfMemory>
    ensures slots { (zs : List ℤ) → (l : Layout) → length zs ≡ len → HasWidths rows.items l → IfOk result (λ r. flat_map (slots_in zs l) r.items ≡ slots_in zs (wound rows.items l) elements) }
    ensures work { (l : Layout) → IfOk result (λ r. length r.items * work l ≡ work (wound rows.items l)) }
{
    let mut rows = rows;
    let mut all = Vec::new(alloc);
    all.push(elements)?;
    while let Some(row) = rows.pop() {
        all = within(alloc, all, row, len)?;
    }
    Ok(all)
}

/// Adds what a shape at some elements is made of, to be read in order.
#[allow(clippy::too_many_arguments)]
fn push_spots(
    alloc: Global,
    program: &Program,
    table: &[Items<Extent>],
    cores: &[Option<Core>],
    structs: usize,
    shape: &Shape,
    elements: Elements,
    values: &[i128],
    todo: &mut Vec<Spot>,
) -> Result<(), OutOfMemory>
    requires table { Covers program.now.structs structs table.now }
    requires cores { AreCores program.now.structs cores.now }
    requires known { AreKnown program.now.structs todo.old.items }
    ensures known { AreKnown program.now.structs todo.new.items }
    ensures slots { OnOk result (left program.now.structs values.now todo.new.items ≡ slots_in values.now (among program.now.structs structs shape.now) elements ++ left program.now.structs values.now todo.old.items) }
    ensures work { OnOk result (weight program.now.structs todo.new.items ≤ work (among program.now.structs structs shape.now) + weight program.now.structs todo.old.items) }
{
    let arrays = around(alloc, program, table, structs, shape)?;
    if arrays.elements == 0 {
        return Ok(());
    }
    let Some(core) = base_of(program, cores, structs, shape.plain) else {
        return Ok(());
    };
    let mut all = all_within(alloc, arrays.rows, elements, values.len())?;
    while let Some(elements) = all.pop() {
        todo.push(spot_of(program, structs, shape.plain, core, elements))?;
    }
    Ok(())
}

/// What stands for a type that is no array, None where it is a structure that isn't one of the first `structs`.
fn base_of(program: &Program, cores: &[Option<Core>], structs: usize, plain: Plain) -> Option<Core>
    requires known { structs ≤ length cores.now }
    requires fits { structs ≤ length program.now.structs }
    requires cores { StandFor program.now.structs cores.now }
    ensures { MatchOption result (IsNothing program.now.structs structs plain) (IsBase program.now.structs structs plain) }
{
    let own = Core {
        plain,
        starred: false,
    };
    match plain {
        Plain::Scalar(_) => Some(own),
        Plain::Struct(k) => {
            if structs <= k as usize {
                return None;
            }
            match cores[k as usize] {
                None => Some(own),
                Some(core) => Some(core),
            }
        }
    }
}

/// What is to be read at some elements, of a type for which another stands.
fn spot_of(program: &Program, structs: usize, plain: Plain, core: Core, elements: Elements) -> Spot
    requires { IsBase program.now.structs structs plain core }
    ensures { IsSpotOf program.now.structs (among program.now.structs structs (no_array plain)) elements result }
{
    if core.starred && !elements.at.as_slice().is_empty() {
        return Spot {
            base: plain,
            elements,
        };
    }
    let Elements { starred, at, more } = elements;
    Spot {
        base: core.plain,
        elements: Elements {
            starred: starred | core.starred,
            at,
            more,
        },
    }
}

/// Of each structure that has the same cells as a simpler type that type: what is left when structures of one field are
/// unwrapped, as long as the field has one element or is a large array. So an object of a long chain of such structures is
/// read in one step.
pub fn cores(alloc: Global, program: &Program) -> Result<Items<Option<Core>>, OutOfMemory>
    ensures { IfOk result (AreCores program.now.structs) }
{
    let structs = program.structs.as_slice();
    let mut cores = Vec::with_capacity(alloc, structs.len())?;
    for k in 0..structs.len() {
        let core = core_of(program, &cores, k, structs[k].fields.as_slice());
        cores.push(core)?;
    }
    Ok(Items::from_vec(cores))
}

/// What stands for the structure with this number and these fields, if there is another type that does.
fn core_of(program: &Program, cores: &[Option<Core>], k: usize, fields: &[FieldDef]) -> Option<Core>
    requires known { k ≡ length cores.now }
    requires fits { k < length program.now.structs }
    requires cores { StandFor program.now.structs cores.now }
    requires fields { (d : StructDef) → slice_get program.now.structs k ≡ Some d → fields.now ≡ d.fields }
    ensures { (c : Core) → result ≡ Some c → IsCore program.now.structs (base_layout program.now.structs (Struct k)) c }
{
    if fields.len() != 1 {
        return None;
    }
    let shape = &fields[0].shape;
    if !are_single(shape.dims.as_slice()) {
        return None;
    }
    let starred = any_large(shape.dims.as_slice());
    match base_of(program, cores, k, shape.plain) {
        None => None,
        Some(core) => {
            Some(Core {
                plain: core.plain,
                starred: starred | core.starred,
            })
        }
    }
}

fn are_single(dims: &[u32]) -> bool
    ensures { result ≡ list_all is_single dims.now }
{
    dims.iter().all(|n| *n == 1 || *n > 128)
}

fn any_large(dims: &[u32]) -> bool
    ensures { result ≡ list_any (λ n. nat_lt 128 n) dims.now }
{
    dims.iter().any(|n| *n > 128)
}

/// Adds the fields of a structure at some elements.
#[allow(clippy::too_many_arguments)]
fn push_fields(
    alloc: Global,
    program: &Program,
    table: &[Items<Extent>],
    cores: &[Option<Core>],
    k: u32,
    elements: &Elements,
    values: &[i128],
    todo: &mut Vec<Spot>,
) -> Result<(), OutOfMemory>
    requires table { Covers program.now.structs (length program.now.structs) table.now }
    requires cores { AreCores program.now.structs cores.now }
    requires inside { k < length program.now.structs }
    requires known { AreKnown program.now.structs todo.old.items }
    ensures known { AreKnown program.now.structs todo.new.items }
    ensures slots { OnOk result (left program.now.structs values.now todo.new.items ≡ slots_in values.now (base_layout program.now.structs (Struct k)) elements.now ++ left program.now.structs values.now todo.old.items) }
    ensures work { OnOk result (weight program.now.structs todo.new.items < work (base_layout program.now.structs (Struct k)) + weight program.now.structs todo.old.items) }
{
    let fields = program.structs.as_slice()[k as usize].fields.as_slice();
    let extents = table[k as usize].as_slice();
    let mut f = fields.len();
    while f > 0 {
        f -= 1;
        let at = moved_on(alloc, elements, extents[f].elements, values.len())?;
        push_spots(
            alloc,
            program,
            table,
            cores,
            k as usize,
            &fields[f].shape,
            at,
            values,
            todo,
        )?;
    }
    Ok(())
}

/// With one number more.
fn joined(ends: Option<Ends>, z: i128) -> Ends
    ensures { Some (ends_span result) ≡ join_some (Some (single z)) (option_map ends_span ends) }
{
    match ends {
        None => Ends { lo: z, hi: z },
        Some(ends) => Ends {
            lo: z.min(ends.lo),
            hi: z.max(ends.hi),
        },
    }
}

/// The least and the greatest of the initial values of some elements.
fn ends_of(elements: &Elements, values: &[i128]) -> Option<Ends>
    ensures { option_map ends_span result ≡ values_of values.now elements.now.at elements.now.more }
{
    let at = elements.at.as_slice();
    let mut ends = zero_if(elements.more);
    let mut i = at.len();
    while i > 0 {
        i -= 1;
        ends = Some(joined(ends, value(values, at[i])));
    }
    ends
}

/// 0 where there are elements without initial values.
fn zero_if(more: bool) -> Option<Ends>
    ensures { option_map ends_span result ≡ (if more then Some (single (pos 0)) else None) }
{
    if more {
        Some(Ends { lo: 0, hi: 0 })
    } else {
        None
    }
}

/// The initial value of an element.
fn value(values: &[i128], at: usize) -> i128
    ensures { result ≡ get_or values.now at (pos 0) }
{
    if at < values.len() { values[at] } else { 0 }
}

/// The cell that stands for some elements of a type.
fn leaf(num: Num, elements: &Elements, values: &[i128]) -> Slot
    ensures { result ≡ slot num elements.now.starred (or_zero (values_of values.now elements.now.at elements.now.more)) }
{
    let ends = ends_of(elements, values).unwrap_or(Ends { lo: 0, hi: 0 });
    Slot {
        num,
        starred: elements.starred,
        lo: ends.lo,
        hi: ends.hi,
    }
}

/// Reads one object: a number is a cell, of a structure the fields are to be read.
#[allow(clippy::too_many_arguments)]
fn read_spot(
    alloc: Global,
    program: &Program,
    table: &[Items<Extent>],
    cores: &[Option<Core>],
    spot: &Spot,
    values: &[i128],
    todo: &mut Vec<Spot>,
    out: &mut Vec<Slot>,
) -> Result<(), OutOfMemory>
    requires table { Covers program.now.structs (length program.now.structs) table.now }
    requires cores { AreCores program.now.structs cores.now }
    requires inside { IsKnown program.now.structs spot.now.base }
    requires known { AreKnown program.now.structs todo.old.items }
    ensures known { AreKnown program.now.structs todo.new.items }
    ensures slots { OnOk result (out.new.items ++ left program.now.structs values.now todo.new.items ≡ out.old.items ++ (spot_slots program.now.structs values.now spot.now ++ left program.now.structs values.now todo.old.items)) }
    ensures work { OnOk result (weight program.now.structs todo.new.items < work (base_layout program.now.structs spot.now.base) + weight program.now.structs todo.old.items) }
{
    match spot.base {
        Plain::Scalar(num) => {
            out.push(leaf(num, &spot.elements, values))?;
            Ok(())
        }
        Plain::Struct(k) => push_fields(
            alloc,
            program,
            table,
            cores,
            k,
            &spot.elements,
            values,
            todo,
        ),
    }
}

/// The first element alone.
fn first_element(alloc: Global, len: usize) -> Result<Elements, OutOfMemory>
    ensures { IfOk result (λ r. r ≡ first_element len) }
{
    let mut at = Vec::new(alloc);
    if len > 0 {
        at.push(0)?;
    }
    Ok(Elements {
        starred: false,
        at: Items::from_vec(at),
        more: len == 0,
    })
}

/// The cells of a variable of this shape and with these initial values, in their order. An object is read when all before it
/// are, from a list of what is still to be read, so that neither the nesting of arrays nor that of structures is one of calls.
pub fn slots(
    alloc: Global,
    program: &Program,
    table: &[Items<Extent>],
    cores: &[Option<Core>],
    shape: &Shape,
    values: &[i128],
) -> Result<Vec<Slot>, OutOfMemory>
    requires table { Covers program.now.structs (length program.now.structs) table.now }
    requires cores { AreCores program.now.structs cores.now }
    ensures { IfOk result (λ r. r.items ≡ all_slots values.now (shape_layout program.now.structs shape.now)) }
{
    let structs = program.structs.len();
    let start = first_element(alloc, values.len())?;
    let mut todo = Vec::new(alloc);
    push_spots(
        alloc, program, table, cores, structs, shape, start, values, &mut todo,
    )?;
    let mut out = Vec::new(alloc);
    while let Some(spot) = todo.pop() {
        read_spot(
            alloc, program, table, cores, &spot, values, &mut todo, &mut out,
        )?;
    }
    Ok(out)
}
