//! The cells that an access names.

ghost use Rattle.std.specs.Prelude.{◌≡◌, ◌+◌, ◌-◌, ◌*◌, ◌≤◌, ◌<◌, ℤ, pos, ◌++◌, List, [], map, if◌then◌else◌, IfOk, OnOk, MatchOption, nat_le, slice_get, ◌∷◌, length};
ghost use Rattle.std.specs.Int.RustNames.{int_le};
ghost use Rattle.std.specs.List.{All};
ghost use Rattle.sa_reference.specs.declared.reach.Reach.{Reach};
ghost use Rattle.sa_reference.specs.declared.reach.Reach.TheVariants.{At, Into};
ghost use Rattle.sa_reference.specs.Values.{named};
ghost use Rattle.sa_typed.specs.declared.shape.Plain.TheVariants.{Struct};
ghost use Rattle.sa_cells.specs.Grounds.{IsGround};
ghost use Rattle.sa_cells.specs.Sizes.{among, no_array};
ghost use Rattle.sa_cells.specs.Reached.{reached, spaced, all_picked, all_runs};
ghost use Rattle.sa_cells.specs.Places.{place_layout, IsPlace, Leads, Begins, AreInside, IsCountBelow, IsCountUpTo};

use crate::{Ground, OutOfMemory};
use sa_interval::Interval;
use sa_reference::Reach;
use sa_typed::{Plain, Program};
use std::alloc::Global;

/// What steps have led to: the dimensions that are left of its shape, what they are around, which may hold the first `structs`
/// structures, how many cells it has, and the numbers of the first cell of each place that it stands at.
#[derive(Drop)]
struct Place<'a> {
    dims: &'a [u32],
    plain: Plain,
    structs: usize,
    cells: usize,
    firsts: Vec<usize>,
}

/// The numbers of the cells that an access names, rising.
pub fn named(
    alloc: Global,
    program: &Program,
    ground: &Ground,
    var: u32,
    reaches: &[Reach],
) -> Result<Vec<usize>, OutOfMemory>
    requires { IsGround program.now ground.now }
    ensures { IfOk result (λ ks. ks.items ≡ named program.now var reaches.now) }
{
    let Some(start) = variable(alloc, program, ground, var)? else {
        return Ok(Vec::new(alloc));
    };
    let mut place = start;
    for reach in reaches {
        match stepped(alloc, program, ground, *reach, place)? {
            None => return Ok(Vec::new(alloc)),
            Some(next) => place = next,
        }
    }
    cells_of(alloc, &place.firsts, place.cells)
}

/// Where a variable stands.
fn variable<'a>(
    alloc: Global,
    program: &'a Program,
    ground: &Ground,
    var: u32,
) -> Result<Option<Place<'a>>, OutOfMemory>
    requires { IsGround program.now ground.now }
    ensures { IfOk result (Begins program.now var) }
{
    let Some(known) = program.vars.get(var as usize) else {
        return Ok(None);
    };
    let Some(stretch) = ground.vars.get(var as usize) else {
        return Ok(None);
    };
    let mut firsts = Vec::new(alloc);
    firsts.push(stretch.first)?;
    Ok(Some(Place {
        dims: known.shape.dims.as_slice(),
        plain: known.shape.plain,
        structs: program.structs.len(),
        cells: stretch.cells,
        firsts,
    }))
}

/// One step on; None where nothing stands there.
fn stepped<'a>(
    alloc: Global,
    program: &'a Program,
    ground: &Ground,
    reach: Reach,
    place: Place<'a>,
) -> Result<Option<Place<'a>>, OutOfMemory>
    requires ground { IsGround program.now ground.now }
    requires place { IsPlace program.now place }
    ensures { IfOk result (Leads program.now reach place.entry) }
{
    match reach {
        Reach::At(span) => match place.dims {
            [] => Ok(None),
            [n, rest @ ..] => elements(alloc, program, span, *n, rest, place),
        },
        Reach::Into(f) => {
            if !place.dims.is_empty() {
                return Ok(None);
            }
            match place.plain {
                Plain::Scalar(_) => Ok(None),
                Plain::Struct(k) => field(alloc, program, ground, k, f, place),
            }
        }
    }
}

/// The elements of an array whose indices lie in the span. Those of more than 128 stand at the same cells.
fn elements<'a>(
    alloc: Global,
    program: &Program,
    span: Interval,
    n: u32,
    rest: &'a [u32],
    place: Place<'a>,
) -> Result<Option<Place<'a>>, OutOfMemory>
    requires place { IsPlace program.now place }
    requires array { place.dims.now ≡ n ∷ rest.now }
    ensures { IfOk result (Leads program.now (At span) place.entry) }
{
    let Place {
        plain,
        structs,
        cells,
        firsts,
        ..
    } = place;
    if n > 128 {
        return Ok(Some(Place {
            dims: rest,
            plain,
            structs,
            cells,
            firsts,
        }));
    }
    if n == 0 {
        return Ok(None);
    }
    let width = cells / n as usize;
    Ok(Some(Place {
        dims: rest,
        plain,
        structs,
        cells: width,
        firsts: picked(alloc, &firsts, span, n as usize, width)?,
    }))
}

/// A field of a structure.
fn field<'a>(
    alloc: Global,
    program: &'a Program,
    ground: &Ground,
    k: u32,
    f: u32,
    place: Place<'a>,
) -> Result<Option<Place<'a>>, OutOfMemory>
    requires ground { IsGround program.now ground.now }
    requires place { IsPlace program.now place }
    requires shape { place_layout program.now place ≡ among program.now.structs place.structs (no_array (Struct k)) }
    ensures { IfOk result (Leads program.now (Into f) place.entry) }
{
    let Place {
        structs,
        firsts,
        ..
    } = place;
    if structs <= k as usize {
        return Ok(None);
    }
    let Some(made) = program.structs.get(k as usize) else {
        return Ok(None);
    };
    let Some(field) = made.fields.get(f as usize) else {
        return Ok(None);
    };
    let Some(extents) = ground.structs.get(k as usize) else {
        return Ok(None);
    };
    let Some(before) = extents.get(f as usize) else {
        return Ok(None);
    };
    let Some(behind) = extents.get(f as usize + 1) else {
        return Ok(None);
    };
    Ok(Some(Place {
        dims: field.shape.dims.as_slice(),
        plain: field.shape.plain,
        structs: k as usize,
        cells: behind.cells - before.cells,
        firsts: moved(alloc, &firsts, before.cells)?,
    }))
}

/// Where the elements stand whose indices lie in the span, of `n` elements at each of these places with so many cells each.
fn picked(
    alloc: Global,
    firsts: &[usize],
    span: Interval,
    n: usize,
    width: usize,
) -> Result<Vec<usize>, OutOfMemory>
    requires { AreInside (n * width) firsts.now }
    ensures { IfOk result (λ r. r.items ≡ all_picked span width n firsts.now) }
{
    let from = count_below(span.lo(), n);
    let end = count_up_to(span.hi(), n);
    let mut all = Vec::new(alloc);
    for first in firsts {
        push_spaced(
            &mut all,
            first + from * width,
            end.saturating_sub(from),
            width,
        )?;
    }
    Ok(all)
}

/// How many of the indices below `n` are below the number.
fn count_below(z: i128, n: usize) -> usize
    ensures { IsCountBelow z n result }
{
    if z <= 0 {
        0
    } else if z >= n as i128 {
        n
    } else {
        z as usize
    }
}

/// How many of the indices below `n` are at most the number.
fn count_up_to(z: i128, n: usize) -> usize
    ensures { IsCountUpTo z n result }
{
    if z < 0 {
        0
    } else if z >= n as i128 {
        n
    } else {
        z as usize + 1
    }
}

/// Each number with another added.
fn moved(alloc: Global, firsts: &[usize], by: usize) -> Result<Vec<usize>, OutOfMemory>
    requires { AreInside by firsts.now }
    ensures { IfOk result (λ r. r.items ≡ map (λ o. o + by) firsts.now) }
{
    let mut all = Vec::with_capacity(alloc, firsts.len())?;
    for first in firsts {
        all.push(first + by)?;
    }
    Ok(all)
}

/// So many cells from each of these on.
fn cells_of(alloc: Global, firsts: &[usize], cells: usize) -> Result<Vec<usize>, OutOfMemory>
    requires { AreInside cells firsts.now }
    ensures { IfOk result (λ r. r.items ≡ all_runs cells firsts.now) }
{
    let mut all = Vec::new(alloc);
    for first in firsts {
        push_spaced(&mut all, *first, cells, 1)?;
    }
    Ok(all)
}

/// Adds so many numbers from one on, each by `width` greater than the one before.
fn push_spaced(
    all: &mut Vec<usize>,
    from: usize,
    count: usize,
    width: usize,
) -> Result<(), OutOfMemory>
    requires { from + count * width ≤ 65536 }
    ensures { OnOk result (all.new.items ≡ all.old.items ++ spaced width count from) }
{
    for k in 0..count {
        all.push(from + k * width)?;
    }
    Ok(())
}
