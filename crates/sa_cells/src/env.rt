//! Environments.

ghost use Rattle.std.specs.Prelude.{◌≡◌, ◌≤◌, ◌<◌, ◌+◌, length, map, take, drop, ◌≤ℤ◌, ◌^◌, IfOk, OnOk, pos};
ghost use Rattle.std.specs.List.{All};
ghost use Rattle.sa_typed.specs.Cells.{cells, is_local};
ghost use Rattle.sa_typed.specs.WellTyped.{IsTyped};
ghost use Rattle.sa_interval.specs.Span.{IsPart};
ghost use Rattle.sa_interval.specs.Rows.{join_of};
ghost use Rattle.sa_interval.specs.Widening.{thresholds_of};
ghost use Rattle.sa_reference.specs.Environments.{zip, all_parts, cell_range, ranges, whole_clock, top_of, initial_env, items_span, merge_of, le_of, tick_of, fallen, risen, widened_clock, spread_to, widened_span, widened_spans, widen_of};
ghost use Rattle.sa_reference.specs.Assignments.{set_cells};
ghost use Rattle.sa_reference.specs.Fair.{IsFair, AreIn, alive_env};
ghost use Rattle.sa_cells.specs.Grounds.{IsGround};
ghost use Rattle.sa_cells.specs.Settings.{placed, slot_span, IsTypedSlot, begun};

use crate::slots::{Slot, slots};
use crate::{Ground, OutOfMemory};
use sa_interval::{Interval, Thresholds};
use sa_reference::Flat;
use sa_typed::{Home, Program};
use sqlite_items::Items;
use std::alloc::Global;

/// The environment before main.
pub fn initial(
    alloc: Global,
    program: &Program,
    ground: &Ground,
    max_clock: u64,
) -> Result<Flat, OutOfMemory>
    requires ground { IsGround program.now ground.now }
    requires typed { IsTyped program.now }
    ensures value { IfOk result (λ e. e ≡ initial_env program.now) }
    ensures fair { IfOk result (λ e. IsFair program.now (pos max_clock) e) }
{
    let mut cells = Items::from_slice(alloc, ground.tops.as_slice())?;
    for var in 0..program.vars.len() {
        begin(alloc, program, ground, var, &mut cells)?;
    }
    Ok(Flat {
        clock: Interval::new(0, 0),
        cells,
    })
}

/// Sets the cells of a variable to what it begins with before main. A local may be anything there.
fn begin(
    alloc: Global,
    program: &Program,
    ground: &Ground,
    var: usize,
    spans: &mut Items<Interval>,
) -> Result<(), OutOfMemory>
    requires ground { IsGround program.now ground.now }
    requires typed { IsTyped program.now }
    requires spans { AreIn (cells program.now) spans.old }
    requires inside { var < length program.now.vars }
    requires begun { spans.old ≡ begun program.now var (cells program.now) }
    ensures value { OnOk result (spans.new ≡ begun program.now (var + 1) (cells program.now)) }
    ensures kept { AreIn (cells program.now) spans.new }
{
    let Some(known) = program.vars.get(var) else {
        return Ok(());
    };
    if is_local(known.home) {
        return Ok(());
    }
    set_values(alloc, program, ground, var, spans)
}

fn is_local(home: Home) -> bool
    ensures { result ≡ is_local home }
{
    matches!(home, Home::Local(_))
}

/// The environment of every clock and every value.
pub fn top(
    alloc: Global,
    program: &Program,
    ground: &Ground,
    max_clock: u64,
) -> Result<Flat, OutOfMemory>
    requires ground { IsGround program.now ground.now }
    requires clock { max_clock ≤ 2 ^ 62 }
    ensures value { IfOk result (λ e. e ≡ top_of program.now (whole_clock (pos max_clock))) }
    ensures fair { IfOk result (λ e. IsFair program.now (pos max_clock) e) }
{
    Ok(Flat {
        clock: Interval::new(0, i128::from(max_clock)),
        cells: Items::from_slice(alloc, ground.tops.as_slice())?,
    })
}

/// A copy of it.
pub fn copy(alloc: Global, env: &Flat) -> Result<Flat, OutOfMemory>
    ensures { IfOk result (λ e. e ≡ env.now) }
{
    Ok(Flat {
        clock: env.clock,
        cells: Items::from_slice(alloc, env.cells.as_slice())?,
    })
}

/// The wait: the clock adds 1. False where it can't, since the last clock is reached.
pub fn tick(program: &Program, env: &mut Flat, max_clock: u64) -> bool
    requires fair { IsFair program.now (pos max_clock) env.old }
    requires clock { max_clock ≤ 2 ^ 62 }
    ensures env { tick_of (pos max_clock) env.old ≡ alive_env result env.new }
    ensures fair { IsFair program.now (pos max_clock) env.new }
{
    let last = Interval::new(0, i128::from(max_clock));
    match env.clock.add(Interval::new(1, 1)).meet(last) {
        None => false,
        Some(clock) => {
            env.clock = clock;
            true
        }
    }
}

/// The least environment above both.
pub fn merge(
    alloc: Global,
    program: &Program,
    a: &Flat,
    b: &Flat,
    max_clock: u64,
) -> Result<Flat, OutOfMemory>
    requires a_fair { IsFair program.now (pos max_clock) a.now }
    requires b_fair { IsFair program.now (pos max_clock) b.now }
    ensures value { IfOk result (λ e. e ≡ merge_of a.now b.now) }
    ensures fair { IfOk result (λ e. IsFair program.now (pos max_clock) e) }
{
    Ok(Flat {
        clock: a.clock.join(b.clock),
        cells: joined_cells(alloc, a.cells.as_slice(), b.cells.as_slice())?,
    })
}

/// Each cell's intervals joined.
fn joined_cells(
    alloc: Global,
    a: &[Interval],
    b: &[Interval],
) -> Result<Items<Interval>, OutOfMemory>
    ensures { IfOk result (λ cells. cells ≡ zip join_of a.now b.now) }
{
    let n = a.len().min(b.len());
    let mut cells = Vec::with_capacity(alloc, n)?;
    for k in 0..n {
        cells.push(a[k].join(b[k]))?;
    }
    Ok(Items::from_vec(cells))
}

/// Whether all that the first holds the second holds too.
pub fn le(a: &Flat, b: &Flat) -> bool
    ensures { result ≡ le_of a.now b.now }
{
    a.clock.le(b.clock) && all_parts(a.cells.as_slice(), b.cells.as_slice())
}

fn all_parts(a: &[Interval], b: &[Interval]) -> bool
    ensures { result ≡ all_parts a.now b.now }
{
    if a.len() != b.len() {
        return false;
    }
    for k in 0..a.len() {
        if !a[k].le(b[k]) {
            return false;
        }
    }
    true
}

/// What pass `pass`, from 4 to 30, makes of the iterate `i` before it and of the merge `j` of the entry with the turn's end.
#[allow(clippy::too_many_arguments)]
pub fn widen(
    alloc: Global,
    program: &Program,
    ground: &Ground,
    thresholds: &Thresholds,
    pass: u32,
    i: &Flat,
    j: &Flat,
    max_clock: u64,
) -> Result<Flat, OutOfMemory>
    requires ground { IsGround program.now ground.now }
    requires thresholds { thresholds.now ≡ thresholds_of program.now.thresholds }
    requires i_fair { IsFair program.now (pos max_clock) i.now }
    requires j_fair { IsFair program.now (pos max_clock) j.now }
    requires clock { max_clock ≤ 2 ^ 62 }
    ensures value { IfOk result (λ e. e ≡ widen_of program.now (pos max_clock) pass i.now j.now) }
    ensures fair { IfOk result (λ e. IsFair program.now (pos max_clock) e) }
{
    Ok(Flat {
        clock: widened_clock(max_clock, i.clock, j.clock),
        cells: widened_cells(
            alloc,
            program,
            thresholds,
            pass,
            ground.tops.as_slice(),
            i.cells.as_slice(),
            j.cells.as_slice(),
        )?,
    })
}

fn fallen(least: i128, old: i128, new: i128) -> i128
    requires { least ≤ℤ old }
    ensures value { result ≡ fallen least old new }
    ensures no_less { least ≤ℤ result }
    ensures no_more { result ≤ℤ old }
{
    if old <= new { old } else { least }
}

fn risen(most: i128, old: i128, new: i128) -> i128
    requires { old ≤ℤ most }
    ensures value { result ≡ risen most old new }
    ensures no_less { old ≤ℤ result }
    ensures no_more { result ≤ℤ most }
{
    if new <= old { old } else { most }
}

/// A rising clock goes to the last clock.
fn widened_clock(max_clock: u64, i: Interval, j: Interval) -> Interval
    requires i_in { IsPart i (whole_clock (pos max_clock)) }
    requires j_in { IsPart j (whole_clock (pos max_clock)) }
    ensures value { result ≡ widened_clock (pos max_clock) i j }
    ensures kept { IsPart result (whole_clock (pos max_clock)) }
    ensures ordered { result.lo ≤ℤ result.hi }
{
    let hi = risen(i128::from(max_clock), i.hi(), j.hi());
    Interval::new(i.lo().min(j.lo()), hi)
}

/// Each bound that moves goes to its type's.
fn spread_to(top: Interval, i: Interval, j: Interval) -> Interval
    requires { IsPart i top }
    ensures value { result ≡ spread_to top i j }
    ensures kept { IsPart result top }
    ensures ordered { result.lo ≤ℤ result.hi }
{
    let lo = fallen(top.lo(), i.lo(), j.lo());
    let hi = risen(top.hi(), i.hi(), j.hi());
    Interval::new(lo, hi)
}

/// To thresholds up to pass 20, and later to the type's range.
fn widened_span(
    thresholds: &Thresholds,
    pass: u32,
    top: Interval,
    i: Interval,
    j: Interval,
) -> Interval
    requires i_in { IsPart i top }
    requires j_in { IsPart j top }
    ensures value { result ≡ widened_span thresholds.now pass top i j }
    ensures kept { IsPart result top }
    ensures ordered { result.lo ≤ℤ result.hi }
{
    if pass <= 20 {
        thresholds.widen(i, j, top)
    } else {
        spread_to(top, i, j)
    }
}

/// Each cell's interval widened.
fn widened_cells(
    alloc: Global,
    program: &Program,
    thresholds: &Thresholds,
    pass: u32,
    tops: &[Interval],
    a: &[Interval],
    b: &[Interval],
) -> Result<Items<Interval>, OutOfMemory>
    requires tops { tops.now ≡ ranges (cells program.now) }
    requires a_in { AreIn (cells program.now) a.now }
    requires b_in { AreIn (cells program.now) b.now }
    ensures value { IfOk result (λ spans. spans ≡ widened_spans thresholds.now pass tops.now a.now b.now) }
    ensures kept { IfOk result (λ spans. AreIn (cells program.now) spans) }
{
    let n = tops.len();
    let mut spans = Vec::with_capacity(alloc, n)?;
    for k in 0..n {
        spans.push(widened_span(thresholds, pass, tops[k], a[k], b[k]))?;
    }
    Ok(Items::from_vec(spans))
}

/// A local at its declaration without an initial value: each of its cells may be anything of its type.
pub fn set_ranges(
    alloc: Global,
    program: &Program,
    ground: &Ground,
    var: u32,
    spans: &mut Items<Interval>,
) -> Result<(), OutOfMemory>
    requires ground { IsGround program.now ground.now }
    requires spans { AreIn (cells program.now) spans.old }
    ensures value { OnOk result (spans.new ≡ set_cells cell_range var (cells program.now) spans.old) }
    ensures kept { AreIn (cells program.now) spans.new }
{
    let Some(stretch) = ground.vars.get(var as usize) else {
        return Ok(());
    };
    let tops = part(ground.tops.as_slice(), stretch.first, stretch.cells);
    place(spans, stretch.first, tops);
    Ok(())
}

/// So many from one on.
fn part(spans: &[Interval], first: usize, count: usize) -> &[Interval]
    requires { first + count ≤ length spans.now }
    ensures { result.now ≡ take count (drop first spans.now) }
{
    &spans[first..first + count]
}

/// A local at its declaration with initial values.
pub fn set_items(
    alloc: Global,
    program: &Program,
    ground: &Ground,
    var: u32,
    spans: &mut Items<Interval>,
) -> Result<(), OutOfMemory>
    requires ground { IsGround program.now ground.now }
    requires typed { IsTyped program.now }
    requires spans { AreIn (cells program.now) spans.old }
    ensures value { OnOk result (spans.new ≡ set_cells (items_span program.now) var (cells program.now) spans.old) }
    ensures kept { AreIn (cells program.now) spans.new }
{
    set_values(alloc, program, ground, var as usize, spans)
}

/// Sets the cells of a variable to its initial values.
fn set_values(
    alloc: Global,
    program: &Program,
    ground: &Ground,
    var: usize,
    spans: &mut Items<Interval>,
) -> Result<(), OutOfMemory>
    requires ground { IsGround program.now ground.now }
    requires typed { IsTyped program.now }
    requires spans { AreIn (cells program.now) spans.old }
    ensures value { OnOk result (spans.new ≡ set_cells (items_span program.now) var (cells program.now) spans.old) }
    ensures kept { AreIn (cells program.now) spans.new }
{
    let Some(known) = program.vars.get(var) else {
        return Ok(());
    };
    let Some(stretch) = ground.vars.get(var) else {
        return Ok(());
    };
    let table = ground.structs.as_slice();
    let slots = slots(
        alloc,
        program,
        table,
        ground.cores.as_slice(),
        &known.shape,
        known.initial.as_slice(),
    )?;
    let new = slot_spans(alloc, &slots)?;
    place(spans, stretch.first, &new);
    Ok(())
}

/// What each cell begins with.
fn slot_spans(alloc: Global, slots: &[Slot]) -> Result<Vec<Interval>, OutOfMemory>
    requires { All IsTypedSlot slots.now }
    ensures { IfOk result (λ r. r.items ≡ map slot_span slots.now) }
{
    let mut spans = Vec::with_capacity(alloc, slots.len())?;
    for slot in slots {
        spans.push(slot_span(*slot))?;
    }
    Ok(spans)
}

fn slot_span(slot: Slot) -> Interval
    requires { IsTypedSlot slot }
    ensures { result ≡ slot_span slot }
{
    Interval::new(slot.lo, slot.hi)
}

/// Puts others in place of those from a number on.
fn place(spans: &mut Items<Interval>, first: usize, new: &[Interval])
    requires fits { first + length new.now ≤ length spans.old }
    requires few { length spans.old ≤ 65536 }
    ensures { spans.new ≡ placed first new.now spans.old }
{
    for k in 0..new.len() {
        spans.set(first + k, new[k]);
    }
}
