//! The text of a report.

ghost use Rattle.std.specs.Prelude.{◌≡◌, ◌≤◌, ◌++◌, [], IfOk, OnOk, length, slice_get, ◌&&◌, if◌then◌else◌};
ghost use Rattle.sa_typed.specs.Cells.{cells};
ghost use Rattle.sa_typed.specs.Lines.{ClockIn, CellIn};
ghost use Rattle.sa_typed.specs.WellTyped.{IsTyped};
ghost use Rattle.sa_interval.specs.Rows.{join_of};
ghost use Rattle.sa_reference.specs.Environments.{merge_of, zip};
ghost use Rattle.sa_reference.specs.Intervals.{intervals};
ghost use Rattle.sa_reference.specs.Reference.{reference, record_at};
ghost use Rattle.sa_reference.specs.Sound.{widest};
ghost use Rattle.sa_iterate.specs.Analysis.{found_by};
ghost use Rattle.sa_report.specs.Alarms.{rising};
ghost use Rattle.sa_report.specs.Loops.{next_facts, with_facts, facts_at, marks_of, cells_text, all_text};
ghost use Rattle.sa_report.specs.Report.{lines_of, span_text, line_text, lines_text, reached_text, unreached_text, loop_text, stmt_text, alarm_text, alarms_text, count_text, report_text};
ghost use Rattle.sa_report.specs.Shown.{is_before, declared_before};
ghost use Rattle.sa_report.specs.Spots.{AreCells, IsSpot, cell_at};

use crate::names::{Cells, Spot, push_name};
use crate::shown::{is_same, main_body, marks};
use sa_base::{Alarm, OutOfMemory, Pos};
use sa_cells::copy;
use sa_interval::Interval;
use sa_iterate::{Analysis, LoopFacts};
use sa_reference::Flat;
use sa_typed::{Program, Stmt};
use sqlite_items::Items;
use std::alloc::Global;

// ---- one line

#[tactic(auto, unfolding(crate::specs::Report::span_text))]
fn push_span(alloc: Global, text: &mut Vec<u8>, span: Interval) -> Result<(), OutOfMemory>
    ensures { OnOk result (text.new.items ≡ text.old.items ++ span_text span.lo span.hi) }
{
    let lo = span.lo();
    let hi = span.hi();
    let part = format!(in alloc; " in [{lo}, {hi}]\n")?;
    text.extend_from_slice(part.as_bytes())
}

#[tactic(auto, unfolding(crate::specs::Report::reached_text))]
fn push_header(
    alloc: Global,
    text: &mut Vec<u8>,
    place: Pos,
    passes: u32,
) -> Result<(), OutOfMemory>
    ensures { OnOk result (text.new.items ≡ text.old.items ++ reached_text place passes) }
{
    let line = place.line;
    let col = place.col;
    let header = format!(in alloc; "loop {line}:{col} passes {passes}\n")?;
    text.extend_from_slice(header.as_bytes())
}

#[tactic(auto, unfolding(crate::specs::Report::unreached_text))]
fn push_unreached(alloc: Global, text: &mut Vec<u8>, place: Pos) -> Result<(), OutOfMemory>
    ensures { OnOk result (text.new.items ≡ text.old.items ++ unreached_text place) }
{
    let line = place.line;
    let col = place.col;
    let header = format!(in alloc; "loop {line}:{col} not reached\n")?;
    text.extend_from_slice(header.as_bytes())
}

#[tactic(auto, unfolding(crate::specs::Report::alarm_text))]
fn push_alarm(alloc: Global, text: &mut Vec<u8>, alarm: Alarm) -> Result<(), OutOfMemory>
    ensures { OnOk result (text.new.items ≡ text.old.items ++ alarm_text alarm) }
{
    let line = alarm.pos.line;
    let col = alarm.pos.col;
    let kind = alarm.kind.word();
    let part = format!(in alloc; "alarm {line}:{col} {kind}\n")?;
    text.extend_from_slice(part.as_bytes())
}

#[tactic(auto, unfolding(crate::specs::Report::count_text))]
fn push_count(alloc: Global, text: &mut Vec<u8>, count: usize) -> Result<(), OutOfMemory>
    ensures { OnOk result (text.new.items ≡ text.old.items ++ count_text count) }
{
    let part = format!(in alloc; "alarms {count}\n")?;
    text.extend_from_slice(part.as_bytes())
}

fn push_alarms(alloc: Global, text: &mut Vec<u8>, alarms: &[Alarm]) -> Result<(), OutOfMemory>
    ensures { OnOk result (text.new.items ≡ text.old.items ++ alarms_text alarms.now) }
{
    for alarm in alarms {
        push_alarm(alloc, text, *alarm)?;
    }
    Ok(())
}

// ---- the lines of a loop

#[tactic(auto, unfolding(crate::specs::Report::line_text))]
fn push_clock(
    alloc: Global,
    text: &mut Vec<u8>,
    program: &Program,
    clock: Interval,
) -> Result<(), OutOfMemory>
    ensures { OnOk result (text.new.items ≡ text.old.items ++ line_text program.now (ClockIn clock.lo clock.hi)) }
{
    text.extend_from_slice("  clock".as_bytes())?;
    push_span(alloc, text, clock)
}

fn push_cell(
    alloc: Global,
    text: &mut Vec<u8>,
    program: &Program,
    cells: &Cells,
    spot: Spot,
    span: Interval,
) -> Result<(), OutOfMemory>
    requires cells { AreCells program.now cells.now }
    requires spot { IsSpot program.now spot }
    ensures { OnOk result (text.new.items ≡ text.old.items ++ line_text program.now (CellIn (cell_at program.now spot) span.lo span.hi)) }
{
    text.extend_from_slice("  ".as_bytes())?;
    push_name(alloc, text, program, cells, spot)?;
    push_span(alloc, text, span)
}

/// Whether a place stands before another.
fn is_before(a: Pos, b: Pos) -> bool
    ensures { result ≡ is_before a b }
{
    a.line < b.line || (a.line == b.line && a.col < b.col)
}

/// Whether a variable is declared before a place.
fn is_declared_before(place: Pos, program: &Program, var: usize) -> bool
    ensures { result ≡ declared_before place (slice_get program.now.vars var) }
{
    match program.vars.get(var) {
        None => false,
        Some(var) => is_before(var.pos, place),
    }
}

/// Whether a cell of a variable is shown of a loop that stands there, given whether it occurs in the loop.
fn is_shown(place: Pos, program: &Program, var: usize, occurs: bool) -> bool
    ensures { result ≡ (declared_before place (slice_get program.now.vars var) && occurs) }
{
    is_declared_before(place, program, var) && occurs
}

/// The line of a cell, where it is shown.
fn push_shown(
    alloc: Global,
    text: &mut Vec<u8>,
    program: &Program,
    cells: &Cells,
    spot: Spot,
    span: Interval,
    shown: bool,
) -> Result<(), OutOfMemory>
    requires cells { AreCells program.now cells.now }
    requires spot { IsSpot program.now spot }
    ensures { OnOk result (text.new.items ≡ text.old.items ++ (if shown then line_text program.now (CellIn (cell_at program.now spot) span.lo span.hi) else [])) }
{
    if shown {
        push_cell(alloc, text, program, cells, spot, span)?;
    }
    Ok(())
}

/// The lines of the cells that are shown of a loop.
fn push_cells(
    alloc: Global,
    text: &mut Vec<u8>,
    program: &Program,
    cells: &Cells,
    place: Pos,
    marks: &[bool],
    spans: &[Interval],
) -> Result<(), OutOfMemory>
    requires cells { AreCells program.now cells.now }
    requires marks { marks.now ≡ marks_of program.now place }
    ensures { OnOk result (text.new.items ≡ text.old.items ++ cells_text program.now place spans.now) }
{
    for k in 0..cells.spots.len().min(spans.len()) {
        let spot = cells.spots[k];
        let shown = is_shown(place, program, spot.var, marks[k]);
        push_shown(alloc, text, program, cells, spot, spans[k], shown)?;
    }
    Ok(())
}

/// The header and the lines of a loop that is reached.
fn push_reached(
    alloc: Global,
    text: &mut Vec<u8>,
    program: &Program,
    cells: &Cells,
    place: Pos,
    facts: &LoopFacts,
) -> Result<(), OutOfMemory>
    requires cells { AreCells program.now cells.now }
    requires typed { IsTyped program.now }
    ensures { OnOk result (text.new.items ≡ text.old.items ++ (reached_text place facts.now.passes ++ lines_text program.now (lines_of program.now place facts.now.state))) }
{
    let marks = marks(alloc, program, cells, place)?;
    push_header(alloc, text, place, facts.passes)?;
    push_clock(alloc, text, program, facts.state.clock)?;
    push_cells(
        alloc,
        text,
        program,
        cells,
        place,
        &marks,
        facts.state.cells.as_slice(),
    )
}

// ---- what is known of a loop

/// The joins of two lists of intervals, as long as both go on.
fn joined_cells(
    alloc: Global,
    a: &[Interval],
    b: &[Interval],
) -> Result<Items<Interval>, OutOfMemory>
    ensures { IfOk result (λ all. all ≡ zip join_of a.now b.now) }
{
    let mut all = Items::new(alloc);
    for k in 0..a.len().min(b.len()) {
        all.push(a[k].join(b[k]))?;
    }
    Ok(all)
}

fn merged(alloc: Global, a: &Flat, b: &Flat) -> Result<Flat, OutOfMemory>
    ensures { IfOk result (λ e. e ≡ merge_of a.now b.now) }
{
    Ok(Flat {
        clock: a.clock.join(b.clock),
        cells: joined_cells(alloc, a.cells.as_slice(), b.cells.as_slice())?,
    })
}

/// What is known of a loop together with what was found of it later.
fn with_facts(
    alloc: Global,
    facts: &LoopFacts,
    later: Option<LoopFacts>,
) -> Result<Option<LoopFacts>, OutOfMemory>
    ensures { IfOk result (λ o. o ≡ with_facts facts.now later) }
{
    match later {
        None => Ok(Some(LoopFacts {
            place: facts.place,
            passes: facts.passes,
            state: copy(alloc, &facts.state)?,
        })),
        Some(later) => Ok(Some(LoopFacts {
            place: facts.place,
            passes: facts.passes.max(later.passes),
            state: merged(alloc, &facts.state, &later.state)?,
        })),
    }
}

fn next_facts(
    alloc: Global,
    place: Pos,
    facts: &LoopFacts,
    later: Option<LoopFacts>,
) -> Result<Option<LoopFacts>, OutOfMemory>
    ensures { IfOk result (λ o. o ≡ next_facts place facts.now later) }
{
    if is_same(facts.place, place) {
        with_facts(alloc, facts, later)
    } else {
        Ok(later)
    }
}

/// What is known of the loop whose word stands there, of all that was found of it.
fn facts_at(
    alloc: Global,
    loops: &[LoopFacts],
    place: Pos,
) -> Result<Option<LoopFacts>, OutOfMemory>
    ensures { IfOk result (λ o. o ≡ facts_at loops.now place) }
{
    let mut found = None;
    for done in 0..loops.len() {
        found = next_facts(alloc, place, &loops[loops.len() - 1 - done], found)?;
    }
    Ok(found)
}

// ---- the loops of a program

#[tactic(auto, unfolding(crate::specs::Report::loop_text))]
fn push_loop(
    alloc: Global,
    text: &mut Vec<u8>,
    program: &Program,
    cells: &Cells,
    analysis: &Analysis,
    place: Pos,
) -> Result<(), OutOfMemory>
    requires cells { AreCells program.now cells.now }
    requires typed { IsTyped program.now }
    ensures { OnOk result (text.new.items ≡ text.old.items ++ loop_text program.now place (record_at (intervals program.now (widest program.now)) (found_by analysis.now).records (record { path = []; place = place }))) }
{
    match facts_at(alloc, &analysis.loops, place)? {
        None => push_unreached(alloc, text, place),
        Some(facts) => push_reached(alloc, text, program, cells, place, &facts),
    }
}

/// The loops of a statement, in the order of the text.
#[cycle(loops)]
fn push_stmt(
    alloc: Global,
    text: &mut Vec<u8>,
    program: &Program,
    cells: &Cells,
    analysis: &Analysis,
    stmt: &Stmt,
) -> Result<(), OutOfMemory>
    requires cells { AreCells program.now cells.now }
    requires typed { IsTyped program.now }
    ensures { OnOk result (text.new.items ≡ text.old.items ++ stmt_text program.now (found_by analysis.now) stmt.now) }
{
    match stmt {
        Stmt::Block(all) => push_stmts(alloc, text, program, cells, analysis, all.as_slice()),
        Stmt::Loop(place, _, _, body, _) => {
            push_loop(alloc, text, program, cells, analysis, *place)?;
            push_stmt(alloc, text, program, cells, analysis, body.get())
        }
        // typing gives no other form with loops in it yet
        _ => Ok(()),
    }
}

#[cycle(loops)]
fn push_stmts(
    alloc: Global,
    text: &mut Vec<u8>,
    program: &Program,
    cells: &Cells,
    analysis: &Analysis,
    stmts: &[Stmt],
) -> Result<(), OutOfMemory>
    requires cells { AreCells program.now cells.now }
    requires typed { IsTyped program.now }
    ensures { OnOk result (text.new.items ≡ text.old.items ++ all_text program.now (found_by analysis.now) stmts.now) }
{
    for stmt in stmts {
        push_stmt(alloc, text, program, cells, analysis, stmt)?;
    }
    Ok(())
}

/// The whole report of an analysis, whose alarms are given in their order.
pub fn report(
    alloc: Global,
    program: &Program,
    analysis: &Analysis,
    alarms: &[Alarm],
) -> Result<Vec<u8>, OutOfMemory>
    requires typed { IsTyped program.now }
    requires small { length (cells program.now) ≤ 65536 }
    requires found { found_by analysis.now ≡ reference (intervals program.now (widest program.now)) program.now }
    requires alarms { alarms.now ≡ rising analysis.now.alarms.items }
    ensures { IfOk result (λ text. text.items ≡ report_text program.now (found_by analysis.now)) }
{
    let cells = Cells::of(alloc, program)?;
    let mut text = Vec::new(alloc);
    push_stmts(
        alloc,
        &mut text,
        program,
        &cells,
        analysis,
        main_body(program),
    )?;
    push_alarms(alloc, &mut text, alarms)?;
    push_count(alloc, &mut text, alarms.len())?;
    Ok(text)
}
