//! What was found, as lines.

ghost use Rattle.std.specs.Prelude.{◌≡◌, ◌++◌, ◌∷◌, [], IfOk, OnOk, map, zip, slice_get};
ghost use Rattle.sa_listing.specs.declared.lines.Line.TheVariants as line;
ghost use Rattle.sa_listing.specs.Report.{name_of, cell_line, loop_report, report_of};

use crate::lines::{Line, LoopReport, Report};
use sa_base::{Alarm, OutOfMemory, Text};
use sa_flat::{Found, LoopFacts};
use sa_interval::Interval;
use sa_ir::{Cell, Ir, LoopInfo};
use sqlite_items::Items;
use std::alloc::Global;

/// A copy of the name of the cell with this number.
fn name_of(alloc: Global, cells: &[Cell], k: u32) -> Result<Text, OutOfMemory>
    ensures { IfOk result (λ name. name ≡ name_of (slice_get cells.now k)) }
{
    match cells.get(k as usize) {
        None => Text::of(alloc, ""),
        Some(cell) => Text::of_bytes(alloc, cell.name.bytes()),
    }
}

fn cell_line(alloc: Global, cells: &[Cell], k: u32, span: Interval) -> Result<Line, OutOfMemory>
    ensures { IfOk result (λ line. line ≡ cell_line cells.now (k, span)) }
{
    Ok(Line::Span(name_of(alloc, cells, k)?, span.lo(), span.hi()))
}

/// The lines of the cells that a loop shows.
fn push_cells(
    alloc: Global,
    lines: &mut Items<Line>,
    cells: &[Cell],
    shown: &[u32],
    spans: &[Interval],
) -> Result<(), OutOfMemory>
    ensures { OnOk result (lines.new ≡ lines.old ++ map (cell_line cells.now) (zip shown.now spans.now)) }
{
    for (k, span) in shown.iter().zip(spans) {
        lines.push(cell_line(alloc, cells, *k, *span)?)?;
    }
    Ok(())
}

/// The lines of a loop that was reached.
fn lines_of(
    alloc: Global,
    cells: &[Cell],
    shown: &[u32],
    facts: &LoopFacts,
) -> Result<Items<Line>, OutOfMemory>
    ensures { IfOk result (λ lines. lines ≡ line.Clock facts.now.clock.lo facts.now.clock.hi ∷ map (cell_line cells.now) (zip shown.now facts.now.cells)) }
{
    let mut lines = Items::new(alloc);
    lines.push(Line::Clock(facts.clock.lo(), facts.clock.hi()))?;
    push_cells(alloc, &mut lines, cells, shown, facts.cells.as_slice())?;
    Ok(lines)
}

fn loop_report(
    alloc: Global,
    cells: &[Cell],
    info: &LoopInfo,
    facts: &Option<LoopFacts>,
) -> Result<LoopReport, OutOfMemory>
    ensures { IfOk result (λ r. r ≡ loop_report cells.now (info.now, facts.now)) }
{
    let name = Text::of_bytes(alloc, info.name.bytes())?;
    match facts {
        None => Ok(LoopReport {
            name,
            passes: 0,
            lines: Items::new(alloc),
        }),
        Some(facts) => Ok(LoopReport {
            name,
            passes: facts.passes,
            lines: lines_of(alloc, cells, info.shown.as_slice(), facts)?,
        }),
    }
}

fn loops_of(
    alloc: Global,
    cells: &[Cell],
    infos: &[LoopInfo],
    facts: &[Option<LoopFacts>],
) -> Result<Items<LoopReport>, OutOfMemory>
    ensures { IfOk result (λ all. all ≡ map (loop_report cells.now) (zip infos.now facts.now)) }
{
    let mut all = Items::new(alloc);
    for (info, facts) in infos.iter().zip(facts) {
        all.push(loop_report(alloc, cells, info, facts)?)?;
    }
    Ok(all)
}

fn alarms_of(alloc: Global, alarms: &[Alarm]) -> Result<Items<Alarm>, OutOfMemory>
    ensures { IfOk result (λ all. all ≡ alarms.now) }
{
    Ok(Items::from_vec(Vec::from_slice(alloc, alarms)?))
}

/// The report of what was found in a lowered program: its loops in walk order with their lines, and the alarms. The only error
/// is want of memory.
#[tactic(auto, unfolding(crate::specs::Report::report_of))]
pub fn report(alloc: Global, ir: &Ir, found: &Found) -> Result<Report, OutOfMemory>
    ensures { IfOk result (λ r. r ≡ report_of ir.now found.now) }
{
    let loops = loops_of(
        alloc,
        ir.cells.as_slice(),
        ir.loops.as_slice(),
        found.loops.as_slice(),
    )?;
    let alarms = alarms_of(alloc, found.alarms.as_slice())?;
    Ok(Report { loops, alarms })
}
