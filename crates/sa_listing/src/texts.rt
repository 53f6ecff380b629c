//! Reports as text.

ghost use Rattle.std.specs.Prelude.{◌≡◌, ◌++◌, IfOk, OnOk, codes, flat_map, length};
ghost use Rattle.std.specs.Fmt.{signed_decimal};
ghost use Rattle.sa_listing.specs.Texts.{span_text, first_sign, second_sign, line_text, indented, passes_text, line_feed, header, loop_text, alarm_text, count_text, report_text};

use crate::lines::{Line, LoopReport, Report};
use sa_base::{Alarm, OutOfMemory, Text};
use std::alloc::Global;

#[tactic(auto, unfolding(crate::specs::Texts::span_text))]
fn push_span(alloc: Global, text: &mut Vec<u8>, lo: i128, hi: i128) -> Result<(), OutOfMemory>
    ensures { OnOk result (text.new.items ≡ text.old.items ++ span_text lo hi) }
{
    let part = format!(in alloc; " in [{lo}, {hi}]")?;
    text.extend_from_slice(part.as_bytes())
}

fn push_bound(alloc: Global, text: &mut Vec<u8>, k: i128) -> Result<(), OutOfMemory>
    ensures { OnOk result (text.new.items ≡ text.old.items ++ (codes " <= " ++ signed_decimal k)) }
{
    let part = format!(in alloc; " <= {k}")?;
    text.extend_from_slice(part.as_bytes())
}

/// The sign of the first of two cells.
fn first_sign(plus: bool) -> &'static str
    ensures { result.now ≡ first_sign plus }
{
    if plus { "" } else { "-" }
}

/// The sign of the second.
fn second_sign(plus: bool) -> &'static str
    ensures { result.now ≡ second_sign plus }
{
    if plus { " + " } else { " - " }
}

/// A line without its indentation.
#[tactic(auto, unfolding(crate::specs::Texts::line_text))]
pub(crate) fn push_line(alloc: Global, text: &mut Vec<u8>, line: &Line) -> Result<(), OutOfMemory>
    ensures { OnOk result (text.new.items ≡ text.old.items ++ line_text line.now) }
{
    match line {
        Line::Clock(lo, hi) => {
            text.extend_from_slice("clock".as_bytes())?;
            push_span(alloc, text, *lo, *hi)
        }
        Line::Span(cell, lo, hi) => {
            text.extend_from_slice(cell.bytes())?;
            push_span(alloc, text, *lo, *hi)
        }
        Line::Minus(cell, lo, hi) => {
            text.extend_from_slice(cell.bytes())?;
            text.extend_from_slice(" - clock".as_bytes())?;
            push_span(alloc, text, *lo, *hi)
        }
        Line::Plus(cell, lo, hi) => {
            text.extend_from_slice(cell.bytes())?;
            text.extend_from_slice(" + clock".as_bytes())?;
            push_span(alloc, text, *lo, *hi)
        }
        Line::Pair(plus, cell, other_plus, other, k) => {
            text.extend_from_slice(first_sign(*plus).as_bytes())?;
            text.extend_from_slice(cell.bytes())?;
            text.extend_from_slice(second_sign(*other_plus).as_bytes())?;
            text.extend_from_slice(other.bytes())?;
            push_bound(alloc, text, *k)
        }
    }
}

#[tactic(auto, unfolding(crate::specs::Texts::indented))]
fn push_indented(alloc: Global, text: &mut Vec<u8>, line: &Line) -> Result<(), OutOfMemory>
    ensures { OnOk result (text.new.items ≡ text.old.items ++ indented line.now) }
{
    text.extend_from_slice("  ".as_bytes())?;
    push_line(alloc, text, line)?;
    text.push(b'\n')?;
    Ok(())
}

fn push_lines(alloc: Global, text: &mut Vec<u8>, lines: &[Line]) -> Result<(), OutOfMemory>
    ensures { OnOk result (text.new.items ≡ text.old.items ++ flat_map indented lines.now) }
{
    for line in lines {
        push_indented(alloc, text, line)?;
    }
    Ok(())
}

/// What follows the name of a loop.
fn push_passes(alloc: Global, text: &mut Vec<u8>, passes: u32) -> Result<(), OutOfMemory>
    ensures { OnOk result (text.new.items ≡ text.old.items ++ (passes_text passes ++ line_feed)) }
{
    if passes == 0 {
        return text.extend_from_slice(" not reached\n".as_bytes());
    }
    let part = format!(in alloc; " passes {passes}\n")?;
    text.extend_from_slice(part.as_bytes())
}

#[tactic(auto, unfolding(crate::specs::Texts::header))]
fn push_header(
    alloc: Global,
    text: &mut Vec<u8>,
    name: &Text,
    passes: u32,
) -> Result<(), OutOfMemory>
    ensures { OnOk result (text.new.items ≡ text.old.items ++ header name.now passes) }
{
    text.extend_from_slice("loop ".as_bytes())?;
    text.extend_from_slice(name.bytes())?;
    push_passes(alloc, text, passes)
}

#[tactic(auto, unfolding(crate::specs::Texts::loop_text))]
fn push_loop(alloc: Global, text: &mut Vec<u8>, report: &LoopReport) -> Result<(), OutOfMemory>
    ensures { OnOk result (text.new.items ≡ text.old.items ++ loop_text report.now) }
{
    push_header(alloc, text, &report.name, report.passes)?;
    push_lines(alloc, text, report.lines.as_slice())
}

fn push_loops(alloc: Global, text: &mut Vec<u8>, loops: &[LoopReport]) -> Result<(), OutOfMemory>
    ensures { OnOk result (text.new.items ≡ text.old.items ++ flat_map loop_text loops.now) }
{
    for report in loops {
        push_loop(alloc, text, report)?;
    }
    Ok(())
}

#[tactic(auto, unfolding(crate::specs::Texts::alarm_text))]
fn push_alarm(alloc: Global, text: &mut Vec<u8>, alarm: Alarm) -> Result<(), OutOfMemory>
    ensures { OnOk result (text.new.items ≡ text.old.items ++ alarm_text alarm) }
{
    let line = alarm.pos.line;
    let col = alarm.pos.col;
    let kind = alarm.kind.word();
    let part = format!(in alloc; "alarm {line}:{col} {kind}\n")?;
    text.extend_from_slice(part.as_bytes())
}

fn push_alarms(alloc: Global, text: &mut Vec<u8>, alarms: &[Alarm]) -> Result<(), OutOfMemory>
    ensures { OnOk result (text.new.items ≡ text.old.items ++ flat_map alarm_text alarms.now) }
{
    for alarm in alarms {
        push_alarm(alloc, text, *alarm)?;
    }
    Ok(())
}

#[tactic(auto, unfolding(crate::specs::Texts::count_text))]
fn push_count(alloc: Global, text: &mut Vec<u8>, count: usize) -> Result<(), OutOfMemory>
    ensures { OnOk result (text.new.items ≡ text.old.items ++ count_text count) }
{
    let part = format!(in alloc; "alarms {count}\n")?;
    text.extend_from_slice(part.as_bytes())
}

/// The text of a report: a header for each loop, its lines indented by two spaces, a line for each alarm, and their number. Every
/// line ends with a line feed. The only error is want of memory.
#[tactic(auto, unfolding(crate::specs::Texts::report_text))]
pub fn write_text(alloc: Global, report: &Report) -> Result<Vec<u8>, OutOfMemory>
    ensures { IfOk result (λ text. text.items ≡ report_text report.now) }
{
    let mut text = Vec::new(alloc);
    push_loops(alloc, &mut text, report.loops.as_slice())?;
    push_alarms(alloc, &mut text, report.alarms.as_slice())?;
    push_count(alloc, &mut text, report.alarms.len())?;
    Ok(text)
}
