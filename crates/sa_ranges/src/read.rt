//! The ranges that a file tells.

ghost use Rattle.std.specs.Prelude.{◌≡◌, IfOk, IfErr, Ok, Some, map, option_map};
ghost use Rattle.serde_json.specs.View.{view};
ghost use Rattle.sa_typed.specs.Ranges.{AreOf, whole_type};
ghost use Rattle.sa_ranges.specs.Told.{spans_told};
ghost use Rattle.sa_ranges.specs.Keys.{members_in};
ghost use Rattle.sa_ranges.specs.Answer.{from_told, spans_or, spans_for, value_of, IsNoValue, of_data, ranges_of, IsFault};

use crate::fault::RangesFault;
use crate::file::{knows_all, last_clock, named, tick_of, version};
use crate::inputs::by_names;
use crate::key::member;
use crate::names::check_names;
use crate::told::{Told, Version, read_spans};
use sa_base::OutOfMemory;
use sa_typed::{Input, Program, Ranges};
use serde_json::{Map, Value};
use std::alloc::Global;

/// A span, whose begin is a number of ticks.
fn from_told(span: Told) -> (u64, i128, i128)
    ensures { result ≡ from_told span }
{
    (tick_of(span.from).unwrap_or(0), span.lo, span.hi)
}

fn all_from_told(alloc: Global, spans: &[Told]) -> Result<Vec<(u64, i128, i128)>, OutOfMemory>
    ensures { IfOk result (λ v. v.items ≡ map from_told spans.now) }
{
    let mut all = Vec::new(alloc);
    for span in spans {
        all.push(from_told(*span))?;
    }
    Ok(all)
}

/// One span with all numbers of the type.
fn whole_type(alloc: Global, input: &Input) -> Result<Vec<(u64, i128, i128)>, OutOfMemory>
    ensures { IfOk result (λ v. v.items ≡ whole_type input.now) }
{
    Ok(Vec::from_slice(alloc, &[(0, input.num.lo(), input.num.hi())])?)
}

/// The spans that a value tells, where it has the form of spans.
fn spans_told(
    alloc: Global,
    version: Version,
    value: &Value,
) -> Result<Vec<(u64, i128, i128)>, OutOfMemory>
    ensures { IfOk result (λ v. v.items ≡ map from_told (spans_told version (view value.now))) }
{
    match read_spans(alloc, version, value)? {
        None => Ok(Vec::new(alloc)),
        Some(spans) => all_from_told(alloc, &spans),
    }
}

/// What a value tells of an input, which has all numbers of its type where there is none.
fn spans_or(
    alloc: Global,
    version: Version,
    input: &Input,
    value: Option<&Value>,
) -> Result<Vec<(u64, i128, i128)>, OutOfMemory>
    ensures { IfOk result (λ v. v.items ≡ spans_or version input.now (option_map (λ v. view v.now) value.entry)) }
{
    match value {
        None => whole_type(alloc, input),
        Some(value) => spans_told(alloc, version, value),
    }
}

/// What a file tells of an input.
#[tactic(auto, unfolding(crate::specs::Answer::spans_for))]
fn spans_for(
    alloc: Global,
    version: Version,
    named: Option<&Map<String, Value>>,
    input: &Input,
) -> Result<Vec<(u64, i128, i128)>, OutOfMemory>
    ensures { IfOk result (λ v. v.items ≡ spans_for version (members_in named.entry) input.now) }
{
    let value = member(named, input.name.bytes());
    spans_or(alloc, version, input, value)
}

/// What a file tells of each input.
fn all_spans(
    alloc: Global,
    version: Version,
    named: Option<&Map<String, Value>>,
    inputs: &[Input],
) -> Result<Vec<Vec<(u64, i128, i128)>>, OutOfMemory>
    ensures { IfOk result (λ v. map (λ v. v.items) v.items ≡ map (spans_for version (members_in named.entry)) inputs.now) }
{
    let mut all = Vec::new(alloc);
    for input in inputs {
        all.push(spans_for(alloc, version, named, input)?)?;
    }
    Ok(all)
}

/// The ranges that a JSON value tells.
fn of_data(alloc: Global, file: &Value, program: &Program) -> Result<Ranges, RangesFault>
    ensures ok { IfOk result (λ r. of_data program.now.inputs (view file.now) ≡ Ok r) }
    ensures suits { IfOk result (λ r. AreOf r program.now) }
    ensures fault { IfErr result (IsFault (of_data program.now.inputs (view file.now))) }
{
    let Some(members) = file.as_object() else {
        return Err(RangesFault::Shape(1));
    };
    if !knows_all(members) {
        return Err(RangesFault::Shape(2));
    }
    let Some(version) = version(file) else {
        return Err(RangesFault::Shape(3));
    };
    let Some(max_clock) = last_clock(file) else {
        return Err(RangesFault::Shape(4));
    };
    let Some(named) = named(file) else {
        return Err(RangesFault::Shape(5));
    };
    let inputs = program.inputs.as_slice();
    check_names(alloc, version, &by_names(alloc, inputs)?, named)?;
    let spans = all_spans(alloc, version, named, inputs)?;
    Ok(Ranges::of(max_clock, spans))
}

/// The JSON value that the bytes are.
fn value_of(alloc: Global, bytes: &[u8]) -> Result<Value, RangesFault>
    ensures ok { IfOk result (λ v. value_of bytes.now ≡ Some (view v)) }
    ensures fault { IfErr result (IsNoValue bytes.now) }
{
    match Value::from_slice(alloc, bytes) {
        Ok(file) => Ok(file),
        Err(fault) => {
            if fault.is_memory() {
                Err(RangesFault::OutOfMemory)
            } else {
                Err(RangesFault::NotJson)
            }
        }
    }
}

/// The last clock, in ticks, and the ranges of the program's inputs that the bytes of a ranges file tell, or the first row of
/// the table of refusals that holds: the JSON value, the form of the file, and then, name by name in the order of their bytes,
/// the form of what is told of it, the name, its spans and their bounds. An input that isn't named has its type's range. Only
/// want of memory may come without such a cause.
pub fn read_ranges(alloc: Global, bytes: &[u8], program: &Program) -> Result<Ranges, RangesFault>
    ensures ok { IfOk result (λ r. ranges_of program.now bytes.now ≡ Ok r) }
    ensures suits { IfOk result (λ r. AreOf r program.now) }
    ensures fault { IfErr result (IsFault (ranges_of program.now bytes.now)) }
{
    let file = value_of(alloc, bytes)?;
    of_data(alloc, &file, program)
}
