//! The rows of a table that speak of names.

ghost use Rattle.std.specs.Prelude.{◌≡◌, IfErr, OnOk, None, true, IsTrue};
ghost use Rattle.serde_json.specs.View.{view};
ghost use Rattle.sa_ranges.specs.Keys.{members_in};
ghost use Rattle.sa_ranges.specs.Inputs.{range_in_map};
ghost use Rattle.sa_ranges.specs.Table.{follows, rise, begin_well, is_in, span_fits, all_fit, name_row, name_rows, first, Tells};

use crate::fault::RangesFault;
use crate::inputs::{Allowed, allowed_in};
use crate::told::{Told, Version, read_spans};
use sa_base::Text;
use serde_json::{Map, Value};
use std::alloc::Global;
use std::collections::BTreeMap;

/// The greatest last clock.
pub(crate) const GREATEST_CLOCK: i128 = 1 << 62;

/// Whether a span begins after the one before, and not beyond the greatest last clock.
#[tactic(auto, unfolding(crate::specs::Table::follows))]
fn follows(before: Told, span: Told) -> bool
    ensures { result ≡ follows before span }
{
    before.from < span.from && span.from <= GREATEST_CLOCK
}

/// Whether each span begins after the one before.
fn rise(before: Told, spans: &[Told]) -> bool
    ensures { result ≡ rise before spans.now }
{
    let mut last = before;
    for span in spans {
        if !follows(last, *span) {
            return false;
        }
        last = *span;
    }
    true
}

/// Whether the spans begin at 0 and rise.
#[tactic(auto, unfolding(crate::specs::Table::begin_well))]
fn begin_well(spans: &[Told]) -> bool
    ensures { result ≡ begin_well spans.now }
{
    match spans {
        [] => false,
        [first, rest @ ..] => first.from == 0 && rise(*first, rest),
    }
}

fn is_in(allowed: Allowed, value: i128) -> bool
    ensures { result ≡ is_in allowed value }
{
    allowed.lo <= value && value <= allowed.hi
}

/// Whether a span isn't empty and both of its ends are numbers that the input can be.
#[tactic(auto, unfolding(crate::specs::Table::span_fits))]
fn span_fits(allowed: Allowed, span: Told) -> bool
    ensures { result ≡ span_fits allowed span }
{
    span.lo <= span.hi && is_in(allowed, span.lo) && is_in(allowed, span.hi)
}

/// Whether all spans fit.
fn all_fit(allowed: Allowed, spans: &[Told]) -> bool
    ensures { result ≡ all_fit allowed spans.now }
{
    for span in spans {
        if !span_fits(allowed, *span) {
            return false;
        }
    }
    true
}

/// Errs by the first row of a name that holds.
fn check_name(
    alloc: Global,
    version: Version,
    allowed: Option<Allowed>,
    name: &[u8],
    value: &Value,
) -> Result<(), RangesFault>
    ensures ok { OnOk result (first (name_row version allowed name.now (view value.now)) ≡ None) }
    ensures fault { IfErr result (Tells (name_row version allowed name.now (view value.now))) }
{
    let Some(spans) = read_spans(alloc, version, value)? else {
        return Err(RangesFault::Shape(6));
    };
    let Some(allowed) = allowed else {
        return Err(RangesFault::Name(Text::of_bytes(alloc, name)?));
    };
    if !begin_well(&spans) {
        return Err(RangesFault::Spans(Text::of_bytes(alloc, name)?));
    }
    if !all_fit(allowed, &spans) {
        return Err(RangesFault::Bounds(Text::of_bytes(alloc, name)?));
    }
    Ok(())
}

/// Errs by the first row of the first name that holds.
pub(crate) fn check_names(
    alloc: Global,
    version: Version,
    by_names: &BTreeMap<&[u8], Allowed>,
    named: Option<&Map<String, Value>>,
) -> Result<(), RangesFault>
    ensures ok { OnOk result (first (name_rows version (range_in_map by_names.now) (members_in named.entry)) ≡ None) }
    ensures fault { IfErr result (Tells (name_rows version (range_in_map by_names.now) (members_in named.entry))) }
{
    let Some(named) = named else {
        return Ok(());
    };
    for (name, value) in named.iter() {
        let name = name.as_bytes();
        check_name(alloc, version, allowed_in(by_names, name), name, value)?;
    }
    Ok(())
}
