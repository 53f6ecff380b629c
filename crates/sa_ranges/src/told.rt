//! What a file tells of an input.

ghost use Rattle.std.specs.Prelude.{◌≡◌, ◌∷◌, [], IfOk, option_map, option_and_then};
ghost use Rattle.serde_json.specs.View.{view, items_view};
ghost use Rattle.sa_ranges.specs.Told.{whole, range_in, span_of, span_in, spans_in, if_few, told_in, told};

use sa_base::OutOfMemory;
use serde_json::Value;
use std::alloc::Global;

/// The most spans that an input can have.
const MOST_SPANS: usize = 64;

/// From the tick `from` on, until the next span begins, an input lies in `lo` to `hi`.
#[derive(Clone, Copy, Debug, PartialEq, Eq)]
pub(crate) struct Told {
    pub(crate) from: i128,
    pub(crate) lo: i128,
    pub(crate) hi: i128,
}

/// The version of a file: an input has one range, or spans.
#[derive(Clone, Copy, Debug, PartialEq, Eq)]
pub(crate) enum Version {
    One,
    Two,
}

/// The whole number that a value is.
pub(crate) fn whole(value: &Value) -> Option<i128>
    ensures { result ≡ whole (view value.now) }
{
    value.as_number()?.as_i128()
}

/// `[lo, hi]`
#[tactic(auto, unfolding(crate::specs::Told::range_in))]
fn range_in(items: &[Value]) -> Option<Told>
    ensures { result ≡ range_in (items_view items.now) }
{
    match items {
        [lo, hi] => Some(Told {
            from: 0,
            lo: whole(lo)?,
            hi: whole(hi)?,
        }),
        _ => None,
    }
}

/// `[from, lo, hi]`
#[tactic(auto, unfolding(crate::specs::Told::span_in))]
fn span_in(items: &[Value]) -> Option<Told>
    ensures { result ≡ span_in (items_view items.now) }
{
    match items {
        [from, lo, hi] => Some(Told {
            from: whole(from)?,
            lo: whole(lo)?,
            hi: whole(hi)?,
        }),
        _ => None,
    }
}

fn span_of(value: &Value) -> Option<Told>
    ensures { result ≡ span_of (view value.now) }
{
    span_in(value.as_array()?)
}

/// The spans that these items are, where each of them is one.
fn spans_in(alloc: Global, items: &[Value]) -> Result<Option<Vec<Told>>, OutOfMemory>
    ensures { IfOk result (λ o. option_map (λ v. v.items) o ≡ spans_in (items_view items.now)) }
{
    let mut spans = Vec::new(alloc);
    for item in items {
        match span_of(item) {
            None => return Ok(None),
            Some(span) => spans.push(span)?,
        }
    }
    Ok(Some(spans))
}

fn one_span(alloc: Global, span: Option<Told>) -> Result<Option<Vec<Told>>, OutOfMemory>
    ensures { IfOk result (λ o. option_map (λ v. v.items) o ≡ option_map (λ s. s ∷ []) span) }
{
    match span {
        None => Ok(None),
        Some(span) => Ok(Some(Vec::from_slice(alloc, &[span])?)),
    }
}

/// The spans, where there are as many as there may be.
fn if_few(spans: Option<Vec<Told>>) -> Option<Vec<Told>>
    ensures { option_map (λ v. v.items) result ≡ option_and_then if_few (option_map (λ v. v.items) spans) }
{
    let spans = spans?;
    if 1 <= spans.len() && spans.len() <= MOST_SPANS {
        Some(spans)
    } else {
        None
    }
}

/// The spans that these items are.
fn told_in(
    alloc: Global,
    version: Version,
    items: &[Value],
) -> Result<Option<Vec<Told>>, OutOfMemory>
    ensures { IfOk result (λ o. option_map (λ v. v.items) o ≡ told_in version (items_view items.now)) }
{
    match version {
        Version::One => one_span(alloc, range_in(items)),
        Version::Two => Ok(if_few(spans_in(alloc, items)?)),
    }
}

/// The spans of a value, where it has the form that the version asks for.
#[tactic(auto, unfolding(crate::specs::Told::told))]
pub(crate) fn read_spans(
    alloc: Global,
    version: Version,
    value: &Value,
) -> Result<Option<Vec<Told>>, OutOfMemory>
    ensures { IfOk result (λ o. option_map (λ v. v.items) o ≡ told version (view value.now)) }
{
    match value.as_array() {
        None => Ok(None),
        Some(items) => told_in(alloc, version, items),
    }
}
