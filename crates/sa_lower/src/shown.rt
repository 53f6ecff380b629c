//! Which cells a loop shows.

ghost use Rattle.std.specs.Prelude.{◌≡◌, ◌++◌, filter, slice_get, IfOk, OnOk};
ghost use Rattle.sa_ir.specs.Shown.{is_before, place_before, is_within};
ghost use Rattle.sa_lower.specs.Showing.{in_span, is_shown, some_if};

use crate::OutOfMemory;
use sa_base::Pos;
use sa_ir::Span;
use sqlite_items::Items;
use std::alloc::Global;
use std::collections::BTreeSet;

fn is_before(a: Pos, b: Pos) -> bool
    ensures { result ≡ is_before a b }
{
    a.line < b.line || (a.line == b.line && a.col < b.col)
}

/// Whether a cell is one of a global that is declared before a place.
fn is_declared(places: &[Pos], pos: Pos, cell: u32) -> bool
    ensures { result ≡ place_before pos (slice_get places.now cell) }
{
    match places.get(cell as usize) {
        None => false,
        Some(at) => is_before(*at, pos),
    }
}

#[tactic(auto, unfolding(crate::specs::Showing::in_span))]
fn in_span(span: Span, cell: u32) -> bool
    ensures { result ≡ in_span span cell }
{
    span.first <= cell && (cell as usize) < span.first as usize + span.cells as usize
}

/// Whether a cell is one of some variables.
fn is_within(scope: &[Span], cell: u32) -> bool
    ensures { result ≡ is_within scope.now cell }
{
    for span in scope {
        if in_span(*span, cell) {
            return true;
        }
    }
    false
}

#[tactic(auto, unfolding(crate::specs::Showing::is_shown))]
/// Whether the variable of a cell is in scope at a place, where the globals' cells have these places of declarations.
fn is_shown(places: &[Pos], scope: &[Span], pos: Pos, cell: u32) -> bool
    ensures { result ≡ is_shown places.now scope.now pos cell }
{
    is_declared(places, pos, cell) || is_within(scope, cell)
}

fn push_if(shows: bool, cell: u32, all: &mut Items<u32>) -> Result<(), OutOfMemory>
    ensures { OnOk result (all.new ≡ all.old ++ some_if shows cell) }
{
    if shows {
        all.push(cell)?;
    }
    Ok(())
}

/// Those cells of a list that are in scope.
fn in_scope(
    alloc: Global,
    places: &[Pos],
    scope: &[Span],
    pos: Pos,
    cells: &[u32],
) -> Result<Items<u32>, OutOfMemory>
    ensures { IfOk result (λ r. r ≡ filter (is_shown places.now scope.now pos) cells.now) }
{
    let mut all = Items::new(alloc);
    for cell in cells {
        let shows = is_shown(places, scope, pos, *cell);
        push_if(shows, *cell, &mut all)?;
    }
    Ok(all)
}

/// The cells that a loop shows whose word is at a place, of those that occur in it.
pub fn shown_cells(
    alloc: Global,
    places: &[Pos],
    scope: &[Span],
    pos: Pos,
    cells: BTreeSet<u32>,
) -> Result<Items<u32>, OutOfMemory>
    ensures { IfOk result (λ r. r ≡ filter (is_shown places.now scope.now pos) cells.keys) }
{
    let sorted: Vec<u32> = cells.into_iter().collect(alloc)?;
    in_scope(alloc, places, scope, pos, &sorted)
}
