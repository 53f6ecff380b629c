//! Cells that are changed, in place.

ghost use Rattle.std.specs.Prelude.{◌≡◌, IfOk};
ghost use Rattle.sa_interval.specs.Rows.{join_of};
ghost use Rattle.sa_reference.specs.Values.{cell_span};
ghost use Rattle.sa_reference.specs.Assignments.{weakly};
ghost use Rattle.sa_reference.specs.Environments.{put};
ghost use Rattle.sa_transfer.specs.Lists.{starred_in, stored, assigned_by, spans_at, copied_by};

use crate::OutOfMemory;
use crate::values::cell_span;
use sa_interval::Interval;
use sqlite_items::Items;
use std::alloc::Global;

/// Sets one cell; a cell that isn't there isn't set.
fn set(spans: &mut Items<Interval>, k: usize, s: Interval)
    ensures { spans.new ≡ put k s spans.old }
{
    if k < spans.len() {
        spans.set(k, s);
    }
}

/// Whether a cell stands for several elements. One that isn't there does.
fn is_starred(starred: &[bool], k: usize) -> bool
    ensures { result ≡ starred_in starred.now k }
{
    match starred.get(k) {
        None => true,
        Some(starred) => *starred,
    }
}

/// What a cell is after an interval is assigned to it: a cell for several elements keeps what it may have been.
#[tactic(auto, unfolding(crate::specs::Lists::stored))]
fn stored(starred: &[bool], spans: &[Interval], k: usize, s: Interval) -> Interval
    ensures { result ≡ stored starred.now k s spans.now }
{
    if is_starred(starred, k) {
        cell_span(spans, k).join(s)
    } else {
        s
    }
}

/// Assigns an interval to one cell.
fn store(starred: &[bool], spans: &mut Items<Interval>, k: usize, s: Interval)
    ensures { spans.new ≡ put k (stored starred.now k s spans.old) spans.old }
{
    let s = stored(starred, spans.as_slice(), k, s);
    set(spans, k, s);
}

/// Joins an interval to a cell.
fn join(spans: &mut Items<Interval>, k: usize, s: Interval)
    ensures { spans.new ≡ put k (join_of (cell_span spans.old k) s) spans.old }
{
    let s = cell_span(spans.as_slice(), k).join(s);
    set(spans, k, s);
}

/// Joins an interval to each of the cells, of which one is assigned.
#[tactic(auto, using(crate::proofs::StoreLaws::of_joins))]
fn join_all(spans: &mut Items<Interval>, ks: &[usize], s: Interval)
    ensures { spans.new ≡ weakly ks.now s spans.old }
{
    for k in ks {
        join(spans, *k, s);
    }
}

/// Assigns an interval to that of the cells which an access leads to. It may lead to each of them.
#[tactic(auto, unfolding(crate::specs::Lists::assigned_by))]
pub fn assign_by(starred: &[bool], spans: &mut Items<Interval>, ks: &[usize], s: Interval)
    ensures { spans.new ≡ assigned_by starred.now ks.now s spans.old }
{
    if let [k] = ks {
        store(starred, spans, *k, s);
    } else {
        join_all(spans, ks, s);
    }
}

/// The intervals of the cells.
#[tactic(auto, using(crate::proofs::StoreLaws::of_spans))]
pub fn spans_at(
    alloc: Global,
    spans: &[Interval],
    ks: &[usize],
) -> Result<Vec<Interval>, OutOfMemory>
    ensures { IfOk result (λ all. all.items ≡ spans_at spans.now ks.now) }
{
    let mut all = Vec::new(alloc);
    for k in ks {
        all.push(cell_span(spans, *k))?;
    }
    Ok(all)
}

/// Assigns to each of the cells its own interval.
pub fn copy_by(starred: &[bool], spans: &mut Items<Interval>, ks: &[usize], new: &[Interval])
    ensures { spans.new ≡ copied_by starred.now ks.now new.now spans.old }
{
    let count = ks.len().min(new.len());
    for i in 0..count {
        store(starred, spans, ks[i], new[i]);
    }
}
