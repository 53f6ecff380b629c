//! Tables made entry by entry.

ghost use Rattle.std.specs.Prelude.{◌≡◌, ◌≢◌, ℕ, ℤ, ◌+◌, ◌*◌, ◌/◌, ◌^◌, ◌<◌, ◌≤◌, ◌+ℤ◌, length, unsigned_abs, Some};
ghost use Rattle.sa_interval.specs.Span.{IsInterval};
ghost use Rattle.sa_dbm.specs.Bounds.{at_most};
ghost use Rattle.sa_dbm.specs.Tables.{bar, nodes, IsMatrix, IsWithin, top_table};
ghost use Rattle.sa_octagon.specs.Packs.{AreSmall, span_at, reach, reach_between};
ghost use Rattle.sa_octagon.specs.Filled.{lowered_to, at_place, AreEntries, IsFilled, IsEmpty, widened_entry, HoldsEntries};

use crate::reads::negated;
use sa_dbm::Matrix;
use sa_interval::Interval;

/// A row of places has as many as a matrix has nodes at most.
const ROW: usize = 16;

/// The other node of the same place.
fn other(node: usize) -> usize
    requires { node < 16 }
    ensures { result ≡ bar node }
{
    if node % 2 == 0 { node + 1 } else { node - 1 }
}

/// The greatest number of a node.
fn reach(spans: &[Interval], node: usize) -> i128
    requires node { node / 2 < length spans.now }
    requires small { AreSmall spans.now }
    ensures value { result ≡ reach spans.now node }
    ensures size { unsigned_abs result ≤ 2 ^ 64 }
{
    let span = spans[node / 2];
    if node % 2 == 0 {
        span.hi()
    } else {
        negated(span.lo())
    }
}

/// The bound of node `j` minus node `i` that follows of the spans.
fn reach_between(spans: &[Interval], i: usize, j: usize) -> i128
    requires few { length spans.now ≤ 8 }
    requires i { i < 2 * length spans.now }
    requires j { j < 2 * length spans.now }
    requires small { AreSmall spans.now }
    ensures value { Some result ≡ reach_between spans.now i j }
    ensures size { unsigned_abs result ≤ 2 ^ 65 }
{
    reach(spans, j) + reach(spans, other(i))
}

/// Lowers an entry and its twin to a bound, if there is one.
fn lower_to(matrix: &mut Matrix, i: usize, j: usize, bound: Option<i128>)
    requires row { i < nodes matrix.old }
    requires column { j < nodes matrix.old }
    requires apart { i ≢ j }
    requires within { IsWithin (2 ^ 100) matrix.old }
    requires bound { (z : ℤ) → bound ≡ Some z → unsigned_abs z ≤ 2 ^ 100 }
    ensures { matrix.new ≡ lowered_to matrix.old i j bound }
{
    if let Some(c) = bound {
        matrix.tighten(i, j, c);
    }
}

/// Lowers each entry of a matrix without bounds to the one that follows of the spans.
pub fn fill_top(matrix: &mut Matrix, spans: &[Interval])
    requires some { 1 ≤ length spans.now }
    requires few { length spans.now ≤ 8 }
    requires small { AreSmall spans.now }
    requires empty { matrix.old ≡ top_table (length spans.now) }
    ensures { IsFilled (2 * length spans.now) (reach_between spans.now) 256 matrix.new }
{
    let nodes = 2 * spans.len();
    for at in 0..ROW * ROW {
        let (i, j) = (at / ROW, at % ROW);
        if i < nodes && j < nodes && i != j {
            lower_to(matrix, i, j, Some(reach_between(spans, i, j)));
        }
    }
}

/// Reads each interval, so that what holds of each of them is known.
pub fn read_all(spans: &[Interval])
    ensures { (k : ℕ) → k < length spans.now → IsInterval (span_at spans.now k) }
{
    for k in 0..spans.len() {
        let _ = spans[k].lo();
    }
}

/// Reads a bound, so that it is known that twins are equal and that a node's bound on itself is 0.
pub fn read_one(matrix: &Matrix)
    requires { 1 ≤ matrix.now.vars }
    ensures { IsMatrix matrix.now }
{
    let _ = matrix.bound(0, 0);
}

/// Takes all bounds from a matrix.
pub fn forget_all(matrix: &mut Matrix, vars: usize)
    requires matrix { IsMatrix matrix.old }
    requires within { IsWithin (2 ^ 100) matrix.old }
    requires vars { vars ≡ matrix.old.vars }
    ensures vars { matrix.new.vars ≡ matrix.old.vars }
    ensures matrix { IsMatrix matrix.new }
    ensures within { IsWithin (2 ^ 100) matrix.new }
    ensures empty { IsEmpty matrix.new }
{
    for k in 0..vars {
        matrix.forget(k);
    }
}

/// Lowers each entry of a matrix of `count` nodes without bounds to that of a list, which has 16 places for each row.
pub fn fill(matrix: &mut Matrix, count: usize, entries: &[Option<i128>])
    requires few { count ≤ 16 }
    requires size { nodes matrix.old ≡ count }
    requires matrix { IsMatrix matrix.old }
    requires within { IsWithin (2 ^ 100) matrix.old }
    requires empty { IsEmpty matrix.old }
    requires whole { length entries.now ≡ 256 }
    requires entries { AreEntries count (at_place entries.now) }
    ensures { IsFilled count (at_place entries.now) 256 matrix.new }
{
    for at in 0..ROW * ROW {
        let (i, j) = (at / ROW, at % ROW);
        if i < count && j < count && i != j {
            lower_to(matrix, i, j, entries[at]);
        }
    }
}

/// Whether a bound is at most another one; `None` is no bound.
fn is_at_most(a: Option<i128>, b: Option<i128>) -> bool
    ensures { result ≡ at_most a b }
{
    match (a, b) {
        (_, None) => true,
        (None, Some(_)) => false,
        (Some(x), Some(y)) => x <= y,
    }
}

/// An entry after widening: where the new one exceeds it, it goes to that of the spans.
fn widened_entry(old: &Matrix, new: &Matrix, spans: &[Interval], i: usize, j: usize) -> Option<i128>
    requires few { length spans.now ≤ 8 }
    requires i { i < 2 * length spans.now }
    requires j { j < 2 * length spans.now }
    requires old { old.now.vars ≡ length spans.now }
    requires new { new.now.vars ≡ length spans.now }
    requires small { AreSmall spans.now }
    ensures value { result ≡ widened_entry old.now new.now spans.now i j }
{
    let was = old.bound(i, j);
    if is_at_most(new.bound(i, j), was) {
        was
    } else {
        Some(reach_between(spans, i, j))
    }
}

/// The entries after widening, with 16 places for each row.
pub fn widened_entries(old: &Matrix, new: &Matrix, spans: &[Interval]) -> [Option<i128>; 256]
    requires few { length spans.now ≤ 8 }
    requires old { old.now.vars ≡ length spans.now }
    requires new { new.now.vars ≡ length spans.now }
    requires small { AreSmall spans.now }
    ensures whole { length result ≡ 256 }
    ensures entries { HoldsEntries (2 * length spans.now) (widened_entry old.now new.now spans.now) 256 result }
{
    let nodes = 2 * spans.len();
    let mut entries = [None; ROW * ROW];
    for at in 0..ROW * ROW {
        let (i, j) = (at / ROW, at % ROW);
        if i < nodes && j < nodes && i != j {
            entries[at] = widened_entry(old, new, spans, i, j);
        }
    }
    entries
}
