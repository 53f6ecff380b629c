ghost use Rattle.std.specs.Prelude.{◌≡◌, ◌≢◌, ℕ, ◌+◌, ◌*◌, ◌^◌, ◌<◌, ◌≤◌, length, not, IsTrue, true, MatchBool, Some, unsigned_abs};
ghost use Rattle.sa_dbm.specs.Bounds.{plus, lesser, half, is_negative, IsFlat};
ghost use Rattle.sa_dbm.specs.Tables.{bar, IsMatrix, IsWithin, tightened};
ghost use Rattle.sa_dbm.specs.Closed.{shortest, has_negative_walk, rounded, has_contradiction, strengthened, ClosesTo, IsClosed, LeavesTop};
ghost use Rattle.sa_dbm.specs.Stored.{shown, shown_at, stored, IsSmall, IsSummable};

use crate::entries::lower_at;
use crate::node::bar;
use crate::operations::make_top;
use crate::stored::{NO_BOUND, half, is_negative, sum};

/// What a closure finds.
#[derive(Clone, Copy, Debug, PartialEq, Eq)]
pub enum Closing {
    /// No point lies in the matrix.
    Empty,
    /// The matrix is now its closed form.
    Closed,
}

/// Lowers each bound of a row to the sum of `by` and the other bound at its place, where that is lower.
fn lower_row(row: &mut [i128], by: i128, others: &[i128])
    requires room { length row.old ≤ length others.now }
    requires by { IsSummable (shown by) }
    requires others { (i : ℕ) → i < length row.old → IsSummable (shown_at others.now i) }
    ensures { (i : ℕ) → i < length row.old →
        shown_at row.new i ≡ lesser (shown_at row.old i) (plus (shown by) (shown_at others.now i)) }
{
    for i in 0..row.len() {
        lower_at(row, i, sum(by, others[i]));
    }
}

/// Lowers each bound (i, j) to the sum of `first[i]` and `second[j]`, where that is lower.
fn lower(bounds: &mut [i128], nodes: usize, first: &[i128], second: &[i128])
    requires square { length bounds.old ≡ nodes * nodes }
    requires few { nodes ≤ 16 }
    requires rows { nodes ≤ length first.now }
    requires columns { nodes ≤ length second.now }
    requires first { (i : ℕ) → i < nodes → IsSummable (shown_at first.now i) }
    requires second { (i : ℕ) → i < nodes → IsSummable (shown_at second.now i) }
    ensures { (i j : ℕ) → i < nodes → j < nodes →
        shown_at bounds.new (i * nodes + j)
        ≡ lesser (shown_at bounds.old (i * nodes + j)) (plus (shown_at first.now i) (shown_at second.now j)) }
{
    for i in 0..nodes {
        lower_row(&mut bounds[i * nodes..i * nodes + nodes], first[i], second);
    }
}

/// As many nodes as a matrix has at most.
const MOST: usize = 16;

/// The bounds of each node to a pivot, and of the pivot to each node; for nodes past the last there is none.
#[derive(Clone, Copy)]
struct Ways {
    to: [i128; MOST],
    from: [i128; MOST],
}

fn ways_by(bounds: &[i128], nodes: usize, pivot: usize) -> Ways
    requires square { length bounds.now ≡ nodes * nodes }
    requires few { nodes ≤ 16 }
    requires node { pivot < nodes }
    ensures to { (i : ℕ) → i < nodes → shown_at result.to i ≡ shown_at bounds.now (i * nodes + pivot) }
    ensures from { (i : ℕ) → i < nodes → shown_at result.from i ≡ shown_at bounds.now (pivot * nodes + i) }
{
    let mut to = [NO_BOUND; MOST];
    let mut from = [NO_BOUND; MOST];
    for i in 0..nodes {
        to[i] = bounds[i * nodes + pivot];
        from[i] = bounds[pivot * nodes + i];
    }
    Ways { to, from }
}

/// Whether no bound of a node on itself is negative.
fn is_flat(bounds: &[i128], nodes: usize) -> bool
    requires square { length bounds.now ≡ nodes * nodes }
    requires few { nodes ≤ 16 }
    ensures { MatchBool result
        ((i : ℕ) → i < nodes → IsFlat (shown_at bounds.now (i * nodes + i)))
        ((i : ℕ) × (i < nodes) × (is_negative (shown_at bounds.now (i * nodes + i)) ≡ true)) }
{
    for i in 0..nodes {
        if is_negative(bounds[i * nodes + i]) {
            return false;
        }
    }
    true
}

/// Lowers each bound (i, j) to the sum of (i, pivot) and (pivot, j), where that is lower.
fn lower_by_pivot(bounds: &mut [i128], nodes: usize, pivot: usize)
    requires square { length bounds.old ≡ nodes * nodes }
    requires few { nodes ≤ 16 }
    requires node { pivot < nodes }
    requires summable { (i j : ℕ) → i < nodes → j < nodes → IsSummable (shown_at bounds.old (i * nodes + j)) }
    ensures { (i j : ℕ) → i < nodes → j < nodes →
        shown_at bounds.new (i * nodes + j)
        ≡ lesser (shown_at bounds.old (i * nodes + j))
        (plus (shown_at bounds.old (i * nodes + pivot)) (shown_at bounds.old (pivot * nodes + j))) }
{
    let ways = ways_by(bounds, nodes, pivot);
    lower(bounds, nodes, &ways.to, &ways.from);
}

/// Makes each bound the least total over walks, by taking each node in turn as a pivot (R. W. Floyd, Algorithm
/// 97: Shortest path, 1962). It stops with `false` where a walk from a node back to itself has a negative total.
fn shorten(bounds: &mut [i128], vars: usize) -> bool
    requires few { vars ≤ 8 }
    requires square { length bounds.old ≡ 2 * vars * (2 * vars) }
    requires matrix { IsMatrix (stored vars bounds.old) }
    requires within { IsWithin (2 ^ 100) (stored vars bounds.old) }
    ensures answer { result ≡ not (has_negative_walk (shortest (stored vars bounds.old))) }
    ensures walks { IsTrue result → stored vars bounds.new ≡ shortest (stored vars bounds.old) }
{
    let nodes = 2 * vars;
    for pivot in 0..nodes {
        if is_negative(bounds[pivot * nodes + pivot]) {
            return false;
        }
        lower_by_pivot(bounds, nodes, pivot);
    }
    is_flat(bounds, nodes)
}

/// Half of each bound on a node alone, rounded down: from (i, bar i) at `to[i]`, from (bar i, i) at `from[i]`.
fn halves(bounds: &[i128], nodes: usize) -> Ways
    requires square { length bounds.now ≡ nodes * nodes }
    requires few { nodes ≤ 16 }
    requires pairs { (i : ℕ) → i < nodes → bar i < nodes }
    ensures to { (i : ℕ) → i < nodes → shown_at result.to i ≡ half (shown_at bounds.now (i * nodes + bar i)) }
    ensures from { (i : ℕ) → i < nodes → shown_at result.from i ≡ half (shown_at bounds.now (bar i * nodes + i)) }
{
    let mut to = [NO_BOUND; MOST];
    let mut from = [NO_BOUND; MOST];
    for i in 0..nodes {
        let other = bar(i);
        to[i] = half(bounds[i * nodes + other]);
        from[i] = half(bounds[other * nodes + i]);
    }
    Ways { to, from }
}

/// Whether the halves of two opposite bounds have a negative sum: no number meets both.
fn contradict(first: &[i128], second: &[i128], nodes: usize) -> bool
    requires few { nodes ≤ 16 }
    requires rows { nodes ≤ length first.now }
    requires columns { nodes ≤ length second.now }
    requires first { (i : ℕ) → i < nodes → IsSummable (shown_at first.now i) }
    requires second { (i : ℕ) → i < nodes → IsSummable (shown_at second.now i) }
    ensures { MatchBool result
        ((i : ℕ) × (i < nodes) × (is_negative (plus (shown_at first.now i) (shown_at second.now i)) ≡ true))
        ((i : ℕ) → i < nodes → IsFlat (plus (shown_at first.now i) (shown_at second.now i))) }
{
    for i in 0..nodes {
        if is_negative(sum(first[i], second[i])) {
            return true;
        }
    }
    false
}

/// Rounds and strengthens least totals. It stops with `false` where two opposite bounds contradict each other.
///
/// An entry (i, bar i) is lowered to twice its half, which is the even number that it is rounded down to.
fn strengthen(bounds: &mut [i128], vars: usize) -> bool
    requires few { vars ≤ 8 }
    requires square { length bounds.old ≡ 2 * vars * (2 * vars) }
    requires within { IsWithin (2 ^ 104) (stored vars bounds.old) }
    ensures answer { result ≡ not (has_contradiction (rounded (stored vars bounds.old))) }
    ensures bounds { IsTrue result → stored vars bounds.new ≡ strengthened (rounded (stored vars bounds.old)) }
{
    let nodes = 2 * vars;
    let halves = halves(bounds, nodes);
    if contradict(&halves.to, &halves.from, nodes) {
        return false;
    }
    lower(bounds, nodes, &halves.to, &halves.from);
    true
}

/// Makes a stored matrix its closed form. One without points is left without bounds.
pub fn close(bounds: &mut [i128], vars: usize) -> Closing
    requires few { vars ≤ 8 }
    requires square { length bounds.old ≡ 2 * vars * (2 * vars) }
    requires matrix { IsMatrix (stored vars bounds.old) }
    requires within { IsWithin (2 ^ 100) (stored vars bounds.old) }
    ensures exact { ClosesTo (stored vars bounds.old) result (stored vars bounds.new) }
    ensures empty { LeavesTop result vars (stored vars bounds.new) }
    ensures matrix { IsMatrix (stored vars bounds.new) }
{
    if shorten(bounds, vars) && strengthen(bounds, vars) {
        Closing::Closed
    } else {
        make_top(bounds, vars);
        Closing::Empty
    }
}

/// The ways over an arc of length `c`: from each node to its beginning and over it, and from its end to each node; for
/// nodes past the last there is none.
fn ways_over(bounds: &[i128], nodes: usize, from: usize, to: usize, c: i128) -> Ways
    requires square { length bounds.now ≡ nodes * nodes }
    requires few { nodes ≤ 16 }
    requires from { from < nodes }
    requires to { to < nodes }
    requires c { unsigned_abs c ≤ 2 ^ 100 }
    requires small { (p q : ℕ) → p < nodes → q < nodes → IsSmall (shown_at bounds.now (p * nodes + q)) }
    ensures to { (i : ℕ) → i < nodes → shown_at result.to i ≡ plus (shown_at bounds.now (i * nodes + from)) (Some c) }
    ensures from { (i : ℕ) → i < nodes → shown_at result.from i ≡ shown_at bounds.now (to * nodes + i) }
{
    let mut over = [NO_BOUND; MOST];
    let mut on = [NO_BOUND; MOST];
    for i in 0..nodes {
        over[i] = sum(bounds[i * nodes + from], c);
        on[i] = bounds[to * nodes + i];
    }
    Ways { to: over, from: on }
}

/// Lowers each bound to the way over a new arc of length `c`, where that is lower. It stops with `false` where the arc and
/// the way back have a negative total.
fn add_arc(bounds: &mut [i128], nodes: usize, from: usize, to: usize, c: i128) -> bool
    requires square { length bounds.old ≡ nodes * nodes }
    requires few { nodes ≤ 16 }
    requires from { from < nodes }
    requires to { to < nodes }
    requires c { unsigned_abs c ≤ 2 ^ 100 }
    requires small { (p q : ℕ) → p < nodes → q < nodes → IsSmall (shown_at bounds.old (p * nodes + q)) }
    ensures answer { result ≡ not (is_negative (plus (Some c) (shown_at bounds.old (to * nodes + from)))) }
    ensures bounds { IsTrue result → (p q : ℕ) → p < nodes → q < nodes →
        shown_at bounds.new (p * nodes + q)
        ≡ lesser (shown_at bounds.old (p * nodes + q))
        (plus (plus (shown_at bounds.old (p * nodes + from)) (Some c)) (shown_at bounds.old (to * nodes + q))) }
{
    if is_negative(sum(c, bounds[to * nodes + from])) {
        return false;
    }
    let ways = ways_over(bounds, nodes, from, to, c);
    lower(bounds, nodes, &ways.to, &ways.from);
    true
}

/// Makes each bound of a closed matrix the least total over walks where entry (i, j) and its twin are lowered to `c`: such
/// walks take at most one way over each of the two arcs (A. Chawdhary, E. Robbins and A. King, Incrementally closing
/// octagons, 2018). It stops with `false` where a walk from a node back to itself has a negative total.
fn add_arcs(bounds: &mut [i128], vars: usize, i: usize, j: usize, c: i128) -> bool
    requires few { vars ≤ 8 }
    requires square { length bounds.old ≡ 2 * vars * (2 * vars) }
    requires matrix { IsMatrix (stored vars bounds.old) }
    requires closed { IsClosed (stored vars bounds.old) }
    requires within { IsWithin (2 ^ 100) (stored vars bounds.old) }
    requires row { i < 2 * vars }
    requires column { j < 2 * vars }
    requires apart { i ≢ j }
    requires c { unsigned_abs c ≤ 2 ^ 100 }
    ensures answer { result ≡ not (has_negative_walk (shortest (tightened (stored vars bounds.old) i j c))) }
    ensures walks { IsTrue result → stored vars bounds.new ≡ shortest (tightened (stored vars bounds.old) i j c) }
{
    let nodes = 2 * vars;
    let (first, second) = (bar(j), bar(i));
    if !add_arc(bounds, nodes, i, j, c) {
        return false;
    }
    add_arc(bounds, nodes, first, second, c)
}

/// Makes a closed matrix with entry (i, j) and its twin lowered to `c` its closed form again.
pub fn close_after(bounds: &mut [i128], vars: usize, i: usize, j: usize, c: i128) -> Closing
    requires few { vars ≤ 8 }
    requires square { length bounds.old ≡ 2 * vars * (2 * vars) }
    requires matrix { IsMatrix (stored vars bounds.old) }
    requires closed { IsClosed (stored vars bounds.old) }
    requires within { IsWithin (2 ^ 100) (stored vars bounds.old) }
    requires row { i < 2 * vars }
    requires column { j < 2 * vars }
    requires apart { i ≢ j }
    requires c { unsigned_abs c ≤ 2 ^ 100 }
    ensures exact { ClosesTo (tightened (stored vars bounds.old) i j c) result (stored vars bounds.new) }
    ensures empty { LeavesTop result vars (stored vars bounds.new) }
    ensures matrix { IsMatrix (stored vars bounds.new) }
{
    if add_arcs(bounds, vars, i, j, c) && strengthen(bounds, vars) {
        Closing::Closed
    } else {
        make_top(bounds, vars);
        Closing::Empty
    }
}
