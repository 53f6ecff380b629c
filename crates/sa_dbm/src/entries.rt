//! Changes of stored bounds, place by place.

ghost use Rattle.std.specs.Prelude.{◌≡◌, ◌≢◌, ℕ, ◌+◌, ◌*◌, ◌<◌, ◌≤◌, length, false, MatchBool};
ghost use Rattle.sa_dbm.specs.Bounds.{plus, lesser, greater, at_most, AtMost};
ghost use Rattle.sa_dbm.specs.Stored.{shown, shown_at, IsSummable};
ghost use Rattle.sa_dbm.specs.Walks.{at_once};

use crate::stored::{NO_BOUND, sum};

/// Leaves no bounds but 0 of each node on itself.
pub fn clear(bounds: &mut [i128], nodes: usize)
    requires square { length bounds.old ≡ nodes * nodes }
    requires few { nodes ≤ 16 }
    ensures { (i j : ℕ) → i < nodes → j < nodes → shown_at bounds.new (i * nodes + j) ≡ at_once i j }
{
    for i in 0..bounds.len() {
        bounds[i] = NO_BOUND;
    }
    for i in 0..nodes {
        bounds[i * nodes + i] = 0;
    }
}

/// Lowers the bound at a place.
pub fn lower_at(bounds: &mut [i128], at: usize, c: i128)
    requires { at < length bounds.old }
    ensures here { shown_at bounds.new at ≡ lesser (shown_at bounds.old at) (shown c) }
    ensures others { (p : ℕ) → p ≢ at → shown_at bounds.new p ≡ shown_at bounds.old p }
{
    bounds[at] = bounds[at].min(c);
}

/// Adds to the bound at a place.
fn add_at(bounds: &mut [i128], at: usize, by: i128)
    requires inside { at < length bounds.old }
    requires bound { IsSummable (shown_at bounds.old at) }
    requires by { IsSummable (shown by) }
    ensures here { shown_at bounds.new at ≡ plus (shown_at bounds.old at) (shown by) }
    ensures others { (p : ℕ) → p ≢ at → shown_at bounds.new p ≡ shown_at bounds.old p }
{
    bounds[at] = sum(bounds[at], by);
}

/// Raises each bound to the other one at its place.
pub fn raise(bounds: &mut [i128], others: &[i128])
    requires { length bounds.old ≡ length others.now }
    ensures { (p : ℕ) → p < length bounds.old → shown_at bounds.new p ≡ greater (shown_at bounds.old p) (shown_at others.now p) }
{
    for i in 0..bounds.len() {
        bounds[i] = bounds[i].max(others[i]);
    }
}

/// Adds `row` to each bound (node, i) and `column` to each bound (i, node), for the other nodes i.
pub fn add_at_node(bounds: &mut [i128], nodes: usize, node: usize, row: i128, column: i128)
    requires square { length bounds.old ≡ nodes * nodes }
    requires few { nodes ≤ 16 }
    requires node { node < nodes }
    requires row { IsSummable (shown row) }
    requires column { IsSummable (shown column) }
    requires summable { (i j : ℕ) → i < nodes → j < nodes → IsSummable (shown_at bounds.old (i * nodes + j)) }
    ensures row { (i : ℕ) → i < nodes → i ≢ node →
        shown_at bounds.new (node * nodes + i) ≡ plus (shown_at bounds.old (node * nodes + i)) (shown row) }
    ensures column { (i : ℕ) → i < nodes → i ≢ node →
        shown_at bounds.new (i * nodes + node) ≡ plus (shown_at bounds.old (i * nodes + node)) (shown column) }
    ensures others { (i j : ℕ) → i < nodes → j < nodes → (i ≡ node → j ≡ node) → (j ≡ node → i ≡ node) →
        shown_at bounds.new (i * nodes + j) ≡ shown_at bounds.old (i * nodes + j) }
{
    for i in 0..nodes {
        if i != node {
            add_at(bounds, node * nodes + i, row);
            add_at(bounds, i * nodes + node, column);
        }
    }
}

/// Whether each bound is at most the other one at its place.
pub fn all_at_most(bounds: &[i128], others: &[i128]) -> bool
    requires { length bounds.now ≡ length others.now }
    ensures { MatchBool result
        ((p : ℕ) → p < length bounds.now → AtMost (shown_at bounds.now p) (shown_at others.now p))
        ((p : ℕ) × (p < length bounds.now) × (at_most (shown_at bounds.now p) (shown_at others.now p) ≡ false)) }
{
    for (bound, other) in bounds.iter().zip(others) {
        if other < bound {
            return false;
        }
    }
    true
}
