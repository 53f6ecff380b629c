//! Operations on stored tables.

ghost use Rattle.std.specs.Prelude.{◌≡◌, ◌≢◌, ℕ, ◌*◌, ◌^◌, ◌<◌, ◌≤◌, length, unsigned_abs};
ghost use Rattle.sa_dbm.specs.Tables.{IsWithin, top_table, tightened, forgotten, shifted};
ghost use Rattle.sa_dbm.specs.Stored.{stored};

use crate::entries::{add_at_node, clear, lower_at};
use crate::node::bar;
use crate::stored::NO_BOUND;

/// Leaves no bounds.
pub fn make_top(bounds: &mut [i128], vars: usize)
    requires few { vars ≤ 8 }
    requires square { length bounds.old ≡ 2 * vars * (2 * vars) }
    ensures { stored vars bounds.new ≡ top_table vars }
{
    clear(bounds, 2 * vars);
}

/// Lowers entry (i, j) and its twin to `c`, where that is lower.
pub fn tighten(bounds: &mut [i128], vars: usize, i: usize, j: usize, c: i128)
    requires few { vars ≤ 8 }
    requires square { length bounds.old ≡ 2 * vars * (2 * vars) }
    requires row { i < 2 * vars }
    requires column { j < 2 * vars }
    requires c { unsigned_abs c ≤ 2 ^ 100 }
    ensures { stored vars bounds.new ≡ tightened (stored vars bounds.old) i j c }
{
    let nodes = 2 * vars;
    lower_at(bounds, i * nodes + j, c);
    lower_at(bounds, bar(j) * nodes + bar(i), c);
}

/// Takes all bounds from one variable, but those of its nodes on themselves.
pub fn forget(bounds: &mut [i128], vars: usize, var: usize)
    requires few { vars ≤ 8 }
    requires square { length bounds.old ≡ 2 * vars * (2 * vars) }
    requires var { var < vars }
    requires within { IsWithin (2 ^ 100) (stored vars bounds.old) }
    ensures { stored vars bounds.new ≡ forgotten (stored vars bounds.old) var }
{
    let nodes = 2 * vars;
    add_at_node(bounds, nodes, 2 * var, NO_BOUND, NO_BOUND);
    add_at_node(bounds, nodes, 2 * var + 1, NO_BOUND, NO_BOUND);
}

/// Moves each entry as its difference moves when `c` is added to one variable.
pub fn shift(bounds: &mut [i128], vars: usize, var: usize, c: i128)
    requires few { vars ≤ 8 }
    requires square { length bounds.old ≡ 2 * vars * (2 * vars) }
    requires var { var < vars }
    requires within { IsWithin (2 ^ 100) (stored vars bounds.old) }
    requires c { unsigned_abs c ≤ 2 ^ 100 }
    ensures { stored vars bounds.new ≡ shifted (stored vars bounds.old) var c }
{
    let nodes = 2 * vars;
    add_at_node(bounds, nodes, 2 * var, -c, c);
    add_at_node(bounds, nodes, 2 * var + 1, c, -c);
}
