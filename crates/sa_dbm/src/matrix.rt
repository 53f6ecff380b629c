ghost use Rattle.std.specs.Prelude.{◌≡◌, ◌≢◌, ℕ, ℤ, ◌+◌, ◌*◌, ◌^◌, ◌<◌, ◌≤◌, ◌≤ℤ◌, ◌-ℤ◌, ◌↔◌, ◌⊎◌, IfOk, IsTrue, unsigned_abs};
ghost use Rattle.sa_dbm.specs.Tables.{nodes, entry, IsMatrix, IsWithin, IsBelow, top_table, tightened, joined, is_below, forgotten, shifted};
ghost use Rattle.sa_dbm.specs.Walks.{walks, IsLeastTotal};
ghost use Rattle.sa_dbm.specs.Points.{Point, value, moved, with_value, LiesIn};
ghost use Rattle.sa_dbm.specs.Closed.{ClosesTo, KeepsPoints, IsClosed, LeavesClosed, LeavesTight, KeepsLimits};

use crate::closing::{self, Closing};
use crate::stored::NO_BOUND;
use crate::{OutOfMemory, entries, operations};
use std::alloc::Global;
use std::marker::Model;

/// An octagon: bounds on the differences of the nodes of 1 to 8 variables.
///
/// Variable k has node 2k for its value and node 2k + 1 for its negation. Entry (i, j) bounds node j minus node
/// i from above (A. Miné, The octagon abstract domain, 2006). Contracts see the number of variables and the
/// table of bounds, row by row.
#[derive(Debug, Drop)]
pub struct Matrix {
    vars: usize,
    bounds: Vec<i128>,
}

impl Model for Matrix {
    ghost use Rattle.sa_dbm.specs.Tables.{Table};
    ghost use Rattle.sa_dbm.specs.Stored.{stored, IsStored};

    ghost Value = { Table };

    ghost view = { λ m. stored m.vars m.bounds.items };

    ghost invariant = { λ m. IsStored m.vars m.bounds.items };
}

impl Matrix {
    /// The matrix of that many variables in which every point lies.
    pub fn top(alloc: Global, vars: usize) -> Result<Matrix, OutOfMemory>
        requires some { 1 ≤ vars }
        requires few { vars ≤ 8 }
        ensures value { IfOk result (λ m. m ≡ top_table vars) }
        ensures vars { IfOk result (λ m. m.vars ≡ vars) }
        ensures within { IfOk result (λ m. (limit : ℕ) → IsWithin limit m) }
    {
        let nodes = 2 * vars;
        let mut bounds = vec![in alloc; NO_BOUND; nodes * nodes]?;
        operations::make_top(&mut bounds, vars);
        Ok(Matrix { vars, bounds })
    }

    /// An equal matrix.
    pub fn copy(&self, alloc: Global) -> Result<Matrix, OutOfMemory>
        ensures { IfOk result (λ m. m ≡ self.now) }
    {
        Ok(Matrix {
            vars: self.vars,
            bounds: Vec::from_slice(alloc, &self.bounds)?,
        })
    }

    /// The bound of node `j` minus node `i`; `None` where there is none.
    pub fn bound(&self, i: usize, j: usize) -> Option<i128>
        requires row { i < nodes self.now }
        requires column { j < nodes self.now }
        ensures value { result ≡ entry self.now i j }
        ensures matrix { IsMatrix self.now }
    {
        let bound = self.bounds[i * (2 * self.vars) + j];
        if bound < NO_BOUND { Some(bound) } else { None }
    }

    /// Bounds node `j` minus node `i` by `c`: lowers the entry and its twin where `c` is lower.
    pub fn tighten(&mut self, i: usize, j: usize, c: i128)
        requires row { i < nodes self.old }
        requires column { j < nodes self.old }
        requires apart { i ≢ j }
        requires within { IsWithin (2 ^ 100) self.old }
        requires c { unsigned_abs c ≤ 2 ^ 100 }
        ensures value { self.new ≡ tightened self.old i j c }
        ensures vars { self.new.vars ≡ self.old.vars }
        ensures within { (limit : ℕ) → IsWithin limit self.old → unsigned_abs c ≤ limit → IsWithin limit self.new }

        // exactly the points stay that meet the bound
        ensures points { (p : Point) → LiesIn p self.new ↔ (LiesIn p self.old × ((value p j -ℤ value p i) ≤ℤ c)) }
    {
        operations::tighten(&mut self.bounds, self.vars, i, j, c);
    }

    /// Makes the matrix its closed form, or finds that no point lies in it.
    ///
    /// After `Empty` the matrix is of no further use: it then has no bounds.
    pub fn close(&mut self) -> Closing
        requires { IsWithin (2 ^ 100) self.old }
        ensures exact { ClosesTo self.old result self.new }

        // the totals that the closed form is made of are the least ones over walks of at most 16 arcs
        ensures walks { (i j : ℕ) → i < nodes self.old → j < nodes self.old → IsLeastTotal self.old 16 i j (entry (walks self.old 16) i j) }
        ensures points { KeepsPoints self.old result self.new }

        // what is left is closed, below what was there, and no lower bound would hold of all its points
        ensures closed { LeavesClosed self.old result self.new }
        ensures tight { LeavesTight result self.new }

        // no entry is above 2^105; and where each variable is bounded on both sides, the limit that came in is kept
        ensures limits { KeepsLimits self.old self.new }
        ensures vars { self.new.vars ≡ self.old.vars }
        ensures matrix { IsMatrix self.new }
    {
        closing::close(&mut self.bounds, self.vars)
    }

    /// What `tighten` and then `close` give of a closed matrix, in a time that grows with the square of the nodes alone.
    ///
    /// After `Empty` the matrix is of no further use: it then has no bounds.
    pub fn close_after(&mut self, i: usize, j: usize, c: i128) -> Closing
        requires closed { IsClosed self.old }
        requires row { i < nodes self.old }
        requires column { j < nodes self.old }
        requires apart { i ≢ j }
        requires within { IsWithin (2 ^ 100) self.old }
        requires c { unsigned_abs c ≤ 2 ^ 100 }
        ensures exact { ClosesTo (tightened self.old i j c) result self.new }
        ensures points { KeepsPoints (tightened self.old i j c) result self.new }
        ensures closed { LeavesClosed (tightened self.old i j c) result self.new }
        ensures tight { LeavesTight result self.new }
        ensures limits { KeepsLimits (tightened self.old i j c) self.new }
        ensures vars { self.new.vars ≡ self.old.vars }
        ensures matrix { IsMatrix self.new }
    {
        closing::close_after(&mut self.bounds, self.vars, i, j, c)
    }

    /// Raises each entry to that of `o`: the points of both lie in it.
    pub fn join_into(&mut self, o: &Matrix)
        requires { self.old.vars ≡ o.now.vars }
        ensures value { self.new ≡ joined self.old o.now }
        ensures vars { self.new.vars ≡ self.old.vars }
        ensures points { (p : Point) → LiesIn p self.old ⊎ LiesIn p o.now → LiesIn p self.new }
        ensures closed { IsClosed self.old → IsClosed o.now → IsClosed self.new }
        ensures within { (limit : ℕ) → IsWithin limit self.old → IsWithin limit o.now → IsWithin limit self.new }
    {
        entries::raise(&mut self.bounds, &o.bounds);
    }

    /// Whether each entry is at most that of `o`.
    pub fn le(&self, o: &Matrix) -> bool
        requires { self.now.vars ≡ o.now.vars }
        ensures test { result ≡ is_below self.now o.now }
        ensures fact { IsTrue result ↔ IsBelow self.now o.now }
    {
        entries::all_at_most(&self.bounds, &o.bounds)
    }

    /// Takes all bounds from a variable, but those of its nodes on themselves.
    pub fn forget(&mut self, var: usize)
        requires var { var < self.old.vars }
        requires within { IsWithin (2 ^ 100) self.old }
        ensures value { self.new ≡ forgotten self.old var }
        ensures vars { self.new.vars ≡ self.old.vars }
        ensures within { (limit : ℕ) → IsWithin limit self.old → IsWithin limit self.new }

        // the variable may have any value
        ensures points { (p : Point) (z : ℤ) → LiesIn p self.old → LiesIn (with_value p var z) self.new }
    {
        operations::forget(&mut self.bounds, self.vars, var);
    }

    /// Moves the points by `c` in one variable.
    pub fn shift(&mut self, var: usize, c: i128)
        requires var { var < self.old.vars }
        requires within { IsWithin (2 ^ 100) self.old }
        requires c { unsigned_abs c ≤ 2 ^ 100 }
        ensures value { self.new ≡ shifted self.old var c }
        ensures vars { self.new.vars ≡ self.old.vars }
        ensures within { (limit : ℕ) → IsWithin limit self.old → IsWithin (limit + (unsigned_abs c + unsigned_abs c)) self.new }
        ensures points { (p : Point) → LiesIn p self.old ↔ LiesIn (moved p var c) self.new }
    {
        operations::shift(&mut self.bounds, self.vars, var, c);
    }
}
