ghost use Rattle.std.specs.Prelude.{◌≡◌, ◌≢◌, ℕ, ℤ, true, ◌+◌, ◌^◌, ◌<◌, ◌≤◌, ◌+ℤ◌, ◌≤ℤ◌, neg_ℤ, ◌↔◌, ◌⊎◌, List, length, slice_index, IfOk, MatchOption, IsTrue, unsigned_abs};
ghost use Rattle.sa_interval.specs.Span.{Within, cut};
ghost use Rattle.sa_dbm.specs.Tables.{IsWithin, IsBelow, joined, is_below};
ghost use Rattle.sa_dbm.specs.Points.{Point, LiesIn, with_value};
ghost use Rattle.sa_dbm.specs.Closed.{ClosesTo, KeepsPoints, IsClosed, LeavesClosed, LeavesTight, KeepsLimits};
ghost use Rattle.sa_octagon.specs.Packs.{AreSmall, AreWithin, IsSpanWithin, IsBoundedAt, span_at, top_of, widened, signed, guarded, met, ranged, assigned, unary_of, pair_of};

use crate::OutOfMemory;
use crate::fill::{fill, fill_top, forget_all, read_all, read_one, widened_entries};
use crate::reads::{above, below, doubled, find, half, negated, node};
use sa_dbm::{Closing, Matrix};
use sa_interval::Interval;
use std::alloc::Global;
use std::marker::Model;

/// What is known of sums and differences of 1 to 8 cells (packs: Blanchet and others 2003; octagons: Miné 2006).
///
/// A place is a cell's position in the pack. Contracts see the cells' numbers, the widest span of each, and the table of
/// bounds, whose variable k is cell number k.
#[derive(Debug, Drop)]
pub struct Pack {
    cells: Vec<u32>,
    spans: Vec<Interval>,
    matrix: Matrix,
}

impl Model for Pack {
    ghost use Rattle.sa_octagon.specs.Packs.{Packed, IsPack};

    ghost Value = { Packed };

    ghost view = { λ p. record { cells = p.cells.items; spans = p.spans.items; table = p.matrix } };

    ghost invariant = { λ p. IsPack (record { cells = p.cells.items; spans = p.spans.items; table = p.matrix }) };
}

impl Pack {
    /// The pack in which each cell has any number of its span: `spans` has one for each of `cells`, of which there are 2 to 8.
    ///
    /// Its table is closed, and its entries are at most twice as large as the spans' bounds.
    pub fn top(alloc: Global, cells: &[u32], spans: &[Interval]) -> Result<Pack, OutOfMemory>
        requires some { 2 ≤ length cells.now }
        requires few { length cells.now ≤ 8 }
        requires spans { length spans.now ≡ length cells.now }
        requires small { AreSmall spans.now }
        ensures value { IfOk result (λ p. p.table ≡ top_of spans.now) }
        ensures cells { IfOk result (λ p. p.cells ≡ cells.now) }
        ensures spans { IfOk result (λ p. p.spans ≡ spans.now) }
        ensures closed { IfOk result (λ p. IsClosed p.table) }
        ensures within { IfOk result (λ p. (limit : ℕ) → AreWithin limit spans.now → IsWithin (limit + limit) p.table) }

        // exactly the points whose numbers lie in the spans
        ensures points { IfOk result (λ r. (p : Point) →
            LiesIn p r.table ↔ ((k : ℕ) → k < length spans.now → Within (span_at spans.now k) (p k))) }
    {
        read_all(spans);
        let mut matrix = Matrix::top(alloc, spans.len())?;
        fill_top(&mut matrix, spans);
        Ok(Pack {
            cells: Vec::from_slice(alloc, cells)?,
            spans: Vec::from_slice(alloc, spans)?,
            matrix,
        })
    }

    /// An equal pack.
    pub fn copy(&self, alloc: Global) -> Result<Pack, OutOfMemory>
        ensures { IfOk result (λ p. p ≡ self.now) }
    {
        Ok(Pack {
            cells: Vec::from_slice(alloc, &self.cells)?,
            spans: Vec::from_slice(alloc, &self.spans)?,
            matrix: self.matrix.copy(alloc)?,
        })
    }

    /// The place of a cell; `None` exactly where the pack doesn't hold it.
    pub fn place(&self, cell: u32) -> Option<usize>
        ensures { MatchOption result
            ((k : ℕ) → k < length self.now.cells → slice_index self.now.cells k ≢ cell)
            (λ k. (k < length self.now.cells) × (slice_index self.now.cells k ≡ cell)) }
    {
        find(&self.cells, cell)
    }

    /// Bounds `sx x + sy y` by `k`, where the sign `true` is plus.
    pub fn guard(&mut self, sx: bool, x: usize, sy: bool, y: usize, k: i128)
        requires x { x < length self.old.cells }
        requires y { y < length self.old.cells }
        requires apart { x ≢ y }
        requires within { IsWithin (2 ^ 70) self.old.table }
        requires k { unsigned_abs k ≤ 2 ^ 70 }
        ensures value { self.new.table ≡ guarded self.old.table sx x sy y k }
        ensures cells { self.new.cells ≡ self.old.cells }
        ensures spans { self.new.spans ≡ self.old.spans }
        ensures within { (limit : ℕ) → IsWithin limit self.old.table → unsigned_abs k ≤ limit → IsWithin limit self.new.table }

        // exactly the points stay that meet the bound
        ensures points { (p : Point) →
            LiesIn p self.new.table ↔ (LiesIn p self.old.table × ((signed sx (p x) +ℤ signed sy (p y)) ≤ℤ k)) }
    {
        self.matrix.tighten(node(!sy, y), node(sx, x), k);
    }

    /// Bounds `x` by `v`.
    pub fn meet(&mut self, x: usize, v: Interval)
        requires x { x < length self.old.cells }
        requires within { IsWithin (2 ^ 70) self.old.table }
        requires v { IsSpanWithin (2 ^ 70) v }
        ensures value { self.new.table ≡ met self.old.table x v }
        ensures cells { self.new.cells ≡ self.old.cells }
        ensures spans { self.new.spans ≡ self.old.spans }
        ensures within { (limit : ℕ) →
            IsWithin (limit + limit) self.old.table → IsSpanWithin limit v → IsWithin (limit + limit) self.new.table }

        // x is bounded on both sides then, and each other place that was so still is
        ensures bounded { (limit : ℕ) →
            IsWithin (limit + limit) self.old.table → IsSpanWithin limit v → IsBoundedAt (limit + limit) x self.new.table }
        ensures bounded_still { (limit y : ℕ) → y < length self.old.cells →
            IsSpanWithin limit v → IsBoundedAt (limit + limit) y self.old.table → IsBoundedAt (limit + limit) y self.new.table }

        // exactly the points stay whose x lies in the interval
        ensures points { (p : Point) → LiesIn p self.new.table ↔ (LiesIn p self.old.table × Within v (p x)) }
    {
        self.matrix.tighten(2 * x + 1, 2 * x, doubled(v.hi()));
        self.matrix
            .tighten(2 * x, 2 * x + 1, negated(doubled(v.lo())));
    }

    /// Gives `x` any number of `v`.
    pub fn assign_range(&mut self, x: usize, v: Interval)
        requires x { x < length self.old.cells }
        requires closed { IsClosed self.old.table }
        requires within { IsWithin (2 ^ 70) self.old.table }
        requires v { IsSpanWithin (2 ^ 70) v }
        ensures value { self.new.table ≡ ranged self.old.table x v }
        ensures cells { self.new.cells ≡ self.old.cells }
        ensures spans { self.new.spans ≡ self.old.spans }
        ensures within { (limit : ℕ) →
            IsWithin (limit + limit) self.old.table → IsSpanWithin limit v → IsWithin (limit + limit) self.new.table }
        ensures points { (p : Point) (z : ℤ) → LiesIn p self.old.table → Within v z → LiesIn (with_value p x z) self.new.table }
    {
        self.matrix.forget(x);
        self.meet(x, v);
    }

    /// Gives `x` the number `sign y + c`, where the sign `true` is plus. It has the sign plus where `x` and `y` are one place.
    pub fn assign_linear(&mut self, x: usize, sign: bool, y: usize, c: i128)
        requires x { x < length self.old.cells }
        requires y { y < length self.old.cells }
        requires plain { x ≡ y → sign ≡ true }
        requires closed { IsClosed self.old.table }
        requires within { IsWithin (2 ^ 70) self.old.table }
        requires c { unsigned_abs c ≤ 2 ^ 70 }
        ensures value { self.new.table ≡ assigned self.old.table x sign y c }
        ensures cells { self.new.cells ≡ self.old.cells }
        ensures spans { self.new.spans ≡ self.old.spans }
        ensures within { (limit : ℕ) →
            IsWithin limit self.old.table → IsWithin (limit + (unsigned_abs c + unsigned_abs c)) self.new.table }
        ensures points { (p : Point) → LiesIn p self.old.table → LiesIn (with_value p x (signed sign (p y) +ℤ c)) self.new.table }
    {
        if x == y {
            self.matrix.shift(x, c);
        } else {
            self.matrix.forget(x);
            self.matrix.tighten(node(sign, y), node(true, x), c);
            self.matrix
                .tighten(node(!sign, y), node(false, x), negated(c));
        }
    }

    /// Makes the table its closed form, or finds that no point lies in it (Miné 2006).
    ///
    /// After `Empty` the pack is of no further use: it then has no bounds.
    pub fn close(&mut self) -> Closing
        requires { IsWithin (2 ^ 70) self.old.table }
        ensures exact { ClosesTo self.old.table result self.new.table }
        ensures points { KeepsPoints self.old.table result self.new.table }
        ensures closed { LeavesClosed self.old.table result self.new.table }
        ensures tight { LeavesTight result self.new.table }
        ensures limits { KeepsLimits self.old.table self.new.table }
        ensures cells { self.new.cells ≡ self.old.cells }
        ensures spans { self.new.spans ≡ self.old.spans }
    {
        self.matrix.close()
    }

    /// The numbers of `x`, by its bounds; where there is none, the end is 2^100 in size.
    pub fn unary(&self, x: usize) -> Interval
        requires x { x < length self.now.cells }
        requires closed { IsClosed self.now.table }
        requires within { IsWithin (2 ^ 70) self.now.table }
        ensures value { result ≡ unary_of self.now.table x }
        ensures points { (p : Point) → LiesIn p self.now.table → Within result (cut (p x)) }
    {
        let hi = above(half(self.matrix.bound(2 * x + 1, 2 * x)));
        let lo = below(half(self.matrix.bound(2 * x, 2 * x + 1)));
        Interval::new(lo, hi)
    }

    /// The numbers of `sx x + sy y`, by the bounds; where there is none, the end is 2^100 in size. The sign `true` is plus.
    pub fn pair(&self, sx: bool, x: usize, sy: bool, y: usize) -> Interval
        requires x { x < length self.now.cells }
        requires y { y < length self.now.cells }
        requires apart { x ≢ y }
        requires closed { IsClosed self.now.table }
        requires within { IsWithin (2 ^ 70) self.now.table }
        ensures value { result ≡ pair_of self.now.table sx x sy y }
        ensures points { (p : Point) → LiesIn p self.now.table → Within result (cut (signed sx (p x) +ℤ signed sy (p y))) }
    {
        let matrix = &self.matrix;
        let from = node(!sy, y);
        let to = node(sx, x);
        let hi = above(matrix.bound(from, to));
        let lo = below(matrix.bound(to, from));
        Interval::new(lo, hi)
    }

    /// The entry-wise greatest of the two (the join of Miné 2006): the points of both lie in it.
    pub fn join(&self, alloc: Global, o: &Pack) -> Result<Pack, OutOfMemory>
        requires cells { self.now.cells ≡ o.now.cells }
        requires spans { self.now.spans ≡ o.now.spans }
        ensures value { IfOk result (λ r. r.table ≡ joined self.now.table o.now.table) }
        ensures cells { IfOk result (λ r. r.cells ≡ self.now.cells) }
        ensures spans { IfOk result (λ r. r.spans ≡ self.now.spans) }
        ensures within { IfOk result (λ r. (limit : ℕ) → IsWithin limit self.now.table → IsWithin limit o.now.table → IsWithin limit r.table) }
        ensures closed { IfOk result (λ r. IsClosed self.now.table → IsClosed o.now.table → IsClosed r.table) }
        ensures points { IfOk result (λ r. (p : Point) → LiesIn p self.now.table ⊎ LiesIn p o.now.table → LiesIn p r.table) }
    {
        let mut result = self.copy(alloc)?;
        result.matrix.join_into(&o.matrix);
        Ok(result)
    }

    /// Widening (Miné 2006), where each entry that `new` exceeds goes to that of the pack's spans. It doesn't close.
    pub fn widen(&mut self, new: &Pack)
        requires cells { self.old.cells ≡ new.now.cells }
        requires spans { self.old.spans ≡ new.now.spans }
        requires within { IsWithin (2 ^ 70) self.old.table }
        ensures value { self.new.table ≡ widened self.old.table new.now.table self.old.spans }
        ensures cells { self.new.cells ≡ self.old.cells }
        ensures spans { self.new.spans ≡ self.old.spans }
        ensures within { (limit : ℕ) → 2 ^ 65 ≤ limit → IsWithin limit self.old.table → IsWithin limit self.new.table }

        // the points of both that lie in the spans
        ensures points { (p : Point) → LiesIn p (top_of self.old.spans) →
            LiesIn p self.old.table ⊎ LiesIn p new.now.table → LiesIn p self.new.table }
    {
        read_one(&self.matrix);
        read_one(&new.matrix);
        let entries = widened_entries(&self.matrix, &new.matrix, &self.spans);
        forget_all(&mut self.matrix, self.cells.len());
        fill(&mut self.matrix, 2 * self.cells.len(), &entries);
    }

    /// Whether each entry is at most that of `o` (the order of Miné 2006).
    pub fn le(&self, o: &Pack) -> bool
        requires cells { self.now.cells ≡ o.now.cells }
        requires spans { self.now.spans ≡ o.now.spans }
        ensures test { result ≡ is_below self.now.table o.now.table }
        ensures fact { IsTrue result ↔ IsBelow self.now.table o.now.table }
    {
        self.matrix.le(&o.matrix)
    }
}
