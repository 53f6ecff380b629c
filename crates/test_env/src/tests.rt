//! Shops over a few cells and over thousands, whose ranges are those of an unsigned byte.

ghost use Rattle.std.specs.Prelude.{◌≡◌, ◌≤◌, ◌<◌, ◌+◌, length, replicate, slice_index_or, pos, IfOk};
ghost use Rattle.sa_interval.specs.Span.{Span, IsPart};
ghost use Rattle.sa_env.specs.Flat.{top_of, join, assigned, cell_of};
ghost use Rattle.sa_env.specs.Shop.{IsBase};

use sa_env::{Form, Frame, OutOfMemory, Shop, SlotValue, Term};
use sa_interval::{Interval, Thresholds};
use sa_shared::Frozen;
use std::alloc::Global;
use std::test::Fail;

/// So many cells of an unsigned byte, and a clock up to 1000.
fn bytes(alloc: Global, cells: u32) -> Result<Frame, OutOfMemory>
    ensures { IfOk result (λ frame. frame.tops ≡ replicate cells (record { lo = pos 0; hi = pos 255 })) }
{
    let spans = vec![in alloc; Interval::new(0, 255); cells as usize]?;
    Frame::of(spans, 1000)
}

/// The numbers from one to another.
fn byte(lo: u8, hi: u8) -> Interval
    requires { lo ≤ hi }
    ensures { IsPart result (record { lo = pos 0; hi = pos 255 }) }
{
    Interval::new(i128::from(lo), i128::from(hi))
}

/// A cell after an assignment, the join with the older environment, and an assignment in a new shop over what was
/// frozen.
fn rejoined(
    frame: &Frame,
    base: &Frozen<SlotValue>,
    c: u32,
    v: Interval,
    w: Interval,
) -> Result<Option<Interval>, OutOfMemory>
    requires base { IsBase frame.now base.now }
    requires cell { c < length frame.now.tops }
    requires first { IsPart v (slice_index_or frame.now.tops c v) }
    requires second { IsPart w (slice_index_or frame.now.tops c w) }
    ensures { IfOk result (λ s. s ≡ cell_of c (assigned c w (join (assigned c v (top_of frame.now)) (top_of frame.now)))) }
{
    let mut shop = Shop::over(frame, base);
    let old = shop.top()?;
    let new = shop.assign(&old, c, v)?;
    let both = shop.join(&new, &old)?;
    let (kept, envs) = shop.freeze(&[both, old])?;
    let mut later = Shop::over(frame, &kept);
    let last = later.assign(&envs[0], c, w)?;
    Ok(later.cell(&last, c))
}

/// A cell after a weak assignment that follows a strong one, and the join of its neighbours up to it.
fn weakened(
    frame: &Frame,
    base: &Frozen<SlotValue>,
    c: u32,
    v: Interval,
    w: Interval,
) -> Result<[Option<Interval>; 2], OutOfMemory>
    requires base { IsBase frame.now base.now }
    requires cell { c < length frame.now.tops }
    requires first { IsPart v (slice_index_or frame.now.tops c v) }
    requires second { IsPart w (slice_index_or frame.now.tops c w) }
{
    let mut shop = Shop::over(frame, base);
    let top = shop.top()?;
    let strong = shop.assign(&top, c, v)?;
    let weak = shop.assign_weak(&strong, c, w)?;
    Ok([shop.cell(&weak, c), shop.cells_join(&weak, 0, c + 1)])
}

/// A cell that grew from one interval to another, after the step of a pass.
fn widened(
    frame: &Frame,
    base: &Frozen<SlotValue>,
    thresholds: &Thresholds,
    pass: u32,
    v: Interval,
    w: Interval,
) -> Result<Option<Interval>, OutOfMemory>
    requires base { IsBase frame.now base.now }
    requires cell { 0 < length frame.now.tops }
    requires first { IsPart v (slice_index_or frame.now.tops 0 v) }
    requires second { IsPart w (slice_index_or frame.now.tops 0 w) }
{
    let mut shop = Shop::over(frame, base);
    let top = shop.top()?;
    let old = shop.assign(&top, 0, v)?;
    let new = shop.assign(&top, 0, w)?;
    let next = shop.widen(&old, &new, thresholds, pass)?;
    Ok(shop.cell(&next, 0))
}

/// The first two cells where a form of the first one is at most `k`.
fn one_bounded(
    frame: &Frame,
    base: &Frozen<SlotValue>,
    plus: bool,
    c: i32,
    k: i32,
) -> Result<(Option<Interval>, Option<Interval>), OutOfMemory>
    requires base { IsBase frame.now base.now }
    requires cells { 1 < length frame.now.tops }
{
    let mut shop = Shop::over(frame, base);
    let top = shop.top()?;
    let form = Form {
        first: Some(Term { plus, cell: 0 }),
        second: None,
        c: i128::from(c),
    };
    let bounded = shop.impose(&top, form, i128::from(k))?;
    Ok((shop.cell(&bounded, 0), shop.cell(&bounded, 1)))
}

/// The first two cells where a form of both is at most `k`.
fn both_bounded(
    frame: &Frame,
    base: &Frozen<SlotValue>,
    signs: (bool, bool),
    c: i32,
    k: i32,
) -> Result<(Option<Interval>, Option<Interval>), OutOfMemory>
    requires base { IsBase frame.now base.now }
    requires cells { 1 < length frame.now.tops }
{
    let mut shop = Shop::over(frame, base);
    let top = shop.top()?;
    let (first, second) = signs;
    let form = Form {
        first: Some(Term {
            plus: first,
            cell: 0,
        }),
        second: Some(Term {
            plus: second,
            cell: 1,
        }),
        c: i128::from(c),
    };
    let bounded = shop.impose(&top, form, i128::from(k))?;
    Ok((shop.cell(&bounded, 0), shop.cell(&bounded, 1)))
}

#[test]
fn forms_of_one_cell(rt: HostRuntime) -> Result<(), Fail> {
    let frame = bytes(rt.alloc(), 2)?;
    let base = frame.base()?;
    for (plus, c, k, first, second) in [
        (true, 0, 10, Some(byte(0, 10)), Some(byte(0, 255))),
        (true, 3, 10, Some(byte(0, 7)), Some(byte(0, 255))),
        (true, -3, 10, Some(byte(0, 13)), Some(byte(0, 255))),
        (true, 0, 300, Some(byte(0, 255)), Some(byte(0, 255))),
        (true, 0, -1, None, None),
        (false, 0, -10, Some(byte(10, 255)), Some(byte(0, 255))),
        (false, 5, -10, Some(byte(15, 255)), Some(byte(0, 255))),
        (false, 0, -255, Some(byte(255, 255)), Some(byte(0, 255))),
        (false, 0, -256, None, None),
    ] {
        assert_eq!(rt;
            one_bounded(&frame, &base, plus, c, k)?,
            (first, second),
            "{plus} {c} {k}"
        );
    }
    Ok(())
}

#[test]
fn forms_of_two_cells(rt: HostRuntime) -> Result<(), Fail> {
    let frame = bytes(rt.alloc(), 2)?;
    let base = frame.base()?;
    for (signs, c, k, first, second) in [
        // x + y <= 10, and x + y + 4 <= 10
        ((true, true), 0, 10, Some(byte(0, 10)), Some(byte(0, 10))),
        ((true, true), 4, 10, Some(byte(0, 6)), Some(byte(0, 6))),
        // x - y <= -1, that is x < y
        ((true, false), 0, -1, Some(byte(0, 254)), Some(byte(1, 255))),
        // y - x <= -200
        (
            (false, true),
            0,
            -200,
            Some(byte(200, 255)),
            Some(byte(0, 55)),
        ),
        // -x - y <= -500
        (
            (false, false),
            0,
            -500,
            Some(byte(245, 255)),
            Some(byte(245, 255)),
        ),
        ((false, false), 0, -511, None, None),
    ] {
        assert_eq!(rt;
            both_bounded(&frame, &base, signs, c, k)?,
            (first, second),
            "{signs:?} {c} {k}"
        );
    }
    Ok(())
}

#[test]
fn goes_on_in_a_new_shop(rt: HostRuntime) -> Result<(), Fail> {
    for last in [0, 1, 2, 4999] {
        let frame = bytes(rt.alloc(), last + 1)?;
        let base = frame.base()?;
        for c in [0, last] {
            let (v, w) = (byte(5, 5), byte(7, 9));
            assert_eq!(rt; rejoined(&frame, &base, c, v, w)?, Some(w));
            assert_eq!(rt;
                weakened(&frame, &base, c, v, w)?,
                [
                    Some(byte(5, 9)),
                    Some(if c == 0 { byte(5, 9) } else { byte(0, 255) })
                ]
            );
        }
    }
    Ok(())
}

#[test]
fn widens_by_the_pass(rt: HostRuntime) -> Result<(), Fail> {
    let frame = bytes(rt.alloc(), 3)?;
    let base = frame.base()?;
    let thresholds = Thresholds::make(rt.alloc(), &[100])?;
    for (pass, hi) in [
        (1, 3),
        (3, 3),
        (4, 100),
        (20, 100),
        (21, 255),
        (30, 255),
        (31, 255),
    ] {
        assert_eq!(rt;
            widened(&frame, &base, &thresholds, pass, byte(0, 1), byte(0, 3))?,
            Some(byte(0, hi))
        );
    }
    Ok(())
}
