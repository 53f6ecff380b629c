//! Reads of cells.

ghost use Rattle.std.specs.Prelude.{◌≡◌, ◌<◌, length, slice_index_or, Some, None, IfSome, IsNone, if◌then◌else◌, ◌↔◌};
ghost use Rattle.sa_env.specs.Flat.{IsIn, dead};
ghost use Rattle.sa_env.specs.Shop.{Belongs, flat_of};
ghost use Rattle.sa_flat.specs.Forms.{of_cell};
ghost use Rattle.sa_flat.specs.Intervals as reference;
ghost use Rattle.sa_flat.specs.Meanings.{Cells, at_cell, read_operand};
ghost use Rattle.sa_effects.specs.Stands.{state_of};
ghost use Rattle.sa_effects.specs.Values.{value_at};

use crate::form::of_cell;
use crate::value::Value;
use sa_env::{Env, Form, Shop};

/// The form of a cell; of one that stands for several elements there is none.
fn cell_form(k: u32, starred: bool) -> Option<Form>
    ensures { result ≡ (if starred then None else Some (of_cell k)) }
{
    if starred { None } else { Some(of_cell(k)) }
}

/// The value of a cell, which takes no memory. In the dead environment it has no numbers.
pub(crate) fn read_cell(shop: &Shop, e: &Env, k: u32, starred: bool) -> Value
    requires belongs { Belongs shop.now e.now }
    requires cell { k < length shop.now.limits.tops }
    ensures value { (r : reference.Limits) (x : Cells) (a : reference.Flat) → x.starred k ≡ starred → state_of shop.now e.now ≡ Some a → result ≡ value_at (read_operand (reference.intervals r) x (at_cell (reference.intervals r) k)) a }
    ensures none { IsNone result.span ↔ (flat_of shop.now e.now ≡ dead) }
    ensures range { IfSome result.span (λ s. IsIn (slice_index_or shop.now.limits.tops k s) s) }
{
    Value {
        span: shop.cell(e, k),
        form: cell_form(k, starred),
    }
}
