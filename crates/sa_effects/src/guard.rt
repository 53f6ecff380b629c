//! Environments in which one value is at most another one.

ghost use Rattle.std.specs.Prelude.{◌≡◌, ◌-ℤ◌, int_lt, IfOk, IfSome, option_map, Some};
ghost use Rattle.sa_interval.specs.Span.{Span};
ghost use Rattle.sa_operators.specs.OperatorLaws.{IsSmallSpan};
ghost use Rattle.sa_env.specs.Forms.{IsForm, IsModest};
ghost use Rattle.sa_env.specs.Shop.{Belongs, Keeps};
ghost use Rattle.sa_flat.specs.Forms.{difference_form};
ghost use Rattle.sa_flat.specs.Intervals as reference;
ghost use Rattle.sa_flat.specs.Meanings.{at_most, negated, both_forms, imposed, bound};
ghost use Rattle.sa_flat.specs.Passes.{alive_then};
ghost use Rattle.sa_effects.specs.Stands.{state_of};
ghost use Rattle.sa_effects.specs.Values.{everywhere, IsGuard, IsLight, IsStep};

use crate::OutOfMemory;
use crate::value::{Value, difference_forms, negative_form};
use sa_env::{Env, Form, Shop};
use sa_interval::Interval;

/// The environment in which a form is at most `k`, where there is a form.
fn at_most(shop: &mut Shop, e: &Env, form: Option<Form>, k: i128) -> Result<Env, OutOfMemory>
    requires belongs { Belongs shop.old e.now }
    requires form { IfSome form (IsForm shop.old.limits.tops) }
    requires bound { IsModest k }
    ensures belongs { IfOk result (λ made. Belongs shop.new made) }
    ensures value { IfOk result (λ made. (r : reference.Limits) → state_of shop.new made ≡ alive_then (state_of shop.old e.now) (at_most (reference.intervals r) form k)) }
    ensures older { Keeps shop.old shop.new }
{
    match form {
        None => Ok(*e),
        Some(f) => shop.impose(e, f, k),
    }
}

/// The environment in which one form and then another one are at most these numbers, where there are forms.
fn both_at_most(
    shop: &mut Shop,
    e: &Env,
    f: Option<Form>,
    j: i128,
    g: Option<Form>,
    k: i128,
) -> Result<Env, OutOfMemory>
    requires belongs { Belongs shop.old e.now }
    requires first { IfSome f (IsForm shop.old.limits.tops) }
    requires first_bound { IsModest j }
    requires second { IfSome g (IsForm shop.old.limits.tops) }
    requires second_bound { IsModest k }
    ensures belongs { IfOk result (λ made. Belongs shop.new made) }
    ensures value { IfOk result (λ made. (r : reference.Limits) → state_of shop.new made ≡ alive_then (state_of shop.old e.now) (λ a. alive_then (at_most (reference.intervals r) f j a) (at_most (reference.intervals r) g k))) }
    ensures older { Keeps shop.old shop.new }
{
    let first = at_most(shop, e, f, j)?;
    at_most(shop, &first, g, k)
}

/// The environment in which a value with the numbers `s` less one with the numbers `t` is at most `k`: by one form where the
/// forms of both make one, else each by the end of the other one.
fn imposed(
    shop: &mut Shop,
    e: &Env,
    a: &Value,
    b: &Value,
    s: Interval,
    t: Interval,
    k: i128,
) -> Result<Env, OutOfMemory>
    requires belongs { Belongs shop.old e.now }
    requires first { IfSome a.now.form (IsLight shop.old.limits.tops) }
    requires second { IfSome b.now.form (IsLight shop.old.limits.tops) }
    requires first_span { IsSmallSpan s }
    requires second_span { IsSmallSpan t }
    requires step { IsStep k }
    ensures belongs { IfOk result (λ made. Belongs shop.new made) }
    ensures value { IfOk result (λ made. (r : reference.Limits) → state_of shop.new made ≡ alive_then (state_of shop.old e.now) (imposed (reference.intervals r) (both_forms a.now.form b.now.form difference_form) a.now.form b.now.form s t k)) }
    ensures older { Keeps shop.old shop.new }
{
    match difference_forms(a.form, b.form) {
        Some(h) => at_most(shop, e, Some(h), k),
        None => both_at_most(
            shop,
            e,
            a.form,
            k + t.hi(),
            negative_form(b.form),
            k - s.lo(),
        ),
    }
}

/// Whether each number of the first interval less each of the second one is above `k`.
fn is_above(s: Interval, t: Interval, k: i128) -> bool
    requires { IsStep k }
    ensures { result ≡ int_lt k (s.lo -ℤ t.hi) }
{
    k < s.lo() - t.hi()
}

/// The environment in which the first value less the second one is at most `k`; dead where it can't be.
pub(crate) fn bound(
    shop: &mut Shop,
    e: &Env,
    a: &Value,
    b: &Value,
    k: i128,
) -> Result<Env, OutOfMemory>
    requires belongs { Belongs shop.old e.now }
    requires first { IsGuard shop.old.limits.tops a.now }
    requires second { IsGuard shop.old.limits.tops b.now }
    requires step { IsStep k }
    ensures belongs { IfOk result (λ made. Belongs shop.new made) }
    ensures value { IfOk result (λ made. (r : reference.Limits) → state_of shop.new made ≡ alive_then (state_of shop.old e.now) (bound (reference.intervals r) (everywhere a.now) (everywhere b.now) k)) }
    ensures older { Keeps shop.old shop.new }
{
    match (a.span, b.span) {
        (None, _) => Ok(Env::Dead),
        (Some(_), None) => Ok(Env::Dead),
        (Some(s), Some(t)) => {
            if is_above(s, t, k) {
                Ok(Env::Dead)
            } else {
                imposed(shop, e, a, b, s, t, k)
            }
        }
    }
}
