//! Sums and differences of linear forms.

ghost use Rattle.std.specs.Prelude.{◌≡◌, ◌++◌, ◌+ℤ◌, [], ◌∷◌, Some, None};
ghost use Rattle.sa_env.specs.Forms.{IsModest};
ghost use Rattle.sa_flat.specs.Forms.{constant, of_cell, listed, form_of, turned, negative, sum_form, difference_form};
ghost use Rattle.sa_effects.specs.Values.{alone, has_none, sum_of_both};

use sa_env::{Form, Term};

/// The form that is one number.
pub(crate) fn constant(c: i128) -> Form
    ensures { result ≡ constant c }
{
    Form {
        first: None,
        second: None,
        c,
    }
}

/// The form of a cell.
pub(crate) fn of_cell(cell: u32) -> Form
    ensures { result ≡ of_cell cell }
{
    Form {
        first: Some(Term { plus: true, cell }),
        second: None,
        c: 0,
    }
}

/// The form with these terms; None where both are of one cell.
#[tactic(auto, unfolding(sa_flat::specs::Forms::form_of))]
fn of_terms(first: Option<Term>, second: Option<Term>, c: i128) -> Option<Form>
    ensures { result ≡ form_of (listed first ++ listed second) c }
{
    match (first, second) {
        (None, None) => Some(constant(c)),
        (None, Some(t)) => Some(of_term(t, c)),
        (Some(t), None) => Some(of_term(t, c)),
        (Some(t), Some(u)) => of_both(t, u, c),
    }
}

fn of_term(t: Term, c: i128) -> Form
    ensures { result ≡ record { first = Some t; second = None; c = c } }
{
    Form {
        first: Some(t),
        second: None,
        c,
    }
}

/// The form of two terms; None where both are of one cell.
#[tactic(auto, unfolding(sa_flat::specs::Forms::form_of))]
fn of_both(t: Term, u: Term, c: i128) -> Option<Form>
    ensures { result ≡ form_of (t ∷ u ∷ []) c }
{
    if t.cell == u.cell {
        None
    } else {
        Some(Form {
            first: Some(t),
            second: Some(u),
            c,
        })
    }
}

/// The term of a form that has one.
fn alone(f: Form) -> Option<Term>
    ensures { result ≡ alone f.first f.second }
{
    match (f.first, f.second) {
        (None, None) => None,
        (None, Some(t)) => Some(t),
        (Some(t), None) => Some(t),
        (Some(_), Some(_)) => None,
    }
}

/// Whether the form is a number alone.
fn has_none(f: Form) -> bool
    ensures { result ≡ has_none f.first f.second }
{
    f.first.is_none() && f.second.is_none()
}

/// The constant of a sum.
#[tactic(auto, using(std::proofs::lemmas::Int::ints))]
fn both_constants(f: Form, g: Form) -> i128
    requires first { IsModest f.c }
    requires second { IsModest g.c }
    ensures { result ≡ f.c +ℤ g.c }
{
    f.c + g.c
}

/// The sum of two forms; None where it isn't one of at most two distinct cells.
pub(crate) fn sum_form(f: Form, g: Form) -> Option<Form>
    requires first { IsModest f.c }
    requires second { IsModest g.c }
    ensures { result ≡ sum_form f g }
{
    let c = both_constants(f, g);
    if has_none(f) {
        of_terms(g.first, g.second, c)
    } else if has_none(g) {
        of_terms(f.first, f.second, c)
    } else {
        sum_of_both(alone(f), alone(g), c)
    }
}

fn sum_of_both(t: Option<Term>, u: Option<Term>, c: i128) -> Option<Form>
    ensures { result ≡ sum_of_both t u c }
{
    match (t, u) {
        (Some(t), Some(u)) => of_both(t, u, c),
        (Some(_), None) => None,
        (None, _) => None,
    }
}

fn turned(t: Option<Term>) -> Option<Term>
    ensures { result ≡ turned t }
{
    match t {
        None => None,
        Some(t) => Some(Term {
            plus: !t.plus,
            cell: t.cell,
        }),
    }
}

/// What a form is taken from 0.
pub(crate) fn negative(f: Form) -> Form
    requires { IsModest f.c }
    ensures value { result ≡ negative f }
    ensures modest { IsModest result.c }
{
    Form {
        first: turned(f.first),
        second: turned(f.second),
        c: 0 - f.c,
    }
}

/// The first form less the second one; None where it isn't one of at most two distinct cells.
pub(crate) fn difference_form(f: Form, g: Form) -> Option<Form>
    requires first { IsModest f.c }
    requires second { IsModest g.c }
    ensures { result ≡ difference_form f g }
{
    sum_form(f, negative(g))
}
