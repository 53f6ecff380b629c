//! What an object is at the outside, and what stands inside it.

ghost use Rattle.std.specs.Prelude.{◌≡◌, ℕ, ◌<◌, [], length, IfOk};
ghost use Rattle.sa_scopes.specs.declared.form.Form.TheVariants.{Array};
ghost use Rattle.sa_scopes.specs.Forms as spec;

use sa_base::{Num, OutOfMemory};
use sa_typed::{Plain, Shape};
use sqlite_items::Items;
use std::alloc::Global;

/// What an object is at the outside.
#[derive(Clone, Copy, Debug, PartialEq, Eq)]
pub enum Form {
    Scalar(Num),
    /// A structure, by its number.
    Struct(u32),
    /// An array, with the number of its elements.
    Array(u32),
}

fn plain_form(plain: Plain) -> Form
    ensures { result ≡ spec.form_by [] plain }
{
    match plain {
        Plain::Scalar(num) => Form::Scalar(num),
        Plain::Struct(number) => Form::Struct(number),
    }
}

impl Form {
    /// What stands so many dimensions inside a shape.
    #[tactic(auto, using(crate::proofs::FormLemmas::forms))]
    pub fn inside(shape: &Shape, depth: usize) -> Form
        ensures form { result ≡ spec.form_of (spec.inside depth shape.now) }
        ensures within { (n : ℕ) → result ≡ Array n → depth < length shape.now.dims }
    {
        match shape.dims.get(depth) {
            Some(count) => Form::Array(*count),
            None => plain_form(shape.plain),
        }
    }
}

/// The shape of a number.
pub fn scalar(alloc: Global, num: Num) -> Shape
    ensures { result ≡ spec.scalar num }
{
    Shape {
        dims: Items::new(alloc),
        plain: Plain::Scalar(num),
    }
}

/// A copy of a shape.
pub fn copy_shape(alloc: Global, shape: &Shape) -> Result<Shape, OutOfMemory>
    ensures { IfOk result (λ s. s ≡ shape.now) }
{
    Ok(Shape {
        dims: Items::from_slice(alloc, shape.dims.as_slice())?,
        plain: shape.plain,
    })
}
