//! How many cells a call brings.

ghost use Rattle.std.specs.Prelude.{◌≡◌, get_or, slice_get};
ghost use Rattle.sa_typed.specs.Frames.{kept_indices, all_kept, one_for, result_of, frame_cells};
ghost use Rattle.sa_calls.specs.Rooms.{one_index, indices_in, AreLocals};
ghost use Rattle.sa_calls.specs.Weights.{capped};

use sa_typed::{Arg, Program, Step};

#[tactic(auto, using(crate::proofs::RoomLemmas::of_steps))]
fn one_index(step: &Step) -> usize
    ensures { result ≡ one_index step.now }
{
    match step {
        Step::At(_, _, _) => 1,
        Step::Field(_) => 0,
    }
}

/// The indices among the steps.
fn indices_in(steps: &[Step]) -> usize
    ensures { result ≡ capped (indices_in steps.now) }
{
    let mut sum: usize = 0;
    for step in steps {
        sum = sum.saturating_add(one_index(step));
    }
    sum
}

/// The indices of an argument that are kept for the time of the call.
#[tactic(auto, using(crate::proofs::RoomLemmas::object_kept))]
fn kept_indices(arg: &Arg) -> usize
    ensures { result ≡ capped (kept_indices arg.now) }
{
    match arg {
        Arg::Value(_, _) => 0,
        Arg::Object(object) => indices_in(object.steps.as_slice()),
    }
}

fn all_kept(args: &[Arg]) -> usize
    ensures { result ≡ capped (all_kept args.now) }
{
    let mut sum: usize = 0;
    for arg in args {
        sum = sum.saturating_add(kept_indices(arg));
    }
    sum
}

/// One for the result of the function with this number, if it has one.
fn result_cells(program: &Program, f: u32) -> usize
    ensures { result ≡ one_for (result_of (slice_get program.now.funcs f)) }
{
    match program.funcs.get(f as usize) {
        None => 0,
        Some(func) => match func.result {
            None => 0,
            Some(_) => 1,
        },
    }
}

fn locals_at(locals: &[usize], f: u32) -> usize
    ensures { result ≡ get_or locals.now f 0 }
{
    match locals.get(f as usize) {
        None => 0,
        Some(cells) => *cells,
    }
}

/// The cells of a call of the function with this number: its parameters and locals, the indices that are kept, and its result.
/// `locals` are the cells of parameters and locals by the function's number. A number that doesn't fit is the greatest that does.
pub fn frame_cells(program: &Program, locals: &[usize], f: u32, args: &[Arg]) -> usize
    requires { AreLocals program.now locals.now }
    ensures { result ≡ capped (frame_cells program.now f args.now) }
{
    let kept = all_kept(args).saturating_add(result_cells(program, f));
    locals_at(locals, f).saturating_add(kept)
}
