//! How many indices of arguments are kept.

ghost use Rattle.std.specs.Prelude.{◌≡◌, ◌+◌};
ghost use Rattle.sa_typed.specs.Frames.{access_indices, kept_indices, all_kept};
ghost use Rattle.sa_ir.specs.Sizes.{capped};
ghost use Rattle.sa_lower.specs.Arguments.{step_count, list_count};

use sa_typed::{Access, Arg, Step};

#[tactic(auto, using(crate::proofs::KeptLaws::of_count))]
fn step_count(step: &Step) -> usize
    ensures { result ≡ step_count step.now }
{
    match step {
        Step::At(_, _, _) => 1,
        Step::Field(_) => 0,
    }
}

fn steps_count(steps: &[Step]) -> usize
    ensures { result ≡ capped (list_count steps.now) }
{
    let mut count: usize = 0;
    for step in steps {
        count = count.saturating_add(step_count(step));
    }
    count
}

/// How many indices an access has.
pub fn access_indices(access: &Access) -> usize
    ensures { result ≡ capped (access_indices access.now) }
{
    steps_count(access.steps.as_slice())
}

/// How many indices of an argument are kept.
fn kept_indices(arg: &Arg) -> usize
    ensures { result ≡ capped (kept_indices arg.now) }
{
    match arg {
        Arg::Value(_, _) => 0,
        Arg::Object(access) => access_indices(access),
    }
}

/// How many indices of arguments are kept.
pub fn all_kept(args: &[Arg]) -> usize
    ensures { result ≡ capped (all_kept args.now) }
{
    let mut count: usize = 0;
    for arg in args {
        count = count.saturating_add(kept_indices(arg));
    }
    count
}
