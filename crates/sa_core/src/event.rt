//! What can happen to a branch, and the answers.

ghost use Rattle.std.specs.Prelude.{◌≡◌};
ghost use Rattle.sa_core.specs.declared.event.CoreError.TheVariants.{OutOfMemory};

use std::alloc::AllocError;

/// Where a branch stands.
#[derive(Clone, Copy, Debug, PartialEq, Eq)]
pub enum Branch {
    /// Nobody has claimed it.
    Free,
    /// This worker claimed it and has neither filed it nor given it back.
    Held(u32),
    /// Its holder filed it, so its part is merged.
    Filed,
    /// Its holder gave it back, so its part is still to be merged.
    Given,
    /// It was given back, and its part was merged afterwards.
    Swept,
}

/// What happens. A worker comes first, then a branch.
#[derive(Clone, Copy, Debug, PartialEq, Eq)]
pub enum Event {
    /// The worker takes the next branch, or none where all are out.
    Claim(u32),
    /// The worker files the branch that it holds, which merges the branch's part.
    File(u32, u32),
    /// The worker gives back the branch that it holds, without its part.
    Gave(u32, u32),
    /// The part of a branch that was given back is merged.
    Sweep(u32),
}

/// Why an event didn't happen. The number is the branch.
#[derive(Clone, Copy, Debug, PartialEq, Eq)]
pub enum CoreError {
    /// A worker holds it, and for a filing or a giving back it is another one.
    Taken(u32),
    /// Nobody has claimed it yet.
    NotClaimed(u32),
    /// It was filed, given back or swept before.
    Done(u32),
    OutOfMemory,
}

impl From<AllocError> for CoreError {
    ghost from_gives = { λ _ e. e ≡ OutOfMemory };

    fn from(_e: AllocError) -> CoreError {
        CoreError::OutOfMemory
    }
}
