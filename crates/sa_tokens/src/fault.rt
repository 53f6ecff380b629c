ghost use Rattle.std.specs.Prelude.{◌≡◌};
ghost use Rattle.sa_tokens.specs.declared.fault.TokenFault.TheVariants.{OutOfMemory};

use sa_base::{OutOfMemory, Pos};
use std::alloc::AllocFailed;

/// Why a source has no tokens.
#[derive(Clone, Copy, Debug, PartialEq, Eq)]
pub enum TokenFault {
    /// The first byte of no token, comment or blank.
    BadByte(Pos),
    /// The first byte of a spelling that is no number, or of a number that is too large.
    BadNumber(Pos),
    /// The `/` of a comment without its end.
    OpenComment(Pos),
    /// A `#` that begins no line marker.
    Directive(Pos),
    /// More than 1,000,000 tokens.
    TooManyTokens,
    /// There wasn't memory enough.
    OutOfMemory,
}

impl From<OutOfMemory> for TokenFault {
    ghost from_gives = { λ _ e. e ≡ OutOfMemory };

    fn from(_error: OutOfMemory) -> TokenFault {
        TokenFault::OutOfMemory
    }
}

impl<T: Drop> From<AllocFailed<T>> for TokenFault {
    ghost from_gives = { λ _ e. e ≡ OutOfMemory };

    fn from(_error: AllocFailed<T>) -> TokenFault {
        TokenFault::OutOfMemory
    }
}
