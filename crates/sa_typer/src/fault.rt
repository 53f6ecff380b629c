//! Why a tree has no typed program.

use sa_base::{Limit, OutOfMemory, Refusal};

/// Why a source was not typed.
#[derive(Clone, Copy, Debug, PartialEq, Eq)]
pub enum TypeFault {
    /// The first refusal in the text.
    Refused(Refusal),
    /// There are more cells than may be.
    TooMany(Limit),
    OutOfMemory,
}

impl From<OutOfMemory> for TypeFault {
    ghost use Rattle.std.specs.Prelude.{◌≡◌};
    ghost use Rattle.sa_typer.specs.declared.fault.TypeFault.TheVariants.{OutOfMemory};

    ghost from_gives = { λ _ e. e ≡ OutOfMemory };

    fn from(_: OutOfMemory) -> TypeFault {
        TypeFault::OutOfMemory
    }
}
