//! Why a ranges file is refused.

use sa_base::{OutOfMemory, Text};

/// Why a ranges file tells no ranges.
#[derive(Debug, Drop)]
pub enum RangesFault {
    /// The bytes are no JSON value.
    NotJson,
    /// The value hasn't the form of a ranges file, by the number of the row that says so, from 1.
    Shape(u8),
    /// The program has no input of that name.
    Name(Text),
    /// The spans of that input don't begin at 0, don't rise, or go beyond the last clock that there is.
    Spans(Text),
    /// A span of that input is empty, or goes beyond the input's type.
    Bounds(Text),
    OutOfMemory,
}

impl From<OutOfMemory> for RangesFault {
    ghost use Rattle.std.specs.Prelude.{◌≡◌};
    ghost use Rattle.sa_ranges.specs.declared.fault.RangesFault.TheVariants.{OutOfMemory};

    ghost from_gives = { λ _ e. e ≡ OutOfMemory };

    fn from(_: OutOfMemory) -> RangesFault {
        RangesFault::OutOfMemory
    }
}
