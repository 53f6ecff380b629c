ghost use Rattle.std.specs.Prelude.{◌≡◌};
ghost use Rattle.sa_base.specs.Words.{kind_word};

use crate::Pos;

/// The kinds of run-time error, in the order in which a report lists them.
#[derive(Clone, Copy, Debug, PartialEq, Eq, PartialOrd, Ord)]
pub enum Kind {
    Overflow,
    Division,
    Shift,
    Index,
    Conversion,
    Assert,
}

impl Kind {
    /// Its word in a report.
    pub fn word(self) -> &'static str
        ensures { result.now ≡ kind_word self }
    {
        match self {
            Kind::Overflow => "overflow",
            Kind::Division => "division",
            Kind::Shift => "shift",
            Kind::Index => "index",
            Kind::Conversion => "conversion",
            Kind::Assert => "assert",
        }
    }
}

/// An error that may happen, and where. Alarms are in the order of their positions, then of their kinds.
#[derive(Clone, Copy, Debug, PartialEq, Eq, PartialOrd, Ord)]
pub struct Alarm {
    pub pos: Pos,
    pub kind: Kind,
}
