ghost use Rattle.std.specs.Prelude.{◌≡◌};
ghost use Rattle.sa_base.specs.Numbers.{status_number};

/// How a run of the analyzer ends.
#[derive(Clone, Copy, Debug, PartialEq, Eq)]
pub enum Status {
    /// A report without alarms was written.
    Clean,
    /// A report with at least one alarm was written.
    Alarmed,
    /// The command line has no meaning.
    Usage,
    /// The source is refused, with a code and a position.
    SourceRefused,
    /// The ranges file is refused.
    RangesRefused,
    /// A file couldn't be read. Nothing was written.
    ReadFault,
    /// The text couldn't be written whole.
    WriteFault,
    /// A counted quantity exceeds its limit.
    Limit,
    /// There wasn't memory enough. Nothing was written.
    OutOfMemory,
}

impl Status {
    /// The exit status of the program.
    pub fn number(self) -> u8
        ensures { result ≡ status_number self }
    {
        match self {
            Status::Clean => 0,
            Status::Alarmed => 1,
            Status::Usage => 2,
            Status::SourceRefused => 3,
            Status::RangesRefused => 4,
            Status::ReadFault => 5,
            Status::WriteFault => 6,
            Status::Limit => 7,
            Status::OutOfMemory => 8,
        }
    }
}
