ghost use Rattle.std.specs.Prelude.{◌≡◌};
ghost use Rattle.sa_base.specs.Numbers.{limit_number};
ghost use Rattle.sa_base.specs.Words.{limit_word};

/// What is counted, and refused above a number.
#[derive(Clone, Copy, Debug, PartialEq, Eq)]
pub enum Limit {
    /// Bytes of the source.
    Source,
    /// Bytes of the ranges file.
    Ranges,
    /// Tokens of the source.
    Tokens,
    /// Open brackets, pending prefix operators, open `?` and statements inside statements.
    Nesting,
    /// Labels of one switch.
    Cases,
    /// Calls on one path.
    Calls,
    /// Statements of the inlined program, blocks not counted.
    Statements,
    /// Cells of the inlined program.
    Cells,
}

impl Limit {
    /// The greatest count that is accepted.
    pub fn number(self) -> u64
        ensures { result ≡ limit_number self }
    {
        match self {
            Limit::Source | Limit::Ranges => 4_194_304,
            Limit::Tokens => 1_000_000,
            Limit::Nesting => 200,
            Limit::Cases => 1_024,
            Limit::Calls => 64,
            Limit::Statements => 200_000,
            Limit::Cells => 65_536,
        }
    }

    /// Its word in a refusal.
    pub fn word(self) -> &'static str
        ensures { result.now ≡ limit_word self }
    {
        match self {
            Limit::Source => "source",
            Limit::Ranges => "ranges",
            Limit::Tokens => "tokens",
            Limit::Nesting => "nesting",
            Limit::Cases => "cases",
            Limit::Calls => "calls",
            Limit::Statements => "statements",
            Limit::Cells => "cells",
        }
    }
}
