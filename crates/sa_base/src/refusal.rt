ghost use Rattle.std.specs.Prelude.{◌≡◌, IfOk, string_bytes};
ghost use Rattle.sa_base.specs.Words.{code_word};

use crate::{OutOfMemory, Pos};
use std::alloc::Global;

/// Why a source is refused.
#[derive(Clone, Copy, Debug, PartialEq, Eq)]
pub enum Code {
    /// A byte that begins no token.
    BadByte,
    /// A spelling that is no number, or a number that is too large.
    BadNumber,
    /// A comment without its end.
    OpenComment,
    /// A `#` that begins no line marker.
    Directive,
    /// A token with which the tokens before it begin no text of the grammar.
    Syntax,
    /// A rule of typing, by its number from 1.
    Typing(u8),
    /// A form of the language that the analyzer doesn't have yet.
    Unsupported,
}

impl Code {
    /// Its spelling in a refusal.
    pub fn word(self, alloc: Global) -> Result<String, OutOfMemory>
        ensures { IfOk result (λ t. string_bytes t ≡ code_word self) }
    {
        match self {
            Code::BadByte => String::from_str(alloc, "L1"),
            Code::BadNumber => String::from_str(alloc, "L2"),
            Code::OpenComment => String::from_str(alloc, "L3"),
            Code::Directive => String::from_str(alloc, "L4"),
            Code::Syntax => String::from_str(alloc, "S1"),
            Code::Typing(rule) => format!(in alloc; "T{rule}"),
            Code::Unsupported => String::from_str(alloc, "U1"),
        }
    }
}

/// A refusal of the source, and where.
#[derive(Clone, Copy, Debug, PartialEq, Eq)]
pub struct Refusal {
    pub code: Code,
    pub pos: Pos,
}
