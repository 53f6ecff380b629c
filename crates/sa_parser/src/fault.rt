//! Why a text has no tree.

use sa_base::Pos;

/// Why tokens were not read as a source.
#[derive(Clone, Copy, Debug, PartialEq, Eq)]
pub enum ParseFault {
    /// No text of the grammar goes on with the token there, or ends there.
    Syntax(Pos),
    /// More brackets, prefix operators, choices and statements are open there than may be.
    TooDeep(Pos),
    OutOfMemory,
}
