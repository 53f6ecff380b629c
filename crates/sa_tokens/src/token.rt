use crate::keyword::Keyword;
use crate::punct::Punct;
use sa_base::{Pos, Text};

/// A token: what it is, and where its first byte stands.
#[derive(Debug, Drop)]
pub struct Token {
    pub word: Word,
    pub pos: Pos,
}

/// What a token is.
#[derive(Debug, Drop)]
pub enum Word {
    /// An identifier (ISO C 6.4.2) that is no keyword.
    Name(Text),
    /// An integer constant (ISO C 6.4.4.1) of at most 2^64 - 1: `longs` is the number of `l` in its suffix, 0 to 2.
    Number {
        value: u64,
        unsigned: bool,
        longs: u8,
        decimal: bool,
    },
    Key(Keyword),
    Mark(Punct),
}
