//! Keywords and names.

ghost use Rattle.std.specs.Prelude.{◌≡◌, IfOk, map};
ghost use Rattle.sa_tokens.specs.Bytes.{look_up};
ghost use Rattle.sa_tokens.specs.Words.{keyword_of, name_of};

use crate::keyword::Keyword;
use crate::token::Word;
use sa_base::{OutOfMemory, Text};
use std::alloc::Global;

const KEYWORDS: [(&str, Keyword); 41] = [
    ("auto", Keyword::Auto),
    ("break", Keyword::Break),
    ("case", Keyword::Case),
    ("char", Keyword::Char),
    ("const", Keyword::Const),
    ("continue", Keyword::Continue),
    ("default", Keyword::Default),
    ("do", Keyword::Do),
    ("double", Keyword::Double),
    ("else", Keyword::Else),
    ("enum", Keyword::Enum),
    ("extern", Keyword::Extern),
    ("float", Keyword::Float),
    ("for", Keyword::For),
    ("goto", Keyword::Goto),
    ("if", Keyword::If),
    ("inline", Keyword::Inline),
    ("int", Keyword::Int),
    ("long", Keyword::Long),
    ("register", Keyword::Register),
    ("restrict", Keyword::Restrict),
    ("return", Keyword::Return),
    ("short", Keyword::Short),
    ("signed", Keyword::Signed),
    ("sizeof", Keyword::Sizeof),
    ("static", Keyword::Static),
    ("struct", Keyword::Struct),
    ("switch", Keyword::Switch),
    ("typedef", Keyword::Typedef),
    ("union", Keyword::Union),
    ("unsigned", Keyword::Unsigned),
    ("void", Keyword::Void),
    ("volatile", Keyword::Volatile),
    ("while", Keyword::While),
    ("_Bool", Keyword::Bool),
    ("_Complex", Keyword::Complex),
    ("_Imaginary", Keyword::Imaginary),
    ("__ASTREE_wait_for_clock", Keyword::WaitForClock),
    ("__ASTREE_known_fact", Keyword::KnownFact),
    ("__ASTREE_assert", Keyword::Assert),
    ("__ASTREE_partition", Keyword::Partition),
];

/// What stands beside a spelling in a table.
fn look_up(spelling: &[u8], rows: &[(&str, Keyword)]) -> Option<Keyword>
    ensures { result ≡ look_up spelling.now (map (λ row. (row.0.now, row.1)) rows.now) }
{
    for (text, keyword) in rows {
        if text.as_bytes() == spelling {
            return Some(*keyword);
        }
    }
    None
}

/// The keyword that is spelled so.
#[tactic(auto, unfolding(crate::specs::Words::keyword_of))]
fn find_keyword(spelling: &[u8]) -> Option<Keyword>
    ensures { result ≡ keyword_of spelling.now }
{
    look_up(spelling, &KEYWORDS)
}

/// The keyword that is spelled so, or else the name.
pub fn key_or_name(alloc: Global, spelling: &[u8]) -> Result<Word, OutOfMemory>
    ensures { IfOk result (λ w. w ≡ name_of spelling.now) }
{
    match find_keyword(spelling) {
        Some(keyword) => Ok(Word::Key(keyword)),
        None => Ok(Word::Name(Text::of_bytes(alloc, spelling)?)),
    }
}
