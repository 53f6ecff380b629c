//! Marks.

ghost use Rattle.std.specs.Prelude.{◌≡◌};
ghost use Rattle.sa_tokens.specs.Marks.{mark_of};

use crate::punct::Punct;

/// A mark, and how many bytes spell it.
#[derive(Clone, Copy, Debug, PartialEq, Eq)]
pub struct Mark {
    pub len: usize,
    pub punct: Punct,
}

/// The longest mark that the text begins with.
#[tactic(auto, unfolding(crate::specs::Marks::mark_of))]
pub fn longest_mark(text: &[u8]) -> Option<Mark>
    ensures { result ≡ mark_of text.now }
{
    let (len, punct) = match text {
        [b'<', b'<', b'=', ..] => (3, Punct::ShiftLeftEqual),
        [b'>', b'>', b'=', ..] => (3, Punct::ShiftRightEqual),
        [b'-', b'>', ..] => (2, Punct::Arrow),
        [b'&', b'&', ..] => (2, Punct::AmpersandAmpersand),
        [b'+', b'+', ..] => (2, Punct::PlusPlus),
        [b'-', b'-', ..] => (2, Punct::MinusMinus),
        [b'!', b'=', ..] => (2, Punct::BangEqual),
        [b'<', b'=', ..] => (2, Punct::LessEqual),
        [b'<', b'<', ..] => (2, Punct::ShiftLeft),
        [b'>', b'=', ..] => (2, Punct::GreaterEqual),
        [b'>', b'>', ..] => (2, Punct::ShiftRight),
        [b'=', b'=', ..] => (2, Punct::EqualEqual),
        [b'|', b'|', ..] => (2, Punct::BarBar),
        [b'+', b'=', ..] => (2, Punct::PlusEqual),
        [b'-', b'=', ..] => (2, Punct::MinusEqual),
        [b'*', b'=', ..] => (2, Punct::StarEqual),
        [b'/', b'=', ..] => (2, Punct::SlashEqual),
        [b'%', b'=', ..] => (2, Punct::PercentEqual),
        [b'&', b'=', ..] => (2, Punct::AmpersandEqual),
        [b'|', b'=', ..] => (2, Punct::BarEqual),
        [b'^', b'=', ..] => (2, Punct::CaretEqual),
        [b';', ..] => (1, Punct::Semicolon),
        [b',', ..] => (1, Punct::Comma),
        [b'(', ..] => (1, Punct::OpenParen),
        [b')', ..] => (1, Punct::CloseParen),
        [b'=', ..] => (1, Punct::Equal),
        [b'[', ..] => (1, Punct::OpenBracket),
        [b']', ..] => (1, Punct::CloseBracket),
        [b'{', ..] => (1, Punct::OpenBrace),
        [b'}', ..] => (1, Punct::CloseBrace),
        [b'.', ..] => (1, Punct::Dot),
        [b'&', ..] => (1, Punct::Ampersand),
        [b'*', ..] => (1, Punct::Star),
        [b'+', ..] => (1, Punct::Plus),
        [b'-', ..] => (1, Punct::Minus),
        [b'~', ..] => (1, Punct::Tilde),
        [b'!', ..] => (1, Punct::Bang),
        [b'/', ..] => (1, Punct::Slash),
        [b'%', ..] => (1, Punct::Percent),
        [b'<', ..] => (1, Punct::Less),
        [b'>', ..] => (1, Punct::Greater),
        [b'^', ..] => (1, Punct::Caret),
        [b'|', ..] => (1, Punct::Bar),
        [b'?', ..] => (1, Punct::Question),
        [b':', ..] => (1, Punct::Colon),
        _ => return None,
    };
    Some(Mark { len, punct })
}
