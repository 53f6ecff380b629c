//! Bytes, and what a text begins with.

ghost use Rattle.std.specs.Prelude.{◌≡◌, ◌≤◌, length};
ghost use Rattle.std.specs.List.{prefix_len};
ghost use Rattle.sa_tokens.specs.Bytes.{feed, is_digit, is_word_byte, is_gap, is_skipped, begins, begins_end, is_blank, begins_return, after_gaps, after_skipped, begins_splice, ends_line, may_end_line};

pub fn is_digit(b: u8) -> bool
    ensures { result ≡ is_digit b }
{
    48 <= b && b <= 57
}

/// Whether it is a letter, a digit or an underscore.
pub fn is_word_byte(b: u8) -> bool
    ensures { result ≡ is_word_byte b }
{
    (48 <= b && b <= 57) || (65 <= b && b <= 90) || (97 <= b && b <= 122) || b == 95
}

fn is_gap(b: u8) -> bool
    ensures { result ≡ is_gap b }
{
    b == 32 || b == 9 || b == 11 || b == 12
}

pub fn begins_feed(text: &[u8]) -> bool
    ensures { result ≡ begins feed text.now }
{
    match text {
        [] => false,
        [b, ..] => *b == b'\n',
    }
}

/// Whether the byte before that text is a blank: a carriage return is one only directly before a line feed.
pub fn is_blank(b: u8, after: &[u8]) -> bool
    ensures { result ≡ is_blank b after.now }
{
    is_gap(b) || b == b'\n' || (b == b'\r' && begins_feed(after))
}

/// Whether the text begins with a carriage return that no line feed follows.
pub fn begins_return(text: &[u8]) -> bool
    ensures { result ≡ begins_return text.now }
{
    match text {
        [] => false,
        [b, after @ ..] => *b == b'\r' && !begins_feed(after),
    }
}

fn gaps_len(text: &[u8]) -> usize
    ensures value { result ≡ prefix_len is_gap text.now }
    ensures within { result ≤ length text.now }
{
    text.iter().take_while(|b| is_gap(**b)).count()
}

/// The text after blanks that end no line.
pub fn after_gaps(text: &[u8]) -> &[u8]
    ensures { result.now ≡ after_gaps text.now }
{
    &text[gaps_len(text)..]
}

/// What may stand between a backslash and the end of its line: a blank, or a NUL byte, which compilers skip there.
fn is_skipped(b: u8) -> bool
    ensures { result ≡ is_skipped b }
{
    is_gap(b) || b == 0
}

fn skipped_len(text: &[u8]) -> usize
    ensures value { result ≡ prefix_len is_skipped text.now }
    ensures within { result ≤ length text.now }
{
    text.iter().take_while(|b| is_skipped(**b)).count()
}

fn after_skipped(text: &[u8]) -> &[u8]
    ensures { result.now ≡ after_skipped text.now }
{
    &text[skipped_len(text)..]
}

fn ends_line(text: &[u8]) -> bool
    ensures { result ≡ ends_line text.now }
{
    matches!(after_skipped(text), [b'\n', ..] | [b'\r', b'\n', ..])
}

/// Whether a line ends after some blanks and NUL bytes, or a carriage return stands there.
pub fn may_end_line(text: &[u8]) -> bool
    ensures { result ≡ may_end_line text.now }
{
    matches!(after_skipped(text), [b'\n' | b'\r', ..])
}

/// Whether the text begins with a backslash or its trigraph, blanks or NUL bytes, and the end of a line, so that it joins two lines.
pub fn begins_splice(text: &[u8]) -> bool
    ensures { result ≡ begins_splice text.now }
{
    match text {
        [b'\\', after @ ..] => ends_line(after),
        [b'?', b'?', b'/', after @ ..] => ends_line(after),
        _ => false,
    }
}
