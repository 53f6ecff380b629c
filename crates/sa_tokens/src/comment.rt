//! Comments and line markers: how many bytes are passed over, by what follows their opening.

ghost use Rattle.std.specs.Prelude.{◌≡◌, ◌≤◌, ◌+◌, IfSome, codes, length};
ghost use Rattle.sa_tokens.specs.Bytes.{begins, until};
ghost use Rattle.sa_tokens.specs.Comments.{ends_comment, line_comment, is_doubtful_star, ends_block, block_comment, begins_marker, begins_digit, spoils, ends_marker, line_marker, closed_after, marker_up_to};

use crate::bytes::{after_gaps, begins_feed, begins_return, begins_splice, is_digit, may_end_line};

fn ends_comment(text: &[u8]) -> bool
    ensures { result ≡ ends_comment text.now }
{
    begins_feed(text) || begins_splice(text) || begins_return(text)
}

/// How many bytes of a comment follow its `//`.
pub fn line_comment(text: &[u8]) -> usize
    ensures value { result ≡ line_comment text.now }
    ensures within { result ≤ length text.now }
{
    let mut at = 0;
    while at < text.len() && !ends_comment(&text[at..]) {
        at += 1;
    }
    at
}

fn is_closed(text: &[u8]) -> bool
    ensures { result ≡ begins (codes "*/") text.now }
{
    matches!(text, [b'*', b'/', ..])
}

/// Whether the text begins with a star that might end a comment, after a join of two lines or after a lone carriage return.
fn is_doubtful_star(text: &[u8]) -> bool
    ensures { result ≡ is_doubtful_star text.now }
{
    match text {
        [b'*', b'\\', after @ ..] => may_end_line(after),
        [b'*', b'?', b'?', b'/', after @ ..] => may_end_line(after),
        _ => false,
    }
}

fn ends_block(text: &[u8]) -> bool
    ensures { result ≡ ends_block text.now }
{
    is_closed(text) || is_doubtful_star(text)
}

fn block_len(text: &[u8]) -> usize
    ensures value { result ≡ until ends_block text.now }
    ensures within { result ≤ length text.now }
{
    let mut at = 0;
    while at < text.len() && !ends_block(&text[at..]) {
        at += 1;
    }
    at
}

/// How many bytes of a comment follow its `/*`, None where it has no end.
pub fn block_comment(text: &[u8]) -> Option<usize>
    ensures value { result ≡ block_comment text.now }
    ensures within { IfSome result (λ n. n ≤ length text.now) }
{
    let len = block_len(text);
    is_closed(&text[len..]).then_some(len + 2)
}

pub fn begins_digit(text: &[u8]) -> bool
    ensures { result ≡ begins_digit text.now }
{
    match text {
        [] => false,
        [b, ..] => is_digit(*b),
    }
}

fn begins_marker(text: &[u8]) -> bool
    ensures { result ≡ begins_marker text.now }
{
    begins_digit(after_gaps(text))
        || matches!(
            text,
            [b'l', b'i', b'n', b'e', ..] | [b'p', b'r', b'a', b'g', b'm', b'a', ..]
        )
}

/// Whether the text begins with what a line that is skipped doesn't have.
fn spoils(text: &[u8]) -> bool
    ensures { result ≡ spoils text.now }
{
    matches!(text, [b'/', b'*', ..]) || begins_splice(text) || begins_return(text)
}

fn ends_marker(text: &[u8]) -> bool
    ensures { result ≡ ends_marker text.now }
{
    begins_feed(text) || spoils(text)
}

fn marker_len(text: &[u8]) -> usize
    ensures value { result ≡ until ends_marker text.now }
    ensures within { result ≤ length text.now }
{
    let mut at = 0;
    while at < text.len() && !ends_marker(&text[at..]) {
        at += 1;
    }
    at
}

/// How many bytes of a line marker follow its `#`, None where the line isn't one.
pub fn line_marker(text: &[u8]) -> Option<usize>
    ensures value { result ≡ line_marker text.now }
    ensures within { IfSome result (λ n. n ≤ length text.now) }
{
    let len = marker_len(text);
    (begins_marker(text) && !spoils(&text[len..])).then_some(len)
}
