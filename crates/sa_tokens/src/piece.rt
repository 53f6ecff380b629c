//! What a text begins with.

ghost use Rattle.std.specs.Prelude.{◌≡◌, ◌≤◌, ◌<◌, ◌∷◌, IfOk, length, take_while};
ghost use Rattle.std.specs.List.{prefix_len};
ghost use Rattle.sa_tokens.specs.Bytes.{is_word_byte};
ghost use Rattle.sa_tokens.specs.Marks.{mark_of};
ghost use Rattle.sa_tokens.specs.Comments.{block_comment, line_marker};
ghost use Rattle.sa_tokens.specs.Pieces.{word_piece, number_piece, block_piece, marker_piece, mark_piece, other_piece, piece_at};

use crate::bytes::{begins_splice, is_blank, is_digit, is_word_byte};
use crate::comment::{begins_digit, block_comment, line_comment, line_marker};
use crate::mark::longest_mark;
use crate::number::number;
use crate::token::Word;
use crate::word::key_or_name;
use sa_base::OutOfMemory;
use std::alloc::Global;

/// Why a text begins with no piece.
#[derive(Clone, Copy, Debug, PartialEq, Eq)]
pub enum Cause {
    BadByte,
    BadNumber,
    OpenComment,
    Directive,
}

/// What a text begins with.
#[derive(Debug, Drop)]
pub enum Piece {
    /// Nothing is left.
    End,
    /// That many bytes are passed over, and whether only blanks stand before the next one in its line.
    Space(usize, bool),
    /// A token of that many bytes.
    Spelling(usize, Word),
    Refused(Cause),
}

/// How many letters, digits and underscores stand at the front.
fn word_len(text: &[u8]) -> usize
    ensures value { result ≡ prefix_len is_word_byte text.now }
    ensures within { result ≤ length text.now }
{
    text.iter().take_while(|b| is_word_byte(**b)).count()
}

/// A name, a keyword or a number.
fn word_piece(alloc: Global, spelling: &[u8]) -> Result<Piece, OutOfMemory>
    ensures { IfOk result (λ p. p ≡ word_piece spelling.now) }
{
    if begins_digit(spelling) {
        Ok(match number(spelling) {
            None => Piece::Refused(Cause::BadNumber),
            Some(word) => Piece::Spelling(spelling.len(), word),
        })
    } else {
        let word = key_or_name(alloc, spelling)?;
        Ok(Piece::Spelling(spelling.len(), word))
    }
}

fn block_piece(after: &[u8]) -> Piece
    ensures { result ≡ block_piece (block_comment after.now) }
{
    match block_comment(after) {
        None => Piece::Refused(Cause::OpenComment),
        Some(len) => Piece::Space(2 + len, false),
    }
}

fn marker_piece(fresh: bool, after: &[u8]) -> Piece
    ensures { result ≡ marker_piece fresh (line_marker after.now) }
{
    match line_marker(after) {
        Some(len) if fresh => Piece::Space(1 + len, false),
        _ => Piece::Refused(Cause::Directive),
    }
}

fn mark_piece(text: &[u8]) -> Piece
    ensures { result ≡ mark_piece (mark_of text.now) }
{
    match longest_mark(text) {
        None => Piece::Refused(Cause::BadByte),
        Some(mark) => Piece::Spelling(mark.len, Word::Mark(mark.punct)),
    }
}

/// What a text begins with that begins with no blank, letter, digit or underscore.
#[tactic(auto, unfolding(crate::specs::Pieces::other_piece))]
fn other_piece(fresh: bool, first: u8, after: &[u8], text: &[u8]) -> Piece
    requires { text.now ≡ first ∷ after.now }
    ensures { result ≡ other_piece fresh first after.now }
{
    match text {
        [b'/', b'/', after @ ..] => Piece::Space(2 + line_comment(after), false),
        [b'/', b'*', after @ ..] => block_piece(after),
        [b'#', after @ ..] => marker_piece(fresh, after),
        _ => {
            if begins_splice(text) {
                Piece::Refused(Cause::BadByte)
            } else {
                mark_piece(text)
            }
        }
    }
}

/// What the text begins with, where `fresh` tells whether only blanks stand before it in its line.
#[tactic(auto, unfolding(crate::specs::Pieces::piece_at))]
pub fn next_piece(alloc: Global, fresh: bool, text: &[u8]) -> Result<Piece, OutOfMemory>
    ensures { IfOk result (λ p. p ≡ piece_at fresh text.now) }
{
    match text {
        [] => Ok(Piece::End),
        [first, after @ ..] => {
            if is_blank(*first, after) {
                Ok(Piece::Space(1, fresh || *first == b'\n'))
            } else if is_word_byte(*first) {
                word_piece(alloc, &text[..word_len(text)])
            } else {
                Ok(other_piece(fresh, *first, after, text))
            }
        }
    }
}
