//! The tokens of a source: one pass over its bytes, which keeps the place as it goes.

ghost use Rattle.std.specs.Prelude.{◌≡◌, ◌≤◌, ◌+◌, IfOk, IfErr, length};
ghost use Rattle.sa_tokens.specs.Lexed.{pos_after, pos_past, end_pos, fault_at, IsLexed, IsAnswer};

use crate::fault::TokenFault;
use crate::piece::{Cause, Piece, next_piece};
use crate::token::Token;
use sa_base::{Limit, Pos};
use std::alloc::Global;

const FIRST: Pos = Pos { line: 1, col: 1 };

fn pos_after(pos: Pos, b: u8) -> Pos
    requires { pos.line + pos.col ≤ 4194306 }
    ensures { result ≡ pos_after pos b }
{
    if b == b'\n' {
        Pos {
            line: pos.line + 1,
            col: 1,
        }
    } else {
        Pos {
            line: pos.line,
            col: pos.col + 1,
        }
    }
}

/// The place after these bytes, the first of which stands at `pos`.
fn pos_past(pos: Pos, bytes: &[u8]) -> Pos
    requires col { 1 ≤ pos.col }
    requires small { pos.line + pos.col + length bytes.now ≤ 4194306 }
    ensures value { result ≡ pos_past pos bytes.now }
    ensures col { 1 ≤ result.col }
    ensures small { result.line + result.col ≤ pos.line + pos.col + length bytes.now }
{
    let mut pos = pos;
    for b in bytes {
        pos = pos_after(pos, *b);
    }
    pos
}

/// The place after the last byte of a source.
pub fn end_of(bytes: &[u8]) -> Pos
    requires { length bytes.now ≤ 4194304 }
    ensures { result ≡ end_pos bytes.now }
{
    pos_past(FIRST, bytes)
}

fn fault_at(cause: Cause, pos: Pos) -> TokenFault
    ensures { result ≡ fault_at cause pos }
{
    match cause {
        Cause::BadByte => TokenFault::BadByte(pos),
        Cause::BadNumber => TokenFault::BadNumber(pos),
        Cause::OpenComment => TokenFault::OpenComment(pos),
        Cause::Directive => TokenFault::Directive(pos),
    }
}

/// The tokens of a source in order, each at its position. It errs with the first place that begins no token, comment or blank,
/// unless more than 1,000,000 tokens stand before it, which is an error too.
pub fn tokens(alloc: Global, bytes: &[u8]) -> Result<Vec<Token>, TokenFault>
    requires { length bytes.now ≤ 4194304 }
    ensures lexed { IfOk result (λ ts. IsLexed bytes.now ts.items) }
    ensures refused { IfErr result (IsAnswer bytes.now) }
{
    let most = Limit::Tokens.number() as usize;
    let mut found = Vec::new(alloc);
    let mut pos = FIRST;
    let mut fresh = true;
    let mut at = 0;
    loop {
        let rest = &bytes[at..];
        match next_piece(alloc, fresh, rest)? {
            Piece::End => return Ok(found),
            Piece::Refused(cause) => return Err(fault_at(cause, pos)),
            Piece::Space(len, still) => {
                pos = pos_past(pos, &rest[..len]);
                fresh = still;
                at += len;
            }
            Piece::Spelling(len, word) => {
                if found.len() == most {
                    return Err(TokenFault::TooManyTokens);
                }
                found.push(Token { word, pos })?;
                pos = pos_past(pos, &rest[..len]);
                fresh = false;
                at += len;
            }
        }
    }
}
