//! The tree of a whole source.

ghost use Rattle.std.specs.Prelude.{◌≡◌, ◌<◌, [], Some, None, IfOk, IfErr, length, slice_get};
ghost use Rattle.sa_syntax.specs.Reading as spec;
ghost use Rattle.sa_syntax.specs.ReadStmt as stmt;
ghost use Rattle.sa_syntax.specs.Refusals.{IsSource};
ghost use Rattle.sa_parser.specs.Faults.{IsFault};
ghost use Rattle.sa_cursor.specs.Outcome.{Reads};
ghost use Rattle.sa_parser.specs.Parts as parts;

use crate::fault::ParseFault;
use crate::unit::item;
use sa_base::Pos;
use sa_cursor::{Stop, Tokens, TypeNames};
use sa_expressions::Grammar;
use sa_syntax::{Item, Unit};
use sa_tokens::Token;
use sqlite_items::Items;
use std::alloc::Global;

/// So many brackets, prefix operators, choices and statements may be open at a token.
const MOST_OPEN: usize = 200;

fn items(alloc: Global, tokens: &mut Tokens<'_>, room: usize) -> Result<Items<Item>, Stop>
    ensures { Reads (stmt.items_from room (spec.turns tokens.old) [] [] tokens.old) result tokens.new }
{
    let mut names = TypeNames::new(alloc);
    let mut found = Items::new(alloc);
    for _turn in 0..tokens.turns() {
        if tokens.is_empty() {
            return Ok(found);
        }
        let grammar = Grammar {
            alloc,
            names: &names,
        };
        let item = item(&grammar, tokens, room)?;
        names.declare_item(alloc, &item)?;
        found.push(item)?;
    }
    Err(Stop::Syntax)
}

/// The place of the token of that number, or the one after the last token.
fn place_of(tokens: &[Token], at: usize, end: Pos) -> Pos
    ensures { result ≡ parts.place_of end (slice_get tokens.now at) }
{
    match tokens.get(at) {
        Some(token) => token.pos,
        None => end,
    }
}

fn fault_at(stop: Stop, pos: Pos) -> ParseFault
    ensures { result ≡ parts.fault_at stop pos }
{
    match stop {
        Stop::Syntax => ParseFault::Syntax(pos),
        Stop::TooDeep => ParseFault::TooDeep(pos),
        Stop::OutOfMemory => ParseFault::OutOfMemory,
    }
}

/// The tree of a source, whose last byte stands before `end`. Where there is none it errs at the first token with which the tokens
/// up to it begin no text of the grammar, or at `end` where they begin one and are none, with `Syntax`; or with `TooDeep` at a token
/// before that, the first at which more than 200 brackets, prefix operators, choices and statements are open.
pub fn parse(alloc: Global, tokens: &[Token], end: Pos) -> Result<Unit, ParseFault>
    ensures ok { IfOk result (IsSource tokens.now) }
    ensures fault { IfErr result (IsFault tokens.now end) }
{
    sa_syntax::readings_are_sources();
    sa_syntax::tells_depth();
    sa_syntax::tells_place();
    // No memory holds so many.
    if tokens.len() == usize::MAX {
        return Err(ParseFault::OutOfMemory);
    }
    let mut cursor = Tokens::new(tokens);
    match items(alloc, &mut cursor, MOST_OPEN) {
        Ok(items) => Ok(Unit { items }),
        Err(stop) => {
            let at = tokens.len().saturating_sub(cursor.left());
            Err(fault_at(stop, place_of(tokens, at, end)))
        }
    }
}
