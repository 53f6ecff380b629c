//! The body of a function.

ghost use Rattle.std.specs.Prelude.{◌≡◌};
ghost use Rattle.sa_syntax.specs.Reading as spec;
ghost use Rattle.sa_syntax.specs.ReadStmt as stmt;
ghost use Rattle.sa_cursor.specs.Outcome.{Reads};
ghost use Rattle.sa_statements.specs.Parts as parts;

use crate::parts::local;
use crate::stmt::statement;
use sa_cursor::{Stop, Tokens};
use sa_expressions::Grammar;
use sa_syntax::{Block, BlockItem};
use sa_tokens::Punct;
use sqlite_items::Items;

#[tactic(auto, unfolding(sa_syntax::specs::ReadStmt::block_item))]
fn block_item(
    grammar: &Grammar<'_>,
    tokens: &mut Tokens<'_>,
    room: usize,
) -> Result<BlockItem, Stop>
    ensures { Reads (parts.block_item grammar.now.names.now room tokens.old) result tokens.new }
{
    if grammar.begins_type(tokens) {
        let local = local(grammar, tokens, room)?;
        return Ok(BlockItem::Local(local));
    }
    let stmt = statement(grammar, tokens, room)?;
    Ok(BlockItem::Stmt(stmt))
}

/// What stands in the braces of a function.
fn outermost(
    grammar: &Grammar<'_>,
    tokens: &mut Tokens<'_>,
    room: usize,
) -> Result<Items<BlockItem>, Stop>
    ensures { Reads (spec.many stmt.no_close (parts.block_item grammar.now.names.now room) tokens.old) result tokens.new }
{
    let mut found = Items::new(grammar.alloc);
    for _turn in 0..tokens.turns() {
        if tokens.sees(Punct::CloseBrace) {
            return Ok(found);
        }
        found.push(block_item(grammar, tokens, room)?)?;
    }
    Err(Stop::Syntax)
}

/// A function's body.
#[tactic(auto, using(sa_expressions::proofs::Rooms::within_deeper), unfolding(sa_syntax::specs::ReadStmt::outermost, sa_syntax::specs::ReadStmt::block_items))]
pub fn function_body(
    grammar: &Grammar<'_>,
    tokens: &mut Tokens<'_>,
    room: usize,
) -> Result<Block, Stop>
    ensures { Reads (parts.block grammar.now.names.now room tokens.old) result tokens.new }
{
    let open = tokens.opens(room, Punct::OpenBrace)?;
    let items = outermost(grammar, tokens, room - 1)?;
    let close = tokens.expect(Punct::CloseBrace)?;
    Ok(Block { open, items, close })
}
