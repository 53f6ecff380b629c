//! Initialisers.

ghost use Rattle.std.specs.Prelude.{◌≡◌, []};
ghost use Rattle.sa_syntax.specs.Reading as spec;
ghost use Rattle.sa_syntax.specs.ReadStmt as stmt;
ghost use Rattle.sa_cursor.specs.Outcome.{Reads};

use crate::expr::Grammar;
use sa_cursor::{Stop, Tokens};
use sa_syntax::Init;
use sa_tokens::Punct;
use sqlite_items::Items;

impl Grammar<'_> {
    /// An initialiser.
    #[cycle(initialiser)]
    #[tactic(auto, using(crate::proofs::Rooms::init_here), unfolding(sa_syntax::specs::ReadStmt::init_by))]
    pub fn init(&self, tokens: &mut Tokens<'_>, room: usize) -> Result<Init, Stop>
        ensures { Reads (stmt.init_at self.now.names.now room tokens.old) result tokens.new }
    {
        if tokens.sees(Punct::OpenBrace) {
            self.braces(tokens, room)
        } else {
            Ok(Init::Value(self.whole(tokens, room)?))
        }
    }

    #[cycle(initialiser)]
    #[tactic(auto, using(crate::proofs::Rooms::within_deeper), unfolding(sa_syntax::specs::ReadStmt::braces))]
    fn braces(&self, tokens: &mut Tokens<'_>, room: usize) -> Result<Init, Stop>
        ensures { Reads (stmt.braces room (stmt.within (stmt.init_at self.now.names.now) room) tokens.old) result tokens.new }
    {
        let pos = tokens.opens(room, Punct::OpenBrace)?;
        let inits = self.inits(tokens, room - 1)?;
        Ok(Init::Braces(pos, inits))
    }

    /// What stands in braces: a comma may stand before the closing one.
    #[cycle(initialiser)]
    fn inits(&self, tokens: &mut Tokens<'_>, room: usize) -> Result<Items<Init>, Stop>
        ensures { Reads (stmt.inits_from (stmt.init_at self.now.names.now room) (spec.turns tokens.old) [] tokens.old) result tokens.new }
    {
        let mut found = Items::new(self.alloc);
        for _turn in 0..tokens.turns() {
            found.push(self.init(tokens, room)?)?;
            if !tokens.sees(Punct::Comma) {
                tokens.expect(Punct::CloseBrace)?;
                return Ok(found);
            }
            tokens.expect(Punct::Comma)?;
            if tokens.sees(Punct::CloseBrace) {
                tokens.expect(Punct::CloseBrace)?;
                return Ok(found);
            }
        }
        Err(Stop::Syntax)
    }
}
