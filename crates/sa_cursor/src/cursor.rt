//! A cursor over the tokens of a source.

ghost use Rattle.std.specs.Prelude.{◌≡◌, ◌≤◌, ◌<◌, IfOk, suc, length};
ghost use Rattle.sa_syntax.specs.Reading as spec;
ghost use Rattle.sa_syntax.specs.Words as words;
ghost use Rattle.sa_syntax.specs.Trees as tree;
ghost use Rattle.sa_syntax.specs.ReadExpr as read;
ghost use Rattle.sa_syntax.specs.ReadStmt as stmt;
ghost use Rattle.sa_cursor.specs.Cursor as cursor;
ghost use Rattle.sa_cursor.specs.Outcome.{Reads};

use crate::fault::Stop;
use crate::names::TypeNames;
use sa_base::{OutOfMemory, Pos, Text};
use sa_syntax::Name;
use sa_tokens::{Keyword, Punct, Token, Word};
use std::alloc::Global;
use std::marker::Model;

/// The tokens that are left.
#[derive(Drop)]
pub struct Tokens<'a> {
    rest: &'a [Token],
}

impl<'a> Model for Tokens<'a> {
    ghost use Rattle.std.specs.Prelude.{List};
    ghost use Rattle.sa_tokens.specs.declared.token.Token.{Token};

    ghost Value = { List Token };

    ghost view = { λ t. t.rest.now };

    ghost use Rattle.std.specs.Prelude.{length, ◌<◌};

    ghost invariant = { λ t. length t.rest.now < 18446744073709551615 };
}

fn same_mark(a: Punct, b: Punct) -> bool
    ensures { result ≡ spec.same_mark a b }
{
    a == b
}

impl<'a> Tokens<'a> {
    pub fn new(tokens: &'a [Token]) -> Tokens<'a>
        requires { length tokens.now < 18446744073709551615 }
        ensures { result ≡ tokens.now }
    {
        Tokens { rest: tokens }
    }

    /// The mark at the front.
    #[tactic(auto, unfolding(sa_syntax::specs::Reading::mark_at))]
    pub fn mark(&self) -> Option<Punct>
        ensures { result ≡ spec.mark_at self.now }
    {
        match self.rest {
            [
                Token {
                    word: Word::Mark(mark),
                    ..
                },
                ..
            ] => Some(*mark),
            _ => None,
        }
    }

    /// The keyword at the front.
    #[tactic(auto, unfolding(sa_syntax::specs::Reading::key_at))]
    pub fn key(&self) -> Option<Keyword>
        ensures { result ≡ spec.key_at self.now }
    {
        match self.rest {
            [
                Token {
                    word: Word::Key(key),
                    ..
                },
                ..
            ] => Some(*key),
            _ => None,
        }
    }

    /// Whether this mark comes next.
    #[tactic(auto, unfolding(sa_syntax::specs::Reading::sees))]
    pub fn sees(&self, mark: Punct) -> bool
        ensures { result ≡ spec.sees mark self.now }
    {
        match self.rest {
            [
                Token {
                    word: Word::Mark(seen),
                    ..
                },
                ..
            ] => same_mark(mark, *seen),
            _ => false,
        }
    }

    /// Takes this mark, and answers its place.
    #[tactic(auto, unfolding(sa_syntax::specs::Reading::expect))]
    pub fn expect(&mut self, mark: Punct) -> Result<Pos, Stop>
        ensures { Reads (spec.expect mark self.old) result self.new }
    {
        match self.rest {
            [
                Token {
                    word: Word::Mark(seen),
                    pos,
                },
                after @ ..,
            ] => {
                if same_mark(mark, *seen) {
                    self.rest = after;
                    Ok(*pos)
                } else {
                    Err(Stop::Syntax)
                }
            }
            _ => Err(Stop::Syntax),
        }
    }

    /// Takes what opens one more, where that many more may be open, and answers its place.
    #[tactic(auto, unfolding(sa_syntax::specs::Reading::opens_any))]
    pub fn opens_any(&mut self, room: usize) -> Result<Pos, Stop>
        ensures reads { Reads (spec.opens_any room self.old) result self.new }
        ensures some { IfOk result (λ _. 1 ≤ room) }
    {
        match self.rest {
            [] => Err(Stop::Syntax),
            [token, after @ ..] => {
                if room == 0 {
                    Err(Stop::TooDeep)
                } else {
                    self.rest = after;
                    Ok(token.pos)
                }
            }
        }
    }

    /// Takes this mark, which opens one more, where that many more may be open, and answers its place.
    #[tactic(auto, unfolding(sa_syntax::specs::Reading::opens))]
    pub fn opens(&mut self, room: usize, mark: Punct) -> Result<Pos, Stop>
        ensures reads { Reads (spec.opens room mark self.old) result self.new }
        ensures some { IfOk result (λ _. 1 ≤ room) }
    {
        if self.sees(mark) {
            self.opens_any(room)
        } else {
            Err(Stop::Syntax)
        }
    }

    /// More turns than a loop takes that goes past a token in each.
    pub fn turns(&self) -> usize
        ensures { result ≡ spec.turns self.now }
    {
        self.rest.len() + 1
    }

    /// How many tokens are left.
    pub fn left(&self) -> usize
        ensures { result ≡ length self.now }
    {
        self.rest.len()
    }

    /// The place of the token at the front.
    pub fn pos(&self) -> Pos
        ensures { result ≡ tree.pos_of self.now }
    {
        match self.rest {
            [] => Pos { line: 1, col: 1 },
            [token, ..] => token.pos,
        }
    }

    /// Goes past the token at the front.
    pub fn skip(&mut self)
        ensures { self.new ≡ spec.after self.old }
    {
        match self.rest {
            [] => {}
            [_, after @ ..] => self.rest = after,
        }
    }

    /// Takes the token at the front, and answers its place.
    pub fn take(&mut self) -> Result<Pos, Stop>
        ensures { Reads (stmt.takes self.old) result self.new }
    {
        match self.rest {
            [] => Err(Stop::Syntax),
            [token, after @ ..] => {
                self.rest = after;
                Ok(token.pos)
            }
        }
    }

    /// Takes a name, whatever it was declared as.
    #[tactic(auto, unfolding(sa_syntax::specs::Reading::any_name, sa_syntax::specs::Reading::name_at))]
    pub fn any_name(&mut self, alloc: Global) -> Result<Name, Stop>
        ensures { Reads (spec.any_name self.old) result self.new }
    {
        match self.rest {
            [
                Token {
                    word: Word::Name(text),
                    pos,
                },
                after @ ..,
            ] => {
                let name = copy_name(alloc, text, *pos)?;
                self.rest = after;
                Ok(name)
            }
            _ => Err(Stop::Syntax),
        }
    }

    /// Takes a name that is no type name.
    #[tactic(auto, unfolding(sa_syntax::specs::Reading::variable, sa_syntax::specs::Reading::name_at))]
    pub fn variable(&mut self, alloc: Global, names: &TypeNames) -> Result<Name, Stop>
        ensures { Reads (spec.variable names.now self.old) result self.new }
    {
        match self.rest {
            [
                Token {
                    word: Word::Name(text),
                    pos,
                },
                after @ ..,
            ] => {
                if names.contains(text.bytes()) {
                    return Err(Stop::Syntax);
                }
                let name = copy_name(alloc, text, *pos)?;
                self.rest = after;
                Ok(name)
            }
            _ => Err(Stop::Syntax),
        }
    }

    /// Whether the name at the front is a type name.
    #[tactic(auto, unfolding(sa_syntax::specs::Reading::name_at))]
    pub fn sees_type_name(&self, names: &TypeNames) -> bool
        ensures { result ≡ read.is_type_at names.now (spec.name_at self.now) }
    {
        match self.rest {
            [
                Token {
                    word: Word::Name(text),
                    ..
                },
                ..
            ] => names.contains(text.bytes()),
            _ => false,
        }
    }

    /// The tokens after the next one.
    pub fn ahead(&self) -> Tokens<'a>
        ensures { result ≡ spec.after self.now }
    {
        match self.rest {
            [] => Tokens { rest: self.rest },
            [_, after @ ..] => Tokens { rest: after },
        }
    }

    /// Whether a name comes next.
    #[tactic(auto, unfolding(sa_syntax::specs::Reading::name_at))]
    pub fn sees_name(&self) -> bool
        ensures { result ≡ read.is_some (spec.name_at self.now) }
    {
        matches!(
            self.rest,
            [
                Token {
                    word: Word::Name(_),
                    ..
                },
                ..
            ]
        )
    }

    /// The integer constant at the front: its value, whether it has a `u`, how many `l`, whether it is decimal.
    #[tactic(auto, unfolding(crate::specs::Cursor::number_at))]
    pub fn number(&self) -> Option<(u64, bool, u8, bool)>
        ensures { result ≡ cursor.number_at self.now }
    {
        match self.rest {
            [
                Token {
                    word: Word::Number {
                        value,
                        unsigned,
                        longs,
                        decimal,
                    },
                    ..
                },
                ..
            ] => Some((*value, *unsigned, *longs, *decimal)),
            _ => None,
        }
    }

    /// Whether a star comes next.
    pub fn sees_star(&self) -> bool
        ensures { result ≡ words.begins_with_star self.now }
    {
        matches!(
            self.rest,
            [
                Token {
                    word: Word::Mark(Punct::Star),
                    ..
                },
                ..
            ]
        )
    }

    /// Whether `else` comes next.
    pub fn sees_else(&self) -> bool
        ensures { result ≡ words.begins_with_else self.now }
    {
        matches!(
            self.rest,
            [
                Token {
                    word: Word::Key(Keyword::Else),
                    ..
                },
                ..
            ]
        )
    }

    /// Whether a label of a switch comes next.
    pub fn sees_label(&self) -> bool
        ensures { result ≡ words.begins_with_label self.now }
    {
        matches!(
            self.rest,
            [
                Token {
                    word: Word::Key(Keyword::Case | Keyword::Default),
                    ..
                },
                ..
            ]
        )
    }

    /// Whether `void` and `)` come next.
    #[tactic(auto, unfolding(sa_syntax::specs::Words::is_void_alone))]
    pub fn sees_void_alone(&self) -> bool
        ensures { result ≡ words.is_void_alone self.now }
    {
        matches!(
            self.rest,
            [
                Token {
                    word: Word::Key(Keyword::Void),
                    ..
                },
                Token {
                    word: Word::Mark(Punct::CloseParen),
                    ..
                },
                ..
            ]
        )
    }

    /// Whether a name that is no type name comes next.
    #[tactic(auto, unfolding(sa_syntax::specs::Reading::name_at))]
    pub fn sees_variable(&self, names: &TypeNames) -> bool
        ensures { result ≡ read.is_some (spec.unless_type names.now (spec.name_at self.now)) }
    {
        match self.rest {
            [
                Token {
                    word: Word::Name(text),
                    ..
                },
                ..
            ] => !names.contains(text.bytes()),
            _ => false,
        }
    }

    /// Whether a name that is no type name and an opening bracket come next.
    #[tactic(auto, using(crate::proofs::Fronts::both_seen), unfolding(sa_syntax::specs::ReadStmt::sees_call))]
    pub fn sees_call(&self, names: &TypeNames) -> bool
        ensures { result ≡ stmt.sees_call names.now self.now }
    {
        self.sees_variable(names) && self.sees_after(Punct::OpenParen)
    }

    /// Whether a name and an opening bracket come next.
    #[tactic(auto, using(crate::proofs::Fronts::both_seen), unfolding(sa_syntax::specs::ReadStmt::sees_function))]
    pub fn sees_function(&self) -> bool
        ensures { result ≡ stmt.sees_function self.now }
    {
        self.sees_name() && self.sees_after(Punct::OpenParen)
    }

    /// Whether no token is left.
    pub fn is_empty(&self) -> bool
        ensures { result ≡ cursor.is_end self.now }
    {
        self.rest.is_empty()
    }

    /// Whether this mark comes after the next token.
    #[tactic(auto, unfolding(sa_syntax::specs::Reading::sees))]
    pub fn sees_after(&self, mark: Punct) -> bool
        ensures { result ≡ spec.sees mark (spec.after self.now) }
    {
        match self.rest {
            [
                _,
                Token {
                    word: Word::Mark(seen),
                    ..
                },
                ..
            ] => same_mark(mark, *seen),
            _ => false,
        }
    }

    /// Whether `*`, a name and `)` come after the next token.
    #[tactic(auto, unfolding(sa_syntax::specs::Words::is_through))]
    pub fn sees_through(&self) -> bool
        ensures { result ≡ words.is_through (spec.after self.now) }
    {
        match self.rest {
            [
                _,
                Token {
                    word: Word::Mark(Punct::Star),
                    ..
                },
                Token {
                    word: Word::Name(_),
                    ..
                },
                Token {
                    word: Word::Mark(Punct::CloseParen),
                    ..
                },
                ..
            ] => true,
            _ => false,
        }
    }
}

fn copy_name(alloc: Global, text: &Text, pos: Pos) -> Result<Name, OutOfMemory>
    ensures { IfOk result (λ x. x ≡ words.named text.now pos) }
{
    Ok(Name {
        text: Text::of_bytes(alloc, text.bytes())?,
        pos,
    })
}
