//! The places of first tokens.

ghost use Rattle.std.specs.Prelude.{◌≡◌};
ghost use Rattle.sa_scopes.specs.First as spec;

use sa_base::Pos;
use sa_syntax::{BlockItem, Expr, Init, Place, PlaceBase, Simple, Stmt};

fn base_pos(base: &PlaceBase) -> Pos
    ensures { result ≡ spec.base_pos base.now }
{
    match base {
        PlaceBase::Name(name) => name.pos,
        PlaceBase::Through(pos, _, _) | PlaceBase::Star(pos, _) => *pos,
    }
}

/// The place of a place's first token.
pub fn place_pos(place: &Place) -> Pos
    ensures { result ≡ spec.place_pos place.now }
{
    base_pos(&place.base)
}

/// The place of an expression's first token.
#[tactic(auto, using(crate::proofs::FirstRows::first_rows))]
pub fn expr_pos(e: &Expr) -> Pos
    ensures { result ≡ spec.expr_pos e.now }
{
    match e {
        Expr::Number(_, _, _, _, pos)
        | Expr::Bracket(pos, _)
        | Expr::Prefix(_, pos, _)
        | Expr::Cast(pos, _, _) => *pos,
        Expr::Place(place) => place_pos(place),
        Expr::Chain(first, _) => expr_pos(first.get()),
        Expr::Choice(condition, _, _, _) => expr_pos(condition.get()),
    }
}

/// The place of an initialiser's first token.
pub fn init_pos(init: &Init) -> Pos
    ensures { result ≡ spec.init_pos init.now }
{
    match init {
        Init::Value(value) => expr_pos(value),
        Init::Braces(pos, _) => *pos,
    }
}

fn simple_pos(simple: &Simple) -> Pos
    ensures { result ≡ spec.simple_pos simple.now }
{
    match simple {
        Simple::Assign(place, _, _)
        | Simple::Compound(place, _, _, _)
        | Simple::After(place, _, _) => { place_pos(place) }
        Simple::Before(_, pos, _) => *pos,
    }
}

#[tactic(auto, unfolding(crate::specs::First::stmt_pos))]
fn stmt_pos(stmt: &Stmt) -> Pos
    ensures { result ≡ spec.stmt_pos stmt.now }
{
    match stmt {
        Stmt::Block(block) => block.open,
        Stmt::Empty(pos) => *pos,
        Stmt::Simple(simple) => simple_pos(simple),
        Stmt::Gives(place, _, _) => place_pos(place),
        Stmt::Call(call) => call.name.pos,
        Stmt::If(pos, _, _) => *pos,
        Stmt::IfElse(pos, _, _, _) => *pos,
        Stmt::While(pos, _, _) => *pos,
        Stmt::DoWhile(pos, _, _) => *pos,
        Stmt::For(pos, _, _, _, _) => *pos,
        Stmt::Switch(pos, _, _) => *pos,
        Stmt::Break(pos) => *pos,
        Stmt::Return(pos, _) => *pos,
        Stmt::Directive(pos, _) => *pos,
    }
}

/// The place of the first token of what stands in a block.
#[tactic(auto, unfolding(crate::specs::First::item_pos))]
pub fn item_pos(item: &BlockItem) -> Pos
    ensures { result ≡ spec.item_pos item.now }
{
    match item {
        BlockItem::Local(local) => local.ty.pos,
        BlockItem::Stmt(stmt) => stmt_pos(stmt),
    }
}
