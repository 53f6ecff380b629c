//! Calls, assignments, declarations in a block, and brackets.

ghost use Rattle.std.specs.Prelude.{◌≡◌, ◌≤◌, [], IfOk};
ghost use Rattle.sa_tokens.specs.declared.punct.Punct.TheVariants as m;
ghost use Rattle.sa_syntax.specs.Reading as spec;
ghost use Rattle.sa_syntax.specs.ReadStmt as stmt;
ghost use Rattle.sa_cursor.specs.Outcome.{Reads};
ghost use Rattle.sa_statements.specs.Parts as parts;

use sa_base::Pos;
use sa_cursor::{Stop, Tokens, compound_of, update_of};
use sa_expressions::Grammar;
use sa_syntax::{
    Arg, ArgValue, Call, Compound, Declr, Expr, Local, LocalDeclr, LocalStart, Place, Simple,
    Update,
};
use sa_tokens::Punct;
use sqlite_items::Items;

fn compound_at(tokens: &Tokens<'_>) -> Option<Compound>
    ensures { result ≡ stmt.compound_in (spec.mark_at tokens.now) }
{
    compound_of(tokens.mark()?)
}

fn update_at(tokens: &Tokens<'_>) -> Option<Update>
    ensures { result ≡ stmt.update_in (spec.mark_at tokens.now) }
{
    update_of(tokens.mark()?)
}

/// The two pairs of brackets of a directive without an expression, from the directive's word on.
#[tactic(auto, unfolding(sa_syntax::specs::ReadStmt::double_bracket))]
pub fn empty_brackets(tokens: &mut Tokens<'_>, room: usize) -> Result<(), Stop>
    ensures { Reads (parts.nothing room tokens.old) result tokens.new }
{
    tokens.take()?;
    tokens.opens(room, Punct::OpenParen)?;
    tokens.opens(room - 1, Punct::OpenParen)?;
    tokens.expect(Punct::CloseParen)?;
    tokens.expect(Punct::CloseParen)?;
    Ok(())
}

// ---- calls

#[tactic(auto, unfolding(sa_syntax::specs::ReadStmt::arg_value))]
fn arg_value(grammar: &Grammar<'_>, tokens: &mut Tokens<'_>, room: usize) -> Result<ArgValue, Stop>
    ensures { Reads (stmt.arg_value grammar.now.names.now room tokens.old) result tokens.new }
{
    if tokens.sees(Punct::Ampersand) {
        let pos = tokens.expect(Punct::Ampersand)?;
        let place = grammar.place(tokens, room)?;
        Ok(ArgValue::Reference(pos, place))
    } else {
        Ok(ArgValue::Value(grammar.whole(tokens, room)?))
    }
}

/// The arguments after the opening bracket, which stands at that place.
#[tactic(auto, unfolding(sa_syntax::specs::ReadStmt::args))]
fn args(
    grammar: &Grammar<'_>,
    tokens: &mut Tokens<'_>,
    room: usize,
    pos: Pos,
) -> Result<Items<Arg>, Stop>
    ensures { Reads (stmt.args grammar.now.names.now pos room tokens.old) result tokens.new }
{
    if tokens.sees(Punct::CloseParen) {
        tokens.skip();
        Ok(Items::new(grammar.alloc))
    } else {
        some_args(grammar, tokens, room, pos)
    }
}

fn some_args(
    grammar: &Grammar<'_>,
    tokens: &mut Tokens<'_>,
    room: usize,
    pos: Pos,
) -> Result<Items<Arg>, Stop>
    ensures { Reads (stmt.args_from grammar.now.names.now room (spec.turns tokens.old) pos [] tokens.old) result tokens.new }
{
    let mut found = Items::new(grammar.alloc);
    let mut before = pos;
    for _turn in 0..tokens.turns() {
        let value = arg_value(grammar, tokens, room)?;
        found.push(Arg { before, value })?;
        if !tokens.sees(Punct::Comma) {
            tokens.expect(Punct::CloseParen)?;
            return Ok(found);
        }
        before = tokens.expect(Punct::Comma)?;
    }
    Err(Stop::Syntax)
}

/// A call.
#[tactic(auto, using(sa_expressions::proofs::Rooms::within_deeper), unfolding(sa_syntax::specs::ReadStmt::call))]
pub fn call(grammar: &Grammar<'_>, tokens: &mut Tokens<'_>, room: usize) -> Result<Call, Stop>
    ensures { Reads (stmt.call grammar.now.names.now room tokens.old) result tokens.new }
{
    let name = tokens.variable(grammar.alloc, grammar.names)?;
    let pos = tokens.opens(room, Punct::OpenParen)?;
    let args = args(grammar, tokens, room - 1, pos)?;
    Ok(Call { name, args })
}

// ---- assignments

#[tactic(auto, unfolding(sa_syntax::specs::ReadStmt::before))]
fn before(
    grammar: &Grammar<'_>,
    tokens: &mut Tokens<'_>,
    room: usize,
    update: Update,
) -> Result<Simple, Stop>
    ensures { Reads (stmt.before grammar.now.names.now room update tokens.old) result tokens.new }
{
    let pos = tokens.take()?;
    let place = grammar.place(tokens, room)?;
    Ok(Simple::Before(update, pos, place))
}

/// What stands after the place that is assigned to; `star` says that the place is `*p`.
#[tactic(auto, unfolding(sa_syntax::specs::ReadStmt::assigned))]
pub fn assigned(
    grammar: &Grammar<'_>,
    tokens: &mut Tokens<'_>,
    room: usize,
    star: bool,
    place: Place,
) -> Result<Simple, Stop>
    ensures { Reads (stmt.assigned grammar.now.names.now room star place tokens.old) result tokens.new }
{
    if tokens.sees(Punct::Equal) {
        let pos = tokens.expect(Punct::Equal)?;
        let value = grammar.whole(tokens, room)?;
        return Ok(Simple::Assign(place, pos, value));
    }
    match update_at(tokens) {
        None => compounded(grammar, tokens, room, place),
        Some(update) => {
            if star {
                Err(Stop::Syntax)
            } else {
                let pos = tokens.take()?;
                Ok(Simple::After(place, update, pos))
            }
        }
    }
}

fn compounded(
    grammar: &Grammar<'_>,
    tokens: &mut Tokens<'_>,
    room: usize,
    place: Place,
) -> Result<Simple, Stop>
    ensures { Reads (stmt.compounded grammar.now.names.now room place (stmt.compound_in (spec.mark_at tokens.old)) tokens.old) result tokens.new }
{
    match compound_at(tokens) {
        None => Err(Stop::Syntax),
        Some(op) => {
            let pos = tokens.take()?;
            let value = grammar.whole(tokens, room)?;
            Ok(Simple::Compound(place, op, pos, value))
        }
    }
}

/// An assignment.
#[tactic(auto, unfolding(sa_syntax::specs::ReadStmt::simple))]
pub fn simple(grammar: &Grammar<'_>, tokens: &mut Tokens<'_>, room: usize) -> Result<Simple, Stop>
    ensures { Reads (stmt.simple grammar.now.names.now room tokens.old) result tokens.new }
{
    match update_at(tokens) {
        Some(update) => before(grammar, tokens, room, update),
        None => {
            let star = tokens.sees_star();
            let place = grammar.place(tokens, room)?;
            assigned(grammar, tokens, room, star, place)
        }
    }
}

// ---- declarations in a block

#[tactic(auto, unfolding(sa_syntax::specs::ReadStmt::local_start))]
fn local_start(
    grammar: &Grammar<'_>,
    tokens: &mut Tokens<'_>,
    room: usize,
    declr: Declr,
) -> Result<LocalDeclr, Stop>
    ensures { Reads (stmt.local_start grammar.now.names.now room declr tokens.old) result tokens.new }
{
    let pos = tokens.expect(Punct::Equal)?;
    let start = if tokens.sees_call(grammar.names) {
        LocalStart::Call(pos, call(grammar, tokens, room)?)
    } else {
        LocalStart::Init(pos, grammar.init(tokens, room)?)
    };
    Ok(LocalDeclr { declr, start })
}

#[tactic(auto, unfolding(sa_syntax::specs::ReadStmt::local_declr))]
fn local_declr(
    grammar: &Grammar<'_>,
    tokens: &mut Tokens<'_>,
    room: usize,
) -> Result<LocalDeclr, Stop>
    ensures { Reads (stmt.local_declr grammar.now.names.now room tokens.old) result tokens.new }
{
    let declr = grammar.declr(tokens, room)?;
    if tokens.sees(Punct::Equal) {
        local_start(grammar, tokens, room, declr)
    } else {
        Ok(LocalDeclr {
            declr,
            start: LocalStart::Nothing,
        })
    }
}

fn local_declrs(
    grammar: &Grammar<'_>,
    tokens: &mut Tokens<'_>,
    room: usize,
) -> Result<Items<LocalDeclr>, Stop>
    ensures { Reads (stmt.list m.Semicolon (stmt.local_declr grammar.now.names.now room) tokens.old) result tokens.new }
{
    let mut found = Items::new(grammar.alloc);
    for _turn in 0..tokens.turns() {
        found.push(local_declr(grammar, tokens, room)?)?;
        if !tokens.sees(Punct::Comma) {
            tokens.expect(Punct::Semicolon)?;
            return Ok(found);
        }
        tokens.skip();
    }
    Err(Stop::Syntax)
}

/// A declaration in a block.
#[tactic(auto, unfolding(sa_syntax::specs::ReadStmt::local))]
pub fn local(grammar: &Grammar<'_>, tokens: &mut Tokens<'_>, room: usize) -> Result<Local, Stop>
    ensures { Reads (stmt.local grammar.now.names.now room tokens.old) result tokens.new }
{
    let ty = grammar.specifiers(tokens, room)?;
    let declrs = local_declrs(grammar, tokens, room)?;
    Ok(Local { ty, declrs })
}

// ---- brackets

/// The expression of a directive in its two pairs of brackets, from the directive's word on.
#[tactic(auto, using(crate::proofs::Rooms::within_twice), unfolding(sa_syntax::specs::ReadStmt::double_bracket))]
pub fn fact(grammar: &Grammar<'_>, tokens: &mut Tokens<'_>, room: usize) -> Result<Expr, Stop>
    ensures { Reads (parts.fact grammar.now.names.now room tokens.old) result tokens.new }
{
    tokens.take()?;
    tokens.opens(room, Punct::OpenParen)?;
    tokens.opens(room - 1, Punct::OpenParen)?;
    let fact = grammar.whole(tokens, room - 2)?;
    tokens.expect(Punct::CloseParen)?;
    tokens.expect(Punct::CloseParen)?;
    Ok(fact)
}

/// An expression in brackets.
#[tactic(auto, using(sa_expressions::proofs::Rooms::within_deeper), unfolding(sa_syntax::specs::ReadStmt::condition))]
pub fn condition(grammar: &Grammar<'_>, tokens: &mut Tokens<'_>, room: usize) -> Result<Expr, Stop>
    ensures { Reads (stmt.condition grammar.now.names.now room tokens.old) result tokens.new }
{
    tokens.opens(room, Punct::OpenParen)?;
    let condition = grammar.whole(tokens, room - 1)?;
    tokens.expect(Punct::CloseParen)?;
    Ok(condition)
}
