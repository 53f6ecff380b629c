//! Items of a source: functions, prototypes, variables, types.

ghost use Rattle.std.specs.Prelude.{◌≡◌, ◌≤◌, ◌<◌, [], true, Some, None, IfOk, length};
ghost use Rattle.std.specs.List.{list_all};
ghost use Rattle.sa_tokens.specs.declared.punct.Punct.TheVariants as m;
ghost use Rattle.sa_syntax.specs.Reading as spec;
ghost use Rattle.sa_syntax.specs.ReadStmt as stmt;
ghost use Rattle.sa_syntax.specs.Statements.{all_named, has_name};
ghost use Rattle.sa_cursor.specs.Outcome.{Reads};
ghost use Rattle.sa_parser.specs.Parts as parts;

use sa_base::Pos;
use sa_cursor::{Stop, Tokens};
use sa_expressions::Grammar;
use sa_statements::function_body;
use sa_syntax::{Base, InitDeclr, Item, Name, Param, Params, Specifiers, Start};
use sa_tokens::{Keyword, Punct};
use sqlite_items::Items;

fn has_name(param: &Param) -> bool
    ensures { result ≡ has_name param.now }
{
    match param.name {
        None => false,
        Some(_) => true,
    }
}

fn each_has_name(params: &[Param]) -> bool
    ensures { result ≡ list_all has_name params.now }
{
    params.iter().all(|param| has_name(param))
}

/// Whether each parameter has a name.
fn all_named(params: &Params) -> bool
    ensures { result ≡ all_named params.now }
{
    match params {
        Params::Empty | Params::Void => true,
        Params::List(list) => each_has_name(list.as_slice()),
    }
}

/// Whether the type is a struct with its fields and nothing else.
#[tactic(auto, unfolding(sa_syntax::specs::ReadStmt::struct_of))]
fn is_struct(ty: &Specifiers) -> bool
    ensures { result ≡ parts.is_some (stmt.struct_of ty.now) }
{
    ty.qualifiers.is_empty() && matches!(ty.base, Base::Struct(_))
}

// ---- variables

/// A declared name of the file, and what it begins with.
#[tactic(auto, unfolding(sa_syntax::specs::ReadStmt::init_declr))]
fn init_declr(
    grammar: &Grammar<'_>,
    tokens: &mut Tokens<'_>,
    room: usize,
) -> Result<InitDeclr, Stop>
    ensures { Reads (stmt.init_declr grammar.now.names.now room tokens.old) result tokens.new }
{
    let declr = grammar.declr(tokens, room)?;
    if !tokens.sees(Punct::Equal) {
        return Ok(InitDeclr {
            declr,
            start: Start::Nothing,
        });
    }
    let pos = tokens.expect(Punct::Equal)?;
    let init = grammar.init(tokens, room)?;
    Ok(InitDeclr {
        declr,
        start: Start::Init(pos, init),
    })
}

/// The declared names of the file up to the `;`.
fn init_declrs(
    grammar: &Grammar<'_>,
    tokens: &mut Tokens<'_>,
    room: usize,
) -> Result<Items<InitDeclr>, Stop>
    ensures { Reads (stmt.list m.Semicolon (stmt.init_declr grammar.now.names.now room) tokens.old) result tokens.new }
{
    let mut found = Items::new(grammar.alloc);
    for _turn in 0..tokens.turns() {
        found.push(init_declr(grammar, tokens, room)?)?;
        if !tokens.sees(Punct::Comma) {
            tokens.expect(Punct::Semicolon)?;
            return Ok(found);
        }
        tokens.skip();
    }
    Err(Stop::Syntax)
}

// ---- functions

fn star(tokens: &mut Tokens<'_>) -> Result<Option<Pos>, Stop>
    ensures { Reads (parts.star tokens.old) result tokens.new }
{
    if !tokens.sees(Punct::Star) {
        return Ok(None);
    }
    let pos = tokens.expect(Punct::Star)?;
    Ok(Some(pos))
}

/// A parameter.
#[tactic(auto, unfolding(sa_syntax::specs::ReadStmt::param))]
fn param(grammar: &Grammar<'_>, tokens: &mut Tokens<'_>, room: usize) -> Result<Param, Stop>
    ensures { Reads (stmt.param grammar.now.names.now room tokens.old) result tokens.new }
{
    let ty = grammar.specifiers(tokens, room)?;
    let star = star(tokens)?;
    if !tokens.sees_name() {
        return Ok(Param {
            ty,
            star,
            name: None,
        });
    }
    let name = tokens.any_name(grammar.alloc)?;
    Ok(Param {
        ty,
        star,
        name: Some(name),
    })
}

fn param_list(
    grammar: &Grammar<'_>,
    tokens: &mut Tokens<'_>,
    room: usize,
) -> Result<Items<Param>, Stop>
    ensures { Reads (stmt.list m.CloseParen (stmt.param grammar.now.names.now room) tokens.old) result tokens.new }
{
    let mut found = Items::new(grammar.alloc);
    for _turn in 0..tokens.turns() {
        found.push(param(grammar, tokens, room)?)?;
        if !tokens.sees(Punct::Comma) {
            tokens.expect(Punct::CloseParen)?;
            return Ok(found);
        }
        tokens.skip();
    }
    Err(Stop::Syntax)
}

/// The parameters after the opening bracket.
#[tactic(auto, unfolding(sa_syntax::specs::ReadStmt::params))]
fn params(grammar: &Grammar<'_>, tokens: &mut Tokens<'_>, room: usize) -> Result<Params, Stop>
    ensures { Reads (stmt.params grammar.now.names.now room tokens.old) result tokens.new }
{
    if tokens.sees(Punct::CloseParen) {
        tokens.skip();
        return Ok(Params::Empty);
    }
    if tokens.sees_void_alone() {
        tokens.skip();
        tokens.skip();
        return Ok(Params::Void);
    }
    let list = param_list(grammar, tokens, room)?;
    Ok(Params::List(list))
}

/// What stands after a function's head.
#[tactic(auto, unfolding(sa_syntax::specs::ReadStmt::ends, sa_syntax::specs::ReadStmt::body))]
fn ends(
    grammar: &Grammar<'_>,
    tokens: &mut Tokens<'_>,
    room: usize,
    ty: Specifiers,
    name: Name,
    params: Params,
) -> Result<Item, Stop>
    ensures { Reads (stmt.ends grammar.now.names.now room ty name params tokens.old) result tokens.new }
{
    if tokens.sees(Punct::Semicolon) {
        tokens.skip();
        return Ok(Item::Proto(ty, name, params));
    }
    if !all_named(&params) {
        return Err(Stop::Syntax);
    }
    let block = function_body(grammar, tokens, room)?;
    Ok(Item::Func(ty, name, params, block))
}

/// A function or prototype after its type.
#[tactic(auto, using(sa_expressions::proofs::Rooms::within_deeper), unfolding(sa_syntax::specs::ReadStmt::function))]
fn function(
    grammar: &Grammar<'_>,
    tokens: &mut Tokens<'_>,
    room: usize,
    ty: Specifiers,
) -> Result<Item, Stop>
    ensures { Reads (stmt.function grammar.now.names.now room ty tokens.old) result tokens.new }
{
    let name = tokens.any_name(grammar.alloc)?;
    tokens.opens(room, Punct::OpenParen)?;
    let params = params(grammar, tokens, room - 1)?;
    ends(grammar, tokens, room, ty, name, params)
}

// ---- items of a source

#[tactic(auto, unfolding(sa_syntax::specs::ReadStmt::typedef))]
fn typedef(grammar: &Grammar<'_>, tokens: &mut Tokens<'_>, room: usize) -> Result<Item, Stop>
    ensures { Reads (stmt.typedef grammar.now.names.now room tokens.old) result tokens.new }
{
    let pos = tokens.take()?;
    let ty = grammar.specifiers(tokens, room)?;
    let name = tokens.any_name(grammar.alloc)?;
    tokens.expect(Punct::Semicolon)?;
    Ok(Item::Typedef(pos, ty, name))
}

#[tactic(auto, unfolding(sa_syntax::specs::ReadStmt::named_item, sa_syntax::specs::ReadStmt::global))]
fn named_item(
    grammar: &Grammar<'_>,
    tokens: &mut Tokens<'_>,
    room: usize,
    ty: Specifiers,
) -> Result<Item, Stop>
    ensures { Reads (stmt.named_item grammar.now.names.now room ty tokens.old) result tokens.new }
{
    if tokens.sees_function() {
        return function(grammar, tokens, room, ty);
    }
    let declrs = init_declrs(grammar, tokens, room)?;
    Ok(Item::Global(ty, declrs))
}

/// An item that begins with a type.
#[tactic(auto, unfolding(sa_syntax::specs::ReadStmt::declared))]
fn declared(grammar: &Grammar<'_>, tokens: &mut Tokens<'_>, room: usize) -> Result<Item, Stop>
    ensures { Reads (stmt.declared grammar.now.names.now room tokens.old) result tokens.new }
{
    let pos = tokens.pos();
    let ty = grammar.specifiers(tokens, room)?;
    if is_struct(&ty) && tokens.sees(Punct::Semicolon) {
        return struct_item(tokens, pos, ty);
    }
    named_item(grammar, tokens, room, ty)
}

/// An item.
#[tactic(auto, unfolding(sa_syntax::specs::ReadStmt::an_item))]
pub fn item(grammar: &Grammar<'_>, tokens: &mut Tokens<'_>, room: usize) -> Result<Item, Stop>
    ensures { Reads (stmt.an_item grammar.now.names.now room tokens.old) result tokens.new }
{
    match tokens.key() {
        Some(Keyword::Typedef) => typedef(grammar, tokens, room),
        _ => declared(grammar, tokens, room),
    }
}

/// A struct at its `;`.
#[tactic(auto, using(crate::proofs::Structures::struct_bare), unfolding(sa_syntax::specs::ReadStmt::struct_of))]
fn struct_item(tokens: &mut Tokens<'_>, pos: Pos, ty: Specifiers) -> Result<Item, Stop>
    requires { parts.is_some (stmt.struct_of ty) ≡ true }
    ensures { Reads (parts.struct_item pos (stmt.struct_of ty) tokens.old) result tokens.new }
{
    let Specifiers { base, .. } = ty;
    match base {
        Base::Struct(body) => {
            tokens.skip();
            Ok(Item::Struct(pos, body))
        }
        _ => Err(Stop::Syntax),
    }
}
