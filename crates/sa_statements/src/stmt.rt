//! Statements.

ghost use Rattle.std.specs.Prelude.{◌≡◌, ◌≤◌, ◌≢◌, [], ◌&&◌, not, IfOk};
ghost use Rattle.sa_syntax.specs.Reading as spec;
ghost use Rattle.sa_syntax.specs.ReadStmt as stmt;
ghost use Rattle.sa_syntax.specs.ReadStmt.{bodies};
ghost use Rattle.sa_syntax.specs.Words as words;
ghost use Rattle.sa_cursor.specs.Outcome.{Reads};
ghost use Rattle.sa_statements.specs.Parts as parts;

use crate::parts::{assigned, call, condition, empty_brackets, fact, local, simple};
use sa_base::Pos;
use sa_cursor::{Stop, Tokens};
use sa_expressions::Grammar;
use sa_syntax::{Block, BlockItem, Directive, Expr, First, Group, Label, Place, Simple, Stmt};
use sa_tokens::{Keyword, Punct};
use sqlite_items::{Boxed, Items};

fn key_begins(key: Option<Keyword>) -> bool
    ensures { result ≡ stmt.test_in stmt.key_begins key }
{
    matches!(
        key,
        Some(
            Keyword::If
                | Keyword::While
                | Keyword::Do
                | Keyword::For
                | Keyword::Switch
                | Keyword::Break
                | Keyword::Return
                | Keyword::WaitForClock
                | Keyword::Partition
                | Keyword::KnownFact
                | Keyword::Assert
        )
    )
}

fn mark_begins(mark: Option<Punct>) -> bool
    ensures { result ≡ stmt.test_in stmt.mark_begins mark }
{
    matches!(
        mark,
        Some(
            Punct::OpenBrace
                | Punct::Semicolon
                | Punct::OpenParen
                | Punct::Star
                | Punct::PlusPlus
                | Punct::MinusMinus
        )
    )
}

fn goes_on(tokens: &Tokens<'_>) -> bool
    ensures { result ≡ parts.goes_on tokens.now }
{
    !tokens.sees(Punct::CloseBrace) && !tokens.sees_label()
}

#[tactic(auto, unfolding(sa_syntax::specs::ReadStmt::default))]
fn default(tokens: &mut Tokens<'_>) -> Result<Label, Stop>
    ensures { Reads (stmt.default tokens.old) result tokens.new }
{
    let pos = tokens.take()?;
    tokens.expect(Punct::Colon)?;
    Ok(Label::Default(pos))
}

#[tactic(auto, unfolding(sa_syntax::specs::ReadStmt::empty))]
fn empty(tokens: &mut Tokens<'_>) -> Result<Stmt, Stop>
    ensures { Reads (parts.empty tokens.old) result tokens.new }
{
    Ok(Stmt::Empty(tokens.take()?))
}

fn break_stmt(tokens: &mut Tokens<'_>) -> Result<Stmt, Stop>
    ensures { Reads (parts.break tokens.old) result tokens.new }
{
    let pos = tokens.take()?;
    tokens.expect(Punct::Semicolon)?;
    Ok(Stmt::Break(pos))
}

/// A directive without an expression, from its word on.
fn wait(tokens: &mut Tokens<'_>, room: usize) -> Result<Stmt, Stop>
    ensures { Reads (parts.wait room tokens.old) result tokens.new }
{
    let pos = tokens.pos();
    empty_brackets(tokens, room)?;
    tokens.expect(Punct::Semicolon)?;
    Ok(Stmt::Directive(pos, Directive::Wait))
}

fn partition(tokens: &mut Tokens<'_>, room: usize) -> Result<Stmt, Stop>
    ensures { Reads (parts.partition room tokens.old) result tokens.new }
{
    let pos = tokens.pos();
    empty_brackets(tokens, room)?;
    tokens.expect(Punct::Semicolon)?;
    Ok(Stmt::Directive(pos, Directive::Partition))
}

#[tactic(auto, unfolding(sa_syntax::specs::ReadStmt::expect_while))]
fn expect_while(tokens: &mut Tokens<'_>) -> Result<Pos, Stop>
    ensures { Reads (parts.expect_while tokens.old) result tokens.new }
{
    match tokens.key() {
        Some(Keyword::While) => tokens.take(),
        _ => Err(Stop::Syntax),
    }
}

/// Whether a statement begins here.
#[tactic(auto, unfolding(sa_syntax::specs::ReadStmt::begins_stmt))]
fn begins_stmt(grammar: &Grammar<'_>, tokens: &Tokens<'_>) -> bool
    ensures { result ≡ stmt.begins_stmt grammar.now.names.now tokens.now }
{
    key_begins(tokens.key()) || mark_begins(tokens.mark()) || tokens.sees_variable(grammar.names)
}

// ---- labels

#[tactic(auto, unfolding(sa_syntax::specs::ReadStmt::a_label, sa_syntax::specs::ReadStmt::case))]
fn label(grammar: &Grammar<'_>, tokens: &mut Tokens<'_>, room: usize) -> Result<Label, Stop>
    ensures { Reads (stmt.a_label grammar.now.names.now room tokens.old) result tokens.new }
{
    match tokens.key() {
        Some(Keyword::Case) => {
            let pos = tokens.take()?;
            let value = grammar.whole(tokens, room)?;
            tokens.expect(Punct::Colon)?;
            Ok(Label::Case(pos, value))
        }
        Some(Keyword::Default) => default(tokens),
        _ => Err(Stop::Syntax),
    }
}

/// The labels that follow.
fn more_labels(
    grammar: &Grammar<'_>,
    tokens: &mut Tokens<'_>,
    room: usize,
) -> Result<Items<Label>, Stop>
    ensures { Reads (spec.many words.begins_with_label (stmt.a_label grammar.now.names.now room) tokens.old) result tokens.new }
{
    let mut found = Items::new(grammar.alloc);
    for _turn in 0..tokens.turns() {
        if !tokens.sees_label() {
            return Ok(found);
        }
        found.push(label(grammar, tokens, room)?)?;
    }
    Err(Stop::Syntax)
}

// ---- statements without statements in them

fn simple_stmt(grammar: &Grammar<'_>, tokens: &mut Tokens<'_>, room: usize) -> Result<Stmt, Stop>
    ensures { Reads (parts.simple_stmt grammar.now.names.now room tokens.old) result tokens.new }
{
    let simple = simple(grammar, tokens, room)?;
    tokens.expect(Punct::Semicolon)?;
    Ok(Stmt::Simple(simple))
}

fn call_stmt(grammar: &Grammar<'_>, tokens: &mut Tokens<'_>, room: usize) -> Result<Stmt, Stop>
    ensures { Reads (parts.call_stmt grammar.now.names.now room tokens.old) result tokens.new }
{
    let call = call(grammar, tokens, room)?;
    tokens.expect(Punct::Semicolon)?;
    Ok(Stmt::Call(call))
}

fn gives(
    grammar: &Grammar<'_>,
    tokens: &mut Tokens<'_>,
    room: usize,
    place: Place,
) -> Result<Stmt, Stop>
    ensures { Reads (parts.gives grammar.now.names.now room place tokens.old) result tokens.new }
{
    let pos = tokens.expect(Punct::Equal)?;
    let call = call(grammar, tokens, room)?;
    tokens.expect(Punct::Semicolon)?;
    Ok(Stmt::Gives(place, pos, call))
}

/// What stands after the place that is assigned to; `star` says that the place is `*p`.
fn assigned_stmt(
    grammar: &Grammar<'_>,
    tokens: &mut Tokens<'_>,
    room: usize,
    star: bool,
    place: Place,
) -> Result<Stmt, Stop>
    ensures { Reads (parts.assigned_stmt grammar.now.names.now room star place tokens.old) result tokens.new }
{
    if tokens.sees(Punct::Equal) && tokens.ahead().sees_call(grammar.names) {
        return gives(grammar, tokens, room, place);
    }
    let simple = assigned(grammar, tokens, room, star, place)?;
    tokens.expect(Punct::Semicolon)?;
    Ok(Stmt::Simple(simple))
}

/// A statement that begins with a place or a call.
fn placed(grammar: &Grammar<'_>, tokens: &mut Tokens<'_>, room: usize) -> Result<Stmt, Stop>
    ensures { Reads (parts.placed grammar.now.names.now room tokens.old) result tokens.new }
{
    if tokens.sees_call(grammar.names) {
        return call_stmt(grammar, tokens, room);
    }
    let star = tokens.sees_star();
    let place = grammar.place(tokens, room)?;
    assigned_stmt(grammar, tokens, room, star, place)
}

fn return_stmt(grammar: &Grammar<'_>, tokens: &mut Tokens<'_>, room: usize) -> Result<Stmt, Stop>
    ensures { Reads (parts.return grammar.now.names.now room tokens.old) result tokens.new }
{
    let pos = tokens.take()?;
    let value = expr_before(grammar, tokens, room, Punct::Semicolon)?;
    tokens.expect(Punct::Semicolon)?;
    Ok(Stmt::Return(pos, value))
}

fn known_fact(grammar: &Grammar<'_>, tokens: &mut Tokens<'_>, room: usize) -> Result<Stmt, Stop>
    ensures { Reads (parts.known_fact grammar.now.names.now room tokens.old) result tokens.new }
{
    let pos = tokens.pos();
    let fact = fact(grammar, tokens, room)?;
    tokens.expect(Punct::Semicolon)?;
    Ok(Stmt::Directive(pos, Directive::KnownFact(fact)))
}

fn assert_stmt(grammar: &Grammar<'_>, tokens: &mut Tokens<'_>, room: usize) -> Result<Stmt, Stop>
    ensures { Reads (parts.assert grammar.now.names.now room tokens.old) result tokens.new }
{
    let pos = tokens.pos();
    let fact = fact(grammar, tokens, room)?;
    tokens.expect(Punct::Semicolon)?;
    Ok(Stmt::Directive(pos, Directive::Assert(fact)))
}

// ---- the head of a `for`

#[tactic(auto, unfolding(sa_syntax::specs::ReadStmt::expr_before))]
fn expr_before(
    grammar: &Grammar<'_>,
    tokens: &mut Tokens<'_>,
    room: usize,
    end: Punct,
) -> Result<Option<Expr>, Stop>
    ensures { Reads (stmt.expr_before grammar.now.names.now end room tokens.old) result tokens.new }
{
    if tokens.sees(end) {
        return Ok(None);
    }
    let value = grammar.whole(tokens, room)?;
    Ok(Some(value))
}

#[tactic(auto, unfolding(sa_syntax::specs::ReadStmt::simple_before))]
fn simple_before(
    grammar: &Grammar<'_>,
    tokens: &mut Tokens<'_>,
    room: usize,
    end: Punct,
) -> Result<Option<Simple>, Stop>
    ensures { Reads (stmt.simple_before grammar.now.names.now end room tokens.old) result tokens.new }
{
    if tokens.sees(end) {
        return Ok(None);
    }
    let simple = simple(grammar, tokens, room)?;
    Ok(Some(simple))
}

#[tactic(auto, unfolding(sa_syntax::specs::ReadStmt::declares))]
fn declares(grammar: &Grammar<'_>, tokens: &mut Tokens<'_>, room: usize) -> Result<First, Stop>
    ensures { Reads (stmt.declares grammar.now.names.now room tokens.old) result tokens.new }
{
    let ty = grammar.specifiers(tokens, room)?;
    let declr = grammar.declr(tokens, room)?;
    let pos = tokens.expect(Punct::Equal)?;
    let value = grammar.whole(tokens, room)?;
    Ok(First::Declares(ty, declr, pos, value))
}

#[tactic(auto, unfolding(sa_syntax::specs::ReadStmt::first_of))]
fn first(grammar: &Grammar<'_>, tokens: &mut Tokens<'_>, room: usize) -> Result<First, Stop>
    ensures { Reads (stmt.first_of grammar.now.names.now room tokens.old) result tokens.new }
{
    if tokens.sees(Punct::Semicolon) {
        return Ok(First::Nothing);
    }
    if grammar.begins_type(tokens) {
        return declares(grammar, tokens, room);
    }
    let simple = simple(grammar, tokens, room)?;
    Ok(First::Simple(simple))
}

// ---- statements

/// A statement.
#[cycle(statement)]
#[tactic(auto, using(crate::proofs::Directives::wait_is, crate::proofs::Directives::partition_is, crate::proofs::Directives::known_fact_is, crate::proofs::Directives::assert_is, crate::proofs::Directives::break_is, crate::proofs::Directives::return_is), unfolding(sa_syntax::specs::ReadStmt::stmt, sa_syntax::specs::ReadStmt::empty, sa_syntax::specs::ReadStmt::placed, sa_syntax::specs::ReadStmt::call_stmt, sa_syntax::specs::ReadStmt::assigned_stmt, sa_syntax::specs::ReadStmt::gives, sa_syntax::specs::ReadStmt::simple_ended))]
pub fn statement(grammar: &Grammar<'_>, tokens: &mut Tokens<'_>, room: usize) -> Result<Stmt, Stop>
    ensures { Reads (stmt.stmt grammar.now.names.now room (bodies grammar.now.names.now room) tokens.old) result tokens.new }
{
    match tokens.key() {
        None => marked_stmt(grammar, tokens, room),
        Some(Keyword::If) => if_stmt(grammar, tokens, room),
        Some(Keyword::While) => while_stmt(grammar, tokens, room),
        Some(Keyword::Do) => do_stmt(grammar, tokens, room),
        Some(Keyword::For) => for_stmt(grammar, tokens, room),
        Some(Keyword::Switch) => switch_stmt(grammar, tokens, room),
        Some(Keyword::Break) => break_stmt(tokens),
        Some(Keyword::Return) => return_stmt(grammar, tokens, room),
        Some(Keyword::WaitForClock) => wait(tokens, room),
        Some(Keyword::Partition) => partition(tokens, room),
        Some(Keyword::KnownFact) => known_fact(grammar, tokens, room),
        Some(Keyword::Assert) => assert_stmt(grammar, tokens, room),
        Some(_) => Err(Stop::Syntax),
    }
}

/// A statement that begins with no keyword.
#[cycle(statement)]
#[tactic(auto, unfolding(sa_syntax::specs::ReadStmt::empty, sa_syntax::specs::ReadStmt::placed, sa_syntax::specs::ReadStmt::call_stmt, sa_syntax::specs::ReadStmt::assigned_stmt, sa_syntax::specs::ReadStmt::gives, sa_syntax::specs::ReadStmt::simple_ended))]
fn marked_stmt(grammar: &Grammar<'_>, tokens: &mut Tokens<'_>, room: usize) -> Result<Stmt, Stop>
    ensures { Reads (stmt.mark_stmt grammar.now.names.now room (bodies grammar.now.names.now room) (spec.mark_at tokens.old) tokens.old) result tokens.new }
{
    match tokens.mark() {
        Some(Punct::OpenBrace) => block(grammar, tokens, room),
        Some(Punct::Semicolon) => empty(tokens),
        Some(Punct::PlusPlus) => simple_stmt(grammar, tokens, room),
        Some(Punct::MinusMinus) => simple_stmt(grammar, tokens, room),
        _ => placed(grammar, tokens, room),
    }
}

/// A statement in a statement.
#[cycle(statement)]
#[tactic(auto, using(crate::proofs::Rooms::bodies_deeper, crate::proofs::Rooms::bodies_none))]
fn inner(grammar: &Grammar<'_>, tokens: &mut Tokens<'_>, room: usize) -> Result<Stmt, Stop>
    ensures { Reads ((bodies grammar.now.names.now room).stmt tokens.old) result tokens.new }
{
    if room > 0 {
        return statement(grammar, tokens, room - 1);
    }
    if begins_stmt(grammar, tokens) {
        Err(Stop::TooDeep)
    } else {
        Err(Stop::Syntax)
    }
}

#[cycle(statement)]
#[tactic(auto, using(crate::proofs::Rooms::bodies_deeper), unfolding(sa_syntax::specs::ReadStmt::block))]
fn block(grammar: &Grammar<'_>, tokens: &mut Tokens<'_>, room: usize) -> Result<Stmt, Stop>
    ensures { Reads (stmt.block grammar.now.names.now room (bodies grammar.now.names.now room) tokens.old) result tokens.new }
{
    let open = tokens.opens(room, Punct::OpenBrace)?;
    let items = nested(grammar, tokens, room - 1)?;
    let close = tokens.expect(Punct::CloseBrace)?;
    Ok(Stmt::Block(Block { open, items, close }))
}

/// What stands in the braces of a statement.
#[cycle(statement)]
#[tactic(auto, unfolding(sa_syntax::specs::ReadStmt::block_items))]
fn nested(
    grammar: &Grammar<'_>,
    tokens: &mut Tokens<'_>,
    room: usize,
) -> Result<Items<BlockItem>, Stop>
    ensures { Reads (stmt.block_items grammar.now.names.now room (bodies grammar.now.names.now room) ((bodies grammar.now.names.now room).stmt) tokens.old) result tokens.new }
{
    let mut found = Items::new(grammar.alloc);
    for _turn in 0..tokens.turns() {
        if tokens.sees(Punct::CloseBrace) {
            return Ok(found);
        }
        found.push(nested_item(grammar, tokens, room)?)?;
    }
    Err(Stop::Syntax)
}

#[cycle(statement)]
#[tactic(auto, unfolding(sa_syntax::specs::ReadStmt::block_item))]
fn nested_item(
    grammar: &Grammar<'_>,
    tokens: &mut Tokens<'_>,
    room: usize,
) -> Result<BlockItem, Stop>
    ensures { Reads (stmt.block_item grammar.now.names.now room (bodies grammar.now.names.now room) ((bodies grammar.now.names.now room).stmt) tokens.old) result tokens.new }
{
    if grammar.begins_type(tokens) {
        let local = local(grammar, tokens, room)?;
        return Ok(BlockItem::Local(local));
    }
    let stmt = inner(grammar, tokens, room)?;
    Ok(BlockItem::Stmt(stmt))
}

#[cycle(statement)]
#[tactic(auto, unfolding(sa_syntax::specs::ReadStmt::if_stmt))]
fn if_stmt(grammar: &Grammar<'_>, tokens: &mut Tokens<'_>, room: usize) -> Result<Stmt, Stop>
    ensures { Reads (stmt.if_stmt grammar.now.names.now room (bodies grammar.now.names.now room) tokens.old) result tokens.new }
{
    let pos = tokens.take()?;
    let condition = condition(grammar, tokens, room)?;
    let then = Boxed::new(grammar.alloc, inner(grammar, tokens, room)?)?;
    if !tokens.sees_else() {
        return Ok(Stmt::If(pos, condition, then));
    }
    tokens.take()?;
    let other = Boxed::new(grammar.alloc, inner(grammar, tokens, room)?)?;
    Ok(Stmt::IfElse(pos, condition, then, other))
}

#[cycle(statement)]
#[tactic(auto, unfolding(sa_syntax::specs::ReadStmt::while_stmt))]
fn while_stmt(grammar: &Grammar<'_>, tokens: &mut Tokens<'_>, room: usize) -> Result<Stmt, Stop>
    ensures { Reads (stmt.while_stmt grammar.now.names.now room (bodies grammar.now.names.now room) tokens.old) result tokens.new }
{
    let pos = tokens.take()?;
    let condition = condition(grammar, tokens, room)?;
    let body = Boxed::new(grammar.alloc, inner(grammar, tokens, room)?)?;
    Ok(Stmt::While(pos, condition, body))
}

#[cycle(statement)]
#[tactic(auto, unfolding(sa_syntax::specs::ReadStmt::do_stmt, sa_syntax::specs::ReadStmt::expect_while))]
fn do_stmt(grammar: &Grammar<'_>, tokens: &mut Tokens<'_>, room: usize) -> Result<Stmt, Stop>
    ensures { Reads (stmt.do_stmt grammar.now.names.now room (bodies grammar.now.names.now room) tokens.old) result tokens.new }
{
    let pos = tokens.take()?;
    let body = Boxed::new(grammar.alloc, inner(grammar, tokens, room)?)?;
    expect_while(tokens)?;
    let condition = condition(grammar, tokens, room)?;
    tokens.expect(Punct::Semicolon)?;
    Ok(Stmt::DoWhile(pos, body, condition))
}

#[cycle(statement)]
#[tactic(auto, using(sa_expressions::proofs::Rooms::within_deeper), unfolding(sa_syntax::specs::ReadStmt::for_stmt))]
fn for_stmt(grammar: &Grammar<'_>, tokens: &mut Tokens<'_>, room: usize) -> Result<Stmt, Stop>
    ensures { Reads (stmt.for_stmt grammar.now.names.now room (bodies grammar.now.names.now room) tokens.old) result tokens.new }
{
    let pos = tokens.take()?;
    tokens.opens(room, Punct::OpenParen)?;
    let first = first(grammar, tokens, room - 1)?;
    tokens.expect(Punct::Semicolon)?;
    let condition = expr_before(grammar, tokens, room - 1, Punct::Semicolon)?;
    tokens.expect(Punct::Semicolon)?;
    let next = simple_before(grammar, tokens, room - 1, Punct::CloseParen)?;
    tokens.expect(Punct::CloseParen)?;
    let body = Boxed::new(grammar.alloc, inner(grammar, tokens, room)?)?;
    Ok(Stmt::For(pos, first, condition, next, body))
}

#[cycle(statement)]
#[tactic(auto, using(crate::proofs::Rooms::bodies_deeper), unfolding(sa_syntax::specs::ReadStmt::switch_stmt))]
fn switch_stmt(grammar: &Grammar<'_>, tokens: &mut Tokens<'_>, room: usize) -> Result<Stmt, Stop>
    ensures { Reads (stmt.switch_stmt grammar.now.names.now room (bodies grammar.now.names.now room) tokens.old) result tokens.new }
{
    let pos = tokens.take()?;
    let value = condition(grammar, tokens, room)?;
    tokens.opens(room, Punct::OpenBrace)?;
    let groups = groups(grammar, tokens, room - 1)?;
    tokens.expect(Punct::CloseBrace)?;
    Ok(Stmt::Switch(pos, value, groups))
}

#[cycle(statement)]
#[tactic(auto, unfolding(sa_syntax::specs::ReadStmt::groups))]
fn groups(grammar: &Grammar<'_>, tokens: &mut Tokens<'_>, room: usize) -> Result<Items<Group>, Stop>
    ensures { Reads (stmt.groups grammar.now.names.now room (bodies grammar.now.names.now room) tokens.old) result tokens.new }
{
    let mut found = Items::new(grammar.alloc);
    for _turn in 0..tokens.turns() {
        if !tokens.sees_label() {
            return Ok(found);
        }
        found.push(group(grammar, tokens, room)?)?;
    }
    Err(Stop::Syntax)
}

#[cycle(statement)]
#[tactic(auto, unfolding(sa_syntax::specs::ReadStmt::a_group))]
fn group(grammar: &Grammar<'_>, tokens: &mut Tokens<'_>, room: usize) -> Result<Group, Stop>
    ensures { Reads (stmt.a_group grammar.now.names.now room (bodies grammar.now.names.now room) tokens.old) result tokens.new }
{
    let mut labels = Items::new(grammar.alloc);
    labels.push(label(grammar, tokens, room)?)?;
    labels.append(more_labels(grammar, tokens, room)?)?;
    let body = body_of_group(grammar, tokens, room)?;
    Ok(Group { labels, body })
}

/// The statements up to the next label or the closing brace.
#[cycle(statement)]
fn body_of_group(
    grammar: &Grammar<'_>,
    tokens: &mut Tokens<'_>,
    room: usize,
) -> Result<Items<Stmt>, Stop>
    ensures { Reads (spec.many parts.goes_on ((bodies grammar.now.names.now room).stmt) tokens.old) result tokens.new }
{
    let mut found = Items::new(grammar.alloc);
    for _turn in 0..tokens.turns() {
        if !goes_on(tokens) {
            return Ok(found);
        }
        found.push(inner(grammar, tokens, room)?)?;
    }
    Err(Stop::Syntax)
}
