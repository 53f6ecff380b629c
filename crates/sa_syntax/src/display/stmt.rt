//! Initialisers and statements as text, each token with a space or a line feed after it.

use super::expr::{show_declr, show_expr, show_name, show_place, show_specifiers};
use crate::decl::{Init, InitDeclr, Start};
use crate::expr::Expr;
use crate::stmt::{
    ArgValue, Block, BlockItem, Call, Compound, Directive, First, Group, Label, Local, LocalStart,
    Simple, Stmt, Update,
};
use std::fmt;

fn show_init<W: fmt::Write>(init: &Init, f: &mut fmt::Formatter<W>) -> fmt::Result {
    match init {
        Init::Value(value) => show_expr(value, f),
        Init::Braces(_, inits) => {
            f.write_str("{ ")?;
            for (at, init) in inits.as_slice().iter().enumerate() {
                if at > 0 {
                    f.write_str(", ")?;
                }
                show_init(init, f)?;
            }
            f.write_str("} ")
        }
    }
}

pub fn show_init_declrs<W: fmt::Write>(
    declrs: &[InitDeclr],
    f: &mut fmt::Formatter<W>,
) -> fmt::Result {
    for (at, item) in declrs.iter().enumerate() {
        if at > 0 {
            f.write_str(", ")?;
        }
        show_declr(&item.declr, f)?;
        if let Start::Init(_, init) = &item.start {
            f.write_str("= ")?;
            show_init(init, f)?;
        }
    }
    Ok(())
}

fn compound_text(op: Compound) -> &'static str {
    match op {
        Compound::Plus => "+= ",
        Compound::Minus => "-= ",
        Compound::Times => "*= ",
        Compound::Divide => "/= ",
        Compound::Remainder => "%= ",
        Compound::ShiftLeft => "<<= ",
        Compound::ShiftRight => ">>= ",
        Compound::BitAnd => "&= ",
        Compound::BitXor => "^= ",
        Compound::BitOr => "|= ",
    }
}

fn update_text(update: Update) -> &'static str {
    match update {
        Update::Increment => "++ ",
        Update::Decrement => "-- ",
    }
}

fn show_simple<W: fmt::Write>(simple: &Simple, f: &mut fmt::Formatter<W>) -> fmt::Result {
    match simple {
        Simple::Assign(place, _, value) => {
            show_place(place, f)?;
            f.write_str("= ")?;
            show_expr(value, f)
        }
        Simple::Compound(place, op, _, value) => {
            show_place(place, f)?;
            f.write_str(compound_text(*op))?;
            show_expr(value, f)
        }
        Simple::After(place, update, _) => {
            show_place(place, f)?;
            f.write_str(update_text(*update))
        }
        Simple::Before(update, _, place) => {
            f.write_str(update_text(*update))?;
            show_place(place, f)
        }
    }
}

fn show_call<W: fmt::Write>(call: &Call, f: &mut fmt::Formatter<W>) -> fmt::Result {
    show_name(&call.name, f)?;
    f.write_str("( ")?;
    for (at, arg) in call.args.as_slice().iter().enumerate() {
        if at > 0 {
            f.write_str(", ")?;
        }
        match &arg.value {
            ArgValue::Value(value) => show_expr(value, f)?,
            ArgValue::Reference(_, place) => {
                f.write_str("& ")?;
                show_place(place, f)?;
            }
        }
    }
    f.write_str(") ")
}

fn show_directive<W: fmt::Write>(directive: &Directive, f: &mut fmt::Formatter<W>) -> fmt::Result {
    match directive {
        Directive::Wait => f.write_str("__ASTREE_wait_for_clock ( ( ) ) "),
        Directive::Partition => f.write_str("__ASTREE_partition ( ( ) ) "),
        Directive::KnownFact(fact) => {
            f.write_str("__ASTREE_known_fact ( ( ")?;
            show_expr(fact, f)?;
            f.write_str(") ) ")
        }
        Directive::Assert(fact) => {
            f.write_str("__ASTREE_assert ( ( ")?;
            show_expr(fact, f)?;
            f.write_str(") ) ")
        }
    }
}

fn show_label<W: fmt::Write>(label: &Label, f: &mut fmt::Formatter<W>) -> fmt::Result {
    match label {
        Label::Case(_, value) => {
            f.write_str("case ")?;
            show_expr(value, f)?;
            f.write_str(": ")
        }
        Label::Default(_) => f.write_str("default : "),
    }
}

fn show_local<W: fmt::Write>(local: &Local, f: &mut fmt::Formatter<W>) -> fmt::Result {
    show_specifiers(&local.ty, f)?;
    for (at, item) in local.declrs.as_slice().iter().enumerate() {
        if at > 0 {
            f.write_str(", ")?;
        }
        show_declr(&item.declr, f)?;
        match &item.start {
            LocalStart::Nothing => {}
            LocalStart::Init(_, init) => {
                f.write_str("= ")?;
                show_init(init, f)?;
            }
            LocalStart::Call(_, call) => {
                f.write_str("= ")?;
                show_call(call, f)?;
            }
        }
    }
    f.write_str(";\n")
}

fn show_first<W: fmt::Write>(first: &First, f: &mut fmt::Formatter<W>) -> fmt::Result {
    match first {
        First::Nothing => Ok(()),
        First::Simple(simple) => show_simple(simple, f),
        First::Declares(ty, declr, _, value) => {
            show_specifiers(ty, f)?;
            show_declr(declr, f)?;
            f.write_str("= ")?;
            show_expr(value, f)
        }
    }
}

// The head of a `for`, from the word to the closing bracket.
fn show_head<W: fmt::Write>(
    first: &First,
    condition: &Option<Expr>,
    next: &Option<Simple>,
    f: &mut fmt::Formatter<W>,
) -> fmt::Result {
    f.write_str("for ( ")?;
    show_first(first, f)?;
    f.write_str("; ")?;
    if let Some(condition) = condition {
        show_expr(condition, f)?;
    }
    f.write_str("; ")?;
    if let Some(next) = next {
        show_simple(next, f)?;
    }
    f.write_str(") ")
}

// A word, and a condition in brackets.
fn show_condition<W: fmt::Write>(
    word: &str,
    condition: &Expr,
    f: &mut fmt::Formatter<W>,
) -> fmt::Result {
    f.write_str(word)?;
    f.write_str(" ( ")?;
    show_expr(condition, f)?;
    f.write_str(") ")
}

// A return to its semicolon.
fn show_return<W: fmt::Write>(value: &Option<Expr>, f: &mut fmt::Formatter<W>) -> fmt::Result {
    f.write_str("return ")?;
    if let Some(value) = value {
        show_expr(value, f)?;
    }
    f.write_str(";\n")
}

#[cycle(show)]
fn show_stmt<W: fmt::Write>(stmt: &Stmt, f: &mut fmt::Formatter<W>) -> fmt::Result {
    match stmt {
        Stmt::Block(block) => show_block(block, f),
        Stmt::Empty(_) => f.write_str(";\n"),
        Stmt::Simple(simple) => {
            show_simple(simple, f)?;
            f.write_str(";\n")
        }
        Stmt::Gives(place, _, call) => {
            show_place(place, f)?;
            f.write_str("= ")?;
            show_call(call, f)?;
            f.write_str(";\n")
        }
        Stmt::Call(call) => {
            show_call(call, f)?;
            f.write_str(";\n")
        }
        Stmt::If(_, condition, yes) => {
            show_condition("if", condition, f)?;
            show_stmt(yes.get(), f)
        }
        Stmt::IfElse(_, condition, yes, no) => {
            show_condition("if", condition, f)?;
            show_stmt(yes.get(), f)?;
            f.write_str("else ")?;
            show_stmt(no.get(), f)
        }
        Stmt::While(_, condition, body) => {
            show_condition("while", condition, f)?;
            show_stmt(body.get(), f)
        }
        Stmt::DoWhile(_, body, condition) => {
            f.write_str("do ")?;
            show_stmt(body.get(), f)?;
            show_condition("while", condition, f)?;
            f.write_str(";\n")
        }
        Stmt::For(_, first, condition, next, body) => {
            show_head(first, condition, next, f)?;
            show_stmt(body.get(), f)
        }
        Stmt::Switch(_, value, groups) => {
            show_condition("switch", value, f)?;
            f.write_str("{\n")?;
            for group in groups.as_slice() {
                show_group(group, f)?;
            }
            f.write_str("}\n")
        }
        Stmt::Break(_) => f.write_str("break ;\n"),
        Stmt::Return(_, value) => show_return(value, f),
        Stmt::Directive(_, directive) => {
            show_directive(directive, f)?;
            f.write_str(";\n")
        }
    }
}

#[cycle(show)]
pub fn show_block<W: fmt::Write>(block: &Block, f: &mut fmt::Formatter<W>) -> fmt::Result {
    f.write_str("{\n")?;
    for item in block.items.as_slice() {
        show_block_item(item, f)?;
    }
    f.write_str("}\n")
}

#[cycle(show)]
fn show_block_item<W: fmt::Write>(item: &BlockItem, f: &mut fmt::Formatter<W>) -> fmt::Result {
    match item {
        BlockItem::Local(local) => show_local(local, f),
        BlockItem::Stmt(stmt) => show_stmt(stmt, f),
    }
}

#[cycle(show)]
fn show_group<W: fmt::Write>(group: &Group, f: &mut fmt::Formatter<W>) -> fmt::Result {
    for label in group.labels.as_slice() {
        show_label(label, f)?;
    }
    for stmt in group.body.as_slice() {
        show_stmt(stmt, f)?;
    }
    Ok(())
}
