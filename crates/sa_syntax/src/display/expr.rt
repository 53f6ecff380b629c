//! Types, places and expressions as text, each token with a space after it.

use crate::decl::{Base, Declr, Field, Name, Qualifier, ScalarWord, Specifiers, Struct};
use crate::expr::{Expr, Operator, Place, PlaceBase, Prefix, Step};
use std::fmt;

pub fn show_name<W: fmt::Write>(name: &Name, f: &mut fmt::Formatter<W>) -> fmt::Result {
    for byte in name.text.bytes() {
        f.write_char(*byte as char)?;
    }
    f.write_char(' ')
}

// A number that is not decimal is written in hexadecimal, and 0 by its digit alone, which is octal (ISO C 6.4.4.1).
fn show_number<W: fmt::Write>(
    value: u64,
    unsigned: bool,
    longs: u8,
    decimal: bool,
    f: &mut fmt::Formatter<W>,
) -> fmt::Result {
    if decimal || value == 0 {
        write!(f, "{value}")?;
    } else {
        write!(f, "0x{value:x}")?;
    }
    if unsigned {
        f.write_char('u')?;
    }
    for _ in 0..longs {
        f.write_char('l')?;
    }
    f.write_char(' ')
}

fn qualifier_text(qualifier: Qualifier) -> &'static str {
    match qualifier {
        Qualifier::Const => "const ",
        Qualifier::Volatile => "volatile ",
        Qualifier::Static => "static ",
    }
}

fn scalar_text(word: ScalarWord) -> &'static str {
    match word {
        ScalarWord::Char => "char ",
        ScalarWord::Int => "int ",
        ScalarWord::Long => "long ",
        ScalarWord::Short => "short ",
        ScalarWord::Signed => "signed ",
        ScalarWord::Unsigned => "unsigned ",
    }
}

fn prefix_text(op: Prefix) -> &'static str {
    match op {
        Prefix::Minus => "- ",
        Prefix::Plus => "+ ",
        Prefix::Complement => "~ ",
        Prefix::Not => "! ",
    }
}

fn operator_text(op: Operator) -> &'static str {
    match op {
        Operator::Or => "|| ",
        Operator::And => "&& ",
        Operator::BitOr => "| ",
        Operator::BitXor => "^ ",
        Operator::BitAnd => "& ",
        Operator::Equal => "== ",
        Operator::NotEqual => "!= ",
        Operator::Less => "< ",
        Operator::LessEqual => "<= ",
        Operator::Greater => "> ",
        Operator::GreaterEqual => ">= ",
        Operator::ShiftLeft => "<< ",
        Operator::ShiftRight => ">> ",
        Operator::Plus => "+ ",
        Operator::Minus => "- ",
        Operator::Times => "* ",
        Operator::Divide => "/ ",
        Operator::Remainder => "% ",
    }
}

fn show_place_base<W: fmt::Write>(base: &PlaceBase, f: &mut fmt::Formatter<W>) -> fmt::Result {
    match base {
        PlaceBase::Name(name) => show_name(name, f),
        PlaceBase::Through(_, _, name) => {
            f.write_str("( * ")?;
            show_name(name, f)?;
            f.write_str(") ")
        }
        PlaceBase::Star(_, name) => {
            f.write_str("* ")?;
            show_name(name, f)
        }
    }
}

#[cycle(show)]
pub fn show_expr<W: fmt::Write>(expr: &Expr, f: &mut fmt::Formatter<W>) -> fmt::Result {
    match expr {
        Expr::Number(value, unsigned, longs, decimal, _) => {
            show_number(*value, *unsigned, *longs, *decimal, f)
        }
        Expr::Place(place) => show_place(place, f),
        Expr::Bracket(_, inner) => {
            f.write_str("( ")?;
            show_expr(inner.get(), f)?;
            f.write_str(") ")
        }
        Expr::Prefix(op, _, operand) => {
            f.write_str(prefix_text(*op))?;
            show_expr(operand.get(), f)
        }
        Expr::Cast(_, ty, operand) => {
            f.write_str("( ")?;
            show_specifiers(ty.get(), f)?;
            f.write_str(") ")?;
            show_expr(operand.get(), f)
        }
        Expr::Chain(first, links) => {
            show_expr(first.get(), f)?;
            for link in links.as_slice() {
                f.write_str(operator_text(link.op))?;
                show_expr(&link.operand, f)?;
            }
            Ok(())
        }
        Expr::Choice(condition, _, yes, no) => {
            show_expr(condition.get(), f)?;
            f.write_str("? ")?;
            show_expr(yes.get(), f)?;
            f.write_str(": ")?;
            show_expr(no.get(), f)
        }
    }
}

#[cycle(show)]
pub fn show_place<W: fmt::Write>(place: &Place, f: &mut fmt::Formatter<W>) -> fmt::Result {
    show_place_base(&place.base, f)?;
    for step in place.steps.as_slice() {
        show_step(step, f)?;
    }
    Ok(())
}

#[cycle(show)]
fn show_step<W: fmt::Write>(step: &Step, f: &mut fmt::Formatter<W>) -> fmt::Result {
    match step {
        Step::Index(_, at) => {
            f.write_str("[ ")?;
            show_expr(at.get(), f)?;
            f.write_str("] ")
        }
        Step::Field(_, name) => {
            f.write_str(". ")?;
            show_name(name, f)
        }
        Step::Arrow(_, name) => {
            f.write_str("-> ")?;
            show_name(name, f)
        }
    }
}

#[cycle(show)]
pub fn show_specifiers<W: fmt::Write>(ty: &Specifiers, f: &mut fmt::Formatter<W>) -> fmt::Result {
    for qualifier in ty.qualifiers.as_slice() {
        f.write_str(qualifier_text(qualifier.word))?;
    }
    match &ty.base {
        Base::Scalar(words) => {
            for word in words.as_slice() {
                f.write_str(scalar_text(*word))?;
            }
            Ok(())
        }
        Base::Void => f.write_str("void "),
        Base::Tag(name) => {
            f.write_str("struct ")?;
            show_name(name, f)
        }
        Base::Struct(body) => show_struct(body, f),
        Base::Named(name) => show_name(name, f),
    }
}

#[cycle(show)]
pub fn show_struct<W: fmt::Write>(body: &Struct, f: &mut fmt::Formatter<W>) -> fmt::Result {
    f.write_str("struct ")?;
    if let Some(tag) = &body.tag {
        show_name(tag, f)?;
    }
    f.write_str("{\n")?;
    for field in body.fields.as_slice() {
        show_field(field, f)?;
    }
    f.write_str("} ")
}

#[cycle(show)]
fn show_field<W: fmt::Write>(field: &Field, f: &mut fmt::Formatter<W>) -> fmt::Result {
    show_specifiers(&field.ty, f)?;
    for (at, declr) in field.declrs.as_slice().iter().enumerate() {
        if at > 0 {
            f.write_str(", ")?;
        }
        show_declr(declr, f)?;
    }
    f.write_str(";\n")
}

#[cycle(show)]
pub fn show_declr<W: fmt::Write>(declr: &Declr, f: &mut fmt::Formatter<W>) -> fmt::Result {
    show_name(&declr.name, f)?;
    for bound in declr.bounds.as_slice() {
        f.write_str("[ ")?;
        show_expr(&bound.size, f)?;
        f.write_str("] ")?;
    }
    Ok(())
}
