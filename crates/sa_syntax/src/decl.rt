//! Types and what is declared.

use crate::expr::Expr;
use sa_base::{Pos, Text};
use sqlite_items::{Boxed, Items};

/// A name as it stands in the source.
#[derive(Debug, Drop)]
pub struct Name {
    pub text: Text,
    pub pos: Pos,
}

/// A word before a type.
#[derive(Clone, Copy, Debug, PartialEq, Eq)]
pub enum Qualifier {
    Const,
    Volatile,
    Static,
}

/// A qualifier at its place.
#[derive(Debug, Drop)]
pub struct Qualified {
    pub word: Qualifier,
    pub pos: Pos,
}

/// A word of a whole-number type.
#[derive(Clone, Copy, Debug, PartialEq, Eq)]
pub enum ScalarWord {
    Char,
    Int,
    Long,
    Short,
    Signed,
    Unsigned,
}

/// A type as it is written (ISO C 6.7, declaration specifiers), with the place of its first token.
#[cycle(tree)]
#[derive(Drop)]
pub struct Specifiers {
    pub pos: Pos,
    pub qualifiers: Items<Qualified>,
    pub base: Base,
}

/// What a type is apart from its qualifiers.
#[cycle(tree)]
#[derive(Drop)]
pub enum Base {
    /// One word or more, in the order of the source.
    Scalar(Items<ScalarWord>),
    Void,
    /// `struct tag`
    Tag(Name),
    Struct(Struct),
    /// A type name.
    Named(Name),
}

/// `struct tag { .. }`, the tag where there is one.
#[cycle(tree)]
#[derive(Drop)]
pub struct Struct {
    pub tag: Option<Name>,
    pub fields: Items<Field>,
}

/// The fields that one `;` ends.
#[cycle(tree)]
#[derive(Drop)]
pub struct Field {
    pub ty: Specifiers,
    pub declrs: Items<Declr>,
}

/// A declared name, and its dimensions.
#[cycle(tree)]
#[derive(Drop)]
pub struct Declr {
    pub name: Name,
    pub bounds: Items<Bound>,
}

/// `[e]`, with the place of the bracket.
#[cycle(tree)]
#[derive(Drop)]
pub struct Bound {
    pub pos: Pos,
    pub size: Expr,
}

/// An initialiser.
#[derive(Drop)]
pub enum Init {
    Value(Expr),
    /// `{ .. }`, with the place of the brace.
    Braces(Pos, Items<Init>),
}

/// A declared name, and what it begins with.
#[derive(Drop)]
pub struct InitDeclr {
    pub declr: Declr,
    pub start: Start,
}

/// What a declared name begins with.
#[derive(Drop)]
pub enum Start {
    Nothing,
    /// `= init`, with the place of the `=`.
    Init(Pos, Init),
}
