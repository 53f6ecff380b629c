//! Types as they are written, and what names stand for.

ghost use Rattle.std.specs.Prelude.{◌≡◌};
ghost use Rattle.sa_scopes.specs.Types as spec;
ghost use Rattle.sa_scopes.specs.Typing.{Gives, Yields};

use crate::typer::Typer;
use sa_base::{Num, OutOfMemory, Pos};
use sa_syntax::{Name, Qualified, Qualifier, ScalarWord};
use sa_typed::{Plain, Shape};
use sqlite_items::Items;

/// What a type is apart from dimensions and qualifiers. It is unknown where its words were refused.
#[derive(Clone, Copy, Debug, PartialEq, Eq)]
pub enum Element {
    Void,
    Scalar(Num),
    /// A structure, by its number.
    Struct(u32),
    Unknown,
}

/// A type, and whether it is `const`.
#[derive(Clone, Copy, Debug, PartialEq, Eq)]
pub struct Ty {
    pub element: Element,
    pub constant: bool,
}

/// What a name stands for.
#[derive(Clone, Copy, Debug, PartialEq, Eq)]
pub enum Named {
    /// A variable, by its number.
    Variable(u32),
    /// An input, by its number, and its type.
    Input(u32, Num),
    /// A type name.
    Alias(Ty),
    /// The name of a function.
    Function,
}

/// What a tag stands for.
#[derive(Clone, Copy, Debug, PartialEq, Eq)]
pub enum Tagged {
    /// Its structure is being defined.
    Open,
    /// A structure, by its number.
    Struct(u32),
}

/// What words of a whole-number type say of its width.
#[derive(Clone, Copy, Debug, PartialEq, Eq)]
pub enum Width {
    Plain,
    Char,
    Short,
    Long,
    LongLong,
}

/// What words of a whole-number type say together.
#[derive(Clone, Copy, Debug, PartialEq, Eq)]
pub struct Words {
    pub width: Width,
    pub int: bool,
    pub signed: bool,
    pub unsigned: bool,
}

// ---- words

const NO_WORDS: Words = Words {
    width: Width::Plain,
    int: false,
    signed: false,
    unsigned: false,
};

fn is_plain(width: Width) -> bool
    ensures { result ≡ spec.is_plain width }
{
    matches!(width, Width::Plain)
}

fn is_char(width: Width) -> bool
    ensures { result ≡ spec.is_char width }
{
    matches!(width, Width::Char)
}

fn longer_width(width: Width) -> Option<Width>
    ensures { result ≡ spec.longer_width width }
{
    match width {
        Width::Plain => Some(Width::Long),
        Width::Long => Some(Width::LongLong),
        _ => None,
    }
}

impl Words {
    fn with_width(self, width: Option<Width>) -> Option<Words>
        ensures { result ≡ spec.with_width self width }
    {
        let width = width?;
        Some(Words { width, ..self })
    }

    /// The words with one more, where they are still a part of the words of a type (ISO C 6.7.2).
    #[tactic(auto, unfolding(crate::specs::Types::with_word))]
    fn with(self, word: ScalarWord) -> Option<Words>
        ensures { result ≡ spec.with_word self word }
    {
        match word {
            ScalarWord::Char => (is_plain(self.width) && !self.int).then_some(Words {
                width: Width::Char,
                ..self
            }),
            ScalarWord::Short => is_plain(self.width).then_some(Words {
                width: Width::Short,
                ..self
            }),
            ScalarWord::Long => self.with_width(longer_width(self.width)),
            ScalarWord::Int => {
                (!(self.int || is_char(self.width))).then_some(Words { int: true, ..self })
            }
            ScalarWord::Signed => (!(self.signed || self.unsigned)).then_some(Words {
                signed: true,
                ..self
            }),
            ScalarWord::Unsigned => (!(self.signed || self.unsigned)).then_some(Words {
                unsigned: true,
                ..self
            }),
        }
    }
}

fn next_word(words: Option<Words>, word: ScalarWord) -> Option<Words>
    ensures { result ≡ spec.next_word words word }
{
    words?.with(word)
}

fn num_by(width: Width, unsigned: bool) -> Num
    ensures { result ≡ spec.num_by width unsigned }
{
    match (width, unsigned) {
        (Width::Char, true) => Num::U8,
        (Width::Char, false) => Num::I8,
        (Width::Short, true) => Num::U16,
        (Width::Short, false) => Num::I16,
        (Width::Plain | Width::Long, true) => Num::U32,
        (Width::Plain | Width::Long, false) => Num::I32,
        (Width::LongLong, true) => Num::U64,
        (Width::LongLong, false) => Num::I64,
    }
}

fn num_in(words: Option<Words>) -> Option<Num>
    ensures { result ≡ spec.num_in words }
{
    let words = words?;
    Some(num_by(words.width, words.unsigned))
}

/// The type that words are, where they are one.
pub fn num_of(words: &[ScalarWord]) -> Option<Num>
    ensures { result ≡ spec.num_of words.now }
{
    let mut found = Some(NO_WORDS);
    for word in words {
        found = next_word(found, *word);
    }
    num_in(found)
}

// ---- qualifiers

fn is_const(word: Qualifier) -> bool
    ensures { result ≡ spec.is_const word }
{
    matches!(word, Qualifier::Const)
}

fn is_volatile(word: Qualifier) -> bool
    ensures { result ≡ spec.is_volatile word }
{
    matches!(word, Qualifier::Volatile)
}

fn or_const(found: bool, qualifier: &Qualified) -> bool
    ensures { result ≡ spec.or_const found qualifier.now }
{
    found || is_const(qualifier.word)
}

fn or_volatile(found: bool, qualifier: &Qualified) -> bool
    ensures { result ≡ spec.or_volatile found qualifier.now }
{
    found || is_volatile(qualifier.word)
}

fn has_const(qualifiers: &[Qualified]) -> bool
    ensures { result ≡ spec.has_const qualifiers.now }
{
    let mut found = false;
    for qualifier in qualifiers {
        found = or_const(found, qualifier);
    }
    found
}

/// Whether `volatile` is among the qualifiers.
pub fn has_volatile(qualifiers: &[Qualified]) -> bool
    ensures { result ≡ spec.has_volatile qualifiers.now }
{
    let mut found = false;
    for qualifier in qualifiers {
        found = or_volatile(found, qualifier);
    }
    found
}

fn is_misplaced(volatile: bool, fixed: bool, word: Qualifier) -> bool
    ensures { result ≡ spec.is_misplaced volatile fixed word }
{
    match word {
        Qualifier::Const => false,
        Qualifier::Volatile => !volatile,
        Qualifier::Static => !fixed,
    }
}

/// Refuses a word that is out of place.
fn check_qualifier(
    typer: &mut Typer,
    volatile: bool,
    fixed: bool,
    word: &Qualified,
) -> Result<(), OutOfMemory>
    ensures { Yields (spec.qualifier volatile fixed word.now tt typer.old) result typer.new }
{
    typer.refuse_if(is_misplaced(volatile, fixed, word.word), 21, word.pos)
}

/// Refuses each word that is out of place where `volatile` may stand, and `static`.
#[tactic(auto, unfolding(crate::specs::Types::qualifiers), using(crate::proofs::Loops::loops))]
pub fn check_qualifiers(
    typer: &mut Typer,
    volatile: bool,
    fixed: bool,
    words: &[Qualified],
) -> Result<(), OutOfMemory>
    ensures { Yields (spec.qualifiers volatile fixed words.now typer.old) result typer.new }
{
    for word in words {
        check_qualifier(typer, volatile, fixed, word)?;
    }
    Ok(())
}

// ---- types

/// A type that isn't `const`.
pub fn plain(element: Element) -> Ty
    ensures { result ≡ spec.plain element }
{
    Ty {
        element,
        constant: false,
    }
}

/// The type of words, of whose type's first token the place is given.
pub fn scalar(typer: &mut Typer, pos: Pos, num: Option<Num>) -> Result<Ty, OutOfMemory>
    ensures { Yields (spec.scalar pos num typer.old) result typer.new }
{
    match num {
        Some(num) => Ok(plain(Element::Scalar(num))),
        None => {
            typer.refuse(3, pos)?;
            Ok(plain(Element::Unknown))
        }
    }
}

fn defined(typer: &mut Typer, pos: Pos, tagged: Option<Tagged>) -> Result<Ty, OutOfMemory>
    ensures { Yields (spec.defined pos tagged typer.old) result typer.new }
{
    match tagged {
        Some(Tagged::Struct(number)) => Ok(plain(Element::Struct(number))),
        _ => {
            typer.refuse(3, pos)?;
            Ok(plain(Element::Unknown))
        }
    }
}

/// `struct tag`
#[tactic(auto, unfolding(crate::specs::Types::tagged))]
pub fn struct_named(typer: &mut Typer, pos: Pos, tag: &Name) -> Result<Ty, OutOfMemory>
    ensures { Yields (spec.tagged pos tag.now typer.old) result typer.new }
{
    let found = typer.tags.meaning(tag.text.bytes());
    defined(typer, pos, found)
}

fn alias(named: Option<Named>) -> Ty
    ensures { result ≡ spec.alias named }
{
    match named {
        Some(Named::Alias(ty)) => ty,
        _ => plain(Element::Unknown),
    }
}

/// A type name.
#[tactic(auto, unfolding(crate::specs::Types::type_name))]
pub fn type_name(typer: &Typer, name: &Name) -> Ty
    ensures { spec.type_name name.now typer.now ≡ Gives result typer.now }
{
    alias(typer.names.meaning(name.text.bytes()))
}

/// The type with its qualifiers.
pub fn qualified(qualifiers: &[Qualified], ty: Ty) -> Ty
    ensures { result ≡ spec.qualified qualifiers.now ty }
{
    Ty {
        element: ty.element,
        constant: ty.constant || has_const(qualifiers),
    }
}

/// An object's type, which isn't void.
pub fn not_void(typer: &mut Typer, pos: Pos, ty: Ty) -> Result<Ty, OutOfMemory>
    ensures { Yields (spec.not_void pos ty typer.old) result typer.new }
{
    match ty.element {
        Element::Void => {
            typer.refuse(3, pos)?;
            Ok(Ty {
                element: Element::Unknown,
                constant: ty.constant,
            })
        }
        _ => Ok(ty),
    }
}

// ---- objects

fn plain_of(element: Element) -> Plain
    ensures { result ≡ spec.plain_of element }
{
    match element {
        Element::Scalar(num) => Plain::Scalar(num),
        Element::Struct(number) => Plain::Struct(number),
        Element::Void | Element::Unknown => Plain::Scalar(Num::I32),
    }
}

/// What has such elements and dimensions, the outermost first.
pub fn shape_of(element: Element, dimensions: Items<u32>) -> Shape
    ensures { result ≡ spec.shape_of element dimensions }
{
    Shape {
        dims: dimensions,
        plain: plain_of(element),
    }
}
