//! What a variable is made of.

use sa_base::{Num, Text};
use sqlite_items::Items;

/// A type that is no array.
#[derive(Clone, Copy, Debug, PartialEq, Eq)]
pub enum Plain {
    Scalar(Num),
    /// A structure, by its number.
    Struct(u32),
}

/// The type of an object, apart from its qualifiers: how many elements there are in each dimension, the outermost first, and
/// of what type the innermost ones are. Where it is no array there is no dimension.
#[derive(Drop)]
pub struct Shape {
    pub dims: Items<u32>,
    pub plain: Plain,
}

/// A step into an object.
#[derive(Clone, Copy, Debug, PartialEq, Eq)]
pub enum Part {
    /// The element with this index.
    At(u32),
    /// The field with this number.
    Field(u32),
}

/// A field of a structure.
#[derive(Drop)]
pub struct FieldDef {
    pub name: Text,
    pub shape: Shape,
}

/// A structure (ISO C 6.7.2.1), whose fields hold only structures with lower numbers. Without a tag the name is empty.
#[derive(Drop)]
pub struct StructDef {
    pub name: Text,
    pub fields: Items<FieldDef>,
}
