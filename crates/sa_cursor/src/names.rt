//! The type names that are declared so far.

ghost use Rattle.std.specs.Prelude.{◌≡◌, ◌∷◌, ◌||◌, [], List, ℕ, OnOk, OnErr};
ghost use Rattle.std.specs.Str.{bytes_eq};
ghost use Rattle.sa_syntax.specs.Words.{is_type_name};
ghost use Rattle.sa_syntax.specs.ReadStmt.{names_after};
ghost use Rattle.sa_cursor.specs.Known.{is_known};

use sa_base::{OutOfMemory, Text};
use sa_syntax::Item;
use sqlite_items::Items;
use std::alloc::Global;
use std::collections::BTreeMap;
use std::marker::Model;

/// The names that a `typedef` has declared. A name is looked up in a set, whatever their number.
#[derive(Drop)]
pub struct TypeNames {
    names: Items<Text>,
    known: BTreeMap<Vec<u8>, bool>,
}

impl Model for TypeNames {
    ghost use Rattle.std.specs.Prelude.{List, ℕ, reverse};
    ghost use Rattle.sa_cursor.specs.Known.{Knows};

    ghost Value = { List (List ℕ) };

    ghost view = { λ t. reverse t.names };

    ghost invariant = { λ t. Knows t.known (reverse t.names) };
}

impl TypeNames {
    /// No names.
    pub fn new(alloc: Global) -> TypeNames
        ensures { result ≡ [] }
    {
        TypeNames {
            names: Items::new(alloc),
            known: BTreeMap::new(alloc),
        }
    }

    /// Whether it is a type name.
    pub fn contains(&self, name: &[u8]) -> bool
        ensures { result ≡ is_type_name self.now name.now }
    {
        self.known.get(name).is_some()
    }

    /// Declares a type name.
    fn declare(&mut self, alloc: Global, name: &[u8]) -> Result<(), OutOfMemory>
        ensures { OnOk result (self.new ≡ name.now ∷ self.old) }
    {
        self.names.push(Text::of_bytes(alloc, name)?)?;
        let noted = note(alloc, &mut self.known, name);
        if noted.is_err() {
            self.names.pop();
        }
        noted
    }

    /// Declares what the item declares.
    pub fn declare_item(&mut self, alloc: Global, item: &Item) -> Result<(), OutOfMemory>
        ensures { OnOk result (self.new ≡ names_after self.old item.now) }
    {
        match item {
            Item::Typedef(_, _, name) => self.declare(alloc, name.text.bytes()),
            _ => Ok(()),
        }
    }
}

fn note(alloc: Global, known: &mut BTreeMap<Vec<u8>, bool>, name: &[u8]) -> Result<(), OutOfMemory>
    ensures ok { OnOk result ((w : List ℕ) → is_known known.new w ≡ (bytes_eq name.now w || is_known known.old w)) }
    ensures err { OnErr result ((w : List ℕ) → is_known known.new w ≡ is_known known.old w) }
{
    known.insert(Vec::from_slice(alloc, name)?, true)?;
    Ok(())
}
