//! The names that are visible, each with what it stands for.

ghost use Rattle.std.specs.Prelude.{◌≡◌, slice_get, List, ℕ, Some, false, OnOk, OnErr, if◌then◌else◌};
ghost use Rattle.std.specs.Str.{bytes_eq};
ghost use Rattle.sa_scopes.specs.Scopes as spec;

use sa_base::OutOfMemory;
use std::alloc::Global;
use std::collections::BTreeMap;
use std::marker::Model;

/// Names, the oldest first, and what each stands for. The names are borrowed from the tree. A name is looked up in a map,
/// whatever their number; the map may still have places of names that are not visible any more.
#[derive(Drop)]
pub struct Scope<'a, M> {
    words: Vec<&'a [u8]>,
    meanings: Vec<M>,
    places: BTreeMap<&'a [u8], usize>,
}

impl<'a, M> Model for Scope<'a, M> {
    ghost use Rattle.sa_scopes.specs.Scopes as spec;
    ghost use Rattle.sa_scopes.specs.Scopes.{Finds, texts};

    ghost Value = { spec.Scope M };

    ghost view = { λ s. record { words = texts s.words.items; meanings = s.meanings.items } };

    ghost invariant = { λ s. Finds s.places (texts s.words.items) };
}

impl<'a, M> Scope<'a, M> {
    /// No names.
    pub fn new(alloc: Global) -> Scope<'a, M>
        ensures { result ≡ spec.nothing }
    {
        Scope {
            words: Vec::new(alloc),
            meanings: Vec::new(alloc),
            places: BTreeMap::new(alloc),
        }
    }

    /// How many names there are.
    pub fn count(&self) -> usize
        ensures { result ≡ spec.count self.now }
    {
        self.words.len()
    }

    /// The number of a name, where it is visible.
    pub fn index(&self, name: &[u8]) -> Option<usize>
        ensures { result ≡ spec.index_of self.now name.now }
    {
        match place_in(&self.places, name) {
            None => None,
            Some(at) => {
                if names_at(&self.words, at, name) {
                    Some(at)
                } else {
                    None
                }
            }
        }
    }

    /// Whether a name is visible.
    pub fn contains(&self, name: &[u8]) -> bool
        ensures { result ≡ spec.is_visible self.now name.now }
    {
        self.index(name).is_some()
    }
}

impl<'a, M: Copy> Scope<'a, M> {
    /// What a name stands for, where it is visible.
    #[tactic(auto, unfolding(crate::specs::Scopes::meaning_of))]
    pub fn meaning(&self, name: &[u8]) -> Option<M>
        ensures { result ≡ spec.meaning_of self.now name.now }
    {
        let at = self.index(name)?;
        self.meanings.get(at).copied()
    }

    /// What the name with that number stands for.
    pub fn nth(&self, at: usize) -> Option<M>
        ensures { result ≡ slice_get self.now.meanings at }
    {
        self.meanings.get(at).copied()
    }

    /// Declares a name that isn't visible.
    pub fn declare(&mut self, name: &'a [u8], meaning: M) -> Result<(), OutOfMemory>
        requires { spec.is_visible self.old name.now ≡ false }
        ensures { OnOk result (self.new ≡ spec.with_name self.old name.now meaning) }
    {
        let place = self.count();
        note(&mut self.places, name, place)?;
        self.words.push(name)?;
        self.meanings.push(meaning)?;
        Ok(())
    }

    /// Gives the name with that number another meaning.
    pub fn set(&mut self, at: usize, meaning: M)
        ensures { self.new ≡ spec.with_meaning self.old at meaning }
    {
        if at < self.meanings.len() {
            self.meanings[at] = meaning;
        }
    }

    /// Leaves only the oldest names.
    pub fn truncate(&mut self, count: usize)
        ensures { self.new ≡ spec.oldest count self.old }
    {
        self.words.truncate(count);
        self.meanings.truncate(count);
    }
}

/// Whether the name with that number is this one.
#[tactic(auto, unfolding(crate::specs::Scopes::names_at))]
fn names_at(words: &[&[u8]], at: usize, name: &[u8]) -> bool
    ensures { result ≡ spec.names_at (spec.texts words.now) at name.now }
{
    match words.get(at) {
        None => false,
        Some(word) => *word == name,
    }
}

/// The place that the map has of a name.
fn place_in(places: &BTreeMap<&[u8], usize>, name: &[u8]) -> Option<usize>
    ensures { result ≡ spec.place_in places.now name.now }
{
    places.get(name).copied()
}

/// Notes the place of a name.
fn note<'a>(
    places: &mut BTreeMap<&'a [u8], usize>,
    name: &'a [u8],
    place: usize,
) -> Result<(), OutOfMemory>
    ensures ok { OnOk result ((w : List ℕ) → spec.place_in places.new w ≡ (if bytes_eq name.now w then Some place else spec.place_in places.old w)) }
    ensures err { OnErr result ((w : List ℕ) → spec.place_in places.new w ≡ spec.place_in places.old w) }
{
    places.insert(name, place)?;
    Ok(())
}
