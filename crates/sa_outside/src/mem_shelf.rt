ghost use Rattle.std.specs.Prelude.{◌≡◌, ◌≤◌, ◌↔◌, [], Some, Err, IsTrue};
ghost use Rattle.std.specs.Option.{option_map};
ghost use Rattle.sa_outside.specs.Files.{file_of};
ghost use Rattle.sa_outside.specs.Memory.{files_in, fails_reading, after_read};
ghost use Rattle.sa_outside.specs.Reading.{StopsAtLimit, FitsFile};

use crate::{Shelf, ShelfError};
use sa_base::Text;
use std::alloc::Global;
use std::marker::Model;

/// Files in memory, of which the first of a name counts. A read fails exactly where its number, from 1,
/// stands in `fails`, or where no file has the name; it then leaves the buffer empty.
#[derive(Drop)]
pub struct MemShelf {
    files: Vec<(Text, Vec<u8>)>,
    fails: Vec<u64>,
    calls: u64,
    faults: u64,
}

impl Model for MemShelf {
    ghost use Rattle.sa_outside.specs.Memory.{Shelved, files_in};

    ghost Value = { Shelved };

    ghost view = { λ s. record { files = files_in s.files.items; fails = s.fails.items; calls = s.calls; faults = s.faults } };
}

impl MemShelf {
    /// A shelf that had no call yet.
    pub fn new(files: Vec<(Text, Vec<u8>)>, fails: Vec<u64>) -> MemShelf
        ensures { result ≡ record { files = files_in files.items; fails = fails.items; calls = 0; faults = 0 } }
    {
        MemShelf {
            files,
            fails,
            calls: 0,
            faults: 0,
        }
    }
}

/// The first file of that name.
fn find<'a>(files: &'a [(Text, Vec<u8>)], name: &[u8]) -> Option<&'a Vec<u8>>
    ensures { option_map (λ f. f.now.items) result ≡ file_of name.now (files_in files.now) }
{
    let mut rest = files;
    while let [entry, after @ ..] = rest {
        if entry.0.bytes() == name {
            return Some(&entry.1);
        }
        rest = after;
    }
    None
}

/// Appends at most `limit` bytes of the file to the empty buffer.
fn fill(file: &[u8], limit: u64, buf: &mut Vec<u8>) -> Result<(), ShelfError>
    requires { buf.old.items ≡ [] }
    ensures fits { FitsFile (Some file.now) limit result buf.new.items }
    ensures at_limit { StopsAtLimit limit result buf.new.items }
    ensures no_fault { result ≡ Err ShelfError.Failed → ⊥ }
{
    if file.len() as u64 > limit {
        match buf.extend_from_slice(&file[..limit as usize]) {
            Ok(()) => Err(ShelfError::TooLong),
            Err(_) => Err(ShelfError::OutOfMemory),
        }
    } else {
        match buf.extend_from_slice(file) {
            Ok(()) => Ok(()),
            Err(_) => Err(ShelfError::OutOfMemory),
        }
    }
}

impl Shelf for MemShelf {
    ghost use Rattle.sa_outside.specs.Memory.{none_in};

    ghost files = { λ s. Some s.files };

    ghost sure = { λ s. none_in s.fails };

    ghost faults = { λ s. s.faults };

    ghost sure_tells = { λ s h. Prim.search };

    fn read(
        &mut self,
        _alloc: Global,
        name: &Text,
        limit: u64,
        buf: &mut Vec<u8>,
    ) -> Result<(), ShelfError>
        requires { buf.old.items ≡ [] }
        ensures exact { (result ≡ Err ShelfError.Failed) ↔ IsTrue (fails_reading self.old name.now) }
        ensures got { FitsFile (file_of name.now self.old.files) limit result buf.new.items }
        ensures at_limit { StopsAtLimit limit result buf.new.items }
        ensures empty { result ≡ Err ShelfError.Failed → buf.new.items ≡ [] }
        ensures state { self.new ≡ after_read self.old name.now }
        ensures count { self.old.faults ≤ self.new.faults }
    {
        self.calls = self.calls.saturating_add(1);
        if self.fails.contains(&self.calls) {
            self.faults = self.faults.saturating_add(1);
            return Err(ShelfError::Failed);
        }
        match find(&self.files, name.bytes()) {
            None => {
                self.faults = self.faults.saturating_add(1);
                Err(ShelfError::Failed)
            }
            Some(file) => fill(file, limit, buf),
        }
    }
}
