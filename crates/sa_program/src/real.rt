ghost use Rattle.std.specs.Prelude.{None, false, ◌≡◌, ◌<◌, ◌≤◌, ◌+◌, [], Err, IfOk, IfErr, IfSome, OnOk, OnErr, length, take, vec_len};
ghost use Rattle.std.specs.Io.{StartsWith, appended_bytes};
ghost use Rattle.std.specs.Io.KnownBytes.{Appends, Consumes, IsAtEnd};
ghost use Rattle.sa_outside.specs.Reading.{StopsAtLimit, FailsByFault};
ghost use Rattle.sa_outside.specs.Causes.{Rose};
ghost use Rattle.sa_outside.specs.Writing.{IsCount};
ghost use Rattle.sa_program.specs.Reads.{FitsReader};

use sa_base::Text;
use sa_outside::{Shelf, ShelfError, Sink, SinkFailed};
use std::alloc::Global;
use std::fs::File;
use std::io;
use std::io::{Read, Write};
use std::rt::Files;

/// How many bytes one read asks for at most.
const CHUNK: u64 = 65_536;

/// Files by their paths. Nothing is known of what they hold, and any read may fail.
#[derive(Drop)]
pub struct RealShelf<'r, R> {
    rt: &'r R,
    faults: u64,
}

impl<'r, R: Files> RealShelf<'r, R> {
    pub fn new(rt: &'r R) -> RealShelf<'r, R> {
        RealShelf { rt, faults: 0 }
    }
}

impl<R: Files> Shelf for RealShelf<'_, R> {
    ghost files = { λ _. None };

    ghost sure = { λ _. false };

    ghost faults = { λ s. s.faults };

    ghost sure_tells = { λ s h. Prim.search };

    fn read(
        &mut self,
        _alloc: Global,
        name: &Text,
        limit: u64,
        buf: &mut Vec<u8>,
    ) -> Result<(), ShelfError> {
        read_counted(opened(self.rt, name.bytes()), &mut self.faults, limit, buf)
    }
}

/// The file at that path, if it can be opened. A path that isn't UTF-8 names none.
fn opened<R: Files>(rt: &R, path: &[u8]) -> Option<R::File> {
    match str::from_utf8(path) {
        Ok(path) => File::open(rt, path).ok(),
        Err(_) => None,
    }
}

/// Appends what the file has left, where there is one, and counts a failure as a fault.
fn read_counted<F: Read + Drop>(
    file: Option<F>,
    faults: &mut u64,
    limit: u64,
    buf: &mut Vec<u8>,
) -> Result<(), ShelfError>
    requires { buf.old.items ≡ [] }
    ensures within { OnOk result (length buf.new.items ≤ limit) }
    ensures at_limit { StopsAtLimit limit result buf.new.items }
    ensures told { IfSome file (λ f. FitsReader (F.remaining f) limit result buf.new.items) }
    ensures missing { file ≡ None → (result ≡ Err ShelfError.Failed) × (buf.new.items ≡ []) }
    ensures count { faults.old ≤ faults.new }
    ensures cause { FailsByFault faults.old faults.new result }
    ensures kept { OnOk result (faults.new ≡ faults.old) }
{
    let result = match file {
        Some(mut file) => read_to_limit(&mut file, limit, buf),
        None => Err(ShelfError::Failed),
    };
    if result == Err(ShelfError::Failed) {
        *faults = faults.saturating_add(1);
    }
    result
}

/// Appends what the file has left, and reads one byte past the limit at most.
fn read_to_limit<F: Read>(file: &mut F, limit: u64, buf: &mut Vec<u8>) -> Result<(), ShelfError>
    requires { buf.old.items ≡ [] }
    ensures within { OnOk result (length buf.new.items ≤ limit) }
    ensures at_limit { StopsAtLimit limit result buf.new.items }
    ensures told { FitsReader (F.remaining file.old) limit result buf.new.items }
{
    while buf.len() as u64 <= limit {
        let left = (limit - buf.len() as u64).saturating_add(1);
        match read_some(file, left.min(CHUNK) as usize, buf) {
            Ok(0) => return Ok(()),
            Ok(_) => {}
            Err(error) => return Err(error),
        }
    }
    buf.truncate(limit as usize);
    Err(ShelfError::TooLong)
}

/// Appends what one read gives, at most `most` bytes, and answers how many; 0 is the end.
fn read_some<F: Read>(file: &mut F, most: usize, buf: &mut Vec<u8>) -> Result<usize, ShelfError>
    requires { 0 < most }
    ensures count { IfOk result (λ n. (vec_len buf.new ≡ vec_len buf.old + n) × (n ≤ most)) }
    ensures keeps { StartsWith buf.new.items buf.old.items }
    ensures bytes { Consumes (F.remaining file.old) (F.remaining file.new) (appended_bytes buf.old.items buf.new.items) }
    ensures end { IfOk result (λ n. n ≡ 0 → IsAtEnd (F.remaining file.new)) }
    ensures no_limit { result ≡ Err ShelfError.TooLong → ⊥ }
{
    let len = buf.len();
    let Some(end) = len.checked_add(most) else {
        return Err(ShelfError::OutOfMemory);
    };
    if buf.resize(end, 0).is_err() {
        return Err(ShelfError::OutOfMemory);
    }
    let read = file.read(&mut buf[len..]);
    match read {
        Ok(n) => {
            buf.truncate(len + n);
            Ok(n)
        }
        Err(_) => {
            buf.truncate(len);
            Err(ShelfError::Failed)
        }
    }
}

/// Standard output. Nothing is known of the bytes that went there, and any write may fail.
#[derive(Drop)]
pub struct RealSink<'r, R> {
    rt: &'r R,
    faults: u64,
}

impl<'r, R: Print> RealSink<'r, R> {
    pub fn new(rt: &'r R) -> RealSink<'r, R> {
        RealSink { rt, faults: 0 }
    }
}

impl<R: Print> Sink for RealSink<'_, R> {
    ghost written = { λ _. None };

    ghost faults = { λ s. s.faults };

    fn write(&mut self, bytes: &[u8]) -> Result<usize, SinkFailed> {
        write_counted(&mut io::writer(self.rt), &mut self.faults, bytes)
    }
}

/// Writes at least one byte from the front, and answers how many; a write that takes nothing is counted as a fault.
fn write_counted<W: Write>(to: &mut W, faults: &mut u64, bytes: &[u8]) -> Result<usize, SinkFailed>
    requires { 0 < length bytes.now }
    ensures some { IfOk result (IsCount bytes.now) }
    ensures taken { IfOk result (λ n. Appends (W.contents to.old) (W.contents to.new) (take n bytes.now)) }
    ensures nothing { IfErr result (λ _. Appends (W.contents to.old) (W.contents to.new) []) }
    ensures count { faults.old ≤ faults.new }
    ensures cause { OnErr result (Rose faults.old faults.new) }
    ensures kept { OnOk result (faults.new ≡ faults.old) }
{
    match to.write(bytes) {
        Ok(n) if 0 < n => Ok(n),
        _ => {
            *faults = faults.saturating_add(1);
            Err(SinkFailed)
        }
    }
}

#[cfg(test)]
mod tests {
    use super::*;
    use std::fmt::Display;
    use std::io::ErrorKind;
    use std::test::Fail;
    use std::{env, fs, process};

    #[test]
    fn shelf_of_files(rt: HostRuntime) -> Result<(), Fail> {
        let alloc = rt.alloc();
        let id = process::id(rt.process());
        let folder = env::temp_dir(&rt)?;
        let folder = folder.as_path().as_str();
        let path = format!(in alloc; "{folder}/real-shelf-{id}")?;
        fs::write(&rt, path.as_str(), "five!")?;
        let mut shelf = RealShelf::new(&rt);
        for (name, limit, want, bytes, faults) in [
            (path.as_bytes(), 5, Ok(()), "five!", 0),
            (path.as_bytes(), 4, Err(ShelfError::TooLong), "five", 0),
            (folder.as_bytes(), 9, Err(ShelfError::Failed), "", 1),
            (
                b"no such file".as_slice(),
                9,
                Err(ShelfError::Failed),
                "",
                2,
            ),
            (b"\xff".as_slice(), 9, Err(ShelfError::Failed), "", 3),
        ] {
            let name = Text::of_bytes(alloc, name)?;
            let mut buf = Vec::new(alloc);
            assert_eq!(rt; shelf.read(alloc, &name, limit, &mut buf), want);
            assert_eq!(rt; buf.as_slice(), bytes.as_bytes());
            assert_eq!(rt; shelf.faults, faults);
        }
        fs::remove_file(&rt, path.as_str())?;
        Ok(())
    }

    /// Gives a byte a read, and fails where none is left.
    #[derive(Drop)]
    struct Failing<'a>(&'a [u8]);

    impl Read for Failing<'_> {
        fn read(&mut self, buf: &mut [u8]) -> io::Result<usize> {
            if self.0.is_empty() || buf.is_empty() {
                return Err(io::Error::from(ErrorKind::Other));
            }
            buf[0] = self.0[0];
            self.0 = &self.0[1..];
            Ok(1)
        }
    }

    #[test]
    fn read_that_fails_later(rt: HostRuntime) -> Result<(), Fail> {
        for (limit, want, bytes) in [
            (9, Err(ShelfError::Failed), "abc"),
            (3, Err(ShelfError::Failed), "abc"),
            (2, Err(ShelfError::TooLong), "ab"),
        ] {
            let mut buf = Vec::new(rt.alloc());
            let result = read_to_limit(&mut Failing(b"abc"), limit, &mut buf);
            assert_eq!(rt; result, want);
            assert_eq!(rt; buf.as_slice(), bytes.as_bytes());
        }
        Ok(())
    }

    /// Takes that many bytes a write, or fails.
    #[derive(Drop)]
    struct Device(Option<usize>);

    impl Print for Device {
        fn print<D: Display + Drop>(&self, _value: D) -> io::Result<()> {
            Ok(())
        }

        fn println<D: Display + Drop>(&self, _value: D) -> io::Result<()> {
            Ok(())
        }

        fn write_all(&self, _bytes: &[u8]) -> io::Result<()> {
            Ok(())
        }

        fn write_some(&self, bytes: &[u8]) -> io::Result<usize> {
            match self.0 {
                Some(n) => Ok(n.min(bytes.len())),
                None => Err(io::Error::from(ErrorKind::Other)),
            }
        }
    }

    #[test]
    fn sink_to_a_device(rt: HostRuntime) {
        for (takes, want, faults) in [
            (Some(2), Ok(2), 0),
            (Some(9), Ok(3), 0),
            (Some(0), Err(SinkFailed), 1),
            (None, Err(SinkFailed), 1),
        ] {
            let device = Device(takes);
            let mut sink = RealSink::new(&device);
            assert_eq!(rt; sink.write(b"abc"), want);
            assert_eq!(rt; sink.faults, faults);
        }
    }
}
