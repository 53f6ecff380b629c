//! The outside as the analyzer sees it: a shelf of files, a sink of bytes, and a gate that is told of what
//! the workers do; with small shelves and sinks in memory.
//!
//! It stands on `sa_base`. The layers above use the clauses of `Shelf::read` and `Sink::write`: a fault
//! comes only where the object's count of faults rose in that call, and where the content is told, the
//! bytes that went in or out are known. Keep the counts rising: no clause may answer a fault without one.
#![tactic(auto)]

mod gate;
mod mem_shelf;
mod mem_sink;
mod shelf;
mod sink;
mod sure_sink;

pub use gate::{Gate, OpenGate};
pub use mem_shelf::MemShelf;
pub use mem_sink::MemSink;
pub use shelf::{Shelf, ShelfError};
pub use sink::{Sink, SinkFailed};
pub use sure_sink::SureSink;

#[cfg(test)]
mod tests {
    use super::*;
    use sa_base::Text;
    use std::test::Fail;

    #[test]
    fn shelf_in_memory(rt: HostRuntime) -> Result<(), Fail> {
        let alloc = rt.alloc();
        let mut files = Vec::new(alloc);
        for (name, bytes) in [("a", "one"), ("a", "two"), ("b", "")] {
            files.push((
                Text::of(alloc, name)?,
                Vec::from_slice(alloc, bytes.as_bytes())?,
            ))?;
        }
        let mut shelf = MemShelf::new(files, Vec::from_slice(alloc, &[2])?);
        for (name, limit, want, bytes) in [
            ("a", 3, Ok(()), "one"),
            ("a", 3, Err(ShelfError::Failed), ""),
            ("a", 2, Err(ShelfError::TooLong), "on"),
            ("c", 9, Err(ShelfError::Failed), ""),
            ("b", 0, Ok(()), ""),
        ] {
            let name = Text::of(alloc, name)?;
            let mut buf = Vec::new(alloc);
            assert_eq!(rt; shelf.read(alloc, &name, limit, &mut buf), want);
            assert_eq!(rt; buf.as_slice(), bytes.as_bytes());
        }
        Ok(())
    }

    #[test]
    fn sinks_in_memory(rt: HostRuntime) -> Result<(), Fail> {
        let alloc = rt.alloc();
        let mut sink = MemSink::new(alloc, 4, 2, Vec::from_slice(alloc, &[2])?)?;
        let mut sure = SureSink::new(alloc, 4)?;
        for (bytes, want, kept, all) in [
            ("abc", Ok(2), "ab", "abc"),
            ("cde", Err(SinkFailed), "ab", "abcc"),
            ("cde", Ok(2), "abcd", "abcc"),
            ("e", Ok(1), "abcd", "abcc"),
        ] {
            if !bytes.is_empty() {
                assert_eq!(rt; sink.write(bytes.as_bytes()), want);
                assert_eq!(rt; sink.bytes(), kept.as_bytes());
                assert_eq!(rt; sure.write(bytes.as_bytes()), Ok(bytes.len()));
                assert_eq!(rt; sure.bytes(), all.as_bytes());
            }
        }
        OpenGate.claimed(0);
        OpenGate.filed(0);
        Ok(())
    }
}
