ghost use Rattle.std.specs.Prelude.{◌≡◌, ◌<◌, [], Ok, IfOk, IfSome, length};
ghost use Rattle.sa_outside.specs.Memory.{caught_more, told_by};

use crate::{Sink, SinkFailed};
use sa_base::OutOfMemory;
use std::alloc::Global;
use std::marker::Model;

/// A sink that never fails and takes all that it is given. It keeps the first `room` bytes and counts the
/// rest, and tells its bytes where there is no rest.
#[derive(Drop)]
pub struct SureSink {
    room: usize,
    kept: Vec<u8>,
    rest: u64,
}

impl Model for SureSink {
    ghost use Rattle.std.specs.Prelude.{◌≤◌, vec_len, vec_capacity};
    ghost use Rattle.sa_outside.specs.Memory.{Caught};

    ghost Value = { Caught };

    ghost view = { λ s. record { room = s.room; kept = s.kept.items; rest = s.rest } };

    ghost invariant = { λ s. (vec_len s.kept ≤ s.room) × (s.room ≤ vec_capacity s.kept) };
}

impl SureSink {
    /// A sink with room for that many bytes, which it takes at once.
    pub fn new(alloc: Global, room: usize) -> Result<SureSink, OutOfMemory>
        ensures { IfOk result (λ s. s ≡ record { room = room; kept = []; rest = 0 }) }
    {
        Ok(SureSink {
            room,
            kept: Vec::with_capacity(alloc, room)?,
            rest: 0,
        })
    }

    /// The first `room` bytes of what was written, and all of it where the sink tells its bytes.
    pub fn bytes(&self) -> &[u8]
        ensures kept { result.now ≡ self.now.kept }
        ensures told { IfSome (told_by self.now) (λ all. result.now ≡ all) }
    {
        &self.kept
    }

    /// Keeps what it has room for, and counts the rest.
    pub(crate) fn catch(&mut self, bytes: &[u8])
        ensures { self.new ≡ caught_more self.old bytes.now }
    {
        let room = self.room - self.kept.len();
        let kept = bytes.len().min(room);
        let _ = self.kept.extend_from_slice(&bytes[..kept]);
        self.rest = self.rest.saturating_add((bytes.len() - kept) as u64);
    }
}

impl Sink for SureSink {
    ghost use Rattle.sa_outside.specs.Memory.{told_by};

    ghost written = { told_by };

    ghost faults = { λ _. 0 };

    fn write(&mut self, bytes: &[u8]) -> Result<usize, SinkFailed>
        requires { 0 < length bytes.now }
        ensures whole { result ≡ Ok (length bytes.now) }
        ensures state { self.new ≡ caught_more self.old bytes.now }
    {
        self.catch(bytes);
        Ok(bytes.len())
    }
}
