ghost use Rattle.std.specs.Prelude.{◌≡◌, ◌<◌, ◌≤◌, [], IfOk, IfSome, length};
ghost use Rattle.std.specs.Result.{result_ok};
ghost use Rattle.sa_outside.specs.Memory.{taken_by, after_write, told_by};
ghost use Rattle.sa_outside.specs.Writing.{IsCount};

use crate::{Sink, SinkFailed, SureSink};
use sa_base::OutOfMemory;
use std::alloc::Global;
use std::marker::Model;

/// A sink that takes at most `most` bytes a call. A call fails exactly where its number, from 1, stands in
/// `fails`. It keeps the first `room` bytes, and tells its bytes where no more were written.
#[derive(Drop)]
pub struct MemSink {
    caught: SureSink,
    most: usize,
    fails: Vec<u64>,
    calls: u64,
    faults: u64,
}

impl Model for MemSink {
    ghost use Rattle.std.specs.Prelude.{◌<◌};
    ghost use Rattle.sa_outside.specs.Memory.{Failing};

    ghost Value = { Failing };

    ghost view = { λ s. record { caught = s.caught; most = s.most; fails = s.fails.items; calls = s.calls; faults = s.faults } };

    ghost invariant = { λ s. 0 < s.most };
}

impl MemSink {
    /// A sink that had no call yet, with room for `room` bytes, which it takes at once.
    pub fn new(
        alloc: Global,
        room: usize,
        take: usize,
        fails: Vec<u64>,
    ) -> Result<MemSink, OutOfMemory>
        requires { 0 < take }
        ensures { IfOk result (λ s. s ≡ record { caught = record { room = room; kept = []; rest = 0 }; most = take; fails = fails.items; calls = 0; faults = 0 }) }
    {
        Ok(MemSink {
            caught: SureSink::new(alloc, room)?,
            most: take,
            fails,
            calls: 0,
            faults: 0,
        })
    }

    /// The first `room` bytes of what was written, and all of it where the sink tells its bytes.
    pub fn bytes(&self) -> &[u8]
        ensures kept { result.now ≡ self.now.caught.kept }
        ensures told { IfSome (told_by self.now.caught) (λ all. result.now ≡ all) }
    {
        self.caught.bytes()
    }
}

impl Sink for MemSink {
    ghost use Rattle.sa_outside.specs.Memory.{told_by};

    ghost written = { λ s. told_by s.caught };

    ghost faults = { λ s. s.faults };

    fn write(&mut self, bytes: &[u8]) -> Result<usize, SinkFailed>
        requires { 0 < length bytes.now }
        ensures exact { result_ok result ≡ taken_by self.old bytes.now }
        ensures state { self.new ≡ after_write self.old bytes.now }
        ensures some { IfOk result (IsCount bytes.now) }
        ensures count { self.old.faults ≤ self.new.faults }
    {
        self.calls = self.calls.saturating_add(1);
        if self.fails.contains(&self.calls) {
            self.faults = self.faults.saturating_add(1);
            return Err(SinkFailed);
        }
        let n = bytes.len().min(self.most);
        self.caught.catch(&bytes[..n]);
        Ok(n)
    }
}
