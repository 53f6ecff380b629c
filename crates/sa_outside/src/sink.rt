ghost use Rattle.std.specs.Prelude.{◌<◌, ◌≤◌, ℕ, List, Option, OnErr, IfOk, length};
ghost use Rattle.sa_outside.specs.Causes.{Rose};
ghost use Rattle.sa_outside.specs.Writing.{IsCount, Writes};

/// A fault of the sink. A device that takes nothing is one.
#[derive(Clone, Copy, Debug, PartialEq, Eq)]
pub struct SinkFailed;

/// Takes bytes, in order.
pub trait Sink {
    /// The bytes written so far, where contracts can see them.
    ghost written: { Self → Option (List ℕ) };

    /// How often it has failed. A count stands still at the end of its type.
    ghost faults: { Self → ℕ };

    /// Takes at least one byte from the front, and answers how many; a fault takes nothing.
    fn write(&mut self, bytes: &[u8]) -> Result<usize, SinkFailed>
        requires { 0 < length bytes.now }
        ensures some { IfOk result (IsCount bytes.now) }
        ensures taken { Writes (written self.old) (written self.new) bytes.now result }
        ensures count { faults self.old ≤ faults self.new }
        ensures cause { OnErr result (Rose (faults self.old) (faults self.new)) };
}
