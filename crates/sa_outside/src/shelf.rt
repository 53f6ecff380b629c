ghost use Rattle.std.specs.Prelude.{◌≡◌, ◌≤◌, ℕ, [], Option, Bool, OnOk, IsTrue, IsSome, length};
ghost use Rattle.sa_outside.specs.Files.{Files};
ghost use Rattle.sa_outside.specs.Reading.{FailsByFault, StopsAtLimit, FitsTold, FailsOnMissing, KeepsCount};

use sa_base::Text;
use std::alloc::Global;

/// Why a file wasn't read.
#[derive(Clone, Copy, Debug, PartialEq, Eq)]
pub enum ShelfError {
    /// A fault of the shelf. A missing file is one.
    Failed,
    /// The file has more bytes than the limit.
    TooLong,
    /// There wasn't memory enough for its bytes.
    OutOfMemory,
}

/// Files by their names.
pub trait Shelf {
    /// What each name holds, where contracts can see it.
    ghost files: { Self → Option Files };

    /// Whether its only faults are names that it doesn't hold.
    ghost sure: { Self → Bool };

    /// How often it has failed. A count stands still at the end of its type.
    ghost faults: { Self → ℕ };

    /// Appends the file of that name to the empty buffer, if it has at most `limit` bytes.
    ///
    /// After an error the buffer holds the bytes that were read until then.
    fn read(
        &mut self,
        alloc: Global,
        name: &Text,
        limit: u64,
        buf: &mut Vec<u8>,
    ) -> Result<(), ShelfError>
        requires { buf.old.items ≡ [] }

        // No read changes what the shelf holds.
        ensures keeps_files { files self.new ≡ files self.old }
        ensures keeps_sure { sure self.new ≡ sure self.old }

        // What is known of the answer and the bytes, whether the files are told or not, and where they are.
        ensures within { OnOk result (length buf.new.items ≤ limit) }
        ensures at_limit { StopsAtLimit limit result buf.new.items }
        ensures told { FitsTold (files self.old) name.now limit result buf.new.items }

        // Each fault is counted, and a sure shelf has none but a missing file.
        ensures count { faults self.old ≤ faults self.new }
        ensures cause { FailsByFault (faults self.old) (faults self.new) result }
        ensures missing { FailsOnMissing (sure self.old) (files self.old) name.now result }
        ensures no_fault { KeepsCount (sure self.old) (files self.old) name.now (faults self.old) (faults self.new) };

    /// A sure shelf tells its files.
    ghost sure_tells: { (s : Self) → IsTrue (sure s) → IsSome (files s) };
}
