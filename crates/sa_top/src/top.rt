//! The top calls.

ghost use Rattle.std.specs.Prelude.{◌≡◌, ◌≢◌, ◌≤◌, map, string_bytes, IsTrue};
ghost use Rattle.sa_base.specs.declared.status.Status.TheVariants.{ReadFault, WriteFault};
ghost use Rattle.sa_outside.specs.Causes.{Rose};
ghost use Rattle.sa_typed.specs.declared.program.Program.{Program};
ghost use Rattle.sa_top.specs.Accepted.{OneReading};
ghost use Rattle.sa_top.specs.Answer.{name_of, HasText, OneAnswer};
ghost use Rattle.sa_top.specs.Sound.{Sound, Short};
ghost use Rattle.sa_top.specs.Top.{Answers, IsMissing, UsageHolds, Finished, HoldsProgram, Stays, Reported};

use crate::output::write_all;
use crate::reply::{Reply, Silent, reply_to};
use sa_base::Status;
use sa_outside::{Gate, Shelf, Sink};
use std::alloc::Global;
use std::sync::Wait;
use std::thread::Threads;

/// Does what the words ask for, on one thread: reads the named source and writes the report, or the line of a refusal.
///
/// `words` are the command line without the program's name. The text is made whole before the first write.
pub fn run_alone<H: Shelf, K: Sink>(
    alloc: Global,
    words: &[String],
    shelf: &mut H,
    out: &mut K,
) -> Status
    // The status and the bytes written are the answer's.
    ensures answer { Answers (H.files shelf.old) (map string_bytes words.now) result (K.written out.old) (K.written out.new) }

    // Usage exactly where the words are refused; a fault only where its count rose, and over a sure shelf only where the
    // file is missing.
    ensures usage { UsageHolds (name_of (map string_bytes words.now)) result }
    ensures read { result ≡ ReadFault → Rose (H.faults shelf.old) (H.faults shelf.new) }
    ensures missing { IsTrue (H.sure shelf.old) → result ≡ ReadFault → IsMissing (H.files shelf.old) (map string_bytes words.now) }
    ensures write { result ≡ WriteFault → Rose (K.faults out.old) (K.faults out.new) }
    ensures shelf_count { H.faults shelf.old ≤ H.faults shelf.new }
    ensures sink_count { K.faults out.old ≤ K.faults out.new }

    // Of a program that the shelf holds for sure the whole report is written, where the sink counts no fault and memory suffices.
    ensures complete { (p : Program) → HoldsProgram (H.sure shelf.old) (H.files shelf.old) (map string_bytes words.now) p → Stays (K.faults out.old) (K.faults out.new) → Reported p result (K.written out.old) (K.written out.new) }

    // The reference analysis is sound over every accepted source, tape and number of turns, and no loop takes more than 32
    // passes.
    ensures sound { Sound }
    ensures short { Short }

    // A source is read as one program at most, and has one answer.
    ensures read_once { OneReading }
    ensures answered_once { OneAnswer }
{
    match reply_to(alloc, words, shelf) {
        Ok(reply) => finish(reply, out),
        Err(Silent::Unread) => Status::ReadFault,
        Err(Silent::NoMemory) => Status::OutOfMemory,
    }
}

/// Does what the words ask for, with as many workers as they say. It promises what `run_alone` promises.
pub fn run<R: Threads + Wait + Sync, H: Shelf, K: Sink, G: Gate + Sync>(
    _rt: &R,
    alloc: Global,
    words: &[String],
    shelf: &mut H,
    out: &mut K,
    _gate: &G,
) -> Status
    ensures answer { Answers (H.files shelf.old) (map string_bytes words.now) result (K.written out.old) (K.written out.new) }

    ensures usage { UsageHolds (name_of (map string_bytes words.now)) result }
    ensures read { result ≡ ReadFault → Rose (H.faults shelf.old) (H.faults shelf.new) }
    ensures missing { IsTrue (H.sure shelf.old) → result ≡ ReadFault → IsMissing (H.files shelf.old) (map string_bytes words.now) }
    ensures write { result ≡ WriteFault → Rose (K.faults out.old) (K.faults out.new) }
    ensures shelf_count { H.faults shelf.old ≤ H.faults shelf.new }
    ensures sink_count { K.faults out.old ≤ K.faults out.new }
    ensures complete { (p : Program) → HoldsProgram (H.sure shelf.old) (H.files shelf.old) (map string_bytes words.now) p → Stays (K.faults out.old) (K.faults out.new) → Reported p result (K.written out.old) (K.written out.new) }

    ensures sound { Sound }
    ensures short { Short }
    ensures read_once { OneReading }
    ensures answered_once { OneAnswer }
{
    run_alone(alloc, words, shelf, out)
}

/// Writes the reply's text.
fn finish<K: Sink>(reply: Reply, out: &mut K) -> Status
    requires { HasText reply.status }
    ensures text { Finished reply.status reply.text.items result (K.written out.old) (K.written out.new) }
    ensures write { result ≡ WriteFault → Rose (K.faults out.old) (K.faults out.new) }
    ensures read { result ≢ ReadFault }
    ensures count { K.faults out.old ≤ K.faults out.new }
{
    match write_all(out, &reply.text) {
        Ok(()) => reply.status,
        Err(_) => Status::WriteFault,
    }
}
