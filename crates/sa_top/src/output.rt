//! The write of a text to a sink.

ghost use Rattle.std.specs.Prelude.{◌≤◌, OnOk, OnErr};
ghost use Rattle.sa_outside.specs.Causes.{Rose};
ghost use Rattle.sa_outside.specs.Writing.{Appends};
ghost use Rattle.sa_top.specs.Top.{AppendsPart};

use sa_outside::{Sink, SinkFailed};

/// Writes the text, the whole rest at each call. After a fault a proper prefix of it was written.
pub fn write_all<K: Sink>(out: &mut K, text: &[u8]) -> Result<(), SinkFailed>
    ensures whole { OnOk result (Appends (K.written out.old) (K.written out.new) text.now) }
    ensures part { OnErr result (AppendsPart (K.written out.old) (K.written out.new) text.now) }
    ensures count { K.faults out.old ≤ K.faults out.new }
    ensures cause { OnErr result (Rose (K.faults out.old) (K.faults out.new)) }
{
    let mut at = 0;
    while at < text.len() {
        let rest = &text[at..];
        match out.write(rest) {
            Ok(n) => at += n,
            Err(failed) => return Err(failed),
        }
    }
    Ok(())
}
