//! What holds of the reference analysis.

ghost use Rattle.sa_reference.specs.Sound.{Sound, Short};

/// The reference analysis is sound, and no loop takes more than 32 passes.
///
/// For each typed program, each setting of it, each tape and each number of visits: where an execution visits a loop, the
/// analysis reaches the loop, and what it says of the loop holds there; and a first error is among the alarms.
pub fn is_sound()
    ensures sound { Sound }
    ensures short { Short }
{}
