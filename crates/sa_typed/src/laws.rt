//! Laws of executions.

ghost use Rattle.sa_typed.specs.Depth.{CallsEnd};
ghost use Rattle.sa_typed.specs.Progress.{GoesOn, NeverBreaks};
ghost use Rattle.sa_typed.specs.TypedRuns.{TypedProgramsRun};

/// An execution has fewer visits than asked for only where an evaluation errs, the last clock is reached, a number of the
/// tape is in no range, or the tape is short.
pub fn goes_on()
    ensures { GoesOn }
{}

/// Where each break stands in a loop, in all functions, no break gets out of a statement.
pub fn never_breaks()
    ensures { NeverBreaks }
{}

/// Where no function calls itself, by however many others, the number of functions is deep enough for calls inside calls: no
/// execution is still going because of it.
pub fn calls_end()
    ensures { CallsEnd }
{}

/// Of a typed program no break gets out of a call, and no execution is still going for want of depth.
pub fn typed_programs_run()
    ensures { TypedProgramsRun }
{}
