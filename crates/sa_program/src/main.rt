//! The analyzer as a program: the words of the command line, the files and standard output of the system,
//! and the status as the exit status of the process.
//!
//! It stands on `sa_top`, whose `run` does all the work, and on the traits of `sa_outside`. What no clause
//! can say, that the bytes of a file are those that are read and the bytes that are written reach the
//! output, rests on these few lines and on std. Keep every error of std a counted fault.
#![tactic(auto)]

ghost use Rattle.std.specs.Prelude.{◌≡◌, [], drop, IfOk, IfErr, MatchResult};
ghost use Rattle.std.specs.IoError.{error_kind};
ghost use Rattle.std.specs.Process.{exit_status};
ghost use Rattle.sa_base.specs.Numbers.{status_number};
ghost use Rattle.sa_program.specs.Words.{status_or_memory};

mod real;

use real::{RealShelf, RealSink};
use sa_base::{OutOfMemory, Status};
use sa_outside::OpenGate;
use sa_top::run;
use std::alloc::Global;
use std::io::ErrorKind;
use std::process::ExitCode;
use std::rt::{Env, Files};
use std::sync::Wait;
use std::thread::Threads;
use std::{env, io};

/// The words of the command line, of which the first is the program's name.
fn all_words(rt: &(impl Env + AllocGlobal), alloc: Global) -> io::Result<Vec<String>> {
    Ok(env::args(rt)?.collect(alloc)?)
}

/// The words without the program's name. Where one of them isn't UTF-8 there are none, which is refused as a faulty command
/// line.
fn words(all: io::Result<Vec<String>>, alloc: Global) -> Result<Vec<String>, OutOfMemory>
    ensures words { IfOk all (λ a. MatchResult result (λ w. w.items ≡ drop 1 a.items) (λ _. ⊥)) }
    ensures memory { IfErr all (λ e. error_kind e ≡ ErrorKind.OutOfMemory → IfOk result (λ _. ⊥)) }
    ensures faulty { IfErr all (λ e. (error_kind e ≡ ErrorKind.OutOfMemory → ⊥) → MatchResult result (λ w. w.items ≡ []) (λ _. ⊥)) }
{
    match all {
        Ok(mut all) => {
            if !all.is_empty() {
                all.remove(0);
            }
            Ok(all)
        }
        Err(error) if error.kind() == ErrorKind::OutOfMemory => Err(OutOfMemory),
        Err(_) => Ok(Vec::new(alloc)),
    }
}

/// The exit status of the process. Want of memory for the words is one of the statuses.
fn exit_code(status: Result<Status, OutOfMemory>) -> ExitCode
    ensures { exit_status result ≡ status_number (status_or_memory status) }
{
    let status = match status {
        Ok(status) => status,
        Err(OutOfMemory) => Status::OutOfMemory,
    };
    ExitCode::from(status.number())
}

fn analyzed(
    rt: &(impl Env + AllocGlobal + Files + Print + Threads + Wait + Sync),
    alloc: Global,
) -> Result<Status, OutOfMemory> {
    let words = words(all_words(rt, alloc), alloc)?;
    let mut shelf = RealShelf::new(rt);
    let mut sink = RealSink::new(rt);
    Ok(run(rt, alloc, &words, &mut shelf, &mut sink, &OpenGate))
}

fn main(rt: HostRuntime) -> ExitCode {
    exit_code(analyzed(&rt, rt.alloc()))
}
