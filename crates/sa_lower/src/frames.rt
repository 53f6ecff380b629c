//! What is known of a call while its function is lowered.

ghost use Rattle.std.specs.Prelude.{◌≡◌, ◌+◌, ◌++◌, ℕ, IfOk, OnOk};
ghost use Rattle.sa_typed.specs.Frames.{kept_indices};
ghost use Rattle.sa_ir.specs.Cursors.{frame_of};
ghost use Rattle.sa_ir.specs.Nodes.{kept_from};
ghost use Rattle.sa_ir.specs.Sizes.{capped};
ghost use Rattle.sa_ir.specs.Tables.{IsTable};
ghost use Rattle.sa_lower.specs.References.{reference_for};

use crate::OutOfMemory;
use crate::kept::access_indices;
use crate::targets::target;
use sa_ir::{Frame, Reference, Table, number};
use sa_typed::{Arg, Home, Param, Program};
use std::alloc::Global;

/// The number of the cell behind so many others.
fn behind(first: usize, count: usize) -> Result<u32, OutOfMemory>
    ensures { (n : ℕ) → count ≡ capped n → IfOk result (λ r. r ≡ first + n) }
{
    number(first.saturating_add(count))
}

/// The first cell that keeps an index, in a call whose cells begin there.
pub fn kept_from(program: &Program, table: &Table, first: usize, f: u32) -> Result<u32, OutOfMemory>
    requires { IsTable program.now table.now }
    ensures { IfOk result (λ r. r ≡ kept_from program.now f first) }
{
    let cells = table.sections.cells(Home::Local(f));
    behind(first, cells)
}

/// What a parameter stands for, if it is a reference, where the indices of its argument are kept in the cells from one on, and the
/// next cell that keeps one.
#[allow(clippy::too_many_arguments)]
pub fn push_reference(
    alloc: Global,
    program: &Program,
    table: &Table,
    frame: &Frame,
    next: usize,
    param: Param,
    arg: &Arg,
    references: &mut Vec<Reference>,
) -> Result<usize, OutOfMemory>
    requires { IsTable program.now table.now }
    ensures next { IfOk result (λ r. r ≡ next + kept_indices arg.now) }
    ensures references { OnOk result (references.new.items ≡ references.old.items ++ reference_for program.now (frame_of program.now frame.now) next param arg.now) }
{
    match arg {
        Arg::Value(_, _) => Ok(next),
        Arg::Object(access) => {
            let after = behind(next, access_indices(access))?;
            let target = target(alloc, program, table, frame, next, access)?;
            references.push(Reference {
                var: param.var,
                target,
            })?;
            Ok(after as usize)
        }
    }
}
