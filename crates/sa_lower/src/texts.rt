//! The texts of paths and loops.

ghost use Rattle.std.specs.Prelude.{◌≡◌, ◌++◌, codes, slice_get, IfOk, OnOk};
ghost use Rattle.sa_ir.specs.Names.{func_name, pos_text, call_text, loop_text};

use crate::OutOfMemory;
use sa_base::{Pos, Text};
use sa_ir::push_pos;
use sa_typed::Program;
use std::alloc::Global;

/// The name of a function.
fn push_name(program: &Program, f: u32, text: &mut Vec<u8>) -> Result<(), OutOfMemory>
    ensures { OnOk result (text.new.items ≡ text.old.items ++ func_name (slice_get program.now.funcs f)) }
{
    match program.funcs.get(f as usize) {
        None => Ok(()),
        Some(func) => text.extend_from_slice(func.name.bytes()),
    }
}

/// `@3:5/`
fn push_call_place(alloc: Global, pos: Pos, text: &mut Vec<u8>) -> Result<(), OutOfMemory>
    ensures { OnOk result (text.new.items ≡ text.old.items ++ (codes "@" ++ (pos_text pos ++ codes "/"))) }
{
    text.extend_from_slice("@".as_bytes())?;
    push_pos(alloc, text, pos)?;
    text.extend_from_slice("/".as_bytes())
}

/// The path of a call, `f@3:5/` behind the path that leads to the caller.
#[tactic(auto, unfolding(sa_ir::specs::Names::call_text))]
pub fn call_path(
    alloc: Global,
    program: &Program,
    prefix: &[u8],
    pos: Pos,
    f: u32,
) -> Result<Vec<u8>, OutOfMemory>
    ensures { IfOk result (λ r. r.items ≡ call_text program.now prefix.now pos f) }
{
    let mut text = Vec::from_slice(alloc, prefix)?;
    push_name(program, f, &mut text)?;
    push_call_place(alloc, pos, &mut text)?;
    Ok(text)
}

/// The name of a loop, by the place of its word.
#[tactic(auto, unfolding(sa_ir::specs::Names::loop_text))]
pub fn loop_name(alloc: Global, prefix: &[u8], pos: Pos) -> Result<Text, OutOfMemory>
    ensures { IfOk result (λ r. r ≡ loop_text prefix.now pos) }
{
    let mut text = Vec::from_slice(alloc, prefix)?;
    push_pos(alloc, &mut text, pos)?;
    Text::of_bytes(alloc, &text)
}
