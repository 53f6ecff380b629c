//! Generated sources: a controller with one switch of many cases, by which the analyzer is measured.
//!
//! It stands on nothing. The layer above uses that `generate(n)` is exactly the text of `specs/Source.antt`, which
//! is made of its lines. A change of the text is a change of that definition.
#![tactic(auto)]

ghost use Rattle.std.specs.Prelude.{◌≡◌, ◌≤◌, ◌++◌, IfOk, OnOk};
ghost use Rattle.sa_gen.specs.Source.{declaration, modulus, case_start, case_end, case_line, lines_from, source_of};

pub use std::alloc::AllocError as OutOfMemory;
use std::alloc::Global;

fn push_text(text: &mut Vec<u8>, part: &str) -> Result<(), OutOfMemory>
    ensures { OnOk result (text.new.items ≡ text.old.items ++ part.now) }
{
    text.extend_from_slice(part.as_bytes())
}

#[tactic(auto, unfolding(crate::specs::Source::declaration))]
fn push_declaration(alloc: Global, text: &mut Vec<u8>, i: u32) -> Result<(), OutOfMemory>
    ensures { OnOk result (text.new.items ≡ text.old.items ++ declaration i) }
{
    let line = format!(in alloc; "int a{i};\n")?;
    text.extend_from_slice(line.as_bytes())
}

#[tactic(auto, unfolding(crate::specs::Source::modulus))]
fn push_modulus(alloc: Global, text: &mut Vec<u8>, n: u32) -> Result<(), OutOfMemory>
    ensures { OnOk result (text.new.items ≡ text.old.items ++ modulus n) }
{
    let line = format!(in alloc; "    int k = u % {n};\n")?;
    text.extend_from_slice(line.as_bytes())
}

#[tactic(auto, unfolding(crate::specs::Source::case_start))]
fn push_case_start(alloc: Global, text: &mut Vec<u8>, i: u32) -> Result<(), OutOfMemory>
    ensures { OnOk result (text.new.items ≡ text.old.items ++ case_start i) }
{
    let line = format!(in alloc; "      case {i}: a{i} = a{i} + 1;")?;
    text.extend_from_slice(line.as_bytes())
}

#[tactic(auto, unfolding(crate::specs::Source::case_end))]
fn push_case_end(alloc: Global, text: &mut Vec<u8>, i: u32) -> Result<(), OutOfMemory>
    ensures { OnOk result (text.new.items ≡ text.old.items ++ case_end i) }
{
    let line = format!(in alloc; " if (a{i} > 100) a{i} = 0; break;\n")?;
    text.extend_from_slice(line.as_bytes())
}

#[tactic(auto, unfolding(crate::specs::Source::case_line))]
fn push_case(alloc: Global, text: &mut Vec<u8>, i: u32) -> Result<(), OutOfMemory>
    ensures { OnOk result (text.new.items ≡ text.old.items ++ case_line i) }
{
    push_case_start(alloc, text, i)?;
    push_case_end(alloc, text, i)?;
    Ok(())
}

fn push_declarations(alloc: Global, text: &mut Vec<u8>, n: u32) -> Result<(), OutOfMemory>
    ensures { OnOk result (text.new.items ≡ text.old.items ++ lines_from declaration n 0) }
{
    for i in 0..n {
        push_declaration(alloc, text, i)?;
    }
    Ok(())
}

fn push_cases(alloc: Global, text: &mut Vec<u8>, n: u32) -> Result<(), OutOfMemory>
    ensures { OnOk result (text.new.items ≡ text.old.items ++ lines_from case_line n 0) }
{
    for i in 0..n {
        push_case(alloc, text, i)?;
    }
    Ok(())
}

/// The source of a controller with `n` counters, of which an input picks one at each turn: `n` is 1 to 1,000.
///
/// `generate(1)` has 204 bytes, `generate(200)` 14,682.
pub fn generate(alloc: Global, n: u32) -> Result<Vec<u8>, OutOfMemory>
    requires some { 1 ≤ n }
    requires few { n ≤ 1000 }
    ensures { IfOk result (λ text. text.items ≡ source_of n) }
{
    let mut text = Vec::from_slice(alloc, "volatile unsigned short u;\n".as_bytes())?;
    push_declarations(alloc, &mut text, n)?;
    push_text(&mut text, "void main(void) {\n  while (1) {\n")?;
    push_modulus(alloc, &mut text, n)?;
    push_text(&mut text, "    switch (k) {\n")?;
    push_cases(alloc, &mut text, n)?;
    push_text(&mut text, "    }\n    __ASTREE_wait_for_clock(());\n")?;
    push_text(&mut text, "  }\n}\n")?;
    Ok(text)
}

#[cfg(test)]
mod tests {
    use super::*;
    use std::test::Fail;

    const ONE: &str =
        "volatile unsigned short u;\nint a0;\nvoid main(void) {\n  while (1) {\n    int k = u % 1;\n    switch (k) {\n      case 0: a0 = a0 + 1; if (a0 > 100) a0 = 0; break;\n    }\n    __ASTREE_wait_for_clock(());\n  }\n}\n";

    #[test]
    fn lengths(rt: HostRuntime) -> Result<(), Fail> {
        let alloc = rt.alloc();
        for (n, bytes) in [(1, 204), (200, 14_682), (1_000, 75_483)] {
            let text = generate(alloc, n)?;
            assert_eq!(rt; text.len(), bytes);
        }
        let text = generate(alloc, 1)?;
        assert_eq!(rt; text.as_slice(), ONE.as_bytes());
        Ok(())
    }
}
