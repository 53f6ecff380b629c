//! Each row of the table of refusals, what an accepted file tells in both versions, and files with thousands of names and spans.

ghost use Rattle.sa_typed.specs.Ranges.{AreOf};

use sa_base::{Num, OutOfMemory, Text};
use sa_ranges::{RangesFault, read_ranges};
use sa_typed::{Input, Program, Ranges};
use sqlite_items::Items;
use std::alloc::Global;
use std::test::Fail;

/// A program of these inputs alone.
fn with_inputs(alloc: Global, inputs: Items<Input>) -> Program {
    Program {
        inputs,
        structs: Items::new(alloc),
        vars: Items::new(alloc),
        funcs: Items::new(alloc),
        entry: 0,
        thresholds: Items::new(alloc),
    }
}

fn push(alloc: Global, inputs: &mut Items<Input>, name: &str, num: Num) -> Result<(), OutOfMemory> {
    let name = Text::of(alloc, name)?;
    inputs.push(Input { name, num })?;
    Ok(())
}

/// A program with the inputs `u` of `int`, `b` of `unsigned char` and `w` of `unsigned long long`.
fn three_inputs(alloc: Global) -> Result<Program, OutOfMemory> {
    let mut inputs = Items::new(alloc);
    push(alloc, &mut inputs, "u", Num::I32)?;
    push(alloc, &mut inputs, "b", Num::U8)?;
    push(alloc, &mut inputs, "w", Num::U64)?;
    Ok(with_inputs(alloc, inputs))
}

/// What is told of a fault, after `ranges refused `.
fn words(alloc: Global, fault: &RangesFault) -> Result<String, OutOfMemory> {
    match fault {
        RangesFault::NotJson => String::from_str(alloc, "NotJson"),
        RangesFault::Shape(row) => format!(in alloc; "Shape {row}"),
        RangesFault::Name(name) => told(alloc, "Name ", name),
        RangesFault::Spans(name) => told(alloc, "Spans ", name),
        RangesFault::Bounds(name) => told(alloc, "Bounds ", name),
        RangesFault::OutOfMemory => String::from_str(alloc, "memory"),
    }
}

fn told(alloc: Global, what: &str, name: &Text) -> Result<String, OutOfMemory> {
    let mut text = String::from_str(alloc, what)?;
    match std::str::from_utf8(name.bytes()) {
        Ok(name) => text.push_str(name)?,
        Err(_) => text.push_str("?")?,
    }
    Ok(text)
}

/// Whether a file is refused with these words.
fn is_refused(
    alloc: Global,
    program: &Program,
    file: &[u8],
    want: &str,
) -> Result<bool, OutOfMemory> {
    match read_ranges(alloc, file, program) {
        Ok(_) => Ok(false),
        Err(fault) => {
            let text = words(alloc, &fault)?;
            Ok(text.as_str() == want)
        }
    }
}

#[test]
fn files_that_are_refused(rt: HostRuntime) -> Result<(), Fail> {
    let alloc = rt.alloc();
    let program = three_inputs(alloc)?;
    for (file, want) in [
        ("[", "NotJson"),
        ("", "NotJson"),
        ("{\"version\":1} 2", "NotJson"),
        ("{\"version\":1e400}", "NotJson"),
        ("\u{feff}{\"version\":1}", "NotJson"),
        ("{\"version\":1,\"inputs\":{\"\\ud800\":[0,1]}}", "NotJson"),
        ("[]", "Shape 1"),
        ("1", "Shape 1"),
        ("{\"version\":1,\"clock\":5}", "Shape 2"),
        ("{\"Version\":1}", "Shape 2"),
        ("{}", "Shape 3"),
        ("{\"version\":3}", "Shape 3"),
        ("{\"version\":0}", "Shape 3"),
        ("{\"version\":1.0}", "Shape 3"),
        ("{\"version\":\"1\"}", "Shape 3"),
        ("{\"version\":1,\"max_clock\":-1}", "Shape 4"),
        ("{\"version\":1,\"max_clock\":-0}", "Shape 4"),
        (
            "{\"version\":1,\"max_clock\":4611686018427387905}",
            "Shape 4",
        ),
        ("{\"version\":1,\"max_clock\":null}", "Shape 4"),
        ("{\"version\":1,\"inputs\":[]}", "Shape 5"),
        (
            "{\"version\":1,\"inputs\":null,\"max_clock\":-1}",
            "Shape 4",
        ),
        ("{\"version\":1,\"inputs\":{\"u\":[0,1.5]}}", "Shape 6"),
        ("{\"version\":1,\"inputs\":{\"u\":[0]}}", "Shape 6"),
        ("{\"version\":1,\"inputs\":{\"u\":[0,1,2]}}", "Shape 6"),
        (
            "{\"version\":1,\"inputs\":{\"u\":[0,18446744073709551616]}}",
            "Shape 6",
        ),
        ("{\"version\":1,\"inputs\":{\"x\":{}}}", "Shape 6"),
        ("{\"version\":2,\"inputs\":{\"u\":[0,1]}}", "Shape 6"),
        ("{\"version\":2,\"inputs\":{\"u\":[]}}", "Shape 6"),
        ("{\"version\":2,\"inputs\":{\"u\":[[0,1]]}}", "Shape 6"),
        (
            "{\"version\":2,\"inputs\":{\"u\":[[0,0,1],[5,0]]}}",
            "Shape 6",
        ),
        ("{\"version\":1,\"inputs\":{\"x\":[0,1]}}", "Name x"),
        ("{\"version\":1,\"inputs\":{\"\":[0,1]}}", "Name "),
        ("{\"version\":1,\"inputs\":{\"\\u0055\":[0,1]}}", "Name U"),
        ("{\"version\":2,\"inputs\":{\"x\":[[1,1,0]]}}", "Name x"),
        ("{\"version\":2,\"inputs\":{\"u\":[[1,0,1]]}}", "Spans u"),
        ("{\"version\":2,\"inputs\":{\"u\":[[-1,0,1]]}}", "Spans u"),
        (
            "{\"version\":2,\"inputs\":{\"u\":[[0,0,1],[0,1,1]]}}",
            "Spans u",
        ),
        (
            "{\"version\":2,\"inputs\":{\"u\":[[0,0,1],[7,1,1],[6,1,1]]}}",
            "Spans u",
        ),
        (
            "{\"version\":2,\"inputs\":{\"u\":[[0,0,1],[4611686018427387905,1,1]]}}",
            "Spans u",
        ),
        ("{\"version\":1,\"inputs\":{\"u\":[1,0]}}", "Bounds u"),
        (
            "{\"version\":1,\"inputs\":{\"u\":[0,2147483648]}}",
            "Bounds u",
        ),
        (
            "{\"version\":1,\"inputs\":{\"u\":[-2147483649,0]}}",
            "Bounds u",
        ),
        ("{\"version\":1,\"inputs\":{\"b\":[0,256]}}", "Bounds b"),
        ("{\"version\":1,\"inputs\":{\"w\":[-1,0]}}", "Bounds w"),
        ("{\"version\":2,\"inputs\":{\"u\":[[0,1,0]]}}", "Bounds u"),
        (
            "{\"version\":2,\"inputs\":{\"b\":[[0,0,1],[1,-1,1]]}}",
            "Bounds b",
        ),
        // Names come in the order of their bytes, whatever their order in the file, and all rows of one before the next.
        (
            "{\"version\":1,\"inputs\":{\"u\":[0,1.5],\"b\":[0,256]}}",
            "Bounds b",
        ),
        (
            "{\"version\":1,\"inputs\":{\"w\":[-1,0],\"u\":0,\"x\":[0,1]}}",
            "Shape 6",
        ),
        (
            "{\"version\":1,\"inputs\":{\"b\":[0,1],\"x\":[0,1],\"y\":0}}",
            "Name x",
        ),
        // The last of equal keys counts.
        (
            "{\"version\":1,\"inputs\":{\"u\":[0,1],\"u\":[1,0]}}",
            "Bounds u",
        ),
    ] {
        assert!(rt;
            is_refused(alloc, &program, file.as_bytes(), want)?,
            "{file}"
        );
    }
    Ok(())
}

#[test]
fn bytes_that_are_no_utf8(rt: HostRuntime) -> Result<(), Fail> {
    let alloc = rt.alloc();
    let program = three_inputs(alloc)?;
    assert!(rt;
        is_refused(
            alloc,
            &program,
            b"{\"version\":1,\"inputs\":{\"\xff\":[0,1]}}",
            "NotJson"
        )?
    );
    Ok(())
}

/// The last clock, and what is told of an input at a tick.
fn tell(ranges: &Ranges, program: &Program, input: u32, tick: u64) -> Option<(u64, i128, i128)>
    requires { AreOf ranges.now program.now }
{
    if input as usize >= program.inputs.len() {
        return None;
    }
    let (lo, hi) = ranges.between(input, tick, tick);
    Some((ranges.max_clock(), lo, hi))
}

/// What a file that is accepted tells of an input at a tick, with the last clock.
fn at(
    alloc: Global,
    program: &Program,
    file: &str,
    input: u32,
    tick: u64,
) -> Option<(u64, i128, i128)> {
    match read_ranges(alloc, file.as_bytes(), program) {
        Err(_) => None,
        Ok(ranges) => tell(&ranges, program, input, tick),
    }
}

const LAST: u64 = 4_611_686_018_427_387_904;

#[test]
fn files_that_are_accepted(rt: HostRuntime) -> Result<(), Fail> {
    let alloc = rt.alloc();
    let program = three_inputs(alloc)?;
    let spans =
        "{\"version\":2,\"max_clock\":10,\"inputs\":{\"u\":[[0,1,1],[5,-9,9],[4611686018427387904,2,2]]}}";
    for (file, input, tick, want) in [
        (
            "{\"version\":1}",
            0,
            7,
            (3_600_000, -2_147_483_648, 2_147_483_647),
        ),
        (" {\n\"version\" : 2 } ", 1, 0, (3_600_000, 0, 255)),
        (
            "{\"version\":1,\"max_clock\":0,\"inputs\":{}}",
            2,
            0,
            (0, 0, 18_446_744_073_709_551_615),
        ),
        (
            "{\"version\":1,\"max_clock\":4611686018427387904}",
            1,
            LAST,
            (LAST, 0, 255),
        ),
        (
            "{\"version\":1,\"inputs\":{\"u\":[-5,5]}}",
            0,
            LAST,
            (3_600_000, -5, 5),
        ),
        (
            "{\"version\":1,\"inputs\":{\"u\":[-5,5]}}",
            1,
            0,
            (3_600_000, 0, 255),
        ),
        (
            "{\"version\":1,\"inputs\":{\"w\":[0,18446744073709551615]}}",
            2,
            0,
            (3_600_000, 0, 18_446_744_073_709_551_615),
        ),
        (
            "{\"version\":1,\"inputs\":{\"b\":[255,255],\"u\":[-2147483648,-2147483648]}}",
            0,
            1,
            (3_600_000, -2_147_483_648, -2_147_483_648),
        ),
        (
            "{\"version\":1,\"inputs\":{\"u\":[1,0],\"u\":[0,1]}}",
            0,
            0,
            (3_600_000, 0, 1),
        ),
        (
            "{\"version\":1,\"inputs\":{\"\\u0075\":[3,4]}}",
            0,
            0,
            (3_600_000, 3, 4),
        ),
        (spans, 0, 0, (10, 1, 1)),
        (spans, 0, 4, (10, 1, 1)),
        (spans, 0, 5, (10, -9, 9)),
        (spans, 0, LAST - 1, (10, -9, 9)),
        (spans, 0, LAST, (10, 2, 2)),
    ] {
        let told = at(alloc, &program, file, input, tick);
        assert!(rt; told == Some(want), "{file}");
    }
    Ok(())
}

/// `"NAME":[..]` for each of so many names, where each has one span more than the number says.
fn push_name(alloc: Global, text: &mut String, number: u32, spans: u32) -> Result<(), OutOfMemory> {
    let start = format!(in alloc; "{number:05}\":[[0,0,{number}]")?;
    text.push_str(start.as_str())?;
    for tick in 1..spans {
        let span = format!(in alloc; ",[{tick},1,2]")?;
        text.push_str(span.as_str())?;
    }
    text.push_str("]")?;
    Ok(())
}

/// A file with that many names, of which each has that many spans.
fn long_file(alloc: Global, names: u32, spans: u32) -> Result<String, OutOfMemory> {
    let mut text = String::from_str(alloc, "{\"version\":2,\"inputs\":{")?;
    for number in 0..names {
        text.push_str(if number == 0 { "\"i" } else { ",\"i" })?;
        push_name(alloc, &mut text, number, spans)?;
    }
    text.push_str("}}")?;
    Ok(text)
}

/// A program of that many inputs.
fn many_inputs(alloc: Global, names: u32) -> Result<Program, OutOfMemory> {
    let mut inputs = Items::new(alloc);
    for number in 0..names {
        let name = format!(in alloc; "i{number:05}")?;
        push(alloc, &mut inputs, name.as_str(), Num::I32)?;
    }
    Ok(with_inputs(alloc, inputs))
}

#[test]
fn as_many_spans_as_may_be(rt: HostRuntime) -> Result<(), Fail> {
    let alloc = rt.alloc();
    let program = many_inputs(alloc, 3)?;
    let most = long_file(alloc, 3, 64)?;
    assert!(rt; at(alloc, &program, most.as_str(), 2, 0) == Some((3_600_000, 0, 2)));
    assert!(rt; at(alloc, &program, most.as_str(), 2, 63) == Some((3_600_000, 1, 2)));
    let more = long_file(alloc, 3, 65)?;
    assert!(rt; is_refused(alloc, &program, more.as_bytes(), "Shape 6")?);
    Ok(())
}

#[test]
fn thousands_of_names(rt: HostRuntime) -> Result<(), Fail> {
    let alloc = rt.alloc();
    let program = many_inputs(alloc, 20_000)?;
    let file = long_file(alloc, 20_000, 8)?;
    assert!(rt; at(alloc, &program, file.as_str(), 19_999, 0) == Some((3_600_000, 0, 19_999)));
    assert!(rt; at(alloc, &program, file.as_str(), 999, 7) == Some((3_600_000, 1, 2)));
    let file = long_file(alloc, 20_001, 1)?;
    assert!(rt; is_refused(alloc, &program, file.as_bytes(), "Name i20000")?);
    Ok(())
}
