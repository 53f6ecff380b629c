//! The worked cases from outside: what a source is answered with.

use sa_base::{Status, Text};
use sa_outside::{MemShelf, MemSink, SureSink};
use sa_top::run_alone;
use std::alloc::{AllocError, Global};
use std::test::Fail;

const CLOCK_ALONE: &str = "void main(void) { while (1) { __ASTREE_wait_for_clock(()); } }";

const CLOCK_REPORT: &str = "loop 1:19 passes 5\n  clock in [0, 3600000]\nalarms 0\n";

fn words(alloc: Global, words: &[&str]) -> Result<Vec<String>, AllocError> {
    let mut list = Vec::new(alloc);
    for word in words {
        list.push(String::from_str(alloc, word)?)?;
    }
    Ok(list)
}

/// The pieces in a row, each as often as it says.
fn row(alloc: Global, pieces: &[(&str, usize)]) -> Result<Vec<u8>, AllocError> {
    let mut source = Vec::new(alloc);
    for (piece, count) in pieces {
        for _ in 0..*count {
            source.extend_from_slice(piece.as_bytes())?;
        }
    }
    Ok(source)
}

/// A shelf with one file, `a.c`.
fn shelf(alloc: Global, source: &[u8]) -> Result<MemShelf, AllocError> {
    let mut files = Vec::new(alloc);
    files.push((Text::of(alloc, "a.c")?, Vec::from_slice(alloc, source)?))?;
    Ok(MemShelf::new(files, Vec::new(alloc)))
}

#[test]
fn what_a_source_is_answered_with(rt: HostRuntime) -> Result<(), Fail> {
    let alloc = rt.alloc();
    let cases = [
        (CLOCK_ALONE, Status::Clean, CLOCK_REPORT),
        (
            "int x;\nvoid main(void) {\n  while (1) {\n    x = x + 1;\n    __ASTREE_wait_for_clock(());\n  }\n}\n",
            Status::Alarmed,
            "loop 3:3 passes 9\n  clock in [0, 3600000]\n  x in [0, 2147483647]\nalarm 4:11 overflow\nalarms 1\n",
        ),
        (
            "volatile unsigned char u;\nint a[4];\nvoid main(void) {\n  while (1) {\n    a[u] = 7;\n    int q = 100 / u;\n    __ASTREE_wait_for_clock(());\n  }\n}\n",
            Status::Alarmed,
            "loop 4:3 passes 5\n  clock in [0, 3600000]\n  a[0] in [0, 7]\n  a[1] in [0, 7]\n  a[2] in [0, 7]\n  a[3] in [0, 7]\nalarm 5:6 index\nalarm 6:17 division\nalarms 2\n",
        ),
        (
            "int x; void main(void) { x = 1 / 0; while (1) { __ASTREE_wait_for_clock(()); } }",
            Status::Alarmed,
            "loop 1:37 not reached\nalarm 1:32 division\nalarms 1\n",
        ),
        (
            "struct S { int a; int b[2]; } s, t; void main(void) { for (;;) { s = t; t.b[1] = 3; __ASTREE_wait_for_clock(()); } }",
            Status::Clean,
            "loop 1:55 passes 5\n  clock in [0, 3600000]\n  s.a in [0, 0]\n  s.b[0] in [0, 0]\n  s.b[1] in [0, 3]\n  t.a in [0, 0]\n  t.b[0] in [0, 0]\n  t.b[1] in [0, 3]\nalarms 0\n",
        ),
        (
            "int x; void main(void) { x = 1; if (x) ; while (1) { __ASTREE_wait_for_clock(()); } }",
            Status::SourceRefused,
            "source refused U1 1:33\n",
        ),
        (
            "int x = y; void main(void) { x = 1 && 2; }",
            Status::SourceRefused,
            "source refused U1 1:36\n",
        ),
        (
            "struct S { int a; } s; struct T { int a; } t; void main(void) { while (1) { s = t; __ASTREE_wait_for_clock(()); } }",
            Status::SourceRefused,
            "source refused T7 1:79\n",
        ),
        (
            "int a[128][128][4]; int b; void main(void) { while (1) { __ASTREE_wait_for_clock(()); } }",
            Status::Limit,
            "limit cells 65536\n",
        ),
        ("", Status::SourceRefused, "source refused T22 1:1\n"),
        (
            "int x = 0x",
            Status::SourceRefused,
            "source refused L2 1:9\n",
        ),
        (
            "int x; /* abc",
            Status::SourceRefused,
            "source refused L3 1:8\n",
        ),
        (
            "void main(void) { while (",
            Status::SourceRefused,
            "source refused S1 1:26\n",
        ),
    ];
    for (source, status, text) in cases {
        let mut out = SureSink::new(alloc, 200)?;
        let mut files = shelf(alloc, source.as_bytes())?;
        let given = words(alloc, ["analyze", "a.c"].as_slice())?;
        assert_eq!(rt; run_alone(alloc, &given, &mut files, &mut out), status);
        assert_eq!(rt; out.bytes(), text.as_bytes());
    }
    Ok(())
}

#[test]
fn what_words_and_faults_are_answered_with(rt: HostRuntime) -> Result<(), Fail> {
    let alloc = rt.alloc();
    let usage = "usage: sa MODE NAMES [--jobs N] [--json]\n";
    let cases = [
        (["analyze"].as_slice(), Status::Usage, usage),
        (["analyse", "a.c"].as_slice(), Status::Usage, usage),
        (["analyze", "b.c"].as_slice(), Status::ReadFault, ""),
        (["analyze", "a.c"].as_slice(), Status::Clean, CLOCK_REPORT),
    ];
    for (given, status, text) in cases {
        let mut out = SureSink::new(alloc, 52)?;
        let mut files = shelf(alloc, CLOCK_ALONE.as_bytes())?;
        let given = words(alloc, given)?;
        assert_eq!(rt; run_alone(alloc, &given, &mut files, &mut out), status);
        assert_eq!(rt; out.bytes(), text.as_bytes());
    }
    Ok(())
}

#[test]
fn a_write_that_fails_leaves_a_prefix(rt: HostRuntime) -> Result<(), Fail> {
    let alloc = rt.alloc();
    let mut fails = Vec::new(alloc);
    fails.push(3)?;
    let mut out = MemSink::new(alloc, 64, 8, fails)?;
    let given = words(alloc, ["analyze", "a.c"].as_slice())?;
    let mut files = shelf(alloc, CLOCK_ALONE.as_bytes())?;
    let status = run_alone(alloc, &given, &mut files, &mut out);
    assert_eq!(rt; status, Status::WriteFault);
    assert_eq!(rt; out.bytes(), "loop 1:19 passes".as_bytes());
    Ok(())
}

#[test]
fn what_a_long_source_is_answered_with(rt: HostRuntime) -> Result<(), Fail> {
    let alloc = rt.alloc();
    let cases = [
        (
            [(" ", 4_194_305)].as_slice(),
            Status::Limit,
            "limit source 4194304\n",
        ),
        (
            [(";", 1_000_001)].as_slice(),
            Status::Limit,
            "limit tokens 1000000\n",
        ),
        (
            [("int x = ", 1), ("(", 201)].as_slice(),
            Status::Limit,
            "limit nesting 200\n",
        ),
        (
            [("int x = ", 1), ("(", 200), ("1", 1), (")", 200), (";", 1)].as_slice(),
            Status::SourceRefused,
            "source refused T22 1:411\n",
        ),
    ];
    for (pieces, status, text) in cases {
        let source = row(alloc, pieces)?;
        let mut out = SureSink::new(alloc, 52)?;
        let mut files = shelf(alloc, &source)?;
        let given = words(alloc, ["analyze", "a.c"].as_slice())?;
        assert_eq!(rt; run_alone(alloc, &given, &mut files, &mut out), status);
        assert_eq!(rt; out.bytes(), text.as_bytes());
    }
    Ok(())
}
