//! Sources that have a tree, where others have none, and how much may be open.

use sa_base::Pos;
use sa_parser::{ParseFault, parse};
use sa_syntax::{Item, Unit};
use sa_tokens::{TokenFault, end_of, tokens};
use std::alloc::Global;
use std::process::Abort;
use std::test::Fail;

const MOST_BYTES: usize = 4_194_304;

fn read(alloc: Global, source: &str) -> Result<Unit, ParseFault> {
    read_bytes(alloc, source.as_bytes())
}

fn read_bytes(alloc: Global, bytes: &[u8]) -> Result<Unit, ParseFault> {
    if bytes.len() > MOST_BYTES {
        return Err(ParseFault::OutOfMemory);
    }
    match tokens(alloc, bytes) {
        Ok(tokens) => parse(alloc, &tokens, end_of(bytes)),
        Err(TokenFault::OutOfMemory) => Err(ParseFault::OutOfMemory),
        Err(_) => Err(ParseFault::Syntax(at(0, 0))),
    }
}

const fn at(line: u32, col: u32) -> Pos {
    Pos { line, col }
}

#[test]
fn what_has_a_tree(rt: HostRuntime) -> Result<(), Fail> {
    let alloc = rt.alloc();
    let cases = [
        ("", 0),
        ("int x;", 1),
        ("typedef int t; t t; struct t { t t[1 + 2]; } s;", 3),
        (
            "struct { int a, b[2]; }; const volatile static unsigned long x = 1, y[2] = { 1, 2, };",
            2,
        ),
        (
            "void f(void); void f(int *p, struct S q, long); int g() { return; }",
            3,
        ),
        (
            "void main(void) { if (a) if (b) ; else x = 1; else x += 2; }",
            1,
        ),
        (
            "void main(void) { while (1) { __ASTREE_wait_for_clock(()); } }",
            1,
        ),
        (
            "void f(void) { int x = f(1, &y, &(*p)[2].a->b), z; x = g(); f(); ++*p; (*p)--; do ; while (x ? 1 : 2); }",
            1,
        ),
        (
            "void f(void) { for (int i = 0; i < 3; i++) { } for (;;) ; switch (x) { case 1: case 2: x = 1; break; default: } }",
            1,
        ),
        (
            "int x = (int)-(unsigned char)~!+a.b[1] * 2 - (3 << 1) % 4 == 5 && 6 | 7 ^ 8 & 9 || (*p) + *q;",
            1,
        ),
        (
            "void f(void) { __ASTREE_partition(()); __ASTREE_known_fact((x)); __ASTREE_assert((x < 1)); return 1; }",
            1,
        ),
    ];
    for (source, items) in cases {
        match read(alloc, source) {
            Ok(unit) => assert_eq!(rt; unit.items.len(), items, "{source}"),
            Err(fault) => assert!(rt; false, "{source}: {fault:?}"),
        }
    }
    Ok(())
}

#[test]
fn what_has_none(rt: HostRuntime) -> Result<(), Fail> {
    let alloc = rt.alloc();
    let cases = [
        ("void main(void) { while (", at(1, 26)),
        ("int x", at(1, 6)),
        ("int x = ;", at(1, 9)),
        ("void f(int) { }", at(1, 13)),
        ("const struct S { int a; } ;", at(1, 27)),
        ("int const x;", at(1, 5)),
        ("int a[1] = { };", at(1, 14)),
        ("void f(void) { x = f(1) + 2; }", at(1, 25)),
        ("void f(void) { x = (f(1)); }", at(1, 22)),
        ("void f(void) { *p++; }", at(1, 18)),
        ("void f(void) { x = *p[0]; }", at(1, 22)),
        ("void f(void) { x = (y).f; }", at(1, 23)),
        ("void f(void) { for (int i; ;) ; }", at(1, 26)),
        ("void f(void) { if (c) int y; }", at(1, 23)),
        ("typedef int t; void f(void) { x = t; }", at(1, 35)),
        ("void f(void) { goto x; }", at(1, 16)),
        ("struct S { };", at(1, 12)),
        ("x = 1;", at(1, 1)),
    ];
    for (source, place) in cases {
        match read(alloc, source) {
            Ok(_) => assert!(rt; false, "{source}"),
            Err(fault) => assert_eq!(rt; fault, ParseFault::Syntax(place), "{source}"),
        }
    }
    Ok(())
}

/// A source in which a piece stands so many times, and as often what closes it.
fn nested(
    alloc: Global,
    before: &str,
    count: usize,
    [open, close]: [&str; 2],
    inside: &str,
) -> Result<String, Fail> {
    let mut source = String::new(alloc);
    source.push_str(before)?;
    for _ in 0..count {
        source.push_str(open)?;
    }
    source.push_str(inside)?;
    for _ in 0..count {
        source.push_str(close)?;
    }
    Ok(source)
}

#[test]
fn how_much_may_be_open(rt: HostRuntime) -> Result<(), Fail> {
    let alloc = rt.alloc();
    for [open, close] in [["(", ")"], ["- ", ""], ["(int)", ""], ["1 ? ", ": 1"]] {
        for (count, deep) in [(200usize, false), (201, true)] {
            let mut source = nested(alloc, "int x = ", count, [open, close], "1")?;
            source.push_str(";")?;
            match read(alloc, &source) {
                Ok(_) => assert!(rt; !deep, "{open} {count}"),
                Err(fault) => assert!(rt;
                    deep && matches!(fault, ParseFault::TooDeep(_)),
                    "{open} {count}"
                ),
            }
        }
    }
    Ok(())
}

#[test]
fn where_a_text_that_is_cut_off_is_refused(rt: HostRuntime) -> Result<(), Fail> {
    let alloc = rt.alloc();
    let source = b"void main(void) { while (1) { __ASTREE_wait_for_clock(()); } }".as_slice();
    for length in 1..source.len() {
        // A name or a keyword that is cut off is a name where it stands.
        let place = match length {
            1..=3 => 0,
            11..=13 => 10,
            _ => length,
        };
        let col = u32::try_from(place).unwrap_or(0).saturating_add(1);
        match read_bytes(alloc, &source[..length]) {
            Ok(_) => assert!(rt; false, "{length}"),
            Err(fault) => assert_eq!(rt; fault, ParseFault::Syntax(at(1, col)), "{length}"),
        }
    }
    Ok(())
}

/// Sources in which nothing closes a piece that stands so many times, and how each is refused.
fn are_refused(
    rt: &impl Abort,
    alloc: Global,
    cases: &[(&str, usize, &str, &str, ParseFault)],
) -> Result<(), Fail> {
    for (before, count, piece, after, expected) in cases {
        let source = nested(alloc, before, *count, [piece, ""], after)?;
        match read(alloc, &source) {
            Ok(_) => assert!(rt; false, "{source}"),
            Err(fault) => assert_eq!(rt; fault, *expected, "{source}"),
        }
    }
    Ok(())
}

#[test]
fn which_comes_first_of_an_error_and_the_limit(rt: HostRuntime) -> Result<(), Fail> {
    let cases = [
        ("int x = ", 200, "(", "", ParseFault::Syntax(at(1, 209))),
        ("int x = ", 201, "(", "+", ParseFault::TooDeep(at(1, 209))),
        (
            "void f(void) { ",
            199,
            "if (1) ",
            "if ; }",
            ParseFault::Syntax(at(1, 1412)),
        ),
        (
            "void f(void) { ",
            200,
            "do ",
            "}",
            ParseFault::Syntax(at(1, 616)),
        ),
    ];
    are_refused(&rt, rt.alloc(), &cases)
}

#[test]
fn at_which_token_the_limit_is_told(rt: HostRuntime) -> Result<(), Fail> {
    let cases = [
        ("int x = ", 201, "(", "1", ParseFault::TooDeep(at(1, 209))),
        ("int x = ", 201, "- ", "1", ParseFault::TooDeep(at(1, 409))),
        // Its bracket counts beside the casts before it.
        (
            "int x = ",
            201,
            "(int)",
            "1",
            ParseFault::TooDeep(at(1, 1009)),
        ),
        (
            "int x = ",
            201,
            "1 ? ",
            "1",
            ParseFault::TooDeep(at(1, 811)),
        ),
        // Each block is a bracket, and all but the first are a statement in a statement.
        (
            "void f(void) { ",
            101,
            "{ ",
            "",
            ParseFault::TooDeep(at(1, 216)),
        ),
        (
            "void f(void) { ",
            200,
            "if (1) ",
            "",
            ParseFault::TooDeep(at(1, 1412)),
        ),
        (
            "void f(void) { ",
            200,
            "do ",
            ";",
            ParseFault::TooDeep(at(1, 616)),
        ),
        (
            "void f(void) { ",
            199,
            "if (1) ",
            "__ASTREE_assert((",
            ParseFault::TooDeep(at(1, 1424)),
        ),
        (
            "void f(void) { ",
            198,
            "if (1) ",
            "__ASTREE_assert((",
            ParseFault::TooDeep(at(1, 1418)),
        ),
        (
            "void f(void) { ",
            199,
            "if (1) ",
            "__ASTREE_assert;",
            ParseFault::Syntax(at(1, 1424)),
        ),
        (
            "void f(void) { ",
            198,
            "if (1) ",
            "__ASTREE_assert(1",
            ParseFault::Syntax(at(1, 1418)),
        ),
    ];
    are_refused(&rt, rt.alloc(), &cases)
}

#[test]
fn else_belongs_to_the_nearest_if(rt: HostRuntime) -> Result<(), Fail> {
    let alloc = rt.alloc();
    let unit = read(alloc, "void f(void) { if (a) if (b) ; else ; }");
    match unit {
        Ok(unit) => match unit.items.as_slice() {
            [Item::Func(_, _, _, block)] => assert!(rt; is_if(block), "the outer has no else"),
            _ => assert!(rt; false, "a function"),
        },
        Err(fault) => assert!(rt; false, "{fault:?}"),
    }
    Ok(())
}

fn is_if(block: &sa_syntax::Block) -> bool {
    matches!(
        block.items.as_slice(),
        [sa_syntax::BlockItem::Stmt(sa_syntax::Stmt::If(..))]
    )
}
