//! What sources are typed as: each refusal at its place, and the limits of what is accepted.

use sa_base::{Code, Limit, Pos, Refusal};
use sa_parser::parse;
use sa_tokens::{end_of, tokens};
use sa_typed::Program;
use sa_typer::{TypeFault, type_unit};
use sa_unbuilt::first_unbuilt;
use std::alloc::{AllocError, Global};
use std::test::Fail;

/// What becomes of a source.
#[derive(Clone, Copy, Debug, PartialEq, Eq)]
enum Outcome {
    Typed,
    /// By the rule with that number, at a line and column.
    Refused(u8, u32, u32),
    TooManyCells,
    /// It has no tree, or a form that isn't analysed yet.
    NotTyped,
    NoMemory,
}

use Outcome::{NoMemory, NotTyped, Refused, TooManyCells, Typed};

fn by_fault(fault: TypeFault) -> Outcome {
    match fault {
        TypeFault::Refused(
            Refusal {
                code: Code::Typing(rule),
                pos: Pos { line, col },
            },
        ) => Refused(rule, line, col),
        TypeFault::Refused(_) => NotTyped,
        TypeFault::TooMany(Limit::Cells) => TooManyCells,
        TypeFault::TooMany(_) => NotTyped,
        TypeFault::OutOfMemory => NoMemory,
    }
}

fn program_of(alloc: Global, source: &[u8]) -> Result<Program, Outcome> {
    if source.len() > 4_194_304 {
        return Err(NotTyped);
    }
    let read = match tokens(alloc, source) {
        Ok(read) => read,
        Err(_) => return Err(NotTyped),
    };
    let end = end_of(source);
    let unit = match parse(alloc, &read, end) {
        Ok(unit) => unit,
        Err(_) => return Err(NotTyped),
    };
    if first_unbuilt(&unit).is_some() {
        return Err(NotTyped);
    }
    match type_unit(alloc, &unit, end) {
        Ok(program) => Ok(program),
        Err(fault) => Err(by_fault(fault)),
    }
}

fn outcome_of(alloc: Global, source: &[u8]) -> Outcome {
    match program_of(alloc, source) {
        Ok(_) => Typed,
        Err(other) => other,
    }
}

/// The pieces in a row, each as often as it says.
fn row(alloc: Global, pieces: &[(&str, usize)]) -> Result<Vec<u8>, AllocError> {
    let mut source = Vec::new(alloc);
    for (piece, count) in pieces {
        for _ in 0..*count {
            source.extend_from_slice(piece.as_bytes())?;
        }
    }
    Ok(source)
}

/// A main that does nothing but wait, behind the text.
const MAIN: &str = " void main(void) { while (1) { __ASTREE_wait_for_clock(()); } }";

/// What the texts inside of main name.
const NAMES: &str =
    "int x; int a[4]; int m[2][2]; const int c = 1; volatile int u; const int k[2] = {1, 2}; struct S { int f; const int g; int h[2]; } s, t, b[2]; const struct S e = {1, 2, {3, 4}}; struct T { int f; } w; ";

const WAITS: &str = "while (1) { __ASTREE_wait_for_clock(()); }";

#[test]
fn what_is_declared(rt: HostRuntime) -> Result<(), Fail> {
    let alloc = rt.alloc();
    let cases = [
        (
            "int x = 1; const int c = 2; volatile int u; int a[2] = {1, 2};",
            Typed,
        ),
        // names
        ("int x = y;", Refused(1, 1, 9)),
        ("int y = y;", Refused(1, 1, 9)),
        ("int a[2] = { 1, a[0] };", Refused(1, 1, 17)),
        ("int x = *zz;", Refused(18, 1, 9)),
        ("int x; int x;", Refused(2, 1, 12)),
        ("volatile int u; int u;", Refused(2, 1, 21)),
        ("typedef int t; typedef int t;", Refused(2, 1, 28)),
        ("struct S { int a; int a; };", Refused(2, 1, 23)),
        ("struct S { struct S { int a; } x; };", Refused(2, 1, 19)),
        (
            "struct S { int a; }; struct S { int b; };",
            Refused(2, 1, 29),
        ),
        // types
        ("struct S { struct S x; };", Refused(3, 1, 12)),
        ("const struct Nope x;", Refused(3, 1, 1)),
        ("int int x;", Refused(3, 1, 1)),
        ("short char x;", Refused(3, 1, 1)),
        ("void x;", Refused(3, 1, 1)),
        ("struct S { void x; };", Refused(3, 1, 12)),
        ("typedef void t;", Typed),
        ("typedef int t; typedef t v; typedef v w; w x = 3;", Typed),
        (
            "typedef struct S { int a; } t; typedef t v; v x = {4}; struct S y;",
            Typed,
        ),
        ("struct S { int m; } s; int x = s.n;", Refused(18, 1, 32)),
        // structs and arrays where a number is needed
        ("int a[2]; int x = a;", Refused(5, 1, 19)),
        ("int a[2]; int x = -a;", Refused(5, 1, 19)),
        ("int a[2]; int x = 1 + a;", Refused(18, 1, 19)),
        ("int x; int y = x[0];", Refused(18, 1, 16)),
        ("int x; int y = x.m;", Refused(18, 1, 16)),
        ("int x; int y = x->m;", Refused(18, 1, 16)),
        ("int x; int y = *x;", Refused(5, 1, 16)),
        ("struct S { int m; } s; int x = s->m;", Refused(18, 1, 32)),
        ("typedef int t; int x = main;", Refused(1, 1, 24)),
        // dimensions
        ("int y; int a[1 + y];", Refused(18, 1, 14)),
        ("int a[1 + y];", Refused(18, 1, 7)),
        ("int a[1 / 0];", Refused(18, 1, 7)),
        ("int a[0];", Refused(19, 1, 7)),
        ("int a[-1];", Refused(19, 1, 7)),
        ("int a[16777217];", Refused(19, 1, 7)),
        ("struct S { int m; } s; int a[s];", Refused(5, 1, 30)),
        ("int a[2]; int b[a];", Refused(5, 1, 17)),
        ("int a[2]; int b[(a)];", Refused(18, 1, 17)),
        ("int a[2]; int b[a[0]];", Refused(18, 1, 17)),
        ("int a[2]; struct S { int b[a]; };", Refused(5, 1, 28)),
        // initialisers
        ("int x = 2147483648ll;", Refused(20, 1, 9)),
        ("unsigned x = -1;", Refused(20, 1, 14)),
        ("int x = { 1 };", Refused(20, 1, 9)),
        ("int a[1] = { 1, y };", Refused(20, 1, 12)),
        ("int a[1] = { 1, { 2, y } };", Refused(20, 1, 12)),
        (
            "int a[1] = { 1, (struct Nope)3000000000 };",
            Refused(20, 1, 12),
        ),
        ("int a[2][1] = { {1}, {2, y} };", Refused(20, 1, 22)),
        ("int x = { y };", Refused(20, 1, 9)),
        ("struct S { int a; } s = { 1, y };", Refused(20, 1, 25)),
        ("volatile int u = { 1, y };", Refused(20, 1, 18)),
        ("int a[2] = 1;", Refused(20, 1, 12)),
        ("int a[2][2] = { 1, 2 };", Refused(20, 1, 17)),
        ("struct S { int a; } s = 4;", Refused(20, 1, 25)),
        (
            "struct S { int a; } s; struct S t = { s };",
            Refused(5, 1, 39),
        ),
        ("int x; int y = x;", Refused(18, 1, 16)),
        ("int y; volatile int u = y;", Refused(18, 1, 25)),
        ("volatile int u = 1;", Refused(20, 1, 18)),
        (
            "signed char u = (volatile short)(1ll - 2147483648l);",
            Refused(18, 1, 17),
        ),
        // words
        ("volatile struct S { struct N x; } y;", Refused(21, 1, 1)),
        ("volatile struct S { int a; int a; } y;", Refused(21, 1, 1)),
        (
            "struct S { int a; }; volatile struct S y;",
            Refused(21, 1, 22),
        ),
        ("volatile int a[2];", Refused(21, 1, 1)),
        ("typedef volatile int t;", Refused(21, 1, 9)),
        ("int x = (volatile int)1;", Refused(21, 1, 10)),
        ("struct S { volatile int a; };", Refused(21, 1, 12)),
        ("typedef static int t;", Typed),
    ];
    for (text, wanted) in cases {
        let source = row(alloc, [(text, 1), (MAIN, 1)].as_slice())?;
        assert_eq!(rt; outcome_of(alloc, &source), wanted, "{text}");
    }
    Ok(())
}

#[test]
fn what_stands_in_main(rt: HostRuntime) -> Result<(), Fail> {
    let alloc = rt.alloc();
    let cases = [
        (
            "x = 1; a[x] = 2; m[0][1] = x; s.f = 3; ++s.h[0]; x += a[3]; s = t; s = b[1]; b[0] = s; b[1 + 0] = b[0]; s = e;",
            Typed,
        ),
        // names
        ("zz = 1;", Refused(1, 2, 1)),
        ("x = zz;", Refused(1, 2, 5)),
        ("x = x + zz;", Refused(1, 2, 9)),
        ("a[zz] = 1;", Refused(1, 2, 3)),
        ("*zz = 1;", Refused(1, 2, 2)),
        ("S = 1;", Refused(1, 2, 1)),
        ("s.n = 1;", Refused(4, 2, 3)),
        // left sides, whatever follows the name
        ("c = 1;", Refused(6, 2, 1)),
        ("u = 1;", Refused(6, 2, 1)),
        ("u[0] = 1;", Refused(6, 2, 1)),
        ("u.m = 1;", Refused(6, 2, 1)),
        ("c.zz = 1;", Refused(6, 2, 1)),
        ("k[0] = 1;", Refused(6, 2, 1)),
        ("e.f = 1;", Refused(6, 2, 1)),
        ("s.g = 1;", Refused(6, 2, 1)),
        ("c++;", Refused(6, 2, 1)),
        ("c += 1;", Refused(6, 2, 1)),
        // structs and arrays
        ("a = zz;", Refused(5, 2, 3)),
        ("a = 1;", Refused(5, 2, 3)),
        ("a = a;", Refused(5, 2, 3)),
        ("m[0] = 1;", Refused(5, 2, 6)),
        ("s = 1;", Refused(5, 2, 3)),
        ("s = -zz;", Refused(5, 2, 3)),
        ("s = zz;", Refused(1, 2, 5)),
        ("x = s;", Refused(5, 2, 3)),
        ("x = a;", Refused(5, 2, 3)),
        ("a += 1;", Refused(5, 2, 3)),
        ("a++;", Refused(5, 2, 2)),
        ("s += s;", Refused(5, 2, 3)),
        ("a[0][1] = 1;", Refused(5, 2, 5)),
        ("a[s] = 1;", Refused(5, 2, 2)),
        ("x.f = 1;", Refused(5, 2, 2)),
        ("a.f = 1;", Refused(5, 2, 2)),
        ("s->f = 1;", Refused(5, 2, 2)),
        ("*x = 1;", Refused(5, 2, 1)),
        ("x = *main;", Refused(5, 2, 5)),
        ("x = main;", Refused(5, 2, 5)),
        ("x = m[0] + 1;", Refused(5, 2, 10)),
        ("x = (int)s;", Refused(5, 2, 5)),
        ("x = (struct S)x;", Refused(5, 2, 5)),
        ("x = !a;", Refused(5, 2, 5)),
        // structs
        ("s = w;", Refused(7, 2, 3)),
        ("s = b[x];", Refused(7, 2, 3)),
        ("b[x] = s;", Refused(7, 2, 6)),
        ("b[x] = b[x];", Refused(7, 2, 6)),
        ("b[a[0]] = s;", Refused(7, 2, 9)),
        ("e = s;", Refused(6, 2, 1)),
        // locals
        (
            "int y = x; int z[2] = {1, 2}; struct S q = {1}; int v;",
            Typed,
        ),
        ("int x;", Refused(2, 2, 5)),
        ("int y; int y;", Refused(2, 2, 12)),
        ("{ int y; } int y = 2;", Typed),
        ("int y = y;", Refused(1, 2, 9)),
        ("int y = s;", Refused(5, 2, 7)),
        ("int y[2] = 1;", Refused(20, 2, 12)),
        ("int y[1] = { 1, zz };", Refused(20, 2, 12)),
        ("struct S q = s;", Refused(20, 2, 14)),
        ("int y[2] = {x};", Refused(18, 2, 13)),
        ("volatile int y;", Refused(21, 2, 1)),
        ("int y[a];", Refused(5, 2, 7)),
    ];
    for (text, wanted) in cases {
        let source = row(
            alloc,
            [
                (NAMES, 1),
                ("void main(void) {\n", 1),
                (text, 1),
                (WAITS, 1),
                ("}", 1),
            ]
            .as_slice(),
        )?;
        assert_eq!(rt; outcome_of(alloc, &source), wanted, "{text}");
    }
    Ok(())
}

#[test]
fn what_follows_the_clock_loop(rt: HostRuntime) -> Result<(), Fail> {
    let alloc = rt.alloc();
    let cases = [
        ("x = 1;", Refused(23, 2, 1)),
        (";", Refused(23, 2, 1)),
        ("{ x = 1; }", Refused(23, 2, 1)),
        ("int y;", Refused(23, 2, 1)),
        ("int y = zz;", Refused(23, 2, 1)),
        ("__ASTREE_wait_for_clock(());", Refused(23, 2, 1)),
        (
            "while (1) { zz = 1; __ASTREE_wait_for_clock(()); }",
            Refused(23, 2, 1),
        ),
        ("zz = 1;", Refused(1, 2, 1)),
        ("struct Nope y;", Refused(3, 2, 1)),
        ("*x = 1;", Refused(5, 2, 1)),
        ("c = 1;", Refused(6, 2, 1)),
        ("volatile int y;", Refused(21, 2, 1)),
    ];
    for (text, wanted) in cases {
        let source = row(
            alloc,
            [
                (NAMES, 1),
                ("void main(void) {", 1),
                (WAITS, 1),
                ("\n", 1),
                (text, 1),
                ("}", 1),
            ]
            .as_slice(),
        )?;
        assert_eq!(rt; outcome_of(alloc, &source), wanted, "{text}");
    }
    Ok(())
}

#[test]
fn the_end_and_the_cells(rt: HostRuntime) -> Result<(), Fail> {
    let alloc = rt.alloc();
    let cases = [
        ("", Refused(22, 1, 1)),
        ("int x;", Refused(22, 1, 7)),
        ("void main(void) { }", Refused(22, 1, 20)),
        ("void main(void) { { while (1) ; } }", NotTyped),
        (
            "unsigned main(void) { while (1) { __ASTREE_wait_for_clock(()); } }",
            Refused(22, 1, 67),
        ),
        (
            "long main(void) { while (1) { __ASTREE_wait_for_clock(()); } }",
            Typed,
        ),
        (
            "int a[128][128][4]; void main(void) { while (1) { __ASTREE_wait_for_clock(()); } }",
            Typed,
        ),
        (
            "int a[128][128][4]; int main(void) { while (1) { __ASTREE_wait_for_clock(()); } }",
            TooManyCells,
        ),
        (
            "int a[128][128][4]; int x; void main(void) { while (1) { __ASTREE_wait_for_clock(()); } }",
            TooManyCells,
        ),
        (
            "int a[129][128][128][4]; void main(void) { while (1) { __ASTREE_wait_for_clock(()); } }",
            Typed,
        ),
    ];
    for (text, wanted) in cases {
        assert_eq!(rt; outcome_of(alloc, text.as_bytes()), wanted, "{text}");
    }
    Ok(())
}

#[test]
fn how_large_texts_are_typed(rt: HostRuntime) -> Result<(), Fail> {
    let alloc = rt.alloc();
    let cases = [
        // 200,000 dimensions
        (
            [("int a", 1), ("[1]", 200_000), (";", 1), (MAIN, 1)].as_slice(),
            Typed,
        ),
        (
            [
                ("struct S { int a", 1),
                ("[1]", 200_000),
                ("; } x;", 1),
                (MAIN, 1),
            ]
            .as_slice(),
            Typed,
        ),
        (
            [
                ("void main(void) { int a", 1),
                ("[1]", 200_000),
                ("; ", 1),
                (WAITS, 1),
                ("}", 1),
            ]
            .as_slice(),
            Typed,
        ),
        (
            [
                ("int a", 1),
                ("[1]", 100_000),
                ("; void main(void) { a", 1),
                ("[0]", 100_000),
                (" = 1; ", 1),
                (WAITS, 1),
                ("}", 1),
            ]
            .as_slice(),
            Typed,
        ),
        // braces down to the limit of what may be open
        (
            [
                ("int a", 1),
                ("[1]", 200),
                (" = ", 1),
                ("{", 200),
                ("1", 1),
                ("}", 200),
                (";", 1),
                (MAIN, 1),
            ]
            .as_slice(),
            Typed,
        ),
        (
            [
                ("int a", 1),
                ("[2]", 200),
                (" = ", 1),
                ("{", 200),
                ("1", 1),
                ("}", 200),
                (";", 1),
                (MAIN, 1),
            ]
            .as_slice(),
            TooManyCells,
        ),
        // more zeros than a number counts
        (
            [
                ("int a[16777216][16777216][16777216] = {{{1}}};", 1),
                (MAIN, 1),
            ]
            .as_slice(),
            Typed,
        ),
        (
            [
                (
                    "int a[16777216][16777216][16777216] = {{{0}, {0}}, {{0}}};",
                    1,
                ),
                (MAIN, 1),
            ]
            .as_slice(),
            Typed,
        ),
        (
            [
                (
                    "int a[2][16777216][16777216][16777216] = {{{{1}}}, {{{1}}}};",
                    1,
                ),
                (MAIN, 1),
            ]
            .as_slice(),
            NoMemory,
        ),
    ];
    for (pieces, wanted) in cases {
        let source = row(alloc, pieces)?;
        assert_eq!(rt; outcome_of(alloc, &source), wanted);
    }
    Ok(())
}

/// 3,000 structures, each in the next, and as many variables of the outermost one.
#[test]
fn how_nested_structures_are_typed(rt: HostRuntime) -> Result<(), Fail> {
    let alloc = rt.alloc();
    let mut source = row(alloc, [("struct S0 { int a; };", 1)].as_slice())?;
    for number in 1..3000_u32 {
        let inner = number - 1;
        let text = format!(in alloc; "struct S{number} {{ struct S{inner} a; }};")?;
        source.extend_from_slice(text.as_bytes())?;
    }
    for number in 0..3000_u32 {
        let text = format!(in alloc; "struct S2999 v{number};")?;
        source.extend_from_slice(text.as_bytes())?;
    }
    source.extend_from_slice(MAIN.as_bytes())?;
    assert_eq!(rt; outcome_of(alloc, &source), Typed);
    Ok(())
}

/// The initial values of the first variable, without the zeros at the end.
#[test]
fn what_initial_values_are(rt: HostRuntime) -> Result<(), Fail> {
    let alloc = rt.alloc();
    let cases = [
        ("int x;", [].as_slice()),
        ("int x = 7;", [7].as_slice()),
        ("int x = 0;", [].as_slice()),
        ("int a[3] = {0, 5};", [0, 5].as_slice()),
        ("int a[2][3] = {{1}, {2}};", [1, 0, 0, 2].as_slice()),
        (
            "int a[2][3] = {{0, 0, 0}, {0, 4, 0}};",
            [0, 0, 0, 0, 4].as_slice(),
        ),
        (
            "struct S { int a; int b[2]; int c; } s[2] = {{1, {2}}, {3, {4}, 5}};",
            [1, 2, 0, 0, 3, 4, 0, 5].as_slice(),
        ),
        ("signed char x = (signed char)-1;", [-1].as_slice()),
    ];
    for (text, wanted) in cases {
        let source = row(alloc, [(text, 1), (MAIN, 1)].as_slice())?;
        let program = program_of(alloc, &source).ok().ok_or("not typed")?;
        let first = program.vars.get(0).ok_or("no variable")?;
        assert_eq!(rt; first.initial.as_slice(), wanted, "{text}");
    }
    Ok(())
}
