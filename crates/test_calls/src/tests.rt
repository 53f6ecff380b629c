//! Tables of cases, worked by hand.

use sa_base::{Limit, Num, OutOfMemory, Pos, Text};
use sa_calls::*;
use sa_typed::*;
use sqlite_items::{Boxed, Items};
use std::alloc::Global;
use std::test::Fail;

/// A call of the function with this number, in this column.
fn call(alloc: Global, f: u32, col: u32) -> Stmt {
    Stmt::Call(Pos { line: 1, col }, f, Items::new(alloc), None)
}

fn func(alloc: Global, body: Items<Stmt>) -> Result<Func, OutOfMemory> {
    Ok(Func {
        name: Text::of(alloc, "f")?,
        params: Items::new(alloc),
        result: None,
        body,
    })
}

fn program(alloc: Global, funcs: Items<Func>) -> Program {
    Program {
        structs: Items::new(alloc),
        vars: Items::new(alloc),
        inputs: Items::new(alloc),
        funcs,
        entry: 0,
        thresholds: Items::new(alloc),
    }
}

/// So many waits, and then so many calls of one function.
fn body(alloc: Global, waits: u32, f: u32, times: u32) -> Result<Items<Stmt>, OutOfMemory> {
    let mut body = Items::new(alloc);
    for _ in 0..waits {
        body.push(Stmt::Wait)?;
    }
    for _ in 0..times {
        body.push(call(alloc, f, 1))?;
    }
    Ok(body)
}

/// So many functions with so many waits, each of which calls the next one so many times.
fn tower(alloc: Global, levels: u32, times: u32, waits: u32) -> Result<Program, OutOfMemory> {
    let mut funcs = Items::new(alloc);
    for f in 1..levels {
        let body = body(alloc, waits, f, times)?;
        funcs.push(func(alloc, body)?)?;
    }
    let last = body(alloc, waits, 0, 0)?;
    funcs.push(func(alloc, last)?)?;
    Ok(program(alloc, funcs))
}

#[test]
fn limits_of_the_inlined_program(rt: HostRuntime) -> Result<(), Fail> {
    for (levels, times, waits, limit) in [
        (1, 0, 0, None),
        (65, 1, 0, None),
        (66, 1, 0, Some(Limit::Calls)),
        // twice as many statements at each level, and two more
        (17, 2, 0, None),
        (18, 2, 0, Some(Limit::Statements)),
        (21, 2, 0, Some(Limit::Statements)),
        (65, 2, 0, Some(Limit::Statements)),
        (66, 2, 0, Some(Limit::Calls)),
        (65, 1_000, 0, Some(Limit::Statements)),
        (1, 0, 200_000, None),
        (1, 0, 200_001, Some(Limit::Statements)),
        (2, 1, 99_999, None),
        (2, 1, 100_000, Some(Limit::Statements)),
        (2, 199, 999, None),
        (2, 199, 1_000, Some(Limit::Statements)),
    ] {
        let tower = tower(rt.alloc(), levels, times, waits)?;
        assert_eq!(rt; first_over(rt.alloc(), &tower)?, limit);
    }
    Ok(())
}

/// The calls of a function among all calls, each in the column after the one before it.
fn calls_among(alloc: Global, f: u32, calls: &[(u32, u32)]) -> Result<Items<Stmt>, OutOfMemory> {
    let mut body = Items::new(alloc);
    let mut col: u32 = 0;
    for (from, to) in calls {
        col = col.saturating_add(1);
        if *from == f {
            body.push(call(alloc, *to, col))?;
        }
    }
    Ok(body)
}

fn with_calls(alloc: Global, count: u32, calls: &[(u32, u32)]) -> Result<Program, OutOfMemory> {
    let mut funcs = Items::new(alloc);
    for f in 0..count {
        let body = calls_among(alloc, f, calls)?;
        funcs.push(func(alloc, body)?)?;
    }
    Ok(program(alloc, funcs))
}

fn column(pos: Option<Pos>) -> u32 {
    match pos {
        None => 0,
        Some(pos) => pos.col,
    }
}

/// The column of the first call that leads back, 0 where there is none.
fn back(alloc: Global, count: u32, calls: &[(u32, u32)]) -> Result<u32, OutOfMemory> {
    let program = with_calls(alloc, count, calls)?;
    Ok(column(first_back(alloc, &program)?))
}

#[test]
fn calls_that_lead_back(rt: HostRuntime) -> Result<(), Fail> {
    let alloc = rt.alloc();
    assert_eq!(rt; back(alloc, 1, &[])?, 0);
    assert_eq!(rt; back(alloc, 1, &[(0, 0)])?, 1);
    assert_eq!(rt; back(alloc, 2, &[(0, 1), (1, 0)])?, 1);
    // main calls what calls one another
    assert_eq!(rt; back(alloc, 3, &[(0, 1), (1, 2), (2, 1)])?, 2);
    // twice on different ways, and none leads back
    assert_eq!(rt;
        back(alloc, 4, &[(0, 1), (0, 2), (1, 3), (2, 3), (0, 3)])?,
        0
    );
    // between two rings
    assert_eq!(rt;
        back(alloc, 4, &[(0, 1), (1, 2), (2, 3), (3, 3), (2, 2)])?,
        4
    );
    // nothing calls the functions that call one another
    assert_eq!(rt; back(alloc, 4, &[(0, 1), (2, 3), (3, 2)])?, 2);
    // the text's order isn't that of the numbers
    assert_eq!(rt; back(alloc, 2, &[(1, 1), (0, 0)])?, 1);
    // a call of no function leads nowhere
    assert_eq!(rt; back(alloc, 2, &[(0, 7), (1, 0)])?, 0);
    Ok(())
}

/// A call in each branch of an `if`, in a loop and in a group.
fn forms(alloc: Global) -> Result<Items<Stmt>, OutOfMemory> {
    let mut body = Items::new(alloc);
    let yes = Boxed::new(alloc, call(alloc, 1, 1))?;
    let no = Boxed::new(alloc, call(alloc, 1, 2))?;
    body.push(Stmt::If(Expr::Number(1, Num::I32), yes, no, false))?;
    let turn = Boxed::new(alloc, call(alloc, 1, 3))?;
    body.push(Stmt::Loop(Pos { line: 2, col: 1 }, LoopKind::While, None, turn, None))?;
    let mut groups = Items::new(alloc);
    groups.push(Group {
        labels: Items::new(alloc),
        body: Boxed::new(alloc, call(alloc, 1, 4))?,
    })?;
    body.push(Stmt::Switch(Expr::Number(1, Num::I32), Num::I32, groups, false))?;
    Ok(body)
}

/// Main with these forms, and a function with so many waits.
fn with_forms(alloc: Global, waits: u32) -> Result<Program, OutOfMemory> {
    let mut funcs = Items::new(alloc);
    let main = forms(alloc)?;
    funcs.push(func(alloc, main)?)?;
    let called = body(alloc, waits, 0, 0)?;
    funcs.push(func(alloc, called)?)?;
    Ok(program(alloc, funcs))
}

#[test]
fn calls_in_forms(rt: HostRuntime) -> Result<(), Fail> {
    let alloc = rt.alloc();
    // seven statements beside four times the waits
    for (waits, limit) in [(49_998, None), (49_999, Some(Limit::Statements))] {
        let program = with_forms(alloc, waits)?;
        assert_eq!(rt; first_over(alloc, &program)?, limit);
        assert_eq!(rt; column(first_back(alloc, &program)?), 0);
    }
    Ok(())
}

/// So many functions of which each calls the next one, and the last one itself.
fn chain(alloc: Global, count: u32) -> Result<Program, OutOfMemory> {
    let mut funcs = Items::new(alloc);
    for f in 1..count {
        let mut body = Items::new(alloc);
        body.push(call(alloc, f, f))?;
        funcs.push(func(alloc, body)?)?;
    }
    let mut last = Items::new(alloc);
    last.push(call(alloc, count.saturating_sub(1), count))?;
    funcs.push(func(alloc, last)?)?;
    Ok(program(alloc, funcs))
}

#[test]
fn a_long_way_to_a_ring(rt: HostRuntime) -> Result<(), Fail> {
    let alloc = rt.alloc();
    let program = chain(alloc, 2_000)?;
    assert_eq!(rt; column(first_back(alloc, &program)?), 2_000);
    assert_eq!(rt; first_over(alloc, &program)?, Some(Limit::Calls));
    Ok(())
}

/// A main that calls so many functions, of which each but the last calls the last one.
fn fan(alloc: Global, count: u32) -> Result<Program, OutOfMemory> {
    let mut funcs = Items::new(alloc);
    let mut main = Items::new(alloc);
    for f in 1..count {
        main.push(call(alloc, f, f))?;
    }
    funcs.push(func(alloc, main)?)?;
    for f in 2..count {
        let mut body = Items::new(alloc);
        body.push(call(alloc, count.saturating_sub(1), f))?;
        funcs.push(func(alloc, body)?)?;
    }
    funcs.push(func(alloc, Items::new(alloc))?)?;
    Ok(program(alloc, funcs))
}

#[test]
fn many_functions(rt: HostRuntime) -> Result<(), Fail> {
    let alloc = rt.alloc();
    let program = fan(alloc, 5_000)?;
    assert_eq!(rt; column(first_back(alloc, &program)?), 0);
    assert_eq!(rt; first_over(alloc, &program)?, None);
    Ok(())
}
