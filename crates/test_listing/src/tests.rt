//! Reports as text: each form of line, a loop that isn't reached, alarms, and reports of thousands of lines.

use sa_base::{Alarm, Kind, Num, Pos, Text};
use sa_flat::{Found, LoopFacts};
use sa_interval::Interval;
use sa_ir::{Cell, Ir, LoopInfo};
use sa_listing::{Line, LoopReport, OutOfMemory, Report, report, write_text};
use sa_typed::Program;
use sqlite_items::Items;
use std::alloc::Global;
use std::test::Fail;

/// A report of one loop with one line.
fn of_line(alloc: Global, line: Line) -> Result<Report, OutOfMemory> {
    let mut lines = Items::new(alloc);
    lines.push(line)?;
    of_loop(alloc, "3:3", 5, lines)
}

/// A report of one loop.
fn of_loop(
    alloc: Global,
    name: &str,
    passes: u32,
    lines: Items<Line>,
) -> Result<Report, OutOfMemory> {
    let name = Text::of(alloc, name)?;
    let mut loops = Items::new(alloc);
    loops.push(LoopReport {
        name,
        passes,
        lines,
    })?;
    Ok(Report {
        loops,
        alarms: Items::new(alloc),
    })
}

/// Whether a report of one loop with this line is written so.
fn is_written(alloc: Global, line: Line, want: &str) -> Result<bool, OutOfMemory> {
    let report = of_line(alloc, line)?;
    let text = write_text(alloc, &report)?;
    Ok(text.as_slice() == want.as_bytes())
}

#[test]
fn lines(rt: HostRuntime) -> Result<(), Fail> {
    let alloc = rt.alloc();
    assert!(rt;
        is_written(
            alloc,
            Line::Clock(0, 10),
            "loop 3:3 passes 5\n  clock in [0, 10]\nalarms 0\n"
        )?
    );
    assert!(rt;
        is_written(
            alloc,
            Line::Span(Text::of(alloc, "b[*]")?, -128, 127),
            "loop 3:3 passes 5\n  b[*] in [-128, 127]\nalarms 0\n"
        )?
    );
    assert!(rt;
        is_written(
            alloc,
            Line::Minus(Text::of(alloc, "x")?, -1, 0),
            "loop 3:3 passes 5\n  x - clock in [-1, 0]\nalarms 0\n"
        )?
    );
    assert!(rt;
        is_written(
            alloc,
            Line::Plus(Text::of(alloc, "x")?, 0, 20),
            "loop 3:3 passes 5\n  x + clock in [0, 20]\nalarms 0\n"
        )?
    );
    Ok(())
}

/// A line of two cells.
fn pair(alloc: Global, plus: bool, other_plus: bool, k: i128) -> Result<Line, OutOfMemory> {
    let cell = Text::of(alloc, "c")?;
    let other = Text::of(alloc, "d")?;
    Ok(Line::Pair(plus, cell, other_plus, other, k))
}

#[test]
fn lines_of_two_cells(rt: HostRuntime) -> Result<(), Fail> {
    let alloc = rt.alloc();
    for (plus, other_plus, k, want) in [
        (
            true,
            false,
            3,
            "loop 3:3 passes 5\n  c - d <= 3\nalarms 0\n",
        ),
        (
            false,
            true,
            -3,
            "loop 3:3 passes 5\n  -c + d <= -3\nalarms 0\n",
        ),
        (true, true, 0, "loop 3:3 passes 5\n  c + d <= 0\nalarms 0\n"),
        (
            false,
            false,
            7,
            "loop 3:3 passes 5\n  -c - d <= 7\nalarms 0\n",
        ),
    ] {
        let line = pair(alloc, plus, other_plus, k)?;
        assert!(rt; is_written(alloc, line, want)?, "{plus} {other_plus} {k}");
    }
    Ok(())
}

/// Whether a report of an alarm and no loop is written so.
fn is_alarm(alloc: Global, alarm: Alarm, want: &str) -> Result<bool, OutOfMemory> {
    let mut alarms = Items::new(alloc);
    alarms.push(alarm)?;
    let report = Report {
        alarms,
        loops: Items::new(alloc),
    };
    let text = write_text(alloc, &report)?;
    Ok(text.as_slice() == want.as_bytes())
}

#[test]
fn alarms(rt: HostRuntime) -> Result<(), Fail> {
    for (line, col, kind, want) in [
        (4, 11, Kind::Overflow, "alarm 4:11 overflow\nalarms 1\n"),
        (1, 2, Kind::Division, "alarm 1:2 division\nalarms 1\n"),
        (2, 1, Kind::Shift, "alarm 2:1 shift\nalarms 1\n"),
        (70000, 3, Kind::Index, "alarm 70000:3 index\nalarms 1\n"),
        (
            3,
            70000,
            Kind::Conversion,
            "alarm 3:70000 conversion\nalarms 1\n",
        ),
        (9, 9, Kind::Assert, "alarm 9:9 assert\nalarms 1\n"),
    ] {
        let pos = Pos { line, col };
        assert!(rt; is_alarm(rt.alloc(), Alarm { pos, kind }, want)?, "{want}");
    }
    Ok(())
}

/// The length of the text of a loop with so many lines.
fn length_of(alloc: Global, count: u32) -> Result<usize, OutOfMemory> {
    let mut lines = Items::new(alloc);
    for _ in 0..count {
        lines.push(Line::Clock(0, 1))?;
    }
    let report = of_loop(alloc, "f@1:2/3:4", 32, lines)?;
    let text = write_text(alloc, &report)?;
    Ok(text.len())
}

#[test]
fn loops_without_lines_and_with_thousands(rt: HostRuntime) -> Result<(), Fail> {
    let alloc = rt.alloc();
    let none = of_loop(alloc, "f@1:2/3:4", 0, Items::new(alloc))?;
    let text = write_text(alloc, &none)?;
    assert!(rt; text.as_slice() == "loop f@1:2/3:4 not reached\nalarms 0\n".as_bytes());
    // a header of 25 bytes, 18 bytes a line, and the count of alarms in 9
    assert_eq!(rt; length_of(alloc, 65_536)?, 25 + 18 * 65_536 + 9);
    Ok(())
}

/// So many cells, the first ones named by letters.
fn cells(alloc: Global, count: usize) -> Result<Items<Cell>, OutOfMemory> {
    let mut cells = Items::new(alloc);
    for k in 0..count {
        let name = if k == 0 {
            "a"
        } else if k == 1 {
            "b"
        } else {
            "c"
        };
        cells.push(cell(Text::of(alloc, name)?))?;
    }
    Ok(cells)
}

fn cell(name: Text) -> Cell {
    Cell {
        name,
        num: Num::I32,
        starred: false,
        hidden: false,
    }
}

/// A loop that shows these cells.
fn info(alloc: Global, name: &str, shown: &[u32]) -> Result<LoopInfo, OutOfMemory> {
    let shown = Items::from_vec(Vec::from_slice(alloc, shown)?);
    let name = Text::of(alloc, name)?;
    Ok(LoopInfo { name, shown })
}

/// One loop that shows these cells, and one that shows none.
fn infos(alloc: Global, shown: &[u32]) -> Result<Items<LoopInfo>, OutOfMemory> {
    let mut infos = Items::new(alloc);
    infos.push(info(alloc, "3:3", shown)?)?;
    infos.push(info(alloc, "f@9:1/5:5", &[])?)?;
    Ok(infos)
}

/// A lowered program of these cells and loops, and nothing else.
fn lowered(alloc: Global, cells: Items<Cell>, loops: Items<LoopInfo>) -> Ir {
    Ir {
        cells,
        loops,
        initial: Items::new(alloc),
        body: Items::new(alloc),
        program: Program {
            structs: Items::new(alloc),
            vars: Items::new(alloc),
            inputs: Items::new(alloc),
            funcs: Items::new(alloc),
            entry: 0,
            thresholds: Items::new(alloc),
        },
    }
}

/// The first loop with these numbers of its cells, the second one not reached.
fn found(alloc: Global, spans: &[Interval]) -> Result<Found, OutOfMemory> {
    let cells = Items::from_vec(Vec::from_slice(alloc, spans)?);
    let mut loops = Items::new(alloc);
    loops.push(Some(facts(cells)))?;
    loops.push(None)?;
    Ok(Found {
        loops,
        alarms: Items::new(alloc),
    })
}

fn facts(cells: Items<Interval>) -> LoopFacts {
    LoopFacts {
        index: 0,
        passes: 5,
        clock: Interval::new(0, 10),
        cells,
    }
}

/// The text of the report of a program with so many cells.
fn text_of(
    alloc: Global,
    count: usize,
    shown: &[u32],
    spans: &[Interval],
) -> Result<Vec<u8>, OutOfMemory> {
    let ir = lowered(alloc, cells(alloc, count)?, infos(alloc, shown)?);
    let found = found(alloc, spans)?;
    let report = report(alloc, &ir, &found)?;
    write_text(alloc, &report)
}

#[test]
fn shown_cells(rt: HostRuntime) -> Result<(), Fail> {
    let spans = [Interval::new(-1, 7), Interval::single(3)];
    let text = text_of(rt.alloc(), 3, &[0, 2], &spans)?;
    let want =
        "loop 3:3 passes 5\n  clock in [0, 10]\n  a in [-1, 7]\n  c in [3, 3]\nloop f@9:1/5:5 not reached\nalarms 0\n";
    assert!(rt; text.as_slice() == want.as_bytes());
    Ok(())
}

#[test]
fn as_many_cells_as_there_may_be(rt: HostRuntime) -> Result<(), Fail> {
    let alloc = rt.alloc();
    let mut shown = Vec::new(alloc);
    let mut spans = Vec::new(alloc);
    for k in 0..65_536u32 {
        shown.push(k)?;
        spans.push(Interval::single(3))?;
    }
    let text = text_of(alloc, 65_536, &shown, &spans)?;
    // 14 bytes a cell beside what stands around them
    assert_eq!(rt; text.len(), 18 + 19 + 14 * 65_536 + 27 + 9);
    Ok(())
}
