//! The analysis of a program: the walk over its statements, one code for both modes, and the passes of its clock loop. The
//! environment changes in place.

ghost use Rattle.std.specs.Prelude.{◌≡◌, ◌≤◌, IfOk, OnOk, Some, length};
ghost use Rattle.std.specs.List.{All};
ghost use Rattle.sa_interval.specs.Widening.{thresholds_of};
ghost use Rattle.sa_typed.specs.Cells.{cells};
ghost use Rattle.sa_typed.specs.WellTyped.{IsTyped, IsTypedStmt};
ghost use Rattle.sa_reference.specs.Environments.{top_of, whole_clock};
ghost use Rattle.sa_reference.specs.Fair.{alive_env};
ghost use Rattle.sa_reference.specs.Intervals.{intervals};
ghost use Rattle.sa_reference.specs.Passes.{joined, next};
ghost use Rattle.sa_reference.specs.Reference.{reference};
ghost use Rattle.sa_reference.specs.Sound.{widest};
ghost use Rattle.sa_reference.specs.Steps.{nothing, both};
ghost use Rattle.sa_cells.specs.Grounds.{IsGround};
ghost use Rattle.sa_iterate.specs.Analysis.{found_by, main_body};
ghost use Rattle.sa_iterate.specs.Straight.{domain, IsFairIn, stmt_after, stmt_found, straight, straight_found, kept, facts_from, clock_found};

use crate::OutOfMemory;
use sa_base::{Alarm, Pos};
use sa_cells::{Ground, copy, initial, le, merge, tick, top, widen};
use sa_interval::Thresholds;
use sa_reference::Flat;
use sa_transfer::simple;
use sa_typed::{Program, Stmt};
use std::alloc::Global;

/// The last clock.
const LAST_CLOCK: u64 = 3_600_000;

/// A loop that the checking walk reached: the place of its word, the pass that found it stable, and the stable state.
#[derive(Debug, Drop)]
pub struct LoopFacts {
    pub place: Pos,
    pub passes: u32,
    pub state: Flat,
}

/// What the analysis finds: the loops that it reached, and the alarms, in the order in which they were met.
#[derive(Debug, Drop)]
pub struct Analysis {
    pub alarms: Vec<Alarm>,
    pub loops: Vec<LoopFacts>,
}

fn nothing(alloc: Global) -> Analysis
    ensures { found_by result ≡ nothing }
{
    Analysis {
        alarms: Vec::new(alloc),
        loops: Vec::new(alloc),
    }
}

/// The iterate after a pass that isn't stable.
fn next(
    alloc: Global,
    program: &Program,
    ground: &Ground,
    thresholds: &Thresholds,
    pass: u32,
    state: &Flat,
    joined: &Flat,
) -> Result<Flat, OutOfMemory>
    requires ground { IsGround program.now ground.now }
    requires thresholds { thresholds.now ≡ thresholds_of program.now.thresholds }
    requires state { IsFairIn program.now state.now }
    requires joined { IsFairIn program.now joined.now }
    ensures value { IfOk result (λ e. e ≡ next (domain program.now) (top_of program.now (whole_clock (widest program.now).max_clock)) pass state.now joined.now) }
    ensures fair { IfOk result (λ e. IsFairIn program.now e) }
{
    if pass <= 3 {
        merge(alloc, program, state, joined, LAST_CLOCK)
    } else if pass <= 30 {
        widen(
            alloc, program, ground, thresholds, pass, state, joined, LAST_CLOCK,
        )
    } else {
        top(alloc, program, ground, LAST_CLOCK)
    }
}

/// Walks a statement, and answers whether its end is reached alive. In checking mode what is found goes to the end of `found`.
#[cycle(walk)]
fn step(
    alloc: Global,
    program: &Program,
    ground: &Ground,
    stmt: &Stmt,
    env: &mut Flat,
    checking: bool,
    found: &mut Analysis,
) -> Result<bool, OutOfMemory>
    requires ground { IsGround program.now ground.now }
    requires typed { IsTyped program.now }
    requires stmt { IsTypedStmt program.now stmt.now }
    requires fair { IsFairIn program.now env.old }
    ensures env { IfOk result (λ alive. stmt_after program.now stmt.now env.old ≡ alive_env alive env.new) }
    ensures found { OnOk result (found_by found.new ≡ both (found_by found.old) (kept checking (stmt_found program.now stmt.now env.old))) }
    ensures fair { IsFairIn program.now env.new }
{
    match stmt {
        Stmt::Simple(stmt) => simple(
            alloc,
            program,
            ground,
            stmt,
            env,
            checking,
            &mut found.alarms,
        ),
        Stmt::Block(all) => walk(alloc, program, ground, all.as_slice(), env, checking, found),
        Stmt::Wait => Ok(tick(program, env, LAST_CLOCK)),
        // the clock loop, since typing gives no other loop yet
        Stmt::Loop(place, _, _, body, _) => {
            if checking {
                check_loop(alloc, program, ground, *place, body.get(), env, found)?;
            }
            Ok(false)
        }
        // and no other form
        _ => Ok(true),
    }
}

/// Walks statements in order, and answers whether their end is reached alive.
#[cycle(walk)]
fn walk(
    alloc: Global,
    program: &Program,
    ground: &Ground,
    stmts: &[Stmt],
    env: &mut Flat,
    checking: bool,
    found: &mut Analysis,
) -> Result<bool, OutOfMemory>
    requires ground { IsGround program.now ground.now }
    requires typed { IsTyped program.now }
    requires stmts { All (IsTypedStmt program.now) stmts.now }
    requires fair { IsFairIn program.now env.old }
    ensures env { IfOk result (λ alive. straight program.now stmts.now (Some env.old) ≡ alive_env alive env.new) }
    ensures found { OnOk result (found_by found.new ≡ both (found_by found.old) (kept checking (straight_found program.now stmts.now (Some env.old)))) }
    ensures fair { IsFairIn program.now env.new }
{
    for stmt in stmts {
        if !step(alloc, program, ground, stmt, env, checking, found)? {
            return Ok(false);
        }
    }
    Ok(true)
}

/// The merge of the entry with the end of a turn from this state.
#[cycle(walk)]
fn turned(
    alloc: Global,
    program: &Program,
    ground: &Ground,
    body: &Stmt,
    entry: &Flat,
    state: &Flat,
) -> Result<Flat, OutOfMemory>
    requires ground { IsGround program.now ground.now }
    requires typed { IsTyped program.now }
    requires body { IsTypedStmt program.now body.now }
    requires entry { IsFairIn program.now entry.now }
    requires state { IsFairIn program.now state.now }
    ensures value { IfOk result (λ j. j ≡ joined (domain program.now) entry.now (stmt_after program.now body.now state.now)) }
    ensures fair { IfOk result (λ j. IsFairIn program.now j) }
{
    let mut end = copy(alloc, state)?;
    let mut none = nothing(alloc);
    if step(alloc, program, ground, body, &mut end, false, &mut none)? {
        merge(alloc, program, entry, &end, LAST_CLOCK)
    } else {
        copy(alloc, entry)
    }
}

/// Walks the passes of the clock loop from its entry until one is stable, which is the 32nd at the latest.
#[cycle(walk)]
fn clock_facts(
    alloc: Global,
    program: &Program,
    ground: &Ground,
    place: Pos,
    body: &Stmt,
    entry: &Flat,
) -> Result<LoopFacts, OutOfMemory>
    requires ground { IsGround program.now ground.now }
    requires typed { IsTyped program.now }
    requires body { IsTypedStmt program.now body.now }
    requires entry { IsFairIn program.now entry.now }
    ensures value { IfOk result (λ f. facts_from program.now body.now entry.now ≡ record { passes = f.passes; state = Some f.state }) }
    ensures place { IfOk result (λ f. f.place ≡ place) }
    ensures fair { IfOk result (λ f. IsFairIn program.now f.state) }
{
    let thresholds = Thresholds::make(alloc, program.thresholds.as_slice())?;
    let mut state = copy(alloc, entry)?;
    for pass in 1..32u32 {
        let joined = turned(alloc, program, ground, body, entry, &state)?;
        if le(&joined, &state) {
            return Ok(LoopFacts {
                place,
                passes: pass,
                state,
            });
        }
        state = next(alloc, program, ground, &thresholds, pass, &state, &joined)?;
    }
    Ok(LoopFacts {
        place,
        passes: 32,
        state,
    })
}

/// The clock loop in checking mode: its record, and what one more turn from the stable state finds.
#[cycle(walk)]
fn check_loop(
    alloc: Global,
    program: &Program,
    ground: &Ground,
    place: Pos,
    body: &Stmt,
    entry: &Flat,
    found: &mut Analysis,
) -> Result<(), OutOfMemory>
    requires ground { IsGround program.now ground.now }
    requires typed { IsTyped program.now }
    requires body { IsTypedStmt program.now body.now }
    requires entry { IsFairIn program.now entry.now }
    ensures { OnOk result (found_by found.new ≡ both (found_by found.old) (clock_found program.now place body.now entry.now)) }
{
    let facts = clock_facts(alloc, program, ground, place, body, entry)?;
    let mut env = copy(alloc, &facts.state)?;
    found.loops.push(facts)?;
    step(alloc, program, ground, body, &mut env, true, found)?;
    Ok(())
}

/// The statements of main.
fn main_body(program: &Program) -> &[Stmt]
    ensures { result.now ≡ main_body program.now }
{
    match program.funcs.get(program.entry as usize) {
        None => &[],
        Some(main) => main.body.as_slice(),
    }
}

/// The reference analysis of a program.
pub fn analyze(alloc: Global, program: &Program) -> Result<Analysis, OutOfMemory>
    requires typed { IsTyped program.now }
    requires small { length (cells program.now) ≤ 65536 }
    ensures { IfOk result (λ a. found_by a ≡ reference (intervals program.now (widest program.now)) program.now) }
{
    let ground = Ground::of(alloc, program)?;
    let mut env = initial(alloc, program, &ground, LAST_CLOCK)?;
    let mut found = nothing(alloc);
    walk(
        alloc,
        program,
        &ground,
        main_body(program),
        &mut env,
        true,
        &mut found,
    )?;
    Ok(found)
}
