ghost use Rattle.std.specs.Prelude.{IfOk};
ghost use Rattle.round_eval.specs.Later.{IsLater};

use crate::engine::Engine;
use crate::going::go_on;
use crate::hints::Runner;
use crate::moving::{put_all, take_all};
use crate::side_by_side::{any_ran, run_all};
use det_core::meet;
use space_step::{Advance, Next};
use space_tree::{Path, Space};
use std::alloc::AllocError;
use std::thread::Threads;

// For how many events a space that did not come through its last quantum goes on in its place before it is moved to a thread.
const TRIAL: u32 = 2048;

// A space goes on in its place for the first events of its quantum. Where it comes through them, the rest is a turn.
#[tactic(auto, using(crate::proofs::Later::nothing_new, crate::proofs::Later::went))]
fn try_out(
    engine: &mut Engine,
    space: &mut Space,
    runner: Runner,
    turns: &mut Vec<Path>,
) -> Result<bool, AllocError>
    ensures { IfOk result (λ some. IsLater some space.old space.new) }
{
    let first = engine.pace.quantum.min(TRIAL);
    let Some(Advance { ran, next }) = go_on(space, &runner.path, first, &mut engine.cache)? else {
        return Ok(false);
    };
    let next = next.ok_or(AllocError)?;
    if next == Next::Local {
        turns.push(runner.path)?;
    } else {
        engine.hints.note(runner.path, next)?;
    }
    Ok(ran > 0)
}

// A space that came through its last quantum has a turn at once; another is tried out.
#[tactic(auto, using(crate::proofs::Later::nothing))]
fn begin(
    engine: &mut Engine,
    space: &mut Space,
    runner: Runner,
    turns: &mut Vec<Path>,
) -> Result<bool, AllocError>
    ensures { IfOk result (λ some. IsLater some space.old space.new) }
{
    if !runner.came_through {
        return try_out(engine, space, runner, turns);
    }
    turns.push(runner.path)?;
    Ok(false)
}

// As `begin`, of each space that may run.
#[tactic(auto, using(crate::proofs::Later::nothing))]
fn begin_all(
    engine: &mut Engine,
    space: &mut Space,
    turns: &mut Vec<Path>,
) -> Result<bool, AllocError>
    ensures { IfOk result (λ some. IsLater some space.old space.new) }
{
    let mut some = false;
    for runner in engine.hints.take_running() {
        let went = begin(engine, space, runner, turns)?;
        some = some || went;
    }
    Ok(some)
}

// Turns side by side, out of the tree.
#[tactic(auto, using(crate::proofs::Jobs::all_back, crate::proofs::Later::went))]
fn go_together(
    rt: &(impl Threads + Sync),
    engine: &mut Engine,
    space: &mut Space,
    turns: Vec<Path>,
) -> Result<bool, AllocError>
    ensures { IfOk result (λ some. IsLater some space.old space.new) }
{
    let most = engine.most_events(turns.len());
    let jobs = take_all(engine.alloc, space, turns, most)?;
    let dones = run_all(rt, engine, jobs)?;
    let some = any_ran(&dones);
    put_all(space, dones, &mut engine.hints)?;
    Ok(some)
}

// The call at a path meets its children, where its time has come.
fn meet_one(engine: &mut Engine, space: &mut Space, path: Path) -> Result<bool, AllocError>
    ensures { IfOk result (λ some. IsLater some space.old space.new) }
{
    match meet(engine.alloc, space, &path)? {
        Some(call) => {
            engine.hints.met(path, call)?;
            Ok(true)
        }
        None => Ok(false),
    }
}

// As `meet_one`, of each call whose time may have come, in the order of paths.
#[tactic(auto, using(crate::proofs::Later::nothing))]
fn meet_all(engine: &mut Engine, space: &mut Space) -> Result<bool, AllocError>
    ensures { IfOk result (λ some. IsLater some space.old space.new) }
{
    let mut some = false;
    for path in engine.hints.take_calls() {
        let went = meet_one(engine, space, path)?;
        some = some || went;
    }
    Ok(some)
}

// Each space that has local events goes on for the quantum, or several where nobody waits.
fn go_all(
    rt: &(impl Threads + Sync),
    engine: &mut Engine,
    space: &mut Space,
) -> Result<bool, AllocError>
    ensures { IfOk result (λ some. IsLater some space.old space.new) }
{
    let mut turns = Vec::new(engine.alloc);
    let began = begin_all(engine, space, &mut turns)?;
    if engine.tries_calls(began) {
        engine.hints.keep(turns)?;
        return Ok(began);
    }
    let went = go_together(rt, engine, space, turns)?;
    Ok(began || went)
}

/// One round: each space that has local events goes on for the quantum, or several where nobody waits, and then each call meets its children
/// whose time has come, in the order of paths. It answers whether there was an event, and puts into the hints where to look next. The one error is
/// want of memory.
pub(crate) fn round(
    rt: &(impl Threads + Sync),
    engine: &mut Engine,
    space: &mut Space,
) -> Result<bool, AllocError>
    ensures { IfOk result (λ some. IsLater some space.old space.new) }
{
    let went = go_all(rt, engine, space)?;
    engine.hints.end_turns();
    let met = meet_all(engine, space)?;
    Ok(went || met)
}
