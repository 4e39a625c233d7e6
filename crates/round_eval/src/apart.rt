ghost use Rattle.std.specs.Prelude.{◌≡◌, ◌*◌, ◌≤◌, ◌++◌, ◌||◌, [], length, IfOk, OnOk};
ghost use Rattle.space_model.specs.Space.{Space, top_of};
ghost use Rattle.report_model.specs.Report.{console_of};
ghost use Rattle.run_model.specs.Console.{most_output};
ghost use Rattle.round_eval.specs.Apart.{RootWithin, Shows, ShowsThen};
ghost use Rattle.round_eval.specs.Later.{IsLater};

use crate::beside::{RootDone, begin_root, end_root, run_root};
use crate::engine::Engine;
use crate::hints::Hints;
use crate::round::round;
use arrayvec::ArrayVec;
use det_core::meet;
use space_tree::{Space, Top};
use std::alloc::AllocError;
use std::mem;
use std::thread::Threads;

// The fuel of a top that stands in another's place. It is never run.
const NO_MATTER: u32 = 1;

// For how many events a root goes on in its place before the spaces below it go on beside it.
const TRIAL: u32 = 2048;

// Whether one of the two is so.
fn either(first: bool, second: bool) -> bool
    ensures { result ≡ (first || second) }
{
    first || second
}

// Appends what was written to what is ready.
fn append(output: &mut Vec<u8>, written: Vec<u8>) -> Result<(), AllocError>
    ensures { OnOk result (output.new.items ≡ output.old.items ++ written.items) }
{
    if output.is_empty() {
        *output = written;
        return Ok(());
    }
    output.extend_from_slice(&written)
}

// The root goes on in its place, for so many events at most. It answers whether there was one, and keeps whether there were as many.
#[tactic(auto, using(crate::proofs::RootFirst::root_went, crate::proofs::RootFirst::root_shows))]
fn advance_root(
    engine: &mut Engine,
    space: &mut Space,
    events: u32,
    output: &mut Vec<u8>,
) -> Result<bool, AllocError>
    requires { 1 ≤ events }
    ensures ok { IfOk result (λ some. IsLater some space.old space.new) }
    ensures shows { OnOk result (Shows events output.old.items output.new.items space.old space.new) }
{
    let mut written = Vec::new(engine.alloc);
    let (ran, came_through) = run_root(&mut space.top, events, &mut engine.cache, &mut written)?;
    engine.root_runs = came_through;
    append(output, written)?;
    Ok(ran > 0)
}

// A round, where the hints say, of the spaces below the root, whose top is out of the tree meanwhile: one that has stopped stands in its place.
fn round_below(
    rt: &(impl Threads + Sync),
    engine: &mut Engine,
    space: &mut Space,
) -> Result<bool, AllocError>
    ensures ok { IfOk result (λ some. IsLater some space.old space.new) }
    ensures root { OnOk result (top_of space.new ≡ top_of space.old) }
{
    let place = Top::fresh(engine.alloc, NO_MATTER);
    let root = mem::replace(&mut space.top, place);
    let some = round(rt, engine, space)?;
    space.top = root;
    Ok(some)
}

// As `round_below`, while the root goes on in a thread of its own, for so many events at most.
fn round_beside(
    rt: &(impl Threads + Sync),
    engine: &mut Engine,
    space: &mut Space,
    events: u32,
    output: &mut Vec<u8>,
) -> Result<bool, AllocError>
    requires { 1 ≤ events }
    ensures ok { IfOk result (λ some. IsLater some space.old space.new) }
    ensures shows { OnOk result (Shows events output.old.items output.new.items space.old space.new) }
{
    engine.pace.keep_step();
    let pace = engine.pace.share()?;
    let place = Top::fresh(engine.alloc, NO_MATTER);
    let root = mem::replace(&mut space.top, place);
    let begun = begin_root(rt, engine.alloc, root, events, pace);
    let below = round(rt, engine, space);
    let RootDone {
        top,
        ran,
        came_through,
        output: written,
    } = end_root(rt, begun)?;
    let some = below?;
    space.top = top;
    engine.root_runs = came_through;
    append(output, written)?;
    Ok(either(ran > 0, some))
}

// Behind its first events a root that goes on does so for so many more at most: beside the spaces below it, where some of them run. Where it does not go on, they have a round.
#[tactic(auto, using(crate::proofs::RootFirst::shows_quiet))]
fn go_further(
    rt: &(impl Threads + Sync),
    engine: &mut Engine,
    space: &mut Space,
    events: u32,
    output: &mut Vec<u8>,
) -> Result<bool, AllocError>
    ensures ok { IfOk result (λ some. IsLater some space.old space.new) }
    ensures shows { OnOk result (Shows events output.old.items output.new.items space.old space.new) }
{
    if events == 0 || !engine.root_runs {
        let some = round_below(rt, engine, space)?;
        return Ok(some);
    }
    if engine.hints.some_run() {
        round_beside(rt, engine, space, events, output)
    } else {
        advance_root(engine, space, events, output)
    }
}

// The root goes on for the quantum at most, and the spaces below it have a round.
fn go_all(
    rt: &(impl Threads + Sync),
    engine: &mut Engine,
    space: &mut Space,
    quantum: u32,
    output: &mut Vec<u8>,
) -> Result<bool, AllocError>
    requires { 1 ≤ quantum }
    ensures ok { IfOk result (λ some. IsLater some space.old space.new) }
    ensures shows { OnOk result (Shows quantum output.old.items output.new.items space.old space.new) }
{
    engine.pace.begin();
    let first = quantum.min(TRIAL);
    let went = advance_root(engine, space, first, output)?;
    engine.note_root(went);
    let more = go_further(rt, engine, space, quantum - first, output)?;
    Ok(went || more)
}

// The call of the root meets its children, where its time has come.
fn meet_root(engine: &mut Engine, space: &mut Space) -> Result<bool, AllocError>
    ensures ok { IfOk result (λ some. IsLater some space.old space.new) }
    ensures console { OnOk result (console_of space.new ≡ console_of space.old) }
{
    let root = ArrayVec::new();
    match meet(engine.alloc, space, &root)? {
        Some(call) => {
            engine.hints.met_below(&root, call)?;
            engine.hints.hurry();
            Ok(true)
        }
        None => Ok(false),
    }
}

// A round where the hints say, and then the call of the root meets its children.
fn round_hinted(
    rt: &(impl Threads + Sync),
    engine: &mut Engine,
    space: &mut Space,
    quantum: u32,
    output: &mut Vec<u8>,
) -> Result<bool, AllocError>
    requires { 1 ≤ quantum }
    ensures ok { IfOk result (λ some. IsLater some space.old space.new) }
    ensures shows { OnOk result (ShowsThen quantum output.old.items output.new.items space.old space.new) }
{
    let went = go_all(rt, engine, space, quantum, output)?;
    let met = meet_root(engine, space)?;
    Ok(went || met)
}

// As `round_below`, where a search of the tree says.
fn search_below(
    rt: &(impl Threads + Sync),
    engine: &mut Engine,
    space: &mut Space,
) -> Result<bool, AllocError>
    ensures ok { IfOk result (λ some. IsLater some space.old space.new) }
    ensures console { OnOk result (console_of space.new ≡ console_of space.old) }
{
    engine.hints = Hints::search(engine.alloc, space)?;
    round_below(rt, engine, space)
}

// A round where the hints say, and where it finds nothing, one below the root where a search of the tree says.
#[tactic(auto, using(crate::proofs::Later::then_second, crate::proofs::RootFirst::shows_still))]
fn round_found(
    rt: &(impl Threads + Sync),
    engine: &mut Engine,
    space: &mut Space,
    quantum: u32,
    output: &mut Vec<u8>,
) -> Result<bool, AllocError>
    requires { 1 ≤ quantum }
    ensures ok { IfOk result (λ some. IsLater some space.old space.new) }
    ensures shows { OnOk result (ShowsThen quantum output.old.items output.new.items space.old space.new) }
{
    let hinted = round_hinted(rt, engine, space, quantum, output)?;
    if hinted {
        return Ok(hinted);
    }
    let found = search_below(rt, engine, space)?;
    Ok(found)
}

/// One round in which the root goes on apart: for the quantum at most, first by itself and then beside the spaces below it, which have a round as they do in `rounds`; then its
/// call meets its children, where its time has come. What the root writes to its console is put into the output, which is empty. Where the hints say
/// of no event, all of the tree is looked at. It answers whether there was an event. The one error is want of memory.
#[tactic(auto, using(crate::proofs::RootFirst::shows_all))]
pub(crate) fn round_apart(
    rt: &(impl Threads + Sync),
    engine: &mut Engine,
    space: &mut Space,
    quantum: u32,
    output: &mut Vec<u8>,
) -> Result<bool, AllocError>
    requires quantum { 1 ≤ quantum }
    requires empty { output.old.items ≡ [] }
    ensures ok { IfOk result (λ some. IsLater some space.old space.new) }
    ensures console { OnOk result (console_of space.new ≡ console_of space.old ++ output.new.items) }
    ensures bound { OnOk result (length output.new.items ≤ quantum * most_output) }
    ensures root { OnOk result (RootWithin quantum space.old space.new) }
{
    let some = round_found(rt, engine, space, quantum, output)?;
    Ok(some)
}
