ghost use Rattle.std.specs.Prelude.{◌≡◌, ℕ, ◌+◌, ◌*◌, ◌≤◌, [], IfOk};
ghost use Rattle.call_model.specs.declared.limits.TheConstants.{GREATEST_LENGTH};
ghost use Rattle.space_model.specs.Space.{Top};
ghost use Rattle.run_model.specs.Console.{most_output};
ghost use Rattle.round_eval.specs.Apart.{IsForRoot, RootWent, WentWriting};

use crate::pace::Pace;
use call_model::limits::GREATEST_LENGTH;
use space_step::{Advance, DecodeCache, Next, advance_with_output};
use space_tree::Top;
use std::alloc::{AllocError, Global};
use std::snapshot::Snapshot;
use std::thread;
use std::thread::{Promise, PromisedHandle, SpawnError, Threads};

/// A root that has gone on: its top, how many events it had, whether it came through its quantum, and what it wrote to its console.
#[derive(Drop)]
pub(crate) struct RootDone {
    pub(crate) top: Top,
    pub(crate) ran: u32,
    pub(crate) came_through: bool,
    pub(crate) output: Vec<u8>,
}

/// That what a thread gives is what became of a root in a quantum, or want of memory.
#[derive(Drop)]
pub(crate) struct RootGoesOn {
    pub(crate) start: Snapshot<Top>,
    pub(crate) quantum: u32,
}

impl Promise<Result<RootDone, AllocError>> for RootGoesOn {
    ghost kept_by = { λ p r. IfOk r (λ done. RootWent p.quantum p.start.value done) };
}

/// A root that has begun to go on.
#[derive(Drop)]
pub(crate) enum BegunRoot {
    /// By a thread that is to be joined.
    Running(PromisedHandle<Result<RootDone, AllocError>, RootGoesOn>),
    /// By the caller's thread, since no other could be started: this became of it.
    Ended(Result<RootDone, AllocError>),
}

// How many bytes are enough, so that what an event writes beyond them is within what a quantum of events may write.
fn enough_of(quantum: u32) -> usize
    requires { 1 ≤ quantum }
    ensures { result + most_output ≡ quantum * most_output + 1 }
{
    (quantum as usize - 1) * GREATEST_LENGTH as usize + 1
}

/// The top of a root goes on for the quantum at most; what it writes to its console is put into the output, which is empty. It answers how many events
/// there were, and whether there were as many as the quantum. The one error is want of memory.
#[tactic(auto, using(crate::proofs::RootFirst::wrote_within))]
pub(crate) fn run_root(
    top: &mut Top,
    quantum: u32,
    cache: &mut DecodeCache,
    output: &mut Vec<u8>,
) -> Result<(u32, bool), AllocError>
    requires quantum { 1 ≤ quantum }
    requires empty { output.old.items ≡ [] }
    ensures { IfOk result (λ r. WentWriting quantum r.0 output.new.items top.old top.new) }
{
    let enough = enough_of(quantum);
    let Advance { ran, next } = advance_with_output(top, 0, quantum, cache, output, enough)?;
    match next {
        Some(next) => Ok((ran, next == Next::Local)),
        None => Err(AllocError),
    }
}

// A root goes on in a thread that has decoded nothing. Behind that the spaces below it are asked to end.
fn run_new(alloc: Global, mut top: Top, quantum: u32, pace: &Pace) -> Result<RootDone, AllocError>
    requires { 1 ≤ quantum }
    ensures { IfOk result (λ done. RootWent quantum top done) }
{
    let mut cache = DecodeCache::new(alloc)?;
    let mut output = Vec::new(alloc);
    let (ran, came_through) = run_root(&mut top, quantum, &mut cache, &mut output)?;
    pace.ask_to_end();
    Ok(RootDone {
        top,
        ran,
        came_through,
        output,
    })
}

/// A thread for a root that is to go on for the quantum at most; where none can be started, it goes on here.
pub(crate) fn begin_root(
    rt: &impl Threads,
    alloc: Global,
    top: Top,
    quantum: u32,
    pace: Pace,
) -> BegunRoot
    requires { 1 ≤ quantum }
    ensures { IsForRoot quantum top result }
{
    let promise = RootGoesOn {
        start: Snapshot::of(&top),
        quantum,
    };
    let work = move || -> Result<RootDone, AllocError>
        requires { 1 ≤ quantum }
        ensures { IfOk result (λ done. RootWent quantum top done) }
    { run_new(alloc, top, quantum, &pace) };
    match thread::spawn_with(rt, promise, work) {
        Ok(handle) => BegunRoot::Running(handle),
        Err(SpawnError { value }) => BegunRoot::Ended(value()),
    }
}

/// What became of it.
pub(crate) fn end_root(rt: &impl Threads, begun: BegunRoot) -> Result<RootDone, AllocError>
    ensures { (q : ℕ) (t : Top) → IsForRoot q t begun → IfOk result (λ done. RootWent q t done) }
{
    match begun {
        BegunRoot::Running(handle) => handle.join(rt),
        BegunRoot::Ended(result) => result,
    }
}
