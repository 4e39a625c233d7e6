ghost use Rattle.std.specs.Prelude.{◌≡◌, Some, IfOk, map};
ghost use Rattle.space_model.specs.Sound.{IsSound};
ghost use Rattle.explain_why.specs.Parts.{HasParts};
ghost use Rattle.explain_why.specs.Runs.{StillTell, TellRuns};
ghost use Rattle.explain_why.specs.Why.{ExplainsSpace, ExplainsStop, ExplainsTop, IsWhy, ending_of, said};

use crate::conflict::explain_conflict;
use crate::files::explain_files;
use crate::paths::paths_of;
use crate::planning::runs_for;
use crate::runs::Runs;
use crate::trap::explain_trap;
use demand_eval::settle;
use space_tree::{Cause, Path, Space, Status, Top, at, copy_tree};
use std::alloc::{AllocError, Global};

// What is to be told of a space by its status: nothing, a conflict at an address, or another trap.
#[derive(Clone, Copy, Debug, PartialEq, Eq)]
pub(crate) enum Ending {
    Quiet,
    Conflicting(u32),
    Trapped,
}

#[tactic(auto, unfolding(crate::specs::Why::ending_of))]
pub(crate) fn ending_of(status: Status) -> Ending
    ensures { result ≡ ending_of status }
{
    match status {
        Status::Running => Ending::Quiet,
        Status::Stopped { cause, value } => match cause {
            Cause::Limit | Cause::Fuel | Cause::Ret | Cause::Fresh => Ending::Quiet,
            Cause::Conflict => Ending::Conflicting(value),
            _ => Ending::Trapped,
        },
    }
}

// Why a space of a settled tree has stopped, where a trap has stopped it.
fn explain_stop(
    alloc: Global,
    root: &mut Space,
    runs: &mut Runs,
    end: &Space,
    path: &Path,
    top: &Top,
) -> Result<Vec<u8>, AllocError>
    requires sound { IsSound root.old }
    requires runs { TellRuns root.old runs.old }
    ensures told { IfOk result (λ v. let t = top.now in ExplainsStop root.old end.now path.now.items t (ending_of t.status) v.items) }
    ensures runs { IfOk result (λ _. StillTell runs.old runs.new) }
    ensures same { root.new ≡ root.old }
{
    match ending_of(top.status) {
        Ending::Quiet => Ok(Vec::new(alloc)),
        Ending::Conflicting(address) => explain_conflict(
            alloc, root, runs, end, path, top, address,
        ),
        Ending::Trapped => explain_trap(alloc, root, runs, path, top),
    }
}

// What is told of a space of a settled tree: why it has stopped, and its files in conflict.
fn explain_top(
    alloc: Global,
    root: &mut Space,
    runs: &mut Runs,
    end: &Space,
    path: &Path,
    top: &Top,
) -> Result<Vec<u8>, AllocError>
    requires sound { IsSound root.old }
    requires runs { TellRuns root.old runs.old }
    ensures told { IfOk result (λ v. ExplainsTop root.old end.now path.now.items (Some top.now) v.items) }
    ensures runs { IfOk result (λ _. StillTell runs.old runs.new) }
    ensures same { root.new ≡ root.old }
{
    let mut text = explain_stop(alloc, root, runs, end, path, top)?;
    let files = explain_files(alloc, root, runs, path, &top.memory)?;
    text.extend_from_slice(&files)?;
    Ok(text)
}

// What is told of the space at a path of a settled tree.
fn explain_space(
    alloc: Global,
    root: &mut Space,
    runs: &mut Runs,
    end: &Space,
    path: &Path,
) -> Result<Vec<u8>, AllocError>
    requires sound { IsSound root.old }
    requires runs { TellRuns root.old runs.old }
    ensures told { IfOk result (λ v. ExplainsSpace root.old end.now path.now.items v.items) }
    ensures runs { IfOk result (λ _. StillTell runs.old runs.new) }
    ensures same { root.new ≡ root.old }
{
    let Some(space) = at(end, path) else {
        return Ok(Vec::new(alloc));
    };
    explain_top(alloc, root, runs, end, path, space.top())
}

// What is told of the spaces at these paths, one after the other.
fn explain_all(
    alloc: Global,
    root: &mut Space,
    runs: &mut Runs,
    end: &Space,
    paths: &[Path],
) -> Result<Vec<u8>, AllocError>
    requires sound { IsSound root.old }
    requires runs { TellRuns root.old runs.old }
    ensures told { IfOk result (λ v. HasParts (ExplainsSpace root.old end.now) (map (λ p. p.items) paths.now) v.items) }
{
    let mut text = Vec::new(alloc);
    for path in paths {
        let part = explain_space(alloc, root, runs, end, path)?;
        text.extend_from_slice(&part)?;
    }
    Ok(text)
}

// The same, with runs that answer for all of them.
fn explain_paths(
    alloc: Global,
    root: &mut Space,
    end: &Space,
    paths: &[Path],
) -> Result<Vec<u8>, AllocError>
    requires { IsSound root.old }
    ensures { IfOk result (λ v. HasParts (ExplainsSpace root.old end.now) (map (λ p. p.items) paths.now) v.items) }
{
    let mut runs = runs_for(alloc, root, end, paths)?;
    explain_all(alloc, root, &mut runs, end, paths)
}

// A text, or that there is nothing to explain.
fn said(alloc: Global, text: Vec<u8>) -> Result<Vec<u8>, AllocError>
    ensures { IfOk result (λ v. v.items ≡ said text.items) }
{
    if text.is_empty() {
        let line = String::from_str(alloc, "nothing to explain\n")?;
        return Ok(line.into_bytes());
    }
    Ok(text)
}

/// Why the spaces of a tree stop as they do, for each that a trap stops, in the order of paths: of a conflict the child that was joined, the address, the
/// bytes there, and the event of each side that changed its byte, through joins to the one who stored; of any other trap the event before it and the
/// trap itself, and, where a load or a store was stopped, the event that changed the register of its address. The one error is want of memory.
pub fn why(alloc: Global, root: Space) -> Result<Vec<u8>, AllocError>
    requires { IsSound root }
    ensures { IfOk result (λ v. IsWhy root v.items) }
{
    let mut root = root;
    let end = settle(alloc, copy_tree(alloc, &mut root)?)?;
    let paths = paths_of(alloc, &end)?;
    let text = explain_paths(alloc, &mut root, &end, &paths)?;
    said(alloc, text)
}
