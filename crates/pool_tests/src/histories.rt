ghost use Rattle.std.specs.Prelude.{◌≤◌};
ghost use Rattle.space_model.specs.Sound.{IsSound};

use crate::programs::{TWO_AWAY, TWO_THREADS, booted};
use board::{Board, Closed, run_alone};
use det_core::{Entry, walk};
use space_tree::{Path, Space, same};
use std::alloc::{AllocError, Global};
use std::process::Abort;
use std::sync::Wait;
use std::test::*;

// A path so many times.
fn add_path(paths: &mut Vec<Path>, path: &Path, events: u32) -> Result<(), AllocError> {
    for _ in 0..events {
        paths.push(path.clone()?)?;
    }
    Ok(())
}

// The paths of the events of an entry; a move has none.
fn add_entry(paths: &mut Vec<Path>, entry: &Entry) -> Result<(), AllocError> {
    match entry {
        Entry::Ran { path, events } => add_path(paths, path, *events),
        Entry::Moved { .. } => Ok(()),
        Entry::Met { path } => add_path(paths, path, 1),
    }
}

// The paths of the events of a history, in their order.
fn paths_of(alloc: Global, history: &[Entry]) -> Result<Vec<Path>, AllocError> {
    let mut paths = Vec::new(alloc);
    for entry in history {
        add_entry(&mut paths, entry)?;
    }
    Ok(paths)
}

// The whole run of a source on so many nodes.
fn closed_on<R: Wait + Abort>(rt: &R, alloc: Global, source: &[u8], nodes: u32) -> Closed
    requires { (1 ≤ nodes) × (nodes ≤ 64) }
{
    let board = Board::begin(alloc, booted(rt, alloc, source), nodes).expect(rt, "memory");
    run_alone(rt, board).expect(rt, "memory")
}

/// Whether the events of the history of a whole run, one by one and without the moves, lead from this tree to the tree that the run has led to.
pub(crate) fn leads(rt: &impl Abort, alloc: Global, from: Space, closed: &Closed) -> bool
    requires { IsSound from }
{
    let paths = paths_of(alloc, closed.history.as_slice()).expect(rt, "memory");
    let replayed = walk(alloc, from, paths.as_slice()).expect(rt, "memory");
    same(&replayed, &closed.tree)
}

// Whether the history of the whole run of a source leads from its tree to the tree that the run has led to.
fn is_replayed<R: Wait + Abort>(rt: &R, alloc: Global, source: &[u8], nodes: u32) -> bool
    requires { (1 ≤ nodes) × (nodes ≤ 64) }
{
    let closed = closed_on(rt, alloc, source, nodes);
    leads(rt, alloc, booted(rt, alloc, source), &closed)
}

#[test]
fn a_history_is_replayed_to_the_last_tree(rt: HostRuntime) {
    assert!(rt; is_replayed(&rt, rt.alloc(), TWO_THREADS, 1));
    assert!(rt; is_replayed(&rt, rt.alloc(), TWO_AWAY, 1));
    assert!(rt; is_replayed(&rt, rt.alloc(), TWO_AWAY, 2));
}
