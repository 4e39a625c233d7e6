ghost use Rattle.std.specs.Prelude.{◌≤◌};

use arrayvec::ArrayVec;
use call_model::limits::GREATEST_DEPTH;
use space_step::{AcceptedCall, Next};
use space_tree::{Path, Space};
use std::alloc::{AllocError, Global};
use std::mem;
use trap_ret::awaits;

// How many quanta a turn has at most: some 70 milliseconds.
const MOST_QUANTA: u32 = 16;

/// A space that ran when it was looked at last.
#[derive(Drop)]
pub(crate) struct Runner {
    pub(crate) path: Path,
    /// Whether it came through its last quantum.
    pub(crate) came_through: bool,
}

/// Where to look next: the spaces that run, and those whose calls may find ready what they wait for. What is missing here is found by a search of
/// the tree, and what is here for nothing changes nothing; so no clause speaks of it.
#[derive(Drop)]
pub(crate) struct Hints {
    alloc: Global,
    running: Vec<Runner>,
    calls: Vec<Path>,
    // How many quanta a turn has.
    quanta: u32,
}

impl Hints {
    /// Nothing to look at.
    pub(crate) fn new(alloc: Global) -> Hints {
        Hints {
            alloc,
            running: Vec::new(alloc),
            calls: Vec::new(alloc),
            quanta: 1,
        }
    }

    /// All spaces of a tree that run. The one error is want of memory.
    pub(crate) fn search(alloc: Global, space: &Space) -> Result<Hints, AllocError> {
        let mut hints = Hints::new(alloc);
        hints.search_below(space, &ArrayVec::new(), GREATEST_DEPTH)?;
        Ok(hints)
    }

    // Those of the space at a path, and of so many levels below it.
    fn search_below(&mut self, space: &Space, path: &Path, levels: u8) -> Result<(), AllocError> {
        if !space.top.is_stopped() {
            self.runs(path.clone()?, false)?;
        }
        if levels == 0 || space.children.are_known_settled() {
            return Ok(());
        }
        for (number, child) in space.children.entries() {
            let mut below = path.clone()?;
            if below.try_push(*number).is_ok() {
                self.search_below(child, &below, levels - 1)?;
            }
        }
        Ok(())
    }

    // A space runs.
    fn runs(&mut self, path: Path, came_through: bool) -> Result<(), AllocError> {
        self.running.push(Runner { path, came_through })?;
        Ok(())
    }

    /// What is next of a space that has gone on: it came through its quantum; or its call may find ready what it waits for; or it has stopped, and
    /// the calls of the spaces above it may.
    pub(crate) fn note(&mut self, path: Path, next: Next) -> Result<(), AllocError> {
        match next {
            Next::Local => self.runs(path, true),
            Next::Meet(_) => self.calls(path),
            Next::Stopped => self.calls_above(&path),
        }
    }

    // The call of a space may find ready what it waits for.
    fn calls(&mut self, path: Path) -> Result<(), AllocError> {
        self.calls.push(path)?;
        Ok(())
    }

    // The calls of the spaces above one that has stopped.
    fn calls_above(&mut self, path: &Path) -> Result<(), AllocError> {
        for length in 0..path.len() {
            let mut above = path.clone()?;
            above.truncate(length);
            self.calls(above)?;
        }
        Ok(())
    }

    /// A call of the space at a path has met its children: those that it waited for may run.
    pub(crate) fn met_below(&mut self, path: &Path, call: AcceptedCall) -> Result<(), AllocError> {
        let all = awaits(call);
        for index in 0..all.len() {
            let awaited = all.get(index);
            let mut child = path.clone()?;
            if child.try_push(awaited.number).is_ok() {
                self.runs(child, false)?;
            }
        }
        Ok(())
    }

    /// As `met_below`, and its caller goes on.
    pub(crate) fn met(&mut self, path: Path, call: AcceptedCall) -> Result<(), AllocError> {
        self.met_below(&path, call)?;
        self.runs(path, false)
    }

    /// Whether a space may run.
    pub(crate) fn some_run(&self) -> bool {
        !self.running.is_empty()
    }

    /// Whether a call may find ready what it waits for.
    pub(crate) fn some_calls(&self) -> bool {
        !self.calls.is_empty()
    }

    /// These go on in the next round.
    pub(crate) fn keep(&mut self, turns: Vec<Path>) -> Result<(), AllocError> {
        for path in turns {
            self.runs(path, true)?;
        }
        Ok(())
    }

    /// How many events a turn has, which is of several quanta where nobody waits.
    pub(crate) fn turn_of(&self, quantum: u32) -> u32
        ensures { quantum ≤ result }
    {
        quantum.saturating_mul(self.quanta).max(quantum)
    }

    /// The next turns are of a single quantum: somebody waits.
    pub(crate) fn hurry(&mut self) {
        self.quanta = 1;
    }

    /// The turns of a round are over. Where all came through theirs, the next have twice as many quanta, up to 16; where one did not, a single one again.
    pub(crate) fn end_turns(&mut self) {
        self.quanta = if self.calls.is_empty() {
            (self.quanta.saturating_mul(2)).min(MOST_QUANTA)
        } else {
            1
        };
    }

    /// The spaces that run; none are left.
    pub(crate) fn take_running(&mut self) -> Vec<Runner> {
        mem::replace(&mut self.running, Vec::new(self.alloc))
    }

    /// The paths of the calls, in their order, each once; none are left.
    pub(crate) fn take_calls(&mut self) -> Vec<Path> {
        let mut calls = mem::replace(&mut self.calls, Vec::new(self.alloc));
        calls.sort_unstable();
        calls.dedup();
        calls
    }
}
