ghost use Rattle.std.specs.Prelude.{◌≤◌};

use crate::hints::Hints;
use crate::pace::Pace;
use space_step::DecodeCache;
use space_tree::Space;
use std::alloc::{AllocError, Global};
use std::num::NonZeroUsize;
use std::thread;
use std::thread::Threads;

// How many rounds in a row may try calls before turns are taken.
const MOST_EARLY: u32 = 64;

/// What the rounds of a run have in common.
#[derive(Drop)]
pub(crate) struct Engine {
    /// Where memory comes from.
    pub(crate) alloc: Global,
    /// For how many events a space goes on at a time, and whether those of a round are asked to end.
    pub(crate) pace: Pace,
    /// How many threads may run at once.
    pub(crate) processors: usize,
    /// What the caller's thread has decoded.
    pub(crate) cache: DecodeCache,
    /// Where to look next.
    pub(crate) hints: Hints,
    /// Where the root goes on apart: whether it came through the events that it had last.
    pub(crate) root_runs: bool,
    /// Where the root goes on apart: whether it has come in this round to what is no local event, which may be a call whose time has come.
    pub(crate) root_calls: bool,
    // How many rounds in a row calls have been tried before turns were taken.
    early: u32,
}

impl Engine {
    /// What the rounds of a tree begin with. The one error is want of memory.
    pub(crate) fn new(
        rt: &impl Threads,
        alloc: Global,
        space: &Space,
        quantum: u32,
    ) -> Result<Engine, AllocError>
        requires { 1 ≤ quantum }
    {
        let pace = Pace::new(alloc, quantum)?;
        let cache = DecodeCache::new(alloc)?;
        let hints = Hints::search(alloc, space)?;
        Ok(Engine {
            alloc,
            pace,
            processors: processors(rt),
            cache,
            hints,
            root_runs: false,
            root_calls: false,
            early: 0,
        })
    }

    /// Notes whether the root, which had an event in this round or had none, has come to what is no local event.
    pub(crate) fn note_root(&mut self, went: bool) {
        self.root_calls = went && !self.root_runs;
    }

    /// How many events a turn has at most, of so many in a round: any number where each has a processor of its own, since all are asked to end once one of
    /// them does; several quanta where others wait for a processor.
    pub(crate) fn most_events(&self, turns: usize) -> u32
        ensures { 1 ≤ result }
    {
        if turns > self.processors {
            self.hints.turn_of(self.pace.quantum)
        } else {
            u32::MAX
        }
    }

    /// Whether calls are tried before turns are taken: where there are some, an event has happened in this round, no root goes on beside, and not too many
    /// rounds in a row have done so. Where they are not, but there are some, each turn is a single quantum.
    pub(crate) fn tries_calls(&mut self, began: bool) -> bool {
        let some = self.root_calls || self.hints.some_calls();
        let first = some
            && (began || self.root_calls)
            && !self.root_runs
            && self.early < MOST_EARLY;
        self.early = if first {
            self.early.saturating_add(1)
        } else {
            0
        };
        if some && !first {
            self.pace.ask_to_end();
        }
        first
    }
}

// How many processors this thread may run on; one where that is not known.
fn processors(rt: &impl Threads) -> usize {
    match thread::available_parallelism(rt) {
        Ok(count) => count.get(),
        Err(_) => 1,
    }
}
