ghost use Rattle.std.specs.Prelude.{◌≡◌, ℕ, Bool, ◌+◌, ◌-◌, ◌^◌, ◌≤◌, ◌<◌, IfOk, OnOk};
ghost use Rattle.call_model.specs.Limits.{greatest_depth, levels_below};
ghost use Rattle.space_model.specs.Event.{next, Follows, IsNotLocal};
ghost use Rattle.space_model.specs.Sound.{IsSoundTop};
ghost use Rattle.space_step.specs.Run.{IsRun};

use crate::decode_cache::DecodeCache;
use crate::event::Advance;
use crate::running::advance;
use space_tree::{Top, copy_top};
use std::alloc::AllocError;
use std::marker::Model;

/// Local events of a space at a depth, from a start on: the start, the space after them, and how many there were. There are
/// none only where what is next of the start is no local event.
#[derive(Drop)]
pub struct Run {
    depth: u8,
    start: Top,
    top: Top,
    ran: u32,
}

impl Model for Run {
    ghost use Rattle.space_step.specs.Run as specs;

    ghost Value = { specs.Run };

    ghost coded = { specs.coded_run };

    ghost view = { λ r. record { depth = r.depth; start = r.start; top = r.top; ran = r.ran } };

    ghost invariant = { λ r. specs.IsRun (record { depth = r.depth; start = r.start; top = r.top; ran = r.ran }) };
}

impl Run {
    /// The depth of the space, 0 to 8.
    pub fn depth(&self) -> u8
        ensures { result ≡ self.now.depth }
    {
        self.depth
    }

    /// The space before the events.
    pub fn start(&self) -> &Top
        ensures { result.now ≡ self.now.start }
    {
        &self.start
    }

    /// The space after the events.
    pub fn top(&self) -> &Top
        ensures { result.now ≡ self.now.top }
    {
        &self.top
    }

    /// How many events there were.
    pub fn ran(&self) -> u32
        ensures { result ≡ self.now.ran }
    {
        self.ran
    }

    /// What a run is: its events lead from its start to its top, which is as sound.
    pub fn leads(&self)
        ensures run { IsRun self.now }
        ensures sound { (fuel : ℕ) (root : Bool) → IsSoundTop fuel root self.now.start → IsSoundTop fuel root self.now.top }
    {
        let _ran = self.ran;
    }

    /// Makes the pages that the events wrote shareable, so that a later copy of the space after them is cheap. The one error is want of memory, and nothing
    /// has changed.
    #[tactic(auto, using(space_mem::proofs::Dirty::covers_in_same))]
    pub fn freeze(&mut self) -> Result<(), AllocError>
        ensures { self.new ≡ self.old }
    {
        self.top.memory.freeze()
    }

    /// Goes on from the space after the events: at most as many more as the quantum, which is at least 1, and fewer only where what is next is no
    /// local event. Its one error is want of memory for an event.
    pub fn go_on(self, quantum: u32, cache: &mut DecodeCache) -> Result<Run, AllocError>
        requires quantum { 1 ≤ quantum }
        requires fits { self.ran + quantum < 2 ^ 32 }
        ensures depth { IfOk result (λ r. r.depth ≡ self.depth) }
        ensures start { IfOk result (λ r. r.start ≡ self.start) }
        ensures within { IfOk result (λ r. r.ran ≤ self.ran + quantum) }
        ensures fewer { IfOk result (λ r. r.ran < self.ran + quantum → IsNotLocal (next (levels_below self.depth) r.top)) }
    {
        let Run {
            depth,
            start,
            mut top,
            ran,
        } = self;
        match advanced(&mut top, depth, quantum, cache) {
            Ok(more) => Ok(Run {
                depth,
                start,
                top,
                ran: ran + more,
            }),
            Err(error) => {
                drop(start);
                drop(top);
                Err(error)
            }
        }
    }

    /// The space before the events, and the space after them.
    pub fn into_parts(self) -> (Top, Top)
        ensures start { result.0 ≡ self.start }
        ensures top { result.1 ≡ self.top }
    {
        (self.start, self.top)
    }
}

/// Runs a space at a depth of at most 8: at most as many local events as the quantum, which is at least 1, and fewer only where
/// what is next is no local event. The run's start is a copy. Its one error is want of memory, for the copy or for an event.
pub fn run_local(
    mut top: Top,
    depth: u8,
    quantum: u32,
    cache: &mut DecodeCache,
) -> Result<Run, AllocError>
    requires depth { depth ≤ greatest_depth }
    requires quantum { 1 ≤ quantum }
    ensures depth { IfOk result (λ r. r.depth ≡ depth) }
    ensures start { IfOk result (λ r. r.start ≡ top) }
    ensures within { IfOk result (λ r. r.ran ≤ quantum) }
    ensures fewer { IfOk result (λ r. r.ran < quantum → IsNotLocal (next (levels_below depth) r.top)) }
    ensures none { IfOk result (λ r. r.ran ≡ 0 → IsNotLocal (next (levels_below depth) r.start)) }
    ensures sound { (fuel : ℕ) (root : Bool) → IsSoundTop fuel root top → IfOk result (λ r. IsSoundTop fuel root r.top) }
{
    match from_copy(&mut top, depth, quantum, cache) {
        Ok((start, ran)) => Ok(Run {
            depth,
            start,
            top,
            ran,
        }),
        Err(error) => {
            drop(top);
            Err(error)
        }
    }
}

// Lets a space go on, and answers the space that it was, and how many events there were. The space is lent: so no way out has to let it go.
fn from_copy(
    top: &mut Top,
    depth: u8,
    quantum: u32,
    cache: &mut DecodeCache,
) -> Result<(Top, u32), AllocError>
    requires depth { depth ≤ greatest_depth }
    requires quantum { 1 ≤ quantum }
    ensures start { IfOk result (λ r. r.0 ≡ top.old) }
    ensures follows { IfOk result (λ r. Follows (levels_below depth) r.1 top.old top.new) }
    ensures within { IfOk result (λ r. r.1 ≤ quantum) }
    ensures fewer { IfOk result (λ r. r.1 < quantum → IsNotLocal (next (levels_below depth) top.new)) }
    ensures none { IfOk result (λ r. r.1 ≡ 0 → IsNotLocal (next (levels_below depth) top.old)) }
    ensures sound { (fuel : ℕ) (root : Bool) → IsSoundTop fuel root top.old → OnOk result (IsSoundTop fuel root top.new) }
{
    let start = copy_top(top)?;
    match advanced(top, depth, quantum, cache) {
        Ok(ran) => Ok((start, ran)),
        Err(error) => {
            drop(start);
            Err(error)
        }
    }
}

// Lets a space go on, and answers how many events there were, where there was memory for each of them.
#[tactic(auto, using(crate::proofs::Advancing::ended_within, crate::proofs::Advancing::ended_early))]
fn advanced(
    top: &mut Top,
    depth: u8,
    quantum: u32,
    cache: &mut DecodeCache,
) -> Result<u32, AllocError>
    requires depth { depth ≤ greatest_depth }
    requires quantum { 1 ≤ quantum }
    ensures follows { IfOk result (λ n. Follows (levels_below depth) n top.old top.new) }
    ensures within { IfOk result (λ n. n ≤ quantum) }
    ensures fewer { IfOk result (λ n. n < quantum → IsNotLocal (next (levels_below depth) top.new)) }
    ensures none { IfOk result (λ n. n ≡ 0 → IsNotLocal (next (levels_below depth) top.old)) }
    ensures sound { (fuel : ℕ) (root : Bool) → IsSoundTop fuel root top.old → IsSoundTop fuel root top.new }
{
    let Advance { ran, next } = advance(top, depth, quantum, cache)?;
    match next {
        Some(_) => Ok(ran),
        None => Err(AllocError),
    }
}
