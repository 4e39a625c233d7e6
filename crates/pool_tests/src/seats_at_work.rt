ghost use Rattle.std.specs.Prelude.{◌≤◌, ◌<◌};
ghost use Rattle.space_model.specs.Sound.{IsSound};

use crate::histories::leads;
use crate::programs::{LONG_THREADS, TWO_AWAY, TWO_THREADS, booted};
use det_host::{Gate, GateEvent, OpenGate};
use seat_board::{SeatRun, SeatTurn, run_seats};
use space_tree::Space;
use std::alloc::Global;
use std::process::Abort;
use std::sync::Wait;
use std::sync::atomic::{AtomicU64, Ordering};
use std::test::*;
use std::thread::{Threads, yield_now};

// The whole run of a tree by so many workers in seats, on so many nodes.
fn run_by<R: Threads + Wait + Sync + Abort, G: Gate>(
    rt: &R,
    alloc: Global,
    tree: Space,
    places: (u32, Option<u32>),
    workers: usize,
    gate: &G,
) -> SeatRun
    requires sound { IsSound tree }
    requires nodes { (1 ≤ places.0) × (places.0 ≤ 64) }
    requires some { (0 < workers) × (workers < 65) }
{
    let (nodes, link) = places;
    run_seats(rt, alloc, tree, nodes, link, workers, gate).expect(rt, "memory")
}

// How often two workers had jobs in their hands at once. Who takes one waits some time for another.
#[derive(Drop)]
struct BesideAnother {
    at_work: AtomicU64,
    both: AtomicU64,
}

impl BesideAnother {
    // A worker has a job.
    fn take(&self) {
        if self.at_work.fetch_add(1, Ordering::SeqCst) > 0 {
            self.both.fetch_add(1, Ordering::SeqCst);
            return;
        }
        for _ in 0..1_000_000u32 {
            if self.both.load(Ordering::SeqCst) > 0 {
                return;
            }
            yield_now();
        }
    }
}

impl Gate for BesideAnother {
    fn pass(&self, worker: usize, event: GateEvent) {
        let _ = worker;
        match event {
            GateEvent::Took => self.take(),
            GateEvent::Committed => {
                self.at_work.fetch_sub(1, Ordering::SeqCst);
            }
            _ => {}
        }
    }
}

#[test]
fn two_at_work(rt: HostRuntime) {
    let gate = BesideAnother {
        at_work: AtomicU64::new(0),
        both: AtomicU64::new(0),
    };
    let tree = booted(&rt, rt.alloc(), LONG_THREADS);
    let _run = run_by(&rt, rt.alloc(), tree, (1, None), 2, &gate);
    assert!(rt; gate.both.load(Ordering::SeqCst) > 0);
}

// How many turns the gate was told of, of each of four workers.
#[derive(Drop)]
struct Told {
    turns: [AtomicU64; 4],
}

impl Gate for Told {
    fn pass(&self, worker: usize, event: GateEvent) {
        let is_turn = event != GateEvent::Committed;
        if let Some(turns) = self.turns.get(worker)
            && is_turn
        {
            turns.fetch_add(1, Ordering::SeqCst);
        }
    }
}

// How many entries the turns of a log added.
fn entries_of(log: &[SeatTurn]) -> usize {
    let mut count: usize = 0;
    for turn in log {
        count = count.saturating_add(turn.entries);
    }
    count
}

// The turns that the gate is told of are those of each worker, but for the last one, which ends it.
fn tells_all(rt: &impl Abort, told: &Told, run: &SeatRun) {
    assert_eq!(rt; run.counts.len(), 4);
    for (turns, count) in told.turns.iter().zip(run.counts.iter()) {
        let told = turns.load(Ordering::SeqCst);
        assert_eq!(rt; *count as u64, told.saturating_add(1));
    }
    assert_eq!(rt; entries_of(run.turns.as_slice()), run.closed.history.len());
}

#[test]
fn each_worker_is_told_of_its_turns_in_the_log(rt: HostRuntime) {
    for source in [LONG_THREADS, TWO_AWAY, TWO_THREADS] {
        let told = Told {
            turns: [
                AtomicU64::new(0),
                AtomicU64::new(0),
                AtomicU64::new(0),
                AtomicU64::new(0),
            ],
        };
        let tree = booted(&rt, rt.alloc(), source);
        let run = run_by(&rt, rt.alloc(), tree, (1, None), 4, &told);
        tells_all(&rt, &told, &run);
    }
}

#[test]
fn a_history_is_replayed_to_the_last_tree(rt: HostRuntime) {
    for places in [(1, None), (2, None), (2, Some(7))] {
        let tree = booted(&rt, rt.alloc(), TWO_AWAY);
        let run = run_by(&rt, rt.alloc(), tree, places, 8, &OpenGate);
        let again = booted(&rt, rt.alloc(), TWO_AWAY);
        assert!(rt; leads(&rt, rt.alloc(), again, &run.closed));
    }
}
