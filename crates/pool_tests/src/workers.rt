//! A pool over a shop of numbered jobs: all are accepted, workers and gates count the same, and out of memory ends the run.

use det_host::{Gate, GateEvent, OpenGate};
use std::alloc::{AllocError, Global};
use std::sync::Wait;
use std::sync::atomic::{AtomicU64, Ordering};
use std::test::*;
use std::thread::{Threads, yield_now};
use worker_pool::{Shop, Turn, Worked, run_pool};

// Where memory runs out, if at all: once 500 results came back.
#[derive(Clone, Copy, PartialEq, Eq)]
enum Want {
    Nowhere,
    InTurn,
    InWork,
}

// How many turns are ready, and how many of them are meetings; how many jobs become ready when others come back; how many are out, and how many came back.
#[derive(Drop)]
struct Row {
    ready: u32,
    due: u32,
    later: u32,
    out: u32,
    taken: u32,
    want: Want,
}

// Runs that many jobs, of which `wide` may be out at once, by 1 to 64 workers. Answers how many came back, and the workers' counts.
fn run_jobs<R: Threads + Wait + Sync, G: Gate>(
    rt: &R,
    alloc: Global,
    jobs: (u32, u32, Want),
    workers: usize,
    gate: &G,
) -> Result<(u32, Vec<u64>), AllocError> {
    let (count, wide, want) = jobs;
    if workers == 0 || workers > 64 {
        return Err(AllocError);
    }
    let row = Row {
        ready: count.min(wide),
        due: 0,
        later: count.saturating_sub(wide),
        out: 0,
        taken: 0,
        want,
    };
    let (row, counts) = run_pool(rt, alloc, row, workers, gate)?;
    Ok((row.taken, counts))
}

#[derive(Drop)]
struct Sum {
    number: u32,
    fits: bool,
}

impl Shop for Row {
    ghost use Rattle.std.specs.Prelude.{◌≡◌};

    type Job = Sum;

    type Done = u32;

    type Tools = u32;

    ghost accepted = { λ r. r.taken };

    ghost owed = { λ r. r.out };

    ghost idle = { λ r. r.ready ≡ 0 };

    fn turn(&mut self, worker: usize) -> Result<Turn<Sum>, AllocError> {
        let _ = worker;
        if self.ready == 0 {
            if self.out == 0 {
                return Ok(Turn::Over);
            }
            return Ok(Turn::Rest);
        }
        if self.out == u32::MAX || self.want == Want::InTurn && self.taken >= 500 {
            return Err(AllocError);
        }
        self.ready -= 1;
        if self.due > 0 {
            self.due -= 1;
            return Ok(Turn::Met);
        }
        self.out += 1;
        Ok(Turn::Job(Sum {
            number: self.taken,
            fits: self.want != Want::InWork || self.taken < 500,
        }))
    }

    fn has_more(&mut self) -> bool {
        self.ready > 0
    }

    fn tools(alloc: Global) -> Result<u32, AllocError> {
        let _ = alloc;
        Ok(7)
    }

    // Each fifth job lasts.
    fn work(tools: &mut u32, job: Sum) -> Result<Worked<u32>, AllocError> {
        if !job.fits {
            return Err(AllocError);
        }
        let done = job.number.wrapping_mul(*tools);
        Ok(if job.number % 5 == 0 {
            Worked::Lasts(done)
        } else {
            Worked::Ended(done)
        })
    }

    fn go_on(tools: &mut u32, done: u32) -> Result<u32, AllocError> {
        let _ = tools;
        yield_now();
        Ok(done)
    }

    fn commit(&mut self, done: u32) -> bool {
        if self.out > 0 {
            self.out -= 1;
        }
        if self.later > 0 {
            self.later -= 1;
            self.ready = self.ready.saturating_add(1);
        }
        if self.taken == u32::MAX {
            return false;
        }
        self.taken += 1;
        if done % 8 == 0 {
            self.due = self.due.saturating_add(1);
            self.ready = self.ready.saturating_add(1);
        }
        true
    }
}

// Counts the events of a pool.
#[derive(Drop)]
struct Counting {
    took: AtomicU64,
    committed: AtomicU64,
    met: AtomicU64,
}

impl Gate for Counting {
    fn pass(&self, worker: usize, event: GateEvent) {
        let _ = worker;
        match event {
            GateEvent::Took => self.took.fetch_add(1, Ordering::SeqCst),
            GateEvent::Committed => self.committed.fetch_add(1, Ordering::SeqCst),
            GateEvent::Met => self.met.fetch_add(1, Ordering::SeqCst),
            GateEvent::Resting => 0,
        };
    }
}

#[test]
fn jobs_are_accepted_and_counted(rt: HostRuntime) -> Result<(), Fail> {
    for (wide, workers) in [(1000, 1), (1000, 4), (1000, 64), (1, 64), (3, 64)] {
        let gate = Counting {
            took: AtomicU64::new(0),
            committed: AtomicU64::new(0),
            met: AtomicU64::new(0),
        };
        let all = (1000, wide, Want::Nowhere);
        let (taken, counts) = run_jobs(&rt, rt.alloc(), all, workers, &gate)?;
        assert_eq!(rt; taken, 1000);
        assert_eq!(rt; counts.len(), workers);
        assert_eq!(rt; gate.took.load(Ordering::SeqCst), 1000);
        assert_eq!(rt; gate.committed.load(Ordering::SeqCst), 1000);
        assert!(rt; gate.met.load(Ordering::SeqCst) > 0);
    }
    Ok(())
}

#[test]
fn out_of_memory_ends_all(rt: HostRuntime) {
    for want in [Want::InTurn, Want::InWork] {
        for (wide, workers) in [(1000, 1), (1000, 64), (1, 64)] {
            let all = (1000, wide, want);
            assert!(rt; run_jobs(&rt, rt.alloc(), all, workers, &OpenGate).is_err());
        }
    }
}

#[test]
fn nobody_sleeps_for_ever(rt: HostRuntime) -> Result<(), Fail> {
    for _ in 0..200u32 {
        let one = (100, 1, Want::Nowhere);
        let (taken, _) = run_jobs(&rt, rt.alloc(), one, 64, &OpenGate)?;
        assert_eq!(rt; taken, 100);
        let all = (1000, 1000, Want::Nowhere);
        let (taken, _) = run_jobs(&rt, rt.alloc(), all, 1, &OpenGate)?;
        assert_eq!(rt; taken, 1000);
    }
    Ok(())
}
