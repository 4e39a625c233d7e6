ghost use Rattle.std.specs.Prelude.{◌≡◌, ◌≤◌, true, IfOk};
ghost use Rattle.std.specs.List.{AllZip};
ghost use Rattle.round_eval.specs.Jobs.{WentOn, events_of};

use crate::engine::Engine;
use crate::job::{Done, Job};
use crate::job_run::run;
use crate::pace::Pace;
use crate::starting::{begin_each, end_each};
use rayon::prelude::*;
use space_step::DecodeCache;
use std::alloc::{AllocError, Global};
use std::thread::Threads;

// As `run`, with the cache of the thread, if there was memory for it.
fn run_in_thread(
    job: Job,
    pace: &Pace,
    cache: &mut Result<DecodeCache, AllocError>,
) -> Result<Done, AllocError>
    ensures { IfOk result (λ done. WentOn job done) }
{
    match cache {
        Ok(cache) => run(job, pace, cache),
        Err(_) => Err(AllocError),
    }
}

// Many spaces, in pieces that are shared among the processors, each with a cache of its own.
fn run_pieces(
    rt: &(impl Threads + Sync),
    alloc: Global,
    pace: &Pace,
    jobs: Vec<Job>,
) -> Result<Vec<Done>, AllocError>
    ensures { IfOk result (λ v. AllZip WentOn jobs.items v.items) }
{
    jobs.into_par_iter()
        .with_min_len(1)
        .map_init(
            || -> Result<DecodeCache, AllocError> { DecodeCache::new(alloc) },
            |cache: &mut Result<DecodeCache, AllocError>, job: Job| -> Result<Done, AllocError>
                ensures { IfOk result (λ done. WentOn job done) }
            { run_in_thread(job, pace, cache) },
        )
        .collect::<Result<Vec<Done>, AllocError>>(rt, alloc)?
}

// As many spaces as there are processors at most: each in a thread of its own, but the last, which goes on in the caller's. The caller starts one
// after the other: of two threads that are started at once, as by halves, the host is apt to place both on one processor.
fn run_each(
    rt: &impl Threads,
    engine: &mut Engine,
    mut jobs: Vec<Job>,
) -> Result<Vec<Done>, AllocError>
    ensures { IfOk result (λ v. AllZip WentOn jobs.items v.items) }
{
    let Some(last) = jobs.pop() else {
        return Ok(Vec::new(engine.alloc));
    };
    let begun = begin_each(rt, engine, jobs)?;
    let own = run(last, &engine.pace, &mut engine.cache);
    let mut dones = end_each(rt, engine.alloc, begun)?;
    dones.push(own?)?;
    Ok(dones)
}

/// The spaces of the jobs go on side by side, by as many threads as there are processors, each with a cache of its own: each for as many local
/// events as its job says, and fewer only where what is next is none. The one error is want of memory.
pub(crate) fn run_all(
    rt: &(impl Threads + Sync),
    engine: &mut Engine,
    jobs: Vec<Job>,
) -> Result<Vec<Done>, AllocError>
    ensures { IfOk result (λ v. AllZip WentOn jobs.items v.items) }
{
    if jobs.len() > engine.processors {
        run_pieces(rt, engine.alloc, &engine.pace, jobs)
    } else {
        run_each(rt, engine, jobs)
    }
}

/// Whether one of them at least had an event.
#[tactic(auto, using(crate::proofs::Jobs::some_ran))]
pub(crate) fn any_ran(dones: &[Done]) -> bool
    ensures { result ≡ true → 1 ≤ events_of dones.now }
{
    for done in dones {
        if done.ran > 0 {
            return true;
        }
    }
    false
}
