ghost use Rattle.std.specs.Prelude.{IfOk, List};
ghost use Rattle.std.specs.List.{AllZip};
ghost use Rattle.round_eval.specs.Jobs.{WentOn};
ghost use Rattle.round_eval.specs.Begun.{IsFor};
ghost use Rattle.round_eval.specs.declared.job.Job.{Job};

use crate::begun::{Begun, GoesOn};
use crate::engine::Engine;
use crate::job::{Done, Job};
use crate::job_run::run;
use crate::pace::Pace;
use space_step::DecodeCache;
use std::alloc::{AllocError, Global};
use std::snapshot::Snapshot;
use std::thread;
use std::thread::{SpawnError, Threads};

// The space of a job goes on in a thread that has decoded nothing.
fn run_new(alloc: Global, job: Job, pace: &Pace) -> Result<Done, AllocError>
    ensures { IfOk result (λ done. WentOn job done) }
{
    let mut cache = DecodeCache::new(alloc)?;
    run(job, pace, &mut cache)
}

// A thread for a job; where none can be started, the job is done here.
fn begin_one(rt: &impl Threads, alloc: Global, job: Job, pace: Pace) -> Begun
    ensures { IsFor job result }
{
    let promise = GoesOn(Snapshot::of(&job));
    let work = move || -> Result<Done, AllocError>
        ensures { IfOk result (λ done. WentOn job done) }
    { run_new(alloc, job, &pace) };
    match thread::spawn_with(rt, promise, work) {
        Ok(handle) => Begun::Running(handle),
        Err(SpawnError { value }) => Begun::Ended(value()),
    }
}

/// Each job in a thread of its own, started one after the other.
pub(crate) fn begin_each(
    rt: &impl Threads,
    engine: &Engine,
    jobs: Vec<Job>,
) -> Result<Vec<Begun>, AllocError>
    ensures { IfOk result (λ v. AllZip IsFor jobs.items v.items) }
{
    let mut begun = Vec::with_capacity(engine.alloc, jobs.len())?;
    for job in jobs {
        let pace = engine.pace.share()?;
        begun.push(begin_one(rt, engine.alloc, job, pace))?;
    }
    Ok(begun)
}

// What became of a job.
fn end_one(rt: &impl Threads, begun: Begun) -> Result<Done, AllocError>
    ensures { (j : Job) → IsFor j begun → IfOk result (λ done. WentOn j done) }
{
    match begun {
        Begun::Running(handle) => handle.join(rt),
        Begun::Ended(result) => result,
    }
}

/// What became of each, in order.
pub(crate) fn end_each(
    rt: &impl Threads,
    alloc: Global,
    begun: Vec<Begun>,
) -> Result<Vec<Done>, AllocError>
    ensures { (js : List Job) → AllZip IsFor js begun.items → IfOk result (λ v. AllZip WentOn js v.items) }
{
    let mut dones = Vec::with_capacity(alloc, begun.len())?;
    for one in begun {
        dones.push(end_one(rt, one)?)?;
    }
    Ok(dones)
}
