ghost use Rattle.std.specs.Prelude.{IfOk};
ghost use Rattle.board.specs.Turns.{Begins, GoesOn, IsOf};

use crate::done::Done;
use crate::job::Job;
use space_step::{DecodeCache, run_local};
use std::alloc::AllocError;
use worker_pool::Worked;

/// How many local events a worker lets a space have before it hands the space in again.
pub const QUANTUM: u32 = 1_048_576;

/// How many local events a space has had where its job is one that lasts: some microseconds.
pub const FIRST_EVENTS: u32 = 2_048;

/// Lets the space of a job have its first events. The job lasts where what is next may be another.
pub fn begin(cache: &mut DecodeCache, job: Job) -> Result<Worked<Done>, AllocError>
    ensures { IfOk result (λ w. Begins job w) }
{
    let Job {
        slot,
        ticket,
        path,
        top,
    } = job;
    let mut run = run_local(Box::into_inner(top), path.len() as u8, FIRST_EVENTS, cache)?;
    let lasts = run.ran() == FIRST_EVENTS;
    if !lasts {
        run.freeze()?;
    }
    let done = Done {
        slot,
        ticket,
        path,
        run,
    };
    Ok(if lasts {
        Worked::Lasts(done)
    } else {
        Worked::Ended(done)
    })
}

/// Lets the space of a job that lasts go on to the end of the quantum.
pub fn go_on(cache: &mut DecodeCache, done: Done) -> Result<Done, AllocError>
    ensures { IfOk result (λ d. GoesOn done d) }
{
    let Done {
        slot,
        ticket,
        path,
        mut run,
    } = done;
    let left = QUANTUM.saturating_sub(run.ran());
    if left > 0 {
        run = run.go_on(left, cache)?;
    }
    run.freeze()?;
    Ok(Done {
        slot,
        ticket,
        path,
        run,
    })
}

/// Lets the space of a job go on: it has as many local events as a quantum, or fewer where what is next is no local event. What comes of it names the
/// job's slot, ticket and path, and begins with the job's state. What the space wrote is made shareable here, so that the next job for it costs no more under
/// the lock. The one error is want of memory.
pub fn work(cache: &mut DecodeCache, job: Job) -> Result<Done, AllocError>
    ensures { IfOk result (λ d. IsOf job d) }
{
    match begin(cache, job)? {
        Worked::Ended(done) => Ok(done),
        Worked::Lasts(done) => go_on(cache, done),
    }
}
