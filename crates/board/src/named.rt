ghost use Rattle.std.specs.Prelude.{◌≡◌, Some};
ghost use Rattle.std.specs.Option.{ForSome};

use crate::done::Done;
use crate::job::Job;
use crate::starts::Start;
use crate::working::{begin, go_on};
use space_step::DecodeCache;
use std::alloc::AllocError;
use value_names::Naming;
use worker_pool::Worked;

/// A job with a name for the state that it begins with, where it could be given one.
#[derive(Drop)]
pub struct NamedJob<J: Naming> {
    pub(crate) job: Job,
    pub(crate) name: Start<J>,
    pub(crate) ghost named: { ForSome name (λ n. n ≡ Some job.top.value) },
}

/// What became of such a job, with the name for the state that it began with.
#[derive(Drop)]
pub struct NamedDone<J: Naming> {
    pub(crate) done: Done,
    pub(crate) name: Start<J>,
    pub(crate) ghost named: { ForSome name (λ n. n ≡ Some (let run = done.run in run.start)) },
}

/// Works at a named job as `begin` does.
pub(crate) fn begin_named<J: Naming>(
    cache: &mut DecodeCache,
    named: NamedJob<J>,
) -> Result<Worked<NamedDone<J>>, AllocError> {
    let NamedJob { job, name } = named;
    match begin(cache, job)? {
        Worked::Ended(done) => Ok(Worked::Ended(NamedDone { done, name })),
        Worked::Lasts(done) => Ok(Worked::Lasts(NamedDone { done, name })),
    }
}

/// Goes on with a named job as `go_on` does.
pub(crate) fn go_on_named<J: Naming>(
    cache: &mut DecodeCache,
    named: NamedDone<J>,
) -> Result<NamedDone<J>, AllocError> {
    let NamedDone { done, name } = named;
    let done = go_on(cache, done)?;
    Ok(NamedDone { done, name })
}
