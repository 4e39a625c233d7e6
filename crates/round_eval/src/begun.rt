ghost use Rattle.std.specs.Prelude.{IfOk};
ghost use Rattle.round_eval.specs.Jobs.{WentOn};

use crate::job::{Done, Job};
use std::alloc::AllocError;
use std::snapshot::Snapshot;
use std::thread::{Promise, PromisedHandle};

/// That what a thread gives is what became of its job, or want of memory.
#[derive(Drop)]
pub(crate) struct GoesOn(pub(crate) Snapshot<Job>);

impl Promise<Result<Done, AllocError>> for GoesOn {
    ghost kept_by = { λ p r. IfOk r (λ done. WentOn p.0.value done) };
}

/// A job that was begun.
#[derive(Drop)]
pub(crate) enum Begun {
    /// By a thread that is to be joined.
    Running(PromisedHandle<Result<Done, AllocError>, GoesOn>),
    /// By the caller's thread, since no other could be started: this became of it.
    Ended(Result<Done, AllocError>),
}
