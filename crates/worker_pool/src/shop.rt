// What the pool asks of a shop.

ghost use Rattle.std.specs.Prelude.{◌≡◌, ℕ, ◌+◌, ◌-◌, ◌^◌, ◌<◌, true, cond, IfOk};

use std::alloc::{AllocError, Global};

/// What a worker is to do next.
#[derive(Drop)]
pub enum Turn<J> {
    /// To work at this job, outside of the lock, and to hand in what comes of it.
    Job(J),
    /// To ask again: the turn itself did something, in which the shop's parts met.
    Met,
    /// To wait: there is nothing to do until a result is handed in.
    Rest,
    /// To go home: there is nothing to do any more.
    Over,
}

/// What a worker has done of a job.
#[derive(Drop)]
pub enum Worked<D> {
    /// All of it.
    Ended(D),
    /// Its beginning; the rest may take long.
    Lasts(D),
}

/// Work that is handed out job by job, is done outside of the lock, and whose results are taken back. Contracts see how many results were
/// accepted, how many jobs are owed (handed out, and not yet handed in), and when the shop is idle: a statement, that there is nothing to do for a worker
/// that asks.
pub trait Shop: Send + Drop {
    ghost use Rattle.worker_pool.specs.Turns.{owed_after, is_idle};

    /// What is to be done.
    type Job: Send + Drop;

    /// What comes of a job.
    type Done: Send + Drop;

    /// What each worker keeps from job to job. It never leaves its worker's thread.
    type Tools: Send + Drop;

    ghost accepted: { Self → ℕ };

    ghost owed: { Self → ℕ };

    ghost idle: { Self → Type 0 };

    /// The turn of a worker: a job, a step of the shop's own, or nothing to do, exactly where the shop is idle. That changes nothing. A shop should
    /// answer `Rest` only while a job is out, since nobody else can change that there is nothing to do. The one error is want of memory.
    fn turn(&mut self, worker: usize) -> Result<Turn<Self::Job>, AllocError>
        ensures accepted { accepted self.new ≡ accepted self.old }
        ensures owed { owed self.new ≡ owed_after result (owed self.old) }
        ensures idle { IfOk result (λ t. is_idle t ≡ true → idle self.old) }
        ensures only_idle { IfOk result (λ t. idle self.old → is_idle t ≡ true) }
        ensures same { IfOk result (λ t. is_idle t ≡ true → self.new ≡ self.old) };

    /// Whether another worker's turn may now be a job or a step. It is a hint, which wakes workers that wait: a shop that cannot tell answers true, at
    /// the cost of a look in vain for each job that lasts. One that answers false too often has fewer workers at work, and no other result.
    fn has_more(&mut self) -> bool
        ensures { self.new ≡ self.old }
    {
        true
    }

    /// The tools of one worker. The one error is want of memory.
    fn tools(alloc: Global) -> Result<Self::Tools, AllocError>;

    /// Does a job, or the beginning of one that lasts: others are woken before the worker goes on with it. The one error is want of memory.
    fn work(tools: &mut Self::Tools, job: Self::Job) -> Result<Worked<Self::Done>, AllocError>;

    /// Does the rest of a job that lasts. The one error is want of memory.
    fn go_on(tools: &mut Self::Tools, done: Self::Done) -> Result<Self::Done, AllocError>;

    /// Takes a result back, and says whether it was accepted.
    fn commit(&mut self, done: Self::Done) -> bool
        ensures accepted { accepted self.new ≡ cond result (accepted self.old + 1) (accepted self.old) }
        ensures small { accepted self.new < 2 ^ 64 }
        ensures owed { owed self.new ≡ owed self.old - 1 };
}
