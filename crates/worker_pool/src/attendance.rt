ghost use Rattle.std.specs.Prelude.{◌≡◌, ◌+◌, ◌<◌, true, false};
ghost use Rattle.worker_pool.specs.Sleeping.{IsBesideAnother, IsWatched};
ghost use Rattle.worker_pool.specs.declared.ring.Whom.TheVariants.{All, One};

use crate::ring::{Ring, Whom};

/// How many jobs that did not last come one after another before workers are woken with less haste.
const FEW_SHORT: u32 = 8;

/// How many short jobs are done from one ring to the next then.
const BETWEEN_RINGS: u32 = 64;

/// A worker that is here. It is not `Drop`, so whoever has it goes home by `Attendance::leave`.
pub struct Here {
    counted: (),
}

/// A worker that is counted among those asleep. It is not `Drop`, so whoever has it wakes up by `Attendance::wake_up`.
pub struct Sleeper {
    counted: (),
}

/// Which workers are here, asleep and at work. It lies under a lock that all workers take. By it they decide when one sleeps, and whether one that
/// sleeps is rung for. Results do not depend on it.
#[derive(Drop)]
pub struct Attendance {
    /// How many workers have come, and have not gone home.
    here: usize,
    /// How many of them wait for the bell.
    asleep: usize,
    /// Whether one of them was rung for and has not woken up yet.
    rung: bool,
    /// How many of them have jobs in their hands, which they have taken and not ended.
    busy: usize,
    /// How many of these jobs are known to last.
    lasting: usize,
    /// How many jobs have ended, since one lasted, that did not.
    short: u32,
    /// Whether memory was wanting at a worker, which ends all.
    failed: bool,
    /// Whether a worker has gone home, and all were rung for.
    ended: bool,
    ghost watched: { IsWatched ended asleep here },
}

impl Attendance {
    /// Nobody is here.
    pub fn new() -> Attendance {
        Attendance {
            here: 0,
            asleep: 0,
            rung: false,
            busy: 0,
            lasting: 0,
            short: 0,
            failed: false,
            ended: false,
        }
    }

    /// One more worker is here.
    pub fn come(&mut self) -> Here {
        self.here = self.here.saturating_add(1);
        Here { counted: () }
    }

    /// A worker goes home, because there is nothing to do any more, or because memory was wanting. All that sleep are to see why.
    pub fn leave(&mut self, worker: Here, failed: bool) -> Ring
        ensures all { 0 < self.old.asleep → result.whom ≡ All }
        ensures told { failed ≡ true → self.new.failed ≡ true }
    {
        let Here { counted: _ } = worker;
        self.ended = true;
        self.failed = self.failed || failed;
        self.here = self.here.saturating_sub(1);
        if self.asleep > 0 {
            return Ring { whom: Whom::All };
        }
        Ring::for_nobody()
    }

    /// Whether memory was wanting at a worker.
    pub fn has_failed(&self) -> bool {
        self.failed
    }

    /// A worker has a job in its hands.
    pub fn take_job(&mut self) {
        self.busy = self.busy.saturating_add(1);
    }

    /// A job is known to last.
    pub fn job_lasts(&mut self) {
        self.lasting = self.lasting.saturating_add(1);
        self.short = 0;
    }

    /// A job has ended, which lasted or did not.
    pub fn end_job(&mut self, lasted: bool) {
        self.busy = self.busy.saturating_sub(1);
        if lasted {
            self.lasting = self.lasting.saturating_sub(1);
        } else {
            self.short = self.short.wrapping_add(1);
        }
    }

    /// A worker begins to wait for the bell. It is never the last that is awake.
    pub fn fall_asleep(&mut self) -> Sleeper
        requires { IsBesideAnother self.old.asleep self.old.here }
    {
        self.asleep = self.asleep.saturating_add(1);
        Sleeper { counted: () }
    }

    /// A worker waits no longer, rung for or not.
    pub fn wake_up(&mut self, worker: Sleeper) {
        let Sleeper { counted: _ } = worker;
        self.asleep = self.asleep.saturating_sub(1);
        self.rung = false;
    }

    /// Whether one may be rung for: one sleeps, and nobody is on the way already.
    pub fn may_ring(&self) -> bool
        ensures { 0 < self.now.asleep → self.now.rung ≡ false → result ≡ true }
    {
        self.asleep > 0 && !self.rung
    }

    /// One that sleeps is rung for, where nobody is on the way already.
    pub fn ring(&mut self) -> Ring
        ensures { 0 < self.old.asleep → self.old.rung ≡ false → result.whom ≡ One }
    {
        if self.may_ring() {
            self.rung = true;
            return Ring { whom: Whom::One };
        }
        Ring::for_nobody()
    }

    /// Whether it pays to ring for another worker right when a job is taken: while few jobs were short, and then at times, since what waits beside the
    /// short jobs may last.
    pub fn is_eager(&self) -> bool {
        self.short < FEW_SHORT || self.short % BETWEEN_RINGS == 0
    }

    /// Whether a worker whose job has ended is to sleep though there may be more: where the last jobs were short, workers that come one after another
    /// for such do no more than one. Another is awake then, and has no job that is known to last: it comes back at once, or rings when it finds that
    /// its job lasts.
    pub fn is_crowded(&self) -> bool
        ensures { result ≡ true → IsBesideAnother self.now.asleep self.now.here }
    {
        self.short >= FEW_SHORT && self.is_awake_beside(self.lasting)
    }

    /// Whether another worker is awake, and has no job in its hands: it is about to take its turn.
    pub fn is_beside_another(&self) -> bool
        ensures { result ≡ true → IsBesideAnother self.now.asleep self.now.here }
    {
        self.is_awake_beside(self.busy)
    }

    /// Whether another worker is awake.
    pub fn has_other(&self) -> bool
        ensures { result ≡ true → IsBesideAnother self.now.asleep self.now.here }
    {
        self.here.saturating_sub(self.asleep) > 1
    }

    // Whether another worker is awake beside so many that need not come back soon.
    fn is_awake_beside(&self, others: usize) -> bool
        ensures { result ≡ true → IsBesideAnother self.now.asleep self.now.here }
    {
        let awake = self.here.saturating_sub(self.asleep).saturating_sub(others);
        !self.failed && awake > 1
    }
}
