// What lies under the bell's lock: how often the bell was rung, and who is here.

ghost use Rattle.std.specs.Prelude.{◌≡◌, ◌+◌, ◌^◌, ◌%◌, true, IfSome};

use worker_pool::{Attendance, Here, Ring, Sleeper};

/// How often the bell was rung, and which workers are here.
#[derive(Drop)]
pub(crate) struct Rings {
    /// How often there was a reason to ring, modulo 2^64, whether or not one slept. A worker with nothing to do sleeps only where this is as it has read.
    count: u64,
    attendance: Attendance,
    /// Whether one went to sleep beside another that was awake, since the last ring: there may be jobs for which it did not look.
    left: bool,
}

impl Rings {
    /// Nobody is here.
    pub(crate) fn new() -> Rings {
        Rings {
            count: 0,
            attendance: Attendance::new(),
            left: false,
        }
    }

    // There is a reason to ring: whoever has read the count looks again before it sleeps.
    fn raise(&mut self)
        ensures count { self.new.count ≡ (self.old.count + 1) % 2 ^ 64 }
        ensures same { (self.new.attendance ≡ self.old.attendance) × (self.new.left ≡ self.old.left) }
    {
        self.count = self.count.wrapping_add(1);
    }

    // One is rung for, where there may be more to do.
    fn ring(&mut self, more: bool) -> Ring
        ensures more { more ≡ true → self.new.count ≡ (self.old.count + 1) % 2 ^ 64 }
        ensures left { self.old.left ≡ true → self.new.count ≡ (self.old.count + 1) % 2 ^ 64 }
    {
        if !(more || self.left) {
            return Ring::for_nobody();
        }
        self.raise();
        if !self.attendance.may_ring() {
            return Ring::for_nobody();
        }
        self.left = false;
        self.attendance.ring()
    }

    /// One more worker is here.
    pub(crate) fn come(&mut self) -> Here {
        self.attendance.come()
    }

    /// A worker goes home, and all that sleep are to see why: the board is over, or memory was wanting.
    pub(crate) fn leave(&mut self, worker: Here, failed: bool) -> Ring
        ensures { self.new.count ≡ (self.old.count + 1) % 2 ^ 64 }
    {
        self.raise();
        self.attendance.leave(worker, failed)
    }

    /// How often the bell was rung, where memory was wanting at no worker.
    pub(crate) fn heard(&self) -> Option<u64>
        ensures { IfSome result (λ n. n ≡ self.now.count) }
    {
        if self.attendance.has_failed() {
            return None;
        }
        Some(self.count)
    }

    /// A turn handed out a job: another is rung for where there may be more, and the last jobs were not short.
    pub(crate) fn take_job(&mut self, more: bool) -> Ring {
        self.attendance.take_job();
        if self.attendance.is_eager() {
            return self.ring(more);
        }
        Ring::for_nobody()
    }

    /// A job is known to last: another is rung for where there may be more.
    pub(crate) fn job_lasts(&mut self, more: bool) -> Ring
        ensures { more ≡ true → self.new.count ≡ (self.old.count + 1) % 2 ^ 64 }
    {
        self.attendance.job_lasts();
        self.ring(more)
    }

    /// A job is done, which lasted or did not. Answers whether the worker is to hand in what came of it and leave the next turn to another.
    pub(crate) fn end_job(&mut self, lasted: bool) -> bool {
        self.attendance.end_job(lasted);
        self.attendance.is_crowded()
    }

    /// A worker falls asleep beside another that is awake, where there is one: after a job, one that has none that is known to last; else one that has
    /// none in its hands. It leaves what there is to do to that one, which may be on its way to sleep with nothing to do: so it raises the count.
    pub(crate) fn fall_asleep_beside(&mut self, after_job: bool) -> Option<Sleeper>
        ensures { IfSome result (λ _. (self.new.count ≡ (self.old.count + 1) % 2 ^ 64) × (self.new.left ≡ true)) }
    {
        let sleeps = if after_job {
            self.attendance.is_crowded()
        } else {
            self.attendance.is_beside_another()
        };
        if !sleeps {
            return None;
        }
        self.raise();
        self.left = true;
        Some(self.attendance.fall_asleep())
    }

    /// A worker with nothing to do falls asleep, where the bell was not rung since it read the count, unless it is the last that is awake.
    pub(crate) fn fall_asleep(&mut self, heard: u64) -> Option<Sleeper>
        ensures { IfSome result (λ _. self.old.count ≡ heard) }
    {
        if self.count != heard || self.attendance.has_failed() || !self.attendance.has_other() {
            return None;
        }
        Some(self.attendance.fall_asleep())
    }

    /// A worker sleeps no longer, rung for or not.
    pub(crate) fn wake_up(&mut self, worker: Sleeper) {
        self.attendance.wake_up(worker);
    }
}
