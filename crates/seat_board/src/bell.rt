use crate::rings::Rings;
use std::sync::{Condvar, Mutex, MutexGuard, Wait};
use worker_pool::{Here, Sleeper};

/// By what workers are woken that sleep. No result depends on whom it wakes.
#[derive(Drop)]
pub(crate) struct Bell {
    rings: Mutex<Rings>,
    bell: Condvar,
}

impl Bell {
    /// Nobody is here.
    pub(crate) fn new() -> Bell {
        Bell {
            rings: Mutex::new(Rings::new()),
            bell: Condvar::new(),
        }
    }

    /// One more worker is here.
    pub(crate) fn come<R: Wait>(&self, rt: &R) -> Here {
        self.rings.lock(rt).come()
    }

    /// A worker goes home, and all that sleep are woken.
    pub(crate) fn leave<R: Wait>(&self, rt: &R, worker: Here, failed: bool) {
        let ring = self.rings.lock(rt).leave(worker, failed);
        ring.sound(&self.bell);
    }

    /// How often it was rung, where memory was wanting at no worker.
    pub(crate) fn heard<R: Wait>(&self, rt: &R) -> Option<u64> {
        self.rings.lock(rt).heard()
    }

    /// A turn handed out a job: another is woken where there may be more, and the last jobs were not short.
    pub(crate) fn takes<R: Wait>(&self, rt: &R, more: bool) {
        let ring = self.rings.lock(rt).take_job(more);
        ring.sound(&self.bell);
    }

    /// A job is known to last: another is woken where there may be more.
    pub(crate) fn lasts<R: Wait>(&self, rt: &R, more: bool) {
        let ring = self.rings.lock(rt).job_lasts(more);
        ring.sound(&self.bell);
    }

    /// A job is done, which lasted or did not. Answers whether the worker is to hand in what came of it and leave the next turn to another.
    pub(crate) fn ends<R: Wait>(&self, rt: &R, lasted: bool) -> bool {
        self.rings.lock(rt).end_job(lasted)
    }

    /// Sleeps beside another worker that is awake, where there is one.
    pub(crate) fn sleep_beside<R: Wait>(&self, rt: &R, after_job: bool) {
        let mut rings = self.rings.lock(rt);
        if let Some(worker) = rings.fall_asleep_beside(after_job) {
            self.sleep(rt, rings, worker);
        }
    }

    /// Sleeps where the bell was not rung since this count was read.
    pub(crate) fn wait<R: Wait>(&self, rt: &R, heard: u64) {
        let mut rings = self.rings.lock(rt);
        if let Some(worker) = rings.fall_asleep(heard) {
            self.sleep(rt, rings, worker);
        }
    }

    // Sleeps until it is rung, or for no reason. This is the one place where a worker in a seat sleeps between its turns.
    fn sleep<R: Wait>(&self, rt: &R, rings: MutexGuard<'_, Rings>, worker: Sleeper) {
        let mut rings = rings;
        rings = self.bell.wait(rt, rings);
        rings.wake_up(worker);
    }
}
