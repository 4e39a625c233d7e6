// Where the workers of a pool meet: the lock under which the desk lies, and the bell for those that sleep. Nobody else sees the bell.

ghost use Rattle.std.specs.Prelude.{◌≡◌};
ghost use Rattle.std.specs.Sync.Mutex.{mutex_guard_value};
ghost use Rattle.worker_pool.specs.Sleeping.{IsBesideAnother};

use crate::attendance::Here;
use crate::desk::Desk;
use crate::ring::Ring;
use crate::shop::{Shop, Turn};
use std::alloc::AllocError;
use std::sync::ledger::Ledger;
use std::sync::{Condvar, Mutex, MutexGuard, Wait};

/// The desk under its lock, and the bell.
#[derive(Drop)]
pub(crate) struct Hall<S: Shop, L: Ledger, M: Ledger> {
    desk: Mutex<Desk<S, L, M>>,
    bell: Condvar,
}

impl<S: Shop, L: Ledger, M: Ledger> Hall<S, L, M> {
    /// Nobody is here.
    pub(crate) fn new(desk: Desk<S, L, M>) -> Hall<S, L, M> {
        Hall {
            desk: Mutex::new(desk),
            bell: Condvar::new(),
        }
    }

    /// The desk, once all have gone home.
    pub(crate) fn into_desk(self) -> Desk<S, L, M> {
        let Hall { desk, .. } = self;
        desk.into_inner()
    }

    /// One more worker is here.
    pub(crate) fn come<R: Wait>(&self, rt: &R) -> Here {
        self.lock(rt).attendance.come()
    }

    /// A worker goes home, and all that sleep are woken.
    pub(crate) fn leave<R: Wait>(&self, rt: &R, worker: Here, failed: bool) {
        let ring = self.lock(rt).attendance.leave(worker, failed);
        self.sound(ring);
    }

    /// Takes the lock.
    pub(crate) fn lock<R: Wait>(&self, rt: &R) -> MutexGuard<'_, Desk<S, L, M>> {
        self.desk.lock(rt)
    }

    /// Sleeps until the bell rings, or for no reason, and has the lock again then. This is the one place where a worker of a pool sleeps.
    pub(crate) fn sleep<'a, R: Wait>(
        &self,
        rt: &R,
        guard: MutexGuard<'a, Desk<S, L, M>>,
    ) -> MutexGuard<'a, Desk<S, L, M>>
        requires { IsBesideAnother (mutex_guard_value guard).attendance.asleep (mutex_guard_value guard).attendance.here }
    {
        let mut guard = guard;
        let worker = guard.attendance.fall_asleep();
        guard = self.bell.wait(rt, guard);
        guard.attendance.wake_up(worker);
        guard
    }

    /// Lets the lock go with this turn, and rings.
    pub(crate) fn leave_with(
        &self,
        guard: MutexGuard<'_, Desk<S, L, M>>,
        turn: Result<Turn<S::Job>, AllocError>,
    ) -> Result<Turn<S::Job>, AllocError>
        ensures { result ≡ turn }
    {
        let mut guard = guard;
        let ring = guard.ring_after(&turn);
        drop(guard);
        self.sound(ring);
        turn
    }

    /// Rings.
    pub(crate) fn sound(&self, ring: Ring) {
        ring.sound(&self.bell);
    }
}
