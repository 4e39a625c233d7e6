// What lies under the lock.

ghost use Rattle.std.specs.Prelude.{◌≡◌, ◌+◌, ◌^◌, ◌<◌, cond, IfOk, OnErr};
ghost use Rattle.worker_pool.specs.Turns.{is_job};

use crate::attendance::Attendance;
use crate::ring::Ring;
use crate::shop::{Shop, Turn};
use std::alloc::AllocError;
use std::sync::ledger::{Book, Ledger, Share};

/// Lies under the lock: the shop, beside the books of the jobs that are out and of what was accepted, and which workers are here.
#[derive(Drop)]
pub(crate) struct Desk<S: Shop, L: Ledger, M: Ledger> {
    pub(crate) shop: S,
    pub(crate) out: Book<L>,
    pub(crate) done: Book<M>,
    pub(crate) attendance: Attendance,
    pub(crate) ghost owed_is: { S.owed shop ≡ out.total },
    pub(crate) ghost accepted_is: { S.accepted shop ≡ done.total },
}

impl<S: Shop, L: Ledger, M: Ledger> Desk<S, L, M> {
    /// The turn of a worker, whose job is noted in its share. The one error is want of memory, here or at another worker before.
    pub(crate) fn turn(
        &mut self,
        worker: usize,
        mine: &mut Share<L>,
    ) -> Result<Turn<S::Job>, AllocError>
        requires { 0 < mine.old.parts }
        ensures parts { mine.new.parts ≡ mine.old.parts }
        ensures amount { IfOk result (λ t. mine.new.amount ≡ cond (is_job t) (mine.old.amount + 1) mine.old.amount) }
        ensures err { OnErr result (mine.new.amount ≡ mine.old.amount) }
    {
        if self.attendance.has_failed() {
            return Err(AllocError);
        }
        let turn = self.noted(worker, mine)?;
        match &turn {
            Turn::Job(_) => self.attendance.take_job(),
            _ => {}
        }
        Ok(turn)
    }

    // The shop's turn, whose job is noted.
    fn noted(&mut self, worker: usize, mine: &mut Share<L>) -> Result<Turn<S::Job>, AllocError>
        requires { 0 < mine.old.parts }
        ensures parts { mine.new.parts ≡ mine.old.parts }
        ensures amount { IfOk result (λ t. mine.new.amount ≡ cond (is_job t) (mine.old.amount + 1) mine.old.amount) }
        ensures err { OnErr result (mine.new.amount ≡ mine.old.amount) }
    {
        let Desk { shop, out, .. } = self;
        let turn = shop.turn(worker)?;
        match &turn {
            Turn::Job(_) => out.add(mine, 1),
            _ => {}
        }
        Ok(turn)
    }

    /// Takes a result back, which is taken off what is out, and counts it where it is accepted.
    pub(crate) fn commit(
        &mut self,
        done: S::Done,
        mine: &mut Share<L>,
        tally: &mut Share<M>,
    ) -> bool
        requires out { 0 < mine.old.amount }
        requires part { 0 < tally.old.parts }
        ensures parts { mine.new.parts ≡ mine.old.parts }
        ensures amount { mine.new.amount + 1 ≡ mine.old.amount }
        ensures tally_parts { tally.new.parts ≡ tally.old.parts }
        ensures tally { tally.new.amount ≡ cond result (tally.old.amount + 1) tally.old.amount }
        ensures small { tally.new.amount < 2 ^ 64 }
    {
        let Desk {
            shop,
            out,
            done: accepted,
            ..
        } = self;
        out.audit(mine);
        out.sub(mine, 1);
        let taken = shop.commit(done);
        if taken {
            accepted.add(tally, 1);
        }
        accepted.audit(tally);
        taken
    }

    /// A worker's job lasts: another is rung for.
    pub(crate) fn ring_as_it_lasts(&mut self) -> Ring {
        self.attendance.job_lasts();
        self.ring_beside()
    }

    // The ring of a worker with a job: for one other where there may be more, and where nobody is on the way already.
    fn ring_beside(&mut self) -> Ring {
        if !self.attendance.may_ring() || !self.shop.has_more() {
            return Ring::for_nobody();
        }
        self.attendance.ring()
    }

    /// The ring of a worker that leaves the lock with this turn. One that took a job rings where it pays now, and else if the job lasts; one that met
    /// asks again itself; one that goes home rings as it leaves.
    pub(crate) fn ring_after(&mut self, turn: &Result<Turn<S::Job>, AllocError>) -> Ring {
        match turn {
            Ok(Turn::Job(_)) if self.attendance.is_eager() => self.ring_beside(),
            _ => Ring::for_nobody(),
        }
    }
}
