// What one worker does, from its first turn to its last.
//
// No worker sleeps for ever beside a job. The first reason is proved, the others are read; `tools/sleeping_search`
// tries every interleaving of a few workers that keep these rules.
//
// 1. The last worker that is awake never falls asleep: `Attendance` keeps it (`IsWatched`), and each sleep owes it. So
//    where some sleep one is awake, until one goes home; and whoever goes home wakes all (`Attendance::leave`).
// 2. Whoever is awake comes back to the lock and takes a turn: after a job, after a turn that met, after a sleep. So a
//    job that may be taken is taken. A turn that is `Rest` changes nothing, so nothing may be taken until another
//    worker has changed the shop; and a shop answers it only while a job is out.
// 3. What may be taken grows only by a result that is handed in, and by a turn that met. Whoever did that has the lock,
//    and looks before it sleeps, or sleeps beside another that is awake and comes back soon. After a result that other
//    one has no job that is known to last (`is_crowded`); after a turn that met it has no job at all
//    (`is_beside_another`).
// 4. Who takes a job rings for one that sleeps, if there may be more. Where the last jobs were short (`is_eager`) it
//    rings once it knows that its job lasts, or else is back soon. The one that was rung for looks, and does the same.
//    Nobody is rung for while another is on its way (`rung`): that one looks at whatever there is by then.
//
// A ring is heard. A worker that sleeps was counted under the lock (`Sleeper`), and it lets the lock go and begins to
// wait in one step. Whoever rings has had the lock since its change. So a sleeper was counted before, and is woken, or
// looks later.
//
// So turns that meet, one after another, are one worker's, and no lock goes from hand to hand for each. A worker that
// its gate holds with a job in its hands keeps no other from meeting.

ghost use Rattle.std.specs.Prelude.{◌≡◌, ◌+◌, ◌^◌, ◌<◌, cond, IfOk};
ghost use Rattle.worker_pool.specs.Turns.{is_job};

use crate::desk::Desk;
use crate::hall::Hall;
use crate::shop::{Shop, Turn, Worked};
use det_host::{Gate, GateEvent};
use std::alloc::{AllocError, Global};
use std::sync::ledger::{Ledger, Share};
use std::sync::{MutexGuard, Wait};

/// A worker that has not begun: its number, and its share of both books.
#[derive(Drop)]
pub(crate) struct Worker<L: Ledger, M: Ledger> {
    pub(crate) number: usize,
    pub(crate) out: Share<L>,
    pub(crate) done: Share<M>,
    pub(crate) ghost out_is: { out.parts ≡ 1 },
    pub(crate) ghost none_out: { out.amount ≡ 0 },
    pub(crate) ghost done_is: { done.parts ≡ 1 },
    pub(crate) ghost none_done: { done.amount ≡ 0 },
}

/// A worker that has ended: it owes nothing, and so many of its results were accepted.
#[derive(Drop)]
pub(crate) struct Served<L: Ledger, M: Ledger> {
    pub(crate) count: u64,
    pub(crate) out: Share<L>,
    pub(crate) done: Share<M>,
    pub(crate) ghost out_is: { out.parts ≡ 1 },
    pub(crate) ghost none_out: { out.amount ≡ 0 },
    pub(crate) ghost done_is: { done.parts ≡ 1 },
    pub(crate) ghost counted: { done.amount ≡ count },
}

/// Serves the shop until it is over, or until memory is wanting somewhere. Whoever comes goes home, and wakes all that sleep.
pub(crate) fn serve<S: Shop, L: Ledger, M: Ledger, G: Gate, R: Wait>(
    rt: &R,
    alloc: Global,
    hall: &Hall<S, L, M>,
    gate: &G,
    worker: Worker<L, M>,
) -> Result<Served<L, M>, AllocError> {
    let here = hall.come(rt);
    let served = take_turns(rt, alloc, hall, gate, worker);
    hall.leave(rt, here, served.is_err());
    served
}

// Takes turns until the shop is over, or until memory is wanting here or at another worker.
fn take_turns<S: Shop, L: Ledger, M: Ledger, G: Gate, R: Wait>(
    rt: &R,
    alloc: Global,
    hall: &Hall<S, L, M>,
    gate: &G,
    worker: Worker<L, M>,
) -> Result<Served<L, M>, AllocError> {
    let Worker {
        number,
        mut out,
        done: mut tally,
    } = worker;
    let mut tools = S::tools(alloc)?;
    let mut count: u64 = 0;
    let mut turn = take(rt, hall, number, &mut out)?;
    for _ in rt.forever() {
        turn = match turn {
            Turn::Job(job) => {
                gate.pass(number, GateEvent::Took);
                let done = work(rt, hall, &mut tools, job)?;
                let (taken, next) = hand_in(rt, hall, number, done, &mut out, &mut tally);
                if taken {
                    count += 1;
                }
                gate.pass(number, GateEvent::Committed);
                next?
            }
            Turn::Met => {
                gate.pass(number, GateEvent::Met);
                take_again(rt, hall, number, &mut out)?
            }
            Turn::Rest => {
                gate.pass(number, GateEvent::Resting);
                wait_for_turn(rt, hall, number, &mut out)?
            }
            Turn::Over => return Ok(ended_with(count, out, tally)),
        };
    }
    unreachable!()
}

fn ended_with<L: Ledger, M: Ledger>(count: u64, out: Share<L>, done: Share<M>) -> Served<L, M>
    requires out { (out.parts ≡ 1) × (out.amount ≡ 0) }
    requires done { (done.parts ≡ 1) × (done.amount ≡ count) }
{
    Served { count, out, done }
}

// One turn under the lock.
fn take<S: Shop, L: Ledger, M: Ledger, R: Wait>(
    rt: &R,
    hall: &Hall<S, L, M>,
    number: usize,
    out: &mut Share<L>,
) -> Result<Turn<S::Job>, AllocError>
    requires { 0 < out.old.parts }
    ensures parts { out.new.parts ≡ out.old.parts }
    ensures amount { IfOk result (λ t. out.new.amount ≡ cond (is_job t) (out.old.amount + 1) out.old.amount) }
{
    let mut guard = hall.lock(rt);
    let turn = guard.turn(number, out);
    hall.leave_with(guard, turn)
}

// The turn after one that met: beside another worker that is about to take its turn, this one sleeps first.
fn take_again<S: Shop, L: Ledger, M: Ledger, R: Wait>(
    rt: &R,
    hall: &Hall<S, L, M>,
    number: usize,
    out: &mut Share<L>,
) -> Result<Turn<S::Job>, AllocError>
    requires { 0 < out.old.parts }
    ensures parts { out.new.parts ≡ out.old.parts }
    ensures amount { IfOk result (λ t. out.new.amount ≡ cond (is_job t) (out.old.amount + 1) out.old.amount) }
{
    let mut guard = hall.lock(rt);
    if guard.attendance.is_beside_another() {
        guard = hall.sleep(rt, guard);
    }
    let turn = guard.turn(number, out);
    hall.leave_with(guard, turn)
}

// A turn that is not `Rest`: the worker sleeps until there is one.
fn wait_for_turn<S: Shop, L: Ledger, M: Ledger, R: Wait>(
    rt: &R,
    hall: &Hall<S, L, M>,
    number: usize,
    out: &mut Share<L>,
) -> Result<Turn<S::Job>, AllocError>
    requires { 0 < out.old.parts }
    ensures parts { out.new.parts ≡ out.old.parts }
    ensures amount { IfOk result (λ t. out.new.amount ≡ cond (is_job t) (out.old.amount + 1) out.old.amount) }
{
    let mut guard = hall.lock(rt);
    for _ in rt.forever() {
        let turn = guard.turn(number, out);
        let Ok(Turn::Rest) = turn else {
            return hall.leave_with(guard, turn);
        };
        guard = rest(rt, hall, guard);
    }
    unreachable!()
}

// A worker that has nothing to do sleeps, unless it is the last that is awake: then it lets others have the lock, and looks again.
fn rest<'a, S: Shop, L: Ledger, M: Ledger, R: Wait>(
    rt: &R,
    hall: &'a Hall<S, L, M>,
    guard: MutexGuard<'a, Desk<S, L, M>>,
) -> MutexGuard<'a, Desk<S, L, M>> {
    if guard.attendance.has_other() {
        return hall.sleep(rt, guard);
    }
    drop(guard);
    hall.lock(rt)
}

// Does a job, which wakes another worker where it lasts and there may be more. Answers what came of it, and whether it lasted.
fn work<S: Shop, L: Ledger, M: Ledger, R: Wait>(
    rt: &R,
    hall: &Hall<S, L, M>,
    tools: &mut S::Tools,
    job: S::Job,
) -> Result<(S::Done, bool), AllocError> {
    match S::work(tools, job)? {
        Worked::Ended(done) => Ok((done, false)),
        Worked::Lasts(done) => {
            let ring = hall.lock(rt).ring_as_it_lasts();
            hall.sound(ring);
            Ok((S::go_on(tools, done)?, true))
        }
    }
}

// A result is handed in, and the next turn taken, under one lock; where the workers stand in each other's way, once the bell has rung. Answers whether
// the result was accepted.
fn hand_in<S: Shop, L: Ledger, M: Ledger, R: Wait>(
    rt: &R,
    hall: &Hall<S, L, M>,
    number: usize,
    done: (S::Done, bool),
    out: &mut Share<L>,
    tally: &mut Share<M>,
) -> (bool, Result<Turn<S::Job>, AllocError>)
    requires out { (out.old.amount ≡ 1) × (0 < out.old.parts) }
    requires part { 0 < tally.old.parts }
    ensures parts { out.new.parts ≡ out.old.parts }
    ensures amount { IfOk result.1 (λ t. out.new.amount ≡ cond (is_job t) 1 0) }
    ensures tally_parts { tally.new.parts ≡ tally.old.parts }
    ensures tally { tally.new.amount ≡ cond result.0 (tally.old.amount + 1) tally.old.amount }
    ensures small { tally.new.amount < 2 ^ 64 }
{
    let (done, lasted) = done;
    let mut guard = hall.lock(rt);
    guard.attendance.end_job(lasted);
    let taken = guard.commit(done, out, tally);
    if guard.attendance.is_crowded() {
        guard = hall.sleep(rt, guard);
    }
    let turn = guard.turn(number, out);
    (taken, hall.leave_with(guard, turn))
}
