// What one worker does, from its first turn to its last.
//
// No worker sleeps for ever beside a job. Turns are had under the lock of the board and workers sleep under that of the
// bell, so whatever a turn has found may be old when its worker comes to the bell. Clauses keep 1, 2, what is counted
// in 3, and 6; the rest is read. `tools/sleeping_search` tries every interleaving of a few workers that keep these
// rules.
//
// 1. The last worker that is awake never falls asleep: `Attendance` keeps it (`IsWatched`), and each sleep owes it. So
//    where some sleep one is awake, until one goes home; and whoever goes home wakes all (`Rings::leave`).
// 2. A worker with nothing to do has two turns that are `Rest`, and reads the count of rings between them. It sleeps
//    only if the count is the same then (`Rings::fall_asleep`): else it has another turn.
// 3. Each reason to look is counted, whether or not one sleeps: that a job was handed out beside which there may be
//    more (`Rings::ring`), that a worker went to sleep beside another (`fall_asleep_beside`), that one went home. So a
//    worker that stands between its second `Rest` and the bell's lock looks again.
// 4. A worker sleeps beside another only where that one is awake: after a result, one that has no job that is known to
//    last; as it comes and after a turn that met, one that has no job in its hands. That one is before a turn, or on
//    its way home, or before the bell's lock, where by 3 it finds the count raised and has another turn.
// 5. What there is to do grows only by turns. Whose turn it was has its next turn, or leaves it to another by 4, or has
//    a job. Then it rings for one that sleeps, if there may be more; where the last jobs were short (`is_eager`), once
//    it knows that its job lasts, or else it is back soon.
// 6. A turn that is `Rest` changes nothing, and comes only while a job is out: whoever has that job comes back.
//
// A ring is heard, as in a pool (`worker_pool/src/worker.rt`). So turns that meet, one after another, are one worker's.

ghost use Rattle.std.specs.Prelude.{◌≡◌, IfOk, None, Some, option_map};
ghost use Rattle.board.specs.Turns.{IsOf};
ghost use Rattle.seat_board.specs.declared.worker.Finished.{Finished as FinishedValue};
ghost use Rattle.seat_board.specs.Passes.{known};
ghost use Rattle.seat_board.specs.Seats.{IsDoneOf};
ghost use Rattle.seat_board.specs.Workers.{Follows, Goes, HasHadTurn, HasServed, IsReady, IsSame};

use crate::bell::Bell;
use crate::pass::Pass;
use crate::seat_board::SeatBoard;
use board::{Done, Job, begin, go_on};
use det_host::{Gate, GateEvent};
use space_step::DecodeCache;
use std::alloc::AllocError;
use std::sync::Wait;
use worker_pool::{Turn, Worked};

/// What came of a job, and whether it lasted.
#[derive(Drop)]
pub(crate) struct Finished {
    pub(crate) done: Done,
    pub(crate) lasted: bool,
}

// Does a job.
fn work<R: Wait>(
    rt: &R,
    bell: &Bell,
    cache: &mut DecodeCache,
    job: Job,
    more: bool,
) -> Result<Finished, AllocError>
    ensures { IfOk result (λ w. IsOf job w.done) }
{
    match begin(cache, job)? {
        Worked::Ended(done) => Ok(Finished {
            done,
            lasted: false,
        }),
        Worked::Lasts(done) => {
            bell.lasts(rt, more);
            let done = go_on(cache, done)?;
            Ok(Finished { done, lasted: true })
        }
    }
}

// Nothing to do: at the first such turn the bell is read, and if the next turn finds nothing either, the worker waits until it is rung. None where memory was wanting at another worker.
fn rest<R: Wait>(rt: &R, bell: &Bell, heard: Option<u64>) -> Option<Option<u64>> {
    let count = bell.heard(rt)?;
    match heard {
        Some(before) => {
            bell.wait(rt, before);
            Some(None)
        }
        None => Some(Some(count)),
    }
}

// A turn, in which what came of a job is handed in, if there is one. Answers, too, whether the next turn is left to another worker.
fn turn<G: Gate, R: Wait>(
    rt: &R,
    board: &SeatBoard,
    bell: &Bell,
    gate: &G,
    pass: &mut Pass,
    finished: Option<Finished>,
) -> Result<(Turn<Job>, bool), AllocError>
    requires pass { pass.old.pass.seat.table_id ≡ board.now.lock.table.shared.table_id }
    requires done { IsDoneOf (known pass.old).job (option_map (λ (w : FinishedValue). w.done) finished) }
    ensures pass { pass.new.pass.seat.table_id ≡ pass.old.pass.seat.table_id }
    ensures same { IsSame (known pass.old) (known pass.new) }
    ensures turn { IfOk result (λ a. Follows a.0 (known pass.new)) }
    ensures had { IfOk result (λ a. HasHadTurn (known pass.new)) }
{
    let number = pass.number as usize;
    let Some(Finished { done, lasted }) = finished else {
        return Ok((board.turn(rt, pass, None, false)?, false));
    };
    let aside = bell.ends(rt, lasted);
    let turn = board.turn(rt, pass, Some(done), aside)?;
    gate.pass(number, GateEvent::Committed);
    Ok((turn, aside))
}

// One turn of a worker, and its job, if the turn hands out one. None where the board is over.
fn step<G: Gate, R: Wait>(
    rt: &R,
    board: &SeatBoard,
    bell: &Bell,
    gate: &G,
    cache: &mut DecodeCache,
    pass: &mut Pass,
    finished: Option<Finished>,
    heard: &mut Option<u64>,
) -> Result<Option<Option<Finished>>, AllocError>
    requires pass { pass.old.pass.seat.table_id ≡ board.now.lock.table.shared.table_id }
    requires done { IsDoneOf (known pass.old).job (option_map (λ (w : FinishedValue). w.done) finished) }
    ensures pass { pass.new.pass.seat.table_id ≡ pass.old.pass.seat.table_id }
    ensures same { IsSame (known pass.old) (known pass.new) }
    ensures goes { IfOk result (λ o. Goes o (known pass.new)) }
    ensures had { IfOk result (λ o. HasHadTurn (known pass.new)) }
{
    let (turn, aside) = turn(rt, board, bell, gate, pass, finished)?;
    let number = pass.number as usize;
    match turn {
        Turn::Job(job) => {
            bell.takes(rt, pass.more);
            gate.pass(number, GateEvent::Took);
            *heard = None;
            let finished = work(rt, bell, cache, job, pass.more)?;
            Ok(Some(Some(finished)))
        }
        Turn::Met => {
            gate.pass(number, GateEvent::Met);
            *heard = None;
            bell.sleep_beside(rt, aside);
            Ok(Some(None))
        }
        Turn::Rest => {
            gate.pass(number, GateEvent::Resting);
            *heard = rest(rt, bell, *heard).ok_or(AllocError)?;
            Ok(Some(None))
        }
        Turn::Over => Ok(None),
    }
}

// Takes turns until the board is over.
fn take_turns<G: Gate, R: Wait>(
    rt: &R,
    board: &SeatBoard,
    bell: &Bell,
    gate: &G,
    pass: Pass,
) -> Result<Pass, AllocError>
    requires { IsReady board.now.lock.table.shared.table_id pass }
    ensures { IfOk result (λ p. HasServed board.now.lock.table.shared.table_id (known pass) p) }
{
    let mut cache = DecodeCache::new(board.alloc)?;
    let mut pass = pass;
    let mut finished = None;
    let mut heard = None;
    for _ in rt.forever() {
        let next = step(
            rt, board, bell, gate, &mut cache, &mut pass, finished, &mut heard,
        )?;
        match next {
            Some(next) => finished = next,
            None => return Ok(pass),
        }
    }
    unreachable!()
}

/// A worker takes turns until the board is over. The one error is want of memory, here or at another worker, which ends all.
pub(crate) fn serve<G: Gate, R: Wait>(
    rt: &R,
    board: &SeatBoard,
    bell: &Bell,
    gate: &G,
    pass: Pass,
) -> Result<Pass, AllocError>
    requires { IsReady board.now.lock.table.shared.table_id pass }
    ensures { IfOk result (λ p. HasServed board.now.lock.table.shared.table_id (known pass) p) }
{
    let here = bell.come(rt);
    bell.sleep_beside(rt, false);
    let served = take_turns(rt, board, bell, gate, pass);
    bell.leave(rt, here, served.is_err());
    served
}
