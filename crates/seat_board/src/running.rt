ghost use Rattle.std.specs.Prelude.{◌≡◌, ◌+◌, ◌≤◌, ◌<◌, IfOk, Some, length, true, vec_len};
ghost use Rattle.std.specs.List.{All};
ghost use Rattle.space_model.specs.Space.{is_settled};
ghost use Rattle.space_model.specs.Sound.{IsSound};
ghost use Rattle.run_model.specs.Demand.{settle_tree};
ghost use Rattle.det_core.specs.Legal.{Legal};
ghost use Rattle.seat_board.specs.Desk.{cut, history_of};
ghost use Rattle.seat_board.specs.declared.seat_turn.SeatTurn.{SeatTurn as TurnValue};
ghost use Rattle.seat_board.specs.Passes.{known};
ghost use Rattle.seat_board.specs.Shares.{AreCounts, HaveEnded, IsOfWorkers};
ghost use Rattle.seat_board.specs.Workers.{AreReady, AreServed, HasServed, HasTakenIn, IsFirst, IsOfOneBoard, IsReady};

use crate::bell::Bell;
use crate::closed::{SeatClosed, SeatRun};
use crate::counting::count_turns;
use crate::pass::Pass;
use crate::seat_board::SeatBoard;
use crate::sharing::{
    bells_may_be_shared, boards_may_be_shared, ends_may_be_sent, seats_may_be_sent,
};
use crate::worker::serve;
use det_host::Gate;
use space_tree::Space;
use std::alloc::{AllocError, Global};
use std::sync::Wait;
use std::thread::{Threads, map_vec};

/// So many seats beside the first, which has given no other number: those from 1 on. At most 63. The one error is want of memory.
pub fn seats_beside(
    alloc: Global,
    board: &SeatBoard,
    first: &mut Pass,
    others: usize,
) -> Result<Vec<Pass>, AllocError>
    requires first { IsFirst board.now.lock.table.shared.table_id 0 first.old × ((known first.old).given ≡ 1) }
    requires few { others < 64 }
    ensures first { IfOk result (λ v. IsFirst board.now.lock.table.shared.table_id (vec_len v) first.new × IsOfOneBoard first.new first.old) }
    ensures given { IfOk result (λ v. ((known first.new).given ≡ 1 + vec_len v) × (length (known first.new).ended ≡ 0)) }
    ensures others { IfOk result (λ v. AreReady board.now.lock.table.shared.table_id v.items) }
    ensures count { IfOk result (λ v. vec_len v ≡ others) }
{
    let mut passes = Vec::with_capacity(alloc, others)?;
    for _ in 0..others {
        passes.push(board.split(first))?;
    }
    Ok(passes)
}

// All workers side by side, in threads of their own as far as these can be made.
fn serve_all<G: Gate, R: Threads + Wait + Sync>(
    rt: &R,
    board: &SeatBoard,
    bell: &Bell,
    gate: &G,
    seats: Vec<Pass>,
) -> Result<Vec<Result<Pass, AllocError>>, AllocError>
    requires { AreReady board.now.lock.table.shared.table_id seats.items }
    ensures len { IfOk result (λ v. vec_len v ≡ vec_len seats) }
    ensures each { IfOk result (λ v. AreServed board.now.lock.table.shared.table_id seats.items v.items) }
{
    seats_may_be_sent();
    ends_may_be_sent();
    boards_may_be_shared();
    bells_may_be_shared();
    let work = |pass: Pass| -> Result<Pass, AllocError>
        requires { IsReady board.now.lock.table.shared.table_id pass }
        ensures { IfOk result (λ p. HasServed board.entry.now.lock.table.shared.table_id (known pass) p) }
    { serve(rt, board, bell, gate, pass) };
    map_vec(rt, seats, &work)
}

/// Seat 0, which was told that the board is over, takes in all others, the last of them first, none of which has a job. The one error is one of theirs.
pub fn gather(
    board: &SeatBoard,
    first: Pass,
    others: Vec<Result<Pass, AllocError>>,
) -> Result<Pass, AllocError>
    requires first { IsFirst board.now.lock.table.shared.table_id (vec_len others) first × ((known first).over ≡ true) }
    requires others { All (λ r. IfOk r (IsReady board.now.lock.table.shared.table_id)) others.items }
    ensures taken { IfOk result (λ p. HasTakenIn (known first) others.items (known p)) }
    ensures first { IfOk result (λ p. IsFirst board.now.lock.table.shared.table_id 0 p × ((known p).over ≡ true) × IsOfOneBoard p first) }
{
    let mut others = others;
    let mut first = first;
    while let Some(one) = others.pop() {
        board.join(&mut first, one?);
    }
    Ok(first)
}

// All workers of a board, from their first turns to their last, by its first seat, which takes in the others.
fn run_to_end<R: Threads + Wait + Sync, G: Gate>(
    rt: &R,
    alloc: Global,
    board: &SeatBoard,
    first: Pass,
    workers: usize,
    gate: &G,
) -> Result<Pass, AllocError>
    requires first { IsFirst board.now.lock.table.shared.table_id 0 first × ((known first).given ≡ 1) }
    requires some { (0 < workers) × (workers < 65) }
    ensures ended { IfOk result (λ p. HaveEnded workers (known p)) }
    ensures first { IfOk result (λ p. IsFirst board.now.lock.table.shared.table_id 0 p × ((known p).over ≡ true) × IsOfOneBoard p first) }
{
    let mut first = first;
    let mut seats = seats_beside(alloc, board, &mut first, workers - 1)?;
    seats.push(first)?;
    let bell = Bell::new();
    let mut served = serve_all(rt, board, &bell, gate, seats)?;
    let Some(one) = served.pop() else {
        unreachable!()
    };
    let last = gather(board, one?, served)?;
    Ok(last)
}

/// Runs a sound tree to its end by so many workers, 1 to 64, each in a thread of its own but the first, which this thread is, on so many nodes, 1 to 64. `gate` is told of their events, outside of their turns. The
/// board began with this tree, and its last tree is what this one settles to: the workers know it by their seats, so nothing is compared and nothing is run again. The turns of each worker are in the log, each once,
/// in their order, and no other turn is; each had one at least, and the counts are theirs. The one error is want of memory. It may wait for ever, since no clause says that workers come to an end.
pub fn run_seats<R: Threads + Wait + Sync, G: Gate>(
    rt: &R,
    alloc: Global,
    space: Space,
    nodes: u32,
    link: Option<u32>,
    workers: usize,
    gate: &G,
) -> Result<SeatRun, AllocError>
    requires sound { IsSound space }
    requires nodes { (1 ≤ nodes) × (nodes ≤ 64) }
    requires some { (0 < workers) × (workers < 65) }
    ensures boot { IfOk result (λ c. (c.closed.boot ≡ space) × (c.closed.nodes ≡ nodes)) }
    ensures legal { IfOk result (λ c. Legal c.closed.nodes c.closed.boot c.closed.history.items c.closed.tree) }
    ensures log { IfOk result (λ c. history_of (cut c.closed.history.items c.turns.items) ≡ c.closed.history.items) }
    ensures seats { IfOk result (λ c. All (λ (t : TurnValue). t.seat < workers) c.turns.items) }
    ensures turns { IfOk result (λ c. IsOfWorkers workers (cut c.closed.history.items c.turns.items)) }
    ensures counts { IfOk result (λ c. AreCounts workers (cut c.closed.history.items c.turns.items) c.counts.items) }
    ensures settled { IfOk result (λ c. is_settled c.closed.tree ≡ true) }
    ensures end { IfOk result (λ c. c.closed.tree ≡ settle_tree space) }
{
    let mut counts = vec![in alloc; 0; workers]?;
    let (board, first) = SeatBoard::begin(alloc, space, nodes, link)?;
    let last = run_to_end(rt, alloc, &board, first, workers, gate)?;
    let SeatClosed { closed, turns } = board.close(last);
    count_turns(counts.as_mut_slice(), turns.as_slice());
    Ok(SeatRun {
        closed,
        turns,
        counts,
    })
}
