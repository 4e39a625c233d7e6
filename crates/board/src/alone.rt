ghost use Rattle.std.specs.Prelude.{◌≡◌, true, IfOk, OnOk};
ghost use Rattle.space_model.specs.Space.{is_settled};
ghost use Rattle.run_model.specs.Demand.{settle_tree};
ghost use Rattle.board.specs.Jobs.{IsNoneOut};
ghost use Rattle.board.specs.Turns.{IsOnlyOut};

use crate::board::Board;
use crate::closed::Closed;
use crate::job::Job;
use crate::working::work;
use space_step::DecodeCache;
use std::alloc::AllocError;
use std::sync::Wait;
use worker_pool::Turn;

/// Runs a board of which no job is out to its end, on this thread alone, and closes it: the tree is what the first one settles to. The one error is want
/// of memory.
pub fn run_alone<R: Wait>(rt: &R, board: Board) -> Result<Closed, AllocError>
    requires { IsNoneOut board.out }
    ensures boot { IfOk result (λ c. c.boot ≡ board.boot) }
    ensures settled { IfOk result (λ c. is_settled c.tree ≡ true) }
    ensures end { IfOk result (λ c. c.tree ≡ settle_tree board.boot) }
{
    let mut board = board;
    let mut cache = DecodeCache::new(board.alloc)?;
    for _ in rt.forever() {
        match board.next_turn(0)? {
            Turn::Job(job) => work_at(&mut board, &mut cache, job)?,
            Turn::Met => {}
            Turn::Rest => unreachable!(),
            Turn::Over => return Ok(board.close()),
        }
    }
    unreachable!()
}

// The one job that is out is worked at, and handed in.
fn work_at(board: &mut Board, cache: &mut DecodeCache, job: Job) -> Result<(), AllocError>
    requires { IsOnlyOut board.old.out job }
    ensures none { OnOk result (IsNoneOut board.new.out) }
    ensures boot { board.new.boot ≡ board.old.boot }
{
    let done = work(cache, job)?;
    board.hand_in(done);
    Ok(())
}
