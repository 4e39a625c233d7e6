ghost use Rattle.std.specs.Prelude.{◌≡◌, ◌<◌, ◌^◌, true, IfOk, OnErr, Some};
ghost use Rattle.worker_pool.specs.Turns.{is_idle};
ghost use Rattle.board.specs.Turns.{accepted, HandsIn, IsFinished, IsIdle, IsTurn, is_over, bare};

use crate::board::Board;
use crate::job::Job;
use crate::named::{NamedDone, NamedJob};
use crate::starts::{Start, is_kept, keep};
use space_tree::Top;
use std::alloc::AllocError;
use std::marker::Model;
use value_names::{Names, Naming, NewBook};
use worker_pool::Turn;

/// A board that names the state with which each job begins. A result whose name is that of its slot's job began with what stands in the tree, whatever its
/// bytes are; where the names differ, or there was none, bytes decide, as they do for a board. Contracts see the board.
#[derive(Drop)]
pub struct NamedBoard<J: Naming> {
    pub(crate) board: Board,
    pub(crate) names: Names<Top, J>,
    // By slot, the name of the job there.
    pub(crate) starts: Vec<Start<J>>,
}

impl<J: Naming> Model for NamedBoard<J> {
    ghost use Rattle.board.specs.Value.{Shown, coded_shown};
    ghost use Rattle.board.specs.Names.{StartsStand};

    ghost Value = { Shown };

    ghost coded = { coded_shown };

    ghost view = { λ b. b.board };

    ghost invariant = { λ b. StartsStand b.starts.items b.board };
}

impl<J: Naming> NamedBoard<J> {
    /// A board that names starts from now on, in a book of its own.
    pub(crate) fn over(board: Board, book: NewBook<Top>) -> NamedBoard<J>
        requires { book.seen.book ≡ J.book }
        ensures { result ≡ board }
    {
        let alloc = board.alloc;
        NamedBoard {
            board,
            names: book.named(),
            starts: Vec::new(alloc),
        }
    }

    /// A worker's turn, as `Board::next_turn` says, whose job has a name.
    pub(crate) fn next_turn(&mut self, worker: usize) -> Result<Turn<NamedJob<J>>, AllocError>
        ensures is { IfOk result (λ t. IsTurn worker self.old (bare (λ (j : _). j.job) t) self.new) }
        ensures over { IsFinished self.old → IfOk result (λ t. is_over (bare (λ (j : _). j.job) t) ≡ true) }
        ensures idle { IsIdle self.old → IfOk result (λ t. is_idle t ≡ true) }
        ensures err { OnErr result (self.new ≡ self.old) }
    {
        self.board.jobs_go_on();
        match self.board.next_turn(worker)? {
            Turn::Job(job) => {
                let name = self.names.name(&job.top);
                keep(&mut self.starts, job.slot, again(&name));
                Ok(Turn::Job(NamedJob { job, name }))
            }
            Turn::Met => Ok(Turn::Met),
            Turn::Rest => Ok(Turn::Rest),
            Turn::Over => Ok(Turn::Over),
        }
    }

    /// Hands in a result as `Board::hand_in` says.
    pub(crate) fn hand_in(&mut self, named: NamedDone<J>) -> bool
        ensures is { HandsIn self.old named.done result self.new }
        ensures small { accepted self.new < 2 ^ 64 }
    {
        let NamedDone { done, name } = named;
        self.board.jobs_go_on();
        let known = is_kept(&self.starts, done.slot, &name);
        self.board.hand_in_known(done, known)
    }
}

// The same name once more, where there is one.
fn again<J: Naming>(name: &Start<J>) -> Start<J>
    ensures { result ≡ name.now }
{
    match name {
        Some(name) => Some(name.again()),
        None => None,
    }
}
