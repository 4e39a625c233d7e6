ghost use Rattle.std.specs.Prelude.{◌≡◌, ◌<◌, true, IfOk};
ghost use Rattle.std.specs.Thread.{IsSend};
ghost use Rattle.space_model.specs.Space.{is_settled};
ghost use Rattle.space_model.specs.Sound.{IsSound};
ghost use Rattle.run_model.specs.Demand.{settle_tree};
ghost use Rattle.det_core.specs.Legal.{Legal};
ghost use Rattle.board.specs.Turns.{accepted};

use crate::board::Board;
use crate::closed::Closed;
use crate::named_board::NamedBoard;
use crate::starts::Start;
use det_host::Gate;
use space_tree::Top;
use std::alloc::AllocError;
use std::marker::Brand;
use std::sync::Wait;
use std::thread::Threads;
use value_names::{Names, Naming, NewBook};
use worker_pool::run_pool;

/// Runs a board to which nothing was handed in yet by so many workers, 1 to 64, and closes it. `gate` is told of their events. What comes out of the lock is
/// known by its type: a board whose history leads from the tree that it began with, wherever that is settled, to what that one settles to. That it began
/// with the board's own tree is for the caller to look at. The one error is want of memory. It may wait for ever, since no clause says that workers come to an end.
pub fn run_together<R: Threads + Wait + Sync, G: Gate>(
    rt: &R,
    board: Board,
    workers: usize,
    gate: &G,
) -> Result<Closed, AllocError>
    requires new { (accepted board ≡ 0) × (board.owed ≡ 0) }
    requires some { (0 < workers) × (workers < 65) }
    ensures legal { IfOk result (λ c. IsSound c.boot × Legal c.nodes c.boot c.history.items c.tree) }
    ensures end { IfOk result (λ c. is_settled c.tree ≡ true → c.tree ≡ settle_tree c.boot) }
{
    run_named::<Brand, G, R>(rt, board, NewBook::open(), workers, gate)
}

// That values of a type may be sent to a thread: a fact that the goals behind it can cite.
fn may_be_sent<T: Send>()
    ensures { IsSend T.row }
{}

// The same, shown where the type is implemented, and not where it is asked for.
trait Sent {
    fn may_be_sent()
        ensures { IsSend Self.row };
}

// For a named board it is shown where there is no other type parameter than the one for its book.
impl<J: Naming + Send> Sent for NamedBoard<J> {
    ghost use Rattle.std.specs.Thread.{IsSend};

    fn may_be_sent() {
        may_be_sent::<Board>();
        may_be_sent::<Names<Top, J>>();
        may_be_sent::<Vec<Start<J>>>();
        may_be_sent::<NamedBoard<J>>();
    }
}

// As `run_together`, with a new book for the names of starts.
fn run_named<J: Naming + Send, G: Gate, R: Threads + Wait + Sync>(
    rt: &R,
    board: Board,
    book: NewBook<Top>,
    workers: usize,
    gate: &G,
) -> Result<Closed, AllocError>
    requires book { book.seen.book ≡ J.book }
    requires new { (accepted board ≡ 0) × (board.owed ≡ 0) }
    requires some { (0 < workers) × (workers < 65) }
    ensures legal { IfOk result (λ c. IsSound c.boot × Legal c.nodes c.boot c.history.items c.tree) }
    ensures end { IfOk result (λ c. is_settled c.tree ≡ true → c.tree ≡ settle_tree c.boot) }
{
    NamedBoard::<J>::may_be_sent();
    let alloc = board.alloc;
    let named: NamedBoard<J> = NamedBoard::over(board, book);
    let (named, _) = run_pool(rt, alloc, named, workers, gate)?;
    let NamedBoard { board, .. } = named;
    Ok(board.close())
}
