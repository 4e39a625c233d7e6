// That seats may go to other threads, and that these may share a board and its bell: facts that the goals behind a call can cite. Each is shown in a function without type parameters.

ghost use Rattle.std.specs.Thread.{IsSend, IsSync};
ghost use Rattle.seat_board.specs.contracts.pass.Pass as pass;
ghost use Rattle.seat_board.specs.contracts.seat_board.SeatBoard as board;
ghost use Rattle.seat_board.specs.contracts.bell.Bell as bell;
ghost use Rattle.std.specs.contracts.result.Result as outcome;
ghost use Rattle.std.specs.contracts.alloc.AllocError as refused;

use crate::beginning::Beginning;
use crate::bell::Bell;
use crate::desk::Desk;
use crate::known::Known;
use crate::pass::Pass;
use crate::seat_board::SeatBoard;
use crate::seat_turn::SeatTurn;
use crate::seats::Seats;
use board::Board;
use std::alloc::AllocError;
use ticket_lock::TicketLock;

fn may_be_sent<T: Send>()
    ensures { IsSend T.row }
{}

fn may_be_shared<T: Sync>()
    ensures { IsSync T.row }
{}

/// A seat may go to another thread.
pub(crate) fn seats_may_be_sent()
    ensures { IsSend pass.the_row }
{
    may_be_sent::<Board>();
    may_be_sent::<Desk>();
    may_be_sent::<ticket_lock::Pass<Desk, Known>>();
    may_be_sent::<Pass>();
}

/// What a worker leaves may come back from its thread.
pub(crate) fn ends_may_be_sent()
    ensures { IsSend (outcome.the_row pass.the_row refused.the_row) }
{
    seats_may_be_sent();
    may_be_sent::<Result<Pass, AllocError>>();
}

/// Threads may share a board.
pub(crate) fn boards_may_be_shared()
    ensures { IsSync board.the_row }
{
    may_be_sent::<Board>();
    may_be_sent::<Vec<SeatTurn>>();
    may_be_sent::<Desk>();
    may_be_shared::<TicketLock<Desk, Known, Beginning, Seats>>();
    may_be_shared::<SeatBoard>();
}

/// Threads may share a bell.
pub(crate) fn bells_may_be_shared()
    ensures { IsSync bell.the_row }
{
    may_be_shared::<Bell>();
}
