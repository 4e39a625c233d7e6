ghost use Rattle.std.specs.Prelude.{◌≡◌, ℕ, ◌+◌, ◌≤◌, ◌<◌, [], ◌∷◌, IfOk, IfSome, None, Some, true, length};
ghost use Rattle.std.specs.List.{All};
ghost use Rattle.space_model.specs.Space.{is_settled};
ghost use Rattle.space_model.specs.Sound.{IsSound};
ghost use Rattle.run_model.specs.Demand.{settle_tree};
ghost use Rattle.det_core.specs.Legal.{Legal};
ghost use Rattle.ticket_lock.specs.Passes.{IsInTurn};
ghost use Rattle.board.specs.declared.job.Out.{Out as OutJob};
ghost use Rattle.board.specs.Steps.{IsOfJob};
ghost use Rattle.board.specs.Value.{begun};
ghost use Rattle.seat_board.specs.Held.{Ended};
ghost use Rattle.seat_board.specs.Desk.{Desk as DeskValue, cut, history_of, turns_of};
ghost use Rattle.seat_board.specs.Seats.{EachOnce, IsDoneOf, counted_up, newcomer, numbers, taken_in};
ghost use Rattle.seat_board.specs.Beginnings.{seat_0};
ghost use Rattle.seat_board.specs.Passes.{Answers, HasTurn, known, noted};

use crate::beginning::Beginning;
use crate::closed::SeatClosed;
use crate::desk::Desk;
use crate::known::Known;
use crate::pass::Pass;
use crate::seats::{Newcomer, Seats, TakesIn};
use board::{Board, Done, Job};
use space_tree::{Space, copy_tree};
use std::alloc::{AllocError, Global};
use std::sync::Wait;
use ticket_lock::TicketLock;
use worker_pool::Turn;

/// A board whose workers have seats: each takes its turns in the order of its tickets, and knows by its seat what it owns of the board. So no job's start is compared when what came of it is handed in, and
/// nothing is compared at the end.
#[derive(Drop)]
pub struct SeatBoard {
    pub(crate) lock: TicketLock<Desk, Known, Beginning, Seats>,
    pub(crate) alloc: Global,
}

// A board on which nothing has happened, with its first seat.
fn over(alloc: Global, board: Board, beginning: &Beginning) -> Result<(SeatBoard, Pass), AllocError>
    requires { board ≡ begun beginning.now.boot beginning.now.nodes }
    ensures pass { IfOk result (λ made. made.1.pass.seat.table_id ≡ made.0.lock.table.shared.table_id) }
    ensures known { IfOk result (λ made. known made.1 ≡ seat_0 beginning.now.boot beginning.now.nodes) }
{
    let desk = Desk::of(board, Vec::new(alloc));
    let (lock, pass) = TicketLock::new(alloc, desk, beginning)?;
    Ok((
        SeatBoard { lock, alloc },
        Pass {
            pass,
            number: 0,
            given: 1,
            more: false,
        },
    ))
}

// A board that begins in this way.
fn begin_as(
    alloc: Global,
    space: Space,
    beginning: &Beginning,
    link: Option<u32>,
) -> Result<(SeatBoard, Pass), AllocError>
    requires sound { IsSound space × (space ≡ beginning.now.boot) }
    requires nodes { (1 ≤ beginning.now.nodes) × (beginning.now.nodes ≤ 64) }
    ensures pass { IfOk result (λ made. made.1.pass.seat.table_id ≡ made.0.lock.table.shared.table_id) }
    ensures known { IfOk result (λ made. known made.1 ≡ seat_0 beginning.now.boot beginning.now.nodes) }
{
    let nodes = beginning.nodes;
    let board = match link {
        Some(seed) => Board::begin_linked(alloc, space, nodes, seed)?,
        None => Board::begin(alloc, space, nodes)?,
    };
    over(alloc, board, beginning)
}

impl SeatBoard {
    /// A board over a sound tree, which is the tree that it begins with and the tree that it has, on so many nodes, 1 to 64, between which parcels go over links that lose, repeat and reorder where
    /// there is a seed for them. With it comes seat 0. The one error is want of memory.
    pub fn begin(
        alloc: Global,
        space: Space,
        nodes: u32,
        link: Option<u32>,
    ) -> Result<(SeatBoard, Pass), AllocError>
        requires sound { IsSound space }
        requires nodes { (1 ≤ nodes) × (nodes ≤ 64) }
        ensures pass { IfOk result (λ made. made.1.pass.seat.table_id ≡ made.0.lock.table.shared.table_id) }
        ensures known { IfOk result (λ made. known made.1 ≡ seat_0 space nodes) }
    {
        let mut space = space;
        let boot = copy_tree(alloc, &mut space)?;
        let beginning = Beginning::of(boot, nodes);
        let made = begin_as(alloc, space, &beginning, link);
        beginning.forget();
        made
    }

    // What a seat does with the desk in its turn. Answers, too, whether another seat's turn may now be a job.
    fn act(
        &self,
        pass: &mut ticket_lock::Pass<Desk, Known>,
        number: u32,
        done: Option<Done>,
        aside: bool,
    ) -> (Result<Turn<Job>, AllocError>, bool)
        requires pass { pass.old.seat.table_id ≡ self.now.lock.table.shared.table_id }
        requires turn { (found : DeskValue) × IsInTurn found found pass.old.seat.me × IfSome done (λ d. (o : OutJob) × IsOfJob found.board d o) }
        ensures pass { (pass.new.seat.table_id ≡ pass.old.seat.table_id) × (pass.new.seat.id ≡ pass.old.seat.id) × (pass.new.seat.me.0 ≡ pass.old.seat.me.0) }
        ensures turn { (found : DeskValue) → pass.old.seat.me.1 ≡ (0, found) ∷ [] → (given : DeskValue) × (pass.new.seat.me.1 ≡ (0, given) ∷ []) × Answers number done found result.0 given }
    {
        let desk = pass.seat.slot_mut(&self.lock.table.shared, 0);
        let turn = desk.turn(number, done, aside);
        let more = desk.has_more(&turn);
        (turn, more)
    }

    /// A seat's turn. What came of its job is handed in exactly where it has one; `aside` leaves all else to other seats then. The turn is the board's (`Board::next_turn`), for the worker of the seat's number, on the board as it is once that is taken in; it
    /// and what it added to the history are the last in the log. The seat's job is the one that the turn hands out; behind any other answer it has none. The one error is want of memory: then the seat's job is
    /// out no longer, its space stands where it stood, and later turns go on as ever. It may wait for ever: no clause says that the turns before it end.
    pub fn turn<R: Wait>(
        &self,
        rt: &R,
        pass: &mut Pass,
        done: Option<Done>,
        aside: bool,
    ) -> Result<Turn<Job>, AllocError>
        requires pass { pass.old.pass.seat.table_id ≡ self.now.lock.table.shared.table_id }
        requires done { IsDoneOf (known pass.old).job done }
        ensures pass { pass.new.pass.seat.table_id ≡ pass.old.pass.seat.table_id }
        ensures turn { HasTurn (known pass.old) done result (noted pass.new) (known pass.new) }
    {
        let number = pass.number;
        let held = &mut pass.pass;
        self.lock.begin(rt, held);
        let (turn, more) = self.act(held, number, done, aside);
        self.lock.end(held);
        pass.more = more;
        turn
    }

    /// Another seat, with the next number, which knows what seat 0 knows of how the board began.
    pub fn split(&self, pass: &mut Pass) -> Pass
        requires pass { pass.old.pass.seat.table_id ≡ self.now.lock.table.shared.table_id }
        requires first { ((known pass.old).number ≡ 0) × ((known pass.old).given < 64) }
        ensures pass { (pass.new.pass.seat.table_id ≡ pass.old.pass.seat.table_id) × (result.pass.seat.table_id ≡ pass.old.pass.seat.table_id) }
        ensures known { (known pass.new ≡ counted_up (known pass.old)) × (known result ≡ newcomer (known pass.old)) }
        ensures noted { noted pass.new ≡ noted pass.old }
    {
        let number = pass.given;
        let other = self.lock.split::<Newcomer>(&mut pass.pass);
        pass.given += 1;
        Pass {
            pass: other,
            number,
            given: 0,
            more: false,
        }
    }

    /// Seat 0 takes in another seat, which has no job: its number and its turns are among those that have ended.
    pub fn join(&self, pass: &mut Pass, other: Pass)
        requires pass { (pass.old.pass.seat.table_id ≡ self.now.lock.table.shared.table_id) × (other.pass.seat.table_id ≡ self.now.lock.table.shared.table_id) }
        requires first { (known pass.old).number ≡ 0 }
        requires idle { (known other).job ≡ None }
        ensures pass { pass.new.pass.seat.table_id ≡ pass.old.pass.seat.table_id }
        ensures known { known pass.new ≡ taken_in (known pass.old) (known other) }
        ensures noted { noted pass.new ≡ noted pass.old }
    {
        let Pass { pass: other, .. } = other;
        self.lock.join::<TakesIn>(&mut pass.pass, other);
    }

    /// Closes the board, by seat 0, once each other number that it has given has ended. The history is legal, and is the turns of the log, one behind the other. Each number below the count is that of seat 0 or of one
    /// that has ended, once; its turns are as its seat knew them, and no number from the count on has any. Where one of the seats was told that the board is over, the tree is settled.
    pub fn close(self, pass: Pass) -> SeatClosed
        requires pass { pass.pass.seat.table_id ≡ self.lock.table.shared.table_id }
        requires first { ((known pass).number ≡ 0) × ((known pass).given ≡ 1 + length (known pass).ended) }
        requires idle { (known pass).job ≡ None }
        ensures boot { ((known pass).boot ≡ Some result.closed.boot) × ((known pass).nodes ≡ result.closed.nodes) }
        ensures legal { IsSound result.closed.boot × Legal result.closed.nodes result.closed.boot result.closed.history.items result.closed.tree }
        ensures log { history_of (cut result.closed.history.items result.turns.items) ≡ result.closed.history.items }
        ensures once { EachOnce (known pass).given (0 ∷ numbers (known pass).ended) }
        ensures fresh { (n : ℕ) → (known pass).given ≤ n → turns_of n (cut result.closed.history.items result.turns.items) ≡ [] }
        ensures turns { (known pass).turns ≡ turns_of 0 (cut result.closed.history.items result.turns.items) }
        ensures ended { All (λ (e : Ended). e.turns ≡ turns_of e.number (cut result.closed.history.items result.turns.items)) (known pass).ended }
        ensures over { (known pass).over ≡ true → is_settled result.closed.tree ≡ true }
        ensures end { is_settled result.closed.tree ≡ true → result.closed.tree ≡ settle_tree result.closed.boot }
    {
        let SeatBoard { lock, .. } = self;
        let Pass { pass, .. } = pass;
        let Desk { board, turns, .. } = lock.close(pass);
        SeatClosed {
            closed: board.close(),
            turns,
        }
    }
}
