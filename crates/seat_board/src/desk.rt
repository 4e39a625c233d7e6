ghost use Rattle.std.specs.Prelude.{◌≡◌, ◌⊎◌, [], IfOk, IfSome, OnErr, Some, true, false, length};
ghost use Rattle.worker_pool.specs.declared.shop.Turn.TheVariants as turns;
ghost use Rattle.board.specs.declared.job.Out.{Out as OutJob};
ghost use Rattle.board.specs.Steps.{IsOfJob};
ghost use Rattle.board.specs.Turns.{IsTurn};
ghost use Rattle.seat_board.specs.Desk.{Acts, IsRefused, IsSeatTurn, Refuses, TakesIn, counted, nothing_told, told_by, told_of};

use crate::seat_turn::SeatTurn;
use crate::told::Told;
use board::{Board, Done, Job};
use std::alloc::AllocError;
use std::marker::Model;
use worker_pool::Turn;

/// What the seats of a board hand round: the board, whose turn each part of its history was, and what the last turn answered. Contracts see the turns as the history is cut into them.
#[derive(Drop)]
pub struct Desk {
    pub(crate) board: Board,
    pub(crate) turns: Vec<SeatTurn>,
    pub(crate) told: Told,
}

impl Model for Desk {
    ghost use Rattle.std.specs.Prelude.{◌≡◌, length};
    ghost use Rattle.seat_board.specs.Desk as desk;

    ghost Value = { desk.Desk };

    ghost coded = { desk.coded_desk };

    ghost view = { λ d. record { board = d.board; log = desk.cut d.board.history d.turns.items; told = d.told } };

    ghost invariant = { λ d. desk.counted d.turns.items ≡ length d.board.history };
}

// What came of a seat's job is taken.
fn take_in(board: &mut Board, done: Option<Done>)
    requires { IfSome done (λ d. (o : OutJob) × IsOfJob board.old d o) }
    ensures { TakesIn done board.old board.new }
{
    if let Some(done) = done {
        board.accept(done);
    }
}

// The job of a seat is out no longer.
fn forget(board: &mut Board, done: Option<Done>)
    requires { IfSome done (λ d. (o : OutJob) × IsOfJob board.old d o) }
    ensures { Refuses done board.old board.new }
{
    if let Some(done) = done {
        board.forget(done.slot);
    }
}

// The board's turn. Behind something that was taken in it may be left to another seat, and where there is no memory for it that is all, too.
fn go_on(board: &mut Board, seat: u32, taken: bool, aside: bool) -> Result<Turn<Job>, AllocError>
    ensures ok { IfOk result (λ t. IsTurn seat board.old t board.new ⊎ ((taken ≡ true) × (t ≡ turns.Met) × (board.new ≡ board.old))) }
    ensures err { OnErr result ((board.new ≡ board.old) × (taken ≡ false)) }
{
    if taken && aside {
        return Ok(Turn::Met);
    }
    match board.next_turn(seat as usize) {
        Ok(turn) => Ok(turn),
        Err(error) => {
            if taken {
                return Ok(Turn::Met);
            }
            Err(error)
        }
    }
}

// A seat's turn, on a board whose history is cut into these turns.
fn act(
    board: &mut Board,
    turns: &mut Vec<SeatTurn>,
    seat: u32,
    done: Option<Done>,
    aside: bool,
) -> Result<Turn<Job>, AllocError>
    requires own { IfSome done (λ d. (o : OutJob) × IsOfJob board.old d o) }
    requires whole { counted turns.old.items ≡ length board.old.history }
    ensures ok { IfOk result (λ t. Acts seat done board.old turns.old.items t board.new turns.new.items) }
    ensures err { OnErr result (Refuses done board.old board.new × (turns.new.items ≡ turns.old.items)) }
{
    if turns.reserve(1).is_err() {
        forget(board, done);
        return Err(AllocError);
    }
    let taken = done.is_some();
    let before = board.history().len();
    board.jobs_go_on();
    take_in(board, done);
    board.jobs_go_on();
    let turn = go_on(board, seat, taken, aside)?;
    let entries = board.history().len() - before;
    turns.push_reserved(SeatTurn { seat, entries });
    Ok(turn)
}

// What is told of a turn.
fn told_by(turn: &Turn<Job>) -> Told
    ensures { result ≡ told_by turn.now }
{
    match turn {
        Turn::Job(job) => Told {
            job: Some(job.slot),
            over: false,
        },
        Turn::Met | Turn::Rest => Told {
            job: None,
            over: false,
        },
        Turn::Over => Told {
            job: None,
            over: true,
        },
    }
}

// What is told of what came of a turn.
fn told_of(turn: &Result<Turn<Job>, AllocError>) -> Told
    ensures { result ≡ told_of turn.now }
{
    match turn {
        Ok(turn) => told_by(turn),
        Err(_) => Told {
            job: None,
            over: false,
        },
    }
}

impl Desk {
    /// A board without turns.
    pub(crate) fn of(board: Board, turns: Vec<SeatTurn>) -> Desk
        requires { (board.history ≡ []) × (turns.items ≡ []) }
        ensures { result ≡ record { board = board; log = []; told = nothing_told } }
    {
        Desk {
            board,
            turns,
            told: Told {
                job: None,
                over: false,
            },
        }
    }

    /// The turn of a seat, which hands in what came of its job, if it has one, and may leave all else to other seats then. The one error is want of memory.
    pub(crate) fn turn(
        &mut self,
        seat: u32,
        done: Option<Done>,
        aside: bool,
    ) -> Result<Turn<Job>, AllocError>
        requires own { IfSome done (λ d. (o : OutJob) × IsOfJob self.old.board d o) }
        ensures ok { IfOk result (λ t. IsSeatTurn seat done self.old t self.new) }
        ensures err { OnErr result (IsRefused done self.old self.new) }
    {
        let turn = act(&mut self.board, &mut self.turns, seat, done, aside);
        let told = told_of(&turn);
        self.told = told;
        turn
    }

    /// Whether another seat's turn may be a job behind one that is: a hint.
    pub(crate) fn has_more(&mut self, turn: &Result<Turn<Job>, AllocError>) -> bool
        ensures { self.new ≡ self.old }
    {
        match turn {
            Ok(Turn::Job(_)) => self.board.has_more(),
            _ => false,
        }
    }
}
