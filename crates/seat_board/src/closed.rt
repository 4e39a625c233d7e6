use crate::seat_turn::SeatTurn;
use board::Closed;

/// What a board of seats had when it was closed: what the board had, and the turns into which its history is cut.
#[derive(Drop)]
pub struct SeatClosed {
    pub closed: Closed,
    pub turns: Vec<SeatTurn>,
}

/// What a run by workers in seats left: what the board had, the turns into which its history is cut, and how many of them each worker had, in the order of their numbers.
#[derive(Drop)]
pub struct SeatRun {
    pub closed: Closed,
    pub turns: Vec<SeatTurn>,
    pub counts: Vec<usize>,
}
