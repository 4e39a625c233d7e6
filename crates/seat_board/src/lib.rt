//! A board whose workers have seats.
#![tactic(auto)]

mod beginning;
mod bell;
mod closed;
mod counting;
mod desk;
mod known;
mod pass;
mod rings;
mod running;
mod seat_board;
mod seat_turn;
mod seats;
mod sharing;
mod told;
mod worker;

pub use beginning::Beginning;
pub use closed::{SeatClosed, SeatRun};
pub use desk::Desk;
pub use known::Known;
pub use pass::Pass;
pub use running::{gather, run_seats, seats_beside};
pub use seat_board::SeatBoard;
pub use seat_turn::SeatTurn;
pub use seats::Seats;
