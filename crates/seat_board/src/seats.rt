use crate::beginning::Beginning;
use crate::desk::Desk;
use crate::known::Known;
use ticket_lock::{Custody, Joining, Opening, Parting};

/// What seats know of their board.
pub struct Seats;

impl Custody<Desk, Known> for Seats {
    ghost use Rattle.seat_board.specs.Seats as seats;

    ghost fits = { seats.Fits };

    ghost lives = { seats.lives };

    ghost after = { seats.after };

    ghost few = { λ x cs fits. seats.few_seats x cs fits };
}

impl Opening<Known, Beginning> for Seats {
    ghost use Rattle.seat_board.specs.Beginnings.{first_known};

    ghost first = { first_known };
}

/// A seat of the next number comes to be.
pub(crate) struct Newcomer;

impl Parting<Known> for Newcomer {
    ghost use Rattle.seat_board.specs.Seats.{counted_up, newcomer};

    ghost left = { counted_up };

    ghost right = { newcomer };
}

/// Seat 0 takes in another.
pub(crate) struct TakesIn;

impl Joining<Known> for TakesIn {
    ghost use Rattle.seat_board.specs.Seats.{spent, taken_in};

    ghost both = { taken_in };

    ghost spent = { spent };
}
