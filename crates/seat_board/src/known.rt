ghost use Rattle.std.specs.Prelude.{ℕ, Bool, List};
ghost use Rattle.std.specs.declared.option.Option.{Option};
ghost use Rattle.std.specs.Borrow.{ftrue};
ghost use Rattle.std.specs.Coded.{coded_bool, coded_list, coded_option};
ghost use Rattle.space_model.specs.Space.{Space};
ghost use Rattle.space_model.specs.Encoding.{coded_space};
ghost use Rattle.det_core.specs.declared.entry.Entry.{Entry};
ghost use Rattle.seat_board.specs.Held.{Ended, Held, coded_ended, coded_held, coded_turns};

use std::marker::{Model, PhantomData};

/// What a seat knows. It has no bytes, and contracts alone read it.
#[derive(Drop)]
pub struct Known {
    pub(crate) marker: PhantomData<()>,
    /// The seat's number. Seats are numbered in the order in which they were made, from 0 on.
    pub ghost number: { ℕ },
    /// Whether it may have turns: it was not taken in by another.
    pub ghost lives: { Bool } by { coded_bool },
    /// The tree that the board began with, of one that lives, and how many nodes there are.
    pub ghost boot: { Option Space } by { coded_option coded_space },
    pub ghost nodes: { ℕ },
    /// The job that it has, if it has one.
    pub ghost job: { Option Held } by { coded_option coded_held },
    /// What each of its turns added to the history, in their order.
    pub ghost turns: { List (List Entry) } by { coded_turns },
    /// Whether a turn answered that the board is over.
    pub ghost over: { Bool } by { coded_bool },
    /// Of seat 0: how many numbers were given, and the seats that have ended.
    pub ghost given: { ℕ },
    pub ghost ended: { List Ended } by { coded_list coded_ended },
}

impl Model for Known {
    ghost also_owns = { λ _. ftrue };
}
