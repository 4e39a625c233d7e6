ghost use Rattle.std.specs.Prelude.{◌≡◌, [], None, true, false};

use crate::desk::Desk;
use crate::known::Known;

/// A seat at a board: the right to have turns there. Contracts read what it knows as `known`. Its number and how many numbers it has given are known to the program, too.
#[derive(Drop)]
pub struct Pass {
    pub(crate) pass: ticket_lock::Pass<Desk, Known>,
    pub(crate) number: u32,
    pub(crate) given: u32,
    // Whether, when its last turn ended, another seat's might have been a job: a hint.
    pub(crate) more: bool,
    pub(crate) ghost number_is: { number ≡ pass.seat.me.0.core.number },
    pub(crate) ghost given_is: { given ≡ pass.seat.me.0.core.given },
    pub(crate) ghost lives: { pass.seat.me.0.core.lives ≡ true },
    pub(crate) ghost no_ticket: { pass.seat.me.0.ticket ≡ None },
    pub(crate) ghost lacks: { pass.seat.me.0.has ≡ false },
    pub(crate) ghost none: { pass.seat.me.1 ≡ [] },
}
