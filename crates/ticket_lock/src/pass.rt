use crate::view::View;
use atomic_table::Seat;

/// The right to have turns at a lock, and what its holder knows of the value. It has no bytes. Contracts read its number in the order in which passes were made
/// as `seat.id`, what it knows as `seat.me.0.core`, and the value as its last turn found it as `seat.me.0.noted`.
#[derive(Drop)]
pub struct Pass<S, C> {
    pub seat: Seat<S, View<S, C>>,
}
