/// What a board counts.
#[derive(Drop)]
pub(crate) struct Counts {
    /// The number of the next ticket.
    pub(crate) next_ticket: u64,
    /// How many results were taken.
    pub(crate) taken: u64,
    /// How many jobs were handed out by turns and were not handed in again.
    pub(crate) owed: u64,
}
