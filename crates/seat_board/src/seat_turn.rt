/// A turn in the log of a seated board: the number of its seat, and how many entries it added to the history.
#[derive(Clone, Copy, Debug, PartialEq, Eq)]
pub struct SeatTurn {
    pub seat: u32,
    pub entries: usize,
}
