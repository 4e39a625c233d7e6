/// What became of a result that was handed in.
#[derive(Clone, Copy, Debug, PartialEq, Eq)]
pub enum Commit {
    /// It stands in the tree, and its events in the history.
    Taken,
    /// It is of another job than the one that is out in its slot: the number of that one's ticket; none where none is out there.
    Stale { kept: Option<u64> },
}
