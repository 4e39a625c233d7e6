/// What the last turn of a board of seats answered: the slot of the job that it handed out, where it handed out one, and whether the board was over.
#[derive(Clone, Copy, Debug, PartialEq, Eq)]
pub(crate) struct Told {
    pub(crate) job: Option<usize>,
    pub(crate) over: bool,
}
