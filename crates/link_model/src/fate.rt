/// What becomes of a frame that is sent over a link.
#[derive(Clone, Copy, Debug, PartialEq, Eq)]
pub enum Fate {
    /// It is lost.
    Lost,
    /// It arrives.
    Arrives,
    /// It arrives twice.
    ArrivesTwice,
    /// It is lost, and the frame that was sent before it, where there is one, arrives once more.
    EarlierArrives,
}
