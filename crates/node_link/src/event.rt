/// What happens on a link behind the offer of a parcel.
#[derive(Clone, Copy, Debug, PartialEq, Eq)]
pub enum LinkEvent {
    /// The frame of the parcel of this number is sent.
    Send(u64),
    /// The frame that was sent as the one of this place, from 0 on, arrives.
    Arrive(u64),
    /// A receipt is sent.
    Answer,
    /// The receipt that was sent as the one of this place, from 0 on, arrives.
    Receipt(u64),
}
