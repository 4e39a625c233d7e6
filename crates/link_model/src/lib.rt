//! Definitions of links that lose, repeat and reorder what is sent, for contracts: frames as they are spelled and read, the events of a link, and their
//! laws. `specs/` has the definitions.
#![tactic(auto)]

mod error;
mod fate;
mod laws;

pub use error::{FrameError, FrameErrorKind};
pub use fate::Fate;
pub use laws::{delivered_in_order, goes_over, one_frame, reads_exactly_frames, sent_in_parts};

/// The most parcels that a sender keeps without their receipt.
pub const WINDOW: usize = 16;

/// The number that no parcel has.
pub const NO_NUMBER: u64 = 0xFFFF_FFFF_FFFF_FFFF;

/// The most turns that a parcel takes to arrive.
pub const MOST_TURNS: u32 = 16;
