//! Links that lose, repeat and reorder: a sender, which keeps the parcels that have no receipt yet, and a receiver, which takes them in their order.
#![tactic(auto)]

mod event;
mod fate;
mod fault;
mod fields;
mod frame;
mod link;
mod links;
mod receiver;
mod sender;
mod way;

pub use event::LinkEvent;
pub use fault::FrameFault;
pub use link::Link;
pub use link_model::{FrameError, FrameErrorKind};
pub use links::{Links, MOST_NODES};
pub use receiver::Receiver;
pub use sender::{Offered, Sender};
