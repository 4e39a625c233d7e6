//! The demand-driven run of a tree on one thread: a child runs when it is waited for. The console of its root is written when the run is over, or
//! as it grows.
#![tactic(auto)]

mod console;
mod running;
mod streaming;

pub use console::write_console;
pub use running::{Runner, STRETCH, settle, wait_for};
pub use streaming::{StreamFault, settle_on, settle_to};
