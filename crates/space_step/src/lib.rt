//! What is next of a space, and its local events.
#![tactic(auto)]

mod calling;
mod decode_cache;
mod event;
mod files;
mod output;
mod paying;
mod peeking;
mod run;
mod running;
mod source;
mod stepping;
mod streaming;
mod stretch;

pub use decode_cache::{DecodeCache, Table};
pub use event::{Advance, Next};
pub use output::advance_with_output;
pub use paying::budget;
pub use peeking::peek;
pub use run::{Run, run_local};
pub use running::{advance, next};
pub use source::{Source, Trap};
pub use stepping::forget_stored;
pub use streaming::advance_to;
pub use trap_ret::AcceptedCall;
