//! Snapshots of memories, and the merge of what a child wrote since its snapshot into its parent's memory.
#![tactic(auto)]

mod changes;
mod cursor;
mod fault;
mod merging;
mod overlaying;
mod page;
mod taking;
mod walk;

pub use fault::MergeError;
pub use merging::{merge, merge_and_permit};
pub use overlaying::{overlay, overlay_owned, own_changed};
pub use taking::take;
