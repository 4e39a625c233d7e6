//! A space's files in its memory: calls on them, the base of a process that is forked, and what its parent takes over from it.
#![tactic(auto)]

mod basing;
mod calling;
mod editing;
mod files;
mod lent;
mod naming;
mod owning;
mod reading;
mod reconciling;
mod runs;
mod sharing;
mod slots;

pub use basing::mark_base;
pub use calling::file_call;
pub use reading::header_in;
pub use reconciling::reconcile;
