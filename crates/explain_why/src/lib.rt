//! Why the spaces of a run stopped as they did: who changed the byte that is in conflict, on both sides; the last events before a trap; who left a file
//! in conflict.
#![tactic(auto)]

mod conflict;
mod files;
mod origin;
mod paths;
mod planning;
mod runs;
mod telling;
mod texts;
mod trap;

pub use telling::why;
