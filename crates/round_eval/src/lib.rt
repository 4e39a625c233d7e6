//! The run of a tree in rounds: in each round the spaces that have local events go on side by side, and then each call meets its children
//! whose time has come. The console of the root is written when the run is over, or round by round.
#![tactic(auto)]

mod apart;
mod begun;
mod beside;
mod engine;
mod going;
mod hints;
mod job;
mod job_run;
mod moving;
mod pace;
mod round;
mod running;
mod side_by_side;
mod starting;
mod streaming;

pub use running::rounds;
pub use streaming::rounds_to;
