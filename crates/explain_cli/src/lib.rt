//! The program `explain` as one call over a loader and sinks that are handed in, with what it answers and writes as its contract.
#![tactic(auto)]

mod about;
mod end;
mod explaining;
mod main_call;
mod names;
mod program;
mod reading;
mod saying;

pub use end::{End, status};
pub use program::{Exit, explain_main};
pub use saying::write_line;
