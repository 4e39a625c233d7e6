//! The whole program as one call over a loader and sinks that are handed in, with what it answers and writes as its contract.
#![tactic(auto)]

mod assembling;
mod benching;
mod end;
mod evaluating;
mod fault_line;
mod formats;
mod limits;
mod main_call;
mod pooling;
mod program;
mod reading;
mod running;
mod showing;
mod staff;

pub use end::{End, status};
pub use fault_line::write_fault;
pub use formats::FileFormat;
pub use main_call::{det_main, det_still};
pub use program::{Exit, det_program};
pub use reading::load_as;
pub use running::write_end;
