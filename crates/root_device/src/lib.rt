//! The devices of the root: its console, its clock and its random numbers.
#![tactic(auto)]

mod console;
mod numbers;

pub use console::{console_in, console_out};
pub use numbers::{draw_number, read_clock};
