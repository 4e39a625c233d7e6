//! The words of the command line.
#![tactic(auto)]

mod apps;
mod command;
mod reading;

pub use apps::{fuel_argument, required_argument, with_arg, with_command};
pub use command::{Command, Engine, Run};
pub use reading::{fuel_from, read_line, text_from};
