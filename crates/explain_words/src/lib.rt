//! The words of the command line of `explain`.
#![tactic(auto)]

mod apps;
mod command;
mod question;
mod reading;

pub use command::{Bytes, Command, Moment, Question};
pub use reading::read_line;
