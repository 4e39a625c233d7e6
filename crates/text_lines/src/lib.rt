//! Texts of lines: what their lines are and what all lines say together, for contracts; the line at a text's front, and decimal
//! numbers.
#![tactic(auto)]

mod laws;
mod lines;
mod numbers;

pub use laws::reads_lines_back;
pub use lines::first_line;
pub use numbers::number_of;
