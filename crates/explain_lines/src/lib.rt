//! Texts of `explain`, line by line: as JSON, and with the names of places beside their addresses.
#![tactic(auto)]

mod cutting;
mod laws;
mod naming;
mod objects;

pub use laws::{json_reads_back, stays_without_symbols};
pub use naming::named;
pub use objects::json_of;
