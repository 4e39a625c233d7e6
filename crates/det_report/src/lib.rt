//! The report of a settled tree, with the digests of its memories, and the line that sums it up.
#![tactic(auto)]

mod digesting;
mod line;
mod reporting;
mod summing;

pub use digesting::{digest, page_bytes};
pub use line::{cause_word, stop_text};
pub use reporting::report;
pub use summing::summary;
