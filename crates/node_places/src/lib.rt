//! The spaces that are not on their home nodes.
#![tactic(auto)]

mod going;
mod places;

pub use places::Places;
