//! Sets of paths of spaces, in the order of paths.
#![tactic(auto)]

mod set;

pub use set::PathSet;
