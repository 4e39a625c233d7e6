//! Why bytes could not be read, and what it is that a reader gives what reading on lists gives.
#![tactic(auto)]

mod fault;

pub use fault::Fault;
