//! Quanta for threads that share a memory without joins: a start gives each thread that waits a copy and a quantum, a commit takes over what each wrote.
#![tactic(auto)]

mod commit;
mod prepared;
mod start;
mod threads;

pub use commit::qcommit;
pub use start::qstart;
