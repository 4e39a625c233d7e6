//! The laws of threads that run for quanta, each as the contract of a public function that does nothing: what a thread is read against, and what a commit
//! takes over.
#![tactic(auto)]

mod laws;

pub use laws::{commits_what_was_written, snapshots_stay};
