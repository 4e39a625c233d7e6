//! The kernel's part of processes and threads, from fork to join, and what any call that meets children does.
#![tactic(auto)]

mod forking;
mod joining;
mod meeting;
mod quanta;
mod waiting;

pub use forking::{fork, tfork};
pub use joining::tjoin;
pub use meeting::meet;
pub use waiting::wait;
