//! Laws of what threads that run for quanta wrote, laid over one memory in the order of their numbers, whose definitions `space_model` has.
#![tactic(auto)]

mod laws;

pub use laws::{commits_in_parts, last_change_stays, others_stay};
