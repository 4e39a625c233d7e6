//! The laws of every schedule, each as the contract of a public function that does nothing. Which event comes next is the schedule's choice;
//! neither how a run ends nor how many events it has depends on it.
#![tactic(auto)]

mod laws;

pub use laws::{
    as_many_fewer, commutation, confluence, console_prefix, local_events, never_stuck, one_length,
    path_order, report_order, stays_sound, tops_at_different_paths,
};
