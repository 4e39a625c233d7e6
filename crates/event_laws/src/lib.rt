//! The laws of own events: an event of a space has a name, its space's path and its number among the own events there, and that name means one thing in every
//! schedule. Each law is the contract of a public function that does nothing.
#![tactic(auto)]

mod laws;

pub use laws::{ended_schedules, entries, one_meaning, tops_in_between};
