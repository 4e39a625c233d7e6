//! Definitions of schedules, which say whose event comes next, for contracts, and the laws that join their grammar to reading
//! them line by line: `specs/` has the definitions.
#![tactic(auto)]

mod error;
mod laws;

pub use error::ScheduleError;
pub use laws::{
    names_the_first_refused_line, one_item, one_schedule, reads_exactly_schedules,
    refuses_exactly_the_rest,
};
