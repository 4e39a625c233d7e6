//! A board of jobs over a tree of spaces: any number of workers take spaces that have local events, in any order, and hand in what became of
//! them; calls meet their children here. The board is the value behind a lock, and it carries a history that leads from the tree it began with to
//! the tree it has.
#![tactic(auto)]

mod alone;
mod beginning;
mod board;
mod boot;
mod closed;
mod committing;
mod counts;
mod done;
mod ending;
mod gathering;
mod going_on;
mod handing_in;
mod job;
mod listing;
mod lists;
mod meeting;
mod moving;
mod named;
mod named_board;
mod result;
mod runs;
mod shop;
mod slots;
mod starts;
mod taking;
mod together;
mod turning;
mod working;

pub use alone::run_alone;
pub use board::Board;
pub use closed::Closed;
pub use done::Done;
pub use going_on::EVENTS_IN_PLACE;
pub use job::{Job, Out};
pub use named::{NamedDone, NamedJob};
pub use named_board::NamedBoard;
pub use result::Commit;
pub use together::run_together;
pub use working::{QUANTUM, begin, go_on, work};
