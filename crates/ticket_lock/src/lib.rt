//! A ticket lock: a value that threads hand round, each in the turn that it has drawn.
#![tactic(auto)]

mod lock;
mod pass;
mod rule;
mod view;

pub use lock::TicketLock;
pub use pass::Pass;
pub use rule::{Custody, Joining, Opening, Order, Parting};
pub use view::View;
