//! A pool of workers in threads of their own: work is handed out by a shop behind a lock, done outside of the lock, and handed in again.
#![tactic(auto)]

mod attendance;
mod desk;
mod hall;
mod pool;
mod ring;
mod shop;
mod side_by_side;
mod worker;

pub use attendance::{Attendance, Here, Sleeper};
pub use pool::run_pool;
pub use ring::Ring;
pub use shop::{Shop, Turn, Worked};
