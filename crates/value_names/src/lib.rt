//! Numbers that stand for values: two names with one number name one value.
#![tactic(auto)]

mod book;
mod name;
mod names;

pub use book::{Naming, NewBook};
pub use name::Name;
pub use names::Names;
