//! Replicated files in the bytes of a memory: the calls on them, and reconciling a parent's with its child's. None takes memory.
#![tactic(auto)]

mod basing;
mod editing;
mod fields;
mod file_bytes;
mod header;
mod lookup;
mod marking;
mod putting;
mod reading;
mod reconciling;
mod taking;
mod writing;

pub use basing::mark_base;
pub use editing::{create, create_slot, delete};
pub use file_bytes::FileBytes;
pub use file_model::FileError;
pub use lookup::{find, lowest_free, used};
pub use marking::{Plan, touched};
pub use putting::{put, put_slot};
pub use reading::{get, len, present};
pub use reconciling::reconcile;
pub use writing::{Header, file_header};
