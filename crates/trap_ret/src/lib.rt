//! Reads calls: from registers to the call that they name, and whom it waits for. The register block, and causes as numbers.
#![tactic(auto)]

mod block;
mod call;
mod causes;
pub mod options;
mod table;

pub use block::{read_block, reread_block, rewrite_block, write_block};
pub use call::{AcceptedCall, Awaited, Doing, Looking, awaits, read_call};
pub use call_model::{Badcall, Block, Call, FileCall, Transfer, limits};
pub use causes::{cause_number, cause_of};
pub use space_model::{Await, Cause, Reach, Status};
