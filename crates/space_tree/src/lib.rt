//! Spaces: the state of a space without its children, and a tree of them.
#![tactic(auto)]

mod children;
mod copying;
mod equality;
mod levels;
mod looking;
mod path;
mod refusals;
mod registers;
mod settled;
mod space;
mod top;
mod top_copies;

pub use children::Children;
pub use copying::{copy_child, copy_top, copy_tree};
pub use dev_script::Devices;
pub use equality::{same, same_top};
pub use levels::height;
pub use looking::look_at_child;
pub use path::{Path, at, put_at, swap_top};
pub use refusals::{conflict, no_snapshot, too_deep};
pub use rv_exec::Regs;
pub use settled::{is_settled, is_stopped};
pub use space::Space;
pub use space_mem::{Mem, Pages};
pub use space_model::{Cause, Status};
pub use top::{FRESH, Top};
pub use top_copies::copy_top_at;
