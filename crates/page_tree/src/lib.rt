//! Pages of a memory with their permissions, in a tree of three levels whose parts can be shared.
#![tactic(auto)]

mod bare_block;
mod block;
mod block_ref;
mod branch;
mod branch_ref;
mod clearing;
mod cutting;
mod freezing;
mod moving;
mod owners;
mod permitting;
mod preparing;
mod reading;
mod replacing;
mod same;
mod settling;
mod slots;
mod storing;
mod taking;
mod tree;
mod tree_ref;
mod walking;

pub use bare_block::BareBlock;
pub use block::{BLOCK_PAGES, Block};
pub use block_ref::BlockRef;
pub use branch::{BLOCKS, BRANCH_PAGES, Branch};
pub use branch_ref::BranchRef;
pub use slots::Slots;
pub use tree::{BRANCHES, Tree};
pub use tree_ref::TreeRef;
