use det_core::Entry;
use space_tree::Space;

/// What a board had when it was closed: the tree that it began with, how many nodes there were, the tree that it had last, and the history that leads
/// from the one to the other.
#[derive(Drop)]
pub struct Closed {
    pub boot: Space,
    pub nodes: u32,
    pub tree: Space,
    pub history: Vec<Entry>,
}
