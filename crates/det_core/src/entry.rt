use space_tree::Path;

/// What a scheduler did at one place of its history.
#[derive(Debug, PartialEq, Eq, Drop)]
pub enum Entry {
    /// So many local events of the space at a path, one at least, one after the other.
    Ran { path: Path, events: u32 },
    /// The space at a path went to a node; nothing of it has changed.
    Moved { path: Path, node: u32 },
    /// The call of the space at a path, which met its children.
    Met { path: Path },
}
