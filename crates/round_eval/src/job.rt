ghost use Rattle.std.specs.Prelude.{◌≤◌};

use space_step::Next;
use space_tree::{Path, Top};

/// A space that is to go on, out of its tree: its path, its top, and for how many events.
#[derive(Drop)]
pub(crate) struct Job {
    pub(crate) path: Path,
    pub(crate) top: Top,
    pub(crate) left: u32,
    pub(crate) ghost some: { 1 ≤ left },
}

/// A space that has gone on: its path, its top, how many events it had, and what is next.
#[derive(Drop)]
pub(crate) struct Done {
    pub(crate) path: Path,
    pub(crate) top: Top,
    pub(crate) ran: u32,
    pub(crate) next: Next,
}
