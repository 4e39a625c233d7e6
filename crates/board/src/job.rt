ghost use Rattle.board.specs.Sound.{IsSoundAlone};

use space_tree::{Path, Top};

/// A job that is out: the number of its ticket, and the path of its space.
#[derive(Drop)]
pub struct Out {
    pub ticket: u64,
    pub path: Path,
}

/// A space that a worker is to let go on: the slot of its job, the number of its ticket, its path, and its state.
#[derive(Drop)]
pub struct Job {
    pub slot: usize,
    pub ticket: u64,
    pub path: Path,
    pub top: Box<Top>,
    pub ghost sound: { IsSoundAlone path.items top.value },
}
