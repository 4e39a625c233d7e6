use crate::boot::Boot;
use crate::counts::Counts;
use crate::job::Out;
use crate::lists::Lists;
use det_core::Entry;
use slab::Slab;
use space_tree::Space;
use std::alloc::Global;
use std::marker::Model;

/// A tree of spaces whose local events workers do, job by job, with the history that leads to it from the tree it began with. Contracts see both
/// trees, the history, the node on which each space stands, the jobs that are out, the number of the next ticket, how many results were taken and how many jobs
/// are owed; beside these it keeps where to look for the next job and the next call, the pages of each node, and the decoded instructions of the space that it let go on
/// last.
#[derive(Drop)]
pub struct Board {
    pub(crate) alloc: Global,
    pub(crate) boot: Boot,
    pub(crate) tree: Space,
    pub(crate) history: Vec<Entry>,
    pub(crate) out: Slab<Out>,
    pub(crate) counts: Counts,
    pub(crate) lists: Lists,
}

impl Model for Board {
    ghost use Rattle.board.specs.Value.{Shown, coded_shown};

    ghost Value = { Shown };

    ghost coded = { coded_shown };

    ghost use Rattle.board.specs.View.{shown, Keeps};

    ghost view = { shown };

    ghost invariant = { Keeps };
}
