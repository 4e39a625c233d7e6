use crate::named::{NamedDone, NamedJob, begin_named, go_on_named};
use crate::named_board::NamedBoard;
use space_step::DecodeCache;
use std::alloc::{AllocError, Global};
use value_names::Naming;
use worker_pool::{Shop, Turn, Worked};

/// A board as a shop: it has accepted as many results as it has taken, and is idle where no call may meet its children and no space may be taken.
impl<J: Naming + Send> Shop for NamedBoard<J> {
    ghost use Rattle.board.specs.Turns as turns;

    type Job = NamedJob<J>;

    type Done = NamedDone<J>;

    type Tools = DecodeCache;

    ghost accepted = { turns.accepted };

    ghost owed = { λ b. b.owed };

    ghost idle = { turns.IsIdle };

    fn turn(&mut self, worker: usize) -> Result<Turn<NamedJob<J>>, AllocError> {
        self.next_turn(worker)
    }

    fn has_more(&mut self) -> bool {
        self.board.has_more()
    }

    fn tools(alloc: Global) -> Result<DecodeCache, AllocError> {
        DecodeCache::new(alloc)
    }

    fn work(tools: &mut DecodeCache, job: NamedJob<J>) -> Result<Worked<NamedDone<J>>, AllocError> {
        begin_named(tools, job)
    }

    fn go_on(tools: &mut DecodeCache, done: NamedDone<J>) -> Result<NamedDone<J>, AllocError> {
        go_on_named(tools, done)
    }

    fn commit(&mut self, done: NamedDone<J>) -> bool {
        self.hand_in(done)
    }
}
