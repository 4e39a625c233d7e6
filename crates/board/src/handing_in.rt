ghost use Rattle.std.specs.Prelude.{◌≡◌, None, IsSome, true};
ghost use Rattle.board.specs.declared.job.Out.{Out};
ghost use Rattle.board.specs.Jobs.{Sets, out_at};
ghost use Rattle.board.specs.Names.{IsKnown};
ghost use Rattle.board.specs.Steps.{Commits, IsOfJob, IsTaken};

use crate::board::Board;
use crate::committing::{is_of_slot, ticket_in};
use crate::done::Done;
use crate::result::Commit;
use crate::slots::take_out;
use det_core::Entry;
use space_tree::swap_top;

impl Board {
    /// Takes a result that is known to be of the job that is out in its slot: its last top stands in the tree, and its events are the last entry of the history.
    /// Nothing is compared, and it takes no memory.
    pub fn accept(&mut self, done: Done)
        requires { (o : Out) × IsOfJob self.old done o }
        ensures { IsTaken self.old done self.new }
    {
        let Done {
            slot,
            ticket: _,
            path,
            run,
        } = done;
        run.leads();
        let events = run.ran();
        let (_, top) = run.into_parts();
        let out = take_out(&mut self.out, &mut self.lists.at_work, slot);
        swap_top(&mut self.tree, &path, top);
        self.lists.news.push_reserved(out.path);
        self.history.push_reserved(Entry::Ran { path, events });
        let _entries = self.history.len();
        self.counts.taken += 1;
    }

    /// The job of a slot is out no longer; its space stands in the tree as it did. It takes no memory.
    pub fn forget(&mut self, slot: usize)
        requires { IsSome (out_at self.old.out slot) }
        ensures out { Sets slot None self.old.out self.new.out }
        ensures others { self.new ≡ record self.old { out = self.new.out } }
    {
        let out = take_out(&mut self.out, &mut self.lists.at_work, slot);
        self.lists.news.push_reserved(out.path);
    }

    /// Hands in a result. It is taken exactly where it is of the job that is out in its slot: its ticket and path are the job's, and it began with what
    /// stands in the tree there. Then its last top stands there, and its events are the last entry of the history. A result of another job changes
    /// nothing, but that the job of its slot is out no longer where the ticket is that one's. It takes no memory.
    pub fn commit(&mut self, done: Done) -> Commit
        ensures { Commits self.old done result self.new }
    {
        self.commit_known(done, false)
    }

    /// As `commit`. The caller may know that the result began with what stands in the tree at the path of its slot's job: then no bytes are compared.
    pub(crate) fn commit_known(&mut self, done: Done, known: bool) -> Commit
        requires { known ≡ true → IsKnown self.old done }
        ensures { Commits self.old done result self.new }
    {
        let Some(ticket) = ticket_in(&self.out, done.slot) else {
            return Commit::Stale { kept: None };
        };
        if ticket != done.ticket {
            return Commit::Stale { kept: Some(ticket) };
        }
        if is_of_slot(&self.tree, &self.out, &done, known) {
            self.accept(done);
            return Commit::Taken;
        }
        self.forget(done.slot);
        Commit::Stale { kept: Some(ticket) }
    }
}
