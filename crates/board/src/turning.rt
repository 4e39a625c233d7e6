ghost use Rattle.std.specs.Prelude.{◌≡◌, ℕ, ◌<◌, ◌≤◌, ◌%◌, ◌^◌, List, true, IfOk, IfSome, IsNone, OnErr};
ghost use Rattle.worker_pool.specs.Turns.{is_idle};
ghost use Rattle.board.specs.Jobs.{MayBeTaken, MayBeTakenOn};
ghost use Rattle.board.specs.Names.{IsKnown};
ghost use Rattle.board.specs.Turns.{accepted, GoesOnAmong, GoesOnFrom, GoesOnNode, HandsIn, HandsOn, HandsOut, IsFinished, IsIdle, IsTurn, NoneAmong, is_over};

use crate::board::Board;
use crate::done::Done;
use crate::job::Job;
use crate::result::Commit;
use space_tree::Path;
use std::alloc::AllocError;
use worker_pool::Turn;

impl Board {
    // Puts out a job for a space that may be taken, which is owed from then on.
    fn hand_out(&mut self, path: Path) -> Result<Job, AllocError>
        requires { MayBeTaken self.old.tree self.old.out path.items }
        ensures ok { IfOk result (λ job. (job.path ≡ path) × HandsOut self.old job self.new) }
        ensures err { OnErr result (self.new ≡ self.old) }
    {
        let owed = self.counts.owed.checked_add(1).ok_or(AllocError)?;
        let job = self.put_out(path)?;
        self.counts.owed = owed;
        Ok(job)
    }

    // As `hand_out`; where there is no memory for the job, that is all, and the space has gone on all the same.
    fn hand_on(&mut self, path: Path) -> Turn<Job>
        requires { MayBeTaken self.old.tree self.old.out path.items }
        ensures { HandsOn self.old path result self.new }
    {
        match self.hand_out(path) {
            Ok(job) => Turn::Job(job),
            Err(_) => Turn::Met,
        }
    }

    // The least space on a node that may be taken goes on in its place, and is handed out as a job where it has more events. None exactly where no space there may be taken.
    fn go_on(&mut self, node: u32) -> Result<Option<Turn<Job>>, AllocError>
        requires { node < self.old.places.nodes }
        ensures some { IfOk result (λ o. IfSome o (λ t. GoesOnNode node self.old t self.new)) }
        ensures none { IfOk result (λ o. IsNone o → (self.new ≡ self.old) × ((p : List ℕ) → MayBeTakenOn self.old.places node self.old.tree self.old.out p → ⊥)) }
        ensures err { OnErr result (self.new ≡ self.old) }
    {
        let Some(path) = self.to_take(node)? else {
            return Ok(None);
        };
        let more = self.go_on_at(&path)?;
        if !more {
            return Ok(Some(Turn::Met));
        }
        Ok(Some(self.hand_on(path)))
    }

    // The least space that may be taken goes on, on the first of the nodes from one on to another that has any. None exactly where no space on any of them may be taken.
    fn go_on_among(&mut self, from: u32, to: u32) -> Result<Option<Turn<Job>>, AllocError>
        requires { (from ≤ to) × (to ≤ self.old.places.nodes) }
        ensures some { IfOk result (λ o. IfSome o (λ t. GoesOnAmong from to self.old t self.new)) }
        ensures none { IfOk result (λ o. IsNone o → (self.new ≡ self.old) × NoneAmong self.old from to) }
        ensures err { OnErr result (self.new ≡ self.old) }
    {
        for node in from..to {
            if let Some(turn) = self.go_on(node)? {
                return Ok(Some(turn));
            }
        }
        Ok(None)
    }

    // The least space that may be taken goes on, on the first node from one on that has any, where the nodes are gone through in a ring.
    fn go_on_from(&mut self, first: u32) -> Result<Option<Turn<Job>>, AllocError>
        requires { first < self.old.places.nodes }
        ensures some { IfOk result (λ o. IfSome o (λ t. GoesOnFrom first self.old t self.new)) }
        ensures none { IfOk result (λ o. IsNone o → (self.new ≡ self.old) × ((p : List ℕ) → MayBeTaken self.old.tree self.old.out p → ⊥)) }
        ensures err { OnErr result (self.new ≡ self.old) }
    {
        let nodes = self.nodes();
        self.places_are_nodes();
        if let Some(turn) = self.go_on_among(first, nodes)? {
            return Ok(Some(turn));
        }
        self.go_on_among(0, first)
    }

    /// The turn of a worker. `Met` where a call may meet its children: the least one has met them. Else a space that may be taken goes on in its place, `EVENTS_IN_PLACE`
    /// events at most: the least on the first node that has any, from the node of the worker's number on. Where it has more, it is a job, as it stands then; else, or where there is no memory
    /// for the job, the turn is `Met`, too. Where there is neither, nothing changes: `Over` exactly where no job is out and no space runs, and
    /// `Rest` else, while a job is out. The one error is want of memory, and then nothing has changed.
    pub fn next_turn(&mut self, worker: usize) -> Result<Turn<Job>, AllocError>
        ensures is { IfOk result (λ t. IsTurn worker self.old t self.new) }
        ensures over { IsFinished self.old → IfOk result (λ t. is_over t ≡ true) }
        ensures idle { IsIdle self.old → IfOk result (λ t. is_idle t ≡ true) }
        ensures err { OnErr result (self.new ≡ self.old) }
    {
        if let Some(_) = self.meet()? {
            return Ok(Turn::Met);
        }
        let first = self.node_of_worker(worker);
        if let Some(turn) = self.go_on_from(first)? {
            return Ok(turn);
        }
        if self.out.is_empty() {
            return Ok(Turn::Over);
        }
        Ok(Turn::Rest)
    }

    // The node on which a worker looks first.
    fn node_of_worker(&self, worker: usize) -> u32
        ensures is { result ≡ worker % self.now.places.nodes }
        ensures below { result < self.now.places.nodes }
    {
        let nodes = self.nodes();
        (worker % nodes as usize) as u32
    }

    /// Whether another worker's turn may now be a job: a hint. What is listed before the next space that may be taken is dropped on the way, so a list that is not
    /// empty has one. True, too, where there is no memory to tell.
    pub fn has_more(&mut self) -> bool
        ensures { self.new ≡ self.old }
    {
        let nodes = self.nodes();
        for node in 0..nodes {
            match self.to_take(node) {
                Ok(None) => {}
                Ok(Some(_)) | Err(_) => return true,
            }
        }
        false
    }

    // Fewer results were taken than a number has values.
    fn are_few(&self)
        ensures { accepted self.now < 2 ^ 64 }
    {
        let _entries = self.history.len();
    }

    /// Hands in a result as `commit` does, with one job fewer that is owed, if any was. True exactly where it was taken.
    pub fn hand_in(&mut self, done: Done) -> bool
        ensures is { HandsIn self.old done result self.new }
        ensures small { accepted self.new < 2 ^ 64 }
    {
        self.hand_in_known(done, false)
    }

    /// As `hand_in`. The caller may know that the result began with what stands in the tree at the path of its slot's job.
    pub(crate) fn hand_in_known(&mut self, done: Done, known: bool) -> bool
        requires { known ≡ true → IsKnown self.old done }
        ensures is { HandsIn self.old done result self.new }
        ensures small { accepted self.new < 2 ^ 64 }
    {
        self.counts.owed = self.counts.owed.saturating_sub(1);
        let commit = self.commit_known(done, known);
        self.are_few();
        commit == Commit::Taken
    }
}
