ghost use Rattle.std.specs.Prelude.{◌≡◌, ◌+◌, ◌-◌, ◌≤◌, ◌<◌, [], true, false, IfOk, IfSome, IsNone, OnOk, OnErr, List, ℕ, vec_len, vec_capacity};
ghost use Rattle.call_model.specs.Limits.{greatest_depth, levels_below};
ghost use Rattle.space_model.specs.Space.{Space, top_of};
ghost use Rattle.space_model.specs.Event.{next};
ghost use Rattle.run_model.specs.Schedule.{is_local, is_local_at};
ghost use Rattle.path_set.specs.Paths.{Has, IsFirst, Paths};
ghost use Rattle.node_places.specs.Places.{place_of};
ghost use Rattle.board.specs.Jobs.{MayBeTaken, MayBeTakenOn, Slots};
ghost use Rattle.board.specs.Listed.{AreOut, IsListed};
ghost use Rattle.board.specs.Runs.{list_on};
ghost use Rattle.board.specs.Steps.{IsLeast, IsPutOut, Takes};

use crate::board::Board;
use crate::job::{Job, Out};
use crate::listing::{copy_path, list_news, one_more};
use crate::runs::Runs;
use crate::slots::put_in;
use det_core::Entry;
use node_places::Places;
use path_set::PathSet;
use space_step::{Next, peek};
use space_tree::{Path, Space, at, copy_top_at};
use std::alloc::AllocError;

// Whether a space at this depth has a local event next.
fn goes(space: &Space, depth: u8) -> bool
    requires { depth ≤ greatest_depth }
    ensures { result ≡ is_local (next (levels_below depth) (top_of space.now)) }
{
    match peek(&space.top, depth) {
        Next::Local => true,
        Next::Meet(_) | Next::Stopped => false,
    }
}

// Whether the space at a path has a local event next.
#[tactic(auto, using(crate::proofs::Kept::local_found, crate::proofs::Kept::local_missing))]
fn goes_at(tree: &Space, path: &Path) -> bool
    ensures { result ≡ is_local_at path.now.items greatest_depth tree.now }
{
    match at(tree, path) {
        Some(found) => goes(found, path.len() as u8),
        None => false,
    }
}

/// Whether the space at a path may be taken, where these are at work.
#[tactic(auto, using(crate::proofs::Works::may_be_taken))]
pub(crate) fn may_be_taken(tree: &Space, at_work: &PathSet, path: &Path) -> bool
    ensures yes { result ≡ true → (out : Slots) → AreOut at_work.now out → MayBeTaken tree.now out path.now.items }
    ensures no { result ≡ false → is_local_at path.now.items greatest_depth tree.now ≡ true → Has at_work.now path.now.items }
{
    if !goes_at(tree, path) {
        return false;
    }
    !at_work.contains(path)
}

// Whether the space at a path stands on a node and may be taken, where these are at work.
fn may_be_taken_on(tree: &Space, places: &Places, at_work: &PathSet, path: &Path, node: u32) -> bool
    ensures yes { result ≡ true → (place_of places.now path.now.items ≡ node) × ((out : Slots) → AreOut at_work.now out → MayBeTaken tree.now out path.now.items) }
    ensures no { result ≡ false → place_of places.now path.now.items ≡ node → is_local_at path.now.items greatest_depth tree.now ≡ true → Has at_work.now path.now.items }
{
    if places.place(path) != node {
        return false;
    }
    may_be_taken(tree, at_work, path)
}

// The first of those listed for a node that may be taken, where these are at work; those before it are listed there no more.
fn find_first(
    tree: &Space,
    run: &mut Runs,
    at_work: &PathSet,
    node: u32,
) -> Result<Option<Path>, AllocError>
    requires { node < run.old.places.nodes }
    ensures places { run.new.places ≡ run.old.places }
    ensures listed { (calls : Paths) (out : Slots) → AreOut at_work.now out → IsListed tree.now run.old calls [] out → IsListed tree.now run.new calls [] out }
    ensures some { IfOk result (λ o. IfSome o (λ p. IsFirst p.items (list_on run.new node) × (place_of run.new.places p.items ≡ node) × ((out : Slots) → AreOut at_work.now out → MayBeTaken tree.now out p.items))) }
    ensures none { IfOk result (λ o. IsNone o → list_on run.new node ≡ []) }
{
    while let Some(first) = run.first_on(node) {
        if may_be_taken_on(tree, &run.places, at_work, first, node) {
            return Ok(Some(copy_path(first)?));
        }
        run.drop_first_on(node);
    }
    Ok(None)
}

/// A place in the history and in the news for so many more.
pub(crate) fn make_places(
    history: &mut Vec<Entry>,
    news: &mut Vec<Path>,
    count: usize,
) -> Result<(), AllocError>
    ensures history { history.new.items ≡ history.old.items }
    ensures news { news.new.items ≡ news.old.items }
    ensures history_len { vec_len history.new ≡ vec_len history.old }
    ensures news_len { vec_len news.new ≡ vec_len news.old }
    ensures history_grows { vec_capacity history.old ≤ vec_capacity history.new }
    ensures news_grows { vec_capacity news.old ≤ vec_capacity news.new }
    ensures places { OnOk result ((vec_len history.new + count ≤ vec_capacity history.new) × (vec_len news.new + count ≤ vec_capacity news.new)) }
{
    history.reserve(count)?;
    news.reserve(count)
}

impl Board {
    /// The least space on a node that may be taken. Those that were listed before it and may not be are listed there no more.
    pub(crate) fn to_take(&mut self, node: u32) -> Result<Option<Path>, AllocError>
        requires { node < self.old.places.nodes }
        ensures same { self.new ≡ self.old }
        ensures some { IfOk result (λ o. IfSome o (λ p. IsLeast (MayBeTakenOn self.old.places node self.old.tree self.old.out) p.items)) }
        ensures none { IfOk result (λ o. IsNone o → (p : List ℕ) → MayBeTakenOn self.old.places node self.old.tree self.old.out p → ⊥) }
    {
        list_news(
            &mut self.lists.run,
            &mut self.lists.calls,
            &mut self.lists.news,
        )?;
        find_first(&self.tree, &mut self.lists.run, &self.lists.at_work, node)
    }

    /// Puts out a job for a space that may be taken, with a copy of its state and the next ticket.
    pub(crate) fn put_out(&mut self, path: Path) -> Result<Job, AllocError>
        requires { MayBeTaken self.old.tree self.old.out path.items }
        ensures ok { IfOk result (λ job. (job.path ≡ path) × IsPutOut self.old job self.new) }
        ensures err { OnErr result (self.new ≡ self.old) }
    {
        let count = one_more(self.out.len())?;
        make_places(&mut self.history, &mut self.lists.news, count)?;
        let Some(top) = copy_top_at(&mut self.tree, &path)? else {
            unreachable!()
        };
        let top = Box::new(self.alloc, top)?;
        let ticket = self.counts.next_ticket;
        let out = Out {
            ticket,
            path: copy_path(&path)?,
        };
        let slot = put_in(&mut self.out, &mut self.lists.at_work, out)?;
        self.lists.run.remove(&path);
        self.counts.next_ticket = ticket.wrapping_add(1);
        Ok(Job {
            slot,
            ticket,
            path,
            top,
        })
    }

    /// Puts a job out: the least space on that node that has a local event next and is not out, with an equal copy of its state and the next ticket. None
    /// exactly where there is no such space. The one error is want of memory, and then nothing has changed.
    pub fn take(&mut self, node: u32) -> Result<Option<Job>, AllocError>
        requires { node < self.old.places.nodes }
        ensures some { IfOk result (λ o. IfSome o (λ job. Takes node self.old job self.new)) }
        ensures none { IfOk result (λ o. IsNone o → (self.new ≡ self.old) × ((p : List ℕ) → MayBeTakenOn self.old.places node self.old.tree self.old.out p → ⊥)) }
        ensures err { OnErr result (self.new ≡ self.old) }
    {
        match self.to_take(node)? {
            Some(path) => Ok(Some(self.put_out(path)?)),
            None => Ok(None),
        }
    }
}
