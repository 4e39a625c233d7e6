ghost use Rattle.std.specs.Prelude.{◌≡◌, ◌+◌, ◌≤◌, ◌<◌, [], length, IfOk, IfSome, IsNone, OnOk, OnErr, List, ℕ, None, Some, Option, vec_len, vec_capacity};
ghost use Rattle.call_model.specs.Limits.{greatest_depth};
ghost use Rattle.call_model.specs.declared.Call.{Call};
ghost use Rattle.space_model.specs.Meeting.{awaits};
ghost use Rattle.run_model.specs.Schedule.{call_at, try_meet};
ghost use Rattle.det_core.specs.Legal.{AreCopied, has_stopped, replaced};
ghost use Rattle.node_places.specs.Places.{home};
ghost use Rattle.path_set.specs.Paths.{IsFirst};
ghost use Rattle.board.specs.Gathering.{AreAway, BroughtHome, HasGoneIf, HasMetBy, IsReplaced, MeetsOn};
ghost use Rattle.board.specs.Listed.{IsListed};
ghost use Rattle.board.specs.Jobs.{Slots};
ghost use Rattle.board.specs.Runs.{Runs};
ghost use Rattle.board.specs.Steps.{IsLeast, MayMeet, Meets, HasMet};

use crate::board::Board;
use crate::gathering::{Gathered, gather};
use crate::listing::{copy_path, list_news, with_moves};
use det_core::{Entry, meet, ready_call};
use node_places::Places;
use path_set::PathSet;
use space_step::AcceptedCall;
use space_tree::{Path, Space, at};
use std::alloc::{AllocError, Global};

/// A call that may meet its children, and the path of its space.
#[derive(Drop)]
struct Found {
    path: Path,
    call: AcceptedCall,
}

// The first of the calls listed that may meet its children; those before it are listed no more.
fn find_first(tree: &Space, calls: &mut PathSet) -> Result<Option<Found>, AllocError>
    ensures listed { (run : Runs) (out : Slots) → IsListed tree.now run calls.old [] out → IsListed tree.now run calls.new [] out }
    ensures some { IfOk result (λ o. IfSome o (λ f. IsFirst f.path.items calls.new × (call_at f.path.items greatest_depth tree.now ≡ Some f.call))) }
    ensures none { IfOk result (λ o. IsNone o → calls.new ≡ []) }
{
    while let Some(first) = calls.first() {
        if let Some(call) = ready_call(tree, first) {
            let path = first.clone()?;
            return Ok(Some(Found { path, call }));
        }
        calls.pop_first();
    }
    Ok(None)
}

// The space at a path goes to a node, unless it stands there, and the call that is next of it meets its children: whether it went.
fn go_and_meet(
    alloc: Global,
    places: &mut Places,
    tree: &mut Space,
    path: &Path,
    node: u32,
) -> Result<bool, AllocError>
    requires { node < places.old.nodes }
    ensures met { OnOk result (tree.new ≡ try_meet path.now.items greatest_depth tree.old) }
    ensures gone { IfOk result (λ went. HasGoneIf went path.now.items node places.old places.new) }
    ensures nodes { places.new.nodes ≡ places.old.nodes }
    ensures err { OnErr result ((tree.new ≡ tree.old) × (places.new ≡ places.old)) }
{
    if places.place(path) == node {
        meet(alloc, tree, path)?;
        return Ok(false);
    }
    let before = places.listed(path);
    places.go(copy_path(path)?, node)?;
    if meet(alloc, tree, path).is_err() {
        places.go_back(path, before);
        return Err(AllocError);
    }
    places.settle(path);
    Ok(true)
}

// Spaces that do not stand at home come home, one by one, each with a move in the history. It takes no memory.
fn bring_home(places: &mut Places, history: &mut Vec<Entry>, away: &mut PathSet)
    requires room { vec_len history.old + length away.old ≤ vec_capacity history.old }
    ensures home { BroughtHome away.old places.old places.new history.old.items history.new.items }
    ensures len { vec_len history.new ≡ vec_len history.old + length away.old }
    ensures capacity { vec_capacity history.new ≡ vec_capacity history.old }
{
    let Some(child) = away.take_first() else {
        return;
    };
    let node = places.home(&child);
    places.bring_home(&child);
    history.push_reserved(Entry::Moved { path: child, node });
    bring_home(places, history, away);
}

// Whether the space at a path has stopped.
fn has_stopped(tree: &Space, path: &Path) -> bool
    ensures { result ≡ has_stopped path.now.items tree.now }
{
    match at(tree, path) {
        Some(found) => found.top.is_stopped(),
        None => false,
    }
}

// What a call copied stands at home, unless it stopped its caller. It takes no memory.
fn leave(places: &mut Places, tree: &Space, path: &Path, replaced: &Option<Path>)
    ensures copied { (r : Option (List ℕ)) → IsReplaced path.now.items r replaced.now → AreCopied (has_stopped path.now.items tree.now) path.now.items r places.old places.new }
    ensures nodes { places.new.nodes ≡ places.old.nodes }
{
    if has_stopped(tree, path) {
        return;
    }
    if let Some(below) = replaced {
        places.leave(below);
    }
}

// A call meets its children, for which they were brought together. The one error is want of memory, and then nothing has changed.
fn meet_gathered(
    alloc: Global,
    places: &mut Places,
    tree: &mut Space,
    history: &mut Vec<Entry>,
    path: &Path,
    gathered: Gathered,
) -> Result<(), AllocError>
    requires room { vec_len history.old + (length gathered.away + 2) ≤ vec_capacity history.old }
    requires node { gathered.node < places.old.nodes }
    ensures met { (k : Call) → call_at path.now.items greatest_depth tree.old ≡ Some k → MeetsOn places.old path.now.items (awaits k) gathered.node → AreAway places.old path.now.items (awaits k) gathered.away
        → IsReplaced path.now.items (replaced k) gathered.replaced → OnOk result (HasMetBy path.now k gathered.node tree.old places.old history.old.items tree.new places.new history.new.items) }
    ensures nodes { places.new.nodes ≡ places.old.nodes }
    ensures err { OnErr result ((tree.new ≡ tree.old) × (places.new ≡ places.old) × (history.new.items ≡ history.old.items)) }
    ensures len { vec_len history.new ≤ vec_len history.old + (length gathered.away + 2) }
    ensures grows { vec_len history.old ≤ vec_len history.new }
    ensures capacity { vec_capacity history.new ≡ vec_capacity history.old }
{
    let Gathered {
        node,
        mut away,
        replaced,
    } = gathered;
    let moved = Entry::Moved {
        path: copy_path(path)?,
        node,
    };
    let met = Entry::Met {
        path: copy_path(path)?,
    };
    if go_and_meet(alloc, places, tree, path, node)? {
        history.push_reserved(moved);
    }
    bring_home(places, history, &mut away);
    leave(places, tree, path, &replaced);
    history.push_reserved(met);
    Ok(())
}

impl Board {
    // The least call that may meet its children.
    fn to_meet(&mut self) -> Result<Option<Found>, AllocError>
        ensures same { self.new ≡ self.old }
        ensures some { IfOk result (λ o. IfSome o (λ f. IsLeast (MayMeet self.old) f.path.items × (call_at f.path.items greatest_depth self.old.tree ≡ Some f.call))) }
        ensures none { IfOk result (λ o. IsNone o → (p : List ℕ) → call_at p greatest_depth self.old.tree ≡ None) }
    {
        list_news(
            &mut self.lists.run,
            &mut self.lists.calls,
            &mut self.lists.news,
        )?;
        find_first(&self.tree, &mut self.lists.calls)
    }

    // A call meets its children, behind the moves that bring them together.
    fn meet_found(&mut self, found: Found) -> Result<Path, AllocError>
        requires { call_at found.path.items greatest_depth self.old.tree ≡ Some found.call }
        ensures ok { IfOk result (λ p. (p ≡ found.path) × HasMet self.old p self.new) }
        ensures err { OnErr result (self.new ≡ self.old) }
    {
        let alloc = self.alloc;
        let Found { path, call } = found;
        let gathered = gather(alloc, &mut self.lists, &mut self.tree, &path, call)?;
        let count = with_moves(self.out.len(), gathered.away.len())?;
        self.history.reserve(count)?;
        let run = &mut self.lists.run;
        meet_gathered(
            alloc,
            &mut run.places,
            &mut self.tree,
            &mut self.history,
            &path,
            gathered,
        )?;
        Ok(path)
    }

    /// The least call that may meet its children meets them, and its path is answered: that is the last entry of the history then, behind the moves that bring
    /// it and its children together. None exactly where no
    /// call may meet its children. The one error is want of memory, and then nothing has changed.
    pub fn meet(&mut self) -> Result<Option<Path>, AllocError>
        ensures some { IfOk result (λ o. IfSome o (λ p. Meets self.old p self.new)) }
        ensures none { IfOk result (λ o. IsNone o → (self.new ≡ self.old) × ((p : List ℕ) → call_at p greatest_depth self.old.tree ≡ None)) }
        ensures err { OnErr result (self.new ≡ self.old) }
    {
        match self.to_meet()? {
            Some(found) => Ok(Some(self.meet_found(found)?)),
            None => Ok(None),
        }
    }
}
