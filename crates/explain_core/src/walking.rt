ghost use Rattle.std.specs.Prelude.{◌≡◌, ◌∷◌, true, IfOk, IfSome};
ghost use Rattle.space_model.specs.Space.{Space, children_of};
ghost use Rattle.explain_core.specs.Notes.{GoesOnTelling, TellsAll};
ghost use Rattle.explain_core.specs.Stretch.{IsWatchable};
ghost use Rattle.explain_core.specs.Going.{BelowStopped, WayStopped};
ghost use Rattle.explain_core.specs.WatchList.{watched_at};

use crate::choosing::next_path;
use crate::going::is_watchable;
use crate::lineage::Notes;
use crate::turning::turn_at;
use crate::watch_list::{WatchList, watched_at};
use crate::watching::Watched;
use space_step::DecodeCache;
use space_tree::{Path, Space};
use std::alloc::{AllocError, Global};

/// Whether every space on the way to a path, and the one there, has stopped, where it is there.
#[cycle(way_stopped)]
pub(crate) fn way_stopped(space: &Space, path: &[u16]) -> bool
    ensures { result ≡ true → WayStopped path.now space.now }
{
    match path {
        [] => space.top.is_stopped(),
        [number, rest @ ..] => space.top.is_stopped() && below_stopped(space, *number, rest),
    }
}

// The same of the spaces below one.
#[cycle(way_stopped)]
fn below_stopped(space: &Space, number: u16, rest: &[u16]) -> bool
    ensures { result ≡ true → BelowStopped (number ∷ rest.now) (children_of space.now) }
{
    match space.children.get(number) {
        Some(child) => way_stopped(child, rest),
        None => true,
    }
}

// Turns of the space at a path, as long as it goes on, and whether there were any; none where no answer is to come.
fn turns_at(
    alloc: Global,
    cache: &mut DecodeCache,
    tree: &mut Space,
    notes: &mut Notes,
    path: &Path,
    watched: Watched,
) -> Result<Option<bool>, AllocError>
    requires { IsWatchable watched }
    ensures { IfOk result (λ o. IfSome o (λ _. GoesOnTelling path.now.items watched notes.old.entries notes.new.entries tree.old tree.new)) }
{
    let mut some = false;
    'turns: for _ in 0..u64::MAX {
        match turn_at(alloc, cache, tree, notes, path, watched)? {
            Some(true) => some = true,
            Some(false) => return Ok(Some(some)),
            None => return Ok(None),
        }
    }
    Ok(None)
}

// The same by what a list watches there.
fn listed_turns(
    alloc: Global,
    cache: &mut DecodeCache,
    tree: &mut Space,
    notes: &mut Notes,
    list: &WatchList,
    path: &Path,
) -> Result<Option<bool>, AllocError>
    ensures { IfOk result (λ o. IfSome o (λ _. (root : Space) → TellsAll root (watched_at list.now.wanted.entries) notes.old.entries tree.old → TellsAll root (watched_at list.now.wanted.entries) notes.new.entries tree.new)) }
{
    let watched = watched_at(list, path)?;
    if !is_watchable(watched) {
        return Ok(None);
    }
    turns_at(alloc, cache, tree, notes, path, watched)
}

/// Turns until a space and all on the way to it have stopped; `false` where no answer is to come.
pub(crate) fn walk(
    alloc: Global,
    cache: &mut DecodeCache,
    tree: &mut Space,
    notes: &mut Notes,
    list: &WatchList,
    path: &Path,
) -> Result<bool, AllocError>
    ensures tells { IfOk result (λ over. over ≡ true → (root : Space) → TellsAll root (watched_at list.now.wanted.entries) notes.old.entries tree.old → TellsAll root (watched_at list.now.wanted.entries) notes.new.entries tree.new) }
    ensures path { IfOk result (λ over. over ≡ true → WayStopped path.now.items tree.new) }
{
    let mut last = Path::new();
    'turns: for _ in 0..u64::MAX {
        if way_stopped(tree, path.as_slice()) {
            return Ok(true);
        }
        last = next_path(tree, &last, path);
        match listed_turns(alloc, cache, tree, notes, list, &last)? {
            Some(true) => {}
            Some(false) | None => return Ok(false),
        }
    }
    Ok(false)
}
