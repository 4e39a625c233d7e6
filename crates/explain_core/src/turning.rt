ghost use Rattle.std.specs.Prelude.{◌≡◌, ◌+◌, ◌-◌, ◌≤◌, ◌^◌, ◌==◌, ◌∷◌, ℕ, [], None, Some, IfOk, IfSome, if◌then◌else◌};
ghost use Rattle.call_model.specs.Limits.{greatest_depth};
ghost use Rattle.space_model.specs.Path.{at};
ghost use Rattle.space_model.specs.Space.{Space, top_of};
ghost use Rattle.explain_core.specs.Notes.{GoesOnTelling};
ghost use Rattle.explain_core.specs.Stretch.{IsWatchable};
ghost use Rattle.explain_core.specs.TurnsAt.{TurnsAt};
ghost use Rattle.explain_core.specs.Watch.{found_by, moment_of, watched_in};
ghost use Rattle.explain_core.specs.declared.watching.Noticing.TheVariants as kinds;

use crate::lineage::{Notes, count_at, keep_turn};
use crate::stretch::{Stretch, watch_stretch};
use crate::watching::{Found, Moment, Noticing, Watched, found_by, registers_of, watched_in};
use demand_eval::STRETCH;
use det_core::step;
use space_step::DecodeCache;
use space_tree::{Path, Space, Top, at};
use std::alloc::{AllocError, Global};

// Nothing has happened.
fn no_events() -> Stretch
    ensures count { result.count ≡ 0 }
    ensures last { result.last ≡ None }
{
    Stretch {
        count: 0,
        last: None,
    }
}

// Instructions of a space itself, at most so many, up to a call or a trap; before them it had so many own events.
fn stretch_itself(
    cache: &mut DecodeCache,
    space: &mut Space,
    watched: Watched,
    before: u64,
    most: u32,
) -> Stretch
    requires watchable { IsWatchable watched }
    requires fits { before + 1 + most ≤ 2 ^ 64 - 1 }
    ensures turns { (levels : ℕ) → TurnsAt levels watched [] before result.count result.last space.old space.new }
    ensures within { result.count ≤ most }
{
    if space.top.is_stopped() {
        return no_events();
    }
    watch_stretch(cache, &mut space.top, most, watched, before + 1)
}

// Instructions of the space at a path below a space.
#[cycle(stretch_at)]
fn stretch_below(
    cache: &mut DecodeCache,
    space: &mut Space,
    number: u16,
    rest: &[u16],
    watched: Watched,
    before: u64,
    most: u32,
) -> Stretch
    requires watchable { IsWatchable watched }
    requires fits { before + 1 + most ≤ 2 ^ 64 - 1 }
    ensures turns { (levels : ℕ) → TurnsAt levels watched (number ∷ rest.now) before result.count result.last space.old space.new }
    ensures within { result.count ≤ most }
{
    match space.children.get_mut(number) {
        Some(child) => stretch_at(cache, child, rest, watched, before, most),
        None => no_events(),
    }
}

/// Instructions of the space at a path from a space, at most so many, up to a call or a trap; before them it had so many own events.
#[cycle(stretch_at)]
pub(crate) fn stretch_at(
    cache: &mut DecodeCache,
    space: &mut Space,
    path: &[u16],
    watched: Watched,
    before: u64,
    most: u32,
) -> Stretch
    requires watchable { IsWatchable watched }
    requires fits { before + 1 + most ≤ 2 ^ 64 - 1 }
    ensures turns { (levels : ℕ) → TurnsAt levels watched path.now before result.count result.last space.old space.new }
    ensures within { result.count ≤ most }
{
    match path {
        [] => stretch_itself(cache, space, watched, before, most),
        [number, rest @ ..] => { stretch_below(cache, space, *number, rest, watched, before, most) }
    }
}

// What is found of an event of a number, by what it found and what it left, where it changed what is watched.
fn changed_in(watched: Watched, number: u64, found: Found, after: &Top) -> Option<Moment>
    ensures { result ≡ (if watched_in watched after.now == found.value then None else Some (moment_of watched number found after.now)) }
{
    let value = watched_in(watched, after);
    if value == found.value {
        return None;
    }
    Some(Moment {
        number,
        found,
        after: registers_of(after),
        status: after.status,
        value,
    })
}

// What the next event of the space at a path finds; none exactly where no space stands there.
fn found_at(tree: &Space, path: &Path, watched: Watched) -> Option<Found>
    ensures some { IfSome result (λ f. (s : Space) × (at path.now.items tree.now ≡ Some s) × (f ≡ found_by (kinds.Change watched) (top_of s))) }
{
    let space = at(tree, path)?;
    Some(found_by(Noticing::Change(watched), &space.top))
}

/// The event at a path, where it may happen; before it there were so many own events there. No events are told where it may not, and then nothing has changed.
pub(crate) fn event_at(
    alloc: Global,
    cache: &mut DecodeCache,
    tree: &mut Space,
    path: &Path,
    watched: Watched,
    before: u64,
) -> Result<Stretch, AllocError>
    requires fits { before + 1 ≤ 2 ^ 64 - 1 }
    ensures turns { IfOk result (λ s. TurnsAt greatest_depth watched path.now.items before s.count s.last tree.old tree.new) }
    ensures one { IfOk result (λ s. s.count ≤ 1) }
{
    let Some(found) = found_at(tree, path, watched) else {
        return Ok(no_events());
    };
    let happened = step(alloc, cache, tree, path)?;
    if !happened {
        return Ok(no_events());
    }
    match at(tree, path) {
        Some(space) => Ok(Stretch {
            count: 1,
            last: changed_in(watched, before + 1, found, &space.top),
        }),
        None => Ok(no_events()),
    }
}

// The most own events of a path before a turn there.
const MOST: u64 = 1 << 62;

// Instructions of the space at a path up to a call or a trap, kept in its note, and whether there were any; none where there are too many events.
fn stretch_kept(
    alloc: Global,
    cache: &mut DecodeCache,
    tree: &mut Space,
    notes: &mut Notes,
    path: &Path,
    watched: Watched,
) -> Result<Option<bool>, AllocError>
    requires { IsWatchable watched }
    ensures { IfOk result (λ o. IfSome o (λ _. GoesOnTelling path.now.items watched notes.old.entries notes.new.entries tree.old tree.new)) }
{
    let before = count_at(notes, path);
    if before > MOST {
        return Ok(None);
    }
    let stretch = stretch_at(cache, tree, path.as_slice(), watched, before, STRETCH);
    keep_turn(alloc, notes, path, watched, stretch)
}

// The event that is next at a path, where it may happen, kept in its note, and whether it has; none where there are too many events.
fn event_kept(
    alloc: Global,
    cache: &mut DecodeCache,
    tree: &mut Space,
    notes: &mut Notes,
    path: &Path,
    watched: Watched,
) -> Result<Option<bool>, AllocError>
    ensures { IfOk result (λ o. IfSome o (λ _. GoesOnTelling path.now.items watched notes.old.entries notes.new.entries tree.old tree.new)) }
{
    let before = count_at(notes, path);
    if before > MOST {
        return Ok(None);
    }
    match event_at(alloc, cache, tree, path, watched, before) {
        Ok(event) => keep_turn(alloc, notes, path, watched, event),
        Err(error) => Err(error),
    }
}

/// A turn of the space at a path: instructions up to a call or a trap, and then the event that is next, where it may happen. Notes that told of all paths before tell of all paths
/// after it. It says whether anything has happened; none where no answer is to come, since there are too many events.
pub(crate) fn turn_at(
    alloc: Global,
    cache: &mut DecodeCache,
    tree: &mut Space,
    notes: &mut Notes,
    path: &Path,
    watched: Watched,
) -> Result<Option<bool>, AllocError>
    requires { IsWatchable watched }
    ensures { IfOk result (λ o. IfSome o (λ _. GoesOnTelling path.now.items watched notes.old.entries notes.new.entries tree.old tree.new)) }
{
    let Some(ran) = stretch_kept(alloc, cache, tree, notes, path, watched)? else {
        return Ok(None);
    };
    let Some(happened) = event_kept(alloc, cache, tree, notes, path, watched)? else {
        return Ok(None);
    };
    Ok(Some(ran || happened))
}
