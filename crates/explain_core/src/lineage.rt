ghost use Rattle.std.specs.Prelude.{◌≡◌, ◌+◌, ◌-◌, ◌≤◌, ◌^◌, ◌∷◌, [], true, IfOk, IsSome, OnOk, option_map};
ghost use Rattle.explain_core.specs.Lineage.{count_of, counted};
ghost use Rattle.explain_core.specs.Notes.{IsKept, KeepsTurn, Puts, note_at, through};

use crate::going::copied;
use crate::joins::joined_by;
use crate::stretch::Stretch;
use crate::watching::{Moment, Watched};
use space_tree::Path;
use std::alloc::{AllocError, Global};
use std::collections::BTreeMap;

/// Of a space: how many own events it has had, and the last of them that changed what is watched.
#[derive(Clone, Copy, Debug, PartialEq, Eq)]
pub(crate) struct Link {
    pub(crate) count: u64,
    pub(crate) last: Option<Moment>,
}

/// What is known of the spaces that have had events, by their paths: a link of the space itself first, and each next one of the child that the one before joined.
pub(crate) type Notes = BTreeMap<Path, Vec<Link>>;

/// The links of a path; none where it has had no event.
pub(crate) fn links_at<'a>(notes: &'a Notes, path: &Path) -> &'a [Link]
    ensures { result.now ≡ note_at notes.now.entries path.now.items }
{
    match notes.get(path) {
        Some(links) => links.as_slice(),
        None => &[],
    }
}

// The links of the child that was joined, if any.
fn through<'a>(notes: &'a Notes, joined: &Option<Path>) -> &'a [Link]
    ensures { result.now ≡ through notes.now.entries (option_map (λ p. p.items) joined.now) }
{
    match joined {
        Some(path) => links_at(notes, path),
        None => &[],
    }
}

// How many own events links tell of.
fn count_of(links: &[Link]) -> u64
    ensures { result ≡ count_of links.now }
{
    match links {
        [] => 0,
        [first, ..] => first.count,
    }
}

/// How many own events the notes tell of at a path.
pub(crate) fn count_at(notes: &Notes, path: &Path) -> u64
    ensures { result ≡ count_of (note_at notes.now.entries path.now.items) }
{
    count_of(links_at(notes, path))
}

// A link, and then others.
fn with_first(alloc: Global, first: Link, rest: &[Link]) -> Result<Vec<Link>, AllocError>
    ensures { IfOk result (λ v. v.items ≡ first ∷ rest.now) }
{
    let mut links = Vec::with_capacity(alloc, rest.len() + 1)?;
    links.push(first)?;
    links.extend_from_slice(rest)?;
    Ok(links)
}

// Puts other links of a path in the place of those that are there.
fn put_links(notes: &mut Notes, path: &Path, links: Vec<Link>) -> Result<(), AllocError>
    ensures { OnOk result (Puts path.now.items links.items notes.old.entries notes.new.entries) }
{
    let path = copied(path)?;
    notes.insert(path, links)?;
    Ok(())
}

// Counts so many more events in links, of which none changed what is watched.
fn count_more(links: &mut Vec<Link>, count: u32) -> Result<(), AllocError>
    requires { count_of links.old.items + count ≤ 2 ^ 64 - 1 }
    ensures { OnOk result (links.new.items ≡ counted count links.old.items) }
{
    match links.first_mut() {
        Some(first) => {
            first.count += u64::from(count);
            Ok(())
        }
        None => {
            links.push(Link {
                count: u64::from(count),
                last: None,
            })?;
            Ok(())
        }
    }
}

// The first events of a path, of which none changed what is watched.
fn begin_count(alloc: Global, notes: &mut Notes, path: &Path, count: u32) -> Result<(), AllocError>
    requires { note_at notes.old.entries path.now.items ≡ [] }
    ensures { OnOk result (Puts path.now.items (counted count []) notes.old.entries notes.new.entries) }
{
    let first = Link {
        count: u64::from(count),
        last: None,
    };
    let links = with_first(alloc, first, &[])?;
    put_links(notes, path, links)
}

// Keeps a turn at a path that changed nothing of what is watched.
fn keep_count(alloc: Global, notes: &mut Notes, path: &Path, count: u32) -> Result<(), AllocError>
    requires { count_of (note_at notes.old.entries path.now.items) + count ≤ 2 ^ 64 - 1 }
    ensures { OnOk result (Puts path.now.items (counted count (note_at notes.old.entries path.now.items)) notes.old.entries notes.new.entries) }
{
    match notes.get_mut(path) {
        Some(links) => count_more(links, count),
        None => begin_count(alloc, notes, path, count),
    }
}

// Keeps a turn at a path by the last event there that changed what is watched; `false` where that joined a child and is not the only event.
fn keep_change(
    alloc: Global,
    notes: &mut Notes,
    path: &Path,
    watched: Watched,
    turn: Stretch,
) -> Result<bool, AllocError>
    requires last { IsSome turn.last }
    requires fits { count_of (note_at notes.old.entries path.now.items) + turn.count ≤ 2 ^ 64 - 1 }
    ensures { IfOk result (λ kept. kept ≡ true → KeepsTurn path.now.items watched turn.count turn.last notes.old.entries notes.new.entries) }
{
    let joined = joined_by(path, watched, turn.last)?;
    if joined.is_some() && turn.count != 1 {
        return Ok(false);
    }
    let link = Link {
        count: count_at(notes, path) + u64::from(turn.count),
        last: turn.last,
    };
    let links = with_first(alloc, link, through(notes, &joined))?;
    put_links(notes, path, links)?;
    Ok(true)
}

// Keeps a turn at a path that had events; `false` where the last that changed what is watched joined a child and is not the only one.
fn keep_events(
    alloc: Global,
    notes: &mut Notes,
    path: &Path,
    watched: Watched,
    turn: Stretch,
) -> Result<bool, AllocError>
    requires { count_of (note_at notes.old.entries path.now.items) + turn.count ≤ 2 ^ 64 - 1 }
    ensures { IfOk result (λ kept. kept ≡ true → KeepsTurn path.now.items watched turn.count turn.last notes.old.entries notes.new.entries) }
{
    let last = turn.last;
    match last {
        None => {
            keep_count(alloc, notes, path, turn.count)?;
            Ok(true)
        }
        Some(_) => keep_change(alloc, notes, path, watched, turn),
    }
}

/// Keeps a turn at a path in its note, where it had events, and says whether it had; none where the last that changed what is watched joined a child and is not the only one.
pub(crate) fn keep_turn(
    alloc: Global,
    notes: &mut Notes,
    path: &Path,
    watched: Watched,
    turn: Stretch,
) -> Result<Option<bool>, AllocError>
    requires { count_of (note_at notes.old.entries path.now.items) + turn.count ≤ 2 ^ 64 - 1 }
    ensures { IfOk result (IsKept path.now.items watched turn.count turn.last notes.old.entries notes.new.entries) }
{
    if turn.count == 0 {
        return Ok(Some(false));
    }
    match keep_events(alloc, notes, path, watched, turn) {
        Ok(true) => Ok(Some(true)),
        Ok(false) => Ok(None),
        Err(error) => Err(error),
    }
}
