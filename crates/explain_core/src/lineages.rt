ghost use Rattle.std.specs.Prelude.{◌≡◌, ◌++◌, false, true, IfOk, IfSome, OnOk, map, option_map};
ghost use Rattle.space_model.specs.Sound.{IsSound};
ghost use Rattle.space_model.specs.Space.{Space};
ghost use Rattle.explain_core.specs.Beside.{all};
ghost use Rattle.explain_core.specs.Going.{WayStopped};
ghost use Rattle.explain_core.specs.Lineage.{TellsLineage, events_told, noted_link, told_links};
ghost use Rattle.explain_core.specs.LineageRun.{TellsRun};
ghost use Rattle.explain_core.specs.Notes.{note_at};
ghost use Rattle.explain_core.specs.Reached.{HasSoMany};
ghost use Rattle.explain_core.specs.Watch.{told};

use crate::joins::joined_by;
use crate::lineage::{Link, Notes, count_at, links_at};
use crate::walking::walk;
use crate::watch_list::{WatchList, watched_at};
use crate::watching::{Change, Watched, told_change};
use space_step::DecodeCache;
use space_tree::{Path, Space};
use std::alloc::{AllocError, Global};

/// The own events of a space up to some moment.
#[derive(Drop)]
pub struct LineageLink {
    /// How many there are.
    pub count: u64,
    /// The last of them that changed what is watched.
    pub change: Option<Change>,
}

// What is told of a link of the space at a path.
fn told_link(alloc: Global, path: &Path, link: Link) -> Result<LineageLink, AllocError>
    ensures { IfOk result (λ l. noted_link l ≡ record { count = link.count; change = option_map (told path.now.items) link.last }) }
{
    let change = told_change(alloc, path, &link.last)?;
    Ok(LineageLink {
        count: link.count,
        change,
    })
}

// Adds what is told of links, the first of which is of the space at a path.
fn push_told(
    alloc: Global,
    path: &Path,
    watched: Watched,
    links: &[Link],
    lineage: &mut Vec<LineageLink>,
) -> Result<(), AllocError>
    ensures { OnOk result (map noted_link lineage.new.items ≡ map noted_link lineage.old.items ++ told_links path.now.items watched links.now) }
{
    let [first, rest @ ..] = links else {
        return Ok(());
    };
    lineage.push(told_link(alloc, path, *first)?)?;
    match joined_by(path, watched, first.last)? {
        Some(child) => push_told(alloc, &child, watched, rest, lineage),
        None => Ok(()),
    }
}

// What is told of the links of a path.
fn lineage_at(
    alloc: Global,
    notes: &Notes,
    path: &Path,
    watched: Watched,
) -> Result<Vec<LineageLink>, AllocError>
    ensures { IfOk result (λ v. map noted_link v.items ≡ told_links path.now.items watched (note_at notes.now.entries path.now.items)) }
{
    let mut lineage = Vec::new(alloc);
    push_told(alloc, path, watched, links_at(notes, path), &mut lineage)?;
    Ok(lineage)
}

/// A run in which the lineages of many paths are found: a tree that goes on by demand, for one path after the other, and notes of all.
#[derive(Drop)]
pub struct LineageRun {
    cache: DecodeCache,
    tree: Space,
    list: WatchList,
    notes: Notes,
    // Whether no answer is to come any more.
    lost: bool,
}

impl LineageRun {
    /// A run of a tree, in which nothing has happened yet. The one error is want of memory.
    pub fn new(alloc: Global, tree: Space, list: WatchList) -> Result<LineageRun, AllocError>
        ensures { IfOk result (TellsRun tree) }
    {
        match DecodeCache::new(alloc) {
            Ok(cache) => {
                let notes = Notes::new(alloc);
                Ok(LineageRun {
                    cache,
                    tree,
                    list,
                    notes,
                    lost: false,
                })
            }
            Err(error) => Err(error),
        }
    }
}

// The run goes on until the space at a path and all on the way to it have stopped; `false` where no answer is to come.
fn come_to(alloc: Global, run: &mut LineageRun, path: &Path) -> Result<bool, AllocError>
    ensures run { IfOk result (λ _. (root : Space) → TellsRun root run.old → TellsRun root run.new) }
    ensures list { run.new.list ≡ run.old.list }
    ensures over { IfOk result (λ over. over ≡ true → (run.new.lost ≡ false) × WayStopped path.now.items run.new.tree) }
{
    if run.lost {
        return Ok(false);
    }
    let over = walk(
        alloc,
        &mut run.cache,
        &mut run.tree,
        &mut run.notes,
        &run.list,
        path,
    )?;
    run.lost = !over;
    Ok(over)
}

// Whether the same is watched.
fn is_same(watched: Watched, other: Watched) -> bool
    ensures { result ≡ true → watched ≡ other }
{
    watched == other
}

/// Where what is watched of a path comes from, through joins all the way down: the first link has all own events of the path, and behind a link whose event joined a child comes one with
/// that child's own events before the join; of a space without own events there are no links. The run goes on as far as it takes, and what it has found stays for later questions. None
/// where the run gives no answer, as it does where its list watches something else there: then `last_change` and `change_before` tell the same, in a run for each join. The one error is
/// want of memory.
pub fn lineage_of(
    alloc: Global,
    run: &mut LineageRun,
    path: &Path,
    watched: Watched,
) -> Result<Option<Vec<LineageLink>>, AllocError>
    ensures tells { (root : Space) → IsSound root → TellsRun root run.old → IfOk result (λ o. IfSome o (λ v. TellsLineage root watched path.now.items all (map noted_link v.items))) }
    // The first link has all own events.
    ensures count { (root : Space) → IsSound root → TellsRun root run.old → IfOk result (λ o. IfSome o (λ v. HasSoMany root path.now.items (events_told (map noted_link v.items)))) }
    ensures run { IfOk result (λ _. (root : Space) → TellsRun root run.old → TellsRun root run.new) }
{
    let here = watched_at(&run.list, path)?;
    if !is_same(here, watched) {
        return Ok(None);
    }
    let over = come_to(alloc, run, path)?;
    if !over {
        return Ok(None);
    }
    let _count = count_at(&run.notes, path);
    let links = lineage_at(alloc, &run.notes, path, watched)?;
    Ok(Some(links))
}
