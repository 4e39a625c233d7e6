ghost use Rattle.std.specs.Prelude.{◌≡◌, IfOk, OnOk};
ghost use Rattle.space_model.specs.Space.{Space};
ghost use Rattle.explain_core.specs.LastLines.{IsFresh, TellsLines};
ghost use Rattle.explain_why.specs.Runs.{TellAll, TellRuns};

use crate::files::conflicted_flags;
use crate::paths::copy_path;
use crate::runs::{Runs, events_told, lineage_in};
use crate::telling::{Ending, ending_of};
use crate::trap::{address_register, trap_watched};
use explain_core::{LineRun, LineageRun, Wanted, WatchList, Watched};
use space_tree::{Path, Space, Top, at, copy_tree};
use std::alloc::{AllocError, Global};

// How many lists watch bytes at most. Each has a run, and a run keeps a whole tree until all is told. A byte that no list watches is told by
// a run of its own, which ends before the next begins.
const MOST_LISTS: usize = 4;

// What is asked of a path: who changed this.
#[derive(Drop)]
struct Asked {
    path: Path,
    watched: Watched,
}

// Adds what is asked of a space of a settled tree because of the way that it stopped.
fn push_stop(
    asked: &mut Vec<Asked>,
    traps: &mut Vec<Asked>,
    path: &Path,
    top: &Top,
) -> Result<(), AllocError> {
    let path = copy_path(path)?;
    match ending_of(top.status) {
        Ending::Quiet => {}
        Ending::Conflicting(address) => asked.push(Asked {
            path,
            watched: Watched::Byte(address),
        })?,
        Ending::Trapped => traps.push(Asked {
            path,
            watched: trap_watched(address_register(top)),
        })?,
    }
    Ok(())
}

// Adds what is asked of a space of a settled tree because of its files.
fn push_files(
    alloc: Global,
    asked: &mut Vec<Asked>,
    path: &Path,
    top: &Top,
) -> Result<(), AllocError> {
    let addresses = conflicted_flags(alloc, &top.memory)?;
    for address in &addresses {
        asked.push(Asked {
            path: copy_path(path)?,
            watched: Watched::Byte(*address),
        })?;
    }
    Ok(())
}

// Has one of the lists watch this, or else one that is added while there are fewer than `most`.
fn watch(
    alloc: Global,
    lists: &mut Vec<WatchList>,
    asked: &Asked,
    most: usize,
) -> Result<(), AllocError> {
    for index in 0..lists.len() {
        if lists[index].add(&asked.path, asked.watched)? {
            return Ok(());
        }
    }
    if lists.len() < most {
        let mut list = WatchList::new(alloc);
        list.add(&asked.path, asked.watched)?;
        lists.push(list)?;
    }
    Ok(())
}

// What is asked of a space of a settled tree.
fn push_asked(
    alloc: Global,
    asked: &mut Vec<Asked>,
    traps: &mut Vec<Asked>,
    path: &Path,
    top: &Top,
) -> Result<(), AllocError> {
    push_stop(asked, traps, path, top)?;
    push_files(alloc, asked, path, top)
}

// What is asked of the spaces at these paths of a settled tree, without the traps; and of those that another trap has stopped.
fn all_asked(
    alloc: Global,
    end: &Space,
    paths: &[Path],
) -> Result<(Vec<Asked>, Vec<Asked>), AllocError> {
    let mut asked = Vec::new(alloc);
    let mut traps = Vec::new(alloc);
    for path in paths {
        if let Some(space) = at(end, path) {
            push_asked(alloc, &mut asked, &mut traps, path, space.top())?;
        }
    }
    Ok((asked, traps))
}

// Has lists watch what is asked, as few as there are things that are watched at one path, and at most so many.
fn watch_all(
    alloc: Global,
    lists: &mut Vec<WatchList>,
    asked: &[Asked],
    most: usize,
) -> Result<(), AllocError> {
    for one in asked {
        watch(alloc, lists, one, most)?;
    }
    Ok(())
}

// A run for each list.
fn lineage_runs(
    alloc: Global,
    root: &mut Space,
    lists: Vec<WatchList>,
) -> Result<Vec<LineageRun>, AllocError>
    ensures runs { IfOk result (λ v. TellAll root.old v.items) }
    ensures same { root.new ≡ root.old }
{
    let mut runs = Vec::new(alloc);
    for list in lists {
        let tree = copy_tree(alloc, root)?;
        let run = LineageRun::new(alloc, tree, list)?;
        runs.push(run)?;
    }
    Ok(runs)
}

// Adds the last two events of a space that a trap has stopped to what is wanted.
fn want(
    alloc: Global,
    runs: &mut Vec<LineageRun>,
    wanted: &mut Wanted,
    trap: &Asked,
) -> Result<(), AllocError>
    ensures runs { OnOk result ((root : Space) → TellAll root runs.old.items → TellAll root runs.new.items) }
    ensures fresh { OnOk result (IsFresh wanted.old → IsFresh wanted.new) }
{
    match lineage_in(alloc, runs, &trap.path, trap.watched)? {
        Some(links) => wanted.add(alloc, &trap.path, events_told(&links)),
        None => Ok(()),
    }
}

// A run that tells the last two events of these spaces.
fn line_run(
    alloc: Global,
    root: &mut Space,
    runs: &mut Vec<LineageRun>,
    traps: &[Asked],
) -> Result<LineRun, AllocError>
    ensures lines { IfOk result (TellsLines root.old) }
    ensures runs { IfOk result (λ _. (r : Space) → TellAll r runs.old.items → TellAll r runs.new.items) }
    ensures same { root.new ≡ root.old }
{
    let mut wanted = Wanted::new(alloc);
    for trap in traps {
        want(alloc, runs, &mut wanted, trap)?;
    }
    let tree = copy_tree(alloc, root)?;
    LineRun::new(alloc, tree, wanted)
}

// Lists that watch what is asked of spaces, without the traps, and then of the traps. One more list has room for all traps, since no two of
// them are of one path.
fn all_lists(
    alloc: Global,
    asked: &[Asked],
    traps: &[Asked],
) -> Result<Vec<WatchList>, AllocError> {
    let mut lists = Vec::new(alloc);
    watch_all(alloc, &mut lists, asked, MOST_LISTS)?;
    watch_all(alloc, &mut lists, traps, MOST_LISTS + 1)?;
    Ok(lists)
}

// Runs that tell who changed what, and no last events.
fn runs_without_lines(alloc: Global, root: &mut Space, asked: &[Asked]) -> Result<Runs, AllocError>
    ensures runs { IfOk result (TellRuns root.old) }
    ensures same { root.new ≡ root.old }
{
    let lists = all_lists(alloc, asked, &[])?;
    let lineages = lineage_runs(alloc, root, lists)?;
    Ok(Runs {
        lineages,
        lines: None,
    })
}

// These runs, and one more for the last two events of traps.
fn with_lines(
    alloc: Global,
    root: &mut Space,
    lineages: Vec<LineageRun>,
    traps: &[Asked],
) -> Result<Runs, AllocError>
    requires runs { TellAll root.old lineages.items }
    ensures runs { IfOk result (TellRuns root.old) }
    ensures same { root.new ≡ root.old }
{
    let mut lineages = lineages;
    match line_run(alloc, root, &mut lineages, traps) {
        Ok(lines) => Ok(Runs {
            lineages,
            lines: Some(lines),
        }),
        Err(error) => Err(error),
    }
}

// Runs that tell who changed what, of the traps too, and the last two events of these.
fn runs_with_lines(
    alloc: Global,
    root: &mut Space,
    asked: &[Asked],
    traps: &[Asked],
) -> Result<Runs, AllocError>
    ensures runs { IfOk result (TellRuns root.old) }
    ensures same { root.new ≡ root.old }
{
    let lists = all_lists(alloc, asked, traps)?;
    let lineages = lineage_runs(alloc, root, lists)?;
    with_lines(alloc, root, lineages, traps)
}

// Runs that answer what is asked.
fn runs_of(
    alloc: Global,
    root: &mut Space,
    asked: &[Asked],
    traps: &[Asked],
) -> Result<Runs, AllocError>
    ensures runs { IfOk result (TellRuns root.old) }
    ensures same { root.new ≡ root.old }
{
    // A single trap has a run of its own, which takes less.
    if traps.len() < 2 {
        return runs_without_lines(alloc, root, asked);
    }
    runs_with_lines(alloc, root, asked, traps)
}

/// Runs of a tree that answer for the spaces at these paths of the settled tree.
pub(crate) fn runs_for(
    alloc: Global,
    root: &mut Space,
    end: &Space,
    paths: &[Path],
) -> Result<Runs, AllocError>
    ensures runs { IfOk result (TellRuns root.old) }
    ensures same { root.new ≡ root.old }
{
    let (asked, traps) = all_asked(alloc, end, paths)?;
    runs_of(alloc, root, &asked, &traps)
}
