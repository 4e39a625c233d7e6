ghost use Rattle.std.specs.Prelude.{◌≡◌, ◌-◌, IfOk, IfSome, OnOk};
ghost use Rattle.space_model.specs.Space.{Space};
ghost use Rattle.explain_core.specs.LastLines.{HasAll, IsFresh, TellsEndings, TellsLines};
ghost use Rattle.explain_core.specs.Reached.{IsTrace};

use crate::choosing::next_path;
use crate::going::copied;
use crate::last_lines::{Ending, Endings, line_turn};
use space_step::DecodeCache;
use space_tree::{Path, Space};
use std::alloc::{AllocError, Global};

/// The last two own events of which spaces are wanted, and how many own events these are to have.
#[derive(Drop)]
pub struct Wanted {
    pub(crate) endings: Endings,
}

impl Wanted {
    /// None are wanted yet.
    pub fn new(alloc: Global) -> Wanted
        ensures { IsFresh result }
    {
        let endings = Endings::new(alloc);
        Wanted { endings }
    }

    /// Those of a path are wanted, which is to have so many own events.
    pub fn add(&mut self, alloc: Global, path: &Path, count: u64) -> Result<(), AllocError>
        ensures { IsFresh self.old → OnOk result (IsFresh self.new) }
    {
        let path = copied(path)?;
        let ending = Ending {
            count,
            had: 0,
            lines: Vec::new(alloc),
        };
        self.endings.insert(path, ending)?;
        Ok(())
    }
}

/// A run in which the lines of the last two own events of many paths are found: a tree that goes on by demand, for one path after the other.
#[derive(Drop)]
pub struct LineRun {
    cache: DecodeCache,
    tree: Space,
    endings: Endings,
}

impl LineRun {
    /// A run of a tree, in which nothing has happened yet. The one error is want of memory.
    pub fn new(alloc: Global, tree: Space, wanted: Wanted) -> Result<LineRun, AllocError>
        ensures { IsFresh wanted → IfOk result (TellsLines tree) }
    {
        match DecodeCache::new(alloc) {
            Ok(cache) => Ok(LineRun {
                cache,
                tree,
                endings: wanted.endings,
            }),
            Err(error) => Err(error),
        }
    }
}

// Whether a path has had as many own events as it is to have, or has no lines.
fn is_over(endings: &Endings, path: &Path) -> bool {
    match endings.get(path) {
        Some(ending) => ending.had == ending.count,
        None => true,
    }
}

// Turns of the space at a path, as long as it goes on, and whether there were any.
fn line_turns(
    alloc: Global,
    cache: &mut DecodeCache,
    tree: &mut Space,
    endings: &mut Endings,
    path: &Path,
) -> Result<bool, AllocError>
    ensures { IfOk result (λ _. (root : Space) → TellsEndings root endings.old.entries tree.old → TellsEndings root endings.new.entries tree.new) }
{
    let mut some = false;
    'turns: for _ in 0..u64::MAX {
        if !line_turn(alloc, cache, tree, endings, path)? {
            return Ok(some);
        }
        some = true;
    }
    Ok(some)
}

// The run goes on until the space at a path has had as many own events as it is to have, or as long as it can.
fn line_walk(alloc: Global, run: &mut LineRun, path: &Path) -> Result<(), AllocError>
    ensures { OnOk result ((root : Space) → TellsLines root run.old → TellsLines root run.new) }
{
    let mut last = Path::new();
    'turns: for _ in 0..u64::MAX {
        if is_over(&run.endings, path) {
            return Ok(());
        }
        last = next_path(&run.tree, &last, path);
        if !line_turns(
            alloc,
            &mut run.cache,
            &mut run.tree,
            &mut run.endings,
            &last,
        )? {
            return Ok(());
        }
    }
    Ok(())
}

// The lines of a path, where it has had so many own events.
fn lines_at(
    alloc: Global,
    endings: &Endings,
    path: &Path,
    count: u64,
) -> Result<Option<Vec<u8>>, AllocError>
    ensures { IfOk result (λ o. IfSome o (λ v. HasAll path.now.items count v.items endings.now.entries)) }
{
    match endings.get(path) {
        Some(ending) => {
            if ending.had != count || ending.count != count {
                return Ok(None);
            }
            let mut lines = Vec::new(alloc);
            lines.extend_from_slice(&ending.lines)?;
            Ok(Some(lines))
        }
        None => Ok(None),
    }
}

/// The lines of the last two of the first so many own events of a path, as `trace` tells them. The run goes on as far as it takes, and what it has found stays for later questions. None
/// where the run gives no answer, as it does where other events are wanted: then `trace` does. The one error is want of memory.
pub fn last_two_lines(
    alloc: Global,
    run: &mut LineRun,
    path: &Path,
    count: u64,
) -> Result<Option<Vec<u8>>, AllocError>
    ensures lines { IfOk result (λ o. IfSome o (λ v. (root : Space) → TellsLines root run.old → IsTrace root path.now.items (count - 1) count v.items)) }
    ensures run { IfOk result (λ _. (root : Space) → TellsLines root run.old → TellsLines root run.new) }
{
    line_walk(alloc, run, path)?;
    lines_at(alloc, &run.endings, path, count)
}
