ghost use Rattle.std.specs.Prelude.{◌+◌, ◌-◌, ◌<◌, ◌^◌, ◌⊎◌, IfOk, IfSome, IsNone, Some, option_map};
ghost use Rattle.space_model.specs.Sound.{IsSound};
ghost use Rattle.explain_core.specs.Beside.{all};
ghost use Rattle.explain_core.specs.Ending.{AsksChange, HasHad, HasOthers, TellsChange, TellsLines};
ghost use Rattle.explain_core.specs.Reached.{HasAtLeast, HasFewerThan, HasSoMany, IsTrace, TellsLastOf};
ghost use Rattle.explain_core.specs.Watch.{kept_of, noted_of};

use crate::going::{copied, go_as_asked, go_on};
use crate::watching::{Asked, Change, Kept, Noticing, Watched, told_last};
use space_tree::{Path, Space, copy_tree};
use std::alloc::{AllocError, Global};

/// The last own events of a space.
#[derive(Drop)]
pub struct LastEvents {
    /// The lines of the last two, as in a trace.
    pub lines: Vec<u8>,
    /// The last of all that changed what is watched.
    pub change: Option<Change>,
}

// Own events of the space at a path, up to that of a number: what was the last that changed what is watched, or nothing, where nothing is.
fn changes_asked(path: &Path, to: u64, watched: Option<Watched>) -> Result<Asked, AllocError>
    ensures { IfOk result (λ a. AsksChange path.now.items to watched a) }
{
    let path = copied(path)?;
    match watched {
        Some(watched) => Ok(Asked {
            path,
            from: 1,
            to,
            noticing: Noticing::Change(watched),
        }),
        None => Ok(Asked {
            path,
            from: u64::MAX,
            to,
            noticing: Noticing::Lines,
        }),
    }
}

// All but the last two of so many own events happen, and what is kept of them is answered; none where there are fewer.
fn go_before(
    alloc: Global,
    tree: &mut Space,
    path: &Path,
    count: u64,
    watched: Option<Watched>,
) -> Result<Option<Kept>, AllocError>
    requires { IsSound tree.old }
    ensures some { IfOk result (λ o. IfSome o (λ k. HasHad tree.old path.now.items (count - 2) watched (kept_of k) tree.new)) }
    ensures none { IfOk result (λ o. IsNone o → HasFewerThan tree.old path.now.items count) }
{
    let asked = changes_asked(path, count.saturating_sub(2), watched)?;
    let mut kept = Kept::new(alloc);
    let left = go_as_asked(alloc, tree, &mut kept, &asked)?;
    if left == 0 { Ok(Some(kept)) } else { Ok(None) }
}

// The lines of the last two of so many own events, where all others have happened; none where there are fewer or more.
fn last_lines(
    alloc: Global,
    tree: Space,
    path: &Path,
    count: u64,
) -> Result<Option<Vec<u8>>, AllocError>
    requires sound { IsSound tree }
    requires count { count + 1 < 2 ^ 64 }
    ensures some { IfOk result (λ o. IfSome o (λ v. TellsLines path.now.items count tree v.items)) }
    ensures none { IfOk result (λ o. IsNone o → HasOthers path.now.items count tree) }
{
    let mut tree = tree;
    // One more than there are to be is asked for, so one has to be left.
    let asked = Asked {
        path: copied(path)?,
        from: count.saturating_sub(1),
        to: count + 1,
        noticing: Noticing::Lines,
    };
    let mut kept = Kept::new(alloc);
    let wanted = asked.to - count.saturating_sub(2);
    let left = go_on(alloc, &mut tree, &mut kept, &asked, wanted)?;
    if left == 1 {
        Ok(Some(kept.lines))
    } else {
        Ok(None)
    }
}

// The last of so many own events that changed what is watched, where all but the last two have happened and this is kept of them.
fn last_watched(
    alloc: Global,
    tree: Space,
    kept: Kept,
    path: &Path,
    count: u64,
    watched: Watched,
) -> Result<Option<Change>, AllocError>
    requires sound { IsSound tree }
    requires count { count + 1 < 2 ^ 64 }
    ensures { IfOk result (λ o. TellsChange path.now.items count (Some watched) (kept_of kept) tree (option_map noted_of o)) }
{
    let mut tree = tree;
    let mut kept = kept;
    let asked = changes_asked(path, count, Some(watched))?;
    let wanted = count - count.saturating_sub(2);
    go_on(alloc, &mut tree, &mut kept, &asked, wanted)?;
    told_last(alloc, path, &kept)
}

// The same where anything is watched.
fn last_if_watched(
    alloc: Global,
    tree: Space,
    kept: Kept,
    path: &Path,
    count: u64,
    watched: Option<Watched>,
) -> Result<Option<Change>, AllocError>
    requires sound { IsSound tree }
    requires count { count + 1 < 2 ^ 64 }
    ensures { IfOk result (λ o. TellsChange path.now.items count watched (kept_of kept) tree (option_map noted_of o)) }
{
    match watched {
        Some(watched) => last_watched(alloc, tree, kept, path, count, watched),
        None => Ok(None),
    }
}

/// The last two own events of the space at a path, and the last that changed what is watched, where anything is, in one run: as `count_events`, `trace` and `last_change` tell
/// them, where the space has as many own events as the caller expects. None comes exactly where it has fewer or more. The one error is want of memory.
pub fn last_events(
    alloc: Global,
    tree: Space,
    path: &Path,
    count: u64,
    watched: Option<Watched>,
) -> Result<Option<LastEvents>, AllocError>
    requires sound { IsSound tree }
    requires count { count + 1 < 2 ^ 64 }
    ensures count { IfOk result (λ o. IfSome o (λ _. HasSoMany tree path.now.items count)) }
    ensures lines { IfOk result (λ o. IfSome o (λ e. IsTrace tree path.now.items (count - 1) count e.lines.items)) }
    ensures change { IfOk result (λ o. IfSome o (λ e. TellsLastOf tree path.now.items all watched (option_map noted_of e.change))) }
    ensures none { IfOk result (λ o. IsNone o → HasFewerThan tree path.now.items count ⊎ HasAtLeast tree path.now.items (count + 1)) }
{
    let mut tree = tree;
    let Some(kept) = go_before(alloc, &mut tree, path, count, watched)? else {
        return Ok(None);
    };
    let copy = copy_tree(alloc, &mut tree)?;
    let change = last_if_watched(alloc, copy, kept, path, count, watched)?;
    match last_lines(alloc, tree, path, count)? {
        Some(lines) => Ok(Some(LastEvents { lines, change })),
        None => Ok(None),
    }
}
