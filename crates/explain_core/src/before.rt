ghost use Rattle.std.specs.Prelude.{◌≡◌, ◌-◌, ◌≤◌, ◌⊎◌, IfOk, IfSome, IsNone, option_map};
ghost use Rattle.space_model.specs.Sound.{IsSound};
ghost use Rattle.explain_core.specs.Beside.{IsAll, IsAtFirst, all, child_of};
ghost use Rattle.explain_core.specs.Reached.{HasAtLeast, HasBefore, NeverHappens, TellsLast, TellsMoment};
ghost use Rattle.explain_core.specs.Watch.{noted_of};

use crate::beside::{BothAsked, Side, Sides, all_of, at_first, run_both};
use crate::going::copied;
use crate::watching::{Asked, Change, Kept, Noticing, Watched, told_last};
use space_tree::{Path, Space};
use std::alloc::{AllocError, Global};

/// The own events of a child before an event of the space above it.
#[derive(Drop)]
pub struct ChangeBefore {
    /// How many there are.
    pub count: u64,
    /// The last of them that changed what is watched.
    pub change: Option<Change>,
}

// All own events of a child; and of the space above it those up to that of a number, of which none is noticed but the last that there can be.
fn asked_before(
    path: &Path,
    number: u64,
    below: &Path,
    watched: Watched,
) -> Result<BothAsked, AllocError>
    ensures below { IfOk result (λ a. IsAll below.now.items watched a.below) }
    ensures above { IfOk result (λ a. a.above.to ≡ number) }
{
    let child = all_of(below, watched)?;
    let parent = Asked {
        path: copied(path)?,
        from: u64::MAX,
        to: number,
        noticing: Noticing::Lines,
    };
    Ok(BothAsked {
        below: child,
        above: parent,
    })
}

// Nothing is kept yet of both; all of the child's own events are left, and so many of the space's above it.
fn before_at_first(alloc: Global, number: u64) -> Sides
    ensures below { IsAtFirst result.below }
    ensures above { result.above.left ≡ number }
{
    let below = at_first(alloc);
    let above = Side {
        kept: Kept::new(alloc),
        left: number,
    };
    Sides { below, above }
}

// Where the own event of a number of the space at a path has just happened: what is kept of its child's own events, and how many of all that can be counted are left.
fn sides_before(
    alloc: Global,
    tree: Space,
    path: &Path,
    number: u64,
    below: &Path,
    child: u16,
    watched: Watched,
) -> Result<Option<Sides>, AllocError>
    requires sound { IsSound tree }
    requires number { 1 ≤ number }
    requires child { below.now.items ≡ child_of path.now.items child }
    ensures before { IfOk result (λ o. IfSome o (λ s. HasBefore tree path.now.items number below.now.items (all - s.below.left))) }
    ensures tells { IfOk result (λ o. IfSome o (λ s. TellsMoment tree below.now.items (all - s.below.left) watched s.below.kept.last)) }
    ensures none { IfOk result (λ o. IsNone o → NeverHappens tree path.now.items (number - 1) ⊎ HasAtLeast tree below.now.items all) }
{
    let mut tree = tree;
    let asked = asked_before(path, number, below, watched)?;
    let mut sides = before_at_first(alloc, number);
    let both = run_both(alloc, &mut tree, &mut sides, &asked, path, child)?;
    // Both have stopped, and the event has not happened.
    if both {
        return Ok(None);
    }
    // No more of the child's own events can be counted.
    if sides.below.left == 0 {
        return Ok(None);
    }
    Ok(Some(sides))
}

/// How many own events a child has before the own event of a number, from 1 on, of the space above it, and of these the last that changed what is watched, as `last_change` tells it, in one run:
/// the space at the path goes on until this event has just happened, and its child beside it. None comes only where no schedule has the event, or the child has at least 2^64 - 1 own
/// events. The one error is want of memory.
pub fn change_before(
    alloc: Global,
    tree: Space,
    path: &Path,
    number: u64,
    below: &Path,
    child: u16,
    watched: Watched,
) -> Result<Option<ChangeBefore>, AllocError>
    requires sound { IsSound tree }
    requires number { 1 ≤ number }
    requires child { below.now.items ≡ child_of path.now.items child }
    // In a schedule that has no later own event of the space.
    ensures before { IfOk result (λ o. IfSome o (λ b. HasBefore tree path.now.items number below.now.items b.count)) }
    ensures tells { IfOk result (λ o. IfSome o (λ b. TellsLast tree below.now.items b.count watched (option_map noted_of b.change))) }
    ensures none { IfOk result (λ o. IsNone o → NeverHappens tree path.now.items (number - 1) ⊎ HasAtLeast tree below.now.items all) }
{
    match sides_before(alloc, tree, path, number, below, child, watched)? {
        None => Ok(None),
        Some(sides) => {
            let change = told_last(alloc, below, &sides.below.kept)?;
            Ok(Some(ChangeBefore {
                count: u64::MAX - sides.below.left,
                change,
            }))
        }
    }
}
