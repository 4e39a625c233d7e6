ghost use Rattle.std.specs.Prelude.{◌≡◌, ◌+◌, ◌≤◌, ◌∷◌, [], ◌⊎◌, false, true, IfOk, IfSome, IsNone, OnOk, option_map};
ghost use Rattle.call_model.specs.Limits.{greatest_depth, levels_below};
ghost use Rattle.space_model.specs.Sound.{IsSound};
ghost use Rattle.demand_eval.specs.Turns.{IsSoundBelow};
ghost use Rattle.explain_core.specs.Beside.{AreAtFirst, ComeBoth, ComeBothBelow, ComesSoBelow, IsAll, IsAskedFor, IsAtFirst, IsLeft, OneEnds, all, child_of};
ghost use Rattle.explain_core.specs.Going.{TellsTurn};
ghost use Rattle.explain_core.specs.Reached.{HasAtLeast, HasFewerThan, TellsLast, TellsMoment};
ghost use Rattle.explain_core.specs.Watch.{kept_of, noted_of};

use crate::going::{Turn, copied, go_below, take_told_turn, take_turn};
use crate::watching::{Asked, Change, Kept, Noticing, Watched, told_last};
use demand_eval::{Runner, STRETCH};
use space_step::DecodeCache;
use space_tree::{Path, Space};
use std::alloc::{AllocError, Global};

/// Of the own events of a space that are asked for: what is kept of them so far, and how many are left.
#[derive(Drop)]
pub(crate) struct Side {
    pub(crate) kept: Kept,
    pub(crate) left: u64,
}

/// Of a child and the space above it: what is kept of their own events.
#[derive(Drop)]
pub(crate) struct Sides {
    pub(crate) below: Side,
    pub(crate) above: Side,
}

/// Of a child and the space above it: which own events are asked for.
#[derive(Drop)]
pub(crate) struct BothAsked {
    pub(crate) below: Asked,
    pub(crate) above: Asked,
}

// Own events of a child, as far as they need none of the space itself.
fn child_goes(
    runner: &mut Runner,
    space: &mut Space,
    side: &mut Side,
    asked: &Asked,
    number: u16,
    depth: u8,
) -> Result<(), AllocError>
    requires depth { depth ≤ greatest_depth }
    requires asked { IsLeft asked.now side.old }
    requires sound { IsSoundBelow (levels_below depth) space.old }
    ensures { OnOk result (ComesSoBelow (levels_below depth) (number ∷ []) asked.now side.old side.new space.old space.new) }
{
    side.left = go_below(
        runner,
        space,
        &mut side.kept,
        asked,
        number,
        &[],
        side.left,
        depth,
    )?;
    Ok(())
}

// A turn of the space itself.
fn itself_goes(
    runner: &mut Runner,
    space: &mut Space,
    side: &mut Side,
    asked: &Asked,
    depth: u8,
) -> Result<Turn, AllocError>
    requires depth { depth ≤ greatest_depth }
    requires asked { IsLeft asked.now side.old }
    requires sound { IsSoundBelow (levels_below depth) space.old }
    ensures tells { IfOk result (λ turn. TellsTurn (levels_below depth) side.old.left asked.now turn (kept_of side.old.kept) (kept_of side.new.kept) space.old space.new) }
    ensures left { IfOk result (λ turn. side.new.left + turn.events ≡ side.old.left) }
{
    let turn = take_told_turn(runner, space, &mut side.kept, asked, side.left, depth)?;
    side.left -= u64::from(turn.events);
    Ok(turn)
}

// Own events of a child and of the space itself, until both have stopped; `false` where no more of one of them are left.
fn go_beside(
    runner: &mut Runner,
    space: &mut Space,
    sides: &mut Sides,
    asked: &BothAsked,
    number: u16,
    depth: u8,
) -> Result<bool, AllocError>
    requires depth { depth ≤ greatest_depth }
    requires asked { IsAskedFor asked.now sides.old }
    requires sound { IsSoundBelow (levels_below depth) space.old }
    ensures both { IfOk result (λ both. both ≡ true → ComeBoth (levels_below depth) [] number asked.now sides.old sides.new space.old space.new) }
    ensures out { IfOk result (λ both. both ≡ false → OneEnds (levels_below depth) [] number asked.now sides.old sides.new space.old space.new) }
{
    'turns: loop {
        child_goes(runner, space, &mut sides.below, &asked.below, number, depth)?;
        if sides.below.left == 0 {
            return Ok(false);
        }
        let turn = itself_goes(runner, space, &mut sides.above, &asked.above, depth)?;
        if sides.above.left == 0 {
            return Ok(false);
        }
        if turn.stopped {
            return Ok(true);
        }
    }
}

// The same of a child of the space at a path below a space, as far as they need none of the space itself.
#[cycle(go_both)]
fn both_below(
    runner: &mut Runner,
    space: &mut Space,
    sides: &mut Sides,
    asked: &BothAsked,
    first: u16,
    rest: &[u16],
    number: u16,
    depth: u8,
) -> Result<bool, AllocError>
    requires depth { depth ≤ greatest_depth }
    requires asked { IsAskedFor asked.now sides.old }
    requires sound { IsSoundBelow (levels_below depth) space.old }
    ensures both { IfOk result (λ both. both ≡ true → ComeBothBelow (levels_below depth) (first ∷ rest.now) number asked.now sides.old sides.new space.old space.new) }
    ensures out { IfOk result (λ both. both ≡ false → OneEnds (levels_below depth) (first ∷ rest.now) number asked.now sides.old sides.new space.old space.new) }
{
    match space.children.get_mut(first) {
        Some(child) => go_both(runner, child, sides, asked, rest, number, depth + 1),
        None => Ok(true),
    }
}

// The same, where a space goes on itself when nothing on the way to the path does.
#[cycle(go_both)]
fn both_through(
    runner: &mut Runner,
    space: &mut Space,
    sides: &mut Sides,
    asked: &BothAsked,
    first: u16,
    rest: &[u16],
    number: u16,
    depth: u8,
) -> Result<bool, AllocError>
    requires depth { depth ≤ greatest_depth }
    requires asked { IsAskedFor asked.now sides.old }
    requires sound { IsSoundBelow (levels_below depth) space.old }
    ensures both { IfOk result (λ both. both ≡ true → ComeBoth (levels_below depth) (first ∷ rest.now) number asked.now sides.old sides.new space.old space.new) }
    ensures out { IfOk result (λ both. both ≡ false → OneEnds (levels_below depth) (first ∷ rest.now) number asked.now sides.old sides.new space.old space.new) }
{
    'turns: loop {
        let both = both_below(runner, space, sides, asked, first, rest, number, depth)?;
        if !both {
            return Ok(false);
        }
        let turn = take_turn(runner, space, STRETCH, depth)?;
        if turn.stopped {
            return Ok(true);
        }
    }
}

// Own events of the space at a path from a space at this depth, and of its child, until both and all on the way to them have stopped; `false` where no
// more of one of them are left.
#[cycle(go_both)]
fn go_both(
    runner: &mut Runner,
    space: &mut Space,
    sides: &mut Sides,
    asked: &BothAsked,
    path: &[u16],
    number: u16,
    depth: u8,
) -> Result<bool, AllocError>
    requires depth { depth ≤ greatest_depth }
    requires asked { IsAskedFor asked.now sides.old }
    requires sound { IsSoundBelow (levels_below depth) space.old }
    ensures both { IfOk result (λ both. both ≡ true → ComeBoth (levels_below depth) path.now number asked.now sides.old sides.new space.old space.new) }
    ensures out { IfOk result (λ both. both ≡ false → OneEnds (levels_below depth) path.now number asked.now sides.old sides.new space.old space.new) }
{
    match path {
        [] => go_beside(runner, space, sides, asked, number, depth),
        [first, rest @ ..] => {
            both_through(runner, space, sides, asked, *first, rest, number, depth)
        }
    }
}

/// All own events of the space at a path, of which it is noticed what was the last that changed what is watched.
pub(crate) fn all_of(path: &Path, watched: Watched) -> Result<Asked, AllocError>
    ensures { IfOk result (λ a. IsAll path.now.items watched a) }
{
    Ok(Asked {
        path: copied(path)?,
        from: 1,
        to: u64::MAX,
        noticing: Noticing::Change(watched),
    })
}

// All own events of a child and of the space above it.
fn both_asked(path: &Path, below: &Path, watched: Watched) -> Result<BothAsked, AllocError>
    ensures { IfOk result (λ a. IsAll below.now.items watched a.below × IsAll path.now.items watched a.above) }
{
    let child = all_of(below, watched)?;
    let parent = all_of(path, watched)?;
    Ok(BothAsked {
        below: child,
        above: parent,
    })
}

/// Nothing is kept yet, and all are left.
pub(crate) fn at_first(alloc: Global) -> Side
    ensures { IsAtFirst result }
{
    Side {
        kept: Kept::new(alloc),
        left: u64::MAX,
    }
}

// Nothing is kept yet of both.
fn both_at_first(alloc: Global) -> Sides
    ensures { AreAtFirst result }
{
    let below = at_first(alloc);
    let above = at_first(alloc);
    Sides { below, above }
}

/// A tree goes on until a child of the space at a path and this space have stopped; `false` where one of them has as many own events as are left.
pub(crate) fn run_both(
    alloc: Global,
    tree: &mut Space,
    sides: &mut Sides,
    asked: &BothAsked,
    path: &Path,
    number: u16,
) -> Result<bool, AllocError>
    requires sound { IsSound tree.old }
    requires asked { IsAskedFor asked.now sides.old }
    ensures both { IfOk result (λ both. both ≡ true → ComeBoth greatest_depth path.now.items number asked.now sides.old sides.new tree.old tree.new) }
    ensures out { IfOk result (λ both. both ≡ false → OneEnds greatest_depth path.now.items number asked.now sides.old sides.new tree.old tree.new) }
{
    let cache = DecodeCache::new(alloc)?;
    let mut runner = Runner { alloc, cache };
    go_both(&mut runner, tree, sides, asked, path.as_slice(), number, 0)
}

// What is kept of all own events of a child of the space at a path and of this space: the last that changed what is watched.
fn last_sides(
    alloc: Global,
    tree: Space,
    path: &Path,
    below: &Path,
    number: u16,
    watched: Watched,
) -> Result<Option<Sides>, AllocError>
    requires sound { IsSound tree }
    requires child { below.now.items ≡ child_of path.now.items number }
    ensures tells { IfOk result (λ o. IfSome o (λ s. TellsMoment tree below.now.items all watched s.below.kept.last × TellsMoment tree path.now.items all watched s.above.kept.last)) }
    ensures fewer { IfOk result (λ o. IfSome o (λ _. HasFewerThan tree below.now.items all × HasFewerThan tree path.now.items all)) }
    ensures none { IfOk result (λ o. IsNone o → HasAtLeast tree below.now.items all ⊎ HasAtLeast tree path.now.items all) }
{
    let mut tree = tree;
    let asked = both_asked(path, below, watched)?;
    let mut sides = both_at_first(alloc);
    let both = run_both(alloc, &mut tree, &mut sides, &asked, path, number)?;
    if both { Ok(Some(sides)) } else { Ok(None) }
}

/// The last own events that changed what is watched, of the child of a number of the space at a path and of this space, each as of `last_change`, in one run. None comes exactly
/// where one of them has at least 2^64 - 1 own events, since the run ends there: each is to be asked for alone then. The one error is want of memory.
pub fn last_changes(
    alloc: Global,
    tree: Space,
    path: &Path,
    below: &Path,
    number: u16,
    watched: Watched,
) -> Result<Option<(Option<Change>, Option<Change>)>, AllocError>
    requires sound { IsSound tree }
    requires child { below.now.items ≡ child_of path.now.items number }
    ensures tells { IfOk result (λ o. IfSome o (λ c. TellsLast tree below.now.items all watched (option_map noted_of c.0) × TellsLast tree path.now.items all watched (option_map noted_of c.1))) }
    // None comes exactly where one of them has as many own events as a number of 64 bits can count.
    ensures fewer { IfOk result (λ o. IfSome o (λ _. HasFewerThan tree below.now.items all × HasFewerThan tree path.now.items all)) }
    ensures none { IfOk result (λ o. IsNone o → HasAtLeast tree below.now.items all ⊎ HasAtLeast tree path.now.items all) }
{
    match last_sides(alloc, tree, path, below, number, watched)? {
        None => Ok(None),
        Some(sides) => {
            let child = told_last(alloc, below, &sides.below.kept)?;
            let parent = told_last(alloc, path, &sides.above.kept)?;
            Ok(Some((child, parent)))
        }
    }
}
