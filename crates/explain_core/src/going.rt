ghost use Rattle.std.specs.Prelude.{◌≡◌, ℕ, ◌-◌, ◌+◌, ◌≤◌, ◌∷◌, [], true, false, IfOk, IfSome, IsNone, option_map};
ghost use Rattle.call_model.specs.Limits.{greatest_depth, levels_below};
ghost use Rattle.space_model.specs.Sound.{IsSound};
ghost use Rattle.demand_eval.specs.Turns.{IsSoundBelow};
ghost use Rattle.explain_core.specs.Going.{HasCome, HasComeBelow, TakesTurn, TellsTurn};
ghost use Rattle.explain_core.specs.Reached.{HasJustHappened, HasSoMany, IsTrace, NeverHappens, TellsLast, TellsMoment};
ghost use Rattle.explain_core.specs.Stretch.{IsWatchable};
ghost use Rattle.explain_core.specs.Watch.{kept_of, noted_of};
ghost use Rattle.explain_core.specs.declared.watching.Noticing.TheVariants as kinds;

use crate::stretch::watch_stretch;
use crate::watching::{
    Asked, Change, Kept, Noticing, Watched, before_event, keep_last, notice, told_last,
};
use demand_eval::{Runner, STRETCH, wait_for};
use space_step::{DecodeCache, Next, advance};
use space_tree::{Path, Space};
use std::alloc::{AllocError, Global};
use user_runtime::meet;

/// What a space has done in a turn.
#[derive(Clone, Copy, Debug, PartialEq, Eq)]
pub(crate) struct Turn {
    /// How many events of its own it had.
    pub(crate) events: u32,
    /// Whether it has stopped.
    pub(crate) stopped: bool,
}

/// Local events of a space, and then the call that is next, if there is one, once what it waits for is ready; at most so many events.
pub(crate) fn take_turn(
    runner: &mut Runner,
    space: &mut Space,
    most: u32,
    depth: u8,
) -> Result<Turn, AllocError>
    requires depth { depth ≤ greatest_depth }
    requires some { 1 ≤ most }
    requires sound { IsSoundBelow (levels_below depth) space.old }
    ensures { IfOk result (λ turn. TakesTurn (levels_below depth) most turn space.old space.new) }
{
    let reached = advance(&mut space.top, depth, most, &mut runner.cache)?;
    match reached.next.ok_or(AllocError)? {
        Next::Local => Ok(Turn {
            events: reached.ran,
            stopped: false,
        }),
        Next::Meet(call) => {
            wait_for(runner, call, space, depth)?;
            meet(runner.alloc, call, depth, space)?;
            Ok(Turn {
                events: reached.ran + 1,
                stopped: false,
            })
        }
        Next::Stopped => Ok(Turn {
            events: reached.ran,
            stopped: true,
        }),
    }
}

// The most events of a turn, at most so many.
fn at_most(events: u64) -> u32
    requires { 1 ≤ events }
    ensures some { 1 ≤ result }
    ensures within { result ≤ events }
{
    if events < u64::from(STRETCH) {
        events as u32
    } else {
        STRETCH
    }
}

// The most events of a turn, of which so many are left, and so many come before the first that is asked for.
fn most_events(left: u64, before: u64) -> u32
    requires left { 1 ≤ left }
    requires before { 1 ≤ before }
    ensures some { 1 ≤ result }
    ensures within { result ≤ left }
    ensures early { result ≤ before }
{
    if left < before {
        at_most(left)
    } else {
        at_most(before)
    }
}

// A turn of at most one event of a space that has a number, from 1 on: it is noticed.
fn take_noticed_turn(
    runner: &mut Runner,
    space: &mut Space,
    kept: &mut Kept,
    asked: &Asked,
    number: u64,
    depth: u8,
) -> Result<Turn, AllocError>
    requires depth { depth ≤ greatest_depth }
    requires number { 1 ≤ number }
    requires asked { asked.now.from ≤ number }
    requires last { number ≤ asked.now.to }
    requires sound { IsSoundBelow (levels_below depth) space.old }
    ensures { IfOk result (λ turn. TellsTurn (levels_below depth) (asked.now.to + 1 - number) asked.now turn (kept_of kept.old) (kept_of kept.new) space.old space.new) }
{
    let before = before_event(asked.noticing, &mut space.top)?;
    let turn = take_turn(runner, space, 1, depth)?;
    if turn.events == 0 {
        return Ok(turn);
    }
    notice(runner.alloc, kept, asked, number, &before, &space.top)?;
    Ok(turn)
}

/// Whether this can be watched: a byte, or one of the 32 registers.
pub(crate) fn is_watchable(watched: Watched) -> bool
    ensures { result ≡ true → IsWatchable watched }
{
    match watched {
        Watched::Byte(_) => true,
        Watched::Register(number) => number < 32,
    }
}

// Instructions of a space of whose own events so many are left, up to a call or a trap; the last that changed what is watched is kept.
// None where there are no such instructions, and then nothing has changed.
fn take_watched_turn(
    runner: &mut Runner,
    space: &mut Space,
    kept: &mut Kept,
    asked: &Asked,
    watched: Watched,
    left: u64,
) -> Option<Turn>
    requires some { 1 ≤ left }
    requires within { left ≤ asked.now.to }
    requires asked { asked.now.from ≤ asked.now.to - left + 1 }
    requires noticing { asked.now.noticing ≡ kinds.Change watched }
    ensures some { (levels : ℕ) → IsSoundBelow levels space.old → IfSome result (λ turn. TellsTurn levels left asked.now turn (kept_of kept.old) (kept_of kept.new) space.old space.new) }
    ensures none { IsNone result → (space.new ≡ space.old) × (kept_of kept.new ≡ kept_of kept.old) }
{
    if space.top.is_stopped() || !is_watchable(watched) {
        return None;
    }
    let number = asked.to - left + 1;
    let most = at_most(left);
    let stretch = watch_stretch(&mut runner.cache, &mut space.top, most, watched, number);
    if stretch.count == 0 {
        return None;
    }
    keep_last(kept, stretch.last);
    Some(Turn {
        events: stretch.count,
        stopped: false,
    })
}

// A turn of a space of whose own events so many are left, from the first that is asked for on: each is noticed.
fn take_asked_turn(
    runner: &mut Runner,
    space: &mut Space,
    kept: &mut Kept,
    asked: &Asked,
    left: u64,
    depth: u8,
) -> Result<Turn, AllocError>
    requires depth { depth ≤ greatest_depth }
    requires some { 1 ≤ left }
    requires within { left ≤ asked.now.to }
    requires asked { asked.now.from ≤ asked.now.to - left + 1 }
    requires sound { IsSoundBelow (levels_below depth) space.old }
    ensures { IfOk result (λ turn. TellsTurn (levels_below depth) left asked.now turn (kept_of kept.old) (kept_of kept.new) space.old space.new) }
{
    if let Noticing::Change(watched) = asked.noticing {
        if let Some(turn) = take_watched_turn(runner, space, kept, asked, watched, left) {
            return Ok(turn);
        }
    }
    let number = asked.to - left + 1;
    take_noticed_turn(runner, space, kept, asked, number, depth)
}

/// A turn of a space of whose own events so many are left: each that is asked for is noticed.
pub(crate) fn take_told_turn(
    runner: &mut Runner,
    space: &mut Space,
    kept: &mut Kept,
    asked: &Asked,
    left: u64,
    depth: u8,
) -> Result<Turn, AllocError>
    requires depth { depth ≤ greatest_depth }
    requires some { 1 ≤ left }
    requires within { left ≤ asked.now.to }
    requires sound { IsSoundBelow (levels_below depth) space.old }
    ensures { IfOk result (λ turn. TellsTurn (levels_below depth) left asked.now turn (kept_of kept.old) (kept_of kept.new) space.old space.new) }
{
    let number = asked.to - left + 1;
    if asked.from <= number {
        return take_asked_turn(runner, space, kept, asked, left, depth);
    }
    let most = most_events(left, asked.from - number);
    let turn = take_turn(runner, space, most, depth)?;
    Ok(turn)
}

// Events of a space itself, as many as are wanted, or until it has stopped. It answers how many are left.
fn go_itself(
    runner: &mut Runner,
    space: &mut Space,
    kept: &mut Kept,
    asked: &Asked,
    wanted: u64,
    depth: u8,
) -> Result<u64, AllocError>
    requires depth { depth ≤ greatest_depth }
    requires some { 1 ≤ wanted }
    requires within { wanted ≤ asked.now.to }
    requires sound { IsSoundBelow (levels_below depth) space.old }
    ensures { IfOk result (λ left. HasCome (levels_below depth) [] asked.now wanted left (kept_of kept.old) (kept_of kept.new) space.old space.new) }
{
    let mut left = wanted;
    'turns: loop {
        let turn = take_told_turn(runner, space, kept, asked, left, depth)?;
        left -= u64::from(turn.events);
        if left == 0 || turn.stopped {
            return Ok(left);
        }
    }
}

/// Events at a path below a space, as far as they need none of the space itself: those of the child on the way.
#[cycle(go)]
pub(crate) fn go_below(
    runner: &mut Runner,
    space: &mut Space,
    kept: &mut Kept,
    asked: &Asked,
    number: u16,
    rest: &[u16],
    wanted: u64,
    depth: u8,
) -> Result<u64, AllocError>
    requires depth { depth ≤ greatest_depth }
    requires some { 1 ≤ wanted }
    requires within { wanted ≤ asked.now.to }
    requires sound { IsSoundBelow (levels_below depth) space.old }
    ensures { IfOk result (λ left. HasComeBelow (levels_below depth) (number ∷ rest.now) asked.now wanted left (kept_of kept.old) (kept_of kept.new) space.old space.new) }
{
    match space.children.get_mut(number) {
        Some(child) => go(runner, child, kept, asked, rest, wanted, depth + 1),
        None => Ok(wanted),
    }
}

// Events at a path below a space, which goes on itself where nothing on the way to the path does.
#[cycle(go)]
fn go_through(
    runner: &mut Runner,
    space: &mut Space,
    kept: &mut Kept,
    asked: &Asked,
    number: u16,
    rest: &[u16],
    wanted: u64,
    depth: u8,
) -> Result<u64, AllocError>
    requires depth { depth ≤ greatest_depth }
    requires some { 1 ≤ wanted }
    requires within { wanted ≤ asked.now.to }
    requires sound { IsSoundBelow (levels_below depth) space.old }
    ensures { IfOk result (λ left. HasCome (levels_below depth) (number ∷ rest.now) asked.now wanted left (kept_of kept.old) (kept_of kept.new) space.old space.new) }
{
    let mut left = wanted;
    'turns: loop {
        left = go_below(runner, space, kept, asked, number, rest, left, depth)?;
        if left == 0 {
            return Ok(0);
        }
        let turn = take_turn(runner, space, STRETCH, depth)?;
        if turn.stopped {
            return Ok(left);
        }
    }
}

// Events at a path from a space at this depth, as many as are wanted, or until every space on the way to the path has stopped. It answers how many
// are left. The numbers of events are those of `asked`, where those that are wanted are the last.
#[cycle(go)]
fn go(
    runner: &mut Runner,
    space: &mut Space,
    kept: &mut Kept,
    asked: &Asked,
    path: &[u16],
    wanted: u64,
    depth: u8,
) -> Result<u64, AllocError>
    requires depth { depth ≤ greatest_depth }
    requires some { 1 ≤ wanted }
    requires within { wanted ≤ asked.now.to }
    requires sound { IsSoundBelow (levels_below depth) space.old }
    ensures { IfOk result (λ left. HasCome (levels_below depth) path.now asked.now wanted left (kept_of kept.old) (kept_of kept.new) space.old space.new) }
{
    match path {
        [] => go_itself(runner, space, kept, asked, wanted, depth),
        [number, rest @ ..] => {
            go_through(runner, space, kept, asked, *number, rest, wanted, depth)
        }
    }
}

/// A copy of a path.
pub(crate) fn copied(path: &Path) -> Result<Path, AllocError>
    ensures { IfOk result (λ p. p.items ≡ path.now.items) }
{
    path.clone()
}

/// A tree goes on until so many own events as are wanted, the last of those that are asked for, have happened, or no more can. It answers how many are left.
pub(crate) fn go_on(
    alloc: Global,
    tree: &mut Space,
    kept: &mut Kept,
    asked: &Asked,
    wanted: u64,
) -> Result<u64, AllocError>
    requires sound { IsSound tree.old }
    requires within { wanted ≤ asked.now.to }
    ensures { IfOk result (λ left. HasCome greatest_depth asked.now.path.items asked.now wanted left (kept_of kept.old) (kept_of kept.new) tree.old tree.new) }
{
    if wanted == 0 {
        return Ok(0);
    }
    let cache = DecodeCache::new(alloc)?;
    let mut runner = Runner { alloc, cache };
    go(
        &mut runner,
        tree,
        kept,
        asked,
        asked.path.as_slice(),
        wanted,
        0,
    )
}

/// A tree goes on until so many own events as are asked for have happened, or no more can. It answers how many are left.
pub(crate) fn go_as_asked(
    alloc: Global,
    tree: &mut Space,
    kept: &mut Kept,
    asked: &Asked,
) -> Result<u64, AllocError>
    requires sound { IsSound tree.old }
    ensures { IfOk result (λ left. HasCome greatest_depth asked.now.path.items asked.now asked.now.to left (kept_of kept.old) (kept_of kept.new) tree.old tree.new) }
{
    go_on(alloc, tree, kept, asked, asked.to)
}

/// Lets a tree go on until the own event of this number, from 1 on, of the space at a path has just happened; `false` exactly where no schedule has
/// it. The space there goes on, or, where it does not run, the nearest above it that does, with what this one waits for. The one error is want of
/// memory.
pub fn run_to(alloc: Global, tree: &mut Space, path: &Path, number: u64) -> Result<bool, AllocError>
    requires sound { IsSound tree.old }
    requires number { 1 ≤ number }
    // A schedule leads there.
    ensures happened { IfOk result (λ b. b ≡ true → HasJustHappened tree.old path.now.items (number - 1) tree.new) }
    // No schedule has it.
    ensures never { IfOk result (λ b. b ≡ false → NeverHappens tree.old path.now.items (number - 1)) }
{
    // No event is noticed but the last that there can be.
    let asked = Asked {
        path: copied(path)?,
        from: u64::MAX,
        to: number,
        noticing: Noticing::Lines,
    };
    let mut kept = Kept::new(alloc);
    let left = go_as_asked(alloc, tree, &mut kept, &asked)?;
    Ok(left == 0)
}

/// A line for each own event of the space at a path, from the first number to the last, both from 1 on, as far as there are any: its name, pc and the
/// instruction there, and what came of it. The one error is want of memory.
pub fn trace(
    alloc: Global,
    tree: Space,
    path: &Path,
    from: u64,
    to: u64,
) -> Result<Vec<u8>, AllocError>
    requires sound { IsSound tree }
    requires to { 1 ≤ to }
    ensures { IfOk result (λ v. IsTrace tree path.now.items from to v.items) }
{
    let mut tree = tree;
    let asked = Asked {
        path: copied(path)?,
        from,
        to,
        noticing: Noticing::Lines,
    };
    let mut kept = Kept::new(alloc);
    go_as_asked(alloc, &mut tree, &mut kept, &asked)?;
    Ok(kept.lines)
}

// What is kept of the first so many own events of the space at a path: the last that changed what is watched.
fn last_kept(
    alloc: Global,
    tree: Space,
    path: &Path,
    to: u64,
    watched: Watched,
) -> Result<Kept, AllocError>
    requires sound { IsSound tree }
    requires some { 1 ≤ to }
    ensures { IfOk result (λ k. TellsMoment tree path.now.items to watched k.last) }
{
    let mut tree = tree;
    let asked = Asked {
        path: copied(path)?,
        from: 1,
        to,
        noticing: Noticing::Change(watched),
    };
    let mut kept = Kept::new(alloc);
    go_as_asked(alloc, &mut tree, &mut kept, &asked)?;
    Ok(kept)
}

/// The last of the first so many own events of the space at a path that changed what is watched; none exactly where none of them did. The one error is want of memory.
pub fn last_change(
    alloc: Global,
    tree: Space,
    path: &Path,
    to: u64,
    watched: Watched,
) -> Result<Option<Change>, AllocError>
    requires { IsSound tree }
    ensures { IfOk result (λ o. TellsLast tree path.now.items to watched (option_map noted_of o)) }
{
    if to == 0 {
        return Ok(None);
    }
    let kept = last_kept(alloc, tree, path, to, watched)?;
    told_last(alloc, path, &kept)
}

/// How many own events the space at a path has until no space of the tree runs any more, as far as there are at most so many. The one error is want of
/// memory.
pub fn count_events(alloc: Global, tree: Space, path: &Path) -> Result<u64, AllocError>
    requires { IsSound tree }
    ensures { IfOk result (λ n. HasSoMany tree path.now.items n) }
{
    let mut tree = tree;
    let asked = Asked {
        path: copied(path)?,
        from: u64::MAX,
        to: u64::MAX,
        noticing: Noticing::Lines,
    };
    let mut kept = Kept::new(alloc);
    let left = go_as_asked(alloc, &mut tree, &mut kept, &asked)?;
    Ok(u64::MAX - left)
}
