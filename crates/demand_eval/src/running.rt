ghost use Rattle.std.specs.Prelude.{◌≡◌, ◌≤◌, ◌-◌, map, pred, true, OnOk, IfOk};
ghost use Rattle.call_model.specs.Limits.{greatest_depth, levels_below};
ghost use Rattle.space_model.specs.Space.{over, top_of, is_settled};
ghost use Rattle.space_model.specs.Sound.{IsSound};
ghost use Rattle.space_model.specs.Change.{after_payment};
ghost use Rattle.space_model.specs.Path.{under};
ghost use Rattle.space_model.specs.Event as event;
ghost use Rattle.run_model.specs.Demand.{run, settle_tree};
ghost use Rattle.demand_eval.specs.Turns.{IsSoundBelow, GoesOn, KeepsDevices, Turned, end_of, numbers_of, with_awaited, with_everyone};

use space_model::Reach;
use space_step::{DecodeCache, Next, advance};
use space_tree::{Children, Space};
use std::alloc::{AllocError, Global};
use std::collections::BTreeMap;
use trap_ret::{AcceptedCall, Call, awaits};

/// For how many events a space runs before it is asked again what is next.
pub const STRETCH: u32 = 1 << 20;

/// What one space after the other runs by: where memory comes from, and the decoded instructions.
#[derive(Drop)]
pub struct Runner {
    pub alloc: Global,
    pub cache: DecodeCache,
}

// The child of that number, where it is there, runs until it stops, or settles.
#[cycle(settle)]
fn wait_for_child(
    runner: &mut Runner,
    space: &mut Space,
    number: u16,
    reach: Reach,
    depth: u8,
) -> Result<(), AllocError>
    requires depth { depth ≤ greatest_depth }
    requires sound { IsSoundBelow (levels_below depth) space.old }
    ensures { OnOk result (space.new ≡ under (over number (end_of (pred (levels_below depth)) reach)) space.old) }
{
    match space.children.get_mut(number) {
        Some(child) => finish(runner, child, reach, depth + 1),
        None => Ok(()),
    }
}

/// What a call of a space at a depth of at most 8 waits for is ready: each child that it names, one after the other, has run until it stopped, or
/// settled. The one error is want of memory; the space is somewhere on its way then.
#[cycle(settle)]
pub fn wait_for(
    runner: &mut Runner,
    call: AcceptedCall,
    space: &mut Space,
    depth: u8,
) -> Result<(), AllocError>
    requires depth { depth ≤ greatest_depth }
    requires sound { IsSoundBelow (levels_below depth) space.old }
    ensures { OnOk result (space.new ≡ with_awaited (levels_below depth) call space.old) }
{
    let all = awaits(call);
    for index in 0..all.len() {
        let awaited = all.get(index);
        wait_for_child(runner, space, awaited.number, awaited.reach, depth)?;
    }
    Ok(())
}

/// The call that is next, once what it waits for is ready.
#[cycle(settle)]
pub(crate) fn meet(
    runner: &mut Runner,
    call: AcceptedCall,
    space: &mut Space,
    depth: u8,
) -> Result<(), AllocError>
    requires depth { depth ≤ greatest_depth }
    requires sound { IsSoundBelow (levels_below depth) space.old }
    requires next { event.next (levels_below depth) (top_of space.old) ≡ event.meets call (after_payment (top_of space.old) (top_of space.old)) }
    ensures goes { OnOk result (GoesOn (levels_below depth) space.old space.new) }
    ensures devices { OnOk result (KeepsDevices space.old space.new) }
{
    wait_for(runner, call, space, depth)?;
    user_runtime::meet(runner.alloc, call, depth, space)
}

// Local events, and then the call that is next, if there is one. It says whether the space has stopped.
#[cycle(settle)]
fn turn(runner: &mut Runner, space: &mut Space, depth: u8) -> Result<bool, AllocError>
    requires depth { depth ≤ greatest_depth }
    requires sound { IsSoundBelow (levels_below depth) space.old }
    ensures { IfOk result (λ stopped. Turned (levels_below depth) stopped space.old space.new) }
{
    let reached = advance(&mut space.top, depth, STRETCH, &mut runner.cache)?;
    match reached.next.ok_or(AllocError)? {
        Next::Local => Ok(false),
        Next::Meet(call) => {
            meet(runner, call, space, depth)?;
            Ok(false)
        }
        Next::Stopped => Ok(true),
    }
}

// A space at a depth of at most 8 runs until it stops. At an error it is somewhere on its way.
#[cycle(settle)]
fn run(runner: &mut Runner, space: &mut Space, depth: u8) -> Result<(), AllocError>
    requires depth { depth ≤ greatest_depth }
    requires sound { IsSoundBelow (levels_below depth) space.old }
    ensures { OnOk result (space.new ≡ run (levels_below depth) space.old) }
{
    'turns: loop {
        let stopped = turn(runner, space, depth)?;
        if stopped {
            return Ok(());
        }
    }
}

// The numbers under which children stand in a map, in rising order.
fn keys(alloc: Global, entries: &BTreeMap<u16, Box<Space>>) -> Result<Vec<u16>, AllocError>
    ensures { IfOk result (λ numbers. numbers.items ≡ map (λ e. e.0) entries.now.entries) }
{
    entries.keys().copied().collect(alloc)
}

// The numbers of the children, in rising order.
fn numbers(alloc: Global, children: &Children) -> Result<Vec<u16>, AllocError>
    ensures { IfOk result (λ numbers. numbers.items ≡ numbers_of children.now) }
{
    keys(alloc, children.entries())
}

// Every child settles, in the order of their numbers.
#[cycle(settle)]
fn settle_each(runner: &mut Runner, space: &mut Space, depth: u8) -> Result<(), AllocError>
    requires depth { depth ≤ greatest_depth }
    requires sound { IsSoundBelow (levels_below depth) space.old }
    ensures { OnOk result (space.new ≡ with_everyone (levels_below depth) space.old) }
{
    let numbers = numbers(runner.alloc, &space.children)?;
    for number in &numbers {
        wait_for_child(runner, space, *number, Reach::Whole, depth)?;
    }
    Ok(())
}

// Where it is known of each child that it has settled, it is kept from now on that all have.
fn remember(space: &mut Space)
    ensures { space.new ≡ space.old }
{
    space.children.remember();
}

/// Every child settles, unless it is known that all have.
#[cycle(settle)]
pub(crate) fn settle_children(
    runner: &mut Runner,
    space: &mut Space,
    depth: u8,
) -> Result<(), AllocError>
    requires depth { depth ≤ greatest_depth }
    requires sound { IsSoundBelow (levels_below depth) space.old }
    ensures { OnOk result (space.new ≡ with_everyone (levels_below depth) space.old) }
{
    if space.children.are_known_settled() {
        return Ok(());
    }
    settle_each(runner, space, depth)?;
    remember(space);
    Ok(())
}

// A space at a depth of at most 8 runs until it stops; waited for whole, each of its children settles then.
#[cycle(settle)]
fn finish(runner: &mut Runner, space: &mut Space, reach: Reach, depth: u8) -> Result<(), AllocError>
    requires depth { depth ≤ greatest_depth }
    requires sound { IsSoundBelow (levels_below depth) space.old }
    ensures { OnOk result (space.new ≡ end_of (levels_below depth) reach space.old) }
{
    run(runner, space, depth)?;
    match reach {
        Reach::Itself => Ok(()),
        Reach::Whole => settle_children(runner, space, depth),
    }
}

/// Runs a whole tree until no space in it runs, one space at a time: each one when its parent waits for it (OSDI 2010, "Efficient
/// System-Enforced Deterministic Parallelism", the section on the kernel interface: Put and Get wait for the child to stop), and
/// at the end those that nobody waited for. The one error is want of memory; the tree is given up then.
pub fn settle(alloc: Global, mut space: Space) -> Result<Space, AllocError>
    requires { IsSound space }
    ensures meaning { IfOk result (λ s. s ≡ settle_tree space) }
    ensures settled { IfOk result (λ s. is_settled s ≡ true) }
    ensures sound { IfOk result IsSound }
{
    let cache = DecodeCache::new(alloc)?;
    let mut runner = Runner { alloc, cache };
    finish(&mut runner, &mut space, Reach::Whole, 0)?;
    Ok(space)
}
