ghost use Rattle.std.specs.Prelude.{◌≡◌, ◌+◌, IfOk, OnOk, OnErr, option_map, true, false};
ghost use Rattle.call_model.specs.Options as options_of;
ghost use Rattle.call_model.specs.declared.Call.TheVariants.{Put};
ghost use Rattle.call_model.specs.Accepted.{IsTransfer};
ghost use Rattle.space_model.specs.Block.{registers_at};
ghost use Rattle.space_model.specs.Call.{edit, change};
ghost use Rattle.space_model.specs.Event.{MayPay};
ghost use Rattle.space_model.specs.Beginning.{fresh_top};
ghost use Rattle.space_model.specs.Meeting.{or_fresh};
ghost use Rattle.space_model.specs.Part.{part_if, with_parts, registers_part, snapshot_part, start_part, start_limit, child_after};
ghost use Rattle.space_model.specs.Space.{space, none, children_of, find, top_of};
ghost use Rattle.space_model.specs.Caller.{with_action};
ghost use Rattle.put_get.specs.Ranges.{memory_parts, snaps_changed};

use crate::options::{has_copy, has_limit, has_perm, has_regs, has_snap, has_start, has_zero};
use crate::ranges::{change_pages, change_range, share};
use snapshot::take;
use space_tree::{Children, Space, Status, Top};
use std::alloc::{AllocError, Global};
use trap_ret::Transfer;

// Regs: the child's registers become those of the caller's block, where that is asked for.
#[tactic(auto, using(crate::proofs::Places::block_end, crate::proofs::Places::block_aligned))]
fn give_registers(x: &Transfer, caller: &Top, child: &mut Top)
    requires { IsTransfer x.now }
    ensures { child.new ≡ part_if (options_of.has options_of.regs x.now.options) (registers_part (registers_at caller.now.memory x.now.block)) child.old }
{
    if has_regs(x) {
        child.take_block(&caller.memory, x.block);
    }
}

// Start: the child runs, with the limit where there is one, where that is asked for.
fn start(x: &Transfer, child: &mut Top)
    ensures { child.new ≡ part_if (options_of.has options_of.start x.now.options) (start_part (start_limit x.now)) child.old }
{
    if has_start(x) {
        child.status = Status::Running;
        child.limit = has_limit(x).then_some(x.limit);
    }
}

// Snap: the child's memory is kept as its snapshot, where that is asked for.
#[tactic(auto, using(space_mem::proofs::Dirty::covers_in_same))]
fn snap(x: &Transfer, child: &mut Top) -> Result<(), AllocError>
    ensures ok { OnOk result (child.new ≡ part_if (options_of.has options_of.snap x.now.options) snapshot_part child.old) }
    ensures err { OnErr result (child.new ≡ child.old) }
    ensures asked { OnErr result (options_of.has options_of.snap x.now.options ≡ true) }
{
    if !has_snap(x) {
        return Ok(());
    }
    let snapshot = take(&mut child.memory)?;
    child.snapshot = Some(snapshot);
    Ok(())
}

// A snapshot is asked for behind a change of the child's memory.
fn snaps_changed(x: &Transfer) -> bool
    ensures { result ≡ snaps_changed x.now.options }
{
    has_snap(x) && (has_zero(x) || has_copy(x) || has_perm(x))
}

// Zero, Copy and Perm, and then Snap: the memory and its snapshot are made apart, and taken over once both are there. At an error the child is as
// it was.
#[tactic(auto, using(crate::proofs::Parts::memory_snapped, space_mem::proofs::Dirty::covers_in_same))]
fn change_and_snap(x: &Transfer, caller: &Top, child: &mut Top) -> Result<(), AllocError>
    requires transfer { IsTransfer x.now }
    requires snaps { options_of.has options_of.snap x.now.options ≡ true }
    ensures ok { OnOk result (child.new ≡ with_parts x.now.options (memory_parts x.now caller.now.memory) child.old) }
    ensures err { OnErr result (child.new ≡ child.old) }
{
    let mut made = child.memory.share()?;
    change_pages(x, &caller.memory, &mut made)?;
    let snapshot = take(&mut made)?;
    child.memory = made;
    child.snapshot = Some(snapshot);
    Ok(())
}

// A change of the child's memory as the options ask, or its snapshot: one of both at most is asked for. At an error the child is as it was.
fn change_or_snap(x: &Transfer, caller: &Top, child: &mut Top) -> Result<(), AllocError>
    requires transfer { IsTransfer x.now }
    requires one { snaps_changed x.now.options ≡ false }
    ensures ok { OnOk result (child.new ≡ with_parts x.now.options (memory_parts x.now caller.now.memory) child.old) }
    ensures err { OnErr result (child.new ≡ child.old) }
{
    change_range(x, caller, child)?;
    snap(x, child)
}

// Changes the child's memory as the options ask, and takes its snapshot. At an error the child is as it was.
fn give_memory(x: &Transfer, caller: &Top, child: &mut Top) -> Result<(), AllocError>
    requires { IsTransfer x.now }
    ensures ok { OnOk result (child.new ≡ with_parts x.now.options (memory_parts x.now caller.now.memory) child.old) }
    ensures err { OnErr result (child.new ≡ child.old) }
{
    if snaps_changed(x) {
        return change_and_snap(x, caller, child);
    }
    change_or_snap(x, caller, child)
}

// Changes the child as the options ask. At an error it is as it was.
fn give(x: &Transfer, caller: &Top, child: &mut Top) -> Result<(), AllocError>
    requires { IsTransfer x.now }
    ensures ok { OnOk result (child.new ≡ child_after x.now caller.now child.old) }
    ensures err { OnErr result (child.new ≡ child.old) }
{
    // What may fail comes first; registers and memory pass one another.
    give_memory(x, caller, child)?;
    give_registers(x, caller, child);
    start(x, child);
    Ok(())
}

// Changes the child as the options ask, and not those below it. At an error it is as it was.
fn give_top(x: &Transfer, caller: &Top, child: &mut Space) -> Result<(), AllocError>
    requires { IsTransfer x.now }
    ensures ok { OnOk result (child.new ≡ space (child_after x.now caller.now (top_of child.old)) (children_of child.old)) }
    ensures err { OnErr result (child.new ≡ child.old) }
{
    give(x, caller, &mut child.top)
}

// The child that a Put makes.
fn made(alloc: Global, x: &Transfer, caller: &Top) -> Result<Space, AllocError>
    requires { IsTransfer x.now }
    ensures { IfOk result (λ child. child ≡ space (child_after x.now caller.now (fresh_top (caller.now.fuel + caller.now.used))) none) }
{
    let mut top = Top::fresh(alloc, caller.total_fuel());
    give(x, caller, &mut top)?;
    Ok(Space::alone(alloc, top))
}

// Changes the child of that number as the options ask; one that is missing is made. At an error the children are as they were.
fn give_child(
    alloc: Global,
    x: &Transfer,
    caller: &Top,
    children: &mut Children,
) -> Result<(), AllocError>
    requires { IsTransfer x.now }
    ensures ok { let cs = children.old in OnOk result (children.new ≡ edit (change x.now.child (child_after x.now caller.now (or_fresh caller.now (option_map top_of (find x.now.child cs))))) cs) }
    ensures err { OnErr result (children.new ≡ children.old) }
{
    match children.get_mut(x.child) {
        Some(child) => give_top(x, caller, child),
        None => {
            let child = made(alloc, x, caller)?;
            children.insert(alloc, x.child, child)
        }
    }
}

// What Put does that no test stops, of a caller that has not paid yet. At an error nothing is changed.
pub fn put(alloc: Global, x: &Transfer, space: &mut Space) -> Result<(), AllocError>
    requires transfer { IsTransfer x.now }
    requires pays { MayPay (top_of space.old) }
    ensures ok { OnOk result (space.new ≡ with_action (Put x.now) space.old) }
    ensures err { OnErr result (space.new ≡ space.old) }
{
    share(x, space)?;
    give_child(alloc, x, &space.top, &mut space.children)?;
    space.top.pay_and_succeed();
    Ok(())
}
