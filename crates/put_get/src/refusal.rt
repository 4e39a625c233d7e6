ghost use Rattle.std.specs.Prelude.{◌≡◌, ◌-◌, ◌≤◌, is_none};
ghost use Rattle.call_model.specs.Limits.{greatest_depth, levels_below};
ghost use Rattle.memory_model.specs.Memory.{may_read, may_write};
ghost use Rattle.call_model.specs.Accepted.{IsTransfer};
ghost use Rattle.space_model.specs.Meeting.{block_refusal, height_refusal};
ghost use Rattle.space_model.specs.Space.{find};
ghost use Rattle.space_model.specs.declared.Cause.TheVariants.{LoadFault, StoreFault};
ghost use Rattle.put_get.specs.Meetings.{early_of, early_get, snapshot_in, IsPutOrGet};

use crate::options::{has_merge, has_regs};
use space_model::Refusal;
use space_tree::{Cause, Children, Space, Top, height, no_snapshot, too_deep};
use trap_ret::limits::{BLOCK_SIZE, GREATEST_DEPTH};
use trap_ret::{AcceptedCall, Call, Transfer};

// With Regs, the least address of the register block that the caller may not read.
#[tactic(auto, using(crate::proofs::Places::block_end))]
fn unreadable_block(x: &Transfer, caller: &Top) -> Option<Refusal>
    requires { IsTransfer x.now }
    ensures { result ≡ block_refusal x.now LoadFault (may_read caller.now.memory) }
{
    if !has_regs(x) {
        return None;
    }
    let value = caller.memory.first_unreadable(x.block, BLOCK_SIZE)?;
    Some(Refusal {
        cause: Cause::LoadFault,
        value,
    })
}

// With Regs, the least address of the register block that the caller may not write.
#[tactic(auto, using(crate::proofs::Places::block_end))]
fn unwritable_block(x: &Transfer, caller: &Top) -> Option<Refusal>
    requires { IsTransfer x.now }
    ensures { result ≡ block_refusal x.now StoreFault (may_write caller.now.memory) }
{
    if !has_regs(x) {
        return None;
    }
    let value = caller.memory.first_unwritable(x.block, BLOCK_SIZE)?;
    Some(Refusal {
        cause: Cause::StoreFault,
        value,
    })
}

// Test 5: whether the child of that number lacks a snapshot; one that is missing does.
fn lacks_snapshot(children: &Children, number: u16) -> bool
    ensures { result ≡ is_none (snapshot_in (find number children.now)) }
{
    match children.get(number) {
        Some(child) => child.top.snapshot.is_none(),
        None => true,
    }
}

// The first test of a Get that stops its caller before a conflict may.
fn get_refusal(x: &Transfer, caller: &Space) -> Option<Refusal>
    requires { IsTransfer x.now }
    ensures { result ≡ early_get x.now caller.now }
{
    if has_merge(x) && lacks_snapshot(&caller.children, x.child) {
        return Some(no_snapshot());
    }
    unwritable_block(x, &caller.top)
}

// Test 8 of a space that is copied to a child's child of a caller at this depth.
fn tree_refusal(children: &Children, from: u16, depth: u8) -> Option<Refusal>
    requires { depth ≤ greatest_depth }
    ensures { result ≡ height_refusal (levels_below depth) (find from children.now) }
{
    let copied = children.get(from)?;
    if height(copied).saturating_add(2) > GREATEST_DEPTH - depth {
        return Some(too_deep());
    }
    None
}

// The first test of a call that stops its caller before a conflict may, at this depth, if one does.
#[tactic(auto, using(crate::proofs::Tests::get_test, crate::proofs::Tests::get_tree_test))]
pub fn refusal(call: AcceptedCall, space: &Space, depth: u8) -> Option<Refusal>
    requires depth { depth ≤ greatest_depth }
    requires is_call { IsPutOrGet call }
    ensures { result ≡ early_of (levels_below depth) call space.now }
{
    match call.call() {
        Call::Put(x) => unreadable_block(&x, &space.top),
        Call::Get(x) => get_refusal(&x, space),
        Call::PutTree { from, .. } => tree_refusal(&space.children, from, depth),
        Call::GetTree { .. } => None,
        _ => unreachable!(),
    }
}
