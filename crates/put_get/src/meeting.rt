ghost use Rattle.std.specs.Prelude.{◌≡◌, OnOk, OnErr, IfErr, None};
ghost use Rattle.space_model.specs.Caller.{MayCall, met_by, with_action, StaysSound};
ghost use Rattle.space_model.specs.Event.{MayPay};
ghost use Rattle.space_model.specs.Space.{top_of};
ghost use Rattle.put_get.specs.Meetings.{acts_or_stops, conflict_of, MayStop, IsPutOrGet};

use crate::refusal::refusal;
use crate::{get, put, tree};
use snapshot::MergeError;
use space_tree::{Space, conflict};
use std::alloc::{AllocError, Global};
use trap_ret::{AcceptedCall, Call};

// What a call does that no test but the conflict stops. At an error nothing is changed.
fn act(alloc: Global, call: AcceptedCall, space: &mut Space) -> Result<(), MergeError>
    requires is_call { IsPutOrGet call }
    requires may_pay { MayPay (top_of space.old) }
    ensures ok { OnOk result (space.new ≡ with_action call space.old) }
    ensures sure { OnOk result (conflict_of call space.old ≡ None) }
    ensures conflict { IfErr result (MayStop (conflict_of call space.old)) }
    ensures err { OnErr result (space.new ≡ space.old) }
{
    match call.call() {
        Call::Put(x) => put::put(alloc, &x, space)?,
        Call::Get(x) => get::get(alloc, &x, space)?,
        Call::PutTree { child, from, to } => tree::put_tree(alloc, child, from, to, space)?,
        Call::GetTree { child, from, to } => tree::get_tree(alloc, child, from, to, space)?,
        _ => unreachable!(),
    }
    Ok(())
}

// As `act`, but that a conflict stops the caller.
fn act_or_stop(alloc: Global, call: AcceptedCall, space: &mut Space) -> Result<(), AllocError>
    requires is_call { IsPutOrGet call }
    requires may_pay { MayPay (top_of space.old) }
    ensures ok { OnOk result (space.new ≡ acts_or_stops call space.old) }
    ensures err { OnErr result (space.new ≡ space.old) }
{
    match act(alloc, call, space) {
        Ok(()) => Ok(()),
        Err(MergeError::Conflict { addr }) => {
            space.top.trap(conflict(addr));
            Ok(())
        }
        Err(MergeError::Memory) => Err(AllocError),
    }
}

/// What Put or Get does, with Tree or without, of a caller at this depth, at most 8, that has not paid yet, once the children that it waits
/// for are ready (OSDI 2010, "Efficient System-Enforced Deterministic Parallelism", the section on the kernel interface). The caller pays
/// one unit and goes on with a0 = 0. It stops instead, with nothing else changed, at the first of these:
///
/// - Merge of a child without a snapshot (`Badcall` 5);
/// - Tree of a child so high that the copy would be deeper than 8 (`Badcall` 8);
/// - a register block that Put may not read (`LoadFault`) or Get may not write (`StoreFault`), at the least such address;
/// - Merge where both sides have changed a byte of the range since the child's snapshot, with Agree to different values (`Conflict`), at
///   the least such address.
///
/// The one error is want of memory: nothing is changed then.
pub fn apply(
    alloc: Global,
    call: AcceptedCall,
    depth: u8,
    space: &mut Space,
) -> Result<(), AllocError>
    requires is_call { IsPutOrGet call }
    requires may_call { MayCall depth call space.old }
    ensures ok { OnOk result (space.new ≡ met_by depth call space.old) }
    ensures err { OnErr result (space.new ≡ space.old) }
    ensures sound { StaysSound depth space.old space.new }
{
    match refusal(call, space, depth) {
        Some(refusal) => {
            space.top.trap(refusal);
            Ok(())
        }
        None => act_or_stop(alloc, call, space),
    }
}
