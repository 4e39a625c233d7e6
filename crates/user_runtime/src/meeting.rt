ghost use Rattle.std.specs.Prelude.{◌≡◌, OnOk, OnErr};
ghost use Rattle.space_model.specs.Caller.{MayCall, met_by, StaysSound};
ghost use Rattle.space_model.specs.Change.{after_payment};
ghost use Rattle.space_model.specs.Event.{MayPay};
ghost use Rattle.space_model.specs.Space as model;

use crate::forking::{fork, tfork};
use crate::joining::tjoin;
use crate::quanta::{commit, start};
use crate::waiting::wait;
use put_get::apply;
use space_tree::Space;
use std::alloc::{AllocError, Global};
use trap_ret::{AcceptedCall, Call};

// The meeting of a call that meets no child: it pays, and nothing else changes.
fn meet_nobody(space: &mut Space)
    requires { MayPay (model.top_of space.old) }
    ensures { let paid = after_payment (model.top_of space.old) (model.top_of space.old) in space.new ≡ model.space paid (model.children_of space.old) }
{
    space.top.pay(1);
}

/// What a call that meets children does, of a caller at this depth, at most 8, that has not paid yet, once the children that it waits for are
/// ready: `apply` for Put and Get, else `fork`, `wait`, `tfork`, `tjoin`, or a start or a commit of quanta by `quantum_sched`. The one error is want of memory: nothing is changed then.
pub fn meet(
    alloc: Global,
    call: AcceptedCall,
    depth: u8,
    space: &mut Space,
) -> Result<(), AllocError>
    requires { MayCall depth call space.old }
    ensures ok { OnOk result (space.new ≡ met_by depth call space.old) }
    ensures err { OnErr result (space.new ≡ space.old) }
    ensures sound { StaysSound depth space.old space.new }
{
    match call.call() {
        Call::Put(_) | Call::PutTree { .. } | Call::Get(_) | Call::GetTree { .. } => {
            apply(alloc, call, depth, space)
        }
        Call::Fork { child } => fork(alloc, child, depth, space),
        Call::Wait { child } => wait(alloc, child, depth, space),
        Call::Tfork { child } => tfork(alloc, child, depth, space),
        Call::Tjoin { child } => tjoin(alloc, child, depth, space),
        Call::Qstart {
            first,
            count,
            quantum,
        } => start(first, count, quantum, depth, space),
        Call::Qcommit { first, count } => commit(first, count, depth, space),
        Call::Ret { .. }
        | Call::ConsoleOut { .. }
        | Call::ConsoleIn { .. }
        | Call::Clock
        | Call::Random
        | Call::File(_) => {
            meet_nobody(space);
            Ok(())
        }
    }
}
