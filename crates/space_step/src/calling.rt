ghost use Rattle.std.specs.Prelude.{◌≡◌, ◌-◌, ◌≤◌, cond, IfOk, OnErr};
ghost use Rattle.call_model.specs.Limits.{greatest_depth, levels_below};
ghost use Rattle.instruction_model.specs.Outcome.{calls, view_of, outcome};
ghost use Rattle.space_model.specs.Change.{after_payment, after_success, stop};
ghost use Rattle.space_model.specs.Event as event;
ghost use Rattle.space_model.specs.Event.{MayPay};
ghost use Rattle.space_step.specs.Steps.{Acts, Answers, IsLocal, IsNextLocal, Steps};

use crate::event::Next;
use crate::files::file_call;
use crate::source::Source;
use root_device::{console_in, console_out, draw_number, read_clock};
use space_model::{Cause, Refusal};
use space_tree::Top;
use std::alloc::AllocError;
use trap_ret::{AcceptedCall, Badcall, Call, Doing, read_call};

// Ret with this value, which is paid for.
fn ret(top: &mut Top, value: u32)
    requires { MayPay top.old }
    ensures { top.new ≡ after_payment top.old (stop (after_success top.old) Cause.Ret value) }
{
    top.pay_and_succeed();
    top.stop(Cause::Ret, value);
}

// What a call does, which is paid for, and whether it is left to do: one that meets children is, and is next then. `next` is the caller's, so that a
// call that is done need not write it, and who calls need not read it. At an error nothing has changed.
#[tactic(auto, using(crate::proofs::Answers::console_is_local, crate::proofs::Answers::buffer_is_local, crate::proofs::Leaving::console_out_leaves, crate::proofs::Leaving::clock_leaves, crate::proofs::Leaving::random_leaves))]
fn act<S: Source>(
    source: &mut S,
    top: &mut Top,
    accepted: AcceptedCall,
    next: &mut Next,
) -> Result<bool, AllocError>
    requires may_pay { MayPay top.old }
    ensures ok { IfOk result (λ left. Acts (event.effect_of top.old accepted) (cond left next.new Next.Local) top.old top.new) }
    ensures err { OnErr result (top.new ≡ top.old) }
    ensures wanting { OnErr result (IsLocal (event.effect_of top.old accepted)) }
    ensures agrees { S.agrees source.old (view_of top.old.memory) → S.agrees source.new (view_of top.new.memory) }
{
    match accepted.call() {
        Call::Ret { value } => ret(top, value),
        Call::ConsoleOut { addr, len } => console_out(top, addr, len)?,
        Call::ConsoleIn { addr, len } => {
            source.forget_all();
            console_in(top, addr, len)?;
        }
        Call::Clock => read_clock(top),
        Call::Random => draw_number(top),
        Call::File(call) => {
            source.forget_all();
            file_call(top, call)?;
        }
        _ => {
            *next = Next::Meet(accepted);
            return Ok(true);
        }
    }
    Ok(false)
}

// As `act`, of what registers say, which may fail a test.
fn act_as_read<S: Source>(
    source: &mut S,
    top: &mut Top,
    reading: Result<AcceptedCall, Badcall>,
    next: &mut Next,
) -> Result<bool, AllocError>
    requires may_pay { MayPay top.old }
    ensures ok { IfOk result (λ left. Acts (event.by_reading top.old reading) (cond left next.new Next.Local) top.old top.new) }
    ensures err { OnErr result (top.new ≡ top.old) }
    ensures wanting { OnErr result (IsLocal (event.by_reading top.old reading)) }
    ensures agrees { S.agrees source.old (view_of top.old.memory) → S.agrees source.new (view_of top.new.memory) }
{
    match reading {
        Ok(accepted) => act(source, top, accepted, next),
        Err(Badcall(test)) => {
            top.trap(Refusal {
                cause: Cause::Badcall,
                value: u32::from(test),
            });
            Ok(false)
        }
    }
}

// As `call`, with what is next in `next` where it is left to do, and whether it is.
#[inline(never)]
#[tactic(auto, using(crate::proofs::CallEvents::call_done, crate::proofs::CallEvents::call_wanting))]
fn read_and_act<S: Source>(
    source: &mut S,
    top: &mut Top,
    depth: u8,
    next: &mut Next,
) -> Result<bool, AllocError>
    requires depth { depth ≤ greatest_depth }
    requires may_pay { MayPay top.old }
    requires calls { outcome (view_of top.old.memory) top.old.registers ≡ calls }
    ensures ok { IfOk result (λ left. Answers (levels_below depth) (cond left next.new Next.Local) top.old top.new) }
    ensures err { OnErr result (top.new ≡ top.old) }
    ensures wanting { OnErr result (IsNextLocal (levels_below depth) top.old) }
    ensures agrees { S.agrees source.old (view_of top.old.memory) → S.agrees source.new (view_of top.new.memory) }
{
    let reading = read_call::<Doing>(top.registers.x(), top.has_devices(), depth);
    act_as_read(source, top, reading, next)
}

/// The ECALL at pc of a space that may pay for it, at a depth of at most 8: a local event, which is done and paid for, or a
/// call that meets a child, which is left to do.
#[inline(always)]
pub(crate) fn call<S: Source>(source: &mut S, top: &mut Top, depth: u8) -> Result<Next, AllocError>
    requires depth { depth ≤ greatest_depth }
    requires may_pay { MayPay top.old }
    requires calls { outcome (view_of top.old.memory) top.old.registers ≡ calls }
    ensures steps { Steps (levels_below depth) result top.old top.new }
    ensures agrees { S.agrees source.old (view_of top.old.memory) → S.agrees source.new (view_of top.new.memory) }
{
    let mut next = Next::Local;
    if read_and_act(source, top, depth, &mut next)? {
        Ok(next)
    } else {
        Ok(Next::Local)
    }
}
