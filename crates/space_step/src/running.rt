ghost use Rattle.std.specs.Prelude.{◌≡◌, ℕ, Bool, ◌-◌, ◌≤◌, ◌<◌, None, IfOk, OnErr};
ghost use Rattle.call_model.specs.Limits.{greatest_depth, levels_below};
ghost use Rattle.instruction_model.specs.Outcome.{view_of, outcome, traps};
ghost use Rattle.space_model.specs.Event.{next, moves, Follows, MayPay};
ghost use Rattle.space_model.specs.Sound.{IsSoundTop};
ghost use Rattle.space_step.specs.Stretch.{Ends, Pays};
ghost use Rattle.space_step.specs.Running.{Advances, Goes, ProgressWrites};
ghost use Rattle.space_step.specs.Steps.{Steps, IsNextLocal};

use crate::calling::call;
use crate::decode_cache::DecodeCache;
use crate::event::{Advance, Next};
use crate::paying::{budget, run_out};
use crate::source::Source;
use crate::stretch::{End, Stretch, execute};
use space_model::{Refusal, Status};
use space_tree::Top;
use std::alloc::AllocError;
use trap_ret::cause_of;

/// How many local events of a space there were, and whether it may have more.
#[derive(Clone, Copy, Debug, PartialEq, Eq)]
pub(crate) enum Progress {
    /// At least one; what is next is not known.
    Went(u32),
    /// Any number, and what is next, which is no local event; none where it is one, for which there was no memory.
    Blocked(u32, Option<Next>),
}

// The trap at pc of a space that may pay for it.
#[inline(never)]
fn trap(top: &mut Top, number: u8, value: u32)
    requires may_pay { MayPay top.old }
    requires traps { outcome (view_of top.old.memory) top.old.registers ≡ traps number value }
    ensures next { (levels : ℕ) → next levels top.old ≡ moves top.new }
    ensures memory { top.new.memory ≡ top.old.memory }
{
    top.trap(Refusal {
        cause: cause_of(u32::from(number)),
        value,
    });
}

// Instructions of a space that can pay for so many, up to a call or a trap, paid for.
#[tactic(auto, using(space_mem::proofs::Dirty::covers_in_after))]
fn execute_paid<S: Source>(source: &mut S, top: &mut Top, budget: u32) -> Stretch
    requires agrees { S.agrees source.old (view_of top.old.memory) }
    requires running { top.old.status ≡ Status.Running }
    requires pays { Pays budget top.old }
    ensures within { result.count ≤ budget }
    ensures follows { (levels : ℕ) → Follows levels result.count top.old top.new }
    ensures may_pay { result.count < budget → MayPay top.new }
    ensures end { Ends result.end result.count budget (outcome (view_of top.new.memory) top.new.registers) }
    ensures devices { top.new.devices ≡ top.old.devices }
    ensures agrees { S.agrees source.new (view_of top.new.memory) }
{
    let stretch = execute(source, &mut top.registers, &mut top.memory, budget);
    top.pay(stretch.count);
    stretch
}

// Local events of a space that can pay for so many, at least one: instructions, and the call or the trap that ends them.
fn run_stretch<S: Source>(source: &mut S, top: &mut Top, depth: u8, budget: u32) -> Progress
    requires agrees { S.agrees source.old (view_of top.old.memory) }
    requires depth { depth ≤ greatest_depth }
    requires some { 1 ≤ budget }
    requires running { top.old.status ≡ Status.Running }
    requires pays { Pays budget top.old }
    ensures goes { Goes (levels_below depth) budget result top.old top.new }
    ensures writes { ProgressWrites (levels_below depth) result top.old top.new }
    ensures agrees { S.agrees source.new (view_of top.new.memory) }
{
    let Stretch { count, end } = execute_paid(source, top, budget);
    match end {
        End::Budget => Progress::Went(count),
        End::Call => match call(source, top, depth) {
            Ok(Next::Local) => Progress::Went(count + 1),
            Ok(next) => Progress::Blocked(count, Some(next)),
            Err(_) => Progress::Blocked(count, None),
        },
        End::Trap { number, value } => {
            trap(top, number, value);
            Progress::Went(count + 1)
        }
        End::Memory => Progress::Blocked(count, None),
    }
}

/// Local events of a space at a depth, at most so many: at least one, unless something blocks the first. Of these the last alone may write to the
/// console.
pub(crate) fn proceed<S: Source>(source: &mut S, top: &mut Top, depth: u8, quantum: u32) -> Progress
    requires agrees { S.agrees source.old (view_of top.old.memory) }
    requires depth { depth ≤ greatest_depth }
    requires quantum { 1 ≤ quantum }
    ensures goes { Goes (levels_below depth) quantum result top.old top.new }
    ensures writes { ProgressWrites (levels_below depth) result top.old top.new }
    ensures agrees { S.agrees source.new (view_of top.new.memory) }
{
    if top.is_stopped() {
        return Progress::Blocked(0, Some(Next::Stopped));
    }
    let budget = budget(top, quantum);
    if budget == 0 {
        run_out(top);
        return Progress::Went(1);
    }
    run_stretch(source, top, depth, budget)
}

// Local events of a space at a depth, as many as the quantum, unless something blocks it.
fn go_on<S: Source>(source: &mut S, top: &mut Top, depth: u8, quantum: u32) -> Advance
    requires agrees { S.agrees source.old (view_of top.old.memory) }
    requires depth { depth ≤ greatest_depth }
    ensures advances { Advances (levels_below depth) quantum result top.old top.new }
    ensures agrees { S.agrees source.new (view_of top.new.memory) }
{
    let mut ran = 0;
    'stretches: while ran < quantum {
        match proceed(source, top, depth, quantum - ran) {
            Progress::Went(events) => ran += events,
            Progress::Blocked(events, next) => {
                return Advance {
                    ran: ran + events,
                    next,
                };
            }
        }
    }
    Advance {
        ran,
        next: Some(Next::Local),
    }
}

/// Local events of a space at a depth of at most 8: as many as the quantum, which is at least 1, and fewer only where what is
/// next is no local event, or a local event for which there was no memory. Its one error is want of memory for the first event,
/// a local one, and then nothing has changed. What the cache kept before does not matter.
pub fn advance(
    top: &mut Top,
    depth: u8,
    quantum: u32,
    cache: &mut DecodeCache,
) -> Result<Advance, AllocError>
    requires depth { depth ≤ greatest_depth }
    requires quantum { 1 ≤ quantum }
    ensures ok { IfOk result (λ a. Advances (levels_below depth) quantum a top.old top.new) }
    ensures some { IfOk result (λ a. a.next ≡ None → 1 ≤ a.ran) }
    ensures err { OnErr result (top.new ≡ top.old) }
    ensures local { OnErr result (IsNextLocal (levels_below depth) top.old) }
    ensures sound { (fuel : ℕ) (root : Bool) → IsSoundTop fuel root top.old → IsSoundTop fuel root top.new }
{
    let table = &mut *cache.table;
    table.renew();
    let advance = go_on(table, top, depth, quantum);
    if advance.ran == 0 && advance.next.is_none() {
        return Err(AllocError);
    }
    Ok(advance)
}

/// The next event of a space at a depth of at most 8: a local event, which has happened, or a call that meets a child or
/// nothing, and then nothing has changed. Its one error is want of memory for a local event, and then nothing has changed. What the cache
/// kept before does not matter.
pub fn next(top: &mut Top, depth: u8, cache: &mut DecodeCache) -> Result<Next, AllocError>
    requires { depth ≤ greatest_depth }
    ensures steps { Steps (levels_below depth) result top.old top.new }
    ensures sound { (fuel : ℕ) (root : Bool) → IsSoundTop fuel root top.old → IsSoundTop fuel root top.new }
{
    let table = &mut *cache.table;
    table.renew();
    let advance = go_on(table, top, depth, 1);
    advance.next.ok_or(AllocError)
}
