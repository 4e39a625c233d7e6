ghost use Rattle.std.specs.Prelude.{◌≡◌, ◌-◌, ◌≤◌};
ghost use Rattle.call_model.specs.Limits.{greatest_depth, levels_below};
ghost use Rattle.instruction_model.specs.Outcome.{view_of, outcome};
ghost use Rattle.space_model.specs.Sound.{has_devices};
ghost use Rattle.space_model.specs.Space as model;
ghost use Rattle.call_model.specs.Calls.{read};
ghost use Rattle.space_model.specs.Event.{effect_of, by_reading};
ghost use Rattle.space_step.specs.Steps.{IsNext, IsAnswer};
ghost use Rattle.space_step.specs.Stretch.{is_call};

use crate::event::Next;
use crate::paying::budget;
use crate::source::decoded_at;
use rv_decode::Instruction;
use rv_exec::Regs;
use space_mem::Mem;
use space_model::Status;
use space_tree::Top;
use trap_ret::{AcceptedCall, Call, Looking, read_call};

// Whether an ECALL stands at pc and is next.
#[tactic(auto, unfolding(instruction_model::specs::Outcome::outcome))]
fn is_at_call(registers: &Regs, memory: &Mem) -> bool
    ensures { result ≡ is_call (outcome (view_of memory.now.memory) registers.now) }
{
    match decoded_at(memory, registers.pc) {
        Ok(instr) => instr.instruction() == Instruction::Ecall,
        Err(_) => false,
    }
}

// What a call is: a local event, or a call that meets children.
#[tactic(auto, using(crate::proofs::Answers::console_is_local, crate::proofs::Answers::buffer_is_local, crate::proofs::Answers::clock_is_local, crate::proofs::Answers::random_is_local))]
fn answer_of(accepted: AcceptedCall) -> Next
    ensures { (t : model.Top) → IsAnswer result (effect_of t accepted) }
{
    match accepted.call() {
        Call::Ret { .. }
        | Call::ConsoleOut { .. }
        | Call::ConsoleIn { .. }
        | Call::Clock
        | Call::Random
        | Call::File(_) => Next::Local,
        _ => Next::Meet(accepted),
    }
}

// What an ECALL is to a space at a depth.
fn answer_to_call(top: &Top, depth: u8) -> Next
    ensures { IsAnswer result (by_reading top.now (read top.now.registers.x (has_devices top.now.devices) depth)) }
{
    match read_call::<Looking>(top.registers.x(), top.has_devices(), depth) {
        Ok(accepted) => answer_of(accepted),
        Err(_) => Next::Local,
    }
}

// What is next of a space that runs.
fn peek_running(top: &Top, depth: u8) -> Next
    requires depth { depth ≤ greatest_depth }
    requires running { top.now.status ≡ Status.Running }
    ensures { IsNext (levels_below depth) result top.now }
{
    if budget(top, 1) == 0 {
        return Next::Local;
    }
    if !is_at_call(&top.registers, &top.memory) {
        return Next::Local;
    }
    answer_to_call(top, depth)
}

/// What is next of a space at a depth of at most 8. It takes no memory.
#[tactic(auto, using(crate::proofs::Events::next_rests))]
pub fn peek(top: &Top, depth: u8) -> Next
    requires { depth ≤ greatest_depth }
    ensures { IsNext (levels_below depth) result top.now }
{
    match top.status {
        Status::Running => peek_running(top, depth),
        Status::Stopped { .. } => Next::Stopped,
    }
}
