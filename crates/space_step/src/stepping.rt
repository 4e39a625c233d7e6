ghost use Rattle.std.specs.Prelude.{true};
ghost use Rattle.memory_model.specs.Memory.{Memory, with_number};
ghost use Rattle.instruction_model.specs.Form.{HasFields};
ghost use Rattle.instruction_model.specs.Outcome.{View, view_of, outcome};
ghost use Rattle.rv_exec.specs.Flat.{meaning};
ghost use Rattle.rv_exec.specs.Steps.{Steps, registers_at};
ghost use Rattle.space_mem.specs.Held.{Marks};
ghost use Rattle.space_step.specs.Source.{Outlives};

use crate::source::Source;
use rv_exec::{FlatInstruction, RegisterFile, Stepped, perform};
use space_mem::Mem;
use std::alloc::AllocError;

/// Has a source forget the word that an instruction stores to, if it is a store.
#[inline(always)]
pub fn forget_stored<S: Source>(source: &mut S, x: &RegisterFile, instruction: &FlatInstruction)
    requires { HasFields (meaning instruction.now) }
    ensures before { (v : View) → S.agrees source.old v → S.agrees source.new v }
    ensures after { (m : Memory) → S.agrees source.old (view_of m) → Outlives (S.agrees source.new) m x.now (meaning instruction.now) }
{
    if let FlatInstruction::Store { rs1, immediate, .. } = *instruction {
        source.forget(x.register(rs1).wrapping_add(immediate));
    }
}

/// The instruction at pc, from a source: this is the one place that executes an instruction of a space that runs. A call and a trap change nothing.
/// Only a store may fail, for want of memory, and then nothing changes.
#[inline(always)]
#[tactic(auto, using(crate::proofs::Seen::steps_seen))]
pub(crate) fn step_from<S: Source>(
    source: &mut S,
    pc: &mut u32,
    x: &mut RegisterFile,
    memory: &mut Mem,
) -> Result<Stepped, AllocError>
    requires { S.agrees source.old (view_of memory.old.memory) }
    ensures steps { Steps with_number true (outcome (view_of memory.old.memory) (registers_at pc.old x.old)) result (registers_at pc.old x.old) memory.old.memory (registers_at pc.new x.new) memory.new.memory }
    ensures agrees { S.agrees source.new (view_of memory.new.memory) }
    ensures marks { Marks memory.old memory.new }
{
    match source.instruction_at(memory, *pc) {
        Ok(instruction) => {
            forget_stored(source, x, &instruction);
            perform(pc, x, memory, instruction)
        }
        Err(trap) => Ok(Stepped::Trap {
            cause: trap.number,
            value: trap.value,
        }),
    }
}
