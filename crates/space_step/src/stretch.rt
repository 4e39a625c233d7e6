ghost use Rattle.std.specs.Prelude.{◌≡◌, ◌≤◌};
ghost use Rattle.instruction_model.specs.Outcome.{view_of, outcome};
ghost use Rattle.rv_exec.specs.Steps.{registers_at};
ghost use Rattle.space_mem.specs.Held.{Marks};
ghost use Rattle.space_step.specs.Stretch.{Executes, Ends};

use crate::source::Source;
use crate::stepping::step_from;
use rv_exec::{RegisterFile, Regs, Stepped};
use space_mem::Mem;

/// Why a stretch of instructions has ended.
#[derive(Clone, Copy, Debug, PartialEq, Eq)]
pub(crate) enum End {
    /// It has as many as it might have.
    Budget,
    /// A call is next.
    Call,
    /// A trap is next: its number and its value (RISC-V Privileged ISA, "Machine Cause").
    Trap { number: u8, value: u32 },
    /// A store is next, for which there was no memory.
    Memory,
}

/// A stretch of instructions: how many, and why no more.
#[derive(Clone, Copy, Debug, PartialEq, Eq)]
pub(crate) struct Stretch {
    pub(crate) count: u32,
    pub(crate) end: End,
}

// Ends a stretch: pc and the other registers stand together again. Each end of the loop calls it by itself, so that no event before has to say which
// end it would be.
#[inline(always)]
fn end_stretch(registers: &mut Regs, pc: u32, file: RegisterFile, count: u32, end: End) -> Stretch
    ensures registers { registers.new ≡ registers_at pc file }
    ensures count { result.count ≡ count }
    ensures end { result.end ≡ end }
{
    *registers = Regs::from_parts(pc, file);
    Stretch { count, end }
}

/// Executes instructions from a source, at most as many as the budget, up to a call or a trap.
#[inline(never)]
#[tactic(auto, using(crate::proofs::Stretches::wants_memory, space_mem::proofs::Dirty::marks_then))]
pub(crate) fn execute<S: Source>(
    source: &mut S,
    registers: &mut Regs,
    memory: &mut Mem,
    budget: u32,
) -> Stretch
    requires { S.agrees source.old (view_of memory.old.memory) }
    ensures within { result.count ≤ budget }
    ensures done { Executes result.count registers.old memory.old.memory registers.new memory.new.memory }
    ensures end { Ends result.end result.count budget (outcome (view_of memory.new.memory) registers.new) }
    ensures marks { Marks memory.old memory.new }
    ensures agrees { S.agrees source.new (view_of memory.new.memory) }
{
    // pc stands apart from the other registers, so that it can be held in a register of the machine
    let mut pc = registers.pc;
    let mut file = registers.file();
    for count in 0..budget {
        match step_from(source, &mut pc, &mut file, memory) {
            Ok(Stepped::Next) => {}
            Ok(Stepped::Call) => return end_stretch(registers, pc, file, count, End::Call),
            Ok(Stepped::Trap { cause, value }) => {
                let end = End::Trap {
                    number: cause,
                    value,
                };
                return end_stretch(registers, pc, file, count, end);
            }
            Err(_) => return end_stretch(registers, pc, file, count, End::Memory),
        }
    }
    end_stretch(registers, pc, file, budget, End::Budget)
}
