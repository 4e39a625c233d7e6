ghost use Rattle.std.specs.Prelude.{◌≡◌, ℕ, ◌%◌, IfOk, IfErr, IsOk};
ghost use Rattle.memory_model.specs.Memory.{Memory, width_bytes, with_number};
ghost use Rattle.memory_model.specs.declared.Width.{Width};
ghost use Rattle.instruction_model.specs.Form.{HasFields};
ghost use Rattle.instruction_model.specs.Outcome.{View, view_of};
ghost use Rattle.rv_exec.specs.Flat.{meaning};
ghost use Rattle.space_step.specs.Source.{IsKnown, HasNone, StandsAt, TrapsAt};

use rv_decode::{Instr, decode};
use rv_exec::FlatInstruction;
use space_mem::Mem;

/// A trap: its number and its value (RISC-V Privileged ISA, "Machine Cause").
#[derive(Clone, Copy, Debug, PartialEq, Eq)]
pub struct Trap {
    pub number: u8,
    pub value: u32,
}

/// The instruction whose word stands at an address, or the trap that stands there: this is the one place that fetches and decodes.
#[inline(always)]
#[tactic(auto, unfolding(instruction_model::specs::Outcome::outcome))]
pub(crate) fn decoded_at(memory: &Mem, at: u32) -> Result<Instr, Trap>
    ensures aligned { IsOk result → at % 4 ≡ 0 }
    ensures known { IfOk result (λ i. IsKnown (view_of memory.now.memory) at i) }
    ensures trap { IfErr result (λ t. TrapsAt (view_of memory.now.memory) at t.number t.value) }
    ensures none { IfErr result (λ _. HasNone (view_of memory.now.memory) at) }
{
    if at % 4 != 0 {
        return Err(Trap {
            number: 0,
            value: at,
        });
    }
    match memory.fetch(at) {
        Some(word) => match decode(word) {
            Some(instr) => Ok(instr),
            None => Err(Trap {
                number: 2,
                value: word,
            }),
        },
        None => Err(Trap {
            number: 1,
            value: at,
        }),
    }
}

/// The trap that stands at an address, where no instruction does.
#[inline(never)]
pub(crate) fn trap_at(memory: &Mem, at: u32) -> Trap
    requires { HasNone (view_of memory.now.memory) at }
    ensures { TrapsAt (view_of memory.now.memory) at result.number result.value }
{
    match decoded_at(memory, at) {
        Ok(_) => unreachable!(),
        Err(trap) => trap,
    }
}

/// Where a stretch takes its instructions from.
pub trait Source {
    // whether what the source keeps is so of a memory that is seen like this
    ghost agrees: { Self → View → Type 0 };

    /// The instruction at an address, or the trap that stands there.
    fn instruction_at(&mut self, memory: &Mem, at: u32) -> Result<FlatInstruction, Trap>
        requires { agrees self.old (view_of memory.now.memory) }
        ensures agrees { agrees self.new (view_of memory.now.memory) }
        ensures fields { IfOk result (λ i. HasFields (meaning i)) }
        ensures instruction { IfOk result (λ i. StandsAt (view_of memory.now.memory) at (meaning i)) }
        ensures trap { IfErr result (λ t. TrapsAt (view_of memory.now.memory) at t.number t.value) };

    /// Keeps the word of an address no longer, so that a store there changes nothing that is kept.
    fn forget(&mut self, at: u32)
        ensures before { (v : View) → agrees self.old v → agrees self.new v }
        ensures after { (m : Memory) (w : Width) (value : ℕ) → at % width_bytes w ≡ 0 → agrees self.old (view_of m) → agrees self.new (view_of (with_number m at w value)) };

    /// Keeps nothing any longer, so that memory may change in any way.
    fn forget_all(&mut self)
        ensures { (u v : View) → agrees self.old u → agrees self.new v };
}
