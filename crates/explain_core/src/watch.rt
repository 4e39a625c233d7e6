ghost use Rattle.std.specs.Prelude.{◌≡◌, false, true};
ghost use Rattle.instruction_model.specs.Form.{HasFields};
ghost use Rattle.rv_exec.specs.Flat.{meaning};
ghost use Rattle.explain_core.specs.Stretch.{GivesBack, IsWatchable, Leaves, given_back, result_register, stores_into};
ghost use Rattle.explain_core.specs.Watch.{value_in};
ghost use Rattle.explain_core.specs.declared.watching.Watched.{Watched};

use rv_exec::{FlatInstruction, RegisterFile};
use space_tree::Mem;

/// What is watched of a space. Each kind has a type of its own, for which the loop over instructions is compiled.
pub(crate) trait Watch: Copy {
    // what that is
    ghost what: { Self → Watched };

    /// What is watched, in registers and memory.
    fn value(self, x: &RegisterFile, memory: &Mem) -> u32
        requires { IsWatchable (what self) }
        ensures { result ≡ value_in (what self) x.now memory.now.memory };

    /// Whether an instruction may change what is watched. One that may changes no register besides.
    fn may_change(self, instruction: &FlatInstruction, x: &RegisterFile) -> bool
        requires watchable { IsWatchable (what self) }
        requires fields { HasFields (meaning instruction.now) }
        ensures alone { result ≡ true → GivesBack (what self) (meaning instruction.now) x.now }
        ensures leaves { result ≡ false → Leaves (what self) (meaning instruction.now) x.now };

    /// The registers before an instruction that may change what is watched, by those behind it and by what was watched before it.
    fn given_back(self, after: RegisterFile, value: u32) -> RegisterFile
        requires { IsWatchable (what self) }
        ensures { result ≡ given_back (what self) after value };
}

/// The byte at an address is watched.
#[derive(Clone, Copy)]
pub(crate) struct ByteWatch {
    pub(crate) address: u32,
}

/// A register is watched.
#[derive(Clone, Copy)]
pub(crate) struct RegisterWatch {
    pub(crate) number: u8,
}

// The register that an instruction has for its result; x0, which stays 0, of one that has none.
#[inline(always)]
fn result_register(instruction: &FlatInstruction) -> u8
    ensures { result ≡ result_register (meaning instruction.now) }
{
    match *instruction {
        FlatInstruction::Lui { rd, .. }
        | FlatInstruction::Auipc { rd, .. }
        | FlatInstruction::Jal { rd, .. }
        | FlatInstruction::Jalr { rd, .. }
        | FlatInstruction::Lb { rd, .. }
        | FlatInstruction::Lh { rd, .. }
        | FlatInstruction::Lw { rd, .. }
        | FlatInstruction::Lbu { rd, .. }
        | FlatInstruction::Lhu { rd, .. }
        | FlatInstruction::Addi { rd, .. }
        | FlatInstruction::Slli { rd, .. }
        | FlatInstruction::Slti { rd, .. }
        | FlatInstruction::Sltiu { rd, .. }
        | FlatInstruction::Xori { rd, .. }
        | FlatInstruction::Srli { rd, .. }
        | FlatInstruction::Srai { rd, .. }
        | FlatInstruction::Ori { rd, .. }
        | FlatInstruction::Andi { rd, .. }
        | FlatInstruction::Add { rd, .. }
        | FlatInstruction::Sub { rd, .. }
        | FlatInstruction::Sll { rd, .. }
        | FlatInstruction::Slt { rd, .. }
        | FlatInstruction::Sltu { rd, .. }
        | FlatInstruction::Xor { rd, .. }
        | FlatInstruction::Srl { rd, .. }
        | FlatInstruction::Sra { rd, .. }
        | FlatInstruction::Or { rd, .. }
        | FlatInstruction::And { rd, .. } => rd.number(),
        _ => 0,
    }
}

// Whether an instruction stores into the aligned word of an address.
#[inline(always)]
fn stores_into(instruction: &FlatInstruction, x: &RegisterFile, address: u32) -> bool
    requires { HasFields (meaning instruction.now) }
    ensures { result ≡ stores_into (meaning instruction.now) x.now address }
{
    match *instruction {
        FlatInstruction::Store { rs1, immediate, .. } => {
            x.register(rs1).wrapping_add(immediate) / 4 == address / 4
        }
        _ => false,
    }
}

impl Watch for ByteWatch {
    ghost use Rattle.explain_core.specs.declared.watching.Watched.TheVariants.{Byte};

    ghost what = { λ w. Byte w.address };

    #[inline(always)]
    fn value(self, _x: &RegisterFile, memory: &Mem) -> u32 {
        u32::from(memory.byte(self.address))
    }

    #[inline(always)]
    #[tactic(auto, using(crate::proofs::Leaving::leaves_byte, crate::proofs::Leaving::gives_back_byte))]
    fn may_change(self, instruction: &FlatInstruction, x: &RegisterFile) -> bool {
        stores_into(instruction, x, self.address)
    }

    #[inline(always)]
    fn given_back(self, after: RegisterFile, _value: u32) -> RegisterFile {
        after
    }
}

impl Watch for RegisterWatch {
    ghost use Rattle.explain_core.specs.declared.watching.Watched.TheVariants.{Register};

    ghost what = { λ w. Register w.number };

    #[inline(always)]
    fn value(self, x: &RegisterFile, _memory: &Mem) -> u32 {
        x.register(self.number)
    }

    #[inline(always)]
    #[tactic(auto, using(crate::proofs::Leaving::leaves_register, crate::proofs::Leaving::gives_back_register))]
    fn may_change(self, instruction: &FlatInstruction, _x: &RegisterFile) -> bool {
        result_register(instruction) == self.number
    }

    #[inline(always)]
    fn given_back(self, after: RegisterFile, value: u32) -> RegisterFile {
        let mut before = after;
        before.set_register(self.number, value);
        before
    }
}
