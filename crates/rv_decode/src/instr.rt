ghost use Rattle.std.specs.Prelude.{◌≡◌, ◌↔◌, ◌<◌, ◌^◌, Option, Some, None};
ghost use Rattle.instruction_model.specs.Encoding as encoding;
ghost use Rattle.instruction_model.specs.Form.{HasFields};
ghost use Rattle.instruction_model.specs.Instruction.{instruction_of, Spells};
ghost use Rattle.instruction_model.specs.declared.Instruction.{Instruction};

use crate::decoding::instruction_of;
use crate::encoding::word_of;
use instruction_model::Instruction;
use std::marker::Model;

/// An instruction that some word spells.
#[derive(Clone, Copy, Debug, PartialEq, Eq)]
pub struct Instr {
    instruction: Instruction,
}

impl Model for Instr {
    ghost use Rattle.instruction_model.specs.declared.Instruction.{Instruction};
    ghost use Rattle.instruction_model.specs.Instruction.{IsSpelled};

    ghost Value = { Instruction };

    ghost view = { λ i. i.instruction };

    ghost invariant = { λ i. IsSpelled i.instruction };

    ghost inverse = { λ i. record { instruction = i } };
}

impl Instr {
    /// An instruction whose registers and immediate fit its format.
    #[tactic(auto, using(instruction_model::proofs::Encoding::is_spelled))]
    pub fn new(instruction: Instruction) -> Instr
        requires { HasFields instruction }
        ensures { result ≡ instruction }
    {
        Instr { instruction }
    }

    /// The instruction, whose registers and immediate fit its format.
    #[inline(always)]
    #[tactic(auto, using(instruction_model::proofs::Fields::has_fields))]
    pub fn instruction(self) -> Instruction
        ensures value { result ≡ self }
        ensures fields { HasFields result }
    {
        self.instruction
    }
}

/// The instruction that a word spells, None exactly where it spells none (RISC-V Unprivileged ISA, RV32I instruction set
/// listing).
#[inline(always)]
#[tactic(auto, using(instruction_model::proofs::Listing::spells_is_spelled))]
pub fn decode(word: u32) -> Option<Instr>
    ensures value { result ≡ instruction_of word }
    ensures row { (i : Instruction) → Spells word i ↔ (result ≡ Some i) }
{
    match instruction_of(word) {
        Some(instruction) => Some(Instr { instruction }),
        None => None,
    }
}

/// The word of an instruction, which spells it (RISC-V Unprivileged ISA, RV32I, base instruction formats). Many words spell
/// FENCE; its word is 0x0FF0000F, a fence over all accesses.
#[tactic(auto, using(instruction_model::proofs::Encoding::word_of_spells))]
pub fn encode(instr: Instr) -> u32
    ensures word { result ≡ encoding.word_of instr }
    ensures spelled { instruction_of result ≡ Some instr }
{
    word_of(instr.instruction())
}

/// Decodes what it encodes: the same instruction comes out.
pub fn decode_encoded(instr: Instr) -> Option<Instr>
    ensures { result ≡ Some instr }
{
    decode(encode(instr))
}
