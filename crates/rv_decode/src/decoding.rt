ghost use Rattle.std.specs.Prelude.{◌≡◌, ◌<◌, ◌^◌, ◌%◌, ◌/◌, Option, Some, None};
ghost use Rattle.instruction_model.specs.Word as word_fields;
ghost use Rattle.instruction_model.specs.Instruction.{instruction_of};

use crate::fields::{
    immediate_b, immediate_i, immediate_j, immediate_s, immediate_u, rd, rs1, rs2,
};
use instruction_model::{Comparison, Instruction, LoadKind, Operation, Width};

#[inline(always)]
#[tactic(auto, unfolding(instruction_model::specs::Instruction::instruction_of))]
fn decode_jump_to_register(word: u32) -> Option<Instruction>
    requires { word_fields.opcode word ≡ 0b1100111 }
    ensures { result ≡ instruction_of word }
{
    match word / 4096 % 8 {
        0b000 => Some(Instruction::Jalr {
            rd: rd(word),
            rs1: rs1(word),
            immediate: immediate_i(word),
        }),
        _ => None,
    }
}

#[inline(always)]
#[tactic(auto, unfolding(instruction_model::specs::Instruction::instruction_of))]
fn decode_branch(word: u32) -> Option<Instruction>
    requires { word_fields.opcode word ≡ 0b1100011 }
    ensures { result ≡ instruction_of word }
{
    let comparison = match word / 4096 % 8 {
        0b000 => Comparison::Beq,
        0b001 => Comparison::Bne,
        0b100 => Comparison::Blt,
        0b101 => Comparison::Bge,
        0b110 => Comparison::Bltu,
        0b111 => Comparison::Bgeu,
        _ => return None,
    };
    Some(Instruction::Branch {
        comparison,
        rs1: rs1(word),
        rs2: rs2(word),
        immediate: immediate_b(word),
    })
}

#[inline(always)]
#[tactic(auto, unfolding(instruction_model::specs::Instruction::instruction_of))]
fn decode_load(word: u32) -> Option<Instruction>
    requires { word_fields.opcode word ≡ 0b0000011 }
    ensures { result ≡ instruction_of word }
{
    let kind = match word / 4096 % 8 {
        0b000 => LoadKind::Lb,
        0b001 => LoadKind::Lh,
        0b010 => LoadKind::Lw,
        0b100 => LoadKind::Lbu,
        0b101 => LoadKind::Lhu,
        _ => return None,
    };
    Some(Instruction::Load {
        kind,
        rd: rd(word),
        rs1: rs1(word),
        immediate: immediate_i(word),
    })
}

#[inline(always)]
#[tactic(auto, unfolding(instruction_model::specs::Instruction::instruction_of))]
fn decode_store(word: u32) -> Option<Instruction>
    requires { word_fields.opcode word ≡ 0b0100011 }
    ensures { result ≡ instruction_of word }
{
    let width = match word / 4096 % 8 {
        0b000 => Width::One,
        0b001 => Width::Two,
        0b010 => Width::Four,
        _ => return None,
    };
    Some(Instruction::Store {
        width,
        rs1: rs1(word),
        rs2: rs2(word),
        immediate: immediate_s(word),
    })
}

#[inline(always)]
#[tactic(auto, unfolding(instruction_model::specs::Instruction::instruction_of))]
fn decode_shift_immediate(word: u32) -> Option<Instruction>
    requires opcode { word_fields.opcode word ≡ 0b0010011 }
    requires funct3 { word_fields.funct3 word % 4 ≡ 1 }
    ensures { result ≡ instruction_of word }
{
    let operation = match (word / 33_554_432, word / 4096 % 8) {
        (0b000_0000, 0b001) => Operation::Sll,
        (0b000_0000, _) => Operation::Srl,
        (0b010_0000, 0b101) => Operation::Sra,
        _ => return None,
    };
    Some(Instruction::OperateImmediate {
        operation,
        rd: rd(word),
        rs1: rs1(word),
        immediate: u32::from(rs2(word)),
    })
}

#[inline(always)]
#[tactic(auto, unfolding(instruction_model::specs::Instruction::instruction_of))]
fn decode_operate_immediate(word: u32) -> Option<Instruction>
    requires { word_fields.opcode word ≡ 0b0010011 }
    ensures { result ≡ instruction_of word }
{
    let operation = match word / 4096 % 8 {
        0b000 => Operation::Add,
        0b010 => Operation::Slt,
        0b011 => Operation::Sltu,
        0b100 => Operation::Xor,
        0b110 => Operation::Or,
        0b111 => Operation::And,
        _ => return decode_shift_immediate(word),
    };
    Some(Instruction::OperateImmediate {
        operation,
        rd: rd(word),
        rs1: rs1(word),
        immediate: immediate_i(word),
    })
}

#[inline(always)]
#[tactic(auto, unfolding(instruction_model::specs::Instruction::instruction_of))]
fn decode_operate(word: u32) -> Option<Instruction>
    requires { word_fields.opcode word ≡ 0b0110011 }
    ensures { result ≡ instruction_of word }
{
    let operation = match (word / 33_554_432, word / 4096 % 8) {
        (0b000_0000, 0b000) => Operation::Add,
        (0b000_0000, 0b001) => Operation::Sll,
        (0b000_0000, 0b010) => Operation::Slt,
        (0b000_0000, 0b011) => Operation::Sltu,
        (0b000_0000, 0b100) => Operation::Xor,
        (0b000_0000, 0b101) => Operation::Srl,
        (0b000_0000, 0b110) => Operation::Or,
        (0b000_0000, _) => Operation::And,
        (0b010_0000, 0b000) => Operation::Sub,
        (0b010_0000, 0b101) => Operation::Sra,
        _ => return None,
    };
    Some(Instruction::Operate {
        operation,
        rd: rd(word),
        rs1: rs1(word),
        rs2: rs2(word),
    })
}

#[inline(always)]
#[tactic(auto, unfolding(instruction_model::specs::Instruction::instruction_of))]
fn decode_fence(word: u32) -> Option<Instruction>
    requires { word_fields.opcode word ≡ 0b0001111 }
    ensures { result ≡ instruction_of word }
{
    match word / 4096 % 8 {
        0b000 => Some(Instruction::Fence),
        _ => None,
    }
}

#[inline(always)]
#[tactic(auto, unfolding(instruction_model::specs::Instruction::instruction_of))]
fn decode_environment(word: u32) -> Option<Instruction>
    requires { word_fields.opcode word ≡ 0b1110011 }
    ensures { result ≡ instruction_of word }
{
    match word {
        0x0000_0073 => Some(Instruction::Ecall),
        0x0010_0073 => Some(Instruction::Ebreak),
        _ => None,
    }
}

#[inline(always)]
#[tactic(auto, unfolding(instruction_model::specs::Instruction::instruction_of))]
pub(crate) fn instruction_of(word: u32) -> Option<Instruction>
    ensures { result ≡ instruction_of word }
{
    match word % 128 {
        0b0110111 => Some(Instruction::Lui {
            rd: rd(word),
            immediate: immediate_u(word),
        }),
        0b0010111 => Some(Instruction::Auipc {
            rd: rd(word),
            immediate: immediate_u(word),
        }),
        0b1101111 => Some(Instruction::Jal {
            rd: rd(word),
            immediate: immediate_j(word),
        }),
        0b1100111 => decode_jump_to_register(word),
        0b1100011 => decode_branch(word),
        0b0000011 => decode_load(word),
        0b0100011 => decode_store(word),
        0b0010011 => decode_operate_immediate(word),
        0b0110011 => decode_operate(word),
        0b0001111 => decode_fence(word),
        0b1110011 => decode_environment(word),
        _ => None,
    }
}
