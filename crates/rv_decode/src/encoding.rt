ghost use Rattle.std.specs.Prelude.{◌≡◌, ◌<◌, ◌%◌, ◌^◌};
ghost use Rattle.instruction_model.specs.Encoding as encoding;
ghost use Rattle.instruction_model.specs.Form.{HasFields, IsRegister, IsImmediateOf, IsSigned};

use instruction_model::{Comparison, Instruction, LoadKind, Operation, Width};

// A word of an opcode, two registers, the funct3, and what stands in the places of rd and of funct7.
fn r_form(opcode: u32, rd: u32, funct3: u32, rs1: u8, rs2: u8, funct7: u32) -> u32
    requires opcode { opcode < 128 }
    requires rd { rd < 32 }
    requires funct3 { funct3 < 8 }
    requires rs1 { rs1 < 32 }
    requires rs2 { rs2 < 32 }
    requires funct7 { funct7 < 128 }
    ensures { result ≡ encoding.r_form opcode rd funct3 rs1 rs2 funct7 }
{
    let numbers = opcode + 128 * rd + 4096 * funct3 + 33_554_432 * funct7;
    numbers + 32_768 * u32::from(rs1) + 1_048_576 * u32::from(rs2)
}

#[tactic(auto, unfolding(instruction_model::specs::Encoding::word_of))]
fn operate(operation: Operation, rd: u8, rs1: u8, rs2: u8) -> u32
    requires { HasFields (Instruction.Operate operation rd rs1 rs2) }
    ensures { result ≡ encoding.word_of (Instruction.Operate operation rd rs1 rs2) }
{
    let (funct3, funct7) = match operation {
        Operation::Add => (0b000, 0b000_0000),
        Operation::Sub => (0b000, 0b010_0000),
        Operation::Sll => (0b001, 0b000_0000),
        Operation::Slt => (0b010, 0b000_0000),
        Operation::Sltu => (0b011, 0b000_0000),
        Operation::Xor => (0b100, 0b000_0000),
        Operation::Srl => (0b101, 0b000_0000),
        Operation::Sra => (0b101, 0b010_0000),
        Operation::Or => (0b110, 0b000_0000),
        Operation::And => (0b111, 0b000_0000),
    };
    r_form(0b0110011, u32::from(rd), funct3, rs1, rs2, funct7)
}

// A word of an opcode, a funct3, two registers and the lowest twelve bits of an immediate.
fn i_form(opcode: u32, funct3: u32, rd: u8, rs1: u8, immediate: u32) -> u32
    requires opcode { opcode < 128 }
    requires funct3 { funct3 < 8 }
    requires rd { rd < 32 }
    requires rs1 { rs1 < 32 }
    ensures { result ≡ encoding.i_form opcode rd funct3 rs1 immediate }
{
    let low = opcode + 128 * u32::from(rd) + 4096 * funct3;
    low + 32_768 * u32::from(rs1) + 1_048_576 * (immediate % 4096)
}

#[tactic(auto, unfolding(instruction_model::specs::Encoding::word_of))]
fn operate_immediate(operation: Operation, rd: u8, rs1: u8, immediate: u32) -> u32
    requires { HasFields (Instruction.OperateImmediate operation rd rs1 immediate) }
    ensures { result ≡ encoding.word_of (Instruction.OperateImmediate operation rd rs1 immediate) }
{
    let opcode = 0b0010011;
    let funct3 = match operation {
        Operation::Add => 0b000,
        Operation::Slt => 0b010,
        Operation::Sltu => 0b011,
        Operation::Xor => 0b100,
        Operation::Or => 0b110,
        Operation::And => 0b111,
        Operation::Sll => return r_form(
            opcode,
            u32::from(rd),
            0b001,
            rs1,
            immediate as u8,
            0b000_0000,
        ),
        Operation::Srl => return r_form(
            opcode,
            u32::from(rd),
            0b101,
            rs1,
            immediate as u8,
            0b000_0000,
        ),
        Operation::Sra => return r_form(
            opcode,
            u32::from(rd),
            0b101,
            rs1,
            immediate as u8,
            0b010_0000,
        ),
        Operation::Sub => unreachable!(),
    };
    i_form(opcode, funct3, rd, rs1, immediate)
}

#[tactic(auto, unfolding(instruction_model::specs::Encoding::word_of))]
fn load(kind: LoadKind, rd: u8, rs1: u8, immediate: u32) -> u32
    requires { HasFields (Instruction.Load kind rd rs1 immediate) }
    ensures { result ≡ encoding.word_of (Instruction.Load kind rd rs1 immediate) }
{
    let funct3 = match kind {
        LoadKind::Lb => 0b000,
        LoadKind::Lh => 0b001,
        LoadKind::Lw => 0b010,
        LoadKind::Lbu => 0b100,
        LoadKind::Lhu => 0b101,
    };
    i_form(0b0000011, funct3, rd, rs1, immediate)
}

#[tactic(auto, unfolding(instruction_model::specs::Encoding::word_of))]
fn store(width: Width, rs1: u8, rs2: u8, immediate: u32) -> u32
    requires { HasFields (Instruction.Store width rs1 rs2 immediate) }
    ensures { result ≡ encoding.word_of (Instruction.Store width rs1 rs2 immediate) }
{
    let funct3 = match width {
        Width::One => 0b000,
        Width::Two => 0b001,
        Width::Four => 0b010,
    };
    r_form(
        0b0100011,
        immediate % 32,
        funct3,
        rs1,
        rs2,
        immediate / 32 % 128,
    )
}

#[tactic(auto, unfolding(instruction_model::specs::Encoding::word_of))]
fn branch(comparison: Comparison, rs1: u8, rs2: u8, immediate: u32) -> u32
    requires { HasFields (Instruction.Branch comparison rs1 rs2 immediate) }
    ensures { result ≡ encoding.word_of (Instruction.Branch comparison rs1 rs2 immediate) }
{
    let funct3 = match comparison {
        Comparison::Beq => 0b000,
        Comparison::Bne => 0b001,
        Comparison::Blt => 0b100,
        Comparison::Bge => 0b101,
        Comparison::Bltu => 0b110,
        Comparison::Bgeu => 0b111,
    };
    let low = immediate / 2 % 16 * 2 + immediate / 2048 % 2;
    let high = immediate / 4096 % 2 * 64 + immediate / 32 % 64;
    r_form(0b1100011, low, funct3, rs1, rs2, high)
}

#[tactic(auto, unfolding(instruction_model::specs::Encoding::word_of))]
fn jump_and_link(rd: u8, immediate: u32) -> u32
    requires { HasFields (Instruction.Jal rd immediate) }
    ensures { result ≡ encoding.word_of (Instruction.Jal rd immediate) }
{
    let low = immediate / 2048 % 2 * 1_048_576 + immediate / 4096 % 256 * 4096;
    let high = immediate / 1_048_576 % 2 * 2_147_483_648 + immediate / 2 % 1024 * 2_097_152;
    0b1101111 + 128 * u32::from(rd) + low + high
}

#[tactic(auto, unfolding(instruction_model::specs::Encoding::word_of))]
pub(crate) fn word_of(instruction: Instruction) -> u32
    requires { HasFields instruction }
    ensures { result ≡ encoding.word_of instruction }
{
    match instruction {
        Instruction::Lui { rd, immediate } => 0b0110111 + 128 * u32::from(rd) + immediate,
        Instruction::Auipc { rd, immediate } => 0b0010111 + 128 * u32::from(rd) + immediate,
        Instruction::Jal { rd, immediate } => jump_and_link(rd, immediate),
        Instruction::Jalr { rd, rs1, immediate } => i_form(0b1100111, 0b000, rd, rs1, immediate),
        Instruction::Branch {
            comparison,
            rs1,
            rs2,
            immediate,
        } => branch(comparison, rs1, rs2, immediate),
        Instruction::Load {
            kind,
            rd,
            rs1,
            immediate,
        } => load(kind, rd, rs1, immediate),
        Instruction::Store {
            width,
            rs1,
            rs2,
            immediate,
        } => store(width, rs1, rs2, immediate),
        Instruction::OperateImmediate {
            operation,
            rd,
            rs1,
            immediate,
        } => { operate_immediate(operation, rd, rs1, immediate) }
        Instruction::Operate {
            operation,
            rd,
            rs1,
            rs2,
        } => operate(operation, rd, rs1, rs2),
        Instruction::Fence => 0x0ff0_000f,
        Instruction::Ecall => 0x0000_0073,
        Instruction::Ebreak => 0x0010_0073,
    }
}
