ghost use Rattle.std.specs.Prelude.{◌≡◌};
ghost use Rattle.instruction_model.specs.Form.{HasFields};
ghost use Rattle.instruction_model.specs.declared.Instruction.TheVariants as plain;
ghost use Rattle.rv_exec.specs.Flat.{meaning};

use crate::regs::Destination;
use rv_decode::{Comparison, Instr, Instruction, LoadKind, Operation, Width};

/// An instruction by its own name where its format has several that compute, branch or load, so that one look says what is to be done (RISC-V
/// Unprivileged ISA, RV32I instruction set listing). Sources are registers 0 to 31. One whose result goes nowhere, since it names x0, has a name of its own,
/// so that no write of a register asks which one it is: `J` and `Jr` keep no link, and of what discards its result the next instruction is left, or the
/// fault of a load.
#[derive(Clone, Copy)]
pub enum FlatInstruction {
    Beq {
        rs1: u8,
        rs2: u8,
        immediate: u32,
    },
    Bne {
        rs1: u8,
        rs2: u8,
        immediate: u32,
    },
    Blt {
        rs1: u8,
        rs2: u8,
        immediate: u32,
    },
    Bge {
        rs1: u8,
        rs2: u8,
        immediate: u32,
    },
    Bltu {
        rs1: u8,
        rs2: u8,
        immediate: u32,
    },
    Bgeu {
        rs1: u8,
        rs2: u8,
        immediate: u32,
    },
    Lui {
        rd: Destination,
        immediate: u32,
    },
    Auipc {
        rd: Destination,
        immediate: u32,
    },
    Jal {
        rd: Destination,
        immediate: u32,
    },
    J {
        immediate: u32,
    },
    Jalr {
        rd: Destination,
        rs1: u8,
        immediate: u32,
    },
    Jr {
        rs1: u8,
        immediate: u32,
    },
    Lb {
        rd: Destination,
        rs1: u8,
        immediate: u32,
    },
    Lh {
        rd: Destination,
        rs1: u8,
        immediate: u32,
    },
    Lw {
        rd: Destination,
        rs1: u8,
        immediate: u32,
    },
    Lbu {
        rd: Destination,
        rs1: u8,
        immediate: u32,
    },
    Lhu {
        rd: Destination,
        rs1: u8,
        immediate: u32,
    },
    Store {
        rs1: u8,
        rs2: u8,
        width: Width,
        immediate: u32,
    },
    Addi {
        rd: Destination,
        rs1: u8,
        immediate: u32,
    },
    Slli {
        rd: Destination,
        rs1: u8,
        immediate: u32,
    },
    Slti {
        rd: Destination,
        rs1: u8,
        immediate: u32,
    },
    Sltiu {
        rd: Destination,
        rs1: u8,
        immediate: u32,
    },
    Xori {
        rd: Destination,
        rs1: u8,
        immediate: u32,
    },
    Srli {
        rd: Destination,
        rs1: u8,
        immediate: u32,
    },
    Srai {
        rd: Destination,
        rs1: u8,
        immediate: u32,
    },
    Ori {
        rd: Destination,
        rs1: u8,
        immediate: u32,
    },
    Andi {
        rd: Destination,
        rs1: u8,
        immediate: u32,
    },
    Add {
        rd: Destination,
        rs1: u8,
        rs2: u8,
    },
    Sub {
        rd: Destination,
        rs1: u8,
        rs2: u8,
    },
    Sll {
        rd: Destination,
        rs1: u8,
        rs2: u8,
    },
    Slt {
        rd: Destination,
        rs1: u8,
        rs2: u8,
    },
    Sltu {
        rd: Destination,
        rs1: u8,
        rs2: u8,
    },
    Xor {
        rd: Destination,
        rs1: u8,
        rs2: u8,
    },
    Srl {
        rd: Destination,
        rs1: u8,
        rs2: u8,
    },
    Sra {
        rd: Destination,
        rs1: u8,
        rs2: u8,
    },
    Or {
        rd: Destination,
        rs1: u8,
        rs2: u8,
    },
    And {
        rd: Destination,
        rs1: u8,
        rs2: u8,
    },
    DiscardLui {
        immediate: u32,
    },
    DiscardAuipc {
        immediate: u32,
    },
    DiscardLoad {
        kind: LoadKind,
        rs1: u8,
        immediate: u32,
    },
    DiscardImmediate {
        operation: Operation,
        rs1: u8,
        immediate: u32,
    },
    DiscardOperation {
        operation: Operation,
        rs1: u8,
        rs2: u8,
    },
    Fence,
    Ecall,
    Ebreak,
}

fn flat_branch(comparison: Comparison, rs1: u8, rs2: u8, immediate: u32) -> FlatInstruction
    ensures { meaning result ≡ plain.Branch comparison rs1 rs2 immediate }
{
    match comparison {
        Comparison::Beq => FlatInstruction::Beq {
            rs1,
            rs2,
            immediate,
        },
        Comparison::Bne => FlatInstruction::Bne {
            rs1,
            rs2,
            immediate,
        },
        Comparison::Blt => FlatInstruction::Blt {
            rs1,
            rs2,
            immediate,
        },
        Comparison::Bge => FlatInstruction::Bge {
            rs1,
            rs2,
            immediate,
        },
        Comparison::Bltu => FlatInstruction::Bltu {
            rs1,
            rs2,
            immediate,
        },
        Comparison::Bgeu => FlatInstruction::Bgeu {
            rs1,
            rs2,
            immediate,
        },
    }
}

fn load_into(kind: LoadKind, rd: Destination, rs1: u8, immediate: u32) -> FlatInstruction
    ensures { meaning result ≡ plain.Load kind rd rs1 immediate }
{
    match kind {
        LoadKind::Lb => FlatInstruction::Lb { rd, rs1, immediate },
        LoadKind::Lh => FlatInstruction::Lh { rd, rs1, immediate },
        LoadKind::Lw => FlatInstruction::Lw { rd, rs1, immediate },
        LoadKind::Lbu => FlatInstruction::Lbu { rd, rs1, immediate },
        LoadKind::Lhu => FlatInstruction::Lhu { rd, rs1, immediate },
    }
}

fn immediate_into(operation: Operation, rd: Destination, rs1: u8, immediate: u32) -> FlatInstruction
    requires { HasFields (plain.OperateImmediate operation rd rs1 immediate) }
    ensures { meaning result ≡ plain.OperateImmediate operation rd rs1 immediate }
{
    match operation {
        Operation::Add => FlatInstruction::Addi { rd, rs1, immediate },
        Operation::Sll => FlatInstruction::Slli { rd, rs1, immediate },
        Operation::Slt => FlatInstruction::Slti { rd, rs1, immediate },
        Operation::Sltu => FlatInstruction::Sltiu { rd, rs1, immediate },
        Operation::Xor => FlatInstruction::Xori { rd, rs1, immediate },
        Operation::Srl => FlatInstruction::Srli { rd, rs1, immediate },
        Operation::Sra => FlatInstruction::Srai { rd, rs1, immediate },
        Operation::Or => FlatInstruction::Ori { rd, rs1, immediate },
        Operation::And => FlatInstruction::Andi { rd, rs1, immediate },
        // no word spells it
        Operation::Sub => unreachable!(),
    }
}

fn operation_into(operation: Operation, rd: Destination, rs1: u8, rs2: u8) -> FlatInstruction
    ensures { meaning result ≡ plain.Operate operation rd rs1 rs2 }
{
    match operation {
        Operation::Add => FlatInstruction::Add { rd, rs1, rs2 },
        Operation::Sub => FlatInstruction::Sub { rd, rs1, rs2 },
        Operation::Sll => FlatInstruction::Sll { rd, rs1, rs2 },
        Operation::Slt => FlatInstruction::Slt { rd, rs1, rs2 },
        Operation::Sltu => FlatInstruction::Sltu { rd, rs1, rs2 },
        Operation::Xor => FlatInstruction::Xor { rd, rs1, rs2 },
        Operation::Srl => FlatInstruction::Srl { rd, rs1, rs2 },
        Operation::Sra => FlatInstruction::Sra { rd, rs1, rs2 },
        Operation::Or => FlatInstruction::Or { rd, rs1, rs2 },
        Operation::And => FlatInstruction::And { rd, rs1, rs2 },
    }
}

fn flat_lui(rd: u8, immediate: u32) -> FlatInstruction
    requires { HasFields (plain.Lui rd immediate) }
    ensures { meaning result ≡ plain.Lui rd immediate }
{
    match Destination::of(rd) {
        Some(rd) => FlatInstruction::Lui { rd, immediate },
        None => FlatInstruction::DiscardLui { immediate },
    }
}

fn flat_auipc(rd: u8, immediate: u32) -> FlatInstruction
    requires { HasFields (plain.Auipc rd immediate) }
    ensures { meaning result ≡ plain.Auipc rd immediate }
{
    match Destination::of(rd) {
        Some(rd) => FlatInstruction::Auipc { rd, immediate },
        None => FlatInstruction::DiscardAuipc { immediate },
    }
}

fn flat_jal(rd: u8, immediate: u32) -> FlatInstruction
    requires { HasFields (plain.Jal rd immediate) }
    ensures { meaning result ≡ plain.Jal rd immediate }
{
    match Destination::of(rd) {
        Some(rd) => FlatInstruction::Jal { rd, immediate },
        None => FlatInstruction::J { immediate },
    }
}

fn flat_jalr(rd: u8, rs1: u8, immediate: u32) -> FlatInstruction
    requires { HasFields (plain.Jalr rd rs1 immediate) }
    ensures { meaning result ≡ plain.Jalr rd rs1 immediate }
{
    match Destination::of(rd) {
        Some(rd) => FlatInstruction::Jalr { rd, rs1, immediate },
        None => FlatInstruction::Jr { rs1, immediate },
    }
}

fn flat_load(kind: LoadKind, rd: u8, rs1: u8, immediate: u32) -> FlatInstruction
    requires { HasFields (plain.Load kind rd rs1 immediate) }
    ensures { meaning result ≡ plain.Load kind rd rs1 immediate }
{
    match Destination::of(rd) {
        Some(rd) => load_into(kind, rd, rs1, immediate),
        None => FlatInstruction::DiscardLoad {
            kind,
            rs1,
            immediate,
        },
    }
}

fn flat_immediate(operation: Operation, rd: u8, rs1: u8, immediate: u32) -> FlatInstruction
    requires { HasFields (plain.OperateImmediate operation rd rs1 immediate) }
    ensures { meaning result ≡ plain.OperateImmediate operation rd rs1 immediate }
{
    match Destination::of(rd) {
        Some(rd) => immediate_into(operation, rd, rs1, immediate),
        None => FlatInstruction::DiscardImmediate {
            operation,
            rs1,
            immediate,
        },
    }
}

fn flat_operation(operation: Operation, rd: u8, rs1: u8, rs2: u8) -> FlatInstruction
    requires { HasFields (plain.Operate operation rd rs1 rs2) }
    ensures { meaning result ≡ plain.Operate operation rd rs1 rs2 }
{
    match Destination::of(rd) {
        Some(rd) => operation_into(operation, rd, rs1, rs2),
        None => FlatInstruction::DiscardOperation {
            operation,
            rs1,
            rs2,
        },
    }
}

/// The flat instruction of an instruction.
pub fn flat_of(instr: Instr) -> FlatInstruction
    ensures meaning { meaning result ≡ instr }
    ensures fields { HasFields (meaning result) }
{
    match instr.instruction() {
        Instruction::Lui { rd, immediate } => flat_lui(rd, immediate),
        Instruction::Auipc { rd, immediate } => flat_auipc(rd, immediate),
        Instruction::Jal { rd, immediate } => flat_jal(rd, immediate),
        Instruction::Jalr { rd, rs1, immediate } => flat_jalr(rd, rs1, immediate),
        Instruction::Branch {
            comparison,
            rs1,
            rs2,
            immediate,
        } => flat_branch(comparison, rs1, rs2, immediate),
        Instruction::Load {
            kind,
            rd,
            rs1,
            immediate,
        } => flat_load(kind, rd, rs1, immediate),
        Instruction::Store {
            width,
            rs1,
            rs2,
            immediate,
        } => FlatInstruction::Store {
            width,
            rs1,
            rs2,
            immediate,
        },
        Instruction::OperateImmediate {
            operation,
            rd,
            rs1,
            immediate,
        } => flat_immediate(operation, rd, rs1, immediate),
        Instruction::Operate {
            operation,
            rd,
            rs1,
            rs2,
        } => flat_operation(operation, rd, rs1, rs2),
        Instruction::Fence => FlatInstruction::Fence,
        Instruction::Ecall => FlatInstruction::Ecall,
        Instruction::Ebreak => FlatInstruction::Ebreak,
    }
}
