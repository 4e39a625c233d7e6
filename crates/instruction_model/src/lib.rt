//! Definitions of instructions and of what they do, for contracts: `specs/` has them.
#![tactic(auto)]

pub use memory_model::Width;

/// What a computation makes of two numbers (RISC-V Unprivileged ISA, RV32I, integer computational instructions). An
/// instruction with an immediate has it for the second number.
#[derive(Clone, Copy, Debug, PartialEq, Eq)]
pub enum Operation {
    Add,
    Sub,
    Sll,
    Slt,
    Sltu,
    Xor,
    Srl,
    Sra,
    Or,
    And,
}

/// When a branch is taken (RISC-V Unprivileged ISA, RV32I, conditional branches).
#[derive(Clone, Copy, Debug, PartialEq, Eq)]
pub enum Comparison {
    Beq,
    Bne,
    Blt,
    Bge,
    Bltu,
    Bgeu,
}

/// How many bytes a load has, and whether their sign is extended (RISC-V Unprivileged ISA, RV32I, load and store
/// instructions).
#[derive(Clone, Copy, Debug, PartialEq, Eq)]
pub enum LoadKind {
    Lb,
    Lh,
    Lw,
    Lbu,
    Lhu,
}

/// An instruction (RISC-V Unprivileged ISA, RV32I base integer instruction set). Registers are 0 to 31. An immediate is a
/// number of 32 bits, its sign extended; that of a shift is 0 to 31, and an upper one is a multiple of 4,096.
#[derive(Clone, Copy, Debug, PartialEq, Eq)]
pub enum Instruction {
    Lui {
        rd: u8,
        immediate: u32,
    },
    Auipc {
        rd: u8,
        immediate: u32,
    },
    Jal {
        rd: u8,
        immediate: u32,
    },
    Jalr {
        rd: u8,
        rs1: u8,
        immediate: u32,
    },
    Branch {
        comparison: Comparison,
        rs1: u8,
        rs2: u8,
        immediate: u32,
    },
    Load {
        kind: LoadKind,
        rd: u8,
        rs1: u8,
        immediate: u32,
    },
    Store {
        width: Width,
        rs1: u8,
        rs2: u8,
        immediate: u32,
    },
    OperateImmediate {
        operation: Operation,
        rd: u8,
        rs1: u8,
        immediate: u32,
    },
    Operate {
        operation: Operation,
        rd: u8,
        rs1: u8,
        rs2: u8,
    },
    Fence,
    Ecall,
    Ebreak,
}
