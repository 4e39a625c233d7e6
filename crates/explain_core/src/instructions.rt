ghost use Rattle.std.specs.Prelude.{◌≡◌, ◌<◌, IfOk, string_bytes};
ghost use Rattle.explain_core.specs.Instructions.{address_text, branch_name, hex_text, immediate_name, instruction_at_pc, instruction_in, instruction_part, instruction_text, is_call, load_name, operation_name, register_name, signed_text, spelled, store_name, target_text, three_operands, two_operands, word_in};

use rv_decode::{Comparison, Instr, Instruction, LoadKind, Operation, Width, decode};
use space_tree::{Mem, Top};
use std::alloc::{AllocError, Global};

/// The name of a register, 0 to 31 (RISC-V Assembly Programmer's Manual, "General registers").
pub fn register_name(register: u8) -> &'static str
    requires { register < 32 }
    ensures { result.now ≡ register_name register }
{
    match register {
        0 => "zero",
        1 => "ra",
        2 => "sp",
        3 => "gp",
        4 => "tp",
        5 => "t0",
        6 => "t1",
        7 => "t2",
        8 => "s0",
        9 => "s1",
        10 => "a0",
        11 => "a1",
        12 => "a2",
        13 => "a3",
        14 => "a4",
        15 => "a5",
        16 => "a6",
        17 => "a7",
        18 => "s2",
        19 => "s3",
        20 => "s4",
        21 => "s5",
        22 => "s6",
        23 => "s7",
        24 => "s8",
        25 => "s9",
        26 => "s10",
        27 => "s11",
        28 => "t3",
        29 => "t4",
        30 => "t5",
        31 => "t6",
        _ => unreachable!(),
    }
}

fn operation_name(operation: Operation) -> &'static str
    ensures { result.now ≡ operation_name operation }
{
    match operation {
        Operation::Add => "add",
        Operation::Sub => "sub",
        Operation::Sll => "sll",
        Operation::Slt => "slt",
        Operation::Sltu => "sltu",
        Operation::Xor => "xor",
        Operation::Srl => "srl",
        Operation::Sra => "sra",
        Operation::Or => "or",
        Operation::And => "and",
    }
}

fn immediate_name(operation: Operation) -> &'static str
    ensures { result.now ≡ immediate_name operation }
{
    match operation {
        Operation::Add => "addi",
        Operation::Sub => "subi",
        Operation::Sll => "slli",
        Operation::Slt => "slti",
        Operation::Sltu => "sltiu",
        Operation::Xor => "xori",
        Operation::Srl => "srli",
        Operation::Sra => "srai",
        Operation::Or => "ori",
        Operation::And => "andi",
    }
}

fn load_name(kind: LoadKind) -> &'static str
    ensures { result.now ≡ load_name kind }
{
    match kind {
        LoadKind::Lb => "lb",
        LoadKind::Lh => "lh",
        LoadKind::Lw => "lw",
        LoadKind::Lbu => "lbu",
        LoadKind::Lhu => "lhu",
    }
}

fn store_name(width: Width) -> &'static str
    ensures { result.now ≡ store_name width }
{
    match width {
        Width::One => "sb",
        Width::Two => "sh",
        Width::Four => "sw",
    }
}

fn branch_name(comparison: Comparison) -> &'static str
    ensures { result.now ≡ branch_name comparison }
{
    match comparison {
        Comparison::Beq => "beq",
        Comparison::Bne => "bne",
        Comparison::Blt => "blt",
        Comparison::Bge => "bge",
        Comparison::Bltu => "bltu",
        Comparison::Bgeu => "bgeu",
    }
}

// A number of 32 bits with its sign.
fn signed_text(alloc: Global, number: u32) -> Result<String, AllocError>
    ensures { IfOk result (λ s. string_bytes s ≡ signed_text number) }
{
    if number < 1 << 31 {
        format!(in alloc; "{number}")
    } else {
        let distance = 0 - number.cast_signed() as i64;
        format!(in alloc; "-{distance}")
    }
}

fn hex_text(alloc: Global, number: u32) -> Result<String, AllocError>
    ensures { IfOk result (λ s. string_bytes s ≡ hex_text number) }
{
    format!(in alloc; "0x{number:08x}")
}

fn two_operands(alloc: Global, name: &str, a: &str, b: &str) -> Result<String, AllocError>
    ensures { IfOk result (λ s. string_bytes s ≡ two_operands name.now a.now b.now) }
{
    format!(in alloc; "{name} {a}, {b}")
}

fn three_operands(
    alloc: Global,
    name: &str,
    a: &str,
    b: &str,
    c: &str,
) -> Result<String, AllocError>
    ensures { IfOk result (λ s. string_bytes s ≡ three_operands name.now a.now b.now c.now) }
{
    format!(in alloc; "{name} {a}, {b}, {c}")
}

// A number, and a register in parentheses.
fn address_text(alloc: Global, number: u32, register: u8) -> Result<String, AllocError>
    requires { register < 32 }
    ensures { IfOk result (λ s. string_bytes s ≡ address_text number register) }
{
    let number = signed_text(alloc, number)?;
    let register = register_name(register);
    format!(in alloc; "{number}({register})")
}

// The address that is so far from pc.
fn target_text(alloc: Global, pc: u32, distance: u32) -> Result<String, AllocError>
    ensures { IfOk result (λ s. string_bytes s ≡ target_text pc distance) }
{
    hex_text(alloc, pc.wrapping_add(distance))
}

/// The instruction at an address, as the assembler takes it.
pub(crate) fn instruction_text(
    alloc: Global,
    pc: u32,
    instruction: Instr,
) -> Result<String, AllocError>
    ensures { IfOk result (λ s. string_bytes s ≡ instruction_text pc instruction) }
{
    match instruction.instruction() {
        Instruction::Lui { rd, immediate } => {
            let upper = hex_text(alloc, immediate >> 12)?;
            two_operands(alloc, "lui", register_name(rd), &upper)
        }
        Instruction::Auipc { rd, immediate } => {
            let upper = hex_text(alloc, immediate >> 12)?;
            two_operands(alloc, "auipc", register_name(rd), &upper)
        }
        Instruction::Jal { rd, immediate } => {
            let target = target_text(alloc, pc, immediate)?;
            two_operands(alloc, "jal", register_name(rd), &target)
        }
        Instruction::Jalr { rd, rs1, immediate } => {
            let address = address_text(alloc, immediate, rs1)?;
            two_operands(alloc, "jalr", register_name(rd), &address)
        }
        Instruction::Branch {
            comparison,
            rs1,
            rs2,
            immediate,
        } => {
            let target = target_text(alloc, pc, immediate)?;
            let name = branch_name(comparison);
            three_operands(alloc, name, register_name(rs1), register_name(rs2), &target)
        }
        Instruction::Load {
            kind,
            rd,
            rs1,
            immediate,
        } => {
            let address = address_text(alloc, immediate, rs1)?;
            two_operands(alloc, load_name(kind), register_name(rd), &address)
        }
        Instruction::Store {
            width,
            rs1,
            rs2,
            immediate,
        } => {
            let address = address_text(alloc, immediate, rs1)?;
            two_operands(alloc, store_name(width), register_name(rs2), &address)
        }
        Instruction::OperateImmediate {
            operation,
            rd,
            rs1,
            immediate,
        } => {
            let number = signed_text(alloc, immediate)?;
            let name = immediate_name(operation);
            three_operands(alloc, name, register_name(rd), register_name(rs1), &number)
        }
        Instruction::Operate {
            operation,
            rd,
            rs1,
            rs2,
        } => {
            let name = operation_name(operation);
            three_operands(
                alloc,
                name,
                register_name(rd),
                register_name(rs1),
                register_name(rs2),
            )
        }
        Instruction::Fence => String::from_str(alloc, "fence"),
        Instruction::Ecall => String::from_str(alloc, "ecall"),
        Instruction::Ebreak => String::from_str(alloc, "ebreak"),
    }
}

/// The word at an address of a memory, where it can be fetched.
#[inline(always)]
pub(crate) fn word_in(memory: &Mem, pc: u32) -> Option<u32>
    ensures { result ≡ word_in memory.now.memory pc }
{
    if pc % 4 != 0 {
        return None;
    }
    memory.fetch(pc)
}

/// The instruction that a word spells, where there is a word and it spells one.
pub(crate) fn spelled(word: Option<u32>) -> Option<Instr>
    ensures { result ≡ spelled word }
{
    match word {
        Some(word) => decode(word),
        None => None,
    }
}

/// The instruction at an address of a memory, where it can be fetched.
fn instruction_in(memory: &Mem, pc: u32) -> Option<Instr>
    ensures { result ≡ instruction_in memory.now.memory pc }
{
    spelled(word_in(memory, pc))
}

/// The instruction at pc, where it can be fetched.
pub fn instruction_at_pc(top: &Top) -> Option<Instr>
    ensures { result ≡ instruction_at_pc top.now }
{
    instruction_in(&top.memory, top.registers.pc)
}

/// Whether an instruction is a call.
pub fn is_call(instruction: Option<Instr>) -> bool
    ensures { result ≡ is_call instruction }
{
    match instruction {
        Some(instr) => matches!(instr.instruction(), Instruction::Ecall),
        None => false,
    }
}

/// A space and an instruction at pc, where there is one; else nothing.
pub(crate) fn instruction_part(
    alloc: Global,
    pc: u32,
    instruction: Option<Instr>,
) -> Result<String, AllocError>
    ensures { IfOk result (λ s. string_bytes s ≡ instruction_part pc instruction) }
{
    match instruction {
        Some(instruction) => {
            let text = instruction_text(alloc, pc, instruction)?;
            format!(in alloc; " {text}")
        }
        None => String::from_str(alloc, ""),
    }
}
