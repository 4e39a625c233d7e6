ghost use Rattle.std.specs.Prelude.{◌≡◌, ℕ, ◌+◌, ◌<◌, ◌%◌, ◌^◌, slice_index};
ghost use Rattle.instruction_model.specs.Form.{HasFields, IsRegister};
ghost use Rattle.instruction_model.specs.Arithmetic as arithmetic;
ghost use Rattle.instruction_model.specs.Outcome as outcome;
ghost use Rattle.instruction_model.specs.Outcome.{Outcome, goes};
ghost use Rattle.rv_exec.specs.Flat.{meaning};
ghost use Rattle.rv_exec.specs.Steps.{Moves, Steps, registers_at};

use crate::arithmetic::{compares, extension_of, loaded_width, operation_result, width_bytes};
use crate::bus::{Bus, StoreFault};
use crate::flat::{FlatInstruction, flat_of};
use crate::regs::{Destination, RegisterFile, Regs};
use rv_decode::{Comparison, LoadKind, Operation, Width, decode};
use std::alloc::AllocError;

/// What a step did.
#[derive(Clone, Copy, Debug, PartialEq, Eq)]
pub enum Stepped {
    /// An instruction, all of it.
    Next,
    /// Nothing yet: an ECALL stands at pc.
    Call,
    /// Nothing: a trap (RISC-V Privileged ISA, "Machine Cause"), and its value.
    Trap { cause: u8, value: u32 },
}

#[inline(always)]
fn trap(cause: u8, value: u32) -> Result<Stepped, AllocError>
    ensures { result ≡ Ok (Stepped.Trap cause value) }
{
    Ok(Stepped::Trap { cause, value })
}

// Has pc stand at the next instruction.
#[inline(always)]
fn advance(pc: &mut u32)
    ensures { pc.new ≡ (pc.old + 4) % 2 ^ 32 }
{
    *pc = pc.wrapping_add(4);
}

#[inline(always)]
fn load<B: Bus>(
    pc: &mut u32,
    x: &mut RegisterFile,
    bus: &mut B,
    kind: LoadKind,
    rd: Destination,
    at: u32,
) -> Result<Stepped, AllocError>
    ensures { Steps B.stored (B.takes_memory bus.old) (outcome.loads kind (B.view bus.old) (registers_at pc.old x.old) rd at) result (registers_at pc.old x.old) bus.old (registers_at pc.new x.new) bus.new }
{
    let width = loaded_width(kind);
    if at % width_bytes(width) != 0 {
        return trap(4, at);
    }
    match bus.load(at, width) {
        Ok(value) => finish(pc, x, rd, extension_of(kind, value)),
        Err(fault) => trap(fault.cause, fault.addr),
    }
}

// A load whose value goes nowhere: its fault alone is left.
#[inline(always)]
fn probe<B: Bus>(
    pc: &mut u32,
    x: &RegisterFile,
    bus: &mut B,
    kind: LoadKind,
    at: u32,
) -> Result<Stepped, AllocError>
    ensures { Steps B.stored (B.takes_memory bus.old) (outcome.loads kind (B.view bus.old) (registers_at pc.old x.now) 0 at) result (registers_at pc.old x.now) bus.old (registers_at pc.new x.now) bus.new }
{
    let width = loaded_width(kind);
    if at % width_bytes(width) != 0 {
        return trap(4, at);
    }
    match bus.load(at, width) {
        Ok(_) => {
            advance(pc);
            Ok(Stepped::Next)
        }
        Err(fault) => trap(fault.cause, fault.addr),
    }
}

#[inline(always)]
fn store<B: Bus>(
    pc: &mut u32,
    x: &RegisterFile,
    bus: &mut B,
    width: Width,
    at: u32,
    value: u32,
) -> Result<Stepped, AllocError>
    ensures { Steps B.stored (B.takes_memory bus.old) (outcome.writes width (B.view bus.old) (registers_at pc.old x.now) at value) result (registers_at pc.old x.now) bus.old (registers_at pc.new x.now) bus.new }
{
    if at % width_bytes(width) != 0 {
        return trap(6, at);
    }
    match bus.store(at, width, value) {
        Ok(()) => {
            advance(pc);
            Ok(Stepped::Next)
        }
        Err(StoreFault::Fault(fault)) => trap(fault.cause, fault.addr),
        Err(StoreFault::Memory) => Err(AllocError),
    }
}

// A jump, which writes its link only where it is made.
#[inline(always)]
fn jump(
    pc: &mut u32,
    x: &mut RegisterFile,
    rd: Destination,
    target: u32,
) -> Result<Stepped, AllocError>
    ensures { Moves (outcome.jumps (outcome.with_link (registers_at pc.old x.old) rd) target) result (registers_at pc.old x.old) (registers_at pc.new x.new) }
{
    if target % 4 != 0 {
        return trap(0, target);
    }
    x.write(rd, pc.wrapping_add(4));
    *pc = target;
    Ok(Stepped::Next)
}

// A jump that keeps no link.
#[inline(always)]
fn go(pc: &mut u32, x: &RegisterFile, target: u32) -> Result<Stepped, AllocError>
    ensures { Moves (outcome.jumps (outcome.with_link (registers_at pc.old x.now) 0) target) result (registers_at pc.old x.now) (registers_at pc.new x.now) }
{
    if target % 4 != 0 {
        return trap(0, target);
    }
    *pc = target;
    Ok(Stepped::Next)
}

// A result, and the next instruction.
#[inline(always)]
fn finish(
    pc: &mut u32,
    x: &mut RegisterFile,
    rd: Destination,
    value: u32,
) -> Result<Stepped, AllocError>
    ensures { Moves (goes (outcome.results (registers_at pc.old x.old) rd value)) result (registers_at pc.old x.old) (registers_at pc.new x.new) }
{
    advance(pc);
    x.write(rd, value);
    Ok(Stepped::Next)
}

// A branch by a comparison of two registers.
#[inline(always)]
fn branch_by(
    pc: &mut u32,
    x: &RegisterFile,
    comparison: Comparison,
    rs1: u8,
    rs2: u8,
    immediate: u32,
) -> Result<Stepped, AllocError>
    requires first { rs1 < 32 }
    requires second { rs2 < 32 }
    ensures { Moves (outcome.branches (arithmetic.compares comparison (slice_index x.now rs1) (slice_index x.now rs2)) (registers_at pc.old x.now) (outcome.offset pc.old immediate)) result (registers_at pc.old x.now) (registers_at pc.new x.now) }
{
    if compares(comparison, x.register(rs1), x.register(rs2)) {
        let to = pc.wrapping_add(immediate);
        if to % 4 != 0 {
            return trap(0, to);
        }
        *pc = to;
    } else {
        advance(pc);
    }
    Ok(Stepped::Next)
}

// A load from an address that a register and an immediate make.
#[inline(always)]
fn load_by<B: Bus>(
    pc: &mut u32,
    x: &mut RegisterFile,
    bus: &mut B,
    kind: LoadKind,
    rd: Destination,
    rs1: u8,
    immediate: u32,
) -> Result<Stepped, AllocError>
    requires { rs1 < 32 }
    ensures { Steps B.stored (B.takes_memory bus.old) (outcome.loads kind (B.view bus.old) (registers_at pc.old x.old) rd (outcome.offset (slice_index x.old rs1) immediate)) result (registers_at pc.old x.old) bus.old (registers_at pc.new x.new) bus.new }
{
    let at = x.register(rs1).wrapping_add(immediate);
    load(pc, x, bus, kind, rd, at)
}

// An operation on a register and an immediate.
#[inline(always)]
fn operate_immediate(
    pc: &mut u32,
    x: &mut RegisterFile,
    operation: Operation,
    rd: Destination,
    rs1: u8,
    immediate: u32,
) -> Result<Stepped, AllocError>
    requires { rs1 < 32 }
    ensures { Moves (goes (outcome.results (registers_at pc.old x.old) rd (arithmetic.operation_result operation (slice_index x.old rs1) immediate))) result (registers_at pc.old x.old) (registers_at pc.new x.new) }
{
    let value = operation_result(operation, x.register(rs1), immediate);
    finish(pc, x, rd, value)
}

// An operation on two registers.
#[inline(always)]
fn operate(
    pc: &mut u32,
    x: &mut RegisterFile,
    operation: Operation,
    rd: Destination,
    rs1: u8,
    rs2: u8,
) -> Result<Stepped, AllocError>
    requires first { rs1 < 32 }
    requires second { rs2 < 32 }
    ensures { Moves (goes (outcome.results (registers_at pc.old x.old) rd (arithmetic.operation_result operation (slice_index x.old rs1) (slice_index x.old rs2)))) result (registers_at pc.old x.old) (registers_at pc.new x.new) }
{
    let value = operation_result(operation, x.register(rs1), x.register(rs2));
    finish(pc, x, rd, value)
}

/// What an instruction does where pc stands, as `step` does it that has fetched and decoded it. pc stands apart from the other registers, so that
/// it can be held in a register of the machine while those are found by their numbers.
#[inline(always)]
pub fn perform<B: Bus>(
    pc: &mut u32,
    x: &mut RegisterFile,
    bus: &mut B,
    instruction: FlatInstruction,
) -> Result<Stepped, AllocError>
    requires { HasFields (meaning instruction) }
    ensures { Steps B.stored (B.takes_memory bus.old) (outcome.perform (meaning instruction) (B.view bus.old) (registers_at pc.old x.old)) result (registers_at pc.old x.old) bus.old (registers_at pc.new x.new) bus.new }
{
    match instruction {
        FlatInstruction::Lui { rd, immediate } => finish(pc, x, rd, immediate),
        FlatInstruction::Auipc { rd, immediate } => {
            let value = pc.wrapping_add(immediate);
            finish(pc, x, rd, value)
        }
        FlatInstruction::Jal { rd, immediate } => {
            let target = pc.wrapping_add(immediate);
            jump(pc, x, rd, target)
        }
        FlatInstruction::J { immediate } => {
            let target = pc.wrapping_add(immediate);
            go(pc, x, target)
        }
        FlatInstruction::Jalr { rd, rs1, immediate } => {
            let target = x.register(rs1).wrapping_add(immediate);
            jump(pc, x, rd, target - target % 2)
        }
        FlatInstruction::Jr { rs1, immediate } => {
            let target = x.register(rs1).wrapping_add(immediate);
            go(pc, x, target - target % 2)
        }
        FlatInstruction::Beq {
            rs1,
            rs2,
            immediate,
        } => branch_by(pc, x, Comparison::Beq, rs1, rs2, immediate),
        FlatInstruction::Bne {
            rs1,
            rs2,
            immediate,
        } => branch_by(pc, x, Comparison::Bne, rs1, rs2, immediate),
        FlatInstruction::Blt {
            rs1,
            rs2,
            immediate,
        } => branch_by(pc, x, Comparison::Blt, rs1, rs2, immediate),
        FlatInstruction::Bge {
            rs1,
            rs2,
            immediate,
        } => branch_by(pc, x, Comparison::Bge, rs1, rs2, immediate),
        FlatInstruction::Bltu {
            rs1,
            rs2,
            immediate,
        } => branch_by(pc, x, Comparison::Bltu, rs1, rs2, immediate),
        FlatInstruction::Bgeu {
            rs1,
            rs2,
            immediate,
        } => branch_by(pc, x, Comparison::Bgeu, rs1, rs2, immediate),
        FlatInstruction::Lb { rd, rs1, immediate } => load_by(
            pc,
            x,
            bus,
            LoadKind::Lb,
            rd,
            rs1,
            immediate,
        ),
        FlatInstruction::Lh { rd, rs1, immediate } => load_by(
            pc,
            x,
            bus,
            LoadKind::Lh,
            rd,
            rs1,
            immediate,
        ),
        FlatInstruction::Lw { rd, rs1, immediate } => load_by(
            pc,
            x,
            bus,
            LoadKind::Lw,
            rd,
            rs1,
            immediate,
        ),
        FlatInstruction::Lbu { rd, rs1, immediate } => load_by(
            pc,
            x,
            bus,
            LoadKind::Lbu,
            rd,
            rs1,
            immediate,
        ),
        FlatInstruction::Lhu { rd, rs1, immediate } => load_by(
            pc,
            x,
            bus,
            LoadKind::Lhu,
            rd,
            rs1,
            immediate,
        ),
        FlatInstruction::Store {
            width,
            rs1,
            rs2,
            immediate,
        } => {
            let at = x.register(rs1).wrapping_add(immediate);
            let value = x.register(rs2);
            store(pc, x, bus, width, at, value)
        }
        FlatInstruction::Addi { rd, rs1, immediate } => operate_immediate(
            pc,
            x,
            Operation::Add,
            rd,
            rs1,
            immediate,
        ),
        FlatInstruction::Slli { rd, rs1, immediate } => operate_immediate(
            pc,
            x,
            Operation::Sll,
            rd,
            rs1,
            immediate,
        ),
        FlatInstruction::Slti { rd, rs1, immediate } => operate_immediate(
            pc,
            x,
            Operation::Slt,
            rd,
            rs1,
            immediate,
        ),
        FlatInstruction::Sltiu { rd, rs1, immediate } => operate_immediate(
            pc,
            x,
            Operation::Sltu,
            rd,
            rs1,
            immediate,
        ),
        FlatInstruction::Xori { rd, rs1, immediate } => operate_immediate(
            pc,
            x,
            Operation::Xor,
            rd,
            rs1,
            immediate,
        ),
        FlatInstruction::Srli { rd, rs1, immediate } => operate_immediate(
            pc,
            x,
            Operation::Srl,
            rd,
            rs1,
            immediate,
        ),
        FlatInstruction::Srai { rd, rs1, immediate } => operate_immediate(
            pc,
            x,
            Operation::Sra,
            rd,
            rs1,
            immediate,
        ),
        FlatInstruction::Ori { rd, rs1, immediate } => operate_immediate(
            pc,
            x,
            Operation::Or,
            rd,
            rs1,
            immediate,
        ),
        FlatInstruction::Andi { rd, rs1, immediate } => operate_immediate(
            pc,
            x,
            Operation::And,
            rd,
            rs1,
            immediate,
        ),
        FlatInstruction::Add { rd, rs1, rs2 } => operate(pc, x, Operation::Add, rd, rs1, rs2),
        FlatInstruction::Sub { rd, rs1, rs2 } => operate(pc, x, Operation::Sub, rd, rs1, rs2),
        FlatInstruction::Sll { rd, rs1, rs2 } => operate(pc, x, Operation::Sll, rd, rs1, rs2),
        FlatInstruction::Slt { rd, rs1, rs2 } => operate(pc, x, Operation::Slt, rd, rs1, rs2),
        FlatInstruction::Sltu { rd, rs1, rs2 } => operate(pc, x, Operation::Sltu, rd, rs1, rs2),
        FlatInstruction::Xor { rd, rs1, rs2 } => operate(pc, x, Operation::Xor, rd, rs1, rs2),
        FlatInstruction::Srl { rd, rs1, rs2 } => operate(pc, x, Operation::Srl, rd, rs1, rs2),
        FlatInstruction::Sra { rd, rs1, rs2 } => operate(pc, x, Operation::Sra, rd, rs1, rs2),
        FlatInstruction::Or { rd, rs1, rs2 } => operate(pc, x, Operation::Or, rd, rs1, rs2),
        FlatInstruction::And { rd, rs1, rs2 } => operate(pc, x, Operation::And, rd, rs1, rs2),
        FlatInstruction::DiscardLoad {
            kind,
            rs1,
            immediate,
        } => {
            let at = x.register(rs1).wrapping_add(immediate);
            probe(pc, x, bus, kind, at)
        }
        FlatInstruction::DiscardLui { .. }
        | FlatInstruction::DiscardAuipc { .. }
        | FlatInstruction::DiscardImmediate { .. }
        | FlatInstruction::DiscardOperation { .. }
        | FlatInstruction::Fence => {
            advance(pc);
            Ok(Stepped::Next)
        }
        FlatInstruction::Ecall => Ok(Stepped::Call),
        FlatInstruction::Ebreak => trap(3, *pc),
    }
}

/// The instruction at pc (RISC-V Unprivileged ISA, RV32I base integer instruction set). A call and a trap change nothing. Only
/// a store may fail for want of memory, and only where the bus takes any; then nothing changes.
#[inline(always)]
#[tactic(auto, unfolding(instruction_model::specs::Outcome::outcome))]
pub fn step<B: Bus>(regs: &mut Regs, bus: &mut B) -> Result<Stepped, AllocError>
    ensures { Steps B.stored (B.takes_memory bus.old) (outcome.outcome (B.view bus.old) regs.old) result regs.old bus.old regs.new bus.new }
{
    let pc = regs.pc;
    if pc % 4 != 0 {
        return trap(0, pc);
    }
    match bus.fetch(pc) {
        Ok(word) => match decode(word) {
            Some(instr) => {
                let mut next = pc;
                let mut x = regs.file();
                let stepped = perform(&mut next, &mut x, bus, flat_of(instr));
                *regs = Regs::from_parts(next, x);
                stepped
            }
            None => trap(2, word),
        },
        Err(fault) => trap(fault.cause, fault.addr),
    }
}
