ghost use Rattle.std.specs.Prelude.{◌≡◌, ◌<◌, ◌≤◌, All};
ghost use Rattle.bench_model.specs.Generated as model;
ghost use Rattle.instruction_model.specs.Form.{HasFields};
ghost use Rattle.instruction_model.specs.declared.Instruction.TheVariants as instructions;
ghost use Rattle.instruction_model.specs.declared.LoadKind.TheVariants as loads;
ghost use Rattle.instruction_model.specs.declared.Operation.TheVariants as operations;

use instruction_model::{Comparison, Instruction, LoadKind, Operation};
use memory_model::Width;

// registers by their names (RISC-V Assembly Programmer's Manual, "General registers")
const ZERO: u8 = 0;

const T0: u8 = 5;

const T1: u8 = 6;

const T2: u8 = 7;

const S0: u8 = 8;

const S1: u8 = 9;

const A0: u8 = 10;

const A1: u8 = 11;

const A2: u8 = 12;

const A7: u8 = 17;

const S2: u8 = 18;

const T3: u8 = 28;

// the numbers of calls
const RET: u32 = 3;

const CONSOLE_OUT: u32 = 4;

const TFORK: u32 = 18;

const TJOIN: u32 = 19;

/// The most threads.
pub(crate) const MOST_THREADS: u32 = 16;

/// Where the data begin.
pub(crate) const DATA: u32 = 0x1_0000;

/// The bytes of a word for each thread.
const GROUP: u32 = 4 * MOST_THREADS;

/// Where the turns of the threads begin in the data, in bytes.
const TURNS: u32 = GROUP;

/// Where their starts begin, in bytes.
const STARTS: u32 = 2 * GROUP;

/// Where they store their last numbers, in bytes.
const RESULTS: u32 = 3 * GROUP;

const MINUS_ONE: u32 = u32::MAX;

fn addi(rd: u8, rs1: u8, immediate: u32) -> Instruction
    ensures { result ≡ model.addi rd rs1 immediate }
{
    Instruction::OperateImmediate {
        operation: Operation::Add,
        rd,
        rs1,
        immediate,
    }
}

fn slli(rd: u8, rs1: u8, by: u32) -> Instruction
    ensures { result ≡ instructions.OperateImmediate operations.Sll rd rs1 by }
{
    Instruction::OperateImmediate {
        operation: Operation::Sll,
        rd,
        rs1,
        immediate: by,
    }
}

fn srli(rd: u8, rs1: u8, by: u32) -> Instruction
    ensures { result ≡ instructions.OperateImmediate operations.Srl rd rs1 by }
{
    Instruction::OperateImmediate {
        operation: Operation::Srl,
        rd,
        rs1,
        immediate: by,
    }
}

fn xor(rd: u8, rs1: u8, rs2: u8) -> Instruction
    ensures { result ≡ instructions.Operate operations.Xor rd rs1 rs2 }
{
    Instruction::Operate {
        operation: Operation::Xor,
        rd,
        rs1,
        rs2,
    }
}

fn lw(rd: u8, offset: u32, rs1: u8) -> Instruction
    ensures { result ≡ instructions.Load loads.Lw rd rs1 offset }
{
    Instruction::Load {
        kind: LoadKind::Lw,
        rd,
        rs1,
        immediate: offset,
    }
}

fn branch(comparison: Comparison, rs1: u8, rs2: u8, distance: u32) -> Instruction
    ensures { result ≡ instructions.Branch comparison rs1 rs2 distance }
{
    Instruction::Branch {
        comparison,
        rs1,
        rs2,
        immediate: distance,
    }
}

// The distance to so many instructions further on, in bytes.
fn ahead(count: u32) -> u32
    requires { count ≤ 1023 }
    ensures { result ≡ model.ahead count }
{
    4 * count
}

// The distance to so many instructions back, in bytes.
fn back(count: u32) -> u32
    requires some { 0 < count }
    requires near { count ≤ 1024 }
    ensures { result ≡ model.back count }
{
    (4 * count).wrapping_neg()
}

/// The root reads how many threads there are.
pub(crate) fn begins() -> [Instruction; 3]
    ensures value { result ≡ model.begins }
    ensures fields { All HasFields result }
{
    [
        Instruction::Lui {
            rd: S0,
            immediate: DATA,
        },
        lw(S1, 0, S0),
        addi(S2, ZERO, 0),
    ]
}

/// The root forks each thread, which goes on with `reads`.
pub(crate) fn forks() -> [Instruction; 7]
    ensures value { result ≡ model.forks }
    ensures fields { All HasFields result }
{
    [
        addi(A1, S2, 0),
        addi(A7, ZERO, TFORK),
        Instruction::Ecall,
        branch(Comparison::Bne, A0, ZERO, ahead(16)),
        addi(S2, S2, 1),
        branch(Comparison::Blt, S2, S1, back(5)),
        addi(S2, ZERO, 0),
    ]
}

/// The root joins each thread.
pub(crate) fn joins() -> [Instruction; 5]
    ensures value { result ≡ model.joins }
    ensures fields { All HasFields result }
{
    [
        addi(A1, S2, 0),
        addi(A7, ZERO, TJOIN),
        Instruction::Ecall,
        addi(S2, S2, 1),
        branch(Comparison::Blt, S2, S1, back(4)),
    ]
}

/// The root writes what the threads have stored to the console, and returns how many there are.
pub(crate) fn ends() -> [Instruction; 7]
    ensures value { result ≡ model.ends }
    ensures fields { All HasFields result }
{
    [
        addi(A1, S0, RESULTS),
        addi(A2, ZERO, GROUP),
        addi(A7, ZERO, CONSOLE_OUT),
        Instruction::Ecall,
        addi(A0, S1, 0),
        addi(A7, ZERO, RET),
        Instruction::Ecall,
    ]
}

/// A thread reads its turns and its start.
pub(crate) fn reads() -> [Instruction; 4]
    ensures value { result ≡ model.reads }
    ensures fields { All HasFields result }
{
    [
        slli(T0, S2, 2),
        Instruction::Operate {
            operation: Operation::Add,
            rd: T0,
            rs1: T0,
            rs2: S0,
        },
        lw(T1, TURNS, T0),
        lw(T2, STARTS, T0),
    ]
}

/// A thread takes its turns: a step of a generator (G. Marsaglia, "Xorshift RNGs", 2003) for each.
pub(crate) fn turns_of_a_thread() -> [Instruction; 8]
    ensures value { result ≡ model.turns_of_a_thread }
    ensures fields { All HasFields result }
{
    [
        slli(T3, T2, 13),
        xor(T2, T2, T3),
        srli(T3, T2, 17),
        xor(T2, T2, T3),
        slli(T3, T2, 5),
        xor(T2, T2, T3),
        addi(T1, T1, MINUS_ONE),
        branch(Comparison::Bne, T1, ZERO, back(7)),
    ]
}

/// A thread stores its last number, and returns it.
pub(crate) fn stores() -> [Instruction; 4]
    ensures value { result ≡ model.stores }
    ensures fields { All HasFields result }
{
    [
        Instruction::Store {
            width: Width::Four,
            rs1: T0,
            rs2: T2,
            immediate: RESULTS,
        },
        addi(A0, T2, 0),
        addi(A7, ZERO, RET),
        Instruction::Ecall,
    ]
}
