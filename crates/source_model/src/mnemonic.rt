use instruction_model::{Comparison, Instruction, LoadKind, Operation, Width};

/// What a statement's first word asks for.
#[derive(Clone, Copy, Debug, PartialEq, Eq)]
pub enum Mnemonic {
    /// A computation over two registers.
    Operate(Operation),
    /// A computation over a register and a number.
    OperateImmediate(Operation),
    /// A shift by a number.
    ShiftImmediate(Operation),
    Load(LoadKind),
    Store(Width),
    Branch(Comparison),
    Jalr,
    Jal,
    Lui,
    Auipc,
    /// An instruction without operands.
    Alone(Instruction),
    LoadImmediate,
    Segment,
    Dti2,
    Entry,
    Stack,
    Word,
    Byte,
    Zero,
}

/// The base of a number's digits.
#[derive(Clone, Copy, Debug, PartialEq, Eq)]
pub enum Base {
    Decimal,
    Hexadecimal,
}

/// A number as it is written: a magnitude, and whether a minus stands before it.
#[derive(Clone, Copy, Debug, PartialEq, Eq)]
pub enum Number {
    Plus(u64),
    Minus(u64),
}
