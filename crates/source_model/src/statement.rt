use image_model::Format;
use instruction_model::{Comparison, Instruction};

/// A class of bytes, at the first of which a text is cut.
#[derive(Clone, Copy, Debug, PartialEq, Eq)]
pub enum Class {
    /// A line feed.
    LineFeed,
    /// What begins a comment: `;` or `#`.
    Comment,
    /// A space or a tab.
    Blank,
    /// Any other byte than a space or a tab.
    Solid,
    /// Any other byte than a letter, a digit or `_`.
    Outside,
    /// What ends a word: a blank, a comma or a parenthesis.
    WordEnd,
    /// A byte that is not ASCII.
    Foreign,
}

/// A value of 32 bits that is written as a number or as a label.
#[derive(Clone, Copy, Debug, PartialEq, Eq)]
pub enum Value {
    /// The number, modulo 2^32.
    Number(u32),
    /// The value of the label that the statement's last word names.
    Label,
}

/// What a line asks for.
#[derive(Clone, Copy, Debug, PartialEq, Eq)]
pub enum Statement {
    /// Nothing stands in the line.
    Nothing,
    /// An instruction that needs no label.
    Plain(Instruction),
    /// A branch to this address.
    Branch {
        comparison: Comparison,
        rs1: u8,
        rs2: u8,
        target: Value,
    },
    /// A jump to this address.
    Jump {
        rd: u8,
        target: Value,
    },
    /// Two instructions that load this value.
    LoadImmediate {
        rd: u8,
        value: Value,
    },
    /// A segment begins at the address. A permission above `GREATEST_PERMISSION` stands as one more than it.
    Segment {
        address: u32,
        permission: u8,
    },
    /// Permissions are those of the format DTI2.
    Dti2,
    /// Where the root begins.
    Entry(Value),
    /// The root's stack pointer.
    Stack(Value),
    /// Four bytes, little endian.
    Word(Value),
    /// A byte.
    Byte(u8),
    /// So many zeros. More than 2^32 stand as 2^32 + 1.
    Zero(u64),
}

/// How far the lines of a source have come.
#[derive(Clone, Copy, Debug, PartialEq, Eq)]
pub struct Layout {
    /// The format whose permissions segments have.
    pub format: Format,
    /// The address of the next byte, 0 to 2^32. None where no segment has begun.
    pub reached: Option<u64>,
    /// The address after the last byte, 0 where there is none.
    pub used: u64,
    /// How many segments have begun.
    pub begun: u64,
}

/// Where a label is first defined.
#[derive(Clone, Copy, Debug, PartialEq, Eq)]
pub struct Definition {
    /// The line, counted from 1.
    pub line: u64,
    /// The label's value: the address reached before the line's statement.
    pub value: u32,
}
