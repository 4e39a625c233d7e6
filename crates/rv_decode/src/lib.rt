//! Instruction words: their fields, their decoding and their encoding (RISC-V Unprivileged ISA, RV32I base integer
//! instruction set).
#![tactic(auto)]

mod decoding;
mod encoding;
mod fields;
mod instr;

pub use fields::arithmetic_shift;
pub use instr::{Instr, decode, decode_encoded, encode};
pub use instruction_model::{Comparison, Instruction, LoadKind, Operation};
pub use memory_model::Width;
