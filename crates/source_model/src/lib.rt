//! Definitions of the grammar of assembler sources, for contracts: `specs/` has them.
#![tactic(auto)]

mod error;
mod laws;
mod mnemonic;
mod sources;
mod statement;

pub use error::{AsmError, AsmErrorKind};
pub use image_model::Format;
pub use instruction_model::{Comparison, Instruction, LoadKind, Operation, Width};
pub use laws::labels_are_addresses;
pub use mnemonic::{Base, Mnemonic, Number};
pub use sources::{
    answers_every_text, one_fault, one_image, reads_exactly_sources, refuses_exactly_the_rest,
};
pub use statement::{Class, Definition, Layout, Statement, Value};
