//! The assembler, which makes the images of sources, and the image that is made from a number.
#![tactic(auto)]

mod assembling;
mod draft;
mod fault;
mod generating;
mod labels;
mod layout;
mod line;
mod mnemonic;
mod number;
mod program;
mod register;
mod statement;
mod text;

pub use assembling::assemble;
pub use fault::AsmFault;
pub use generating::generated;
pub use labels::{Labels, labels_of};
pub use source_model::{AsmError, AsmErrorKind};
