//! Definitions of executable files in the format ELF32 for RISC-V, for contracts: their fields, the image that they state, and the first fault
//! of any other file; and the laws that join them. `specs/` has the definitions.
#![tactic(auto)]

mod error;
mod laws;

pub use error::{ElfError, ElfKind};
pub use laws::{
    boots_to_its_memory, few_segments, is_image, one_fault, one_image, reads_exactly_executables,
    refuses_exactly_the_rest,
};
