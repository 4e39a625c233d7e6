//! Images of executable files in the format ELF32 for RISC-V.
#![tactic(auto)]

mod fault;
mod fields;
mod file_header;
mod load;
mod loads;
mod reading;
mod runs;
mod segments;

pub use elf_model::{ElfError, ElfKind};
pub use fault::ElfFault;
pub use reading::{begins_as_elf, read_elf};
