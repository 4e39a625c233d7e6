//! The symbols of images: the labels of an assembler source, and the symbols of an executable file.
#![tactic(auto)]

mod entries;
mod fields;
mod files;
mod labels;
mod sections;

pub use entries::elf_symbols;
pub use files::file_symbols;
pub use labels::source_symbols;
