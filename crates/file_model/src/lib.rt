//! Definitions of replicated files, for contracts: `specs/` has them.
#![tactic(auto)]

/// Why a call on a file is refused. Contracts give each its number, 1 to 7 in this order.
#[derive(Clone, Copy, Debug, PartialEq, Eq)]
pub enum FileError {
    /// No file has the name, or it is deleted.
    NoFile,
    /// A file that is not deleted has the name.
    Exists,
    /// A new file meets slots that are all in use.
    NoSlot,
    /// The content would be longer than 61,440 bytes.
    TooLong,
    /// Parent and child both changed the file.
    Conflicted,
    /// The name has not 1 to 32 bytes, or it has a byte 0.
    BadName,
    /// The content of an append-only file is not replaced.
    NotAppend,
}
