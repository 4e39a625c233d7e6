//! Definitions of words and memories, for contracts: `specs/` has them.
#![tactic(auto)]

/// How many bytes a load or a store has (RISC-V Unprivileged ISA, RV32I, load and store instructions).
#[derive(Clone, Copy, Debug, PartialEq, Eq)]
pub enum Width {
    One,
    Two,
    Four,
}

/// How many bytes a page has.
pub const PAGE_SIZE: u32 = 4096;

/// How many pages a memory has: addresses have 32 bits.
pub const PAGES: u32 = 1_048_576;

/// The greatest permission of a page: 1 reads, 2 writes, 4 executes, and each sum of them allows what its parts allow (RISC-V
/// Privileged ISA, the R, W and X bits of a page table entry).
pub const GREATEST_PERMISSION: u8 = 7;
