//! The numbers that bound what a call may name.

/// The greatest number of a child.
pub const GREATEST_CHILD: u32 = 65_535;

/// The most children that a call names in a row.
pub const LONGEST_ROW: u32 = 64;

/// The depth of the deepest spaces; the root is at depth 0.
pub const GREATEST_DEPTH: u8 = 8;

/// The greatest length, in bytes, that a call of a device or on a file names.
pub const GREATEST_LENGTH: u32 = 65_536;

/// The bytes of a register block.
pub const BLOCK_SIZE: u32 = 136;

/// The highest address at which a register block fits.
pub const LAST_BLOCK: u32 = 0xFFFF_FF78;
