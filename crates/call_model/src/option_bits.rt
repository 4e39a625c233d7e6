//! The options of Put and Get, as bits of a0 (OSDI 2010, "Efficient System-Enforced Deterministic Parallelism", the section on
//! the kernel interface; Agree is this project's own).

/// The register block goes along.
pub const REGS: u32 = 1;

/// The destination's range becomes the source's.
pub const COPY: u32 = 2;

/// The bytes of the destination's range become 0.
pub const ZERO: u32 = 4;

/// What the child has changed in the destination's range since its snapshot goes into it.
pub const MERGE: u32 = 8;

/// The destination's range gets the permission.
pub const PERM: u32 = 16;

/// The child's memory is kept as its snapshot.
pub const SNAP: u32 = 32;

/// The child runs.
pub const START: u32 = 64;

/// The child that is started has a limit.
pub const LIMIT: u32 = 128;

/// A child with all below it is copied. It stands alone.
pub const TREE: u32 = 256;

/// Equal new values of a byte are in no conflict. It stands with Merge, and not without.
pub const AGREE: u32 = 512;

/// The permission, in bits 12 to 14.
pub const PERMISSION: u32 = 0x7000;

/// All bits that may be set.
pub const KNOWN: u32 = 0x73FF;
