//! The options of Put and Get, as bits of a0 (OSDI 2010, "Efficient System-Enforced Deterministic Parallelism", the section on
//! the kernel interface), and whether they are there.

ghost use Rattle.std.specs.Prelude.{◌≡◌};
ghost use Rattle.call_model.specs.Options as options_of;

pub use call_model::option_bits::{
    AGREE, COPY, KNOWN, LIMIT, MERGE, PERM, PERMISSION, REGS, SNAP, START, TREE, ZERO,
};

/// Whether one of these bits is among the options.
#[inline(always)]
pub fn has(options: u32, bits: u32) -> bool
    ensures { result ≡ options_of.has bits options }
{
    options & bits != 0
}
