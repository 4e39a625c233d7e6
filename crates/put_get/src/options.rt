ghost use Rattle.std.specs.Prelude.{◌≡◌, ◌≤◌};
ghost use Rattle.memory_model.specs.Sizes.{greatest_permission};
ghost use Rattle.call_model.specs.Options as options_of;

use trap_ret::Transfer;
use trap_ret::options::{AGREE, COPY, LIMIT, MERGE, PERM, REGS, SNAP, START, ZERO, has};

// The register block goes along: into the child with Put, out of it with Get.
pub fn has_regs(x: &Transfer) -> bool
    ensures { result ≡ options_of.has options_of.regs x.now.options }
{
    has(x.options, REGS)
}

// The destination's range becomes the source's.
pub fn has_copy(x: &Transfer) -> bool
    ensures { result ≡ options_of.has options_of.copy x.now.options }
{
    has(x.options, COPY)
}

// The bytes of the destination's range become 0.
pub fn has_zero(x: &Transfer) -> bool
    ensures { result ≡ options_of.has options_of.zeroing x.now.options }
{
    has(x.options, ZERO)
}

// What the child has changed in the destination's range since its snapshot goes into it.
pub fn has_merge(x: &Transfer) -> bool
    ensures { result ≡ options_of.has options_of.merging x.now.options }
{
    has(x.options, MERGE)
}

// Equal new values of a byte are in no conflict.
pub fn has_agree(x: &Transfer) -> bool
    ensures { result ≡ options_of.has options_of.agreeing x.now.options }
{
    has(x.options, AGREE)
}

// The destination's range gets the permission.
pub fn has_perm(x: &Transfer) -> bool
    ensures { result ≡ options_of.has options_of.perm x.now.options }
{
    has(x.options, PERM)
}

// The child's memory is kept as its snapshot.
pub fn has_snap(x: &Transfer) -> bool
    ensures { result ≡ options_of.has options_of.snap x.now.options }
{
    has(x.options, SNAP)
}

// The child runs.
pub fn has_start(x: &Transfer) -> bool
    ensures { result ≡ options_of.has options_of.start x.now.options }
{
    has(x.options, START)
}

// The child that is started has a limit.
pub fn has_limit(x: &Transfer) -> bool
    ensures { result ≡ options_of.has options_of.limit_option x.now.options }
{
    has(x.options, LIMIT)
}

// Bits 12 to 14, 0 to 7.
pub fn permission(x: &Transfer) -> u8
    ensures value { result ≡ options_of.permission x.now.options }
    ensures small { result ≤ greatest_permission }
{
    (x.options / 4096 % 8) as u8
}
