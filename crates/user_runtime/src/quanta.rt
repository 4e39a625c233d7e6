ghost use Rattle.std.specs.Prelude.{◌≡◌, ◌+◌, ◌≤◌, ◌^◌, OnOk, OnErr};
ghost use Rattle.call_model.specs.declared.Call.TheVariants.{Qstart, Qcommit};
ghost use Rattle.space_model.specs.Caller.{MayCall, met_by, StaysSound};

use quantum_sched::{qcommit, qstart};
use space_tree::Space;
use std::alloc::AllocError;

/// A start of quanta as the call of a caller at this depth, at most 8, that has not paid yet, once the children in the row are ready.
///
/// The one error is want of memory: nothing is changed then.
pub(crate) fn start(
    first: u16,
    count: u8,
    quantum: u32,
    depth: u8,
    space: &mut Space,
) -> Result<(), AllocError>
    requires row { first + count ≤ 2 ^ 16 }
    requires may { MayCall depth (Qstart first count quantum) space.old }
    ensures ok { OnOk result (space.new ≡ met_by depth (Qstart first count quantum) space.old) }
    ensures err { OnErr result (space.new ≡ space.old) }
    ensures sound { StaysSound depth space.old space.new }
{
    qstart(first, count, quantum, space)
}

/// The same of a commit.
pub(crate) fn commit(first: u16, count: u8, depth: u8, space: &mut Space) -> Result<(), AllocError>
    requires row { first + count ≤ 2 ^ 16 }
    requires may { MayCall depth (Qcommit first count) space.old }
    ensures ok { OnOk result (space.new ≡ met_by depth (Qcommit first count) space.old) }
    ensures err { OnErr result (space.new ≡ space.old) }
    ensures sound { StaysSound depth space.old space.new }
{
    qcommit(first, count, space)
}
