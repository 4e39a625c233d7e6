ghost use Rattle.std.specs.Prelude.{◌≡◌, IfOk, OnErr, OnOk};
ghost use Rattle.memory_model.specs.Sparse.{no_values};
ghost use Rattle.space_mem.specs.Held.{Covers};

use space_mem::Mem;
use std::alloc::AllocError;

/// A snapshot of a memory: an equal memory, which no later write to this one changes. Bytes and permissions stay; no page is owned
/// afterwards, since both share them all, and none is dirty. No page of the snapshot is dirty or owned, which does not matter.
/// The one error is want of memory: the same pages are dirty then as before.
pub fn take(memory: &mut Mem) -> Result<Mem, AllocError>
    ensures equal { IfOk result (λ snapshot. snapshot.memory ≡ memory.old.memory) }
    ensures same { memory.new.memory ≡ memory.old.memory }
    ensures none { OnOk result (memory.new.owned ≡ no_values) }
    ensures clean { OnOk result (memory.new.dirty ≡ no_values) }
    ensures covers { IfOk result (λ snapshot. Covers memory.new snapshot.memory) }
    ensures err { OnErr result (memory.new.dirty ≡ memory.old.dirty) }
{
    let copy = memory.share()?;
    memory.clean();
    Ok(copy)
}
