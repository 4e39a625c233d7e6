ghost use Rattle.std.specs.Prelude.{◌≡◌, ◌+◌, None, Some, IfOk, OnErr, IsSome};
ghost use Rattle.slab.specs.Slab.{slab_len};
ghost use Rattle.board.specs.Jobs.{IsOut, Sets, out_at};
ghost use Rattle.board.specs.Listed.{AreOut, OutsApart};

use crate::job::Out;
use crate::listing::copy_path;
use path_set::PathSet;
use slab::Slab;
use std::alloc::AllocError;

/// Puts a job, whose space is not out, into a slot that was empty, and its path among those that are at work. The one error is want of memory: no slot
/// has changed then.
pub(crate) fn put_in(
    out: &mut Slab<Out>,
    at_work: &mut PathSet,
    job: Out,
) -> Result<usize, AllocError>
    requires inside { IsOut out.old.slots job.path.items → ⊥ }
    requires work { AreOut at_work.old out.old.slots }
    ensures vacant { IfOk result (λ slot. out_at out.old.slots slot ≡ None) }
    ensures sets { IfOk result (λ slot. Sets slot (Some job) out.old.slots out.new.slots) }
    ensures len { IfOk result (λ slot. slab_len out.new ≡ slab_len out.old + 1) }
    ensures work { AreOut at_work.new out.new.slots }
    ensures err { OnErr result (out.new.slots ≡ out.old.slots) }
{
    out.reserve(1)?;
    at_work.insert(copy_path(&job.path)?)?;
    Ok(out.insert_reserved(job))
}

/// Takes the job of a slot out, and its path from those that are at work. It takes no memory.
pub(crate) fn take_out(out: &mut Slab<Out>, at_work: &mut PathSet, slot: usize) -> Out
    requires some { IsSome (out_at out.old.slots slot) }
    requires apart { OutsApart out.old.slots }
    requires work { AreOut at_work.old out.old.slots }
    ensures value { out_at out.old.slots slot ≡ Some result }
    ensures sets { Sets slot None out.old.slots out.new.slots }
    ensures len { slab_len out.new + 1 ≡ slab_len out.old }
    ensures work { AreOut at_work.new out.new.slots }
{
    let job = out.remove(slot);
    at_work.remove(&job.path);
    job
}
