// The names of starts, by the slots of their jobs.

ghost use Rattle.std.specs.Prelude.{◌≡◌, ◌<◌, ℕ, true, Some, IsSome, None, OnErr, OnOk, vec_len};
ghost use Rattle.board.specs.Names.{IsKeptAt, named_at};

use space_tree::Top;
use std::alloc::AllocError;
use value_names::{Name, Naming};

/// What a name stands for, where there is one.
pub(crate) type Start<J> = Option<Name<Top, J>>;

// As many places as there are slots up to this one.
fn reach<J: Naming>(starts: &mut Vec<Start<J>>, slot: usize) -> Result<(), AllocError>
    ensures same { (other : ℕ) → named_at starts.new.items other ≡ named_at starts.old.items other }
    ensures there { OnOk result (slot < vec_len starts.new) }
    ensures none { OnErr result (named_at starts.new.items slot ≡ None) }
{
    while starts.len() <= slot {
        starts.push(None)?;
    }
    Ok(())
}

/// Keeps a name for the job in a slot, in the place of what was kept there. Where memory is wanting none is kept.
pub(crate) fn keep<J: Naming>(starts: &mut Vec<Start<J>>, slot: usize, name: Start<J>)
    ensures { IsKeptAt slot name starts.old.items starts.new.items }
{
    if reach(starts, slot).is_ok() {
        starts[slot] = name;
    }
}

/// Whether the name that is kept for a slot is this one. Then both stand for the same.
pub(crate) fn is_kept<J: Naming>(starts: &[Start<J>], slot: usize, name: &Start<J>) -> bool
    ensures { result ≡ true → IsSome name.now × (named_at starts.now slot ≡ name.now) }
{
    match (starts.get(slot), name) {
        (Some(Some(kept)), Some(name)) => kept.is_same(name),
        _ => false,
    }
}
