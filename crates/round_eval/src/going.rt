ghost use Rattle.std.specs.Prelude.{◌≡◌, ◌+◌, ◌-◌, ◌≤◌, length, IfOk, IfSome, IsNone};
ghost use Rattle.call_model.specs.Limits.{greatest_depth, levels_below};
ghost use Rattle.det_laws.specs.Leads.{Reaches};

use space_step::{Advance, DecodeCache, advance};
use space_tree::{Path, Space};
use std::alloc::AllocError;

// The space goes on where it stands.
fn go_on_here(
    space: &mut Space,
    depth: u8,
    quantum: u32,
    cache: &mut DecodeCache,
) -> Result<Advance, AllocError>
    requires depth { depth ≤ greatest_depth }
    requires quantum { 1 ≤ quantum }
    ensures { IfOk result (λ a. Reaches (levels_below depth) space.old a.ran space.new) }
{
    advance(&mut space.top, depth, quantum, cache)
}

// As `go_on_here`, of the space at a path from a space at this depth.
fn go_on_below(
    space: &mut Space,
    path: &[u16],
    depth: u8,
    quantum: u32,
    cache: &mut DecodeCache,
) -> Result<Option<Advance>, AllocError>
    requires depth { depth + length path.now ≤ greatest_depth }
    requires quantum { 1 ≤ quantum }
    ensures some { IfOk result (λ o. IfSome o (λ a. Reaches (levels_below depth) space.old a.ran space.new)) }
    ensures none { IfOk result (λ o. IsNone o → space.new ≡ space.old) }
{
    match path {
        [] => Ok(Some(go_on_here(space, depth, quantum, cache)?)),
        [number, rest @ ..] => {
            let Some(child) = space.children.get_mut(*number) else {
                return Ok(None);
            };
            go_on_below(child, rest, depth + 1, quantum, cache)
        }
    }
}

/// The space at a path goes on in its place, for as many local events as the quantum, and fewer only where what is next is none. None where no
/// space stands there. The one error is want of memory.
pub(crate) fn go_on(
    space: &mut Space,
    path: &Path,
    quantum: u32,
    cache: &mut DecodeCache,
) -> Result<Option<Advance>, AllocError>
    requires { 1 ≤ quantum }
    ensures some { IfOk result (λ o. IfSome o (λ a. Reaches greatest_depth space.old a.ran space.new)) }
    ensures none { IfOk result (λ o. IsNone o → space.new ≡ space.old) }
{
    go_on_below(space, path.as_slice(), 0, quantum, cache)
}
