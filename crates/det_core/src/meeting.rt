ghost use Rattle.std.specs.Prelude.{◌≡◌, ◌+◌, ◌-◌, ◌≤◌, [], length, IfOk, OnOk, OnErr};
ghost use Rattle.call_model.specs.Limits.{greatest_depth, levels_below};
ghost use Rattle.run_model.specs.Schedule.{call_at, try_meet};

use crate::stepping::try_call;
use space_step::{AcceptedCall, Next, peek};
use space_tree::{Path, Space};
use std::alloc::{AllocError, Global};

// The call that is next of a space at this depth, where what it waits for is ready: it has met its children. Else nothing.
fn meet_here(
    alloc: Global,
    space: &mut Space,
    depth: u8,
) -> Result<Option<AcceptedCall>, AllocError>
    requires { depth ≤ greatest_depth }
    ensures call { IfOk result (λ o. o ≡ call_at [] (levels_below depth) space.old) }
    ensures met { OnOk result (space.new ≡ try_meet [] (levels_below depth) space.old) }
    ensures err { OnErr result (space.new ≡ space.old) }
{
    match peek(&space.top, depth) {
        Next::Meet(call) => {
            let met = try_call(alloc, call, space, depth)?;
            Ok(met.then_some(call))
        }
        Next::Local | Next::Stopped => Ok(None),
    }
}

// As `meet_here`, of the space at a path from a space at this depth.
fn meet_below(
    alloc: Global,
    space: &mut Space,
    path: &[u16],
    depth: u8,
) -> Result<Option<AcceptedCall>, AllocError>
    requires { depth + length path.now ≤ greatest_depth }
    ensures call { IfOk result (λ o. o ≡ call_at path.now (levels_below depth) space.old) }
    ensures met { OnOk result (space.new ≡ try_meet path.now (levels_below depth) space.old) }
    ensures err { OnErr result (space.new ≡ space.old) }
{
    match path {
        [] => meet_here(alloc, space, depth),
        [number, rest @ ..] => {
            let Some(child) = space.children.get_mut(*number) else {
                return Ok(None);
            };
            meet_below(alloc, child, rest, depth + 1)
        }
    }
}

/// The call that is next of the space at a path, where what it waits for is ready: it has met its children then, and is answered. None exactly
/// where no space stands there, no call is next of it, or one whose children are not ready: nothing has changed then. Its one error is want of
/// memory, and then nothing has changed either.
pub fn meet(
    alloc: Global,
    space: &mut Space,
    path: &Path,
) -> Result<Option<AcceptedCall>, AllocError>
    ensures call { IfOk result (λ o. o ≡ call_at path.now.items greatest_depth space.old) }
    ensures met { OnOk result (space.new ≡ try_meet path.now.items greatest_depth space.old) }
    ensures err { OnErr result (space.new ≡ space.old) }
{
    meet_below(alloc, space, path.as_slice(), 0)
}
