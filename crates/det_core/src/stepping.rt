ghost use Rattle.std.specs.Prelude.{◌≡◌, ◌+◌, ◌-◌, ◌≤◌, [], true, cond, ℕ, length, IfOk, OnOk, OnErr};
ghost use Rattle.call_model.specs.Limits.{greatest_depth, levels_below};
ghost use Rattle.space_model.specs.Sound.{IsSoundAt};
ghost use Rattle.space_model.specs.Caller.{MayCall, met_by};
ghost use Rattle.space_model.specs.Meeting.{awaits};
ghost use Rattle.space_model.specs.Space.{children_of};
ghost use Rattle.run_model.specs.Schedule.{are_ready, is_enabled, try_step};

use crate::waiting::look_all_ready;
use space_step::{AcceptedCall, DecodeCache, Next, next};
use space_tree::{Path, Space};
use std::alloc::{AllocError, Global};
use user_runtime::meet;

// A call of a space at this depth, where what it waits for is ready; else nothing.
pub(crate) fn try_call(
    alloc: Global,
    call: AcceptedCall,
    space: &mut Space,
    depth: u8,
) -> Result<bool, AllocError>
    requires { MayCall depth call space.old }
    ensures ok { IfOk result (λ b. b ≡ are_ready (awaits call) (children_of space.old)) }
    ensures called { OnOk result (space.new ≡ cond (are_ready (awaits call) (children_of space.old)) (met_by depth call space.old) space.old) }
    ensures err { OnErr result (space.new ≡ space.old) }
{
    let ready = look_all_ready(call, &mut space.children);
    if ready {
        meet(alloc, call, depth, space)?;
    }
    Ok(ready)
}

// The next event of a space at this depth, where it may happen; else nothing.
fn try_event(
    alloc: Global,
    cache: &mut DecodeCache,
    space: &mut Space,
    depth: u8,
) -> Result<bool, AllocError>
    requires { depth ≤ greatest_depth }
    ensures ok { IfOk result (λ b. b ≡ is_enabled [] (levels_below depth) space.old) }
    ensures stepped { OnOk result (space.new ≡ try_step [] (levels_below depth) space.old) }
    ensures err { OnErr result (space.new ≡ space.old) }
{
    match next(&mut space.top, depth, cache)? {
        Next::Local => Ok(true),
        Next::Meet(call) => try_call(alloc, call, space, depth),
        Next::Stopped => Ok(false),
    }
}

// The event at a path from a space at this depth, where it may happen; else nothing.
fn try_step(
    alloc: Global,
    cache: &mut DecodeCache,
    space: &mut Space,
    path: &[u16],
    depth: u8,
) -> Result<bool, AllocError>
    requires { depth + length path.now ≤ greatest_depth }
    ensures ok { IfOk result (λ b. b ≡ is_enabled path.now (levels_below depth) space.old) }
    ensures stepped { OnOk result (space.new ≡ try_step path.now (levels_below depth) space.old) }
    ensures err { OnErr result (space.new ≡ space.old) }
{
    match path {
        [] => try_event(alloc, cache, space, depth),
        [number, rest @ ..] => {
            let Some(child) = space.children.get_mut(*number) else {
                return Ok(false);
            };
            try_step(alloc, cache, child, rest, depth + 1)
        }
    }
}

/// The event at a path, where it may happen, and whether it has happened; where it may not, nothing changes. Its one error is want
/// of memory, and then nothing has changed.
pub fn step(
    alloc: Global,
    cache: &mut DecodeCache,
    space: &mut Space,
    path: &Path,
) -> Result<bool, AllocError>
    ensures ok { IfOk result (λ b. b ≡ is_enabled path.now.items greatest_depth space.old) }
    ensures stepped { OnOk result (space.new ≡ try_step path.now.items greatest_depth space.old) }
    ensures err { OnErr result (space.new ≡ space.old) }
    ensures sound { (fuel : ℕ) → IsSoundAt greatest_depth true fuel space.old → IsSoundAt greatest_depth true fuel space.new }
{
    try_step(alloc, cache, space, path.as_slice(), 0)
}
