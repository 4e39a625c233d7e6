ghost use Rattle.std.specs.Prelude.{◌≡◌, ◌-◌, ◌≤◌};
ghost use Rattle.call_model.specs.Limits.{greatest_depth, levels_below};
ghost use Rattle.space_model.specs.Meeting.{awaits};
ghost use Rattle.space_model.specs.Event.{next};
ghost use Rattle.space_model.specs.Space.{top_of, children_of, find};
ghost use Rattle.run_model.specs.Schedule.{is_ready, are_ready, may_happen, is_enabled, ready_call, call_at};

use space_model::{Await, Reach};
use space_step::{AcceptedCall, Next, peek};
use space_tree::{Children, Path, Space, at, is_settled, is_stopped};
use trap_ret::awaits;

// Whether a child that a call waits for is missing, has stopped, or, where it is awaited whole, has settled.
pub(crate) fn is_ready(children: &Children, awaited: Await) -> bool
    ensures { result ≡ is_ready awaited.reach (find awaited.number children.now) }
{
    let Some(child) = children.get(awaited.number) else {
        return true;
    };
    match awaited.reach {
        Reach::Itself => is_stopped(child),
        Reach::Whole => is_settled(child),
    }
}

// Whether each child that a call waits for is ready.
fn are_ready(call: AcceptedCall, children: &Children) -> bool
    ensures { result ≡ are_ready (awaits call) children.now }
{
    let all = awaits(call);
    for index in 0..all.len() {
        let awaited = all.get(index);
        if !is_ready(children, awaited) {
            return false;
        }
    }
    true
}

// Whether the next event of a space at this depth may happen.
fn may_go_on(space: &Space, depth: u8) -> bool
    requires { depth ≤ greatest_depth }
    ensures { result ≡ may_happen (next (levels_below depth) (top_of space.now)) (children_of space.now) }
{
    match peek(&space.top, depth) {
        Next::Local => true,
        Next::Meet(call) => are_ready(call, &space.children),
        Next::Stopped => false,
    }
}

/// Whether the event at a path may happen: a space stands there that has not stopped, and what it waits for is ready.
#[tactic(auto, using(crate::proofs::Paths::enabled_at, crate::proofs::Paths::enabled_missing))]
pub fn enabled(space: &Space, path: &Path) -> bool
    ensures { result ≡ is_enabled path.now.items greatest_depth space.now }
{
    match at(space, path) {
        Some(found) => may_go_on(found, path.len() as u8),
        None => false,
    }
}

// The call that is next of a space at this depth, where what it waits for is ready.
fn ready_call_here(space: &Space, depth: u8) -> Option<AcceptedCall>
    requires { depth ≤ greatest_depth }
    ensures { result ≡ ready_call (next (levels_below depth) (top_of space.now)) (children_of space.now) }
{
    match peek(&space.top, depth) {
        Next::Meet(call) => are_ready(call, &space.children).then_some(call),
        Next::Local | Next::Stopped => None,
    }
}

/// The call that is next of the space at a path, where what it waits for is ready; none exactly where no space stands there, no call is next of
/// it, or one whose children are not ready.
#[tactic(auto, using(crate::proofs::Paths::call_found, crate::proofs::Paths::call_missing))]
pub fn ready_call(space: &Space, path: &Path) -> Option<AcceptedCall>
    ensures { result ≡ call_at path.now.items greatest_depth space.now }
{
    match at(space, path) {
        Some(found) => ready_call_here(found, path.len() as u8),
        None => None,
    }
}
