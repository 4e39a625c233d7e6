ghost use Rattle.std.specs.Prelude.{◌≡◌};
ghost use Rattle.space_model.specs.Meeting.{awaits};
ghost use Rattle.space_model.specs.Space.{find};
ghost use Rattle.run_model.specs.Schedule.{is_ready, are_ready};

use crate::enabling::is_ready;
use space_model::{Await, Reach};
use space_step::AcceptedCall;
use space_tree::{Children, look_at_child};
use trap_ret::awaits;

// As `is_ready`; what is found of a child that is awaited whole is kept, so that the next look is short.
#[tactic(auto, using(crate::proofs::Ready::whole_there, crate::proofs::Ready::whole_missing))]
fn look_ready(children: &mut Children, awaited: Await) -> bool
    ensures ready { result ≡ is_ready awaited.reach (find awaited.number children.old) }
    ensures same { children.new ≡ children.old }
{
    match awaited.reach {
        Reach::Itself => is_ready(children, awaited),
        Reach::Whole => match look_at_child(children, awaited.number) {
            Some(settled) => settled,
            None => true,
        },
    }
}

/// Whether each child that a call waits for is ready; what is found of those that are awaited whole is kept.
pub(crate) fn look_all_ready(call: AcceptedCall, children: &mut Children) -> bool
    ensures ready { result ≡ are_ready (awaits call) children.old }
    ensures same { children.new ≡ children.old }
{
    let all = awaits(call);
    for index in 0..all.len() {
        let awaited = all.get(index);
        if !look_ready(children, awaited) {
            return false;
        }
    }
    true
}
