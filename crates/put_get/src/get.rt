ghost use Rattle.std.specs.Prelude.{◌≡◌, ◌+◌, OnOk, OnErr, IfErr, None, option_map};
ghost use Rattle.call_model.specs.declared.Call.TheVariants.{Get};
ghost use Rattle.call_model.specs.Accepted.{IsTransfer};
ghost use Rattle.space_model.specs.Event.{MayPay};
ghost use Rattle.space_model.specs.Beginning.{fresh_top};
ghost use Rattle.space_model.specs.Meeting.{or_fresh};
ghost use Rattle.space_model.specs.Part.{caller_after};
ghost use Rattle.space_model.specs.Space.{find, top_of};
ghost use Rattle.space_model.specs.Caller.{with_action};
ghost use Rattle.put_get.specs.Meetings.{get_conflict, conflict_of, MayStop};

use crate::joining::{join, receive};
use crate::options::has_merge;
use crate::ranges::share;
use snapshot::MergeError;
use space_tree::{Children, Space, Top};
use std::alloc::{AllocError, Global};
use trap_ret::Transfer;

// Changes the caller by what the child has. At an error it is as it was, and the child always.
fn take_top(x: &Transfer, child: &mut Top, caller: &mut Top) -> Result<(), MergeError>
    requires { IsTransfer x.now }
    ensures ok { OnOk result (caller.new ≡ caller_after x.now child.old caller.old) }
    ensures sure { OnOk result (get_conflict x.now caller.old child.old ≡ None) }
    ensures conflict { IfErr result (MayStop (get_conflict x.now caller.old child.old)) }
    ensures err { OnErr result (caller.new ≡ caller.old) }
    ensures same { child.new ≡ child.old }
{
    if has_merge(x) {
        return join(x, child, caller);
    }
    Ok(receive(x, child, caller)?)
}

// As `take_top`, of a child with those below it.
fn take_space(x: &Transfer, child: &mut Space, caller: &mut Top) -> Result<(), MergeError>
    requires { IsTransfer x.now }
    ensures ok { OnOk result (caller.new ≡ caller_after x.now (top_of child.old) caller.old) }
    ensures sure { OnOk result (get_conflict x.now caller.old (top_of child.old) ≡ None) }
    ensures conflict { IfErr result (MayStop (get_conflict x.now caller.old (top_of child.old))) }
    ensures err { OnErr result (caller.new ≡ caller.old) }
    ensures same { child.new ≡ child.old }
{
    take_top(x, &mut child.top, caller)
}

// As `take_top`, of a child that has never run.
fn take_fresh(alloc: Global, x: &Transfer, caller: &mut Top) -> Result<(), MergeError>
    requires { IsTransfer x.now }
    ensures ok { OnOk result (caller.new ≡ caller_after x.now (fresh_top (caller.old.fuel + caller.old.used)) caller.old) }
    ensures sure { OnOk result (get_conflict x.now caller.old (fresh_top (caller.old.fuel + caller.old.used)) ≡ None) }
    ensures conflict { IfErr result (MayStop (get_conflict x.now caller.old (fresh_top (caller.old.fuel + caller.old.used)))) }
    ensures err { OnErr result (caller.new ≡ caller.old) }
{
    let mut child = Top::fresh(alloc, caller.total_fuel());
    take_top(x, &mut child, caller)
}

// Changes the caller by what the child of that number has; one that is missing is read as one that has never run. At an error it is
// as it was.
fn take_child(
    alloc: Global,
    x: &Transfer,
    caller: &mut Top,
    children: &mut Children,
) -> Result<(), MergeError>
    requires { IsTransfer x.now }
    ensures ok { let child = or_fresh caller.old (option_map top_of (find x.now.child children.old)) in OnOk result (caller.new ≡ caller_after x.now child caller.old) }
    ensures sure { let child = or_fresh caller.old (option_map top_of (find x.now.child children.old)) in OnOk result (get_conflict x.now caller.old child ≡ None) }
    ensures conflict { let child = or_fresh caller.old (option_map top_of (find x.now.child children.old)) in IfErr result (MayStop (get_conflict x.now caller.old child)) }
    ensures err { OnErr result (caller.new ≡ caller.old) }
    ensures same { children.new ≡ children.old }
{
    match children.get_mut(x.child) {
        Some(child) => take_space(x, child, caller),
        None => take_fresh(alloc, x, caller),
    }
}

// The pages that Copy takes from the child of that number become ones that can be shared. The children are as they were.
fn share_in(x: &Transfer, children: &mut Children) -> Result<(), AllocError>
    requires { IsTransfer x.now }
    ensures same { children.new ≡ children.old }
{
    match children.get_mut(x.child) {
        Some(child) => share(x, child),
        None => Ok(()),
    }
}

// As `share_in`, of a space's children.
fn share_child(x: &Transfer, space: &mut Space) -> Result<(), AllocError>
    requires { IsTransfer x.now }
    ensures same { space.new ≡ space.old }
{
    share_in(x, &mut space.children)
}

// What Get does that no test but the conflict stops, of a caller that has not paid yet. At an error nothing is changed.
pub fn get(alloc: Global, x: &Transfer, space: &mut Space) -> Result<(), MergeError>
    requires transfer { IsTransfer x.now }
    requires pays { MayPay (top_of space.old) }
    ensures ok { OnOk result (space.new ≡ with_action (Get x.now) space.old) }
    ensures sure { OnOk result (conflict_of (Get x.now) space.old ≡ None) }
    ensures conflict { IfErr result (MayStop (conflict_of (Get x.now) space.old)) }
    ensures err { OnErr result (space.new ≡ space.old) }
{
    share_child(x, space)?;
    match take_child(alloc, x, &mut space.top, &mut space.children) {
        Ok(()) => {
            space.top.pay_and_succeed();
            Ok(())
        }
        Err(error) => Err(error),
    }
}
