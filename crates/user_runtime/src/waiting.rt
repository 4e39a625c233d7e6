ghost use Rattle.std.specs.Prelude.{◌≡◌, ℕ, OnOk, OnErr, option_map};
ghost use Rattle.call_model.specs.declared.Call.TheVariants.{Wait};
ghost use Rattle.space_model.specs.Beginning.{fresh_top};
ghost use Rattle.space_model.specs.Call.{edit, take_away};
ghost use Rattle.space_model.specs.Caller.{MayCall, met_by, StaysSound};
ghost use Rattle.space_model.specs.Meeting.{or_fresh};
ghost use Rattle.space_model.specs.Runtime.{files_part, after_wait};
ghost use Rattle.space_model.specs.Space.{find, top_of};

use memory_files::reconcile;
use space_tree::{Children, FRESH, Space, Top};
use std::alloc::{AllocError, Global};

// The caller takes over what a child changed in its files; a3 is how many of them found no free slot. At an error it is as it was, and the child
// always is.
#[tactic(auto, using(space_mem::proofs::Dirty::covers_in_after, space_mem::proofs::Dirty::covers_in_same))]
fn take_over(child: &mut Top, caller: &mut Top) -> Result<(), AllocError>
    ensures ok { OnOk result (caller.new ≡ files_part child.old caller.old) }
    ensures err { OnErr result (caller.new ≡ caller.old) }
    ensures same { child.new ≡ child.old }
{
    let left_out = reconcile(&mut caller.memory, &mut child.memory)?;
    caller.registers.set_register(13, left_out);
    Ok(())
}

// The caller has waited for a child. At an error it is as it was, and the child always is.
#[tactic(auto, unfolding(space_model::specs::Runtime::after_wait))]
fn wait_child(child: &mut Top, caller: &mut Top) -> Result<(), AllocError>
    ensures ok { OnOk result (caller.new ≡ after_wait child.old caller.old) }
    ensures err { OnErr result (caller.new ≡ caller.old) }
    ensures same { child.new ≡ child.old }
{
    take_over(child, caller)?;
    caller.tell_stop(child.status);
    Ok(())
}

// As `wait_child`, of a child with those below it.
fn wait_below(child: &mut Space, caller: &mut Top) -> Result<(), AllocError>
    ensures ok { OnOk result (caller.new ≡ after_wait (top_of child.old) caller.old) }
    ensures err { OnErr result (caller.new ≡ caller.old) }
    ensures same { child.new ≡ child.old }
{
    wait_child(&mut child.top, caller)
}

// The caller has waited for a child that is missing: it is read as one that has never run, which has no files.
fn wait_missing(caller: &mut Top)
    ensures { (fuel : ℕ) → caller.new ≡ after_wait (fresh_top fuel) caller.old }
{
    caller.registers.set_register(13, 0);
    caller.tell_stop(FRESH);
}

// The caller has waited for the child of that number. At an error it is as it was, and the children always are.
fn wait_number(number: u16, caller: &mut Top, children: &mut Children) -> Result<(), AllocError>
    ensures ok { OnOk result (caller.new ≡ after_wait (or_fresh caller.old (option_map top_of (find number children.old))) caller.old) }
    ensures err { OnErr result (caller.new ≡ caller.old) }
    ensures same { children.new ≡ children.old }
{
    match children.get_mut(number) {
        Some(child) => wait_below(child, caller),
        None => {
            wait_missing(caller);
            Ok(())
        }
    }
}

// The child of that number goes, with all below it.
fn take_away(children: &mut Children, number: u16)
    ensures { children.new ≡ edit (take_away number) children.old }
{
    children.remove(number);
}

/// Wait for a process (OSDI 2010, "Efficient System-Enforced Deterministic Parallelism", the section on emulating high-level abstractions), of a
/// caller at this depth, 0 to 8, that has not paid yet, once the child, 0 to 65,535, and all below it have stopped or it is missing. What the
/// child changed in its files goes into the caller's files (`memory_files::reconcile`), and the child goes, with all below it. In a1 the caller
/// gets the number of the cause with which it stopped, in a2 the value, in a3 how many of its files found no free slot; a missing child is read
/// as one that has never run (21, 0 and 0). The caller pays one unit and goes on with a0 = 0. The one error is want of memory, which reconciling
/// may come to: nothing is changed then.
pub fn wait(_alloc: Global, child: u16, depth: u8, space: &mut Space) -> Result<(), AllocError>
    requires { MayCall depth (Wait child) space.old }
    ensures ok { OnOk result (space.new ≡ met_by depth (Wait child) space.old) }
    ensures err { OnErr result (space.new ≡ space.old) }
    ensures sound { StaysSound depth space.old space.new }
{
    wait_number(child, &mut space.top, &mut space.children)?;
    take_away(&mut space.children, child);
    space.top.pay_and_succeed();
    Ok(())
}
