ghost use Rattle.std.specs.Prelude.{◌≡◌, ℕ, OnOk, OnErr, IfOk, is_none, option_map, if◌then◌else◌};
ghost use Rattle.call_model.specs.declared.Call.TheVariants.{Tjoin};
ghost use Rattle.space_model.specs.Caller.{MayCall, met_by, StaysSound};
ghost use Rattle.space_model.specs.Event.{MayPay};
ghost use Rattle.space_model.specs.Meeting.{or_fresh};
ghost use Rattle.space_model.specs.Space.{children_of, find, top_of};
ghost use Rattle.space_mem.specs.Held.{Covers, Marks, memory_in};
ghost use Rattle.user_runtime.specs.Joins.{IsShared, shared_conflict, shared_merge, join_refusal, with_merge_unless, with_join, after_call};

use snapshot::{MergeError, merge};
use space_model::Refusal;
use space_tree::{Children, Mem, Pages, Space, Top, conflict, no_snapshot};
use std::alloc::{AllocError, Global};

// The pages that threads share: those below the address 0xC0000000.
const SHARED_PAGES: u32 = 0xC0000;

// The range of the shared pages.
#[tactic(auto, unfolding(crate::specs::Joins::IsShared))]
fn thread_pages() -> Pages
    ensures { IsShared result.first result.count }
{
    Pages {
        first: 0,
        count: SHARED_PAGES,
    }
}

// What a child has changed in the shared pages since its snapshot goes into its parent's memory, or the least conflict comes back. At an
// error, and where there is a conflict, the memory is as it was.
fn merge_shared(
    parent: &mut Mem,
    child: &mut Mem,
    snapshot: &Mem,
) -> Result<Option<Refusal>, AllocError>
    requires covers { Covers child.old snapshot.now.memory }
    ensures refusal { IfOk result (λ o. o ≡ shared_conflict snapshot.now.memory child.old.memory parent.old.memory) }
    ensures memory { IfOk result (λ o. parent.new.memory ≡ (if is_none o then shared_merge snapshot.now.memory child.old.memory parent.old.memory else parent.old.memory)) }
    ensures err { OnErr result (parent.new.memory ≡ parent.old.memory) }
    ensures marks { Marks parent.old parent.new }
    ensures same { child.new.memory ≡ child.old.memory }
    ensures covers { Covers child.new snapshot.now.memory }
{
    match merge(parent, child, snapshot, thread_pages(), false) {
        Ok(()) => Ok(None),
        Err(MergeError::Conflict { addr }) => Ok(Some(conflict(addr))),
        Err(MergeError::Memory) => Err(AllocError),
    }
}

// What stops the join of a child, if anything does: it has no snapshot, or there is a conflict. Where nothing does, what it has changed is
// merged into its caller's memory. At an error nothing is changed, and the child never is: pages that are as in its snapshot are clean then.
#[tactic(auto, using(space_mem::proofs::Dirty::covers_in_after))]
fn merge_child(child: &mut Top, caller: &mut Top) -> Result<Option<Refusal>, AllocError>
    ensures refusal { IfOk result (λ o. o ≡ join_refusal child.old.snapshot child.old.memory caller.old.memory) }
    ensures merged { IfOk result (λ o. caller.new ≡ with_merge_unless o child.old caller.old) }
    ensures err { OnErr result (caller.new ≡ caller.old) }
    ensures same { child.new ≡ child.old }
{
    match &child.snapshot {
        Some(snapshot) => merge_shared(&mut caller.memory, &mut child.memory, snapshot),
        None => Ok(Some(no_snapshot())),
    }
}

// The join of a child by a caller that has not paid yet. At an error the caller is as it was.
fn join_child(child: &mut Top, caller: &mut Top) -> Result<(), AllocError>
    requires { MayPay caller.old }
    ensures ok { OnOk result (caller.new ≡ with_join child.old caller.old) }
    ensures err { OnErr result (caller.new ≡ caller.old) }
    ensures same { child.new ≡ child.old }
{
    match merge_child(child, caller)? {
        Some(refusal) => caller.trap(refusal),
        None => {
            caller.tell_stop(child.status);
            caller.pay_and_succeed();
        }
    }
    Ok(())
}

// As `join_child`, of a child with those below it.
fn join_below(child: &mut Space, caller: &mut Top) -> Result<(), AllocError>
    requires { MayPay caller.old }
    ensures ok { OnOk result (caller.new ≡ with_join (top_of child.old) caller.old) }
    ensures err { OnErr result (caller.new ≡ caller.old) }
    ensures same { child.new ≡ child.old }
{
    join_child(&mut child.top, caller)
}

// As `join_child`, by the child's number; one that is missing has no snapshot.
fn join(number: u16, caller: &mut Top, children: &mut Children) -> Result<(), AllocError>
    requires { MayPay caller.old }
    ensures ok { OnOk result (caller.new ≡ with_join (or_fresh caller.old (option_map top_of (find number children.old))) caller.old) }
    ensures err { OnErr result (caller.new ≡ caller.old) }
    ensures same { children.new ≡ children.old }
{
    match children.get_mut(number) {
        Some(child) => join_below(child, caller),
        None => {
            caller.trap(no_snapshot());
            Ok(())
        }
    }
}

// As `join`, of a space.
fn join_space(child: u16, space: &mut Space) -> Result<(), AllocError>
    requires { MayPay (top_of space.old) }
    ensures ok { (levels : ℕ) → OnOk result (space.new ≡ after_call levels (Tjoin child) space.old) }
    ensures err { OnErr result (space.new ≡ space.old) }
{
    join(child, &mut space.top, &mut space.children)
}

/// Join of a thread (OSDI 2010, "Efficient System-Enforced Deterministic Parallelism", the section on emulating high-level abstractions), of a
/// caller at this depth, 0 to 8, that has not paid yet, once the child, 0 to 65,535, has stopped or is missing. What the child has changed
/// below the address 0xC0000000 since its snapshot goes into the caller's memory, byte by byte. In a1 the caller gets the number of the cause
/// with which the child stopped, in a2 the value; it pays one unit and goes on with a0 = 0. The child stays. The caller pays and stops instead,
/// with nothing else changed, at the first of these:
///
/// - the child is missing or has no snapshot (`Badcall` 5);
/// - both sides have changed one of these bytes since the snapshot, to equal values or not (`Conflict`), at the least such address.
///
/// The one error is want of memory: nothing is changed then.
pub fn tjoin(_alloc: Global, child: u16, depth: u8, space: &mut Space) -> Result<(), AllocError>
    requires { MayCall depth (Tjoin child) space.old }
    ensures ok { OnOk result (space.new ≡ met_by depth (Tjoin child) space.old) }
    ensures err { OnErr result (space.new ≡ space.old) }
    ensures sound { StaysSound depth space.old space.new }
{
    join_space(child, space)
}
