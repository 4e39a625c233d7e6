ghost use Rattle.std.specs.Prelude.{◌≡◌, ℕ, ◌+◌, ◌≤◌, ◌++◌, ◌∷◌, ◌^◌, [], IfOk, IsOk, None, OnErr, OnOk};
ghost use Rattle.space_model.specs.Event.{MayPay};
ghost use Rattle.space_model.specs.Space.{find, top_of};
ghost use Rattle.space_mem.specs.Held.{Marks, Owns};
ghost use Rattle.space_model.specs.Commit.{commits};
ghost use Rattle.space_model.specs.Quanta.{writings, written_since};
ghost use Rattle.quantum_model.specs.Rows.{threads_in, with_commit};
ghost use Rattle.quantum_sched.specs.Rows.{OwnsAt, OwnsRow, OwnsWritten, renewals_of, thread_at, with_each};

use crate::prepared::{Prepared, give_each};
use crate::threads::{count_waiting, shared};
use snapshot::{overlay_owned, own_changed};
use space_tree::{Children, Mem, Space, Top};
use std::alloc::{AllocError, Global};

// Owns the shared pages of a caller that a thread changed since its snapshot. No byte changes.
#[tactic(auto, using(space_mem::proofs::Dirty::marks_refl))]
fn own_written(caller: &mut Mem, thread: &Top) -> Result<(), AllocError>
    ensures same { caller.new.memory ≡ caller.old.memory }
    ensures owned { OnOk result (OwnsWritten caller.new thread.now.snapshot thread.now.memory) }
    ensures stays { (page : ℕ) → Owns caller.old page → Owns caller.new page }
    ensures marks { Marks caller.old caller.new }
{
    match &thread.snapshot {
        Some(snapshot) => own_changed(caller, &thread.memory, snapshot, shared()),
        None => Ok(()),
    }
}

// The same of the child of a number.
#[tactic(auto, using(space_mem::proofs::Dirty::marks_refl))]
fn own_at(caller: &mut Mem, children: &Children, number: u16) -> Result<(), AllocError>
    ensures same { caller.new.memory ≡ caller.old.memory }
    ensures owned { OnOk result (OwnsAt caller.new (find number children.now)) }
    ensures stays { (page : ℕ) → Owns caller.old page → Owns caller.new page }
    ensures marks { Marks caller.old caller.new }
{
    match children.get(number) {
        Some(child) => own_written(caller, &child.top),
        None => Ok(()),
    }
}

// The same of each thread of a row.
fn own_row(caller: &mut Mem, children: &Children, first: u16, count: u16) -> Result<(), AllocError>
    requires { first + count ≤ 2 ^ 16 }
    ensures same { caller.new.memory ≡ caller.old.memory }
    ensures owned { OnOk result (OwnsRow caller.new first count children.now) }
    ensures marks { Marks caller.old caller.new }
{
    for done in 0..count {
        own_at(caller, children, first + done)?;
    }
    Ok(())
}

// Lays what a thread wrote since its snapshot over its caller's memory, which owns the pages. It takes no memory.
#[tactic(auto, using(space_mem::proofs::Dirty::marks_refl))]
fn commit(caller: &mut Mem, thread: &Top) -> Result<(), AllocError>
    requires { OwnsWritten caller.old thread.now.snapshot thread.now.memory }
    ensures ok { OnOk result (caller.new.memory ≡ commits caller.old.memory (written_since thread.now.snapshot thread.now.memory)) }
    ensures sure { IsOk result }
    ensures stays { (page : ℕ) → Owns caller.old page → Owns caller.new page }
    ensures marks { Marks caller.old caller.new }
{
    match &thread.snapshot {
        Some(snapshot) => overlay_owned(caller, &thread.memory, snapshot, shared()),
        None => Ok(()),
    }
}

// The same of the child of a number.
#[tactic(auto, using(space_mem::proofs::Dirty::marks_refl))]
fn commit_at(caller: &mut Mem, children: &Children, number: u16) -> Result<(), AllocError>
    requires { OwnsAt caller.old (find number children.now) }
    ensures ok { OnOk result (caller.new.memory ≡ commits caller.old.memory (writings (thread_at number (find number children.now)))) }
    ensures sure { IsOk result }
    ensures stays { (page : ℕ) → Owns caller.old page → Owns caller.new page }
    ensures marks { Marks caller.old caller.new }
{
    match children.get(number) {
        Some(child) => commit(caller, &child.top),
        None => Ok(()),
    }
}

// The same of each thread of a row, by rising numbers.
fn commit_each(
    caller: &mut Mem,
    children: &Children,
    first: u16,
    count: u16,
) -> Result<(), AllocError>
    requires row { first + count ≤ 2 ^ 16 }
    requires owned { OwnsRow caller.old first count children.now }
    ensures ok { OnOk result (caller.new.memory ≡ commits caller.old.memory (writings (threads_in first count children.now))) }
    ensures sure { IsOk result }
    ensures marks { Marks caller.old caller.new }
{
    for done in 0..count {
        commit_at(caller, children, first + done)?;
    }
    Ok(())
}

// A thread's memory with its next snapshot, where it has one. The thread is as it was.
#[tactic(auto, using(space_mem::proofs::Dirty::covers_in_same))]
fn prepare(number: u16, thread: &mut Top, prepared: &mut Vec<Prepared>) -> Result<(), AllocError>
    ensures ok { OnOk result (prepared.new.items ≡ prepared.old.items ++ renewals_of (record { number = number; top = thread.old } ∷ [])) }
    ensures same { thread.new ≡ thread.old }
{
    if thread.snapshot.is_none() {
        return Ok(());
    }
    let memory = thread.memory.share()?;
    prepared.push(Prepared::of(number, memory)?)?;
    Ok(())
}

// The same of a child.
fn prepare_child(
    number: u16,
    child: &mut Space,
    prepared: &mut Vec<Prepared>,
) -> Result<(), AllocError>
    ensures ok { OnOk result (prepared.new.items ≡ prepared.old.items ++ renewals_of (record { number = number; top = top_of child.old } ∷ [])) }
    ensures same { child.new ≡ child.old }
{
    prepare(number, &mut child.top, prepared)
}

// The same of the child of a number. The children are as they were.
fn prepare_at(
    number: u16,
    children: &mut Children,
    prepared: &mut Vec<Prepared>,
) -> Result<(), AllocError>
    ensures ok { OnOk result (prepared.new.items ≡ prepared.old.items ++ renewals_of (thread_at number (find number children.old))) }
    ensures same { children.new ≡ children.old }
{
    match children.get_mut(number) {
        Some(child) => prepare_child(number, child, prepared),
        None => Ok(()),
    }
}

// The same of each thread of a row. The children are as they were.
fn prepare_row(
    alloc: Global,
    first: u16,
    count: u16,
    children: &mut Children,
) -> Result<Vec<Prepared>, AllocError>
    requires { first + count ≤ 2 ^ 16 }
    ensures value { IfOk result (λ prepared. prepared.items ≡ renewals_of (threads_in first count children.old)) }
    ensures same { children.new ≡ children.old }
{
    let mut prepared = Vec::new(alloc);
    for done in 0..count {
        prepare_at(first + done, children, &mut prepared)?;
    }
    Ok(prepared)
}

// Commits each thread of a row, and renews its snapshot. What may fail comes first, for all of them: the caller's pages are owned, and each thread's
// next snapshot is there.
#[tactic(auto, using(space_mem::proofs::Dirty::marks_then))]
fn commit_row(
    caller: &mut Mem,
    first: u16,
    count: u16,
    children: &mut Children,
) -> Result<(), AllocError>
    requires { first + count ≤ 2 ^ 16 }
    ensures ok { OnOk result (caller.new.memory ≡ commits caller.old.memory (writings (threads_in first count children.old))) }
    ensures renewed { OnOk result (children.new ≡ with_each None (renewals_of (threads_in first count children.old)) children.old) }
    ensures err { OnErr result (caller.new.memory ≡ caller.old.memory) }
    ensures same { OnErr result (children.new ≡ children.old) }
    ensures marks { Marks caller.old caller.new }
{
    own_row(caller, children, first, count)?;
    let prepared = prepare_row(caller.allocator(), first, count, children)?;
    commit_each(caller, children, first, count)?;
    give_each(prepared, None, children);
    Ok(())
}

/// Commits the children of a caller, of so many from a number on (OSDI 2010, "Efficient System-Enforced Deterministic Parallelism", the emulation of
/// legacy thread APIs): by rising numbers each child that is there and has a snapshot gives the caller each byte below the address 0xC0000000 that
/// differs from the snapshot's, and its snapshot is an equal of its memory then. So of the children that changed a byte the last one decides, and no
/// conflict is asked for. The caller's permissions stay. The caller, which has not paid yet, pays one unit and goes on with a0 = 0; a1 is how many
/// of the children are there and have stopped because their limit ran out.
///
/// The one error is want of memory: nothing is changed then.
pub fn qcommit(first: u16, count: u8, space: &mut Space) -> Result<(), AllocError>
    requires row { first + count ≤ 2 ^ 16 }
    requires pays { MayPay (top_of space.old) }
    ensures ok { OnOk result (space.new ≡ with_commit first count space.old) }
    ensures err { OnErr result (space.new ≡ space.old) }
{
    let count = u16::from(count);
    let waiting = count_waiting(&space.children, first, count);
    commit_row(&mut space.top.memory, first, count, &mut space.children)?;
    space.top.pay(1);
    space.top.finish(Some(waiting));
    Ok(())
}
