ghost use Rattle.std.specs.Prelude.{◌≡◌, ◌+◌, ◌≤◌, ◌++◌, ◌∷◌, ◌^◌, [], IfOk, OnErr, OnOk, Some};
ghost use Rattle.memory_model.specs.Ranges.{with_copies};
ghost use Rattle.space_model.specs.Event.{MayPay};
ghost use Rattle.space_model.specs.Runtime.{shared_pages};
ghost use Rattle.space_model.specs.Space.{find, top_of};
ghost use Rattle.quantum_model.specs.Rows.{threads_in, with_start};
ghost use Rattle.quantum_sched.specs.Rows.{starts_of, thread_at, with_each};

use crate::prepared::{Prepared, give_each};
use crate::threads::{count_waiting, shared, waits};
use space_tree::{Children, Mem, Space, Top};
use std::alloc::{AllocError, Global};

// A thread's memory with the shared pages of its caller's. The thread's own memory is as it was.
fn copied(caller: &Mem, thread: &mut Mem) -> Result<Mem, AllocError>
    ensures value { IfOk result (λ m. m.memory ≡ with_copies thread.old.memory caller.now.memory 0 0 shared_pages) }
    ensures same { thread.new.memory ≡ thread.old.memory }
    ensures dirty { thread.new.dirty ≡ thread.old.dirty }
{
    let mut made = thread.share()?;
    made.copy_from(caller, 0, shared())?;
    Ok(made)
}

// What a thread gets at a start. The thread is as it was.
#[tactic(auto, using(space_mem::proofs::Dirty::covers_in_same))]
fn prepare(caller: &Mem, number: u16, thread: &mut Top) -> Result<Prepared, AllocError>
    ensures value { IfOk result (λ p. p ≡ (number, with_copies thread.old.memory caller.now.memory 0 0 shared_pages)) }
    ensures same { thread.new ≡ thread.old }
{
    let memory = copied(caller, &mut thread.memory)?;
    Prepared::of(number, memory)
}

// The same of a child that waits.
fn prepare_waiting(
    caller: &Mem,
    number: u16,
    child: &mut Space,
    prepared: &mut Vec<Prepared>,
) -> Result<(), AllocError>
    ensures ok { OnOk result (prepared.new.items ≡ prepared.old.items ++ starts_of caller.now.memory (record { number = number; top = top_of child.old } ∷ [])) }
    ensures same { child.new ≡ child.old }
{
    if !waits(&child.top) {
        return Ok(());
    }
    let ready = prepare(caller, number, &mut child.top)?;
    prepared.push(ready)?;
    Ok(())
}

// The same of the child of a number. The children are as they were.
fn prepare_at(
    caller: &Mem,
    number: u16,
    children: &mut Children,
    prepared: &mut Vec<Prepared>,
) -> Result<(), AllocError>
    ensures ok { OnOk result (prepared.new.items ≡ prepared.old.items ++ starts_of caller.now.memory (thread_at number (find number children.old))) }
    ensures same { children.new ≡ children.old }
{
    match children.get_mut(number) {
        Some(child) => prepare_waiting(caller, number, child, prepared),
        None => Ok(()),
    }
}

// What each thread of a row gets that waits. The children are as they were.
fn prepare_row(
    alloc: Global,
    caller: &Mem,
    first: u16,
    count: u16,
    children: &mut Children,
) -> Result<Vec<Prepared>, AllocError>
    requires { first + count ≤ 2 ^ 16 }
    ensures value { IfOk result (λ prepared. prepared.items ≡ starts_of caller.now.memory (threads_in first count children.old)) }
    ensures same { children.new ≡ children.old }
{
    let mut prepared = Vec::new(alloc);
    for done in 0..count {
        prepare_at(caller, first + done, children, &mut prepared)?;
    }
    Ok(prepared)
}

// Each thread of a row that waits gets a quantum. What may fail comes first, for all of them.
fn start_row(
    caller: &Mem,
    first: u16,
    count: u16,
    quantum: u32,
    children: &mut Children,
) -> Result<(), AllocError>
    requires { first + count ≤ 2 ^ 16 }
    ensures ok { OnOk result (children.new ≡ with_each (Some quantum) (starts_of caller.now.memory (threads_in first count children.old)) children.old) }
    ensures err { OnErr result (children.new ≡ children.old) }
{
    let prepared = prepare_row(caller.allocator(), caller, first, count, children)?;
    give_each(prepared, Some(quantum), children);
    Ok(())
}

// The caller's pages become ones that can be shared, so that each start shares them. The space is as it was.
#[tactic(auto, using(space_mem::proofs::Dirty::covers_in_same))]
fn freeze(space: &mut Space) -> Result<(), AllocError>
    ensures { space.new ≡ space.old }
{
    space.top.memory.freeze()
}

/// Gives a quantum to each child of a caller that waits for one, of so many from a number on (OSDI 2010, "Efficient System-Enforced Deterministic
/// Parallelism", the emulation of legacy thread APIs): a child that is there and has stopped because its limit ran out gets the caller's bytes and
/// permissions below the address 0xC0000000 and a snapshot of its memory, and runs for `quantum` events. The caller, which has not paid yet, pays
/// one unit and goes on with a0 = 0; a1 is how many were started. No child is made.
///
/// The one error is want of memory: nothing is changed then.
pub fn qstart(first: u16, count: u8, quantum: u32, space: &mut Space) -> Result<(), AllocError>
    requires row { first + count ≤ 2 ^ 16 }
    requires pays { MayPay (top_of space.old) }
    ensures ok { OnOk result (space.new ≡ with_start first count quantum space.old) }
    ensures err { OnErr result (space.new ≡ space.old) }
{
    let count = u16::from(count);
    freeze(space)?;
    let started = count_waiting(&space.children, first, count);
    start_row(
        &space.top.memory,
        first,
        count,
        quantum,
        &mut space.children,
    )?;
    space.top.pay(1);
    space.top.finish(Some(started));
    Ok(())
}
