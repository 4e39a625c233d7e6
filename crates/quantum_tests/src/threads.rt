ghost use Rattle.std.specs.Prelude.{◌≡◌, true};
ghost use Rattle.space_model.specs.Event.{MayPay};

use quantum_sched::{qcommit, qstart};
use space_tree::{Cause, Children, Devices, Mem, Pages, Space, Status, Top};
use std::alloc::{AllocError, Global};

/// The first of three children, the last of which has the greatest number.
pub(crate) const FIRST: u16 = 65_533;

/// An address of a byte that threads share.
pub(crate) const MANY: u32 = 0x2000;

/// The last such address.
pub(crate) const LAST: u32 = 0xBFFF_FFFF;

/// The first address of a byte that they do not share.
pub(crate) const OWN: u32 = 0xC000_0000;

// Whether a space has no limit and may pay for a call.
fn may_pay(top: &Top) -> bool
    ensures { result ≡ true → MayPay top.now }
{
    match (top.status, top.limit) {
        (Status::Running, None) => top.fuel > 0,
        _ => false,
    }
}

// A child of 20 units that has stopped.
fn child(alloc: Global, cause: Cause) -> Space {
    let mut top = Top::fresh(alloc, 20);
    top.stop(cause, 0);
    Space::alone(alloc, top)
}

fn add(
    alloc: Global,
    children: &mut Children,
    number: u16,
    cause: Cause,
) -> Result<(), AllocError> {
    children.insert(alloc, number, child(alloc, cause))
}

fn add_three(alloc: Global, children: &mut Children) -> Result<(), AllocError> {
    add(alloc, children, FIRST, Cause::Limit)?;
    add(alloc, children, FIRST + 1, Cause::Ret)?;
    add(alloc, children, FIRST + 2, Cause::Limit)
}

// A memory with a 9 in the byte that many write.
fn memory_of_nine(alloc: Global) -> Result<Mem, AllocError> {
    let mut memory = Mem::new(alloc);
    memory.set_perm(Pages { first: 2, count: 1 }, 3)?;
    memory.write(MANY, 9)?;
    Ok(memory)
}

fn root(alloc: Global, memory: Mem) -> Space {
    Space::alone(
        alloc,
        Top::root(0x1000, 0x3000, memory, 50, Devices::new(alloc)),
    )
}

/// A root of 50 units with a 9 in the byte that many write, and three children, of which the one in the middle has returned and the others wait.
pub(crate) fn tree_of_threads(alloc: Global) -> Result<Space, AllocError> {
    let mut tree = root(alloc, memory_of_nine(alloc)?);
    add_three(alloc, &mut tree.children)?;
    Ok(tree)
}

fn a0_and_a1(top: &Top) -> [u32; 2] {
    [top.registers.register(10), top.registers.register(11)]
}

/// Starts the row, for 100 events. What the root has as a0 and a1 then.
pub(crate) fn start(tree: &mut Space) -> Result<[u32; 2], AllocError> {
    if !may_pay(&tree.top) {
        return Ok([1, 0]);
    }
    qstart(FIRST, 3, 100, tree)?;
    Ok(a0_and_a1(&tree.top))
}

/// Commits the row. What the root has as a0 and a1 then.
pub(crate) fn commit(tree: &mut Space) -> Result<[u32; 2], AllocError> {
    if !may_pay(&tree.top) {
        return Ok([1, 0]);
    }
    qcommit(FIRST, 3, tree)?;
    Ok(a0_and_a1(&tree.top))
}

// A thread writes a byte, and its limit runs out.
#[tactic(auto, using(space_mem::proofs::Dirty::covers_in_after))]
fn thread_writes(top: &mut Top, at: u32, byte: u8) -> Result<(), AllocError> {
    top.memory.write(at, byte)?;
    top.stop(Cause::Limit, 0);
    Ok(())
}

/// The thread of a number writes a byte, and its limit runs out.
pub(crate) fn child_writes(
    children: &mut Children,
    number: u16,
    at: u32,
    byte: u8,
) -> Result<(), AllocError> {
    match children.get_mut(number) {
        Some(child) => thread_writes(&mut child.top, at, byte),
        None => Ok(()),
    }
}

fn first_writes(children: &mut Children) -> Result<(), AllocError> {
    child_writes(children, FIRST, MANY, 65)?;
    child_writes(children, FIRST, LAST, 2)
}

/// Two threads write one byte, the later first, and each another one.
pub(crate) fn threads_write(children: &mut Children) -> Result<(), AllocError> {
    child_writes(children, FIRST + 2, MANY, 67)?;
    child_writes(children, FIRST + 2, OWN, 1)?;
    first_writes(children)
}

fn of_top(top: &Top) -> [u32; 3] {
    [
        u32::from(top.status == Status::Running),
        top.limit.unwrap_or(0),
        u32::from(top.memory.byte(MANY)),
    ]
}

/// Of the child of a number: 1 where it runs, how many events it may have, and the byte that many write.
pub(crate) fn child_of(children: &Children, number: u16) -> [u32; 3] {
    match children.get(number) {
        Some(child) => of_top(&child.top),
        None => [9, 9, 9],
    }
}

/// The three bytes in a memory.
pub(crate) fn bytes_of(memory: &Mem) -> [u8; 3] {
    [memory.byte(MANY), memory.byte(LAST), memory.byte(OWN)]
}
