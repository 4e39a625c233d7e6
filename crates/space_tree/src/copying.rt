ghost use Rattle.std.specs.Prelude.{◌≡◌, IfOk};
ghost use Rattle.space_mem.specs.Held.{memory_in};
ghost use Rattle.space_model.specs.Space.{find};
ghost use Rattle.space_tree.specs.Kept.{children_in, unboxed};

use crate::children::{Children, keys};
use crate::space::Space;
use crate::top::Top;
use dev_script::Devices;
use space_mem::Mem;
use std::alloc::{AllocError, Global};
use std::collections::BTreeMap;

/// An equal state, whose memories no later write to this one's changes. The one error is want of memory.
#[tactic(auto, using(space_mem::proofs::Dirty::covers_in_same))]
pub fn copy_top(top: &mut Top) -> Result<Top, AllocError>
    ensures equal { IfOk result (λ t. t ≡ top.old) }
    ensures same { top.new ≡ top.old }
{
    let memory = top.memory.frozen()?;
    let snapshot = copy_snapshot(&mut top.snapshot)?;
    let devices = copy_devices(&top.devices)?;
    Ok(Top {
        registers: top.registers,
        memory,
        snapshot,
        limit: top.limit,
        fuel: top.fuel,
        used: top.used,
        status: top.status,
        devices,
    })
}

/// An equal space with all below it, whose memories no later write to this one's changes. The one error is want of memory.
#[cycle(copy)]
pub fn copy_tree(alloc: Global, space: &mut Space) -> Result<Space, AllocError>
    ensures equal { IfOk result (λ s. s ≡ space.old) }
    ensures same { space.new ≡ space.old }
{
    let top = copy_top(&mut space.top)?;
    let children = copy_children(alloc, &mut space.children)?;
    Ok(Space { top, children })
}

/// A copy of the child of that number, with all below it; of a missing one there is none. The children are as they were, and as much is
/// known of them. The one error is want of memory.
pub fn copy_child(
    alloc: Global,
    children: &mut Children,
    number: u16,
) -> Result<Option<Space>, AllocError>
    ensures equal { IfOk result (λ copy. copy ≡ find number children.old) }
    ensures same { children.new ≡ children.old }
{
    copy_entry(alloc, &mut children.entries, number)
}

// An equal memory, where there is one.
fn copy_snapshot(snapshot: &mut Option<Mem>) -> Result<Option<Mem>, AllocError>
    ensures equal { IfOk result (λ o. memory_in o ≡ memory_in snapshot.old) }
    ensures same { memory_in snapshot.new ≡ memory_in snapshot.old }
{
    match snapshot {
        Some(memory) => Ok(Some(memory.frozen()?)),
        None => Ok(None),
    }
}

// Equal devices, where there are any.
fn copy_devices(devices: &Option<Devices>) -> Result<Option<Devices>, AllocError>
    ensures { IfOk result (λ o. o ≡ devices.now) }
{
    match devices {
        Some(devices) => Ok(Some(devices.copy()?)),
        None => Ok(None),
    }
}

// A copy of the child of that number, where there is one.
#[cycle(copy)]
fn copy_entry(
    alloc: Global,
    entries: &mut BTreeMap<u16, Box<Space>>,
    number: u16,
) -> Result<Option<Space>, AllocError>
    ensures equal { IfOk result (λ o. o ≡ find number (children_in entries.old.entries)) }
    ensures same { unboxed entries.new.entries ≡ unboxed entries.old.entries }
{
    match entries.get_mut(&number) {
        Some(child) => Ok(Some(copy_tree(alloc, child)?)),
        None => Ok(None),
    }
}

// Copies of the children, with all below them, under the same numbers.
#[cycle(copy)]
fn copy_entries(
    alloc: Global,
    entries: &mut BTreeMap<u16, Box<Space>>,
) -> Result<BTreeMap<u16, Box<Space>>, AllocError>
    ensures equal { IfOk result (λ copies. unboxed copies.entries ≡ unboxed entries.old.entries) }
    ensures same { unboxed entries.new.entries ≡ unboxed entries.old.entries }
{
    let numbers = keys(alloc, entries)?;
    let mut copies = BTreeMap::new(alloc);
    for number in &numbers {
        if let Some(copy) = copy_entry(alloc, entries, *number)? {
            copies.insert(*number, Box::new(alloc, copy)?)?;
        }
    }
    Ok(copies)
}

// Copies of the children, of which as much is known.
#[cycle(copy)]
fn copy_children(alloc: Global, children: &mut Children) -> Result<Children, AllocError>
    ensures equal { IfOk result (λ copies. copies ≡ children.old) }
    ensures same { children.new ≡ children.old }
{
    let entries = copy_entries(alloc, &mut children.entries)?;
    Ok(Children {
        entries,
        settled: children.settled,
        levels: children.levels,
        looked: children.looked,
    })
}
