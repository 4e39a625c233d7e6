ghost use Rattle.std.specs.Prelude.{◌≡◌, true, false};
ghost use Rattle.space_mem.specs.Held.{memory_in};
ghost use Rattle.space_tree.specs.Kept.{children_in};

use crate::children::Children;
use crate::space::Space;
use crate::top::Top;
use dev_script::Devices;
use rv_exec::Regs;
use space_mem::Mem;
use space_model::Status;
use std::collections::BTreeMap;

/// Whether two states are equal: registers, the bytes and permissions of memory and snapshot, limit, fuel, what was used, status, and
/// devices. Which pages are owned or dirty does not count. It takes no memory.
#[tactic(auto, using(crate::proofs::Alike::same_tops))]
pub fn same_top(a: &Top, b: &Top) -> bool
    ensures same { result ≡ true → a.now ≡ b.now }
    ensures differs { result ≡ false → a.now ≡ b.now → ⊥ }
{
    if a.limit != b.limit || a.fuel != b.fuel || a.used != b.used {
        return false;
    }
    if !same_registers(&a.registers, &b.registers) || !same_status(a.status, b.status) {
        return false;
    }
    same_devices(&a.devices, &b.devices)
        && a.memory.same(&b.memory)
        && same_snapshot(&a.snapshot, &b.snapshot)
}

/// Whether two spaces are equal with all below them: their states, and their children, number by number. It takes no memory.
#[cycle(same)]
pub fn same(a: &Space, b: &Space) -> bool
    ensures same { result ≡ true → a.now ≡ b.now }
    ensures differs { result ≡ false → a.now ≡ b.now → ⊥ }
{
    same_top(&a.top, &b.top) && same_children(&a.children, &b.children)
}

// Whether two spaces have the same numbers of children, and equal children at each.
#[cycle(same)]
fn same_children(a: &Children, b: &Children) -> bool
    ensures same { result ≡ true → a.now ≡ b.now }
    ensures differs { result ≡ false → a.now ≡ b.now → ⊥ }
{
    same_entries(&a.entries, &b.entries)
}

// Whether two maps have the same numbers of children, and equal children at each.
#[cycle(same)]
fn same_entries(a: &BTreeMap<u16, Box<Space>>, b: &BTreeMap<u16, Box<Space>>) -> bool
    ensures same { result ≡ true → children_in a.now.entries ≡ children_in b.now.entries }
    ensures differs { result ≡ false → children_in a.now.entries ≡ children_in b.now.entries → ⊥ }
{
    let mut others = b.iter();
    for (number, child) in a {
        let Some((other, twin)) = others.next() else {
            return false;
        };
        if *number != *other || !same(child, twin) {
            return false;
        }
    }
    others.next().is_none()
}

// Whether all registers are equal.
fn same_registers(a: &Regs, b: &Regs) -> bool
    ensures same { result ≡ true → a.now ≡ b.now }
    ensures differs { result ≡ false → a.now ≡ b.now → ⊥ }
{
    a == b
}

// Whether two states are the same.
fn same_status(a: Status, b: Status) -> bool
    ensures same { result ≡ true → a ≡ b }
    ensures differs { result ≡ false → a ≡ b → ⊥ }
{
    a == b
}

// Whether both have snapshots of the same bytes and permissions, or neither has one.
fn same_snapshot(a: &Option<Mem>, b: &Option<Mem>) -> bool
    ensures same { result ≡ true → memory_in a.now ≡ memory_in b.now }
    ensures differs { result ≡ false → memory_in a.now ≡ memory_in b.now → ⊥ }
{
    match a {
        Some(snapshot) => match b {
            Some(other) => snapshot.same(other),
            None => false,
        },
        None => b.is_none(),
    }
}

// Whether both have equal devices, or neither has any.
fn same_devices(a: &Option<Devices>, b: &Option<Devices>) -> bool
    ensures same { result ≡ true → a.now ≡ b.now }
    ensures differs { result ≡ false → a.now ≡ b.now → ⊥ }
{
    match a {
        Some(devices) => match b {
            Some(others) => devices.same(others),
            None => false,
        },
        None => b.is_none(),
    }
}
