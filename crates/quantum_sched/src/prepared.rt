ghost use Rattle.std.specs.Prelude.{◌≡◌, IfOk, OnOk};
ghost use Rattle.space_model.specs.Space.{top_of};
ghost use Rattle.space_mem.specs.Held.{Covers};
ghost use Rattle.quantum_sched.specs.Rows.{renewed, renewed_space, with_ready, with_each};

use snapshot::take;
use space_tree::{Children, Mem, Space, Status, Top};
use std::alloc::AllocError;
use std::marker::Model;

// A memory for the thread of a number, with a snapshot that is equal to it. No page of it is dirty.
#[derive(Drop)]
pub struct Prepared {
    number: u16,
    memory: Mem,
    snapshot: Mem,
}

impl Model for Prepared {
    ghost use Rattle.std.specs.Prelude.{◌≡◌, ℕ};
    ghost use Rattle.std.specs.Coded.{coded_ℕ, coded×};
    ghost use Rattle.memory_model.specs.Memory.{Memory, coded_memory};
    ghost use Rattle.space_mem.specs.Held.{Covers};

    ghost Value = { ℕ × Memory };

    ghost coded = { coded× coded_ℕ coded_memory };

    ghost view = { λ p. (p.number, p.memory.memory) };

    ghost invariant = { λ p. (p.snapshot.memory ≡ p.memory.memory) × Covers p.memory p.snapshot.memory };
}

impl Prepared {
    // This memory for the thread of that number. The one error is want of memory.
    pub fn of(number: u16, memory: Mem) -> Result<Prepared, AllocError>
        ensures { IfOk result (λ p. p ≡ (number, memory.memory)) }
    {
        let mut memory = memory;
        let snapshot = take(&mut memory)?;
        Ok(Prepared {
            number,
            memory,
            snapshot,
        })
    }
}

// A thread gets the memory and its snapshot, and runs for so many events where it gets a quantum.
fn give(prepared: Prepared, quantum: Option<u32>, child: &mut Top)
    ensures { child.new ≡ renewed quantum prepared.1 child.old }
{
    let Prepared {
        memory,
        snapshot,
        ..
    } = prepared;
    child.memory = memory;
    child.snapshot = Some(snapshot);
    if let Some(events) = quantum {
        child.status = Status::Running;
        child.limit = Some(events);
    }
}

// As `give`, of a space.
fn give_space(prepared: Prepared, quantum: Option<u32>, child: &mut Space)
    ensures { child.new ≡ renewed_space quantum prepared.1 child.old }
{
    give(prepared, quantum, &mut child.top);
}

// As `give`, of the child of its number.
fn give_child(prepared: Prepared, quantum: Option<u32>, children: &mut Children)
    ensures { children.new ≡ with_ready quantum prepared children.old }
{
    if let Some(child) = children.get_mut(prepared.number) {
        give_space(prepared, quantum, child);
    }
}

// Each thread gets its memory.
pub fn give_each(prepared: Vec<Prepared>, quantum: Option<u32>, children: &mut Children)
    ensures { children.new ≡ with_each quantum prepared.items children.old }
{
    for one in prepared {
        give_child(one, quantum, children);
    }
}
