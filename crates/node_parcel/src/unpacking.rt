ghost use Rattle.std.specs.Prelude.{◌≡◌, IfOk, Ok};
ghost use Rattle.fault_model.specs.Gives.{Gives};
ghost use Rattle.space_model.specs.Space as model;
ghost use Rattle.parcel_model.specs.Parcel.{TopOf};
ghost use Rattle.parcel_model.specs.Reading.{top_at};
ghost use Rattle.node_parcel.specs.Meant.{read_top};
ghost use Rattle.node_parcel.specs.OneNumber.{held_in};

use crate::fault::ParcelFault;
use crate::fields::u32_at;
use crate::header::{
    cause_at, ended, flags_at, limit_at, magic_of, registers_into, status_of, used_at, value_at,
};
use crate::marking::mark;
use crate::placing::{memory_of, snapshot_of};
use crate::residents::Residents;
use crate::runs::Placed;
use rv_exec::Regs;
use space_mem::Mem;
use space_tree::Top;
use std::alloc::Global;

// The memory, where there is one.
fn memory_in(placed: Option<Placed>) -> Option<Mem>
    ensures { result ≡ held_in placed }
{
    match placed {
        Some(placed) => Some(placed.memory),
        None => None,
    }
}

#[tactic(auto, unfolding(crate::specs::Meant::read_top))]
fn whole(alloc: Global, bytes: &[u8], known: &Residents) -> Result<Top, ParcelFault>
    ensures { Gives (λ t. t) result (read_top known.now bytes.now) }
{
    let rest = magic_of(0, bytes)?;
    let mut registers = Regs::new(0);
    let rest = registers_into(&mut registers, 4, rest)?;
    let (cause, rest) = cause_at(132, rest)?;
    let (value, rest) = value_at(cause, 136, rest)?;
    let (flags, rest) = flags_at(140, rest)?;
    let (limit, rest) = limit_at(flags, 141, rest)?;
    let (fuel, rest) = u32_at(145, rest)?;
    let (used, rest) = used_at(fuel, 149, rest)?;
    let (placed, at, rest) = memory_of(alloc, known, 153, rest)?;
    let (snapshot, at, rest) = snapshot_of(alloc, known, flags, at, rest)?;
    ended(at, rest)?;
    let mut memory = placed.memory;
    mark(&mut memory, &placed.spans, &snapshot)?;
    Ok(Top {
        registers,
        memory,
        snapshot: memory_in(snapshot),
        limit,
        fuel,
        used,
        status: status_of(cause, value),
        devices: None,
    })
}

/// The top that a parcel means over these resident pages, without devices. Where it has a snapshot, exactly the pages in which memory and
/// snapshot differ are dirty. An error is the first fault from the left, at the offset of its field, or want of memory.
pub fn unpack(alloc: Global, bytes: &[u8], known: &Residents) -> Result<Top, ParcelFault>
    // What is read is a top of these bytes.
    ensures found { IfOk result (λ t. TopOf known.now bytes.now t) }
    // A top of these bytes is what is read, unless memory runs out.
    ensures only { (t : model.Top) → TopOf known.now bytes.now t → Gives (λ x. x) result (Ok t) }
    // Which fault it is.
    ensures exact { Gives (λ t. t) result (top_at known.now bytes.now) }
{
    whole(alloc, bytes, known)
}
