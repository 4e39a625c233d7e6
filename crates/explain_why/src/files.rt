ghost use Rattle.std.specs.Prelude.{◌≡◌, ◌<◌, ◌≤◌, IfOk, codes, option_map, take};
ghost use Rattle.memory_model.specs.Memory.{byte_at};
ghost use Rattle.file_model.specs.Sizes.{slot_count};
ghost use Rattle.space_model.specs.Files.{file_bytes};
ghost use Rattle.space_model.specs.Sound.{IsSound};
ghost use Rattle.explain_core.specs.declared.watching.Watched.TheVariants.{Byte};
ghost use Rattle.explain_why.specs.Origin.{TellsOrigin};
ghost use Rattle.explain_why.specs.Parts.{HasParts, numbers_below};
ghost use Rattle.explain_why.specs.Runs.{StillTell, TellRuns};
ghost use Rattle.explain_why.specs.Why.{ExplainsSlot, all_events, conflicted_name, flags_address};

use crate::origin::byte_origin;
use crate::runs::{Runs, byte_told};
use crate::texts::file_text;
use file_image::Header;
use memory_files::header_in;
use space_tree::{Mem, Path, Space};
use std::alloc::{AllocError, Global};

// How many slots a memory has.
const SLOTS: u32 = 64;

// Where the flags of slot 0 stand, and how far it is from a slot to the next.
const FIRST_FLAGS: u32 = 0xC000_0014;

const SLOT_SIZE: u32 = 65536;

// The words before who changed the flags.
const FLAGS: &str = "flags changed by";

// The bytes of a header's name, before the zeros behind it.
fn name_of(alloc: Global, header: &Header) -> Result<Vec<u8>, AllocError>
    requires { header.now.name_length ≤ 32 }
    ensures { IfOk result (λ v. v.items ≡ take header.now.name_length header.now.name) }
{
    let mut name = Vec::new(alloc);
    name.extend_from_slice(&header.name[..header.name_length as usize])?;
    Ok(name)
}

// The name of the file in a slot, where it is in conflict.
#[tactic(auto, using(explain_core::proofs::Names::short, crate::proofs::Slots::named, crate::proofs::Slots::unnamed, crate::proofs::Slots::free))]
fn conflicted_name(alloc: Global, memory: &Mem, slot: u32) -> Result<Option<Vec<u8>>, AllocError>
    requires { slot < slot_count }
    ensures { IfOk result (λ o. option_map (λ v. v.items) o ≡ conflicted_name (file_bytes memory.now.memory) slot) }
{
    match header_in(memory, slot) {
        Some(header) => {
            if header.conflicted {
                Ok(Some(name_of(alloc, &header)?))
            } else {
                Ok(None)
            }
        }
        None => Ok(None),
    }
}

// Where the flags of a slot stand in a memory.
fn flags_address(slot: u32) -> u32
    requires { slot < slot_count }
    ensures { result ≡ flags_address slot }
{
    FIRST_FLAGS + SLOT_SIZE * slot
}

/// Where the flags of all slots with a file in conflict stand in a memory.
pub(crate) fn conflicted_flags(alloc: Global, memory: &Mem) -> Result<Vec<u32>, AllocError> {
    let mut addresses = Vec::new(alloc);
    for slot in 0..SLOTS {
        if conflicted_name(alloc, memory, slot)?.is_some() {
            addresses.push(flags_address(slot))?;
        }
    }
    Ok(addresses)
}

// Who changed the flags of a slot, by the runs that answer for many spaces, or in runs of its own.
fn flags_origin(
    alloc: Global,
    root: &mut Space,
    runs: &mut Runs,
    path: &Path,
    memory: &Mem,
    slot: u32,
) -> Result<Vec<u8>, AllocError>
    requires sound { IsSound root.old }
    requires runs { TellRuns root.old runs.old }
    requires slot { slot < slot_count }
    ensures told { IfOk result (λ v. TellsOrigin root.old (Byte (flags_address slot)) path.now.items all_events (byte_at memory.now.memory (flags_address slot)) (codes "flags changed by") v.items) }
    ensures runs { IfOk result (λ _. StillTell runs.old runs.new) }
    ensures same { root.new ≡ root.old }
{
    let address = flags_address(slot);
    match byte_told(alloc, runs, path, address, memory, FLAGS)? {
        Some(text) => Ok(text),
        None => byte_origin(alloc, root, path, address, memory, FLAGS),
    }
}

// What is told of a slot: its file, where it is in conflict, and who changed its flags.
fn explain_slot(
    alloc: Global,
    root: &mut Space,
    runs: &mut Runs,
    path: &Path,
    memory: &Mem,
    slot: u32,
) -> Result<Vec<u8>, AllocError>
    requires sound { IsSound root.old }
    requires runs { TellRuns root.old runs.old }
    requires slot { slot < slot_count }
    ensures told { IfOk result (λ v. ExplainsSlot root.old path.now.items memory.now.memory slot v.items) }
    ensures runs { IfOk result (λ _. StillTell runs.old runs.new) }
    ensures same { root.new ≡ root.old }
{
    let Some(name) = conflicted_name(alloc, memory, slot)? else {
        return Ok(Vec::new(alloc));
    };
    let head = file_text(alloc, path, slot, &name)?;
    let side = flags_origin(alloc, root, runs, path, memory, slot)?;
    let mut text = head.into_bytes();
    text.extend_from_slice(&side)?;
    Ok(text)
}

/// What is told of all slots of a memory, one after the other.
pub(crate) fn explain_files(
    alloc: Global,
    root: &mut Space,
    runs: &mut Runs,
    path: &Path,
    memory: &Mem,
) -> Result<Vec<u8>, AllocError>
    requires sound { IsSound root.old }
    requires runs { TellRuns root.old runs.old }
    ensures told { IfOk result (λ v. HasParts (ExplainsSlot root.old path.now.items memory.now.memory) (numbers_below slot_count) v.items) }
    ensures runs { IfOk result (λ _. StillTell runs.old runs.new) }
    ensures same { root.new ≡ root.old }
{
    let mut text = Vec::new(alloc);
    for slot in 0..SLOTS {
        let part = explain_slot(alloc, root, runs, path, memory, slot)?;
        text.extend_from_slice(&part)?;
    }
    Ok(text)
}
