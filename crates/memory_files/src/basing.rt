ghost use Rattle.std.specs.Prelude.{◌≡◌, ℕ, ◌+◌, ◌<◌, true, IfOk, IsFalse, OnErr, OnOk};
ghost use Rattle.file_image.specs.Lookup.{HasFile};
ghost use Rattle.space_mem.specs.Held.{AllZero, KeepsMarks, Marks};
ghost use Rattle.space_model.specs.Files.{file_bytes, with_file_bases};
ghost use Rattle.file_model.specs.Sizes.{slot_count};
ghost use Rattle.memory_files.specs.Slots.{IsBesideSlot, OwnsSlots, first_page, has_slot, slot_page};

use crate::files::Files;
use crate::owning::{FIRST_PAGE, HEADER_PAGES, SLOT_COUNT, SLOT_PAGES, own_slots};
use crate::slots::Slots;
use file_image::used;
use space_mem::Mem;
use std::alloc::AllocError;

// Whether bytes are kept of the slots of files; where none are, they are all 0.
pub(crate) fn are_kept(memory: &Mem) -> bool
    ensures { IsFalse result → AllZero memory.now.memory first_page (slot_page slot_count) }
{
    memory
        .next_kept(FIRST_PAGE, FIRST_PAGE + SLOT_PAGES * SLOT_COUNT)
        .is_some()
}

// Gives each file its base, in a memory that owns the headers of the slots in use.
#[tactic(auto, unfolding(space_model::specs::Files::with_file_bases))]
fn mark_owned(memory: &mut Mem, slots: [bool; 64])
    requires owned { OwnsSlots memory.old 1 slots }
    requires used { (k : ℕ) → HasFile (file_bytes memory.old.memory) k → has_slot slots k ≡ true }
    ensures memory { memory.new.memory ≡ with_file_bases memory.old.memory }
    ensures kept { (page : ℕ) → KeepsMarks memory.old memory.new page }
    ensures marks { Marks memory.old memory.new }
{
    let mut files = Slots::take_headers(memory, slots);
    file_image::mark_base(&mut files);
    files.put_back(memory);
}

// Owns the headers of the slots in use, and answers which are owned. The one error is want of memory.
fn own_used(memory: &mut Mem) -> Result<[bool; 64], AllocError>
    ensures same { memory.new.memory ≡ memory.old.memory }
    ensures owned { IfOk result (λ slots. OwnsSlots memory.new 1 slots) }
    ensures used { IfOk result (λ slots. (k : ℕ) → HasFile (file_bytes memory.old.memory) k → has_slot slots k ≡ true) }
    ensures kept { (page : ℕ) → ((k : ℕ) → HasFile (file_bytes memory.old.memory) k → IsBesideSlot 1 k page) → KeepsMarks memory.old memory.new page }
    ensures marks { Marks memory.old memory.new }
{
    let bits = used(&Files::new(memory));
    own_slots(memory, bits, HEADER_PAGES)
}

/// Gives each file in a memory its base: its version and length as they are, which a later change differs from. The one error is want of memory: no byte
/// has changed then, and no permission. A page that is not the header of a slot in use is owned, and dirty, where it was, also at an error.
pub fn mark_base(memory: &mut Mem) -> Result<(), AllocError>
    ensures ok { OnOk result (memory.new.memory ≡ with_file_bases memory.old.memory) }
    ensures err { OnErr result (memory.new.memory ≡ memory.old.memory) }
    ensures kept { (page : ℕ) → ((k : ℕ) → HasFile (file_bytes memory.old.memory) k → IsBesideSlot 1 k page) → KeepsMarks memory.old memory.new page }
    ensures marks { Marks memory.old memory.new }
{
    if !are_kept(memory) {
        return Ok(());
    }
    let slots = own_used(memory)?;
    mark_owned(memory, slots);
    Ok(())
}
