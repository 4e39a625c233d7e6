ghost use Rattle.std.specs.Prelude.{◌≡◌, ℕ, ◌<◌, ◌≤◌, true, false, List, Bool, length, slice_set, IfOk, OnOk};
ghost use Rattle.file_model.specs.Sizes.{slot_count};
ghost use Rattle.space_mem.specs.Held.{KeepsMarks, Marks, Owns};
ghost use Rattle.memory_files.specs.Slots.{OwnsSlot, OwnsSlots, has_slot, slot_pages, HasBits, IsBesideBits, IsBesideSlot};

use space_mem::{Mem, Pages};
use std::alloc::AllocError;

// How many slots there are, the page that slot 0 begins with, and how many pages a header and a slot have.
pub(crate) const SLOT_COUNT: u32 = 64;

pub(crate) const FIRST_PAGE: u32 = 0xC0000;

pub(crate) const HEADER_PAGES: u32 = 1;

pub(crate) const SLOT_PAGES: u32 = 16;

// Owns some pages from the start of a slot on. The one error is want of memory.
fn own_pages(memory: &mut Mem, slot: u32, count: u32) -> Result<(), AllocError>
    requires slot { slot < slot_count }
    requires count { count ≤ slot_pages }
    ensures same { memory.new.memory ≡ memory.old.memory }
    ensures owned { OnOk result (OwnsSlot memory.new count slot) }
    ensures stays { (page : ℕ) → Owns memory.old page → Owns memory.new page }
    ensures beside { (page : ℕ) → IsBesideSlot count slot page → KeepsMarks memory.old memory.new page }
    ensures marks { Marks memory.old memory.new }
{
    memory.own(Pages {
        first: FIRST_PAGE + SLOT_PAGES * slot,
        count,
    })
}

// Owns some pages of a slot, where it is wanted, beside those of others that are owned. The one error is want of memory.
fn own_if(
    memory: &mut Mem,
    slots: &mut [bool; 64],
    slot: u32,
    count: u32,
    is_wanted: bool,
) -> Result<(), AllocError>
    requires slot { slot < slot_count }
    requires count { count ≤ slot_pages }
    ensures same { memory.new.memory ≡ memory.old.memory }
    ensures owned { OnOk result (OwnsSlots memory.old count slots.old → OwnsSlots memory.new count slots.new) }
    ensures slots { OnOk result (slots.new ≡ slice_set slots.old slot is_wanted) }
    ensures beside { (page : ℕ) → (is_wanted ≡ true → IsBesideSlot count slot page) → KeepsMarks memory.old memory.new page }
    ensures marks { Marks memory.old memory.new }
{
    if is_wanted {
        own_pages(memory, slot, count)?;
    }
    slots[slot as usize] = is_wanted;
    Ok(())
}

// Owns some pages of a slot, and answers of which slots they are owned. The one error is want of memory.
pub(crate) fn own_slot(memory: &mut Mem, slot: u32, count: u32) -> Result<[bool; 64], AllocError>
    requires slot { slot < slot_count }
    requires count { count ≤ slot_pages }
    ensures same { memory.new.memory ≡ memory.old.memory }
    ensures owned { IfOk result (λ slots. OwnsSlots memory.new count slots) }
    ensures slots { IfOk result (λ slots. has_slot slots slot ≡ true) }
    ensures beside { (page : ℕ) → IsBesideSlot count slot page → KeepsMarks memory.old memory.new page }
    ensures marks { Marks memory.old memory.new }
{
    let mut slots = [false; 64];
    own_if(memory, &mut slots, slot, count, true)?;
    Ok(slots)
}

// Owns some pages of each slot that bits tell, the lowest for slot 0, and answers of which slots they are owned. The one error is want of memory.
pub(crate) fn own_slots(memory: &mut Mem, bits: u64, count: u32) -> Result<[bool; 64], AllocError>
    requires { count ≤ 16 }
    ensures same { memory.new.memory ≡ memory.old.memory }
    ensures owned { IfOk result (λ slots. OwnsSlots memory.new count slots) }
    ensures slots { IfOk result (λ slots. HasBits bits slots) }
    ensures beside { (page : ℕ) → IsBesideBits count bits page → KeepsMarks memory.old memory.new page }
    ensures marks { Marks memory.old memory.new }
{
    let mut slots = [false; 64];
    let mut rest = bits;
    for slot in 0..64 {
        own_if(memory, &mut slots, slot, count, rest % 2 == 1)?;
        rest /= 2;
    }
    Ok(slots)
}
