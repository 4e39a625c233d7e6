ghost use Rattle.std.specs.Prelude.{◌≡◌, ℕ, ◌+◌, ◌<◌, ◌≤◌, ◌++◌, Bool, true, IfOk, OnErr, OnOk, slice_index};
ghost use Rattle.file_model.specs.Sizes.{slot_count};
ghost use Rattle.space_mem.specs.Held.{KeepsMarks, Marks, Owns};
ghost use Rattle.space_model.specs.Files.{file_bytes, with_file_bytes};
ghost use Rattle.memory_files.specs.Slots.{AreFew, IsBesideSlot, OwnsParts, OwnsSlot, OwnsSlots, slot_page, slot_pages};
ghost use Rattle.memory_files.specs.Taken.{IsBesideSlots, IsBesideTaken, content_page, taken_before, taken_run, with_taken};

use crate::owning::{FIRST_PAGE, HEADER_PAGES, SLOT_COUNT, SLOT_PAGES};
use file_image::Plan;
use space_mem::{Mem, Pages, TakenPage};
use std::alloc::{AllocError, Global};

// The page of a slot's content after so many others.
fn content_page(slot: u32, page: u32) -> u32
    requires slot { slot < slot_count }
    requires page { page < slot_pages }
    ensures { result ≡ content_page slot page }
{
    FIRST_PAGE + SLOT_PAGES * slot + HEADER_PAGES + page
}

// Owns the header of a slot, and its content but for so many pages at the start. The one error is want of memory.
fn own_parts(memory: &mut Mem, slot: u32, whole: u32) -> Result<(), AllocError>
    requires slot { slot < slot_count }
    requires few { whole < slot_pages }
    ensures same { memory.new.memory ≡ memory.old.memory }
    ensures headed { OnOk result (OwnsSlot memory.new 1 slot) }
    ensures owned { OnOk result ((page : ℕ) → content_page slot whole ≤ page → page < slot_page slot + slot_pages → Owns memory.new page) }
    ensures stays { (page : ℕ) → Owns memory.old page → Owns memory.new page }
    ensures beside { (page : ℕ) → IsBesideSlot slot_pages slot page → KeepsMarks memory.old memory.new page }
    ensures marks { Marks memory.old memory.new }
{
    memory.own(Pages {
        first: FIRST_PAGE + SLOT_PAGES * slot,
        count: HEADER_PAGES,
    })?;
    memory.own(Pages {
        first: content_page(slot, whole),
        count: SLOT_PAGES - HEADER_PAGES - whole,
    })
}

// As `own_parts`, of a slot that is wanted.
fn own_if(memory: &mut Mem, slot: u32, whole: u32, is_wanted: bool) -> Result<(), AllocError>
    requires slot { slot < slot_count }
    requires few { whole < slot_pages }
    ensures same { memory.new.memory ≡ memory.old.memory }
    ensures headed { OnOk result (is_wanted ≡ true → OwnsSlot memory.new 1 slot) }
    ensures owned { OnOk result (is_wanted ≡ true → (page : ℕ) → content_page slot whole ≤ page → page < slot_page slot + slot_pages → Owns memory.new page) }
    ensures stays { (page : ℕ) → Owns memory.old page → Owns memory.new page }
    ensures beside { (page : ℕ) → (is_wanted ≡ true → IsBesideSlot slot_pages slot page) → KeepsMarks memory.old memory.new page }
    ensures marks { Marks memory.old memory.new }
{
    if is_wanted {
        own_parts(memory, slot, whole)?;
    }
    Ok(())
}

// Owns what reconciling writes of a parent's slots: their headers, and their content but for what is taken whole. The one error is want of memory.
pub(crate) fn own_planned(parent: &mut Mem, plan: &Plan) -> Result<(), AllocError>
    requires { AreFew plan.now.whole }
    ensures same { parent.new.memory ≡ parent.old.memory }
    ensures headed { OnOk result (OwnsSlots parent.new 1 plan.now.marks) }
    ensures owned { OnOk result (OwnsParts parent.new plan.now.marks plan.now.whole) }
    ensures kept { (page : ℕ) → IsBesideSlots plan.now.marks page → KeepsMarks parent.old parent.new page }
    ensures marks { Marks parent.old parent.new }
{
    for slot in 0..SLOT_COUNT {
        let i = slot as usize;
        own_if(parent, slot, plan.whole[i], plan.marks[i])?;
    }
    Ok(())
}

// Adds so many pages at the start of a slot's content, each with that of another slot. The one error is want of memory.
fn push_run(pages: &mut Vec<TakenPage>, slot: u32, from: u32, whole: u32) -> Result<(), AllocError>
    requires slot { slot < slot_count }
    requires from { from < slot_count }
    requires few { whole < slot_pages }
    ensures { OnOk result (pages.new.items ≡ pages.old.items ++ taken_run slot from whole) }
{
    for page in 0..whole {
        pages.push(TakenPage {
            page: content_page(slot, page),
            from: content_page(from, page),
        })?;
    }
    Ok(())
}

// The pages that are taken whole, each with the child's. The one error is want of memory.
fn taken_pages(alloc: Global, plan: &Plan) -> Result<Vec<TakenPage>, AllocError>
    requires few { AreFew plan.now.whole }
    requires from { (k : ℕ) → slice_index plan.now.from k < slot_count }
    ensures { IfOk result (λ pages. pages.items ≡ taken_before plan.now.whole plan.now.from slot_count) }
{
    let mut pages = Vec::new(alloc);
    for slot in 0..SLOT_COUNT {
        let i = slot as usize;
        push_run(&mut pages, slot, plan.from[i], plan.whole[i])?;
    }
    Ok(pages)
}

// Makes the child's pages that are taken whole ones that can be shared. The one error is want of memory.
fn freeze_planned(child: &mut Mem, plan: &Plan) -> Result<(), AllocError>
    requires few { AreFew plan.now.whole }
    requires from { (k : ℕ) → slice_index plan.now.from k < slot_count }
    ensures same { child.new.memory ≡ child.old.memory }
    ensures dirty { child.new.dirty ≡ child.old.dirty }
{
    for slot in 0..SLOT_COUNT {
        let i = slot as usize;
        child.freeze_range(Pages {
            first: content_page(plan.from[i], 0),
            count: plan.whole[i],
        })?;
    }
    Ok(())
}

// Shares with the child the pages that are taken whole. The one error is want of memory: no byte has changed then. The child keeps its bytes and
// permissions, and which of its pages are dirty.
pub(crate) fn take_planned(parent: &mut Mem, child: &mut Mem, plan: &Plan) -> Result<(), AllocError>
    requires few { AreFew plan.now.whole }
    requires from { (k : ℕ) → slice_index plan.now.from k < slot_count }
    ensures ok { OnOk result (parent.new.memory ≡ with_file_bytes parent.old.memory (with_taken plan.now.whole plan.now.from (file_bytes parent.old.memory) (file_bytes child.old.memory))) }
    ensures err { OnErr result (parent.new.memory ≡ parent.old.memory) }
    ensures kept { (page : ℕ) → IsBesideTaken plan.now.whole page → KeepsMarks parent.old parent.new page }
    ensures marks { Marks parent.old parent.new }
    ensures same { child.new.memory ≡ child.old.memory }
    ensures dirty { child.new.dirty ≡ child.old.dirty }
{
    let pages = taken_pages(parent.allocator(), plan)?;
    freeze_planned(child, plan)?;
    parent.take_over_from(child, &pages)
}
