ghost use Rattle.std.specs.Prelude.{◌≡◌, ℕ, ◌*◌, ◌+◌, ◌<◌, ◌≤◌, IfSome, IsFalse, IsNone, IsOk, IsTrue, OnErr, OnOk};
ghost use Rattle.memory_model.specs.Sizes.{pages};
ghost use Rattle.merge_model.specs.Merge.{with_merge};
ghost use Rattle.space_mem.specs.Held.{Covers, KeepsMarks, Marks, Owns, SamePage};
ghost use Rattle.snapshot.specs.Pages.{IsNextChanged, IsPassedOver, OwnsChanged, SameBytes};

use crate::cursor::Cursor;
use crate::page::{SIZE, page_bytes};
use crate::walk::next_page;
use memory_model::PAGE_SIZE;
use merge3::{merge_bytes, same_page};
use space_mem::{Mem, Pages};
use std::alloc::AllocError;

// Whether the child changed a byte of a page.
fn has_changed(child: &Cursor, snapshot: &Cursor, page: u32) -> bool
    ensures same { IsFalse result → SameBytes child.now.memory snapshot.now.memory page (page + 1) }
    ensures differs { IsTrue result → SamePage child.now.memory snapshot.now.memory page → ⊥ }
{
    let before = snapshot.bytes(page);
    let written = child.bytes(page);
    if same_page(before, written) {
        return false;
    }
    true
}

// The next page from one to before another of which the child changed a byte.
fn next_changed(child: &mut Cursor, snapshot: &mut Cursor, from: u32, end: u32) -> Option<u32>
    requires covers { Covers child.old snapshot.old.memory }
    requires within { end ≤ pages }
    ensures some { IfSome result (IsNextChanged child.old snapshot.old.memory from end) }
    ensures none { IsNone result → SameBytes child.old.memory snapshot.old.memory from end }
    ensures same_child { child.new ≡ child.old }
    ensures same_snapshot { snapshot.new ≡ snapshot.old }
{
    let mut at = from;
    while let Some(page) = next_page(child, snapshot, at, end) {
        if has_changed(child, snapshot, page) {
            return Some(page);
        }
        at = page + 1;
    }
    None
}

/// Owns the parent's pages of a range of which the child changed a byte since its snapshot: no overlay of them takes memory then. No byte and no
/// permission changes. Other pages are owned and dirty where they were. Its one error is want of memory: some of the pages may be owned then that
/// were not.
pub fn own_changed(
    parent: &mut Mem,
    child: &Mem,
    snapshot: &Mem,
    range: Pages,
) -> Result<(), AllocError>
    requires covers { Covers child.now snapshot.now.memory }
    ensures same { parent.new.memory ≡ parent.old.memory }
    ensures owned { OnOk result (OwnsChanged child.now.memory snapshot.now.memory parent.new range.first (range.first + range.count)) }
    ensures idle { OwnsChanged child.now.memory snapshot.now.memory parent.old range.first (range.first + range.count) → IsOk result }
    ensures stays { (page : ℕ) → Owns parent.old page → Owns parent.new page }
    ensures kept { (page : ℕ) → IsPassedOver child.now snapshot.now.memory range.first (range.first + range.count) page → KeepsMarks parent.old parent.new page }
    ensures marks { Marks parent.old parent.new }
{
    let end = range.first + range.count;
    let mut child_cursor = Cursor::over(child);
    let mut snapshot_cursor = Cursor::over(snapshot);
    let mut from = range.first;
    while let Some(page) = next_changed(&mut child_cursor, &mut snapshot_cursor, from, end) {
        parent.own(Pages {
            first: page,
            count: 1,
        })?;
        from = page + 1;
    }
    Ok(())
}

// Overlays a page that is owned, by way of `scratch`.
pub fn overlay_page(
    parent: &mut Mem,
    child: &Mem,
    snapshot: &Mem,
    page: u32,
    scratch: &mut [u8; SIZE],
) -> Result<(), AllocError>
    requires within { page < pages }
    requires owned { Owns parent.old page }
    ensures ok { OnOk result (parent.new.memory ≡ with_merge snapshot.now.memory child.now.memory parent.old.memory page 1) }
    ensures sure { IsOk result }
    ensures stays { (p : ℕ) → Owns parent.old p → Owns parent.new p }
    ensures others { (p : ℕ) → (p ≡ page → ⊥) → KeepsMarks parent.old parent.new p }
    ensures marks { Marks parent.old parent.new }
{
    merge_bytes(
        page_bytes(snapshot, page),
        page_bytes(child, page),
        page_bytes(parent, page),
        scratch,
    );
    parent.write_bytes(PAGE_SIZE * page, scratch)?;
    Ok(())
}

/// As `overlay`, where the parent owns each page of the range of which the child changed a byte: it takes no memory.
pub fn overlay_owned(
    parent: &mut Mem,
    child: &Mem,
    snapshot: &Mem,
    range: Pages,
) -> Result<(), AllocError>
    requires covers { Covers child.now snapshot.now.memory }
    requires owned { OwnsChanged child.now.memory snapshot.now.memory parent.old range.first (range.first + range.count) }
    ensures ok { OnOk result (parent.new.memory ≡ with_merge snapshot.now.memory child.now.memory parent.old.memory range.first range.count) }
    ensures sure { IsOk result }
    ensures stays { (page : ℕ) → Owns parent.old page → Owns parent.new page }
    ensures kept { (page : ℕ) → IsPassedOver child.now snapshot.now.memory range.first (range.first + range.count) page → KeepsMarks parent.old parent.new page }
    ensures marks { Marks parent.old parent.new }
{
    let end = range.first + range.count;
    let mut child_cursor = Cursor::over(child);
    let mut snapshot_cursor = Cursor::over(snapshot);
    let mut scratch = [0; SIZE];
    let mut from = range.first;
    while let Some(page) = next_changed(&mut child_cursor, &mut snapshot_cursor, from, end) {
        overlay_page(parent, child, snapshot, page, &mut scratch)?;
        from = page + 1;
    }
    Ok(())
}

/// Overlays what a child wrote since its snapshot on its parent's memory (OSDI 2010, the emulation of legacy thread APIs: the changes of each
/// quantum): in each page of the range, each byte of the child's that differs from the snapshot's takes the place of the parent's, whatever the
/// parent has there. It is a merge that asks for no conflict. Permissions stay, and the pages that the parent owned are owned. It reads the child's
/// dirty pages alone: outside of them the child has the snapshot's bytes. A page of the parent that is not dirty afterwards was not dirty before,
/// and has the bytes that it had. Its one error is want of memory: no byte and no permission of the parent has changed then, and some pages of the
/// range may be owned that were not. It does not come where the parent owns each page of the range of which the child changed a byte. A page
/// outside of the range, a page that is clean in the child, and one that has the same bytes in child and snapshot, are owned and dirty in the
/// parent where they were, also at an error.
pub fn overlay(
    parent: &mut Mem,
    child: &Mem,
    snapshot: &Mem,
    range: Pages,
) -> Result<(), AllocError>
    requires covers { Covers child.now snapshot.now.memory }
    ensures ok { OnOk result (parent.new.memory ≡ with_merge snapshot.now.memory child.now.memory parent.old.memory range.first range.count) }
    ensures err { OnErr result (parent.new.memory ≡ parent.old.memory) }
    ensures idle { OwnsChanged child.now.memory snapshot.now.memory parent.old range.first (range.first + range.count) → IsOk result }
    ensures stays { (page : ℕ) → Owns parent.old page → Owns parent.new page }
    ensures kept { (page : ℕ) → IsPassedOver child.now snapshot.now.memory range.first (range.first + range.count) page → KeepsMarks parent.old parent.new page }
    ensures marks { Marks parent.old parent.new }
{
    own_changed(parent, child, snapshot, range)?;
    overlay_owned(parent, child, snapshot, range)
}
