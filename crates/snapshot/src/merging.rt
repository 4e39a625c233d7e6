ghost use Rattle.std.specs.Prelude.{◌≡◌, ℕ, ◌+◌, ◌<◌, ◌≤◌, All, IfErr, IfOk, IsOk, OnErr, OnOk, Some, None};
ghost use Rattle.memory_model.specs.Memory.{with_permissions};
ghost use Rattle.memory_model.specs.Sizes.{greatest_permission, pages};
ghost use Rattle.merge_model.specs.Merge.{first_conflict, with_merge};
ghost use Rattle.space_mem.specs.Held.{Covers, IsClean, KeepsMarks, Marks, Owns};
ghost use Rattle.snapshot.specs.Faults.{MayFail};
ghost use Rattle.snapshot.specs.Pages.{AreSettled, HasMerged, IsEqual, IsPassedOver, IsSorted};

use crate::changes::{Found, find_changes};
use crate::fault::MergeError;
use crate::overlaying::overlay_page;
use crate::page::SIZE;
use space_mem::{Mem, Pages};
use std::alloc::AllocError;

// Owns each of these pages. The one error is want of memory: some of them may be owned then that were not.
fn own_each(memory: &mut Mem, each: &[u32]) -> Result<(), AllocError>
    requires { All (λ page. page < pages) each.now }
    ensures same { memory.new.memory ≡ memory.old.memory }
    ensures owned { OnOk result (All (Owns memory.new) each.now) }
    ensures stays { (page : ℕ) → Owns memory.old page → Owns memory.new page }
    ensures others { (page : ℕ) → All (λ own. page ≡ own → ⊥) each.now → KeepsMarks memory.old memory.new page }
    ensures marks { Marks memory.old memory.new }
{
    for page in each {
        memory.own(Pages {
            first: *page,
            count: 1,
        })?;
    }
    Ok(())
}

// Makes each of these pages that is kept one that can be shared.
fn freeze_each(memory: &mut Mem, each: &[u32]) -> Result<(), AllocError>
    requires { All (λ page. page < pages) each.now }
    ensures same { memory.new.memory ≡ memory.old.memory }
    ensures dirty { memory.new.dirty ≡ memory.old.dirty }
{
    for page in each {
        memory.freeze_range(Pages {
            first: *page,
            count: 1,
        })?;
    }
    Ok(())
}

// Merges these pages, which are owned, byte by byte.
fn merge_each(parent: &mut Mem, child: &Mem, snapshot: &Mem, each: &[u32]) -> Result<(), AllocError>
    requires within { All (λ page. page < pages) each.now }
    requires owned { All (Owns parent.old) each.now }
    ensures ok { OnOk result (HasMerged snapshot.now.memory child.now.memory parent.old.memory each.now parent.new.memory) }
    ensures sure { IsOk result }
    ensures stays { (page : ℕ) → Owns parent.old page → Owns parent.new page }
    ensures others { (page : ℕ) → All (λ merged. page ≡ merged → ⊥) each.now → KeepsMarks parent.old parent.new page }
    ensures marks { Marks parent.old parent.new }
{
    let mut scratch = [0; SIZE];
    for page in each {
        overlay_page(parent, child, snapshot, *page, &mut scratch)?;
    }
    Ok(())
}

// Marks these pages, which have the snapshot's bytes, as clean, so that no later merge looks at them.
fn unmark_each(child: &mut Mem, snapshot: &Mem, each: &[u32]) -> Result<(), AllocError>
    requires equal { All (IsEqual child.old.memory snapshot.now.memory) each.now }
    requires covers { Covers child.old snapshot.now.memory }
    ensures same { child.new.memory ≡ child.old.memory }
    ensures covers { Covers child.new snapshot.now.memory }
    ensures stays { (page : ℕ) → IsClean child.old page → IsClean child.new page }
    ensures clean { OnOk result (All (IsClean child.new) each.now) }
{
    for page in each {
        child.unmark(*page)?;
    }
    Ok(())
}

// What a merge does before it changes a byte: it finds what the child changed, marks as clean what it did not, and owns the parent's pages that
// are merged byte by byte. The error is the conflict at the least address of the range, or want of memory.
fn prepare(
    parent: &mut Mem,
    child: &mut Mem,
    snapshot: &Mem,
    range: Pages,
    agree: bool,
) -> Result<Found, MergeError>
    requires covers { Covers child.old snapshot.now.memory }
    ensures sorted { IfOk result (λ found. IsSorted parent.new child.old snapshot.now.memory range.first (range.first + range.count) (range.first + range.count) found) }
    ensures owned { IfOk result (λ found. All (Owns parent.new) found.merged.items) }
    ensures sure { OnOk result (first_conflict agree snapshot.now.memory child.old.memory parent.old.memory range.first range.count ≡ None) }
    ensures conflict { IfErr result (MayFail (first_conflict agree snapshot.now.memory child.old.memory parent.old.memory range.first range.count)) }
    ensures settled { OnOk result (AreSettled child.new snapshot.now.memory range.first (range.first + range.count)) }
    ensures same { parent.new.memory ≡ parent.old.memory }
    ensures same_child { child.new.memory ≡ child.old.memory }
    ensures covers { Covers child.new snapshot.now.memory }
    ensures stays { (page : ℕ) → Owns parent.old page → Owns parent.new page }
    ensures kept { (page : ℕ) → IsPassedOver child.old snapshot.now.memory range.first (range.first + range.count) page → KeepsMarks parent.old parent.new page }
    ensures marks { Marks parent.old parent.new }
{
    let found = find_changes(parent, child, snapshot, range, agree)?;
    unmark_each(child, snapshot, &found.equal)?;
    own_each(parent, &found.merged)?;
    Ok(found)
}

/// Merges what a child wrote since its snapshot into its parent's memory (OSDI 2010, the kernel interface: Merge): in each page
/// of the range, each byte of the child's that differs from the snapshot's takes the place of the parent's. Permissions stay,
/// and the pages that the parent owned are owned. It reads the child's dirty pages alone: outside of them the child has the
/// snapshot's bytes. A page of the parent that is not dirty afterwards was not dirty before, and has the bytes that it had. The
/// error is `Conflict` at the least address of the range that is in conflict, or want of memory. An address is in conflict where
/// both the child's byte and the parent's differ from the snapshot's; with `agree`, only where they differ from one another as
/// well. At an error no byte and no permission of the parent has changed; some pages of the range may be owned or dirty that were
/// not. A page that the parent has as in the snapshot, and does not own, is shared with the child then. A page outside of the
/// range, a page that is clean in the child, and one that has the same bytes in child and snapshot, are owned and dirty in the
/// parent where they were, also at an error. The child has the bytes and permissions that it had: what was found to be as in the
/// snapshot is clean in it then, so that no later merge compares it again.
pub fn merge(
    parent: &mut Mem,
    child: &mut Mem,
    snapshot: &Mem,
    range: Pages,
    agree: bool,
) -> Result<(), MergeError>
    requires covers { Covers child.old snapshot.now.memory }
    ensures ok { OnOk result (parent.new.memory ≡ with_merge snapshot.now.memory child.old.memory parent.old.memory range.first range.count) }
    ensures sure { OnOk result (first_conflict agree snapshot.now.memory child.old.memory parent.old.memory range.first range.count ≡ None) }
    ensures conflict { IfErr result (MayFail (first_conflict agree snapshot.now.memory child.old.memory parent.old.memory range.first range.count)) }
    ensures err { OnErr result (parent.new.memory ≡ parent.old.memory) }
    ensures stays { (page : ℕ) → Owns parent.old page → Owns parent.new page }
    ensures kept { (page : ℕ) → IsPassedOver child.old snapshot.now.memory range.first (range.first + range.count) page → KeepsMarks parent.old parent.new page }
    ensures marks { Marks parent.old parent.new }
    ensures settled { OnOk result (AreSettled child.new snapshot.now.memory range.first (range.first + range.count)) }
    ensures same_child { child.new.memory ≡ child.old.memory }
    ensures covers { Covers child.new snapshot.now.memory }
{
    let found = prepare(parent, child, snapshot, range, agree)?;
    freeze_each(child, &found.taken)?;
    parent.take_over(child, &found.taken)?;
    merge_each(parent, child, snapshot, &found.merged)?;
    Ok(())
}

/// As `merge`, and each page of the range gets the permission, 0 to 7: 1 reads, 2 writes, 4 executes, and each sum of them allows what its parts
/// allow. All or nothing: what may want memory comes before the first byte changes.
pub fn merge_and_permit(
    parent: &mut Mem,
    child: &mut Mem,
    snapshot: &Mem,
    range: Pages,
    agree: bool,
    perm: u8,
) -> Result<(), MergeError>
    requires covers { Covers child.old snapshot.now.memory }
    requires small { perm ≤ greatest_permission }
    ensures ok { OnOk result (parent.new.memory ≡ with_permissions (with_merge snapshot.now.memory child.old.memory parent.old.memory range.first range.count) range.first range.count perm) }
    ensures sure { OnOk result (first_conflict agree snapshot.now.memory child.old.memory parent.old.memory range.first range.count ≡ None) }
    ensures conflict { IfErr result (MayFail (first_conflict agree snapshot.now.memory child.old.memory parent.old.memory range.first range.count)) }
    ensures err { OnErr result (parent.new.memory ≡ parent.old.memory) }
    ensures stays { (page : ℕ) → Owns parent.old page → Owns parent.new page }
    ensures kept { (page : ℕ) → IsPassedOver child.old snapshot.now.memory range.first (range.first + range.count) page → KeepsMarks parent.old parent.new page }
    ensures marks { Marks parent.old parent.new }
    ensures settled { OnOk result (AreSettled child.new snapshot.now.memory range.first (range.first + range.count)) }
    ensures same_child { child.new.memory ≡ child.old.memory }
    ensures covers { Covers child.new snapshot.now.memory }
{
    let found = prepare(parent, child, snapshot, range, agree)?;
    freeze_each(child, &found.taken)?;
    parent.take_over_and_permit(child, &found.taken, range, perm)?;
    merge_each(parent, child, snapshot, &found.merged)?;
    Ok(())
}
