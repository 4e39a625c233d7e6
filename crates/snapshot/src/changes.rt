ghost use Rattle.std.specs.Prelude.{◌≡◌, ℕ, ◌*◌, ◌+◌, ◌<◌, ◌≤◌, [], IfErr, IfOk, OnOk, Some, None};
ghost use Rattle.memory_model.specs.Sizes.{page_size, pages};
ghost use Rattle.merge_model.specs.Merge.{first_conflict};
ghost use Rattle.space_mem.specs.Held.{Covers};
ghost use Rattle.snapshot.specs.Faults.{IsConflictAt, MayFail};
ghost use Rattle.snapshot.specs.Pages.{HasChange, IsFirstConflict, IsSorted, NoneInConflict, equal_with, merged_with, taken_with};

use crate::cursor::Cursor;
use crate::fault::MergeError;
use crate::page::page_bytes;
use crate::walk::next_page;
use memory_model::PAGE_SIZE;
use merge3::same_page;
use space_mem::{Mem, Pages};
use std::alloc::{AllocError, Global};

// What a merge does with a page.
#[derive(Drop)]
pub enum Change {
    // Nothing: the child has the snapshot's bytes.
    Same,
    // The child's page takes the place of the parent's, which has the snapshot's bytes and which the parent does not own.
    Taken,
    // They are merged byte by byte.
    Merged,
}

// What a merge finds among the child's dirty pages of a range, each list rising.
#[derive(Drop)]
pub struct Found {
    // The pages to be taken over.
    pub taken: Vec<u32>,
    // Those to be merged byte by byte.
    pub merged: Vec<u32>,
    // Those that have the snapshot's bytes.
    pub equal: Vec<u32>,
}

impl Found {
    // Nothing is found.
    fn none(alloc: Global) -> Found
        ensures taken { result.taken.items ≡ [] }
        ensures merged { result.merged.items ≡ [] }
        ensures equal { result.equal.items ≡ [] }
    {
        Found {
            taken: Vec::new(alloc),
            merged: Vec::new(alloc),
            equal: Vec::new(alloc),
        }
    }

    // A page is found too.
    fn put(&mut self, page: u32, change: Change) -> Result<(), AllocError>
        ensures taken { OnOk result (self.new.taken.items ≡ taken_with change self.old.taken.items page) }
        ensures merged { OnOk result (self.new.merged.items ≡ merged_with change self.old.merged.items page) }
        ensures equal { OnOk result (self.new.equal.items ≡ equal_with change self.old.equal.items page) }
    {
        match change {
            Change::Same => self.equal.push(page)?,
            Change::Taken => self.taken.push(page)?,
            Change::Merged => self.merged.push(page)?,
        }
        Ok(())
    }
}

// What a merge does with a page. The error is the conflict at the least address of the page.
fn change_of(
    parent: &Mem,
    child: &Mem,
    snapshot: &Mem,
    page: u32,
    agree: bool,
) -> Result<Change, MergeError>
    requires { page < pages }
    ensures change { IfOk result (λ change. HasChange parent.now child.now.memory snapshot.now.memory page change) }
    ensures sure { OnOk result (NoneInConflict agree snapshot.now.memory child.now.memory parent.now.memory (page_size * page) (page_size * (page + 1))) }
    ensures conflict { IfErr result (IsConflictAt (IsFirstConflict agree snapshot.now.memory child.now.memory parent.now.memory page)) }
{
    let before = page_bytes(snapshot, page);
    let written = page_bytes(child, page);
    if same_page(before, written) {
        return Ok(Change::Same);
    }
    let current = page_bytes(parent, page);
    if same_page(before, current) {
        if parent.owns(page) {
            return Ok(Change::Merged);
        }
        return Ok(Change::Taken);
    }
    match merge3::first_conflict(before, written, current, agree) {
        None => Ok(Change::Merged),
        Some(offset) => {
            let addr = PAGE_SIZE * page + u32::from(offset);
            Err(MergeError::Conflict { addr })
        }
    }
}

// What a merge does with the pages of a range; the child's dirty pages alone are looked at, and no byte is written. The error is the conflict at
// the least address of the range, or want of memory.
pub fn find_changes(
    parent: &Mem,
    child: &Mem,
    snapshot: &Mem,
    range: Pages,
    agree: bool,
) -> Result<Found, MergeError>
    requires covers { Covers child.now snapshot.now.memory }
    ensures sorted { IfOk result (λ found. IsSorted parent.now child.now snapshot.now.memory range.first (range.first + range.count) (range.first + range.count) found) }
    ensures sure { OnOk result (NoneInConflict agree snapshot.now.memory child.now.memory parent.now.memory (page_size * range.first) (page_size * (range.first + range.count))) }
    ensures conflict { IfErr result (MayFail (first_conflict agree snapshot.now.memory child.now.memory parent.now.memory range.first range.count)) }
{
    let end = range.first + range.count;
    let mut found = Found::none(parent.allocator());
    let mut child_cursor = Cursor::over(child);
    let mut snapshot_cursor = Cursor::over(snapshot);
    let mut from = range.first;
    while let Some(page) = next_page(&mut child_cursor, &mut snapshot_cursor, from, end) {
        let change = change_of(parent, child, snapshot, page, agree)?;
        found.put(page, change)?;
        from = page + 1;
    }
    Ok(found)
}
