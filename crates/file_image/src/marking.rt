ghost use Rattle.std.specs.Prelude.{◌≡◌, ℕ, ◌/◌, ◌<◌, ◌&&◌, cond, not, length, List, Option, slice_index, slice_index_or, false, IfSome};
ghost use Rattle.file_model.specs.Sizes.{slot_count, content_offset};
ghost use Rattle.file_model.specs.File.{File};
ghost use Rattle.file_model.specs.Slots.{slots_of, slot_start, is_in_use};
ghost use Rattle.file_model.specs.Operations.{entry_of, lowest_free};
ghost use Rattle.file_model.specs.Reconcile as reconciling;
ghost use Rattle.file_image.specs.Lookup.{file_in, optional_entry, HasFile};
ghost use Rattle.file_image.specs.Marks.{slot_of, with_mark, AreInUse, Follows};
ghost use Rattle.file_image.specs.Spared.{AtEachTurn, IsSparedTurn, content_from, is_taken, spared_in, with_number};

use crate::fields::{base, length, version};
use crate::file_bytes::FileBytes;
use crate::header::{PAGE_SIZE, SLOTS};
use crate::lookup::is_free;
use crate::reconciling::{find_same, is_changed};

// Whether a slot is neither in use nor marked.
fn is_unmarked<P: FileBytes>(parent: &P, marks: &[bool; 64], slot: u32) -> bool
    requires { slot < slot_count }
    ensures { result ≡ (not (is_in_use (P.bytes parent.now) (slot_start slot)) && not (slice_index_or marks.now slot false)) }
{
    is_free(parent, slot) && !marks[slot as usize]
}

// The lowest slot that is neither in use nor marked.
fn lowest_unmarked<P: FileBytes>(parent: &P, marks: &[bool; 64]) -> Option<u32>
    ensures slot { (s : List (Option File)) → AreInUse s (P.bytes parent.now) marks.now → result ≡ lowest_free s }
    ensures within { IfSome result (λ k. k < slot_count) }
{
    for slot in 0..SLOTS {
        if is_unmarked(parent, marks, slot) {
            return Some(slot);
        }
    }
    None
}

// The parent's slot that a file is written to, by the slot of its name, where those that were written before are marked.
fn target<P: FileBytes>(parent: &P, same: Option<u32>, marks: &[bool; 64]) -> Option<u32>
    requires { IfSome same (λ k. k < slot_count) }
    ensures slot { (c : File) (s : List (Option File)) → entry_of (slots_of (P.bytes parent.now)) c.name ≡ optional_entry (P.bytes parent.now) same → Follows (P.bytes parent.now) marks.now c.name s → result ≡ slot_of (reconciling.against c (entry_of s c.name) s) }
    ensures within { IfSome result (λ k. k < slot_count) }
{
    match same {
        Some(to) => Some(to),
        None => lowest_unmarked(parent, marks),
    }
}

// How many pages the content of a child's file covers whole.
fn whole_pages<C: FileBytes>(child: &C, slot: u32) -> u32
    requires { slot < slot_count }
    ensures { result ≡ length (file_in (C.bytes child.now) slot).content / content_offset }
{
    length(child, slot) / PAGE_SIZE
}

// How many pages of a child's file its parent takes whole, by the slot of its name: none where both have changed it.
fn taken_pages<P: FileBytes, C: FileBytes>(
    parent: &P,
    same: Option<u32>,
    child: &C,
    slot: u32,
) -> u32
    requires slot { HasFile (C.bytes child.now) slot }
    requires same { IfSome same (λ k. HasFile (P.bytes parent.now) k) }
    ensures whole { result ≡ cond (is_taken (file_in (C.bytes child.now) slot) (optional_entry (P.bytes parent.now) same)) (length (file_in (C.bytes child.now) slot).content / content_offset) 0 }
    ensures few { result < 16 }
{
    match same {
        Some(to) => {
            if version(parent, to) == base(child, slot) {
                whole_pages(child, slot)
            } else {
                0
            }
        }
        None => whole_pages(child, slot),
    }
}

/// What `reconcile` writes of a parent's slots, and which pages of a child's it may take whole in place of writing them.
#[derive(Clone, Copy)]
pub struct Plan {
    /// Whether a slot is written.
    pub marks: [bool; 64],
    /// How many pages at the start of a slot's content are those of the child's file; 0 of a slot that is not written.
    pub whole: [u32; 64],
    /// The child's slot of that file.
    pub from: [u32; 64],
}

// Marks a slot, if any, of which so many pages are those of a child's.
fn mark(plan: &mut Plan, to: Option<u32>, slot: u32, whole: u32)
    requires { IfSome to (λ k. k < slot_count) }
    ensures marks { plan.new.marks ≡ with_mark plan.old.marks to }
    ensures whole { plan.new.whole ≡ with_number plan.old.whole to whole }
    ensures from { plan.new.from ≡ with_number plan.old.from to slot }
{
    match to {
        Some(to) => {
            let i = to as usize;
            plan.marks[i] = true;
            plan.whole[i] = whole;
            plan.from[i] = slot;
        }
        None => {}
    }
}

/// The parent's slots that `reconcile` writes, and the pages at the start of each that it may take whole: its turn comes for each of the child's files,
/// and they are the first of the file's content. There are none where both sides have changed the file.
pub fn touched<P: FileBytes, C: FileBytes>(parent: &P, child: &C) -> Plan
    ensures marks { result.marks ≡ reconciling.marks_of (reconciling.reconcile (slots_of (P.bytes parent.now)) (slots_of (C.bytes child.now))).edits }
    ensures whole { AtEachTurn (IsSparedTurn (content_from (C.bytes child.now) result.from) (spared_in result.whole)) (slots_of (P.bytes parent.now)) (reconciling.shown_files (slots_of (C.bytes child.now))) }
    ensures few { (k : ℕ) → slice_index result.whole k < 16 }
    ensures from { (k : ℕ) → slice_index result.from k < slot_count }
    ensures none { (k : ℕ) → slice_index_or result.marks k false ≡ false → slice_index result.whole k ≡ 0 }
{
    let mut plan = Plan {
        marks: [false; 64],
        whole: [0; 64],
        from: [0; 64],
    };
    for slot in 0..SLOTS {
        if !is_changed(child, slot) {
            continue;
        }
        let same = find_same(parent, child, slot);
        let to = target(parent, same, &plan.marks);
        let whole = taken_pages(parent, same, child, slot);
        mark(&mut plan, to, slot, whole);
    }
    plan
}
