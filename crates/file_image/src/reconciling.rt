ghost use Rattle.std.specs.Prelude.{◌≡◌, ℕ, ◌<◌, ◌≤◌, ◌+◌, true, cond, length, nat_le, IfSome};
ghost use Rattle.file_model.specs.Sizes.{slot_count, greatest_length};
ghost use Rattle.file_model.specs.Slots.{slots_of, with_slot};
ghost use Rattle.file_model.specs.Operations.{entry_of, lowest_free};
ghost use Rattle.file_model.specs.Reconcile as reconciling;
ghost use Rattle.file_image.specs.Lookup.{file_in, HasFile, optional_entry};
ghost use Rattle.file_image.specs.Outcomes.{Happens, IsReadyFor, AreReady, is_changed};
ghost use Rattle.file_image.specs.Spared.{AtEachTurn, HasFirst, IsSparedFor, IsSparedTurn, content_in, is_taken};

use crate::fields::{base, is_append, is_conflicted, is_deleted, length, length_at_base, version};
use crate::file_bytes::FileBytes;
use crate::header::{GREATEST_LENGTH, SLOTS};
use crate::lookup::{find, is_free, lowest_free};
use crate::taking::{add_growth, mark_conflicted, take_file};
use crate::writing::read_header;

// The parent's slot of the file that has the name of a child's.
pub(crate) fn find_same<P: FileBytes, C: FileBytes>(parent: &P, child: &C, slot: u32) -> Option<u32>
    requires { HasFile (C.bytes child.now) slot }
    ensures entry { entry_of (slots_of (P.bytes parent.now)) (file_in (C.bytes child.now) slot).name ≡ optional_entry (P.bytes parent.now) result }
    ensures file { IfSome result (λ k. HasFile (P.bytes parent.now) k) }
{
    let header = read_header(child, slot);
    find(parent, &header.name[..header.name_length as usize])
}

// Whether the file of a slot is that of its name: no lower slot has the name.
fn is_first<C: FileBytes>(child: &C, slot: u32) -> bool
    requires { HasFile (C.bytes child.now) slot }
    ensures { result ≡ reconciling.is_at slot (entry_of (slots_of (C.bytes child.now)) (file_in (C.bytes child.now) slot).name) }
{
    match find_same(child, child, slot) {
        Some(first) => first == slot,
        None => false,
    }
}

// Whether a slot has a file that was changed since its base, and that no lower slot hides.
pub(crate) fn is_changed<C: FileBytes>(child: &C, slot: u32) -> bool
    requires { slot < slot_count }
    ensures changed { result ≡ is_changed (C.bytes child.now) slot }
    ensures file { result ≡ true → HasFile (C.bytes child.now) slot }
{
    if is_free(child, slot) {
        return false;
    }
    version(child, slot) != base(child, slot) && is_first(child, slot)
}

// Whether a file may only have been added to since it had this length.
fn only_grew<B: FileBytes>(bytes: &B, slot: u32, from: u32) -> bool
    requires { slot < slot_count }
    ensures { result ≡ reconciling.only_grew from (file_in (B.bytes bytes.now) slot) }
{
    is_append(bytes, slot)
        && !is_conflicted(bytes, slot)
        && !is_deleted(bytes, slot)
        && from <= length(bytes, slot)
}

// Whether what the child added still fits behind the parent's content.
fn is_joint_short<P: FileBytes, C: FileBytes>(parent: &P, to: u32, child: &C, slot: u32) -> bool
    requires to { HasFile (P.bytes parent.now) to }
    requires slot { HasFile (C.bytes child.now) slot }
    requires grew { (file_in (C.bytes child.now) slot).length_at_base ≤ length (file_in (C.bytes child.now) slot).content }
    ensures { result ≡ nat_le (length (reconciling.joint_content (file_in (C.bytes child.now) slot) (file_in (P.bytes parent.now) to))) greatest_length }
{
    let growth = length(child, slot) - length_at_base(child, slot);
    length(parent, to) + growth <= GREATEST_LENGTH
}

// Whether both only added to the file, and there is room for what they added.
fn are_joinable<P: FileBytes, C: FileBytes>(parent: &P, to: u32, child: &C, slot: u32) -> bool
    requires to { HasFile (P.bytes parent.now) to }
    requires slot { HasFile (C.bytes child.now) slot }
    ensures { result ≡ reconciling.are_joinable (file_in (C.bytes child.now) slot) (file_in (P.bytes parent.now) to) }
{
    let from = length_at_base(child, slot);
    if !only_grew(child, slot, from) {
        return false;
    }
    only_grew(parent, to, from) && is_joint_short(parent, to, child, slot)
}

// The parent's file, after both changed it.
fn reconcile_both<P: FileBytes, C: FileBytes>(parent: &mut P, to: u32, child: &C, slot: u32)
    requires to { HasFile (P.bytes parent.old) to }
    requires slot { HasFile (C.bytes child.now) slot }
    requires ready { P.is_ready parent.old to ≡ true }
    requires all { P.spared parent.old to ≡ 0 }
    ensures bytes { P.bytes parent.new ≡ with_slot (P.bytes parent.old) to (reconciling.after_both (file_in (C.bytes child.now) slot) (file_in (P.bytes parent.old) to)) }
    ensures kept { P.keeps parent.old parent.new }
{
    if are_joinable(parent, to, child, slot) {
        add_growth(parent, to, child, slot);
    } else {
        mark_conflicted(parent, to);
    }
}

// The parent's slot gets the child's file, and keeps its base.
fn take_over<P: FileBytes, C: FileBytes>(parent: &mut P, to: u32, child: &C, slot: u32)
    requires to { HasFile (P.bytes parent.old) to }
    requires slot { HasFile (C.bytes child.now) slot }
    requires ready { P.is_ready parent.old to ≡ true }
    requires spared { HasFirst (content_in (P.bytes parent.old) to) (P.spared parent.old to) (file_in (C.bytes child.now) slot).content }
    ensures bytes { P.bytes parent.new ≡ with_slot (P.bytes parent.old) to (reconciling.child_file (file_in (C.bytes child.now) slot) (file_in (P.bytes parent.old) to).base (file_in (P.bytes parent.old) to).length_at_base) }
    ensures kept { P.keeps parent.old parent.new }
{
    let base = base(parent, to);
    let length = length_at_base(parent, to);
    take_file(parent, to, child, slot, base, length);
}

// The parent's file, where the child changed its own.
fn reconcile_child<P: FileBytes, C: FileBytes>(parent: &mut P, to: u32, child: &C, slot: u32)
    requires to { HasFile (P.bytes parent.old) to }
    requires slot { HasFile (C.bytes child.now) slot }
    requires ready { P.is_ready parent.old to ≡ true }
    requires spared { (file_in (P.bytes parent.old) to).version ≡ (file_in (C.bytes child.now) slot).base → HasFirst (content_in (P.bytes parent.old) to) (P.spared parent.old to) (file_in (C.bytes child.now) slot).content }
    requires all { ((file_in (P.bytes parent.old) to).version ≡ (file_in (C.bytes child.now) slot).base → ⊥) → P.spared parent.old to ≡ 0 }
    ensures bytes { P.bytes parent.new ≡ with_slot (P.bytes parent.old) to (reconciling.after_child (file_in (C.bytes child.now) slot) (file_in (P.bytes parent.old) to)) }
    ensures kept { P.keeps parent.old parent.new }
{
    if version(parent, to) == base(child, slot) {
        take_over(parent, to, child, slot);
    } else {
        reconcile_both(parent, to, child, slot);
    }
}

// A file that the parent lacks comes to the lowest free slot. Answers whether it is left out.
fn take_new<P: FileBytes, C: FileBytes>(parent: &mut P, child: &C, slot: u32) -> bool
    requires slot { HasFile (C.bytes child.now) slot }
    requires ready { IfSome (lowest_free (slots_of (P.bytes parent.old))) (λ k. P.is_ready parent.old k ≡ true) }
    requires spared { IfSome (lowest_free (slots_of (P.bytes parent.old))) (λ k. HasFirst (content_in (P.bytes parent.old) k) (P.spared parent.old k) (file_in (C.bytes child.now) slot).content) }
    ensures happens { Happens (reconciling.arrival (file_in (C.bytes child.now) slot) (lowest_free (slots_of (P.bytes parent.old)))) result (P.bytes parent.old) (P.bytes parent.new) }
    ensures kept { P.keeps parent.old parent.new }
{
    match lowest_free(parent) {
        Some(to) => {
            take_file(parent, to, child, slot, 0, 0);
            false
        }
        None => true,
    }
}

// Reconciles a file that the child changed. Answers whether it is left out.
fn reconcile_changed<P: FileBytes, C: FileBytes>(parent: &mut P, child: &C, slot: u32) -> bool
    requires slot { HasFile (C.bytes child.now) slot }
    requires ready { IsReadyFor (λ k. P.is_ready parent.old k) (reconciling.against (file_in (C.bytes child.now) slot) (entry_of (slots_of (P.bytes parent.old)) (file_in (C.bytes child.now) slot).name) (slots_of (P.bytes parent.old))) }
    requires spared { let o = entry_of (slots_of (P.bytes parent.old)) (file_in (C.bytes child.now) slot).name in IsSparedFor (reconciling.against (file_in (C.bytes child.now) slot) o (slots_of (P.bytes parent.old))) (is_taken (file_in (C.bytes child.now) slot) o) (content_in (P.bytes parent.old)) (P.spared parent.old) (file_in (C.bytes child.now) slot).content }
    ensures happens { Happens (reconciling.against (file_in (C.bytes child.now) slot) (entry_of (slots_of (P.bytes parent.old)) (file_in (C.bytes child.now) slot).name) (slots_of (P.bytes parent.old))) result (P.bytes parent.old) (P.bytes parent.new) }
    ensures kept { P.keeps parent.old parent.new }
{
    match find_same(parent, child, slot) {
        None => take_new(parent, child, slot),
        Some(to) => {
            reconcile_child(parent, to, child, slot);
            false
        }
    }
}

// A count of files, with one more that is left out, or none.
fn count(left_out: u32, is_left_out: bool) -> u32
    requires { left_out < slot_count }
    ensures { result ≡ cond is_left_out 1 0 + left_out }
{
    u32::from(is_left_out) + left_out
}

/// Takes over into a parent's files what its child changed, and counts the files that are left out. The slots that are written are ready;
/// bytes of them that are not written have been taken before.
pub fn reconcile<P: FileBytes, C: FileBytes>(parent: &mut P, child: &C) -> u32
    requires ready { AreReady (λ k. P.is_ready parent.old k) (reconciling.reconcile (slots_of (P.bytes parent.old)) (slots_of (C.bytes child.now))) }
    requires spared { AtEachTurn (IsSparedTurn (content_in (P.bytes parent.old)) (P.spared parent.old)) (slots_of (P.bytes parent.old)) (reconciling.shown_files (slots_of (C.bytes child.now))) }
    ensures bytes { P.bytes parent.new ≡ reconciling.reconciled_bytes (P.bytes parent.old) (C.bytes child.now) }
    ensures left_out { result ≡ (reconciling.reconcile (slots_of (P.bytes parent.old)) (slots_of (C.bytes child.now))).left_out }
    ensures kept { P.keeps parent.old parent.new }
{
    let mut left_out = 0;
    for slot in 0..SLOTS {
        if !is_changed(child, slot) {
            continue;
        }
        let is_left_out = reconcile_changed(parent, child, slot);
        left_out = count(left_out, is_left_out);
    }
    left_out
}
