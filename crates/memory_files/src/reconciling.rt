ghost use Rattle.std.specs.Prelude.{◌≡◌, ℕ, ◌<◌, All, IfOk, OnErr, OnOk, false, slice_index};
ghost use Rattle.file_model.specs.Sizes.{slot_count};
ghost use Rattle.file_model.specs.Reconcile as reconciling;
ghost use Rattle.file_image.specs.Outcomes.{AreReady};
ghost use Rattle.file_image.specs.Spared.{AtEachTurn, IsSparedTurn, content_from, content_in, spared_in};
ghost use Rattle.space_mem.specs.Held.{KeepsMarks, Marks};
ghost use Rattle.space_model.specs.Files.{file_bytes, files_in, with_files_of, files_left_out};
ghost use Rattle.memory_files.specs.Slots.{AreFew, IsBesideSlot, OwnsParts, OwnsSlots, has_slot};

use crate::basing::are_kept;
use crate::files::Files;
use crate::sharing::{own_planned, take_planned};
use crate::slots::Slots;
use file_image::{Plan, touched};
use space_mem::Mem;
use std::alloc::AllocError;

// What reconciling writes of a parent's slots, and which pages it takes whole from its child's.
fn plan_of(parent: &Mem, child: &Mem) -> Plan
    ensures marks { result.marks ≡ reconciling.marks_of (reconciling.reconcile (files_in parent.now.memory) (files_in child.now.memory)).edits }
    ensures turns { AtEachTurn (IsSparedTurn (content_from (file_bytes child.now.memory) result.from) (spared_in result.whole)) (files_in parent.now.memory) (reconciling.shown_files (files_in child.now.memory)) }
    ensures few { AreFew result.whole }
    ensures from { (k : ℕ) → slice_index result.from k < slot_count }
    ensures none { (k : ℕ) → has_slot result.marks k ≡ false → slice_index result.whole k ≡ 0 }
{
    touched(&Files::new(parent), &Files::new(child))
}

// Takes over what a child changed, in a parent that owns the slots that are written but for the pages that it has taken whole, and counts the files
// that are left out.
#[tactic(auto, unfolding(space_model::specs::Files::with_files_of, space_model::specs::Files::files_left_out))]
fn reconcile_owned(parent: &mut Mem, plan: &Plan, child: &Mem) -> u32
    requires headed { OwnsSlots parent.old 1 plan.now.marks }
    requires owned { OwnsParts parent.old plan.now.marks plan.now.whole }
    requires few { AreFew plan.now.whole }
    requires ready { AreReady (has_slot plan.now.marks) (reconciling.reconcile (files_in parent.old.memory) (files_in child.now.memory)) }
    requires spared { AtEachTurn (IsSparedTurn (content_in (file_bytes parent.old.memory)) (spared_in plan.now.whole)) (files_in parent.old.memory) (reconciling.shown_files (files_in child.now.memory)) }
    ensures memory { parent.new.memory ≡ with_files_of child.now.memory parent.old.memory }
    ensures count { result ≡ files_left_out child.now.memory parent.old.memory }
    ensures kept { (page : ℕ) → KeepsMarks parent.old parent.new page }
    ensures marks { Marks parent.old parent.new }
{
    let mut files = Slots::take_parts(parent, plan.marks, plan.whole);
    let left_out = file_image::reconcile(&mut files, &Files::new(child));
    files.put_back(parent);
    left_out
}

/// Takes over what a child changed in its files since its base, and tells how many of them found no free slot. The one error is want of memory:
/// no byte has changed then, and no permission. A page that is of no slot that is written is owned, and dirty, where it was, also at an error. Each page
/// that the content of a file covers whole which is taken over as it is, is shared with the child, which keeps its bytes and permissions, and
/// which of its pages are dirty.
pub fn reconcile(parent: &mut Mem, child: &mut Mem) -> Result<u32, AllocError>
    ensures ok { OnOk result (parent.new.memory ≡ with_files_of child.old.memory parent.old.memory) }
    ensures count { IfOk result (λ n. n ≡ files_left_out child.old.memory parent.old.memory) }
    ensures err { OnErr result (parent.new.memory ≡ parent.old.memory) }
    ensures kept { (page : ℕ) → All (λ e. IsBesideSlot 16 e.slot page) (reconciling.reconcile (files_in parent.old.memory) (files_in child.old.memory)).edits → KeepsMarks parent.old parent.new page }
    ensures marks { Marks parent.old parent.new }
    ensures same { child.new.memory ≡ child.old.memory }
    ensures dirty { child.new.dirty ≡ child.old.dirty }
{
    if !are_kept(child) {
        return Ok(0);
    }
    let plan = plan_of(parent, child);
    own_planned(parent, &plan)?;
    take_planned(parent, child, &plan)?;
    Ok(reconcile_owned(parent, &plan, child))
}
