ghost use Rattle.std.specs.Prelude.{◌≡◌, ℕ, OnOk, OnErr, IfErr, None, false, true};
ghost use Rattle.memory_model.specs.Memory.{Memory};
ghost use Rattle.merge_model.specs.Merge.{first_conflict, with_merge};
ghost use Rattle.call_model.specs.Options as options_of;
ghost use Rattle.call_model.specs.Accepted.{IsTransfer};
ghost use Rattle.space_model.specs.Part.{destination_page, page_count, caller_after};
ghost use Rattle.space_mem.specs.Held.{Covers, Marks, Owns};
ghost use Rattle.snapshot.specs.Faults.{MayFail};
ghost use Rattle.put_get.specs.Meetings.{get_conflict, MayStop};
ghost use Rattle.put_get.specs.Ranges.{merged, permitted, told};

use crate::options::{has_agree, has_perm, permission};
use crate::ranges::destination;
use crate::telling::{change_and_tell, own_block, tell};
use snapshot::{MergeError, merge, merge_and_permit};
use space_tree::{Mem, Top};
use std::alloc::AllocError;
use trap_ret::{Transfer, write_block};

// Merge, and Perm where it is asked for: what the child has changed in the destination's range goes into a memory, all or nothing. Pages that
// it owned stay owned.
#[tactic(auto, using(crate::proofs::Places::merged_pages, crate::proofs::Parts::unpermitted))]
fn merge_range(
    x: &Transfer,
    child: &mut Mem,
    snapshot: &Mem,
    memory: &mut Mem,
) -> Result<(), MergeError>
    requires transfer { IsTransfer x.now }
    requires merges { options_of.has options_of.merging x.now.options ≡ true }
    requires covers { Covers child.old snapshot.now.memory }
    ensures ok { OnOk result (memory.new.memory ≡ permitted x.now (with_merge snapshot.now.memory child.old.memory memory.old.memory (destination_page x.now) (page_count x.now))) }
    ensures sure { OnOk result (first_conflict (options_of.has options_of.agreeing x.now.options) snapshot.now.memory child.old.memory memory.old.memory (destination_page x.now) (page_count x.now) ≡ None) }
    ensures conflict { IfErr result (MayFail (first_conflict (options_of.has options_of.agreeing x.now.options) snapshot.now.memory child.old.memory memory.old.memory (destination_page x.now) (page_count x.now))) }
    ensures err { OnErr result (memory.new.memory ≡ memory.old.memory) }
    ensures marks { Marks memory.old memory.new }
    ensures stays { (page : ℕ) → Owns memory.old page → Owns memory.new page }
    ensures same { child.new.memory ≡ child.old.memory }
    ensures covers { Covers child.new snapshot.now.memory }
{
    let range = destination(x);
    if has_perm(x) {
        return merge_and_permit(memory, child, snapshot, range, has_agree(x), permission(x));
    }
    merge(memory, child, snapshot, range, has_agree(x))
}

// Merge, and Perm and Regs where they are asked for, all or nothing. The block's pages are owned before: a merge leaves them owned, and what is
// written there needs no memory.
#[tactic(auto, using(space_mem::proofs::Dirty::marks_then))]
fn merge_pages(
    x: &Transfer,
    child: &mut Mem,
    snapshot: &Mem,
    block: &[u8; 136],
    memory: &mut Mem,
) -> Result<(), MergeError>
    requires transfer { IsTransfer x.now }
    requires merges { options_of.has options_of.merging x.now.options ≡ true }
    requires covers { Covers child.old snapshot.now.memory }
    ensures ok { OnOk result (memory.new.memory ≡ told x.now block.now (permitted x.now (with_merge snapshot.now.memory child.old.memory memory.old.memory (destination_page x.now) (page_count x.now)))) }
    ensures sure { OnOk result (first_conflict (options_of.has options_of.agreeing x.now.options) snapshot.now.memory child.old.memory memory.old.memory (destination_page x.now) (page_count x.now) ≡ None) }
    ensures conflict { IfErr result (MayFail (first_conflict (options_of.has options_of.agreeing x.now.options) snapshot.now.memory child.old.memory memory.old.memory (destination_page x.now) (page_count x.now))) }
    ensures err { OnErr result (memory.new.memory ≡ memory.old.memory) }
    ensures marks { Marks memory.old memory.new }
    ensures same { child.new.memory ≡ child.old.memory }
    ensures covers { Covers child.new snapshot.now.memory }
{
    own_block(x, memory)?;
    merge_range(x, child, snapshot, memory)?;
    tell(x, block, memory)?;
    Ok(())
}

// A Get without Merge, or of a child that has no snapshot. At an error the caller is as it was.
#[tactic(auto, using(crate::proofs::Parts::received, space_mem::proofs::Dirty::covers_in_after))]
pub fn receive(x: &Transfer, child: &Top, caller: &mut Top) -> Result<(), AllocError>
    requires transfer { IsTransfer x.now }
    requires none { (m : Memory) → merged x.now child.now.snapshot child.now.memory m ≡ m }
    ensures ok { OnOk result (caller.new ≡ caller_after x.now child.now caller.old) }
    ensures err { OnErr result (caller.new ≡ caller.old) }
{
    let block = write_block(&child.block());
    change_and_tell(x, &child.memory, &block, &mut caller.memory)
}

// A Get with Merge. At an error the caller is as it was. So is the child: pages that are found to be as in its snapshot are clean then.
#[tactic(auto, using(crate::proofs::Parts::joined, space_mem::proofs::Dirty::covers_in_after))]
pub fn join(x: &Transfer, child: &mut Top, caller: &mut Top) -> Result<(), MergeError>
    requires transfer { IsTransfer x.now }
    requires merges { options_of.has options_of.merging x.now.options ≡ true }
    ensures ok { OnOk result (caller.new ≡ caller_after x.now child.old caller.old) }
    ensures sure { OnOk result (get_conflict x.now caller.old child.old ≡ None) }
    ensures conflict { IfErr result (MayStop (get_conflict x.now caller.old child.old)) }
    ensures err { OnErr result (caller.new ≡ caller.old) }
    ensures same { child.new ≡ child.old }
{
    let block = write_block(&child.block());
    match &child.snapshot {
        Some(snapshot) => merge_pages(x, &mut child.memory, snapshot, &block, &mut caller.memory),
        None => Ok(receive(x, child, caller)?),
    }
}
