ghost use Rattle.std.specs.Prelude.{◌≡◌, ℕ, ◌+◌, ◌≤◌, OnOk, OnErr, true};
ghost use Rattle.memory_model.specs.Ranges.{with_copies, with_zeros};
ghost use Rattle.memory_model.specs.Sizes.{pages};
ghost use Rattle.call_model.specs.Options as options_of;
ghost use Rattle.call_model.specs.Accepted.{IsTransfer};
ghost use Rattle.space_model.specs.Part.{with_parts, source_page, destination_page, page_count};
ghost use Rattle.space_mem.specs.Held.{KeepsMarks, KeepsMarksOutside, Marks};
ghost use Rattle.put_get.specs.Ranges.{IsLeft, permitted, ranged, range_parts};

use crate::options::{has_copy, has_perm, has_zero, permission};
use memory_model::PAGE_SIZE;
use space_tree::{Mem, Pages, Space, Top};
use std::alloc::AllocError;
use trap_ret::Transfer;

// The pages of the destination's range.
pub fn destination(x: &Transfer) -> Pages
    requires { destination_page x.now + page_count x.now ≤ pages }
    ensures first { result.first ≡ destination_page x.now }
    ensures count { result.count ≡ page_count x.now }
{
    Pages {
        first: x.destination / PAGE_SIZE,
        count: x.size / PAGE_SIZE,
    }
}

// The pages of the source's range.
fn source(x: &Transfer) -> Pages
    requires { source_page x.now + page_count x.now ≤ pages }
    ensures first { result.first ≡ source_page x.now }
    ensures count { result.count ≡ page_count x.now }
{
    Pages {
        first: x.source / PAGE_SIZE,
        count: x.size / PAGE_SIZE,
    }
}

// The pages of the source's range become ones that can be shared, where Copy is asked for, so that it shares them. The space is as it was.
#[tactic(auto, using(crate::proofs::Places::source_pages, space_mem::proofs::Dirty::covers_in_same))]
pub fn share(x: &Transfer, space: &mut Space) -> Result<(), AllocError>
    requires { IsTransfer x.now }
    ensures same { space.new ≡ space.old }
{
    if !has_copy(x) {
        return Ok(());
    }
    space.top.memory.freeze_range(source(x))
}

// Zero, and Perm where it is asked for: the bytes of the destination's range become 0. At an error nothing is changed.
#[tactic(auto, using(crate::proofs::Places::zeroed_pages))]
fn zero(x: &Transfer, memory: &mut Mem) -> Result<(), AllocError>
    requires transfer { IsTransfer x.now }
    requires zeroes { options_of.has options_of.zeroing x.now.options ≡ true }
    ensures ok { OnOk result (memory.new.memory ≡ permitted x.now (with_zeros memory.old.memory (destination_page x.now) (page_count x.now))) }
    ensures err { OnErr result (memory.new ≡ memory.old) }
    ensures outside { KeepsMarksOutside (destination_page x.now) (destination_page x.now + page_count x.now) memory.old memory.new }
    ensures marks { Marks memory.old memory.new }
{
    if has_perm(x) {
        return memory.zero_and_permit(destination(x), permission(x));
    }
    memory.zero(destination(x))
}

// Copy, and Perm where it is asked for: the destination's range becomes the source's. At an error nothing is changed.
#[tactic(auto, using(crate::proofs::Places::copied_pages, crate::proofs::Places::source_pages))]
fn copy(x: &Transfer, source: &Mem, memory: &mut Mem) -> Result<(), AllocError>
    requires transfer { IsTransfer x.now }
    requires copies { options_of.has options_of.copy x.now.options ≡ true }
    ensures ok { OnOk result (memory.new.memory ≡ permitted x.now (with_copies memory.old.memory source.now.memory (source_page x.now) (destination_page x.now) (page_count x.now))) }
    ensures err { OnErr result (memory.new ≡ memory.old) }
    ensures outside { KeepsMarksOutside (destination_page x.now) (destination_page x.now + page_count x.now) memory.old memory.new }
    ensures marks { Marks memory.old memory.new }
{
    let from = x.source / PAGE_SIZE;
    if has_perm(x) {
        return memory.copy_and_permit(source, from, destination(x), permission(x));
    }
    memory.copy_from(source, from, destination(x))
}

// Perm: the destination's range gets the permission, where that is asked for. At an error nothing is changed.
#[tactic(auto, using(crate::proofs::Places::permitted_pages, space_mem::proofs::Dirty::marks_refl))]
pub fn permit(x: &Transfer, memory: &mut Mem) -> Result<(), AllocError>
    requires { IsTransfer x.now }
    ensures ok { OnOk result (memory.new ≡ record memory.old { memory = permitted x.now memory.old.memory }) }
    ensures err { OnErr result (memory.new ≡ memory.old) }
    ensures marks { Marks memory.old memory.new }
{
    if !has_perm(x) {
        return Ok(());
    }
    memory.set_perm(destination(x), permission(x))
}

// Zero or Copy, and then Perm, where they are asked for, of a memory, all or nothing: one of Zero and Copy at most is asked for, and Perm is
// one call with it. Which pages are owned and dirty stays beside the range, and everywhere where neither is asked for.
pub fn change_pages(x: &Transfer, source: &Mem, memory: &mut Mem) -> Result<(), AllocError>
    requires { IsTransfer x.now }
    ensures ok { OnOk result (memory.new.memory ≡ ranged x.now source.now.memory memory.old.memory) }
    ensures err { OnErr result (memory.new ≡ memory.old) }
    ensures left { (page : ℕ) → IsLeft x.now page → KeepsMarks memory.old memory.new page }
    ensures marks { Marks memory.old memory.new }
{
    if has_zero(x) {
        return zero(x, memory);
    }
    if has_copy(x) {
        return copy(x, source, memory);
    }
    permit(x, memory)
}

// As `change_pages`, of a space that takes from another.
#[tactic(auto, using(crate::proofs::Parts::range_changed, space_mem::proofs::Dirty::covers_in_after))]
pub fn change_range(x: &Transfer, source: &Top, top: &mut Top) -> Result<(), AllocError>
    requires { IsTransfer x.now }
    ensures ok { OnOk result (top.new ≡ with_parts x.now.options (range_parts x.now source.now.memory) top.old) }
    ensures err { OnErr result (top.new ≡ top.old) }
{
    change_pages(x, &source.memory, &mut top.memory)
}
