ghost use Rattle.std.specs.Prelude.{◌≡◌, ℕ, ◌*◌, ◌+◌, ◌/◌, ◌<◌, ◌≤◌, ◌^◌, ◌||◌, IsOk, OnOk, OnErr, false, true};
ghost use Rattle.memory_model.specs.Sizes.{page_size, pages};
ghost use Rattle.call_model.specs.Options as options_of;
ghost use Rattle.call_model.specs.Accepted.{IsTransfer};
ghost use Rattle.call_model.specs.Limits.{block_size};
ghost use Rattle.space_model.specs.Part.{destination_page, page_count};
ghost use Rattle.space_mem.specs.Held.{Marks};
ghost use Rattle.put_get.specs.Ranges.{IsLeft, OwnsBlock, ranged, told};

use crate::options::{has_copy, has_regs, has_zero};
use crate::ranges::{change_pages, destination};
use memory_model::PAGE_SIZE;
use space_tree::{Mem, Pages};
use std::alloc::AllocError;
use trap_ret::Transfer;
use trap_ret::limits::BLOCK_SIZE;

// The pages of a register block at an address, one or two.
fn block_pages(at: u32) -> Pages
    requires { at + block_size ≤ 2 ^ 32 }
    ensures from { (k : ℕ) → k < block_size → result.first ≤ (at + k) / page_size }
    ensures before { (k : ℕ) → k < block_size → (at + k) / page_size < result.first + result.count }
{
    let first = at / PAGE_SIZE;
    let last = (at + (BLOCK_SIZE - 1)) / PAGE_SIZE;
    Pages {
        first,
        count: last - first + 1,
    }
}

// Regs: the pages of the register block are owned, where it is asked for: what is written there then needs no memory. No byte changes.
#[tactic(auto, using(crate::proofs::Places::block_end, space_mem::proofs::Dirty::marks_refl))]
pub fn own_block(x: &Transfer, memory: &mut Mem) -> Result<(), AllocError>
    requires { IsTransfer x.now }
    ensures same { memory.new.memory ≡ memory.old.memory }
    ensures owned { OnOk result (OwnsBlock x.now memory.new) }
    ensures marks { Marks memory.old memory.new }
{
    if !has_regs(x) {
        return Ok(());
    }
    memory.own(block_pages(x.block))
}

// Regs: the register block is written, where it is asked for, to pages that are owned. It takes no memory.
#[tactic(auto, using(crate::proofs::Places::block_end, space_mem::proofs::Dirty::marks_refl))]
pub fn tell(x: &Transfer, block: &[u8; 136], memory: &mut Mem) -> Result<(), AllocError>
    requires transfer { IsTransfer x.now }
    requires owned { OwnsBlock x.now memory.old }
    ensures ok { OnOk result (memory.new.memory ≡ told x.now block.now memory.old.memory) }
    ensures sure { IsOk result }
    ensures marks { Marks memory.old memory.new }
{
    if !has_regs(x) {
        return Ok(());
    }
    memory.write_bytes(x.block, block)
}

// Whether Zero, Copy and Perm leave the pages of the register block owned where they were: neither Zero nor Copy is asked for, or the block
// lies beside the range.
#[tactic(auto, using(crate::proofs::Places::block_end, crate::proofs::Places::zeroed_pages, crate::proofs::Places::copied_pages))]
fn is_block_left(x: &Transfer) -> bool
    requires transfer { IsTransfer x.now }
    requires writes { options_of.has options_of.regs x.now.options ≡ true }
    ensures left { result ≡ true → (k : ℕ) → k < block_size → IsLeft x.now ((x.now.block + k) / page_size) }
    ensures range { result ≡ false → destination_page x.now + page_count x.now ≤ pages }
{
    if !has_zero(x) && !has_copy(x) {
        return true;
    }
    let block = block_pages(x.block);
    let range = destination(x);
    block.first + block.count <= range.first || range.first + range.count <= block.first
}

// The pages of the destination's range and of the register block, and those between.
#[tactic(auto, using(crate::proofs::Places::block_end))]
fn around(x: &Transfer) -> Pages
    requires transfer { IsTransfer x.now }
    requires writes { options_of.has options_of.regs x.now.options ≡ true }
    requires range { destination_page x.now + page_count x.now ≤ pages }
    ensures first { result.first ≤ destination_page x.now }
    ensures end { destination_page x.now + page_count x.now ≤ result.first + result.count }
    ensures from { page_size * result.first ≤ x.now.block }
    ensures to { x.now.block + block_size ≤ page_size * (result.first + result.count) }
{
    let block = block_pages(x.block);
    let range = destination(x);
    let first = block.first.min(range.first);
    let end = (block.first + block.count).max(range.first + range.count);
    Pages {
        first,
        count: end - first,
    }
}

// Zero or Copy, Perm, and Regs, of a register block that meets the range: the range is made in another memory and then taken over. All or
// nothing: no page beside the range and the block is touched.
#[tactic(auto, using(space_mem::proofs::Dirty::marks_then))]
fn change_around(
    x: &Transfer,
    source: &Mem,
    block: &[u8; 136],
    memory: &mut Mem,
) -> Result<(), AllocError>
    requires transfer { IsTransfer x.now }
    requires writes { options_of.has options_of.regs x.now.options ≡ true }
    requires range { destination_page x.now + page_count x.now ≤ pages }
    ensures ok { OnOk result (memory.new.memory ≡ told x.now block.now (ranged x.now source.now.memory memory.old.memory)) }
    ensures err { OnErr result (memory.new.memory ≡ memory.old.memory) }
    ensures marks { Marks memory.old memory.new }
{
    let pages = around(x);
    memory.freeze_range(pages)?;
    let mut made = Mem::new(memory.allocator());
    made.copy_from(memory, pages.first, pages)?;
    change_pages(x, source, &mut made)?;
    made.write_bytes(x.block, block)?;
    memory.copy_from(&made, pages.first, pages)
}

// Zero or Copy, Perm, and Regs, where they are asked for, of a memory, all or nothing.
#[tactic(auto, using(space_mem::proofs::Dirty::marks_then))]
pub fn change_and_tell(
    x: &Transfer,
    source: &Mem,
    block: &[u8; 136],
    memory: &mut Mem,
) -> Result<(), AllocError>
    requires { IsTransfer x.now }
    ensures ok { OnOk result (memory.new.memory ≡ told x.now block.now (ranged x.now source.now.memory memory.old.memory)) }
    ensures err { OnErr result (memory.new.memory ≡ memory.old.memory) }
    ensures marks { Marks memory.old memory.new }
{
    if has_regs(x) && !is_block_left(x) {
        return change_around(x, source, block, memory);
    }
    own_block(x, memory)?;
    change_pages(x, source, memory)?;
    tell(x, block, memory)
}
