ghost use Rattle.std.specs.Prelude.{◌≡◌, ℕ, ◌+◌, ◌/◌, ◌%◌, ◌<◌, ◌≤◌, length, IfSome};
ghost use Rattle.file_model.specs.Sizes.{all_slots_size};
ghost use Rattle.file_model.specs.Slots as slots;
ghost use Rattle.memory_model.specs.Memory.{bytes_from, with_byte, with_bytes};
ghost use Rattle.memory_model.specs.Sizes.{page_size};
ghost use Rattle.space_mem.specs.Held.{Marks, Owns, with_written};
ghost use Rattle.space_model.specs.Files.{file_bytes};
ghost use Rattle.memory_files.specs.Slots.{HasBytes};

use crate::slots::FIRST_ADDRESS;
use memory_model::PAGE_SIZE;
use space_mem::Mem;

// Copies the bytes at the addresses from one on. They stand in one page.
fn copy_run(memory: &Mem, at: u32, out: &mut [u8])
    requires { at % page_size + length out.old ≤ page_size }
    ensures { out.new ≡ bytes_from memory.now.memory at (length out.old) }
{
    let place = (at % PAGE_SIZE) as usize;
    match memory.page(at / PAGE_SIZE) {
        Some(page) => out.copy_from_slice(&page.bytes()[place..place + out.len()]),
        None => out.fill(0),
    }
}

// Copies the bytes of the slots of files from an offset on. They stand in one page.
pub(crate) fn read_run(memory: &Mem, offset: u32, out: &mut [u8])
    requires within { offset < all_slots_size }
    requires page { offset % page_size + length out.old ≤ page_size }
    ensures { out.new ≡ slots.bytes_from (file_bytes memory.now.memory) offset (length out.old) }
{
    copy_run(memory, FIRST_ADDRESS + offset, out);
}

// So many bytes of the slots of files from an offset on, as the page keeps them; none where none are kept. They stand in one page.
pub(crate) fn lent_run(memory: &Mem, offset: u32, count: u32) -> Option<&[u8]>
    requires within { offset < all_slots_size }
    requires page { offset % page_size + count ≤ page_size }
    ensures { IfSome result (λ run. run.now ≡ slots.bytes_from (file_bytes memory.now.memory) offset count) }
{
    memory.lent(FIRST_ADDRESS + offset, count)
}

// Writes a byte of a page that is owned.
pub(crate) fn write_byte(memory: &mut Mem, at: u32, value: u8)
    requires { Owns memory.old (at / page_size) }
    ensures written { memory.new ≡ with_written memory.old at value }
    ensures in_place { memory.new ≡ record memory.old { memory = with_byte memory.old.memory at value } }
    ensures small { HasBytes memory.new.memory }
    ensures marks { Marks memory.old memory.new }
{
    match memory.write(at, value) {
        Ok(()) => {}
        Err(_) => {}
    }
    memory.bounds();
}

// Writes the bytes at the addresses from one on. They stand in one page, which is owned.
pub(crate) fn write_run(memory: &mut Mem, at: u32, run: &[u8])
    requires owned { Owns memory.old (at / page_size) }
    requires page { at % page_size + length run.now ≤ page_size }
    ensures memory { memory.new ≡ record memory.old { memory = with_bytes memory.old.memory at run.now } }
    ensures small { HasBytes memory.new.memory }
    ensures marks { Marks memory.old memory.new }
{
    match memory.write_bytes(at, run) {
        Ok(()) => {}
        Err(_) => {}
    }
    memory.bounds();
}
