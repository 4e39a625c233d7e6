ghost use Rattle.std.specs.Prelude.{◌≡◌, ℕ, ◌+◌, ◌/◌, ◌%◌, ◌<◌, ◌≤◌, true, length};
ghost use Rattle.file_model.specs.Slots.{with_bytes};
ghost use Rattle.file_model.specs.Sizes.{first_address, slot_size, slot_count, all_slots_size, content_offset};
ghost use Rattle.space_model.specs.Files.{file_bytes};
ghost use Rattle.memory_model.specs.Sizes.{page_size};
ghost use Rattle.space_mem.specs.Held.{with_written};
ghost use Rattle.memory_files.specs.Slots.{AreFew, OwnsParts, OwnsSlots, HasBytes, KeepsRest, KeepsSpared, has_slot};
ghost use Rattle.file_image.specs.Spared.{spared_in};

use crate::runs::{read_run, write_byte, write_run};
use file_image::FileBytes;
use memory_model::PAGE_SIZE;
use space_mem::Mem;
use std::mem;

// Where slot 0 begins in a memory.
pub(crate) const FIRST_ADDRESS: u32 = 0xC000_0000;

// The files of a memory, which slots it owns, and of which it owns the page of the header: they may be written without taking memory.
#[derive(Drop)]
pub(crate) struct Slots {
    pub(crate) memory: Mem,
    pub(crate) ready: [bool; 64],
    pub(crate) headers: [bool; 64],
    pub(crate) whole: [u32; 64],
    pub(crate) ghost owned: { OwnsParts memory ready whole },
    pub(crate) ghost headed: { OwnsSlots memory 1 headers },
    pub(crate) ghost within: { (k : ℕ) → has_slot ready k ≡ true → has_slot headers k ≡ true },
    pub(crate) ghost few: { AreFew whole },
    pub(crate) ghost small: { HasBytes memory.memory },
}

impl Slots {
    // Takes a memory that owns these slots out of its place.
    pub(crate) fn take(memory: &mut Mem, slots: [bool; 64]) -> Slots
        requires { OwnsSlots memory.old 16 slots }
        ensures memory { result.memory ≡ memory.old }
        ensures ready { result.ready ≡ slots }
        ensures none { (k : ℕ) → spared_in result.whole k ≡ 0 }
    {
        memory.bounds();
        let none = Mem::new(memory.allocator());
        Slots {
            memory: mem::replace(memory, none),
            ready: slots,
            headers: slots,
            whole: [0; 64],
        }
    }

    // Takes a memory that owns these slots, but for so many pages at the start of the content of each, out of its place.
    pub(crate) fn take_parts(memory: &mut Mem, slots: [bool; 64], whole: [u32; 64]) -> Slots
        requires headed { OwnsSlots memory.old 1 slots }
        requires owned { OwnsParts memory.old slots whole }
        requires few { AreFew whole }
        ensures memory { result.memory ≡ memory.old }
        ensures ready { result.ready ≡ slots }
        ensures whole { result.whole ≡ whole }
    {
        memory.bounds();
        let none = Mem::new(memory.allocator());
        Slots {
            memory: mem::replace(memory, none),
            ready: slots,
            headers: slots,
            whole,
        }
    }

    // Takes a memory that owns the headers of these slots out of its place.
    pub(crate) fn take_headers(memory: &mut Mem, slots: [bool; 64]) -> Slots
        requires { OwnsSlots memory.old 1 slots }
        ensures memory { result.memory ≡ memory.old }
        ensures headers { result.headers ≡ slots }
    {
        memory.bounds();
        let none = Mem::new(memory.allocator());
        Slots {
            memory: mem::replace(memory, none),
            ready: [false; 64],
            headers: slots,
            whole: [0; 64],
        }
    }

    // Puts the memory into its place again.
    pub(crate) fn put_back(self, memory: &mut Mem)
        ensures { memory.new ≡ self.memory }
    {
        let Slots { memory: own, .. } = self;
        *memory = own;
    }

    // Writes a byte of a slot that is ready, or of a header that may be written.
    fn write(&mut self, offset: u32, value: u8)
        requires within { offset < all_slots_size }
        requires header { has_slot self.old.headers (offset / slot_size) ≡ true }
        requires content { content_offset ≤ offset % slot_size → has_slot self.old.ready (offset / slot_size) ≡ true }
        requires beyond { content_offset ≤ offset % slot_size → content_offset + spared_in self.old.whole (offset / slot_size) ≤ offset % slot_size }
        ensures memory { self.new.memory ≡ with_written self.old.memory (first_address + offset) value }
        ensures ready { self.new.ready ≡ self.old.ready }
        ensures headers { self.new.headers ≡ self.old.headers }
        ensures whole { self.new.whole ≡ self.old.whole }
        ensures kept { KeepsRest self.old.memory self.new.memory }
        ensures spared { KeepsSpared self.old.whole self.old.memory.memory self.new.memory.memory }
    {
        write_byte(&mut self.memory, FIRST_ADDRESS + offset, value);
    }

    // Writes bytes of one page of a slot that is ready, or of a header that may be written.
    fn write_all(&mut self, offset: u32, run: &[u8])
        requires within { offset < all_slots_size }
        requires some { 0 < length run.now }
        requires page { offset % page_size + length run.now ≤ page_size }
        requires header { has_slot self.old.headers (offset / slot_size) ≡ true }
        requires content { content_offset ≤ offset % slot_size → has_slot self.old.ready (offset / slot_size) ≡ true }
        requires beyond { content_offset ≤ offset % slot_size → content_offset + spared_in self.old.whole (offset / slot_size) ≤ offset % slot_size }
        ensures bytes { (a : ℕ) → file_bytes self.new.memory.memory a ≡ with_bytes (file_bytes self.old.memory.memory) offset run.now a }
        ensures ready { self.new.ready ≡ self.old.ready }
        ensures headers { self.new.headers ≡ self.old.headers }
        ensures whole { self.new.whole ≡ self.old.whole }
        ensures kept { KeepsRest self.old.memory self.new.memory }
        ensures spared { KeepsSpared self.old.whole self.old.memory.memory self.new.memory.memory }
    {
        write_run(&mut self.memory, FIRST_ADDRESS + offset, run);
    }
}

impl FileBytes for Slots {
    ghost use Rattle.std.proofs.Common.{◌≡◌, ◌∙◌, ap};
    ghost use Rattle.file_image.specs.Spared.{spared_in};
    ghost use Rattle.memory_files.specs.Slots.{KeepsSlots, has_slot};
    ghost use Rattle.memory_files.specs.Laws as laws;

    ghost bytes = { λ s. file_bytes s.memory.memory };

    ghost is_ready = { λ s. has_slot s.ready };

    ghost has_header = { λ s. has_slot s.headers };

    ghost spared = { λ s. spared_in s.whole };

    ghost keeps = { λ s t. KeepsSlots s.memory t.memory s.ready t.ready s.headers t.headers s.whole t.whole };

    fn byte(&self, offset: u32) -> u8 {
        self.memory.byte(FIRST_ADDRESS + offset)
    }

    fn set(&mut self, offset: u32, value: u8) {
        self.write(offset, value);
    }

    fn read_run(&self, offset: u32, out: &mut [u8]) {
        read_run(&self.memory, offset, out);
    }

    fn write_run(&mut self, offset: u32, run: &[u8]) {
        self.write_all(offset, run);
    }

    fn spare(&self, slot: u32) -> u32 {
        PAGE_SIZE * self.whole[slot as usize]
    }

    fn ready(&self, slot: u32) -> bool {
        self.ready[slot as usize]
    }

    ghost small = { λ s a. s.small (first_address + a) };

    ghost keeps_itself = { λ s. laws.slots_keep_themselves s.memory s.ready s.headers s.whole };

    ghost keeps_on = { λ s t u first second. laws.slots_keep_on s.memory t.memory u.memory s.ready t.ready u.ready s.headers t.headers u.headers s.whole t.whole u.whole first second };

    ghost ready_on = { λ s t k kept ready. ap (λ r. has_slot r k) kept.ready ∙ ready };

    ghost header_on = { λ s t k kept header. ap (λ r. has_slot r k) kept.headers ∙ header };

    ghost spared_on = { λ s t k kept. ap (λ w. spared_in w k) kept.whole };

    ghost spared_stays = { λ s t k i kept before. kept.spared k i before };

    ghost header_ready = { λ s k ready. s.within k ready };
}
