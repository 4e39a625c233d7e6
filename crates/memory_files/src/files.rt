ghost use Rattle.std.specs.Prelude.{◌≡◌};
ghost use Rattle.space_model.specs.Files.{file_bytes};
ghost use Rattle.memory_files.specs.Files.{held_in, is_taken, has_taken_header, spared_of, KeepsFiles};

use crate::lent::Lent;
use crate::runs::{lent_run, read_run};
use crate::slots::{FIRST_ADDRESS, Slots};
use file_image::FileBytes;
use space_mem::Mem;

// The files of a memory: those of one that is lent are read, those of one that was taken are written, too.
#[derive(Drop)]
pub(crate) enum Files<'a> {
    Lent(Lent<'a>),
    Taken(Slots),
}

impl<'a> Files<'a> {
    pub(crate) fn new(memory: &'a Mem) -> Files<'a>
        ensures { held_in result ≡ memory.now }
    {
        memory.bounds();
        Files::Lent(Lent { memory })
    }
}

impl FileBytes for Files<'_> {
    ghost use Rattle.memory_files.specs.FileLaws as laws;

    ghost bytes = { λ s. let h = held_in s in file_bytes h.memory };

    ghost is_ready = { is_taken };

    ghost has_header = { has_taken_header };

    ghost spared = { spared_of };

    ghost keeps = { KeepsFiles };

    fn byte(&self, offset: u32) -> u8 {
        match self {
            Files::Lent(lent) => lent.memory.byte(FIRST_ADDRESS + offset),
            Files::Taken(slots) => slots.byte(offset),
        }
    }

    fn set(&mut self, offset: u32, value: u8) {
        match self {
            Files::Lent(_) => {}
            Files::Taken(slots) => slots.set(offset, value),
        }
    }

    fn read_run(&self, offset: u32, out: &mut [u8]) {
        match self {
            Files::Lent(lent) => read_run(lent.memory, offset, out),
            Files::Taken(slots) => slots.read_run(offset, out),
        }
    }

    fn lent_run(&self, offset: u32, count: u32) -> Option<&[u8]> {
        match self {
            Files::Lent(lent) => lent_run(lent.memory, offset, count),
            Files::Taken(slots) => slots.lent_run(offset, count),
        }
    }

    fn write_run(&mut self, offset: u32, run: &[u8]) {
        match self {
            Files::Lent(_) => {}
            Files::Taken(slots) => slots.write_run(offset, run),
        }
    }

    fn spare(&self, slot: u32) -> u32 {
        match self {
            Files::Lent(_) => 0,
            Files::Taken(slots) => slots.spare(slot),
        }
    }

    fn ready(&self, slot: u32) -> bool {
        match self {
            Files::Lent(_) => false,
            Files::Taken(slots) => slots.ready(slot),
        }
    }

    ghost small = { λ s a. laws.small s a };

    ghost keeps_itself = { laws.keeps_itself };

    ghost keeps_on = { laws.keeps_on };

    ghost ready_on = { laws.ready_on };

    ghost header_on = { laws.header_on };

    ghost spared_on = { laws.spared_on };

    ghost spared_stays = { λ s t k i. laws.spared_stays s t k i };

    ghost header_ready = { laws.header_ready };
}
