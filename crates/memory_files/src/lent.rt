ghost use Rattle.memory_files.specs.Slots.{HasBytes};

use space_mem::Mem;

// A memory that is read.
#[derive(Drop)]
pub(crate) struct Lent<'a> {
    pub(crate) memory: &'a Mem,
    pub(crate) ghost small: { HasBytes memory.now.memory },
}
