ghost use Rattle.memory_model.specs.Ranges.{IsPageOf};

use memory_model::PAGE_SIZE;
use space_mem::Mem;

pub const SIZE: usize = PAGE_SIZE as usize;

const ZEROS: [u8; SIZE] = [0; SIZE];

// The bytes of a page.
pub fn page_bytes(memory: &Mem, page: u32) -> &[u8; SIZE]
    ensures { IsPageOf memory.now.memory page result.now }
{
    match memory.page(page) {
        Some(bytes) => bytes.bytes(),
        None => &ZEROS,
    }
}
