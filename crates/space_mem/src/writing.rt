ghost use Rattle.std.specs.Prelude.{◌≡◌, ℕ, ◌+◌, ◌*◌, ◌/◌, ◌%◌, ◌<◌, ◌≤◌, IfOk, OnOk, OnErr, IsOk, IsTrue, IsFalse, length, if◌then◌else◌, true};
ghost use Rattle.memory_model.specs.Memory.{may_write, width_bytes, with_bytes, with_number};
ghost use Rattle.memory_model.specs.Sizes.{page_size, pages};
ghost use Rattle.page_store.specs.Bytes.{with_number_in};
ghost use Rattle.space_mem.specs.Held.{Marks, Owns, with_stored};
ghost use Rattle.space_mem.specs.Tables.{IsTable, held_of, memory_of};

use crate::table::PageTable;
use memory_model::{PAGE_SIZE, Width};
use page_store::may_write;
use std::alloc::AllocError;

impl PageTable {
    // Stores at an aligned address whose page may be written, and tells whether it may be.
    #[inline(always)]
    pub fn try_store(&mut self, at: u32, width: Width, value: u32) -> Result<bool, AllocError>
        requires table { IsTable self.old }
        requires aligned { at % width_bytes width ≡ 0 }
        ensures table { IsTable self.new }
        ensures allowed { IfOk result (λ stored. stored ≡ may_write (memory_of self.old.pages) at) }
        ensures ok { IfOk result (λ stored. held_of self.new ≡ (if stored then with_stored (held_of self.old) at width value else held_of self.old)) }
        ensures err { OnErr result (held_of self.new ≡ held_of self.old) }
        ensures wanted { OnErr result (IsTrue (may_write (memory_of self.old.pages) at)) }
        ensures idle { Owns (held_of self.old) (at / page_size) → IsOk result }
        ensures marks { Marks (held_of self.old) (held_of self.new) }
    {
        if self.write_at_once(at, width, value) {
            return Ok(true);
        }
        self.try_store_slow(at, width, value)
    }

    // Stores at an aligned address whose page is owned and may be written; where it is not, nothing is done.
    #[inline(always)]
    fn write_at_once(&mut self, at: u32, width: Width, value: u32) -> bool
        requires table { IsTable self.old }
        requires aligned { at % width_bytes width ≡ 0 }
        ensures table { IsTable self.new }
        ensures done { IsTrue result → held_of self.new ≡ with_stored (held_of self.old) at width value }
        ensures allowed { IsTrue result → IsTrue (may_write (memory_of self.old.pages) at) }
        ensures undone { IsFalse result → self.new ≡ self.old }
    {
        self.pages.try_write(
            (at / PAGE_SIZE) as usize,
            (at % PAGE_SIZE) as u16,
            width,
            value,
        )
    }

    #[inline(never)]
    fn try_store_slow(&mut self, at: u32, width: Width, value: u32) -> Result<bool, AllocError>
        requires table { IsTable self.old }
        requires aligned { at % width_bytes width ≡ 0 }
        ensures table { IsTable self.new }
        ensures allowed { IfOk result (λ stored. stored ≡ may_write (memory_of self.old.pages) at) }
        ensures ok { IfOk result (λ stored. held_of self.new ≡ (if stored then with_stored (held_of self.old) at width value else held_of self.old)) }
        ensures err { OnErr result (held_of self.new ≡ held_of self.old) }
        ensures wanted { OnErr result (IsTrue (may_write (memory_of self.old.pages) at)) }
        ensures idle { Owns (held_of self.old) (at / page_size) → IsOk result }
        ensures marks { Marks (held_of self.old) (held_of self.new) }
    {
        if !may_write(self.permission(at / PAGE_SIZE)) {
            return Ok(false);
        }
        self.store(at, width, value)?;
        Ok(true)
    }

    // Stores at an aligned address, whatever the permission of its page.
    pub fn store(&mut self, at: u32, width: Width, value: u32) -> Result<(), AllocError>
        requires table { IsTable self.old }
        requires aligned { at % width_bytes width ≡ 0 }
        ensures table { IsTable self.new }
        ensures ok { OnOk result (held_of self.new ≡ with_stored (held_of self.old) at width value) }
        ensures err { OnErr result (held_of self.new ≡ held_of self.old) }
        ensures idle { Owns (held_of self.old) (at / page_size) → IsOk result }
        ensures marks { Marks (held_of self.old) (held_of self.new) }
    {
        self.own_page(at / PAGE_SIZE)?;
        self.write_number(at, width, value);
        Ok(())
    }

    // Writes the lowest `width` bytes of `value` at an aligned address of an owned page.
    fn write_number(&mut self, at: u32, width: Width, value: u32)
        requires table { IsTable self.old }
        requires aligned { at % width_bytes width ≡ 0 }
        requires owned { Owns (held_of self.old) (at / page_size) }
        ensures table { IsTable self.new }
        ensures held { held_of self.new ≡ record (held_of self.old) { memory = with_number (memory_of self.old.pages) at width value } }
        ensures marks { Marks (held_of self.old) (held_of self.new) }
    {
        let page = (at / PAGE_SIZE) as usize;
        match self.pages.replace(page, None) {
            Some(mut kept) => {
                kept.write_own_number((at % PAGE_SIZE) as u16, width, value);
                let _whole = kept.bytes();
                self.pages.replace(page, Some(kept));
            }
            None => {}
        }
    }

    // Writes bytes from an address of an owned page on that end within the page.
    pub fn write_in_page(&mut self, at: u32, bytes: &[u8])
        requires table { IsTable self.old }
        requires within { at % page_size + length bytes.now ≤ page_size }
        requires owned { Owns (held_of self.old) (at / page_size) }
        ensures table { IsTable self.new }
        ensures held { held_of self.new ≡ record (held_of self.old) { memory = with_bytes (memory_of self.old.pages) at bytes.now } }
        ensures marks { Marks (held_of self.old) (held_of self.new) }
    {
        let page = (at / PAGE_SIZE) as usize;
        match self.pages.replace(page, None) {
            Some(mut kept) => {
                kept.write_own_bytes((at % PAGE_SIZE) as u16, bytes);
                let _whole = kept.bytes();
                self.pages.replace(page, Some(kept));
            }
            None => {}
        }
    }
}
