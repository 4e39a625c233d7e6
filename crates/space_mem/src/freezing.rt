ghost use Rattle.std.specs.Prelude.{◌≡◌, ℕ, ◌+◌, ◌<◌, ◌≤◌, OnOk, false, true};
ghost use Rattle.memory_model.specs.Sizes.{pages};
ghost use Rattle.memory_model.specs.Sparse.{value_at};
ghost use Rattle.page_tree.specs.TreeRefs.{root_own};
ghost use Rattle.space_mem.specs.Held.{Owns};
ghost use Rattle.space_mem.specs.Tables.{IsTable, memory_of};

use crate::layout::Pages;
use crate::memory::Mem;
use crate::table::PageTable;
use std::alloc::AllocError;

impl Mem {
    /// Makes each page of a range that is kept one that can be shared: bytes and permissions stay, and which pages are dirty; no page of
    /// the range is owned then, and no other that was not. The one error is want of memory.
    pub fn freeze_range(&mut self, range: Pages) -> Result<(), AllocError>
        ensures same { self.new.memory ≡ self.old.memory }
        ensures dirty { self.new.dirty ≡ self.old.dirty }
        ensures none { OnOk result ((page : ℕ) → range.first ≤ page → page < range.first + range.count → value_at self.new.owned page ≡ 0) }
        ensures less { (page : ℕ) → Owns self.new page → Owns self.old page }
    {
        self.table
            .freeze_range(range.first, range.first + range.count)
    }
}

impl PageTable {
    // Makes each page that is kept, from `first` to before `end`, one that can be shared. At an error some of them are.
    pub fn freeze_range(&mut self, first: u32, end: u32) -> Result<(), AllocError>
        requires table { IsTable self.old }
        requires within { end ≤ pages }
        ensures table { IsTable self.new }
        ensures same { memory_of self.new.pages ≡ memory_of self.old.pages }
        ensures dirty { self.new.dirty ≡ self.old.dirty }
        ensures none { OnOk result ((p : ℕ) → first ≤ p → p < end → root_own self.new.pages p ≡ false) }
        ensures less { (p : ℕ) → p < pages → root_own self.new.pages p ≡ true → root_own self.old.pages p ≡ true }
    {
        if first >= end {
            return Ok(());
        }
        self.pages
            .freeze_range(first as usize, end as usize, self.alloc)
    }
}
