ghost use Rattle.std.specs.Prelude.{◌≡◌, ℕ, ◌+◌, ◌<◌, ◌≤◌, IfOk, OnOk, OnErr};
ghost use Rattle.memory_model.specs.Sparse.{no_values, value_at};
ghost use Rattle.memory_model.specs.Sizes.{pages};
ghost use Rattle.space_mem.specs.Held.{Owns};
ghost use Rattle.space_mem.specs.Tables.{IsTable, held_of, memory_of};

use crate::table::PageTable;
use page_marks::PageMarks;
use std::alloc::AllocError;

impl PageTable {
    // Makes each page that is kept one that can be shared. At an error some of them are.
    pub fn freeze(&mut self) -> Result<(), AllocError>
        requires { IsTable self.old }
        ensures table { IsTable self.new }
        ensures same { memory_of self.new.pages ≡ memory_of self.old.pages }
        ensures none { OnOk result ((held_of self.new).owned ≡ no_values) }
        ensures less { (page : ℕ) → Owns (held_of self.new) page → Owns (held_of self.old) page }
        ensures dirty { (held_of self.new).dirty ≡ (held_of self.old).dirty }
    {
        self.pages.freeze(self.alloc)?;
        Ok(())
    }

    // A table of the same pages, which shares all that it can; none of them is dirty. No page is owned.
    pub fn share(&self) -> Result<PageTable, AllocError>
        requires table { IsTable self.now }
        requires none { (held_of self.now).owned ≡ no_values }
        ensures table { IfOk result (λ copy. IsTable copy) }
        ensures held { IfOk result (λ copy. held_of copy ≡ record (held_of self.now) { dirty = no_values }) }
    {
        Ok(PageTable {
            pages: self.pages.share(self.alloc)?,
            dirty: PageMarks::none(),
            alloc: self.alloc,
        })
    }

    // A table of the same pages, of which the same are dirty. No page is owned.
    pub fn share_as_dirty(&mut self) -> Result<PageTable, AllocError>
        requires table { IsTable self.old }
        requires none { (held_of self.old).owned ≡ no_values }
        ensures table { IsTable self.new }
        ensures same { held_of self.new ≡ held_of self.old }
        ensures copy { IfOk result (λ copy. IsTable copy) }
        ensures held { IfOk result (λ copy. held_of copy ≡ held_of self.old) }
    {
        let dirty = self.dirty.share(self.alloc)?;
        Ok(PageTable {
            pages: self.pages.share(self.alloc)?,
            dirty,
            alloc: self.alloc,
        })
    }
}
