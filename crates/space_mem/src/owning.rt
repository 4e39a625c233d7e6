ghost use Rattle.std.specs.Prelude.{◌≡◌, ◌↔◌, ℕ, ◌+◌, ◌<◌, ◌≤◌, OnOk, OnErr, IsOk, IsTrue, false, true};
ghost use Rattle.memory_model.specs.Sparse.{no_values, put};
ghost use Rattle.page_tree.specs.TreeRefs.{root_own};
ghost use Rattle.memory_model.specs.Sizes.{pages};
ghost use Rattle.page_marks.specs.Marks.{mark_of};
ghost use Rattle.space_mem.specs.Held.{Marks, Owns, owning, all_pages};
ghost use Rattle.space_mem.specs.Tables.{IsTable, held_of, memory_of};

use crate::table::PageTable;
use page_marks::PageMarks;
use std::alloc::AllocError;

impl PageTable {
    // Whether a page is owned.
    pub fn owns(&self, page: u32) -> bool
        requires { page < pages }
        ensures { IsTrue result ↔ Owns (held_of self.now) page }
    {
        let page = page as usize;
        match self.pages.next_own(page, page + 1) {
            Some(_) => true,
            None => false,
        }
    }

    // Owns a page, which is dirty then. Where the page is owned, it takes no memory and changes nothing.
    pub fn own_page(&mut self, page: u32) -> Result<(), AllocError>
        requires table { IsTable self.old }
        requires page { page < pages }
        ensures table { IsTable self.new }
        ensures ok { OnOk result (held_of self.new ≡ owning (held_of self.old) page (memory_of self.old.pages)) }
        ensures err { OnErr result (held_of self.new ≡ held_of self.old) }
        ensures idle { Owns (held_of self.old) page → IsOk result }
        ensures again { Owns (held_of self.old) page → held_of self.new ≡ held_of self.old }
        ensures marks { Marks (held_of self.old) (held_of self.new) }
    {
        if self.dirty.has(page) {
            self.own_dirty_page(page)
        } else {
            self.own_clean_page(page)
        }
    }

    // Owns a page that is dirty.
    fn own_dirty_page(&mut self, page: u32) -> Result<(), AllocError>
        requires table { IsTable self.old }
        requires page { page < pages }
        requires dirty { mark_of self.old.dirty page ≡ 1 }
        ensures table { IsTable self.new }
        ensures ok { OnOk result (held_of self.new ≡ owning (held_of self.old) page (memory_of self.old.pages)) }
        ensures err { OnErr result (held_of self.new ≡ held_of self.old) }
        ensures idle { root_own self.old.pages page ≡ true → IsOk result }
        ensures marks { Marks (held_of self.old) (held_of self.new) }
    {
        self.pages.own_page(page as usize, self.alloc)?;
        Ok(())
    }

    // Owns a page that is not dirty, and so is not owned.
    fn own_clean_page(&mut self, page: u32) -> Result<(), AllocError>
        requires table { IsTable self.old }
        requires page { page < pages }
        ensures table { IsTable self.new }
        ensures ok { OnOk result (held_of self.new ≡ owning (held_of self.old) page (memory_of self.old.pages)) }
        ensures err { OnErr result (held_of self.new ≡ held_of self.old) }
        ensures marks { Marks (held_of self.old) (held_of self.new) }
    {
        let at = page as usize;
        self.dirty.prepare(at, at + 1, self.alloc)?;
        self.pages.own_page(at, self.alloc)?;
        self.dirty.mark(at, at + 1);
        Ok(())
    }

    // Marks a page as dirty.
    pub fn mark(&mut self, page: u32) -> Result<(), AllocError>
        requires table { IsTable self.old }
        requires page { page < pages }
        ensures table { IsTable self.new }
        ensures ok { OnOk result (held_of self.new ≡ record (held_of self.old) { dirty = put (held_of self.old).dirty page 1 }) }
        ensures err { OnErr result (held_of self.new ≡ held_of self.old) }
        ensures pages { self.new.pages ≡ self.old.pages }
    {
        let at = page as usize;
        self.dirty.prepare(at, at + 1, self.alloc)?;
        self.dirty.mark(at, at + 1);
        Ok(())
    }

    // Marks a page that is not owned as clean.
    pub fn unmark(&mut self, page: u32) -> Result<(), AllocError>
        requires table { IsTable self.old }
        requires page { page < pages }
        requires shared { root_own self.old.pages page ≡ false }
        ensures table { IsTable self.new }
        ensures ok { OnOk result (held_of self.new ≡ record (held_of self.old) { dirty = put (held_of self.old).dirty page 0 }) }
        ensures owned { (held_of self.new).owned ≡ (held_of self.old).owned }
        ensures err { OnErr result (held_of self.new ≡ held_of self.old) }
    {
        self.dirty.unmark(page, self.alloc)?;
        Ok(())
    }

    // Marks every page as dirty.
    pub fn mark_all(&mut self)
        requires { IsTable self.old }
        ensures table { IsTable self.new }
        ensures held { held_of self.new ≡ record (held_of self.old) { dirty = all_pages } }
    {
        self.dirty = PageMarks::all();
    }

    // No page is dirty any more. None is owned.
    pub fn clean(&mut self)
        requires table { IsTable self.old }
        requires none { (held_of self.old).owned ≡ no_values }
        ensures table { IsTable self.new }
        ensures held { held_of self.new ≡ record (held_of self.old) { dirty = no_values } }
    {
        self.dirty = PageMarks::none();
    }
}
