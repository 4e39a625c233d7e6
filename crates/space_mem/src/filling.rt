ghost use Rattle.std.specs.Prelude.{◌≡◌, ℕ, ◌+◌, ◌-◌, ◌<◌, ◌≤◌, OnOk, OnErr};
ghost use Rattle.memory_model.specs.Memory.{with_permissions};
ghost use Rattle.memory_model.specs.Ranges.{with_copies, with_zeros};
ghost use Rattle.memory_model.specs.Sizes.{greatest_permission, pages};
ghost use Rattle.page_tree.specs.Ready.{ReadyRoot};
ghost use Rattle.space_mem.specs.Held.{KeepsMarksOutside, Marks};
ghost use Rattle.space_mem.specs.Tables.{IsTable, held_of, memory_of};

use crate::copying::move_pages;
use crate::layout::Pages;
use crate::memory::Mem;
use crate::table::PageTable;
use memory_model::PAGES;
use page_marks::PageMarks;
use page_tree::TreeRef;
use std::alloc::AllocError;

impl Mem {
    /// Makes the bytes of each page of a range 0, and gives each the permission, 0 to 7. Which other pages are owned stays, and which of
    /// them are dirty. Its one error is want of memory: nothing has changed then.
    pub fn zero_and_permit(&mut self, range: Pages, perm: u8) -> Result<(), AllocError>
        requires { perm ≤ greatest_permission }
        ensures ok { OnOk result (self.new.memory ≡ with_permissions (with_zeros self.old.memory range.first range.count) range.first range.count perm) }
        ensures err { OnErr result (self.new ≡ self.old) }
        ensures outside { KeepsMarksOutside range.first (range.first + range.count) self.old self.new }
        ensures marks { Marks self.old self.new }
    {
        self.table
            .zero_and_permit(range.first, range.first + range.count, perm)
    }

    /// Gives the pages of a range the bytes of a source's pages from `from` on, which end within the memory, and each the permission, 0 to
    /// 7. Pages of the source that are not owned are shared, and others copied. Which other pages are owned stays, and which of them are
    /// dirty. Its one error is want of memory: nothing has changed then.
    pub fn copy_and_permit(
        &mut self,
        source: &Mem,
        from: u32,
        to: Pages,
        perm: u8,
    ) -> Result<(), AllocError>
        requires in_range { from + to.count ≤ 1048576 }
        requires permission { perm ≤ greatest_permission }
        ensures ok { OnOk result (self.new.memory ≡ with_permissions (with_copies self.old.memory source.now.memory from to.first to.count) to.first to.count perm) }
        ensures err { OnErr result (self.new ≡ self.old) }
        ensures outside { KeepsMarksOutside to.first (to.first + to.count) self.old self.new }
        ensures marks { Marks self.old self.new }
    {
        self.table
            .copy_and_permit(&source.table, from, to.first, to.first + to.count, perm)
    }
}

impl PageTable {
    // Makes the bytes of each page from `first` to before `end` 0, and gives each the permission; the pages are dirty then.
    fn zero_and_permit(&mut self, first: u32, end: u32, permission: u8) -> Result<(), AllocError>
        requires table { IsTable self.old }
        requires rise { first ≤ end }
        requires within { end ≤ pages }
        requires permission { permission ≤ greatest_permission }
        ensures table { IsTable self.new }
        ensures ok { OnOk result ((held_of self.new).memory ≡ with_permissions (with_zeros (memory_of self.old.pages) first (end - first)) first (end - first) permission) }
        ensures err { OnErr result (held_of self.new ≡ held_of self.old) }
        ensures outside { KeepsMarksOutside first end (held_of self.old) (held_of self.new) }
        ensures marks { Marks (held_of self.old) (held_of self.new) }
    {
        if first == end {
            return Ok(());
        }
        self.zero_some(first, end)?;
        self.permit_ready(first, end, permission);
        Ok(())
    }

    // Gives the pages from `first` to before `end` the bytes of a source's pages from `from` on, and each the permission; they are dirty
    // then.
    fn copy_and_permit(
        &mut self,
        source: &PageTable,
        from: u32,
        first: u32,
        end: u32,
        permission: u8,
    ) -> Result<(), AllocError>
        requires table { IsTable self.old }
        requires source { IsTable source.now }
        requires rise { first ≤ end }
        requires within { end ≤ pages }
        requires in_range { from + (end - first) ≤ pages }
        requires permission { permission ≤ greatest_permission }
        ensures table { IsTable self.new }
        ensures ok { OnOk result ((held_of self.new).memory ≡ with_permissions (with_copies (memory_of self.old.pages) (memory_of source.now.pages) from first (end - first)) first (end - first) permission) }
        ensures err { OnErr result (held_of self.new ≡ held_of self.old) }
        ensures outside { KeepsMarksOutside first end (held_of self.old) (held_of self.new) }
        ensures marks { Marks (held_of self.old) (held_of self.new) }
    {
        if first == end {
            return Ok(());
        }
        self.copy_some(source, from, first, end)?;
        self.permit_ready(first, end, permission);
        Ok(())
    }

    // Gives some pages the bytes and permissions of a source's pages from `from` on; they are dirty then, and ready to be permitted.
    fn copy_some(
        &mut self,
        source: &PageTable,
        from: u32,
        first: u32,
        end: u32,
    ) -> Result<(), AllocError>
        requires table { IsTable self.old }
        requires source { IsTable source.now }
        requires rise { first < end }
        requires within { end ≤ pages }
        requires in_range { from + (end - first) ≤ pages }
        ensures table { IsTable self.new }
        ensures ok { OnOk result (memory_of self.new.pages ≡ with_copies (memory_of self.old.pages) (memory_of source.now.pages) from first (end - first)) }
        ensures ready { OnOk result (ReadyRoot first end self.new.pages) }
        ensures err { OnErr result (held_of self.new ≡ held_of self.old) }
        ensures outside { KeepsMarksOutside first end (held_of self.old) (held_of self.new) }
        ensures marks { Marks (held_of self.old) (held_of self.new) }
    {
        if first == 0 && end == PAGES {
            return self.copy_all_ready(source);
        }
        self.copy_part_ready(source, from as usize, first as usize, end as usize)
    }

    // As `copy_part`; the pages are ready to be permitted then.
    fn copy_part_ready(
        &mut self,
        source: &PageTable,
        from: usize,
        first: usize,
        end: usize,
    ) -> Result<(), AllocError>
        requires table { IsTable self.old }
        requires source { IsTable source.now }
        requires rise { first < end }
        requires within { end ≤ pages }
        requires in_range { from + (end - first) ≤ pages }
        ensures table { IsTable self.new }
        ensures ok { OnOk result (memory_of self.new.pages ≡ with_copies (memory_of self.old.pages) (memory_of source.now.pages) from first (end - first)) }
        ensures ready { OnOk result (ReadyRoot first end self.new.pages) }
        ensures err { OnErr result (held_of self.new ≡ held_of self.old) }
        ensures outside { KeepsMarksOutside first end (held_of self.old) (held_of self.new) }
        ensures marks { Marks (held_of self.old) (held_of self.new) }
    {
        let mut made = move_pages(&source.pages, from, first, end - first, self.alloc)?;
        made.prepare(first, end, self.alloc)?;
        self.dirty.prepare(first, end, self.alloc)?;
        self.pages.prepare(first, end, self.alloc)?;
        self.pages.take(&mut made, first, end);
        self.dirty.mark(first, end);
        Ok(())
    }

    // Takes the bytes and permissions of all of a source's pages; they are dirty then, and ready to be permitted.
    fn copy_all_ready(&mut self, source: &PageTable) -> Result<(), AllocError>
        requires table { IsTable self.old }
        requires source { IsTable source.now }
        ensures table { IsTable self.new }
        ensures ok { OnOk result (memory_of self.new.pages ≡ with_copies (memory_of self.old.pages) (memory_of source.now.pages) 0 0 pages) }
        ensures ready { OnOk result (ReadyRoot 0 pages self.new.pages) }
        ensures err { OnErr result (self.new ≡ self.old) }
        ensures outside { KeepsMarksOutside 0 pages (held_of self.old) (held_of self.new) }
        ensures marks { Marks (held_of self.old) (held_of self.new) }
    {
        let mut copied = source.pages.share(self.alloc)?;
        copied.prepare(0, PAGES as usize, self.alloc)?;
        self.pages = copied;
        self.dirty = PageMarks::all();
        Ok(())
    }
}
