ghost use Rattle.std.specs.Prelude.{◌≡◌, ℕ, ◌+◌, ◌-◌, ◌<◌, ◌≤◌, OnOk, OnErr};
ghost use Rattle.memory_model.specs.Memory.{with_permissions};
ghost use Rattle.memory_model.specs.Ranges.{with_zeros};
ghost use Rattle.memory_model.specs.Sizes.{greatest_permission, pages};
ghost use Rattle.page_tree.specs.Ready.{ReadyRoot};
ghost use Rattle.space_mem.specs.Held.{KeepsMarksOutside, Marks};
ghost use Rattle.space_mem.specs.Tables.{IsTable, held_of, memory_of};

use crate::table::PageTable;
use std::alloc::AllocError;

impl PageTable {
    // Gives each page from `first` to before `end` the permission.
    pub fn set_permission(&mut self, first: u32, end: u32, permission: u8) -> Result<(), AllocError>
        requires table { IsTable self.old }
        requires rise { first ≤ end }
        requires within { end ≤ pages }
        requires permission { permission ≤ greatest_permission }
        ensures table { IsTable self.new }
        ensures ok { OnOk result (held_of self.new ≡ record (held_of self.old) { memory = with_permissions (memory_of self.old.pages) first (end - first) permission }) }
        ensures err { OnErr result (held_of self.new ≡ held_of self.old) }
        ensures marks { Marks (held_of self.old) (held_of self.new) }
    {
        if first == end {
            return Ok(());
        }
        self.pages
            .prepare(first as usize, end as usize, self.alloc)?;
        self.pages.permit(first as usize, end as usize, permission);
        Ok(())
    }

    // Gives some pages, which are ready for it, the permission.
    pub fn permit_ready(&mut self, first: u32, end: u32, permission: u8)
        requires table { IsTable self.old }
        requires rise { first < end }
        requires within { end ≤ pages }
        requires permission { permission ≤ greatest_permission }
        requires ready { ReadyRoot first end self.old.pages }
        ensures table { IsTable self.new }
        ensures held { held_of self.new ≡ record (held_of self.old) { memory = with_permissions (memory_of self.old.pages) first (end - first) permission } }
        ensures marks { Marks (held_of self.old) (held_of self.new) }
    {
        self.pages.permit(first as usize, end as usize, permission);
    }

    // Makes the bytes of each page from `first` to before `end` 0; the pages are dirty then.
    pub fn zero(&mut self, first: u32, end: u32) -> Result<(), AllocError>
        requires table { IsTable self.old }
        requires rise { first ≤ end }
        requires within { end ≤ pages }
        ensures table { IsTable self.new }
        ensures ok { OnOk result ((held_of self.new).memory ≡ with_zeros (memory_of self.old.pages) first (end - first)) }
        ensures err { OnErr result (held_of self.new ≡ held_of self.old) }
        ensures outside { KeepsMarksOutside first end (held_of self.old) (held_of self.new) }
        ensures marks { Marks (held_of self.old) (held_of self.new) }
    {
        if first == end {
            return Ok(());
        }
        self.zero_some(first, end)
    }

    // Makes the bytes of some pages 0; the pages are dirty then, and ready to be permitted.
    pub fn zero_some(&mut self, first: u32, end: u32) -> Result<(), AllocError>
        requires table { IsTable self.old }
        requires rise { first < end }
        requires within { end ≤ pages }
        ensures table { IsTable self.new }
        ensures ok { OnOk result ((held_of self.new).memory ≡ with_zeros (memory_of self.old.pages) first (end - first)) }
        ensures ready { OnOk result (ReadyRoot first end self.new.pages) }
        ensures err { OnErr result (held_of self.new ≡ held_of self.old) }
        ensures outside { KeepsMarksOutside first end (held_of self.old) (held_of self.new) }
        ensures marks { Marks (held_of self.old) (held_of self.new) }
    {
        let (from, to) = (first as usize, end as usize);
        self.dirty.prepare(from, to, self.alloc)?;
        self.pages.prepare(from, to, self.alloc)?;
        self.pages.clear(from, to);
        self.dirty.mark(from, to);
        Ok(())
    }
}
