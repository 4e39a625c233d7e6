ghost use Rattle.std.specs.Prelude.{◌≡◌, ℕ, ◌+◌, ◌-◌, ◌<◌, ◌≤◌, ◌∷◌, [], All, IfOk, List, OnOk, OnErr, map};
ghost use Rattle.memory_model.specs.Memory.{Memory, with_permissions};
ghost use Rattle.memory_model.specs.Sizes.{greatest_permission, pages};
ghost use Rattle.page_marks.specs.Marks.{mark_of};
ghost use Rattle.page_tree.specs.Ready.{ReadyRoot};
ghost use Rattle.page_tree.specs.Replaceable.{ReplaceableRoot};
ghost use Rattle.space_mem.specs.declared.table.PageTable.{PageTable};
ghost use Rattle.space_mem.specs.Held.{KeepsMarks, Marks};
ghost use Rattle.space_mem.specs.Tables.{IsTable, held_of, memory_of};
ghost use Rattle.space_mem.specs.Taken.{AreFrom, AreInRange, CanPut, IsFrom, IsPrepared, IsPutting, IsReadyPut, IsTakenOver, SamePageAs, put_page, taken_page};

use crate::copying::share_page;
use crate::layout::Pages;
use crate::memory::Mem;
use crate::table::PageTable;
use page_store::PageRef;
use std::alloc::AllocError;

/// A page, and the source's page whose bytes it gets, both below 2^20.
#[derive(Clone, Copy)]
pub struct TakenPage {
    /// The page that changes.
    pub page: u32,
    /// The source's page.
    pub from: u32,
}

// What is to be kept of a page in place of what is.
#[derive(Drop)]
struct Put {
    page: u32,
    kept: Option<PageRef>,
}

impl Mem {
    /// Gives each of these pages, below 2^20, the bytes of a source's page: one that the source does not own is shared, and an own one copied.
    /// Permissions stay. The pages are dirty then, and all others owned and dirty where they were. Its one error is want of memory: no byte has
    /// changed then, the same pages are owned, and some of these pages may be dirty that were not.
    pub fn take_over(&mut self, source: &Mem, each: &[u32]) -> Result<(), AllocError>
        requires { All (λ page. page < pages) each.now }
        ensures ok { OnOk result (IsTakenOver self.old.memory source.now.memory each.now self.new.memory) }
        ensures err { OnErr result (self.new.memory ≡ self.old.memory) }
        ensures owned { OnErr result (self.new.owned ≡ self.old.owned) }
        ensures others { (page : ℕ) → All (λ taken. page ≡ taken → ⊥) each.now → KeepsMarks self.old self.new page }
        ensures marks { Marks self.old self.new }
    {
        self.table.take_over(&source.table, each)
    }

    /// As `take_over`, of pages that each get the bytes of a source's page of another number; no page gets those of two that differ.
    pub fn take_over_from(&mut self, source: &Mem, each: &[TakenPage]) -> Result<(), AllocError>
        requires within { All AreInRange each.now }
        requires once { AreFrom source.now.memory each.now }
        ensures ok { (m : Memory) → All (IsFrom source.now.memory m) each.now → OnOk result (IsTakenOver self.old.memory m (map taken_page each.now) self.new.memory) }
        ensures err { OnErr result (self.new.memory ≡ self.old.memory) }
        ensures owned { OnErr result (self.new.owned ≡ self.old.owned) }
        ensures others { (page : ℕ) → All (λ taken. page ≡ taken → ⊥) (map taken_page each.now) → KeepsMarks self.old self.new page }
        ensures marks { Marks self.old self.new }
    {
        self.table.take_over_from(&source.table, each)
    }

    /// As `take_over`, and gives each page of a range the permission, 0 to 7.
    pub fn take_over_and_permit(
        &mut self,
        source: &Mem,
        each: &[u32],
        range: Pages,
        perm: u8,
    ) -> Result<(), AllocError>
        requires within { All (λ page. page < pages) each.now }
        requires permission { perm ≤ greatest_permission }
        ensures ok { OnOk result (IsTakenOver (with_permissions self.old.memory range.first range.count perm) source.now.memory each.now self.new.memory) }
        ensures err { OnErr result (self.new.memory ≡ self.old.memory) }
        ensures owned { OnErr result (self.new.owned ≡ self.old.owned) }
        ensures others { (page : ℕ) → All (λ taken. page ≡ taken → ⊥) each.now → KeepsMarks self.old self.new page }
        ensures marks { Marks self.old self.new }
    {
        self.table.take_over_and_permit(
            &source.table,
            each,
            range.first,
            range.first + range.count,
            perm,
        )
    }
}

impl PageTable {
    // Gives each of these pages the bytes of a source's page; they are dirty then. What may want memory comes before the first byte changes.
    pub fn take_over(&mut self, source: &PageTable, each: &[u32]) -> Result<(), AllocError>
        requires table { IsTable self.old }
        requires within { All (λ page. page < pages) each.now }
        ensures table { IsTable self.new }
        ensures ok { OnOk result (IsTakenOver (memory_of self.old.pages) (memory_of source.now.pages) each.now (memory_of self.new.pages)) }
        ensures err { OnErr result (memory_of self.new.pages ≡ memory_of self.old.pages) }
        ensures owned { OnErr result ((held_of self.new).owned ≡ (held_of self.old).owned) }
        ensures others { (page : ℕ) → All (λ taken. page ≡ taken → ⊥) each.now → KeepsMarks (held_of self.old) (held_of self.new) page }
        ensures marks { Marks (held_of self.old) (held_of self.new) }
    {
        let puts = self.prepare_each(source, each)?;
        self.put_each(puts);
        Ok(())
    }

    // As `take_over`, of pages that each get the bytes of a source's page of another number.
    fn take_over_from(&mut self, source: &PageTable, each: &[TakenPage]) -> Result<(), AllocError>
        requires table { IsTable self.old }
        requires within { All AreInRange each.now }
        requires once { AreFrom (memory_of source.now.pages) each.now }
        ensures table { IsTable self.new }
        ensures ok { (m : Memory) → All (IsFrom (memory_of source.now.pages) m) each.now → OnOk result (IsTakenOver (memory_of self.old.pages) m (map taken_page each.now) (memory_of self.new.pages)) }
        ensures err { OnErr result (memory_of self.new.pages ≡ memory_of self.old.pages) }
        ensures owned { OnErr result ((held_of self.new).owned ≡ (held_of self.old).owned) }
        ensures others { (page : ℕ) → All (λ taken. page ≡ taken → ⊥) (map taken_page each.now) → KeepsMarks (held_of self.old) (held_of self.new) page }
        ensures marks { Marks (held_of self.old) (held_of self.new) }
    {
        let puts = self.prepare_from(source, each)?;
        self.put_each(puts);
        Ok(())
    }

    // As `take_over`, and gives the pages from `first` to before `end` the permission.
    fn take_over_and_permit(
        &mut self,
        source: &PageTable,
        each: &[u32],
        first: u32,
        end: u32,
        permission: u8,
    ) -> Result<(), AllocError>
        requires table { IsTable self.old }
        requires within { All (λ page. page < pages) each.now }
        requires rise { first ≤ end }
        requires in_range { end ≤ pages }
        requires permission { permission ≤ greatest_permission }
        ensures table { IsTable self.new }
        ensures ok { OnOk result (IsTakenOver (with_permissions (memory_of self.old.pages) first (end - first) permission) (memory_of source.now.pages) each.now (memory_of self.new.pages)) }
        ensures err { OnErr result (memory_of self.new.pages ≡ memory_of self.old.pages) }
        ensures owned { OnErr result ((held_of self.new).owned ≡ (held_of self.old).owned) }
        ensures others { (page : ℕ) → All (λ taken. page ≡ taken → ⊥) each.now → KeepsMarks (held_of self.old) (held_of self.new) page }
        ensures marks { Marks (held_of self.old) (held_of self.new) }
    {
        if first == end {
            return self.take_over(source, each);
        }
        self.take_ready(source, each, first, end)?;
        self.permit_ready(first, end, permission);
        Ok(())
    }

    // As `take_over`; the pages from `first` to before `end` are ready to be permitted then.
    fn take_ready(
        &mut self,
        source: &PageTable,
        each: &[u32],
        first: u32,
        end: u32,
    ) -> Result<(), AllocError>
        requires table { IsTable self.old }
        requires within { All (λ page. page < pages) each.now }
        requires rise { first < end }
        requires in_range { end ≤ pages }
        ensures table { IsTable self.new }
        ensures ok { OnOk result (IsTakenOver (memory_of self.old.pages) (memory_of source.now.pages) each.now (memory_of self.new.pages)) }
        ensures ready { OnOk result (ReadyRoot first end self.new.pages) }
        ensures err { OnErr result (memory_of self.new.pages ≡ memory_of self.old.pages) }
        ensures owned { OnErr result ((held_of self.new).owned ≡ (held_of self.old).owned) }
        ensures others { (page : ℕ) → All (λ taken. page ≡ taken → ⊥) each.now → KeepsMarks (held_of self.old) (held_of self.new) page }
        ensures marks { Marks (held_of self.old) (held_of self.new) }
    {
        let puts = self.prepare_each(source, each)?;
        self.pages
            .prepare(first as usize, end as usize, self.alloc)?;
        self.put_each(puts);
        Ok(())
    }

    // Puts in all that is held. A range that was ready to be permitted is.
    fn put_each(&mut self, puts: Vec<Put>)
        requires { All (CanPut self.old) puts.items }
        ensures put { (t : PageTable) (source : Memory) (each : List ℕ) → IsPutting t source each self.old puts.items → IsPutting t source each self.new [] }
        ensures range { (from to : ℕ) → ReadyRoot from to self.old.pages → ReadyRoot from to self.new.pages }
    {
        let mut puts = puts;
        while let Some(put) = puts.pop() {
            self.pages.replace(put.page as usize, put.kept);
        }
    }

    // Makes each of these pages ready to be exchanged, and holds what a source keeps of each. Some of them may be dirty then that were not.
    fn prepare_each(&mut self, source: &PageTable, each: &[u32]) -> Result<Vec<Put>, AllocError>
        requires table { IsTable self.old }
        requires within { All (λ page. page < pages) each.now }
        ensures prepared { IsPrepared each.now self.old self.new }
        ensures pages { IfOk result (λ puts. map put_page puts.items ≡ each.now) }
        ensures ready { IfOk result (λ puts. All (IsReadyPut self.new (memory_of source.now.pages)) puts.items) }
    {
        let mut puts = Vec::new(self.alloc);
        for page in each {
            let put = self.prepare_put(source, *page, *page)?;
            puts.push(put)?;
        }
        Ok(puts)
    }

    // As `prepare_each`, of pages that each get the bytes of a source's page of another number.
    fn prepare_from(
        &mut self,
        source: &PageTable,
        each: &[TakenPage],
    ) -> Result<Vec<Put>, AllocError>
        requires table { IsTable self.old }
        requires within { All AreInRange each.now }
        ensures prepared { IsPrepared (map taken_page each.now) self.old self.new }
        ensures pages { IfOk result (λ puts. map put_page puts.items ≡ map taken_page each.now) }
        ensures ready { IfOk result (λ puts. (m : Memory) → All (IsFrom (memory_of source.now.pages) m) each.now → All (IsReadyPut self.new m) puts.items) }
    {
        let mut puts = Vec::new(self.alloc);
        for taken in each {
            let put = self.prepare_put(source, taken.page, taken.from)?;
            puts.push(put)?;
        }
        Ok(puts)
    }

    // Makes a page ready to be exchanged, and holds what a source keeps of a page.
    fn prepare_put(&mut self, source: &PageTable, page: u32, from: u32) -> Result<Put, AllocError>
        requires table { IsTable self.old }
        requires page { page < pages }
        requires from { from < pages }
        ensures prepared { IsPrepared (page ∷ []) self.old self.new }
        ensures page { IfOk result (λ put. put_page put ≡ page) }
        ensures ready { IfOk result (λ put. (m : Memory) → SamePageAs m page (memory_of source.now.pages) from → IsReadyPut self.new m put) }
    {
        self.prepare_page(page)?;
        let kept = share_page(&source.pages, from as usize, self.alloc)?;
        Ok(Put { page, kept })
    }

    // Makes a page ready to be exchanged; it is dirty then.
    fn prepare_page(&mut self, page: u32) -> Result<(), AllocError>
        requires table { IsTable self.old }
        requires page { page < pages }
        ensures prepared { IsPrepared (page ∷ []) self.old self.new }
        ensures marked { OnOk result (mark_of self.new.dirty page ≡ 1) }
        ensures ready { OnOk result (ReplaceableRoot page self.new.pages) }
    {
        self.mark(page)?;
        self.pages.own_block(page as usize, self.alloc)
    }
}
