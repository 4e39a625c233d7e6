ghost use Rattle.std.specs.Prelude.{◌≡◌, ℕ, ◌+◌, ◌*◌, ◌/◌, ◌%◌, ◌<◌, ◌≤◌, ◌==◌, IfSome, IsNone, if◌then◌else◌};
ghost use Rattle.memory_model.specs.Memory.{number_from, width_bytes, byte_at, permission_at, may_fetch, may_read};
ghost use Rattle.memory_model.specs.Ranges.{IsPageOf, IsZeroPage, IsBounded, IsNextPage, NoneUsed};
ghost use Rattle.memory_model.specs.declared.Width.TheVariants.{Four};
ghost use Rattle.memory_model.specs.Sizes.{pages};
ghost use Rattle.page_store.specs.Bytes.{bytes_of};
ghost use Rattle.space_mem.specs.Held.{IsNextDirty, AllClean, IsNextKept, AllZero, HaveOnePermission};
ghost use Rattle.space_mem.specs.Tables.{IsTable, held_of, memory_of};

use crate::table::PageTable;
use memory_model::{PAGE_SIZE, PAGES, Width};
use page_store::PageRef;

impl PageTable {
    // The number of `width` bytes at an aligned address, if it may be read.
    #[inline(always)]
    pub fn load(&self, at: u32, width: Width) -> Option<u32>
        requires { at % width_bytes width ≡ 0 }
        ensures { let m = memory_of self.now.pages in result ≡ (if may_read m at then Some (number_from (byte_at m) width at) else None) }
    {
        self.pages
            .load((at / PAGE_SIZE) as usize, (at % PAGE_SIZE) as u16, width)
    }

    // The word at a multiple of 4, if it may be fetched.
    #[inline(always)]
    pub fn fetch(&self, at: u32) -> Option<u32>
        requires { at % 4 ≡ 0 }
        ensures { let m = memory_of self.now.pages in result ≡ (if may_fetch m at then Some (number_from (byte_at m) Four at) else None) }
    {
        self.pages
            .fetch((at / PAGE_SIZE) as usize, (at % PAGE_SIZE) as u16)
    }

    // The word at a multiple of 4, whatever the permission.
    #[inline(always)]
    pub fn word(&self, at: u32) -> u32
        requires { at % 4 ≡ 0 }
        ensures { result ≡ number_from (byte_at (memory_of self.now.pages)) Four at }
    {
        self.pages.number(
            (at / PAGE_SIZE) as usize,
            (at % PAGE_SIZE) as u16,
            Width::Four,
        )
    }

    // The permission of a page.
    #[inline(always)]
    pub fn permission(&self, page: u32) -> u8
        ensures { result ≡ permission_at (memory_of self.now.pages) page }
    {
        if page < PAGES {
            self.pages.permission(page as usize)
        } else {
            0
        }
    }

    // The byte at an address.
    pub fn byte(&self, at: u32) -> u8
        ensures { result ≡ byte_at (memory_of self.now.pages) at }
    {
        match self.pages.page((at / PAGE_SIZE) as usize) {
            Some(page) => page.bytes()[(at % PAGE_SIZE) as usize],
            None => 0,
        }
    }

    // The bytes that are kept of a page.
    pub fn page(&self, page: u32) -> Option<&PageRef>
        requires { IsTable self.now }
        ensures some { IfSome result (λ kept. IsPageOf (memory_of self.now.pages) page (bytes_of kept.now)) }
        ensures none { IsNone result → IsZeroPage (memory_of self.now.pages) page }
    {
        if page >= PAGES {
            return None;
        }
        match self.pages.page(page as usize) {
            Some(kept) => Some(kept),
            None => None,
        }
    }

    // The least page from `n` on that has a permission or a byte other than 0.
    pub fn next_page(&self, n: u32) -> Option<u32>
        requires { IsTable self.now }
        ensures some { IfSome result (IsNextPage (memory_of self.now.pages) n) }
        ensures none { IsNone result → NoneUsed (memory_of self.now.pages) n 1048576 }
    {
        if n >= PAGES {
            return None;
        }
        match self.pages.next_used(n as usize) {
            Some(page) => Some(page as u32),
            None => None,
        }
    }

    // The least page from `from` to before `end` of which bytes are kept.
    pub fn next_kept(&self, from: u32, end: u32) -> Option<u32>
        requires { end ≤ pages }
        ensures some { IfSome result (IsNextKept (memory_of self.now.pages) from end) }
        ensures none { IsNone result → AllZero (memory_of self.now.pages) from end }
    {
        match self.pages.next_kept(from as usize, end as usize) {
            Some(page) => Some(page as u32),
            None => None,
        }
    }

    // Where the pages from one on end that have its permission and keep no bytes. It may stop early, where a part of the tree ends.
    pub fn bare_end(&self, page: u32) -> u32
        requires { page < pages }
        ensures above { page ≤ result }
        ensures below { result ≤ pages }
        ensures zero { AllZero (memory_of self.now.pages) page result }
        ensures permission { HaveOnePermission (memory_of self.now.pages) page result }
    {
        self.pages.bare_end(page as usize) as u32
    }

    // The least dirty page from `n` on.
    pub fn next_dirty(&self, n: u32) -> Option<u32>
        requires { IsTable self.now }
        ensures some { IfSome result (IsNextDirty (held_of self.now) n) }
        ensures none { IsNone result → AllClean (held_of self.now) n 1048576 }
    {
        if n >= PAGES {
            return None;
        }
        self.dirty.next(n)
    }

    // What every page table keeps.
    #[inline(always)]
    pub fn bounds(&self)
        requires { IsTable self.now }
        ensures { IsBounded (memory_of self.now.pages) }
    {
        let _pages = &self.pages;
    }
}
