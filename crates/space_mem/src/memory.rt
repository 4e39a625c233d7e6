ghost use Rattle.std.specs.Prelude.{◌≡◌, ◌↔◌, ℕ, ◌+◌, ◌*◌, ◌/◌, ◌%◌, ◌<◌, ◌≤◌, ◌^◌, length, IfOk, IfSome, IsNone, OnOk, OnErr, IsOk, IsTrue, if◌then◌else◌};
ghost use Rattle.memory_model.specs.Memory.{byte_at, permission_at, may_read, may_fetch, width_bytes, number_from, with_byte, with_bytes, with_permissions, first_without, bytes_from};
ghost use Rattle.memory_model.specs.Memory as memory;
ghost use Rattle.memory_model.specs.Sizes.{greatest_permission};
ghost use Rattle.memory_model.specs.Sparse.{no_values, put, value_at};
ghost use Rattle.memory_model.specs.Ranges.{IsZeroPage, IsPageOf, IsBounded, IsNextPage, NoneUsed, with_copies, with_page, with_zeros};
ghost use Rattle.page_store.specs.Bytes.{bytes_of};
ghost use Rattle.space_mem.specs.Held.{Owns, KeepsMarksOutside, IsClean, Marks, IsNextDirty, AllClean, IsNextKept, AllZero, HaveOnePermission, all_pages, nothing_held, owning, with_stored, with_written};

use crate::layout::Pages;
use crate::table::PageTable;
use memory_model::Width;
use page_marks::PageMarks;
use page_store::{PageRef, may_write};
use page_tree::TreeRef;
use std::alloc::{AllocError, Global};
use std::marker::Model;

/// A memory: a byte at each of 2^32 addresses, and a permission, 0 to 7, of each of 2^20 pages of 4,096 bytes (1 reads, 2
/// writes, 4 executes). Contracts see it as its bytes and permissions, which pages it owns (a write to one takes no memory), and which
/// are dirty: they may have changed since the last snapshot. Each page that is owned is dirty.
///
/// It is kept by a page table; a page that was never written has no bytes of its own, and a page that other memories share is copied at the
/// first write.
#[derive(Drop)]
pub struct Mem {
    pub(crate) table: PageTable,
}

impl Model for Mem {
    ghost use Rattle.space_mem.specs.Held.{Held, coded_held};
    ghost use Rattle.space_mem.specs.Tables.{IsTable, held_of};

    ghost Value = { Held };

    ghost coded = { coded_held };

    ghost view = { λ m. held_of m.table };

    ghost invariant = { λ m. IsTable m.table };
}

impl Mem {
    /// A memory whose bytes and permissions are all 0.
    pub fn new(alloc: Global) -> Mem
        ensures { result ≡ nothing_held }
    {
        Mem {
            table: PageTable {
                pages: TreeRef::Uniform(0),
                dirty: PageMarks::none(),
                alloc,
            },
        }
    }

    /// What the memory takes its pages from.
    pub fn allocator(&self) -> Global {
        self.table.alloc
    }

    /// The byte at an address.
    pub fn byte(&self, at: u32) -> u8
        ensures { result ≡ byte_at self.now.memory at }
    {
        self.table.byte(at)
    }

    /// The permission of a page.
    pub fn perm(&self, page: u32) -> u8
        ensures { result ≡ permission_at self.now.memory page }
    {
        self.table.permission(page)
    }

    /// The number at an aligned address, the least byte first; none exactly where its page may not be read.
    #[inline(always)]
    pub fn load(&self, at: u32, width: Width) -> Option<u32>
        requires { at % width_bytes width ≡ 0 }
        ensures { result ≡ (if may_read self.now.memory at then Some (number_from (byte_at self.now.memory) width at) else None) }
    {
        self.table.load(at, width)
    }

    /// The word at an address that is a multiple of 4; none exactly where its page may not be fetched from.
    #[inline(always)]
    pub fn fetch(&self, at: u32) -> Option<u32>
        requires { at % 4 ≡ 0 }
        ensures { result ≡ (if may_fetch self.now.memory at then Some (number_from (byte_at self.now.memory) Width.Four at) else None) }
    {
        self.table.fetch(at)
    }

    /// The number of the four bytes at an address that is a multiple of 4, the least byte first, whatever its page's permission.
    #[inline(always)]
    pub fn word(&self, at: u32) -> u32
        requires { at % 4 ≡ 0 }
        ensures { result ≡ number_from (byte_at self.now.memory) Width.Four at }
    {
        self.table.word(at)
    }

    /// Whether the page of an address may be written.
    #[inline(always)]
    pub fn can_store(&self, at: u32) -> bool
        ensures { result ≡ memory.may_write self.now.memory at }
    {
        may_write(self.table.permission(at / 4096))
    }

    /// Writes the lowest bytes of a number at an aligned address that may be written. The page is owned
    /// then. The one error is want of memory: nothing has changed then. It does not come where the page was owned.
    #[inline(always)]
    pub fn store(&mut self, at: u32, width: Width, value: u32) -> Result<(), AllocError>
        requires aligned { at % width_bytes width ≡ 0 }
        requires allowed { IsTrue (memory.may_write self.old.memory at) }
        ensures ok { OnOk result (self.new ≡ with_stored self.old at width value) }
        ensures err { OnErr result (self.new ≡ self.old) }
        ensures owned { Owns self.old (at / 4096) → IsOk result }
        ensures marks { Marks self.old self.new }
    {
        self.table.try_store(at, width, value)?;
        Ok(())
    }

    /// Whether the page of an aligned address may be written; where it may, the lowest bytes of a number are written there. Its
    /// one error is want of memory: nothing has changed then. It comes only where the page may be written and is not owned.
    #[inline(always)]
    pub fn try_store(&mut self, at: u32, width: Width, value: u32) -> Result<bool, AllocError>
        requires { at % width_bytes width ≡ 0 }
        ensures allowed { IfOk result (λ stored. stored ≡ memory.may_write self.old.memory at) }
        ensures ok { IfOk result (λ stored. self.new ≡ (if stored then with_stored self.old at width value else self.old)) }
        ensures err { OnErr result (self.new ≡ self.old) }
        ensures wanted { OnErr result (IsTrue (memory.may_write self.old.memory at)) }
        ensures owned { Owns self.old (at / 4096) → IsOk result }
        ensures marks { Marks self.old self.new }
    {
        self.table.try_store(at, width, value)
    }

    /// Writes a byte, whatever the page's permission. The page is owned then, and where it was owned nothing else changes. The one
    /// error is want of memory: nothing has changed then. It does not come where the page was owned.
    pub fn write(&mut self, at: u32, byte: u8) -> Result<(), AllocError>
        ensures ok { OnOk result (self.new ≡ with_written self.old at byte) }
        ensures err { OnErr result (self.new ≡ self.old) }
        ensures owned { Owns self.old (at / 4096) → IsOk result }
        ensures in_place { Owns self.old (at / 4096) → self.new ≡ record self.old { memory = with_byte self.old.memory at byte } }
        ensures marks { Marks self.old self.new }
    {
        self.own_page(at / 4096)?;
        self.write_in_page(at, &[byte]);
        Ok(())
    }

    /// Gives each page of a range the permission, 0 to 7: 1 reads, 2 writes, 4 executes, and each sum of them allows what its parts
    /// allow. Bytes stay, and which pages are owned. Its one error is want of memory: nothing has changed then.
    pub fn set_perm(&mut self, range: Pages, perm: u8) -> Result<(), AllocError>
        requires { perm ≤ greatest_permission }
        ensures ok { OnOk result (self.new ≡ record self.old { memory = with_permissions self.old.memory range.first range.count perm }) }
        ensures err { OnErr result (self.new ≡ self.old) }
        ensures marks { Marks self.old self.new }
    {
        self.table
            .set_permission(range.first, range.first + range.count, perm)
    }

    /// Makes the bytes of each page of a range 0; permissions stay, and which other pages are owned and dirty. Its one error is want
    /// of memory: nothing has changed then.
    pub fn zero(&mut self, range: Pages) -> Result<(), AllocError>
        ensures ok { OnOk result (self.new.memory ≡ with_zeros self.old.memory range.first range.count) }
        ensures err { OnErr result (self.new ≡ self.old) }
        ensures outside { KeepsMarksOutside range.first (range.first + range.count) self.old self.new }
        ensures marks { Marks self.old self.new }
    {
        self.table.zero(range.first, range.first + range.count)
    }

    /// The least page from `n` on that has a permission or a byte other than 0; none exactly where there is none.
    pub fn next_page(&self, n: u32) -> Option<u32>
        ensures some { IfSome result (IsNextPage self.now.memory n) }
        ensures none { IsNone result → NoneUsed self.now.memory n 1048576 }
    {
        self.table.next_page(n)
    }

    /// Makes each page that is kept one that can be shared: bytes and permissions stay, and no page is owned then. A write to a
    /// page that is shared copies it first. The one error is want of memory: some pages may be owned then as they were, and no other is.
    pub fn freeze(&mut self) -> Result<(), AllocError>
        ensures same { self.new.memory ≡ self.old.memory }
        ensures none { OnOk result (self.new.owned ≡ no_values) }
        ensures less { (page : ℕ) → Owns self.new page → Owns self.old page }
        ensures dirty { self.new.dirty ≡ self.old.dirty }
    {
        self.table.freeze()
    }

    /// An equal memory, which no later write to this one changes. Both share all pages, and own none then. The one error is want of
    /// memory: bytes and permissions are as they were then, and no page is owned that was not.
    pub fn frozen(&mut self) -> Result<Mem, AllocError>
        ensures equal { IfOk result (λ m. m.memory ≡ self.old.memory) }
        ensures shared { IfOk result (λ m. m.owned ≡ no_values) }
        ensures same { self.new.memory ≡ self.old.memory }
        ensures none { OnOk result (self.new.owned ≡ no_values) }
        ensures less { (page : ℕ) → Owns self.new page → Owns self.old page }
        ensures dirty { IfOk result (λ m. m.dirty ≡ self.old.dirty) }
        ensures stays { self.new.dirty ≡ self.old.dirty }
    {
        self.table.freeze()?;
        let table = self.table.share_as_dirty()?;
        Ok(Mem { table })
    }

    /// Marks a page, below 2^20, as dirty. The one error is want of memory: nothing has changed then.
    pub fn mark(&mut self, page: u32) -> Result<(), AllocError>
        requires { page < 1048576 }
        ensures ok { OnOk result (self.new ≡ record self.old { dirty = put self.old.dirty page 1 }) }
        ensures err { OnErr result (self.new ≡ self.old) }
    {
        self.table.mark(page)
    }

    /// Marks a page, below 2^20, as clean, and makes it one that can be shared, since an owned page is dirty. Bytes and permissions stay, and
    /// no page is owned that was not. The one error is want of memory: the same pages are dirty then as before.
    pub fn unmark(&mut self, page: u32) -> Result<(), AllocError>
        requires { page < 1048576 }
        ensures same { self.new.memory ≡ self.old.memory }
        ensures ok { OnOk result (self.new.dirty ≡ put self.old.dirty page 0) }
        ensures err { OnErr result (self.new.dirty ≡ self.old.dirty) }
        ensures less { (other : ℕ) → Owns self.new other → Owns self.old other }
    {
        self.table.freeze_range(page, page + 1)?;
        self.table.unmark(page)
    }

    /// Marks every page as dirty.
    pub fn mark_all(&mut self)
        ensures { self.new ≡ record self.old { dirty = all_pages } }
    {
        self.table.mark_all();
    }

    /// No page is dirty any more. None may be owned.
    pub fn clean(&mut self)
        requires { self.old.owned ≡ no_values }
        ensures { self.new ≡ record self.old { dirty = no_values } }
    {
        self.table.clean();
    }

    /// The least dirty page from `n` on; none exactly where there is none.
    pub fn next_dirty(&self, n: u32) -> Option<u32>
        ensures some { IfSome result (IsNextDirty self.now n) }
        ensures none { IsNone result → AllClean self.now n 1048576 }
    {
        self.table.next_dirty(n)
    }

    /// A page from `from` to before `end`, which is at most 2^20, before which all bytes from `from` on are 0: the least of which bytes are
    /// kept. None only where all of them are 0. It looks at no page beside.
    pub fn next_kept(&self, from: u32, end: u32) -> Option<u32>
        requires { end ≤ 1048576 }
        ensures some { IfSome result (IsNextKept self.now.memory from end) }
        ensures none { IsNone result → AllZero self.now.memory from end }
    {
        self.table.next_kept(from, end)
    }

    /// Where the pages from one on, below 2^20, end that have its permission and no byte other than 0: the page itself where bytes are kept of
    /// it. It may stop early, where a part of the table ends, and looks at 64 pages at most.
    pub fn bare_end(&self, page: u32) -> u32
        requires { page < 1048576 }
        ensures above { page ≤ result }
        ensures below { result ≤ 1048576 }
        ensures zero { AllZero self.now.memory page result }
        ensures permission { HaveOnePermission self.now.memory page result }
    {
        self.table.bare_end(page)
    }

    /// An equal memory, which no later write to this one changes; none of its pages is dirty. Both share all pages, and own none then. The one
    /// error is want of memory: bytes and permissions are as they were then, and which pages are dirty, and no page is owned that was not.
    pub fn share(&mut self) -> Result<Mem, AllocError>
        ensures equal { IfOk result (λ m. m.memory ≡ self.old.memory) }
        ensures shared { IfOk result (λ m. m.owned ≡ no_values) }
        ensures clean { IfOk result (λ m. m.dirty ≡ no_values) }
        ensures same { self.new.memory ≡ self.old.memory }
        ensures none { OnOk result (self.new.owned ≡ no_values) }
        ensures less { (page : ℕ) → Owns self.new page → Owns self.old page }
        ensures stays { self.new.dirty ≡ self.old.dirty }
    {
        self.table.freeze()?;
        let table = self.table.share()?;
        Ok(Mem { table })
    }

    /// The bytes of a page; none only where all are 0.
    pub fn page(&self, n: u32) -> Option<&PageRef>
        ensures some { IfSome result (λ page. IsPageOf self.now.memory n (bytes_of page.now)) }
        ensures none { IsNone result → IsZeroPage self.now.memory n }
    {
        self.table.page(n)
    }

    /// Puts a page's bytes in the place of those of page `n`, below 2^20; the permission stays. The page is owned then; one
    /// that others share is copied. Its one error is want of memory.
    pub fn put_page(&mut self, n: u32, page: PageRef) -> Result<(), AllocError>
        requires { n < 1048576 }
        ensures ok { OnOk result (self.new ≡ owning self.old n (with_page self.old.memory n (bytes_of page))) }
        ensures err { OnErr result (self.new ≡ self.old) }
        ensures marks { Marks self.old self.new }
    {
        self.own_page(n)?;
        self.write_in_page(4096 * n, page.bytes());
        Ok(())
    }

    /// Whether a page, below 2^20, is owned: a write to it takes no memory.
    pub fn owns(&self, page: u32) -> bool
        requires { page < 1048576 }
        ensures { IsTrue result ↔ Owns self.now page }
    {
        self.table.owns(page)
    }

    /// What every memory keeps: bytes below 256 at addresses below 2^32, and permissions up to 7 of pages below 2^20.
    #[inline(always)]
    pub fn bounds(&self)
        ensures { IsBounded self.now.memory }
    {
        self.table.bounds();
    }

    // Owns a page, which is dirty then. Where the page is owned, it takes no memory and changes nothing.
    pub(crate) fn own_page(&mut self, page: u32) -> Result<(), AllocError>
        requires { page < 1048576 }
        ensures ok { OnOk result (self.new ≡ owning self.old page self.old.memory) }
        ensures err { OnErr result (self.new ≡ self.old) }
        ensures idle { Owns self.old page → IsOk result }
        ensures again { Owns self.old page → self.new ≡ self.old }
        ensures marks { Marks self.old self.new }
    {
        self.table.own_page(page)
    }
}
