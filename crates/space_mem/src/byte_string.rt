ghost use Rattle.std.specs.Prelude.{◌≡◌, ℕ, ◌+◌, ◌*◌, ◌/◌, ◌%◌, ◌^◌, ◌<◌, ◌≤◌, ◌++◌, IfOk, IfSome, IsOk, OnOk, OnErr, length, vec_len};
ghost use Rattle.memory_model.specs.Memory.{bytes_from, with_bytes};
ghost use Rattle.memory_model.specs.Sizes.{page_size, pages};
ghost use Rattle.space_mem.specs.Held.{HasNoneOf, KeepsMarksOutside, KeepsMarks, Marks, Owns};

use crate::layout::Pages;
use crate::memory::Mem;
use memory_model::PAGE_SIZE;
use std::alloc::{AllocError, Global};

impl Mem {
    /// The bytes at `count` addresses from `at` on, whatever the permissions; they end within the memory. Its one error is want
    /// of memory.
    pub fn bytes(&self, alloc: Global, at: u32, count: u32) -> Result<Vec<u8>, AllocError>
        requires { at + count ≤ 2 ^ 32 }
        ensures { IfOk result (λ bytes. bytes.items ≡ bytes_from self.now.memory at count) }
    {
        let mut bytes = Vec::with_capacity(alloc, count as usize)?;
        let mut done: u32 = 0;
        while done < count {
            let from = at + done;
            let part = (PAGE_SIZE - from % PAGE_SIZE).min(count - done);
            self.push_bytes(&mut bytes, from, part)?;
            done += part;
        }
        Ok(bytes)
    }

    /// The bytes at `count` addresses from `at` on, whatever the permissions, where the page that has them keeps them; none where it keeps none, or where
    /// they stand in more pages than one.
    #[inline(always)]
    pub fn lent(&self, at: u32, count: u32) -> Option<&[u8]>
        ensures { IfSome result (λ bytes. bytes.now ≡ bytes_from self.now.memory at count) }
    {
        if count == 0 {
            return Some(&[]);
        }
        let place = at % PAGE_SIZE;
        if count > PAGE_SIZE - place {
            return None;
        }
        match self.page(at / PAGE_SIZE) {
            Some(page) => Some(&page.bytes()[place as usize..(place + count) as usize]),
            None => None,
        }
    }

    // Adds the bytes at so many addresses of one page.
    fn push_bytes(&self, bytes: &mut Vec<u8>, at: u32, count: u32) -> Result<(), AllocError>
        requires { at % page_size + count ≤ page_size }
        ensures { OnOk result (bytes.new.items ≡ bytes.old.items ++ bytes_from self.now.memory at count) }
    {
        let place = (at % PAGE_SIZE) as usize;
        match self.page(at / PAGE_SIZE) {
            Some(page) => {
                bytes.extend_from_slice(&page.bytes()[place..place + count as usize])?;
                Ok(())
            }
            None => {
                bytes.resize(bytes.len() + count as usize, 0)?;
                Ok(())
            }
        }
    }

    /// Writes bytes from an address on, whatever the permissions; they end within the memory. Each page
    /// that has one of them is owned then, and each that was owned stays so; every other page is owned, and dirty, where it was. The
    /// one error is want of memory: no byte is written then. It does not come where each of those pages was owned, and then nothing but the
    /// bytes changes.
    pub fn write_bytes(&mut self, at: u32, bytes: &[u8]) -> Result<(), AllocError>
        requires { at + length bytes.now ≤ 2 ^ 32 }
        ensures ok { OnOk result (self.new.memory ≡ with_bytes self.old.memory at bytes.now) }
        ensures err { OnErr result (self.new.memory ≡ self.old.memory) }
        ensures owned { OnOk result ((k : ℕ) → k < length bytes.now → Owns self.new ((at + k) / 4096)) }
        ensures stays { (page : ℕ) → Owns self.old page → Owns self.new page }
        ensures idle { ((k : ℕ) → k < length bytes.now → Owns self.old ((at + k) / 4096)) → IsOk result }
        ensures in_place { ((k : ℕ) → k < length bytes.now → Owns self.old ((at + k) / 4096)) → self.new ≡ record self.old { memory = with_bytes self.old.memory at bytes.now } }
        ensures beside { (page : ℕ) → HasNoneOf at (length bytes.now) page → KeepsMarks self.old self.new page }
        ensures marks { Marks self.old self.new }
    {
        if bytes.is_empty() {
            return Ok(());
        }
        let end = (at as usize + bytes.len()).div_ceil(PAGE_SIZE as usize);
        self.own_pages(at / PAGE_SIZE, end as u32)?;
        self.write_owned(at, bytes);
        Ok(())
    }

    // Writes bytes from an address on, page by page, where each page is owned.
    fn write_owned(&mut self, at: u32, bytes: &[u8])
        requires within { at + length bytes.now ≤ 2 ^ 32 }
        requires owned { (page : ℕ) → at / page_size ≤ page → page_size * page < at + length bytes.now → Owns self.old page }
        ensures held { self.new ≡ record self.old { memory = with_bytes self.old.memory at bytes.now } }
        ensures marks { Marks self.old self.new }
    {
        let mut done: usize = 0;
        while done < bytes.len() {
            let from = (at as usize + done) as u32;
            let count = ((PAGE_SIZE - from % PAGE_SIZE) as usize).min(bytes.len() - done);
            self.write_in_page(from, &bytes[done..done + count]);
            done += count;
        }
    }

    // Writes bytes from an address of an owned page on that end within the page.
    pub(crate) fn write_in_page(&mut self, at: u32, bytes: &[u8])
        requires within { at % page_size + length bytes.now ≤ page_size }
        requires owned { Owns self.old (at / page_size) }
        ensures held { self.new ≡ record self.old { memory = with_bytes self.old.memory at bytes.now } }
        ensures marks { Marks self.old self.new }
    {
        self.table.write_in_page(at, bytes);
    }

    /// Owns each page of a range; bytes and permissions stay, and so do the pages that were owned. The one error is want of
    /// memory, which does not come where each page was owned: some pages of the range may be owned then that were not. Pages outside
    /// the range are owned, and dirty, where they were.
    pub fn own(&mut self, range: Pages) -> Result<(), AllocError>
        ensures same { self.new.memory ≡ self.old.memory }
        ensures owned { OnOk result ((page : ℕ) → range.first ≤ page → page < range.first + range.count → Owns self.new page) }
        ensures stays { (page : ℕ) → Owns self.old page → Owns self.new page }
        ensures idle { ((page : ℕ) → range.first ≤ page → page < range.first + range.count → Owns self.old page) → IsOk result }
        ensures outside { KeepsMarksOutside range.first (range.first + range.count) self.old self.new }
        ensures marks { Marks self.old self.new }
    {
        self.own_pages(range.first, range.first + range.count)
    }

    // Owns each page from `first` to before `end`. Where each was owned, nothing changes.
    fn own_pages(&mut self, first: u32, end: u32) -> Result<(), AllocError>
        requires { end ≤ pages }
        ensures same { self.new.memory ≡ self.old.memory }
        ensures owned { OnOk result ((page : ℕ) → first ≤ page → page < end → Owns self.new page) }
        ensures stays { (page : ℕ) → Owns self.old page → Owns self.new page }
        ensures idle { ((page : ℕ) → first ≤ page → page < end → Owns self.old page) → IsOk result }
        ensures again { ((page : ℕ) → first ≤ page → page < end → Owns self.old page) → self.new ≡ self.old }
        ensures outside { KeepsMarksOutside first end self.old self.new }
        ensures marks { Marks self.old self.new }
    {
        for page in first..end {
            self.own_page(page)?;
        }
        Ok(())
    }
}
