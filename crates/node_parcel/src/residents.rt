ghost use Rattle.std.specs.Prelude.{◌≡◌, ◌<◌, ◌≤◌, ◌-◌, ◌+◌, ◌*◌, ◌++◌, ◌∷◌, ℕ, [], length, take, Some, None, IfOk, IfSome, IsNone, IsTrue, OnOk, OnErr};
ghost use Rattle.memory_model.specs.Memory.{byte_at};
ghost use Rattle.memory_model.specs.Ranges.{with_page};
ghost use Rattle.memory_model.specs.Sizes.{greatest_permission, page_size};
ghost use Rattle.page_store.specs.Bytes.{bytes_of};
ghost use Rattle.parcel_model.specs.Parcel.{page_in};
ghost use Rattle.parcel_model.specs.Packing.{number_of};
ghost use Rattle.parcel_model.specs.Residents.{most_residents, with_resident, with_residents, AreResidents, IsLonger};
ghost use Rattle.node_parcel.specs.AtOnce.{with_run};

use crate::resident::ResidentPage;
use page_store::PageRef;
use space_mem::{Mem, Pages};
use std::alloc::{AllocError, Global};
use std::collections::BTreeMap;
use std::marker::Model;

const MOST_RESIDENTS: usize = 65_536;

/// The resident pages of a node, at most 65,536 of them and no two equal, counted from 0. Contracts see the list of them, each the list of
/// its bytes. The number of a page is found by its bytes, in as many steps as the count of pages has binary digits; whether it is a number
/// that was guessed, in one. They are also kept as the first pages of a memory, with which a space that takes them shares them.
#[derive(Drop)]
pub struct Residents {
    pages: Vec<ResidentPage>,
    numbers: BTreeMap<ResidentPage, u32>,
    memory: Mem,
}

impl Model for Residents {
    ghost use Rattle.std.specs.Prelude.{List, ℕ};
    ghost use Rattle.parcel_model.specs.Residents.{coded_residents, AreResidents};
    ghost use Rattle.node_parcel.specs.Numbers.{AreKept};

    ghost Value = { List (List ℕ) };

    ghost coded = { coded_residents };

    ghost view = { λ r. r.pages.items };

    ghost invariant = { λ r. AreKept r.numbers r.memory.memory r.pages.items };
}

// Puts the bytes of a page into a memory, as the page of a number, below 2^20: another holder of the page that is there. Other pages are as
// they were, also at an error.
fn keep(
    alloc: Global,
    memory: &mut Mem,
    number: u32,
    page: &ResidentPage,
) -> Result<ResidentPage, AllocError>
    requires { number < 1048576 }
    ensures kept { IfOk result (λ kept. kept ≡ page.now) }
    ensures ok { OnOk result (memory.new.memory ≡ with_page memory.old.memory number page.now) }
    ensures others { (n k : ℕ) → n < number → k < page_size → byte_at memory.new.memory (page_size * n + k) ≡ byte_at memory.old.memory (page_size * n + k) }
{
    let _bytes = page.bytes();
    page.put_into(alloc, memory, number)?;
    memory.freeze_range(Pages {
        first: number,
        count: 1,
    })?;
    match memory.page(number) {
        Some(kept) => ResidentPage::of(alloc, kept),
        None => page.another(alloc),
    }
}

impl Residents {
    /// No pages.
    pub fn new(alloc: Global) -> Residents
        ensures { result ≡ [] }
    {
        Residents {
            pages: Vec::new(alloc),
            numbers: BTreeMap::new(alloc),
            memory: Mem::new(alloc),
        }
    }

    /// How many pages there are.
    pub fn len(&self) -> usize
        ensures { result ≡ length self.now }
    {
        self.pages.len()
    }

    /// What every list keeps: there are at most 65,536 pages, and no two are equal.
    pub fn bounds(&self)
        ensures { AreResidents self.now }
    {
        let _pages = &self.pages;
    }

    /// The page of a number; none exactly where there is none.
    pub fn page(&self, number: u32) -> Option<&ResidentPage>
        ensures some { IfSome result (λ page. page.now ≡ page_in self.now number) }
        ensures there { IfSome result (λ page. number < length self.now) }
        ensures none { IsNone result → length self.now ≤ number }
    {
        self.pages.get(number as usize)
    }

    /// The least number of a page with these bytes; none exactly where there is none.
    pub fn number_of(&self, page: &ResidentPage) -> Option<u32>
        ensures { result ≡ number_of self.now page.now }
    {
        self.numbers.get(page).copied()
    }

    /// Whether the page of a number is there and has these bytes. Then it is the least number of such a page.
    pub fn has_at(&self, number: u32, page: &PageRef) -> bool
        ensures { IsTrue result → number_of self.now (bytes_of page.now) ≡ Some number }
    {
        self.bounds();
        match self.page(number) {
            Some(resident) => resident.has_bytes_of(page),
            None => false,
        }
    }

    /// Gives pages of a memory the bytes of as many resident pages from a number on, which they share, and a permission, 0 to 7. Its one error
    /// is want of memory.
    pub fn place(
        &self,
        memory: &mut Mem,
        number: u32,
        range: Pages,
        permission: u8,
    ) -> Result<(), AllocError>
        requires there { number + range.count ≤ length self.now }
        requires permission { permission ≤ greatest_permission }
        ensures { OnOk result (memory.new.memory ≡ with_run self.now memory.old.memory range.first permission (Some number) range.count) }
    {
        memory.copy_from(&self.memory, number, range)?;
        memory.set_perm(range, permission)
    }

    // Adds a page behind the others, where there is room and none with its bytes is there. At an error nothing has changed.
    fn push(&mut self, alloc: Global, page: &ResidentPage) -> Result<(), AllocError>
        requires room { length self.old < most_residents }
        requires absent { number_of self.old page.now ≡ None }
        ensures ok { OnOk result (self.new ≡ self.old ++ page.now ∷ []) }
        ensures err { OnErr result (self.new ≡ self.old) }
    {
        let number = self.pages.len() as u32;
        let kept = keep(alloc, &mut self.memory, number, page)?;
        let key = kept.another(alloc)?;
        self.pages.reserve(1)?;
        self.numbers.insert(key, number)?;
        self.pages.push_reserved(kept);
        Ok(())
    }

    /// Adds a page, where there is room and none with its bytes is there. The one error is want of memory: nothing has changed then.
    pub fn add(&mut self, alloc: Global, page: &ResidentPage) -> Result<(), AllocError>
        ensures ok { OnOk result (self.new ≡ with_resident self.old page.now) }
        ensures err { OnErr result (self.new ≡ self.old) }
    {
        if self.pages.len() >= MOST_RESIDENTS || self.number_of(page).is_some() {
            return Ok(());
        }
        self.push(alloc, page)
    }

    // Adds these pages, one after the other, until one is refused for want of memory.
    fn add_each(&mut self, alloc: Global, pages: &[ResidentPage]) -> Result<(), AllocError>
        ensures ok { OnOk result (self.new ≡ with_residents self.old pages.now) }
        ensures longer { IsLonger self.old self.new }
    {
        for page in pages {
            self.add(alloc, page)?;
        }
        Ok(())
    }

    /// Adds each of these pages for which there is room and which is not there yet, in their order. The one error is want of memory: nothing
    /// has changed then.
    pub fn add_all(&mut self, alloc: Global, pages: &[ResidentPage]) -> Result<(), AllocError>
        ensures ok { OnOk result (self.new ≡ with_residents self.old pages.now) }
        ensures err { OnErr result (self.new ≡ self.old) }
    {
        let count = self.len();
        let added = self.add_each(alloc, pages);
        if added.is_err() {
            self.truncate(count);
        }
        added
    }

    // Forgets the last page, where there is one.
    fn forget_last(&mut self)
        ensures { self.new ≡ take (length self.old - 1) self.old }
    {
        if let Some(page) = self.pages.pop() {
            self.numbers.remove(&page);
        }
    }

    /// Keeps the first `count` pages, or all where there are no more.
    pub fn truncate(&mut self, count: usize)
        ensures { self.new ≡ take count self.old }
    {
        while self.len() > count {
            self.forget_last();
        }
    }
}
