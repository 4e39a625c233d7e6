ghost use Rattle.std.specs.Prelude.{◌≡◌, ◌<◌, ◌≤◌, ◌+◌, ◌++◌, ◌∷◌, ℕ, [], length, IfOk, IsTrue, None, Some, OnOk};
ghost use Rattle.memory_model.specs.Memory.{no_memory};
ghost use Rattle.memory_model.specs.Ranges.{with_page};
ghost use Rattle.memory_model.specs.Sizes.{greatest_permission, page_size, pages};
ghost use Rattle.parcel_model.specs.Parcel.{whole, with_entry};
ghost use Rattle.std.specs.List.{All};
ghost use Rattle.node_parcel.specs.AtOnce.{entry_by, meant, number_after, with_run, AreThere, IsRun};
ghost use Rattle.node_parcel.specs.OneNumber.{ArePut, EndsBy, HasSpan};

use crate::residents::Residents;
use crate::spans::Span;
use memory_model::PAGE_SIZE;
use space_mem::{Mem, Pages};
use std::alloc::{AllocError, Global};

/// Pages that are put at once: `count` from `first` on with one permission, each with the bytes of the resident page behind that of the page
/// before, from `number` on, or each without bytes.
#[derive(Clone, Copy)]
pub(crate) struct Run {
    pub first: u32,
    pub count: u32,
    pub permission: u8,
    pub number: Option<u32>,
}

impl Run {
    // No pages, at a page.
    fn none(first: u32) -> Run
        ensures { result ≡ record { first = first; count = 0; permission = 0; number = None } }
    {
        Run {
            first,
            count: 0,
            permission: 0,
            number: None,
        }
    }

    // The number behind those of the run.
    #[tactic(auto, unfolding(crate::specs::AtOnce::number_after))]
    fn next_number(&self, known: &Residents) -> Option<u32>
        requires { IsRun known.now self.now }
        ensures { result ≡ number_after self.now.number self.now.count }
    {
        known.bounds();
        match self.number {
            Some(number) => Some(number + self.count),
            None => None,
        }
    }

    // Whether a page goes on with the run.
    fn goes_on(&self, known: &Residents, page: u32, permission: u8, number: Option<u32>) -> bool
        requires { IsRun known.now self.now }
        ensures page { IsTrue result → page ≡ self.now.first + self.now.count }
        ensures permission { IsTrue result → permission ≡ self.now.permission }
        ensures number { IsTrue result → number ≡ number_after self.now.number self.now.count }
    {
        page == self.first + self.count
            && permission == self.permission
            && number == self.next_number(known)
    }
}

/// A memory to which pages are added by rising number, of which the last ones may still be to be put, with the spans of those that have the bytes
/// of resident pages.
#[derive(Drop)]
pub(crate) struct Placing {
    pub memory: Mem,
    pub spans: Vec<Span>,
    pub run: Run,
}

/// A memory, with the spans of its pages that have the bytes of resident pages, by rising page.
#[derive(Drop)]
pub(crate) struct Placed {
    pub memory: Mem,
    pub spans: Vec<Span>,
}

// Puts the bytes of a page.
#[tactic(auto, using(crate::proofs::Pages::written))]
fn put_bytes(memory: &mut Mem, page: u32, bytes: &[u8]) -> Result<(), AllocError>
    requires page { page < pages }
    requires whole { length bytes.now ≡ page_size }
    ensures { OnOk result (memory.new.memory ≡ with_page memory.old.memory page bytes.now) }
{
    memory.write_bytes(PAGE_SIZE * page, bytes)
}

impl Placing {
    /// No pages.
    pub fn new(alloc: Global, known: &Residents) -> Placing
        ensures means { meant known.now result ≡ no_memory }
        ensures run { IsRun known.now result.run }
        ensures put { ArePut known.now result 0 }
    {
        let memory = Mem::new(alloc);
        let spans = Vec::new(alloc);
        let run = Run::none(0);
        Placing { memory, spans, run }
    }

    // Puts pages with the bytes of the resident pages from a number on.
    fn put_span(&mut self, known: &Residents, number: u32, pages: Pages) -> Result<(), AllocError>
        requires there { number + pages.count ≤ length known.now }
        requires permission { self.old.run.permission ≤ greatest_permission }
        ensures memory { OnOk result (self.new.memory.memory ≡ with_run known.now self.old.memory.memory pages.first self.old.run.permission (Some number) pages.count) }
        ensures spans { OnOk result (self.new.spans.items ≡ self.old.spans.items ++ record { pages = pages; number = number } ∷ []) }
    {
        known.place(&mut self.memory, number, pages, self.run.permission)?;
        self.spans.push(Span { pages, number })?;
        Ok(())
    }

    // Puts the pages that are still to be put.
    fn put_run(&mut self, known: &Residents) -> Result<(), AllocError>
        requires run { IsRun known.now self.old.run }
        ensures memory { OnOk result (self.new.memory.memory ≡ meant known.now self.old) }
        ensures held { OnOk result ((page : ℕ) → ArePut known.now self.old page → All (HasSpan known.now self.new.memory.memory) self.new.spans.items) }
        ensures before { OnOk result ((page : ℕ) → ArePut known.now self.old page → All (EndsBy page) self.new.spans.items) }
    {
        let range = Pages {
            first: self.run.first,
            count: self.run.count,
        };
        match self.run.number {
            Some(number) => self.put_span(known, number, range),
            None => self.memory.set_perm(range, self.run.permission),
        }
    }

    /// Adds a page with the bytes of the resident page of a number, or without bytes.
    pub fn add(
        &mut self,
        known: &Residents,
        page: u32,
        permission: u8,
        number: Option<u32>,
    ) -> Result<(), AllocError>
        requires run { IsRun known.now self.old.run }
        requires page { page < pages }
        requires permission { permission ≤ greatest_permission }
        requires there { AreThere known.now number 1 }
        requires put { ArePut known.now self.old page }
        ensures means { OnOk result (meant known.now self.new ≡ with_entry known.now (meant known.now self.old) (entry_by page permission number)) }
        ensures run { OnOk result (IsRun known.now self.new.run) }
        ensures put { OnOk result (ArePut known.now self.new (page + 1)) }
    {
        if self.run.goes_on(known, page, permission, number) {
            self.run.count += 1;
            return Ok(());
        }
        self.put_run(known)?;
        self.run = Run {
            first: page,
            count: 1,
            permission,
            number,
        };
        Ok(())
    }

    /// Adds a page with these bytes.
    pub fn add_whole(
        &mut self,
        known: &Residents,
        page: u32,
        permission: u8,
        bytes: &[u8],
    ) -> Result<(), AllocError>
        requires run { IsRun known.now self.old.run }
        requires page { page < pages }
        requires permission { permission ≤ greatest_permission }
        requires whole { length bytes.now ≡ page_size }
        requires put { ArePut known.now self.old page }
        ensures means { OnOk result (meant known.now self.new ≡ with_entry known.now (meant known.now self.old) (record { page = page; permission = permission; content = whole bytes.now })) }
        ensures run { OnOk result (IsRun known.now self.new.run) }
        ensures put { OnOk result (ArePut known.now self.new (page + 1)) }
    {
        self.put_run(known)?;
        self.run = Run::none(page);
        put_bytes(&mut self.memory, page, bytes)?;
        let range = Pages {
            first: page,
            count: 1,
        };
        self.memory.set_perm(range, permission)
    }

    /// The memory, with all pages.
    pub fn finish(mut self, known: &Residents) -> Result<Placed, AllocError>
        requires { IsRun known.now self.run }
        ensures memory { IfOk result (λ placed. placed.memory.memory ≡ meant known.now self) }
        ensures spans { IfOk result (λ placed. (page : ℕ) → ArePut known.now self page → All (HasSpan known.now placed.memory.memory) placed.spans.items) }
    {
        self.put_run(known)?;
        Ok(Placed {
            memory: self.memory,
            spans: self.spans,
        })
    }
}
