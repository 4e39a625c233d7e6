ghost use Rattle.std.specs.Prelude.{◌≡◌, ◌↔◌, ◌<◌, IfOk, IsTrue, OnErr, OnOk};
ghost use Rattle.std.proofs.Common.{rules};
ghost use Rattle.std.specs.Cmp.{partial_order_from_own_ties};
ghost use Rattle.std.specs.Cmp.Lexicographic.{pointwise, slice_cmp};
ghost use Rattle.std.specs.Cmp.Rules.{comparing};
ghost use Rattle.std.specs.Ordering.{as_partial_cmp, nat_cmp};
ghost use Rattle.std.specs.Prelude.{nat_eq};
ghost use Rattle.memory_model.specs.Ranges.{with_page};
ghost use Rattle.page_store.specs.Bytes.{bytes_of, IsPage};
ghost use Rattle.parcel_model.specs.Parcel.{is_zero};

use memory_model::PAGE_SIZE;
use page_store::PageRef;
use space_mem::Mem;
use std::alloc::{AllocError, Global};
use std::cmp::Ordering;
use std::marker::Model;

/// A page that a node has: 4,096 bytes, which others may hold too and no write changes. Contracts see the list of its bytes. Whether all of
/// them are 0 is kept beside them.
#[derive(Drop)]
pub struct ResidentPage {
    page: PageRef,
    zero: bool,
}

impl Model for ResidentPage {
    ghost use Rattle.std.specs.Prelude.{◌≡◌, List, ℕ, false};
    ghost use Rattle.page_store.specs.Bytes.{bytes_of, is_own, IsPage};
    ghost use Rattle.parcel_model.specs.Parcel.{is_zero};
    ghost use Rattle.parcel_model.specs.Residents.{coded_page};

    ghost Value = { List ℕ };

    ghost coded = { coded_page };

    ghost view = { λ p. bytes_of p.page };

    ghost invariant = { λ p. (is_own p.page ≡ false) × (IsPage (bytes_of p.page) × (p.zero ≡ is_zero (bytes_of p.page))) };
}

/// Whether every byte of a page is 0.
#[tactic(auto, using(crate::proofs::Pages::zero_page))]
pub(crate) fn is_zero_page(page: &PageRef) -> bool
    ensures { result ≡ is_zero (bytes_of page.now) }
{
    page.is_zero()
}

impl ResidentPage {
    /// A page of these bytes: another holder of a page that is shared, and a copy of one that is its holder's own. Its one error is want of
    /// memory.
    pub fn of(alloc: Global, page: &PageRef) -> Result<ResidentPage, AllocError>
        ensures { IfOk result (λ p. p ≡ bytes_of page.now) }
    {
        let page = page.share(alloc)?.freeze(alloc)?;
        let _bytes = page.bytes();
        let zero = is_zero_page(&page);
        Ok(ResidentPage { page, zero })
    }

    /// The page's bytes.
    pub fn bytes(&self) -> &[u8; PAGE_SIZE as usize]
        ensures bytes { result.now ≡ self.now }
        ensures whole { IsPage self.now }
    {
        self.page.bytes()
    }

    /// Whether every byte is 0.
    pub fn is_zero(&self) -> bool
        ensures { result ≡ is_zero self.now }
    {
        self.zero
    }

    /// Whether it has the same bytes as a page.
    pub fn has_bytes_of(&self, page: &PageRef) -> bool
        ensures { IsTrue result ↔ (self.now ≡ bytes_of page.now) }
    {
        self.page.has_bytes_of(page)
    }

    /// Puts the page's bytes in the place of those of page `n` of a memory, below 2^20, which owns it then. Its one error is want of memory.
    pub fn put_into(&self, alloc: Global, memory: &mut Mem, n: u32) -> Result<(), AllocError>
        requires { n < 1048576 }
        ensures ok { OnOk result (memory.new.memory ≡ with_page memory.old.memory n self.now) }
        ensures err { OnErr result (memory.new.memory ≡ memory.old.memory) }
    {
        memory.put_page(n, self.page.share(alloc)?)
    }

    /// Another holder of the page. Its one error is want of memory.
    pub fn another(&self, alloc: Global) -> Result<ResidentPage, AllocError>
        ensures { IfOk result (λ p. p ≡ self.now) }
    {
        let page = self.page.share(alloc)?;
        let zero = self.zero;
        Ok(ResidentPage { page, zero })
    }
}

impl PartialEq for ResidentPage {
    ghost eq = { pointwise nat_eq };

    ghost laws = { Prim.search (comparing, rules) };

    fn eq(&self, other: &ResidentPage) -> bool {
        self.bytes() == other.bytes()
    }
}

impl Eq for ResidentPage {
    ghost laws = { Prim.search (comparing, rules) };
}

impl Ord for ResidentPage {
    ghost cmp = { slice_cmp nat_cmp };

    ghost total = { Prim.search (comparing, rules) };

    ghost matches_partial_cmp = { Prim.search (comparing, rules) };

    ghost matches_eq = { Prim.search (comparing, rules) };

    fn cmp(&self, other: &ResidentPage) -> Ordering {
        self.bytes().cmp(other.bytes())
    }
}

impl PartialOrd for ResidentPage {
    ghost partial_cmp = { as_partial_cmp (slice_cmp nat_cmp) };

    ghost laws = { partial_order_from_own_ties (Prim.search (comparing, rules)) (Prim.search (comparing, rules)) };

    fn partial_cmp(&self, other: &ResidentPage) -> Option<Ordering> {
        Some(self.cmp(other))
    }
}
