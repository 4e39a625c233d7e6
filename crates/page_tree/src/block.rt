ghost use Rattle.std.specs.Prelude.{◌≡◌, ℕ, ◌+◌, ◌<◌, ◌≤◌, ◌%◌, ◌&&◌, not, nat_lt, cond, IfErr, IfOk, IsErr, IsOk, OnOk, OnErr, IfSome, IsNone, IsTrue, IsFalse, false, true, length, slice_index, slice_index_or};
ghost use Rattle.page_store.specs.Bytes.{bytes_of, is_own, IsPage, with_bytes_in};
ghost use Rattle.page_tree.specs.BareBlocks.{bare_permission};
ghost use Rattle.page_tree.specs.Blocks.{block_pages, page_in, permission_in, byte_in, is_own_in, IsWhole, AreWhole, IsShare, SameBytes, NoneOwn, IsBlankIn, within};

use crate::bare_block::BareBlock;
use crate::slots::Slots;
use page_store::PageRef;
use std::alloc::{AllocError, Global};

/// How many pages a block has.
pub const BLOCK_PAGES: usize = 64;

/// 64 pages in a row, each with its permission. The bytes of a page that is not kept are 0.
#[derive(Drop)]
pub struct Block {
    pub pages: Slots,
    pub permissions: [u8; BLOCK_PAGES],
}

impl Block {
    /// A block of pages that are not kept, each with the permission.
    pub fn uniform(permission: u8) -> Block
        ensures pages { (j : ℕ) → page_in result j ≡ None }
        ensures permissions { (j : ℕ) → j < block_pages → permission_in result j ≡ permission }
    {
        Block {
            pages: Slots::none(),
            permissions: [permission; BLOCK_PAGES],
        }
    }

    /// A block of pages that are not kept, with these permissions.
    pub fn bare(permissions: [u8; BLOCK_PAGES]) -> Block
        ensures pages { (j : ℕ) → page_in result j ≡ None }
        ensures permissions { result.permissions ≡ permissions }
    {
        Block {
            pages: Slots::none(),
            permissions,
        }
    }

    /// What is kept of a page.
    #[inline(always)]
    pub fn page(&self, j: usize) -> Option<&PageRef>
        ensures some { IfSome result (λ page. page_in self.now j ≡ Some page.now) }
        ensures none { IsNone result → page_in self.now j ≡ None }
    {
        self.pages.get(j)
    }

    /// A block of the same pages: of shared ones another holder, of own ones copies. Its one error is want of memory.
    pub fn share(&self, alloc: Global) -> Result<Block, AllocError>
        ensures { IfOk result (λ copy. IsShare self.now copy) }
    {
        let mut pages = Slots::none();
        for j in 0..BLOCK_PAGES {
            let copy = self.share_at(j, alloc)?;
            pages.replace(j, copy);
        }
        Ok(Block {
            pages,
            permissions: self.permissions,
        })
    }

    // A page of the same bytes, where one is kept.
    #[inline(always)]
    fn share_at(&self, j: usize, alloc: Global) -> Result<Option<PageRef>, AllocError>
        ensures bytes { IfOk result (λ copy. (k : ℕ) → byte_in copy k ≡ byte_in (page_in self.now j) k) }
        ensures own { IfOk result (λ copy. is_own_in copy ≡ is_own_in (page_in self.now j)) }
        ensures whole { IfOk result (λ copy. IsWhole copy) }
    {
        match self.page(j) {
            Some(page) => {
                let copy = page.share(alloc)?;
                let _whole = copy.bytes();
                Ok(Some(copy))
            }
            None => Ok(None),
        }
    }

    /// Makes each page that is kept one that can be shared. Bytes and permissions stay, and no page becomes an own one. At an error,
    /// want of memory, some pages may be own ones as they were.
    pub fn freeze(&mut self, alloc: Global) -> Result<(), AllocError>
        ensures same { SameBytes self.old self.new }
        ensures none { OnOk result (NoneOwn self.new) }
        ensures less { (j : ℕ) → j < block_pages → is_own_in (page_in self.new j) ≡ true → is_own_in (page_in self.old j) ≡ true }
        ensures whole { AreWhole self.old → AreWhole self.new }
    {
        if self.pages.is_empty() {
            return Ok(());
        }
        for j in 0..BLOCK_PAGES {
            self.pages.freeze(j, alloc)?;
        }
        Ok(())
    }

    /// Gives the pages from `from` to before `to` the permission.
    pub fn permit(&mut self, from: usize, to: usize, permission: u8)
        requires rise { from ≤ to }
        requires within { to ≤ block_pages }
        ensures pages { self.new.pages ≡ self.old.pages }
        ensures permissions { (j : ℕ) → permission_in self.new j ≡ cond (within from to j) permission (permission_in self.old j) }
    {
        for j in from..to {
            self.permissions[j] = permission;
        }
    }

    /// Forgets the pages from `from` to before `to`; permissions stay.
    pub fn clear(&mut self, from: usize, to: usize)
        requires rise { from ≤ to }
        requires within { to ≤ block_pages }
        ensures permissions { self.new.permissions ≡ self.old.permissions }
        ensures pages { (j : ℕ) → page_in self.new j ≡ cond (within from to j) None (page_in self.old j) }
    {
        for j in from..to {
            self.pages.replace(j, None);
        }
    }

    /// Takes the pages from `from` to before `to`, and their permissions, out of another block.
    pub fn take(&mut self, other: &mut Block, from: usize, to: usize)
        requires rise { from ≤ to }
        requires within { to ≤ block_pages }
        ensures permissions { (j : ℕ) → permission_in self.new j ≡ cond (within from to j) (permission_in other.old j) (permission_in self.old j) }
        ensures pages { (j : ℕ) → page_in self.new j ≡ cond (within from to j) (page_in other.old j) (page_in self.old j) }
    {
        for j in from..to {
            self.permissions[j] = other.permissions[j];
            let page = other.pages.replace(j, None);
            self.pages.replace(j, page);
        }
    }

    /// Forgets the pages from `from` to before `to`, and takes their permissions from a bare block.
    pub fn take_bare(&mut self, other: &BareBlock, from: usize, to: usize)
        requires rise { from ≤ to }
        requires within { to ≤ block_pages }
        ensures permissions { (j : ℕ) → permission_in self.new j ≡ cond (within from to j) (bare_permission other.now j) (permission_in self.old j) }
        ensures pages { (j : ℕ) → page_in self.new j ≡ cond (within from to j) None (page_in self.old j) }
    {
        for j in from..to {
            self.permissions[j] = other.permissions[j];
            self.pages.replace(j, None);
        }
    }

    /// Keeps the pages from `from` to before `to` alone, with their permissions; the others are those of a bare block.
    pub fn lay_into(&mut self, around: &BareBlock, from: usize, to: usize)
        requires rise { from ≤ to }
        requires within { to ≤ block_pages }
        ensures permissions { (j : ℕ) → j < block_pages → permission_in self.new j ≡ cond (within from to j) (permission_in self.old j) (bare_permission around.now j) }
        ensures pages { (j : ℕ) → j < block_pages → page_in self.new j ≡ cond (within from to j) (page_in self.old j) None }
    {
        self.take_bare(around, 0, from);
        self.take_bare(around, to, BLOCK_PAGES);
    }

    /// The least page from `from` on that has a permission or a byte other than 0.
    pub fn next_used(&self, from: usize) -> Option<usize>
        ensures from { IfSome result (λ j. from ≤ j) }
        ensures within { IfSome result (λ j. j < block_pages) }
        ensures used { IfSome result (λ j. IsBlankIn self.now j → ⊥) }
        ensures least { IfSome result (λ j. (i : ℕ) → from ≤ i → i < j → IsBlankIn self.now i) }
        ensures none { IsNone result → (i : ℕ) → from ≤ i → i < block_pages → IsBlankIn self.now i }
    {
        for j in from..BLOCK_PAGES {
            if !self.is_blank(j) {
                return Some(j);
            }
        }
        None
    }

    // Whether a page has no permission and no byte other than 0.
    fn is_blank(&self, j: usize) -> bool
        requires { j < block_pages }
        ensures blank { IsTrue result → IsBlankIn self.now j }
        ensures used { IsFalse result → IsBlankIn self.now j → ⊥ }
    {
        if self.permissions[j] != 0 {
            return false;
        }
        match self.page(j) {
            Some(page) => page.is_zero(),
            None => true,
        }
    }

    /// Gives a page bytes of its holder's own. It takes no memory where it has such. The one error is want of memory: nothing has
    /// changed then.
    pub fn own_page(&mut self, j: usize, alloc: Global) -> Result<(), AllocError>
        requires { j < block_pages }
        ensures same { SameBytes self.old self.new }
        ensures other { (i : ℕ) → (i ≡ j → ⊥) → page_in self.new i ≡ page_in self.old i }
        ensures own { OnOk result (is_own_in (page_in self.new j) ≡ true) }
        ensures whole { AreWhole self.old → AreWhole self.new }
        ensures err { OnErr result (self.new ≡ self.old) }
        ensures idle { is_own_in (page_in self.old j) ≡ true → IsOk result }
    {
        self.pages.own(j, alloc)
    }
}
