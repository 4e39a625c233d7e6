ghost use Rattle.std.specs.Prelude.{◌≡◌, ℕ, ◌<◌, ◌≤◌, IfOk, IfSome, IsNone, cond};
ghost use Rattle.page_tree.specs.Blocks.{block_pages, within};
ghost use Rattle.page_tree.specs.BareBlocks.{bare_permission, SameBare};

use crate::block::BLOCK_PAGES;
use std::alloc::{AllocError, Global};

/// The permissions of 64 pages in a row whose bytes are 0.
#[derive(Drop)]
pub struct BareBlock {
    pub permissions: [u8; BLOCK_PAGES],
}

impl BareBlock {
    /// One of pages that each have the permission.
    pub fn uniform(permission: u8) -> BareBlock
        ensures { (j : ℕ) → j < block_pages → bare_permission result j ≡ permission }
    {
        BareBlock {
            permissions: [permission; BLOCK_PAGES],
        }
    }

    /// One of the same permissions. It is not inlined, so that a loop over many blocks does not clear its place on the stack at each turn.
    #[inline(never)]
    pub fn copy(&self, alloc: Global) -> Result<Box<BareBlock, Global>, AllocError>
        ensures { IfOk result (λ copy. SameBare self.now copy.value) }
    {
        let copy = BareBlock {
            permissions: self.permissions,
        };
        let copy = Box::new(alloc, copy)?;
        Ok(copy)
    }

    /// Gives the pages from `from` to before `to` the permission.
    pub fn permit(&mut self, from: usize, to: usize, permission: u8)
        requires rise { from ≤ to }
        requires within { to ≤ block_pages }
        ensures { (j : ℕ) → bare_permission self.new j ≡ cond (within from to j) permission (bare_permission self.old j) }
    {
        for j in from..to {
            self.permissions[j] = permission;
        }
    }

    /// Takes the permissions of the pages from `from` to before `to` from another one.
    pub fn take(&mut self, other: &BareBlock, from: usize, to: usize)
        requires rise { from ≤ to }
        requires within { to ≤ block_pages }
        ensures { (j : ℕ) → bare_permission self.new j ≡ cond (within from to j) (bare_permission other.now j) (bare_permission self.old j) }
    {
        for j in from..to {
            self.permissions[j] = other.permissions[j];
        }
    }

    /// The least page from `from` on that has a permission other than 0.
    pub fn next_used(&self, from: usize) -> Option<usize>
        ensures from { IfSome result (λ j. from ≤ j) }
        ensures within { IfSome result (λ j. j < block_pages) }
        ensures used { IfSome result (λ j. bare_permission self.now j ≡ 0 → ⊥) }
        ensures least { IfSome result (λ j. (i : ℕ) → from ≤ i → i < j → bare_permission self.now i ≡ 0) }
        ensures none { IsNone result → (i : ℕ) → from ≤ i → i < block_pages → bare_permission self.now i ≡ 0 }
    {
        for j in from..BLOCK_PAGES {
            if self.permissions[j] != 0 {
                return Some(j);
            }
        }
        None
    }

    /// Where the pages of a page's permission end, from that page on.
    pub fn same_end(&self, page: usize) -> usize
        requires { page < block_pages }
        ensures rise { page < result }
        ensures within { result ≤ block_pages }
        ensures same { (j : ℕ) → page ≤ j → j < result → bare_permission self.now j ≡ bare_permission self.now page }
    {
        let permission = self.permissions[page];
        for j in page + 1..BLOCK_PAGES {
            if self.permissions[j] != permission {
                return j;
            }
        }
        BLOCK_PAGES
    }

    /// The permission of all pages, where they have one.
    pub fn one_permission(&self) -> Option<u8>
        ensures { IfSome result (λ permission. (j : ℕ) → j < block_pages → bare_permission self.now j ≡ permission) }
    {
        if self.same_end(0) < BLOCK_PAGES {
            return None;
        }
        Some(self.permissions[0])
    }
}
