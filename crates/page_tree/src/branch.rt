ghost use Rattle.std.specs.Prelude.{◌≡◌, ℕ, ◌+◌, ◌%◌, ◌<◌, ◌≤◌, cond, IfOk, IsOk, OnOk, OnErr, IfSome, IsNone, false, true};
ghost use Rattle.page_tree.specs.Blocks.{block_pages};
ghost use Rattle.page_tree.specs.Branches.{branch_pages, branch_blocks, block_at, branch_permission, branch_page, branch_own, SameBelow, SameOwnBelow, NoneOwnBelow, AreWholeBelow, IsOwnedBelow};
ghost use Rattle.page_tree.specs.BlockRefs.{SameRef, SameOwn, NoneOwnIn, AreWholeIn};
ghost use Rattle.page_tree.specs.declared.block_ref.BlockRef.TheVariants.{Uniform};

use crate::block::BLOCK_PAGES;
use crate::block_ref::BlockRef;
use page_store::PageRef;
use std::alloc::{AllocError, Global};
use std::array::from_fn;

/// How many blocks a branch has.
pub const BLOCKS: usize = 128;

/// How many pages a branch has.
pub const BRANCH_PAGES: usize = 8192;

/// 8,192 pages in a row.
#[derive(Drop)]
pub struct Branch {
    pub blocks: [BlockRef; BLOCKS],
}

impl Branch {
    /// The permission of a page.
    #[inline(always)]
    pub fn permission(&self, page: usize) -> u8
        requires { page < branch_pages }
        ensures { result ≡ branch_permission self.now page }
    {
        match self.blocks.get(page / BLOCK_PAGES) {
            Some(block) => block.permission(page % BLOCK_PAGES),
            None => 0,
        }
    }

    /// A branch of pages that are not kept, each with the permission.
    pub fn uniform(permission: u8) -> Branch
        ensures { (i : ℕ) → i < branch_blocks → block_at result i ≡ Uniform permission }
    {
        let mut blocks = from_fn(|_| BlockRef::Uniform(0));
        if permission != 0 {
            for i in 0..BLOCKS {
                blocks[i] = BlockRef::Uniform(permission);
            }
        }
        Branch { blocks }
    }

    /// What is kept of a page.
    #[inline(always)]
    pub fn page(&self, page: usize) -> Option<&PageRef>
        requires { page < branch_pages }
        ensures some { IfSome result (λ kept. branch_page self.now page ≡ Some kept.now) }
        ensures none { IsNone result → branch_page self.now page ≡ None }
    {
        match self.blocks.get(page / BLOCK_PAGES) {
            Some(block) => block.page(page % BLOCK_PAGES),
            None => None,
        }
    }

    /// The same pages: of what is shared another holder, and copies of the rest.
    pub fn share(&self, alloc: Global) -> Result<Branch, AllocError>
        ensures same { IfOk result (λ copy. SameBelow self.now copy) }
        ensures own { IfOk result (λ copy. SameOwnBelow self.now copy) }
        ensures whole { AreWholeBelow self.now → IfOk result (λ copy. AreWholeBelow copy) }
    {
        let mut blocks = from_fn(|_| BlockRef::Uniform(0));
        for i in 0..BLOCKS {
            blocks[i] = self.share_at(i, alloc)?;
        }
        Ok(Branch { blocks })
    }

    // What is kept of a block, shared.
    #[inline(always)]
    pub(crate) fn share_at(&self, i: usize, alloc: Global) -> Result<BlockRef, AllocError>
        ensures same { IfOk result (λ copy. SameRef (block_at self.now i) copy) }
        ensures own { IfOk result (λ copy. SameOwn (block_at self.now i) copy) }
        ensures whole { AreWholeIn (block_at self.now i) → IfOk result (λ copy. AreWholeIn copy) }
    {
        match self.blocks.get(i) {
            Some(block) => block.share(alloc),
            None => Ok(BlockRef::Uniform(0)),
        }
    }

    /// Makes it one that can be shared, with all its pages. No page becomes an own one. At an error, want of memory, some
    /// pages may be shared and others owned.
    pub fn freeze(&mut self, alloc: Global) -> Result<(), AllocError>
        ensures same { SameBelow self.old self.new }
        ensures none { OnOk result (NoneOwnBelow self.new) }
        ensures less { (j : ℕ) → j < branch_pages → branch_own self.new j ≡ true → branch_own self.old j ≡ true }
        ensures whole { AreWholeBelow self.old → AreWholeBelow self.new }
    {
        for i in 0..BLOCKS {
            self.blocks[i].freeze(alloc)?;
        }
        Ok(())
    }

    /// Owns a page too.
    pub fn own_page(&mut self, page: usize, alloc: Global) -> Result<(), AllocError>
        requires { page < branch_pages }
        ensures same { SameBelow self.old self.new }
        ensures owned { OnOk result (IsOwnedBelow page self.old self.new) }
        ensures whole { AreWholeBelow self.old → AreWholeBelow self.new }
        ensures err { OnErr result (SameOwnBelow self.old self.new) }
        ensures idle { branch_own self.old page ≡ true → IsOk result }
    {
        self.blocks[page / BLOCK_PAGES].own_page(page % BLOCK_PAGES, alloc)?;
        Ok(())
    }
}
