ghost use Rattle.std.specs.Prelude.{◌≡◌, ℕ, ◌+◌, ◌/◌, ◌%◌, ◌<◌, ◌==◌, cond, length, OnOk};
ghost use Rattle.page_tree.specs.Blocks.{block_pages, page_in, IsWhole};
ghost use Rattle.page_tree.specs.BlockRefs.{IsOwnBlock, AreWholeIn, ref_page, ref_row};
ghost use Rattle.page_tree.specs.Branches.{branch_pages, branch_blocks, block_at, branch_page, SameBelow, SameOwnBelow, AreWholeBelow, branch_row};
ghost use Rattle.page_tree.specs.BranchRefs.{limb_page, SameLimb, SameOwnLimb, AreWholeLimb, limb_row};
ghost use Rattle.page_tree.specs.Trees.{tree_pages, tree_branches, branch_at, tree_page, SameTree, SameOwnTree, AreWholeTree, tree_row};
ghost use Rattle.page_tree.specs.TreeRefs.{root_page, SameRoot, SameOwnRoot, AreWholeRoot, root_row};
ghost use Rattle.page_tree.specs.Ready.{ReadyBranch, ReadyLimb, ReadyTree, ReadyRoot, SameOtherBlocks, SameOtherBranches};
ghost use Rattle.page_tree.specs.Replaceable.{ReplaceableBelow, ReplaceableLimb, ReplaceableTree, ReplaceableRoot};
ghost use Rattle.page_tree.specs.Rows.{IsReplacedRow};

use crate::block::{BLOCK_PAGES, Block};
use crate::block_ref::BlockRef;
use crate::branch::{BRANCH_PAGES, Branch};
use crate::branch_ref::BranchRef;
use crate::tree::Tree;
use crate::tree_ref::TreeRef;
use page_store::PageRef;
use std::alloc::{AllocError, Global};

impl Block {
    /// Exchanges what is kept of a page.
    pub fn replace(&mut self, page: usize, kept: Option<PageRef>) -> Option<PageRef>
        requires { page < block_pages }
        ensures was { result ≡ page_in self.old page }
        ensures permissions { self.new.permissions ≡ self.old.permissions }
        ensures pages { (p : ℕ) → page_in self.new p ≡ cond (p == page) kept (page_in self.old p) }
    {
        self.pages.replace(page, kept)
    }
}

impl BlockRef {
    /// Exchanges what is kept of a page.
    pub fn replace(&mut self, page: usize, kept: Option<PageRef>) -> Option<PageRef>
        requires within { page < block_pages }
        requires ready { IsOwnBlock self.old }
        ensures was { result ≡ ref_page self.old page }
        ensures replaced { IsReplacedRow block_pages page kept (ref_row self.old) (ref_row self.new) }
        ensures ready { IsOwnBlock self.new }
        ensures whole { IsWhole kept → AreWholeIn self.old → AreWholeIn self.new }
        ensures given { AreWholeIn self.old → IsWhole result }
    {
        match self {
            BlockRef::Own(block) => block.replace(page, kept),
            _ => None,
        }
    }
}

impl Branch {
    /// Makes the block of a page its holder's own, so that what is kept of the page can be exchanged. Permissions, bytes and owners stay, and
    /// what could be exchanged still can, also at the one error, want of memory.
    pub fn own_block(&mut self, page: usize, alloc: Global) -> Result<(), AllocError>
        requires { page < branch_pages }
        ensures same { SameBelow self.old self.new }
        ensures own { SameOwnBelow self.old self.new }
        ensures ready { OnOk result (ReplaceableBelow page self.new) }
        ensures stays { (other : ℕ) → ReplaceableBelow other self.old → ReplaceableBelow other self.new }
        ensures whole { AreWholeBelow self.old → AreWholeBelow self.new }
    {
        self.blocks[page / BLOCK_PAGES].own(alloc)?;
        Ok(())
    }

    /// Exchanges what is kept of a page. What could be exchanged still can, and a range that was ready to be changed is.
    pub fn replace(&mut self, page: usize, kept: Option<PageRef>) -> Option<PageRef>
        requires within { page < branch_pages }
        requires ready { ReplaceableBelow page self.old }
        ensures was { result ≡ branch_page self.old page }
        ensures replaced { IsReplacedRow branch_pages page kept (branch_row self.old) (branch_row self.new) }
        ensures ready { ReplaceableBelow page self.new }
        ensures stays { (other : ℕ) → ReplaceableBelow other self.old → ReplaceableBelow other self.new }
        ensures range { (from to : ℕ) → ReadyBranch from to self.old → ReadyBranch from to self.new }
        ensures whole { IsWhole kept → AreWholeBelow self.old → AreWholeBelow self.new }
        ensures given { AreWholeBelow self.old → IsWhole result }
    {
        self.replace_in_block(page / BLOCK_PAGES, page % BLOCK_PAGES, kept)
    }

    // Exchanges what is kept of a page of a block.
    fn replace_in_block(&mut self, i: usize, page: usize, kept: Option<PageRef>) -> Option<PageRef>
        requires block { i < branch_blocks }
        requires within { page < block_pages }
        requires ready { IsOwnBlock (block_at self.old i) }
        ensures was { result ≡ ref_page (block_at self.old i) page }
        ensures replaced { IsReplacedRow block_pages page kept (ref_row (block_at self.old i)) (ref_row (block_at self.new i)) }
        ensures ready { IsOwnBlock (block_at self.new i) }
        ensures whole { IsWhole kept → AreWholeIn (block_at self.old i) → AreWholeIn (block_at self.new i) }
        ensures given { AreWholeIn (block_at self.old i) → IsWhole result }
        ensures others { SameOtherBlocks i self.old self.new }
    {
        self.blocks[i].replace(page, kept)
    }
}

impl BranchRef {
    /// Makes the block of a page its holder's own, so that what is kept of the page can be exchanged. Permissions, bytes and owners stay, and
    /// what could be exchanged still can, also at the one error, want of memory.
    pub fn own_block(&mut self, page: usize, alloc: Global) -> Result<(), AllocError>
        requires { page < branch_pages }
        ensures same { SameLimb self.old self.new }
        ensures own { SameOwnLimb self.old self.new }
        ensures ready { OnOk result (ReplaceableLimb page self.new) }
        ensures stays { (other : ℕ) → ReplaceableLimb other self.old → ReplaceableLimb other self.new }
        ensures whole { AreWholeLimb self.old → AreWholeLimb self.new }
    {
        self.own(alloc)?;
        match self {
            BranchRef::Own(branch) => branch.own_block(page, alloc),
            _ => Ok(()),
        }
    }

    /// Exchanges what is kept of a page. What could be exchanged still can, and a range that was ready to be changed is.
    pub fn replace(&mut self, page: usize, kept: Option<PageRef>) -> Option<PageRef>
        requires within { page < branch_pages }
        requires ready { ReplaceableLimb page self.old }
        ensures was { result ≡ limb_page self.old page }
        ensures replaced { IsReplacedRow branch_pages page kept (limb_row self.old) (limb_row self.new) }
        ensures ready { ReplaceableLimb page self.new }
        ensures stays { (other : ℕ) → ReplaceableLimb other self.old → ReplaceableLimb other self.new }
        ensures range { (from to : ℕ) → ReadyLimb from to self.old → ReadyLimb from to self.new }
        ensures whole { IsWhole kept → AreWholeLimb self.old → AreWholeLimb self.new }
        ensures given { AreWholeLimb self.old → IsWhole result }
    {
        match self {
            BranchRef::Own(branch) => branch.replace(page, kept),
            _ => None,
        }
    }
}

impl Tree {
    /// Makes the block of a page its holder's own, so that what is kept of the page can be exchanged. Permissions, bytes and owners stay, and
    /// what could be exchanged still can, also at the one error, want of memory.
    pub fn own_block(&mut self, page: usize, alloc: Global) -> Result<(), AllocError>
        requires { page < tree_pages }
        ensures same { SameTree self.old self.new }
        ensures own { SameOwnTree self.old self.new }
        ensures ready { OnOk result (ReplaceableTree page self.new) }
        ensures stays { (other : ℕ) → ReplaceableTree other self.old → ReplaceableTree other self.new }
        ensures whole { AreWholeTree self.old → AreWholeTree self.new }
    {
        self.branches[page / BRANCH_PAGES].own_block(page % BRANCH_PAGES, alloc)?;
        Ok(())
    }

    /// Exchanges what is kept of a page. What could be exchanged still can, and a range that was ready to be changed is.
    pub fn replace(&mut self, page: usize, kept: Option<PageRef>) -> Option<PageRef>
        requires within { page < tree_pages }
        requires ready { ReplaceableTree page self.old }
        ensures was { result ≡ tree_page self.old page }
        ensures replaced { IsReplacedRow tree_pages page kept (tree_row self.old) (tree_row self.new) }
        ensures ready { ReplaceableTree page self.new }
        ensures stays { (other : ℕ) → ReplaceableTree other self.old → ReplaceableTree other self.new }
        ensures range { (from to : ℕ) → ReadyTree from to self.old → ReadyTree from to self.new }
        ensures whole { IsWhole kept → AreWholeTree self.old → AreWholeTree self.new }
        ensures given { AreWholeTree self.old → IsWhole result }
    {
        self.replace_in_branch(page / BRANCH_PAGES, page % BRANCH_PAGES, kept)
    }

    // Exchanges what is kept of a page of a branch.
    fn replace_in_branch(&mut self, i: usize, page: usize, kept: Option<PageRef>) -> Option<PageRef>
        requires branch { i < tree_branches }
        requires within { page < branch_pages }
        requires ready { ReplaceableLimb page (branch_at self.old i) }
        ensures was { result ≡ limb_page (branch_at self.old i) page }
        ensures replaced { IsReplacedRow branch_pages page kept (limb_row (branch_at self.old i)) (limb_row (branch_at self.new i)) }
        ensures ready { ReplaceableLimb page (branch_at self.new i) }
        ensures stays { (other : ℕ) → ReplaceableLimb other (branch_at self.old i) → ReplaceableLimb other (branch_at self.new i) }
        ensures range { (from to : ℕ) → ReadyLimb from to (branch_at self.old i) → ReadyLimb from to (branch_at self.new i) }
        ensures whole { IsWhole kept → AreWholeLimb (branch_at self.old i) → AreWholeLimb (branch_at self.new i) }
        ensures given { AreWholeLimb (branch_at self.old i) → IsWhole result }
        ensures others { SameOtherBranches i self.old self.new }
    {
        self.branches[i].replace(page, kept)
    }
}

impl TreeRef {
    /// Makes the block of a page its holder's own, so that what is kept of the page can be exchanged. Permissions, bytes and owners stay, and
    /// what could be exchanged still can, also at the one error, want of memory.
    pub fn own_block(&mut self, page: usize, alloc: Global) -> Result<(), AllocError>
        requires { page < tree_pages }
        ensures same { SameRoot self.old self.new }
        ensures own { SameOwnRoot self.old self.new }
        ensures ready { OnOk result (ReplaceableRoot page self.new) }
        ensures stays { (other : ℕ) → ReplaceableRoot other self.old → ReplaceableRoot other self.new }
        ensures whole { AreWholeRoot self.old → AreWholeRoot self.new }
    {
        self.own(alloc)?;
        match self {
            TreeRef::Own(tree) => tree.own_block(page, alloc),
            _ => Ok(()),
        }
    }

    /// Exchanges what is kept of a page. What could be exchanged still can, and a range that was ready to be changed is.
    pub fn replace(&mut self, page: usize, kept: Option<PageRef>) -> Option<PageRef>
        requires within { page < tree_pages }
        requires ready { ReplaceableRoot page self.old }
        ensures was { result ≡ root_page self.old page }
        ensures replaced { IsReplacedRow tree_pages page kept (root_row self.old) (root_row self.new) }
        ensures ready { ReplaceableRoot page self.new }
        ensures stays { (other : ℕ) → ReplaceableRoot other self.old → ReplaceableRoot other self.new }
        ensures range { (from to : ℕ) → ReadyRoot from to self.old → ReadyRoot from to self.new }
        ensures whole { IsWhole kept → AreWholeRoot self.old → AreWholeRoot self.new }
        ensures given { AreWholeRoot self.old → IsWhole result }
    {
        match self {
            TreeRef::Own(tree) => tree.replace(page, kept),
            _ => None,
        }
    }
}
