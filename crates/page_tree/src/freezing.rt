ghost use Rattle.std.specs.Prelude.{◌≡◌, ℕ, ◌+◌, ◌-◌, ◌*◌, ◌<◌, ◌≤◌, min, OnOk, true, false};
ghost use Rattle.page_tree.specs.Blocks.{block_pages, page_in, is_own_in, SameBytes, AreWhole};
ghost use Rattle.page_tree.specs.BlockRefs.{AreWholeIn, ref_own, ref_row};
ghost use Rattle.page_tree.specs.Branches.{branch_pages, branch_blocks, block_at, branch_own, AreWholeBelow, branch_row};
ghost use Rattle.page_tree.specs.BranchRefs.{AreWholeLimb, limb_own, limb_row};
ghost use Rattle.page_tree.specs.Trees.{tree_pages, tree_branches, branch_at, tree_own, AreWholeTree, tree_row};
ghost use Rattle.page_tree.specs.TreeRefs.{AreWholeRoot, root_own, root_row};
ghost use Rattle.page_tree.specs.Ready.{SameOtherBlocks, SameOtherBranches};
ghost use Rattle.page_tree.specs.Rows.{SameRow};

use crate::block::{BLOCK_PAGES, Block};
use crate::block_ref::BlockRef;
use crate::branch::{BRANCH_PAGES, Branch};
use crate::branch_ref::BranchRef;
use crate::tree::{TREE_PAGES, Tree};
use crate::tree_ref::TreeRef;
use std::alloc::{AllocError, Global};

impl Block {
    // Makes each page from `from` to before `to` that is kept one that can be shared. At an error, want of memory, some of them are.
    fn freeze_range(&mut self, from: usize, to: usize, alloc: Global) -> Result<(), AllocError>
        requires rise { from < to }
        requires within { to ≤ block_pages }
        ensures same { SameBytes self.old self.new }
        ensures none { OnOk result ((j : ℕ) → from ≤ j → j < to → is_own_in (page_in self.new j) ≡ false) }
        ensures less { (j : ℕ) → j < block_pages → is_own_in (page_in self.new j) ≡ true → is_own_in (page_in self.old j) ≡ true }
        ensures whole { AreWhole self.old → AreWhole self.new }
    {
        for j in from..to {
            self.pages.freeze(j, alloc)?;
        }
        Ok(())
    }
}

impl BlockRef {
    /// Makes the pages from `from` to before `to` ones that can be shared; all of them become one block that can be. No page becomes an own
    /// one. At an error, want of memory, some pages may be shared and others owned.
    pub fn freeze_range(&mut self, from: usize, to: usize, alloc: Global) -> Result<(), AllocError>
        requires rise { from < to }
        requires within { to ≤ block_pages }
        ensures same { SameRow block_pages (ref_row self.old) (ref_row self.new) }
        ensures none { OnOk result ((j : ℕ) → from ≤ j → j < to → ref_own self.new j ≡ false) }
        ensures less { (j : ℕ) → j < block_pages → ref_own self.new j ≡ true → ref_own self.old j ≡ true }
        ensures whole { AreWholeIn self.old → AreWholeIn self.new }
    {
        if from == 0 && to == BLOCK_PAGES {
            return self.freeze(alloc);
        }
        match self {
            BlockRef::Own(block) => block.freeze_range(from, to, alloc),
            _ => Ok(()),
        }
    }
}

impl Branch {
    /// Makes the pages from `from` to before `to` ones that can be shared, a block that lies whole among them as one. No page becomes an own
    /// one. At an error, want of memory, some pages may be shared and others owned.
    pub fn freeze_range(&mut self, from: usize, to: usize, alloc: Global) -> Result<(), AllocError>
        requires rise { from < to }
        requires within { to ≤ branch_pages }
        ensures same { SameRow branch_pages (branch_row self.old) (branch_row self.new) }
        ensures none { OnOk result ((p : ℕ) → from ≤ p → p < to → branch_own self.new p ≡ false) }
        ensures less { (p : ℕ) → p < branch_pages → branch_own self.new p ≡ true → branch_own self.old p ≡ true }
        ensures whole { AreWholeBelow self.old → AreWholeBelow self.new }
    {
        for i in from / BLOCK_PAGES..(to - 1) / BLOCK_PAGES + 1 {
            self.freeze_block(i, from, to, alloc)?;
        }
        Ok(())
    }

    // Makes what a range has of a block one that can be shared.
    fn freeze_block(
        &mut self,
        i: usize,
        from: usize,
        to: usize,
        alloc: Global,
    ) -> Result<(), AllocError>
        requires block { i < branch_blocks }
        requires rise { from < to }
        requires before { block_pages * i < to }
        requires after { from < block_pages * i + block_pages }
        ensures same { SameRow block_pages (ref_row (block_at self.old i)) (ref_row (block_at self.new i)) }
        ensures none { OnOk result ((j : ℕ) → from - block_pages * i ≤ j → j < min (to - block_pages * i) block_pages → ref_own (block_at self.new i) j ≡ false) }
        ensures less { (j : ℕ) → j < block_pages → ref_own (block_at self.new i) j ≡ true → ref_own (block_at self.old i) j ≡ true }
        ensures whole { AreWholeIn (block_at self.old i) → AreWholeIn (block_at self.new i) }
        ensures others { SameOtherBlocks i self.old self.new }
    {
        let start = BLOCK_PAGES * i;
        self.blocks[i].freeze_range(
            from.saturating_sub(start),
            (to - start).min(BLOCK_PAGES),
            alloc,
        )
    }
}

impl BranchRef {
    /// Makes the pages from `from` to before `to` ones that can be shared; all of them become one branch that can be. No page becomes an own
    /// one. At an error, want of memory, some pages may be shared and others owned.
    pub fn freeze_range(&mut self, from: usize, to: usize, alloc: Global) -> Result<(), AllocError>
        requires rise { from < to }
        requires within { to ≤ branch_pages }
        ensures same { SameRow branch_pages (limb_row self.old) (limb_row self.new) }
        ensures none { OnOk result ((p : ℕ) → from ≤ p → p < to → limb_own self.new p ≡ false) }
        ensures less { (p : ℕ) → p < branch_pages → limb_own self.new p ≡ true → limb_own self.old p ≡ true }
        ensures whole { AreWholeLimb self.old → AreWholeLimb self.new }
    {
        if from == 0 && to == BRANCH_PAGES {
            return self.freeze(alloc);
        }
        match self {
            BranchRef::Own(branch) => branch.freeze_range(from, to, alloc),
            _ => Ok(()),
        }
    }
}

impl Tree {
    /// Makes the pages from `from` to before `to` ones that can be shared, a branch or block that lies whole among them as one. No page
    /// becomes an own one. At an error, want of memory, some pages may be shared and others owned.
    pub fn freeze_range(&mut self, from: usize, to: usize, alloc: Global) -> Result<(), AllocError>
        requires rise { from < to }
        requires within { to ≤ tree_pages }
        ensures same { SameRow tree_pages (tree_row self.old) (tree_row self.new) }
        ensures none { OnOk result ((p : ℕ) → from ≤ p → p < to → tree_own self.new p ≡ false) }
        ensures less { (p : ℕ) → p < tree_pages → tree_own self.new p ≡ true → tree_own self.old p ≡ true }
        ensures whole { AreWholeTree self.old → AreWholeTree self.new }
    {
        for i in from / BRANCH_PAGES..(to - 1) / BRANCH_PAGES + 1 {
            self.freeze_branch(i, from, to, alloc)?;
        }
        Ok(())
    }

    // Makes what a range has of a branch one that can be shared.
    fn freeze_branch(
        &mut self,
        i: usize,
        from: usize,
        to: usize,
        alloc: Global,
    ) -> Result<(), AllocError>
        requires branch { i < tree_branches }
        requires rise { from < to }
        requires before { branch_pages * i < to }
        requires after { from < branch_pages * i + branch_pages }
        ensures same { SameRow branch_pages (limb_row (branch_at self.old i)) (limb_row (branch_at self.new i)) }
        ensures none { OnOk result ((j : ℕ) → from - branch_pages * i ≤ j → j < min (to - branch_pages * i) branch_pages → limb_own (branch_at self.new i) j ≡ false) }
        ensures less { (j : ℕ) → j < branch_pages → limb_own (branch_at self.new i) j ≡ true → limb_own (branch_at self.old i) j ≡ true }
        ensures whole { AreWholeLimb (branch_at self.old i) → AreWholeLimb (branch_at self.new i) }
        ensures others { SameOtherBranches i self.old self.new }
    {
        let start = BRANCH_PAGES * i;
        self.branches[i].freeze_range(
            from.saturating_sub(start),
            (to - start).min(BRANCH_PAGES),
            alloc,
        )
    }
}

impl TreeRef {
    /// Makes the pages from `from` to before `to` ones that can be shared, a branch or block that lies whole among them as one. No page
    /// becomes an own one. At an error, want of memory, some pages may be shared and others owned.
    pub fn freeze_range(&mut self, from: usize, to: usize, alloc: Global) -> Result<(), AllocError>
        requires rise { from < to }
        requires within { to ≤ tree_pages }
        ensures same { SameRow tree_pages (root_row self.old) (root_row self.new) }
        ensures none { OnOk result ((p : ℕ) → from ≤ p → p < to → root_own self.new p ≡ false) }
        ensures less { (p : ℕ) → p < tree_pages → root_own self.new p ≡ true → root_own self.old p ≡ true }
        ensures whole { AreWholeRoot self.old → AreWholeRoot self.new }
    {
        if from == 0 && to == TREE_PAGES {
            return self.freeze(alloc);
        }
        match self {
            TreeRef::Own(tree) => tree.freeze_range(from, to, alloc),
            _ => Ok(()),
        }
    }
}
