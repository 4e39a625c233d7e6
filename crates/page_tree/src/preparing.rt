ghost use Rattle.std.specs.Prelude.{◌≡◌, ℕ, ◌+◌, ◌-◌, ◌*◌, ◌<◌, ◌≤◌, min, length, IsTrue, IsFalse, OnOk};
ghost use Rattle.page_tree.specs.Blocks.{block_pages};
ghost use Rattle.page_tree.specs.BlockRefs.{AreWholeIn, IsOwnBlock, ref_row};
ghost use Rattle.page_tree.specs.Branches.{branch_pages, branch_blocks, block_at, AreWholeBelow, branch_row};
ghost use Rattle.page_tree.specs.BranchRefs.{AreWholeLimb, limb_row};
ghost use Rattle.page_tree.specs.Trees.{tree_pages, tree_branches, branch_at, AreWholeTree, tree_row};
ghost use Rattle.page_tree.specs.TreeRefs.{AreWholeRoot, root_row};
ghost use Rattle.page_tree.specs.Ready.{ReadyBlock, ReadyBranch, ReadyLimb, ReadyTree, ReadyRoot, SameOtherBlocks, SameOtherBranches};
ghost use Rattle.page_tree.specs.Replaceable.{ReplaceableBelow, ReplaceableLimb, ReplaceableTree, ReplaceableRoot};
ghost use Rattle.page_tree.specs.Rows.{SameRow, SameOwners};

use crate::block::BLOCK_PAGES;
use crate::block_ref::BlockRef;
use crate::branch::{BRANCH_PAGES, Branch};
use crate::branch_ref::BranchRef;
use crate::tree::{TREE_PAGES, Tree};
use crate::tree_ref::TreeRef;
use std::alloc::{AllocError, Global};

impl BlockRef {
    /// Makes a range ready to be changed. Permissions, bytes and owners stay, and a page that can be exchanged still can, also at the one error,
    /// want of memory.
    pub fn prepare(&mut self, from: usize, to: usize, alloc: Global) -> Result<(), AllocError>
        requires rise { from < to }
        requires within { to ≤ block_pages }
        ensures same { SameRow block_pages (ref_row self.old) (ref_row self.new) }
        ensures own { SameOwners block_pages (ref_row self.old) (ref_row self.new) }
        ensures ready { OnOk result (ReadyBlock from to self.new) }
        ensures stays { IsOwnBlock self.old → IsOwnBlock self.new }
        ensures whole { AreWholeIn self.old → AreWholeIn self.new }
    {
        if self.is_fixed(from, to) {
            return self.loosen(alloc);
        }
        Ok(())
    }

    // Whether a range cannot be changed as it is.
    fn is_fixed(&self, from: usize, to: usize) -> bool
        ensures { IsFalse result → ReadyBlock from to self.now }
    {
        match self {
            BlockRef::Uniform(_) => from != 0 || to != BLOCK_PAGES,
            BlockRef::Shared(_) => true,
            _ => false,
        }
    }
}

impl Branch {
    /// Makes a range ready to be changed. Permissions, bytes and owners stay, and a page that can be exchanged still can, also at the one error,
    /// want of memory.
    pub fn prepare(&mut self, from: usize, to: usize, alloc: Global) -> Result<(), AllocError>
        requires rise { from < to }
        requires within { to ≤ branch_pages }
        ensures same { SameRow branch_pages (branch_row self.old) (branch_row self.new) }
        ensures own { SameOwners branch_pages (branch_row self.old) (branch_row self.new) }
        ensures ready { OnOk result (ReadyBranch from to self.new) }
        ensures stays { (page : ℕ) → ReplaceableBelow page self.old → ReplaceableBelow page self.new }
        ensures whole { AreWholeBelow self.old → AreWholeBelow self.new }
    {
        for i in from / BLOCK_PAGES..(to - 1) / BLOCK_PAGES + 1 {
            self.prepare_block(i, from, to, alloc)?;
        }
        Ok(())
    }

    // Makes what a range has of a block ready to be changed.
    fn prepare_block(
        &mut self,
        i: usize,
        from: usize,
        to: usize,
        alloc: Global,
    ) -> Result<(), AllocError>
        requires block { i < branch_blocks }
        requires rise { from < to }
        requires before { block_pages * i < to }
        requires after { from < block_pages * i + block_pages }
        ensures same { SameRow block_pages (ref_row (block_at self.old i)) (ref_row (block_at self.new i)) }
        ensures own { SameOwners block_pages (ref_row (block_at self.old i)) (ref_row (block_at self.new i)) }
        ensures ready { OnOk result (ReadyBlock (from - block_pages * i) (min (to - block_pages * i) block_pages) (block_at self.new i)) }
        ensures stays { IsOwnBlock (block_at self.old i) → IsOwnBlock (block_at self.new i) }
        ensures whole { AreWholeIn (block_at self.old i) → AreWholeIn (block_at self.new i) }
        ensures others { SameOtherBlocks i self.old self.new }
    {
        let start = BLOCK_PAGES * i;
        self.blocks[i].prepare(
            from.saturating_sub(start),
            (to - start).min(BLOCK_PAGES),
            alloc,
        )
    }
}

impl BranchRef {
    /// Makes a range ready to be changed. Permissions, bytes and owners stay, and a page that can be exchanged still can, also at the one error,
    /// want of memory.
    pub fn prepare(&mut self, from: usize, to: usize, alloc: Global) -> Result<(), AllocError>
        requires rise { from < to }
        requires within { to ≤ branch_pages }
        ensures same { SameRow branch_pages (limb_row self.old) (limb_row self.new) }
        ensures own { SameOwners branch_pages (limb_row self.old) (limb_row self.new) }
        ensures ready { OnOk result (ReadyLimb from to self.new) }
        ensures stays { (page : ℕ) → ReplaceableLimb page self.old → ReplaceableLimb page self.new }
        ensures whole { AreWholeLimb self.old → AreWholeLimb self.new }
    {
        if self.is_one(from, to) {
            return Ok(());
        }
        self.own(alloc)?;
        match self {
            BranchRef::Own(branch) => branch.prepare(from, to, alloc),
            _ => Ok(()),
        }
    }

    // Whether it is of one permission, and a range has all of it.
    fn is_one(&self, from: usize, to: usize) -> bool
        ensures { IsTrue result → ReadyLimb from to self.now }
    {
        match self {
            BranchRef::Uniform(_) => from == 0 && to == BRANCH_PAGES,
            _ => false,
        }
    }
}

impl Tree {
    /// Makes a range ready to be changed. Permissions, bytes and owners stay, and a page that can be exchanged still can, also at the one error,
    /// want of memory.
    pub fn prepare(&mut self, from: usize, to: usize, alloc: Global) -> Result<(), AllocError>
        requires rise { from < to }
        requires within { to ≤ tree_pages }
        ensures same { SameRow tree_pages (tree_row self.old) (tree_row self.new) }
        ensures own { SameOwners tree_pages (tree_row self.old) (tree_row self.new) }
        ensures ready { OnOk result (ReadyTree from to self.new) }
        ensures stays { (page : ℕ) → ReplaceableTree page self.old → ReplaceableTree page self.new }
        ensures whole { AreWholeTree self.old → AreWholeTree self.new }
    {
        for i in from / BRANCH_PAGES..(to - 1) / BRANCH_PAGES + 1 {
            self.prepare_branch(i, from, to, alloc)?;
        }
        Ok(())
    }

    // Makes what a range has of a branch ready to be changed.
    fn prepare_branch(
        &mut self,
        i: usize,
        from: usize,
        to: usize,
        alloc: Global,
    ) -> Result<(), AllocError>
        requires branch { i < tree_branches }
        requires rise { from < to }
        requires before { branch_pages * i < to }
        requires after { from < branch_pages * i + branch_pages }
        ensures same { SameRow branch_pages (limb_row (branch_at self.old i)) (limb_row (branch_at self.new i)) }
        ensures own { SameOwners branch_pages (limb_row (branch_at self.old i)) (limb_row (branch_at self.new i)) }
        ensures ready { OnOk result (ReadyLimb (from - branch_pages * i) (min (to - branch_pages * i) branch_pages) (branch_at self.new i)) }
        ensures stays { (page : ℕ) → ReplaceableLimb page (branch_at self.old i) → ReplaceableLimb page (branch_at self.new i) }
        ensures whole { AreWholeLimb (branch_at self.old i) → AreWholeLimb (branch_at self.new i) }
        ensures others { SameOtherBranches i self.old self.new }
    {
        let start = BRANCH_PAGES * i;
        self.branches[i].prepare(
            from.saturating_sub(start),
            (to - start).min(BRANCH_PAGES),
            alloc,
        )
    }
}

impl TreeRef {
    /// Makes a range ready to be changed. Permissions, bytes and owners stay, and a page that can be exchanged still can, also at the one error,
    /// want of memory.
    pub fn prepare(&mut self, from: usize, to: usize, alloc: Global) -> Result<(), AllocError>
        requires rise { from < to }
        requires within { to ≤ tree_pages }
        ensures same { SameRow tree_pages (root_row self.old) (root_row self.new) }
        ensures own { SameOwners tree_pages (root_row self.old) (root_row self.new) }
        ensures ready { OnOk result (ReadyRoot from to self.new) }
        ensures stays { (page : ℕ) → ReplaceableRoot page self.old → ReplaceableRoot page self.new }
        ensures whole { AreWholeRoot self.old → AreWholeRoot self.new }
    {
        if self.is_one(from, to) {
            return Ok(());
        }
        self.own(alloc)?;
        match self {
            TreeRef::Own(tree) => tree.prepare(from, to, alloc),
            _ => Ok(()),
        }
    }

    // Whether it is of one permission, and a range has all of it.
    fn is_one(&self, from: usize, to: usize) -> bool
        ensures { IsTrue result → ReadyRoot from to self.now }
    {
        match self {
            TreeRef::Uniform(_) => from == 0 && to == TREE_PAGES,
            _ => false,
        }
    }
}
