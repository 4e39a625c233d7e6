ghost use Rattle.std.specs.Prelude.{◌≡◌, ℕ, ◌+◌, ◌-◌, ◌*◌, ◌<◌, ◌≤◌, min, length, IsTrue, OnOk};
ghost use Rattle.page_tree.specs.Blocks.{block_pages};
ghost use Rattle.page_tree.specs.BlockRefs.{AreWholeIn, ref_row};
ghost use Rattle.page_tree.specs.Branches.{branch_pages, branch_blocks, block_at, AreWholeBelow, branch_row};
ghost use Rattle.page_tree.specs.BranchRefs.{AreWholeLimb, limb_row};
ghost use Rattle.page_tree.specs.Trees.{tree_pages, tree_branches, branch_at, AreWholeTree, tree_row};
ghost use Rattle.page_tree.specs.TreeRefs.{AreWholeRoot, root_row};
ghost use Rattle.page_tree.specs.Cuts.{CutBlock, CutBranch, CutLimb, CutTree, CutRoot};
ghost use Rattle.page_tree.specs.Ready.{IsAll, SameOtherBlocks, SameOtherBranches};
ghost use Rattle.page_tree.specs.Rows.{SameRow, SameOwners};

use crate::block::BLOCK_PAGES;
use crate::block_ref::BlockRef;
use crate::branch::{BRANCH_PAGES, Branch};
use crate::branch_ref::BranchRef;
use crate::tree::{TREE_PAGES, Tree};
use crate::tree_ref::TreeRef;
use std::alloc::{AllocError, Global};

impl BlockRef {
    /// Makes each part that lies across an end of a range its holder's own, so that the pages of the range can be exchanged for others.
    /// Permissions, bytes and owners stay, also at the one error, want of memory.
    pub fn cut(&mut self, from: usize, to: usize, alloc: Global) -> Result<(), AllocError>
        requires rise { from < to }
        requires within { to ≤ block_pages }
        ensures same { SameRow block_pages (ref_row self.old) (ref_row self.new) }
        ensures own { SameOwners block_pages (ref_row self.old) (ref_row self.new) }
        ensures cut { OnOk result (CutBlock from to self.new) }
        ensures whole { AreWholeIn self.old → AreWholeIn self.new }
    {
        if is_all(from, to, BLOCK_PAGES) {
            return Ok(());
        }
        self.loosen(alloc)
    }
}

impl Branch {
    /// Makes each part that lies across an end of a range its holder's own, so that the pages of the range can be exchanged for others.
    /// Permissions, bytes and owners stay, also at the one error, want of memory.
    pub fn cut(&mut self, from: usize, to: usize, alloc: Global) -> Result<(), AllocError>
        requires rise { from < to }
        requires within { to ≤ branch_pages }
        ensures same { SameRow branch_pages (branch_row self.old) (branch_row self.new) }
        ensures own { SameOwners branch_pages (branch_row self.old) (branch_row self.new) }
        ensures cut { OnOk result (CutBranch from to self.new) }
        ensures whole { AreWholeBelow self.old → AreWholeBelow self.new }
    {
        for i in from / BLOCK_PAGES..(to - 1) / BLOCK_PAGES + 1 {
            self.cut_block(i, from, to, alloc)?;
        }
        Ok(())
    }

    // Cuts a block at the ends of a range.
    fn cut_block(
        &mut self,
        i: usize,
        from: usize,
        to: usize,
        alloc: Global,
    ) -> Result<(), AllocError>
        requires block { i < branch_blocks }
        requires rise { from < to }
        requires before { block_pages * i < to }
        requires after { from < block_pages * i + block_pages }
        ensures same { SameRow block_pages (ref_row (block_at self.old i)) (ref_row (block_at self.new i)) }
        ensures own { SameOwners block_pages (ref_row (block_at self.old i)) (ref_row (block_at self.new i)) }
        ensures cut { OnOk result (CutBlock (from - block_pages * i) (min (to - block_pages * i) block_pages) (block_at self.new i)) }
        ensures whole { AreWholeIn (block_at self.old i) → AreWholeIn (block_at self.new i) }
        ensures others { SameOtherBlocks i self.old self.new }
    {
        let start = BLOCK_PAGES * i;
        self.blocks[i].cut(
            from.saturating_sub(start),
            (to - start).min(BLOCK_PAGES),
            alloc,
        )
    }
}

impl BranchRef {
    /// Makes each part that lies across an end of a range its holder's own, so that the pages of the range can be exchanged for others.
    /// Permissions, bytes and owners stay, also at the one error, want of memory.
    pub fn cut(&mut self, from: usize, to: usize, alloc: Global) -> Result<(), AllocError>
        requires rise { from < to }
        requires within { to ≤ branch_pages }
        ensures same { SameRow branch_pages (limb_row self.old) (limb_row self.new) }
        ensures own { SameOwners branch_pages (limb_row self.old) (limb_row self.new) }
        ensures cut { OnOk result (CutLimb from to self.new) }
        ensures whole { AreWholeLimb self.old → AreWholeLimb self.new }
    {
        if is_all(from, to, BRANCH_PAGES) {
            return Ok(());
        }
        self.own(alloc)?;
        match self {
            BranchRef::Own(branch) => branch.cut(from, to, alloc),
            _ => Ok(()),
        }
    }
}

impl Tree {
    /// Makes each part that lies across an end of a range its holder's own, so that the pages of the range can be exchanged for others.
    /// Permissions, bytes and owners stay, also at the one error, want of memory.
    pub fn cut(&mut self, from: usize, to: usize, alloc: Global) -> Result<(), AllocError>
        requires rise { from < to }
        requires within { to ≤ tree_pages }
        ensures same { SameRow tree_pages (tree_row self.old) (tree_row self.new) }
        ensures own { SameOwners tree_pages (tree_row self.old) (tree_row self.new) }
        ensures cut { OnOk result (CutTree from to self.new) }
        ensures whole { AreWholeTree self.old → AreWholeTree self.new }
    {
        for i in from / BRANCH_PAGES..(to - 1) / BRANCH_PAGES + 1 {
            self.cut_branch(i, from, to, alloc)?;
        }
        Ok(())
    }

    // Cuts a branch at the ends of a range.
    fn cut_branch(
        &mut self,
        i: usize,
        from: usize,
        to: usize,
        alloc: Global,
    ) -> Result<(), AllocError>
        requires branch { i < tree_branches }
        requires rise { from < to }
        requires before { branch_pages * i < to }
        requires after { from < branch_pages * i + branch_pages }
        ensures same { SameRow branch_pages (limb_row (branch_at self.old i)) (limb_row (branch_at self.new i)) }
        ensures own { SameOwners branch_pages (limb_row (branch_at self.old i)) (limb_row (branch_at self.new i)) }
        ensures cut { OnOk result (CutLimb (from - branch_pages * i) (min (to - branch_pages * i) branch_pages) (branch_at self.new i)) }
        ensures whole { AreWholeLimb (branch_at self.old i) → AreWholeLimb (branch_at self.new i) }
        ensures others { SameOtherBranches i self.old self.new }
    {
        let start = BRANCH_PAGES * i;
        self.branches[i].cut(
            from.saturating_sub(start),
            (to - start).min(BRANCH_PAGES),
            alloc,
        )
    }
}

impl TreeRef {
    /// Makes each part that lies across an end of a range its holder's own, so that the pages of the range can be exchanged for others.
    /// Permissions, bytes and owners stay, also at the one error, want of memory.
    pub fn cut(&mut self, from: usize, to: usize, alloc: Global) -> Result<(), AllocError>
        requires rise { from < to }
        requires within { to ≤ tree_pages }
        ensures same { SameRow tree_pages (root_row self.old) (root_row self.new) }
        ensures own { SameOwners tree_pages (root_row self.old) (root_row self.new) }
        ensures cut { OnOk result (CutRoot from to self.new) }
        ensures whole { AreWholeRoot self.old → AreWholeRoot self.new }
    {
        if is_all(from, to, TREE_PAGES) {
            return Ok(());
        }
        self.own(alloc)?;
        match self {
            TreeRef::Own(tree) => tree.cut(from, to, alloc),
            _ => Ok(()),
        }
    }
}

// Whether a range has all of so many pages.
fn is_all(from: usize, to: usize, pages: usize) -> bool
    ensures { IsTrue result → IsAll pages from to }
{
    from == 0 && to == pages
}
