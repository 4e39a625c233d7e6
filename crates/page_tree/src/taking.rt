ghost use Rattle.std.specs.Prelude.{◌≡◌, ℕ, ◌+◌, ◌-◌, ◌*◌, ◌<◌, ◌≤◌, min, length};
ghost use Rattle.page_tree.specs.Blocks.{block_pages, AreWhole};
ghost use Rattle.page_tree.specs.BlockRows.{block_row};
ghost use Rattle.page_tree.specs.BlockRefs.{AreWholeIn, IsBareRef, ref_row};
ghost use Rattle.page_tree.specs.Branches.{branch_pages, branch_blocks, block_at, AreWholeBelow, branch_row};
ghost use Rattle.page_tree.specs.BranchRefs.{AreWholeLimb, limb_row};
ghost use Rattle.page_tree.specs.Trees.{tree_pages, tree_branches, branch_at, AreWholeTree, tree_row};
ghost use Rattle.page_tree.specs.TreeRefs.{AreWholeRoot, root_row};
ghost use Rattle.page_tree.specs.Cuts.{CutBlock, CutBranch, CutLimb, CutTree, CutRoot};
ghost use Rattle.page_tree.specs.Ready.{IsAll, ReadyBlock, ReadyBranch, ReadyLimb, ReadyTree, ReadyRoot, SameOtherBlocks, SameOtherBranches};
ghost use Rattle.page_tree.specs.Rows.{IsTakenRow};

use crate::block::{BLOCK_PAGES, Block};
use crate::block_ref::BlockRef;
use crate::branch::{BRANCH_PAGES, Branch};
use crate::branch_ref::BranchRef;
use crate::tree::{TREE_PAGES, Tree};
use crate::tree_ref::TreeRef;
use std::mem;

impl BlockRef {
    /// Takes the pages from `from` to before `to`, and their permissions, out of another one.
    pub fn take(&mut self, other: &mut BlockRef, from: usize, to: usize)
        requires rise { from < to }
        requires within { to ≤ block_pages }
        requires cut { CutBlock from to self.old }
        requires other { CutBlock from to other.old }
        ensures taken { IsTakenRow block_pages from to (ref_row self.old) (ref_row other.old) (ref_row self.new) }
        ensures whole { AreWholeIn self.old → AreWholeIn other.old → AreWholeIn self.new }
        ensures ready { ReadyBlock from to self.old → ReadyBlock from to other.old → ReadyBlock from to self.new }
    {
        if from == 0 && to == BLOCK_PAGES {
            *self = mem::replace(other, BlockRef::Uniform(0));
            return;
        }
        match self {
            BlockRef::Own(mine) => mine.take_out_of(other, from, to),
            BlockRef::Bare(_) => self.take_into_bare(other, from, to),
            _ => {}
        }
    }

    // Takes some of the pages, not all, out of another one, where it is bare itself: of an own block it takes the whole, and gives that the
    // permissions of the pages beside.
    fn take_into_bare(&mut self, other: &mut BlockRef, from: usize, to: usize)
        requires rise { from < to }
        requires within { to ≤ block_pages }
        requires part { IsAll block_pages from to → ⊥ }
        requires bare { IsBareRef self.old }
        requires other { CutBlock from to other.old }
        ensures taken { IsTakenRow block_pages from to (ref_row self.old) (ref_row other.old) (ref_row self.new) }
        ensures whole { AreWholeIn other.old → AreWholeIn self.new }
        ensures ready { ReadyBlock from to self.new }
    {
        if let BlockRef::Bare(mine) = self {
            match other {
                BlockRef::Bare(theirs) => mine.take(theirs, from, to),
                BlockRef::Own(theirs) => {
                    theirs.lay_into(mine, from, to);
                    *self = mem::replace(other, BlockRef::Uniform(0));
                }
                _ => {}
            }
        }
    }
}

impl Block {
    // Takes some of the pages, not all, and their permissions, out of what is kept of others.
    fn take_out_of(&mut self, other: &mut BlockRef, from: usize, to: usize)
        requires rise { from < to }
        requires within { to ≤ block_pages }
        requires part { IsAll block_pages from to → ⊥ }
        requires other { CutBlock from to other.old }
        ensures taken { IsTakenRow block_pages from to (block_row self.old) (ref_row other.old) (block_row self.new) }
        ensures whole { AreWhole self.old → AreWholeIn other.old → AreWhole self.new }
    {
        match other {
            BlockRef::Own(theirs) => self.take(theirs, from, to),
            BlockRef::Bare(theirs) => self.take_bare(theirs, from, to),
            _ => {}
        }
    }
}

impl Branch {
    /// Takes the pages from `from` to before `to`, and their permissions, out of another one.
    pub fn take(&mut self, other: &mut Branch, from: usize, to: usize)
        requires rise { from < to }
        requires within { to ≤ branch_pages }
        requires cut { CutBranch from to self.old }
        requires other { CutBranch from to other.old }
        ensures taken { IsTakenRow branch_pages from to (branch_row self.old) (branch_row other.old) (branch_row self.new) }
        ensures whole { AreWholeBelow self.old → AreWholeBelow other.old → AreWholeBelow self.new }
        ensures ready { ReadyBranch from to self.old → ReadyBranch from to other.old → ReadyBranch from to self.new }
    {
        for i in from / BLOCK_PAGES..(to - 1) / BLOCK_PAGES + 1 {
            self.take_block(other, i, from, to);
        }
    }

    // Takes what a range has of a block out of another branch.
    fn take_block(&mut self, other: &mut Branch, i: usize, from: usize, to: usize)
        requires block { i < branch_blocks }
        requires rise { from < to }
        requires before { block_pages * i < to }
        requires after { from < block_pages * i + block_pages }
        requires cut { CutBlock (from - block_pages * i) (min (to - block_pages * i) block_pages) (block_at self.old i) }
        requires other { CutBlock (from - block_pages * i) (min (to - block_pages * i) block_pages) (block_at other.old i) }
        ensures taken { IsTakenRow block_pages (from - block_pages * i) (min (to - block_pages * i) block_pages) (ref_row (block_at self.old i)) (ref_row (block_at other.old i)) (ref_row (block_at self.new i)) }
        ensures whole { AreWholeIn (block_at self.old i) → AreWholeIn (block_at other.old i) → AreWholeIn (block_at self.new i) }
        ensures ready { ReadyBlock (from - block_pages * i) (min (to - block_pages * i) block_pages) (block_at self.old i) → ReadyBlock (from - block_pages * i) (min (to - block_pages * i) block_pages) (block_at other.old i) → ReadyBlock (from - block_pages * i) (min (to - block_pages * i) block_pages) (block_at self.new i) }
        ensures others { SameOtherBlocks i self.old self.new }
        ensures rest { SameOtherBlocks i other.old other.new }
    {
        let start = BLOCK_PAGES * i;
        self.blocks[i].take(
            &mut other.blocks[i],
            from.saturating_sub(start),
            (to - start).min(BLOCK_PAGES),
        );
    }
}

impl BranchRef {
    /// Takes the pages from `from` to before `to`, and their permissions, out of another one.
    pub fn take(&mut self, other: &mut BranchRef, from: usize, to: usize)
        requires rise { from < to }
        requires within { to ≤ branch_pages }
        requires cut { CutLimb from to self.old }
        requires other { CutLimb from to other.old }
        ensures taken { IsTakenRow branch_pages from to (limb_row self.old) (limb_row other.old) (limb_row self.new) }
        ensures whole { AreWholeLimb self.old → AreWholeLimb other.old → AreWholeLimb self.new }
        ensures ready { ReadyLimb from to self.old → ReadyLimb from to other.old → ReadyLimb from to self.new }
    {
        if from == 0 && to == BRANCH_PAGES {
            *self = mem::replace(other, BranchRef::Uniform(0));
            return;
        }
        if let BranchRef::Own(mine) = self {
            if let BranchRef::Own(theirs) = other {
                mine.take(theirs, from, to);
            }
        }
    }
}

impl Tree {
    /// Takes the pages from `from` to before `to`, and their permissions, out of another one.
    pub fn take(&mut self, other: &mut Tree, from: usize, to: usize)
        requires rise { from < to }
        requires within { to ≤ tree_pages }
        requires cut { CutTree from to self.old }
        requires other { CutTree from to other.old }
        ensures taken { IsTakenRow tree_pages from to (tree_row self.old) (tree_row other.old) (tree_row self.new) }
        ensures whole { AreWholeTree self.old → AreWholeTree other.old → AreWholeTree self.new }
        ensures ready { ReadyTree from to self.old → ReadyTree from to other.old → ReadyTree from to self.new }
    {
        for i in from / BRANCH_PAGES..(to - 1) / BRANCH_PAGES + 1 {
            self.take_branch(other, i, from, to);
        }
    }

    // Takes what a range has of a branch out of another tree.
    fn take_branch(&mut self, other: &mut Tree, i: usize, from: usize, to: usize)
        requires branch { i < tree_branches }
        requires rise { from < to }
        requires before { branch_pages * i < to }
        requires after { from < branch_pages * i + branch_pages }
        requires cut { CutLimb (from - branch_pages * i) (min (to - branch_pages * i) branch_pages) (branch_at self.old i) }
        requires other { CutLimb (from - branch_pages * i) (min (to - branch_pages * i) branch_pages) (branch_at other.old i) }
        ensures taken { IsTakenRow branch_pages (from - branch_pages * i) (min (to - branch_pages * i) branch_pages) (limb_row (branch_at self.old i)) (limb_row (branch_at other.old i)) (limb_row (branch_at self.new i)) }
        ensures whole { AreWholeLimb (branch_at self.old i) → AreWholeLimb (branch_at other.old i) → AreWholeLimb (branch_at self.new i) }
        ensures ready { ReadyLimb (from - branch_pages * i) (min (to - branch_pages * i) branch_pages) (branch_at self.old i) → ReadyLimb (from - branch_pages * i) (min (to - branch_pages * i) branch_pages) (branch_at other.old i) → ReadyLimb (from - branch_pages * i) (min (to - branch_pages * i) branch_pages) (branch_at self.new i) }
        ensures others { SameOtherBranches i self.old self.new }
        ensures rest { SameOtherBranches i other.old other.new }
    {
        let start = BRANCH_PAGES * i;
        self.branches[i].take(
            &mut other.branches[i],
            from.saturating_sub(start),
            (to - start).min(BRANCH_PAGES),
        );
    }
}

impl TreeRef {
    /// Takes the pages from `from` to before `to`, and their permissions, out of another one.
    pub fn take(&mut self, other: &mut TreeRef, from: usize, to: usize)
        requires rise { from < to }
        requires within { to ≤ tree_pages }
        requires cut { CutRoot from to self.old }
        requires other { CutRoot from to other.old }
        ensures taken { IsTakenRow tree_pages from to (root_row self.old) (root_row other.old) (root_row self.new) }
        ensures whole { AreWholeRoot self.old → AreWholeRoot other.old → AreWholeRoot self.new }
        ensures ready { ReadyRoot from to self.old → ReadyRoot from to other.old → ReadyRoot from to self.new }
    {
        if from == 0 && to == TREE_PAGES {
            *self = mem::replace(other, TreeRef::Uniform(0));
            return;
        }
        if let TreeRef::Own(mine) = self {
            if let TreeRef::Own(theirs) = other {
                mine.take(theirs, from, to);
            }
        }
    }
}
