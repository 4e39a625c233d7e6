ghost use Rattle.std.specs.Prelude.{◌≡◌, ℕ, ◌+◌, ◌-◌, ◌*◌, ◌<◌, ◌≤◌, min, length};
ghost use Rattle.page_tree.specs.Blocks.{block_pages};
ghost use Rattle.page_tree.specs.BlockRefs.{AreWholeIn, ref_row};
ghost use Rattle.page_tree.specs.Branches.{branch_pages, branch_blocks, block_at, AreWholeBelow, branch_row};
ghost use Rattle.page_tree.specs.BranchRefs.{AreWholeLimb, limb_row};
ghost use Rattle.page_tree.specs.Trees.{tree_pages, tree_branches, branch_at, AreWholeTree, tree_row};
ghost use Rattle.page_tree.specs.TreeRefs.{AreWholeRoot, root_row};
ghost use Rattle.page_tree.specs.Ready.{ReadyBlock, ReadyBranch, ReadyLimb, ReadyTree, ReadyRoot, SameOtherBlocks, SameOtherBranches};
ghost use Rattle.page_tree.specs.Rows.{IsPermittedRow};

use crate::block::BLOCK_PAGES;
use crate::block_ref::BlockRef;
use crate::branch::{BRANCH_PAGES, Branch};
use crate::branch_ref::BranchRef;
use crate::tree::Tree;
use crate::tree_ref::TreeRef;

impl BlockRef {
    /// Gives the pages from `from` to before `to` the permission. Where that is all pages, and no bytes are kept, it is uniform then.
    pub fn permit(&mut self, from: usize, to: usize, permission: u8)
        requires rise { from < to }
        requires within { to ≤ block_pages }
        requires ready { ReadyBlock from to self.old }
        ensures permitted { IsPermittedRow block_pages from to permission (ref_row self.old) (ref_row self.new) }
        ensures whole { AreWholeIn self.old → AreWholeIn self.new }
        ensures ready { ReadyBlock from to self.new }
    {
        self.permit_pages(from, to, permission);
        if from == 0 && to == BLOCK_PAGES {
            self.settle();
        }
    }

    // Gives the pages from `from` to before `to` the permission one by one.
    fn permit_pages(&mut self, from: usize, to: usize, permission: u8)
        requires rise { from < to }
        requires within { to ≤ block_pages }
        requires ready { ReadyBlock from to self.old }
        ensures permitted { IsPermittedRow block_pages from to permission (ref_row self.old) (ref_row self.new) }
        ensures whole { AreWholeIn self.old → AreWholeIn self.new }
        ensures ready { ReadyBlock from to self.new }
    {
        match self {
            BlockRef::Uniform(old) => *old = permission,
            BlockRef::Bare(block) => block.permit(from, to, permission),
            BlockRef::Shared(_) => {}
            BlockRef::Own(block) => block.permit(from, to, permission),
        }
    }
}

impl Branch {
    /// Gives the pages from `from` to before `to` the permission.
    pub fn permit(&mut self, from: usize, to: usize, permission: u8)
        requires rise { from < to }
        requires within { to ≤ branch_pages }
        requires ready { ReadyBranch from to self.old }
        ensures permitted { IsPermittedRow branch_pages from to permission (branch_row self.old) (branch_row self.new) }
        ensures whole { AreWholeBelow self.old → AreWholeBelow self.new }
        ensures ready { ReadyBranch from to self.new }
    {
        for i in from / BLOCK_PAGES..(to - 1) / BLOCK_PAGES + 1 {
            self.permit_block(i, from, to, permission);
        }
    }

    // Gives what a range has of a block the permission.
    fn permit_block(&mut self, i: usize, from: usize, to: usize, permission: u8)
        requires block { i < branch_blocks }
        requires rise { from < to }
        requires before { block_pages * i < to }
        requires after { from < block_pages * i + block_pages }
        requires ready { ReadyBlock (from - block_pages * i) (min (to - block_pages * i) block_pages) (block_at self.old i) }
        ensures permitted { IsPermittedRow block_pages (from - block_pages * i) (min (to - block_pages * i) block_pages) permission (ref_row (block_at self.old i)) (ref_row (block_at self.new i)) }
        ensures whole { AreWholeIn (block_at self.old i) → AreWholeIn (block_at self.new i) }
        ensures ready { ReadyBlock (from - block_pages * i) (min (to - block_pages * i) block_pages) (block_at self.new i) }
        ensures others { SameOtherBlocks i self.old self.new }
    {
        let start = BLOCK_PAGES * i;
        self.blocks[i].permit(
            from.saturating_sub(start),
            (to - start).min(BLOCK_PAGES),
            permission,
        );
    }
}

impl BranchRef {
    /// Gives the pages from `from` to before `to` the permission. Where that is all pages, and no bytes are kept, it is uniform then.
    pub fn permit(&mut self, from: usize, to: usize, permission: u8)
        requires rise { from < to }
        requires within { to ≤ branch_pages }
        requires ready { ReadyLimb from to self.old }
        ensures permitted { IsPermittedRow branch_pages from to permission (limb_row self.old) (limb_row self.new) }
        ensures whole { AreWholeLimb self.old → AreWholeLimb self.new }
        ensures ready { ReadyLimb from to self.new }
    {
        self.permit_pages(from, to, permission);
        if from == 0 && to == BRANCH_PAGES {
            self.settle();
        }
    }

    // Gives the pages from `from` to before `to` the permission block by block.
    fn permit_pages(&mut self, from: usize, to: usize, permission: u8)
        requires rise { from < to }
        requires within { to ≤ branch_pages }
        requires ready { ReadyLimb from to self.old }
        ensures permitted { IsPermittedRow branch_pages from to permission (limb_row self.old) (limb_row self.new) }
        ensures whole { AreWholeLimb self.old → AreWholeLimb self.new }
        ensures ready { ReadyLimb from to self.new }
    {
        match self {
            BranchRef::Uniform(old) => *old = permission,
            BranchRef::Shared(_) => {}
            BranchRef::Own(branch) => branch.permit(from, to, permission),
        }
    }
}

impl Tree {
    /// Gives the pages from `from` to before `to` the permission.
    pub fn permit(&mut self, from: usize, to: usize, permission: u8)
        requires rise { from < to }
        requires within { to ≤ tree_pages }
        requires ready { ReadyTree from to self.old }
        ensures permitted { IsPermittedRow tree_pages from to permission (tree_row self.old) (tree_row self.new) }
        ensures whole { AreWholeTree self.old → AreWholeTree self.new }
        ensures ready { ReadyTree from to self.new }
    {
        for i in from / BRANCH_PAGES..(to - 1) / BRANCH_PAGES + 1 {
            self.permit_branch(i, from, to, permission);
        }
    }

    // Gives what a range has of a branch the permission.
    fn permit_branch(&mut self, i: usize, from: usize, to: usize, permission: u8)
        requires branch { i < tree_branches }
        requires rise { from < to }
        requires before { branch_pages * i < to }
        requires after { from < branch_pages * i + branch_pages }
        requires ready { ReadyLimb (from - branch_pages * i) (min (to - branch_pages * i) branch_pages) (branch_at self.old i) }
        ensures permitted { IsPermittedRow branch_pages (from - branch_pages * i) (min (to - branch_pages * i) branch_pages) permission (limb_row (branch_at self.old i)) (limb_row (branch_at self.new i)) }
        ensures whole { AreWholeLimb (branch_at self.old i) → AreWholeLimb (branch_at self.new i) }
        ensures ready { ReadyLimb (from - branch_pages * i) (min (to - branch_pages * i) branch_pages) (branch_at self.new i) }
        ensures others { SameOtherBranches i self.old self.new }
    {
        let start = BRANCH_PAGES * i;
        self.branches[i].permit(
            from.saturating_sub(start),
            (to - start).min(BRANCH_PAGES),
            permission,
        );
    }
}

impl TreeRef {
    /// Gives the pages from `from` to before `to` the permission.
    pub fn permit(&mut self, from: usize, to: usize, permission: u8)
        requires rise { from < to }
        requires within { to ≤ tree_pages }
        requires ready { ReadyRoot from to self.old }
        ensures permitted { IsPermittedRow tree_pages from to permission (root_row self.old) (root_row self.new) }
        ensures whole { AreWholeRoot self.old → AreWholeRoot self.new }
        ensures ready { ReadyRoot from to self.new }
    {
        match self {
            TreeRef::Uniform(old) => *old = permission,
            TreeRef::Shared(_) => {}
            TreeRef::Own(tree) => tree.permit(from, to, permission),
        }
    }
}
