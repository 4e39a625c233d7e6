ghost use Rattle.std.specs.Prelude.{◌≡◌, ℕ, ◌+◌, ◌*◌, ◌/◌, ◌%◌, ◌<◌, IfOk};
ghost use Rattle.page_tree.specs.Blocks.{block_pages};
ghost use Rattle.page_tree.specs.BlockRefs.{AreWholeIn};
ghost use Rattle.page_tree.specs.Branches.{branch_pages, branch_blocks, AreWholeBelow, branch_row};
ghost use Rattle.page_tree.specs.BranchRefs.{AreWholeLimb, limb_row};
ghost use Rattle.page_tree.specs.Trees.{tree_pages, tree_branches, branch_at, AreWholeTree, tree_row};
ghost use Rattle.page_tree.specs.TreeRefs.{AreWholeRoot, root_row};
ghost use Rattle.page_tree.specs.Ready.{ReadyLimb, ReadyRoot, ReadyTree, SameOtherBranches};
ghost use Rattle.page_tree.specs.Blockwise.{IsBlockOf, IsBlockPutRow};
ghost use Rattle.page_tree.specs.Branchwise.{IsBranchOf, IsBranchPutRow};

use crate::block_ref::BlockRef;
use crate::branch::{BLOCKS, Branch};
use crate::branch_ref::BranchRef;
use crate::tree::Tree;
use crate::tree_ref::TreeRef;
use std::alloc::{AllocError, Global};

impl Branch {
    /// A block with the permissions and bytes of the i-th one, which shares what that shares.
    pub fn share_block(&self, i: usize, alloc: Global) -> Result<BlockRef, AllocError>
        requires { i < branch_blocks }
        ensures same { IfOk result (λ block. IsBlockOf (branch_row self.now) i block) }
        ensures whole { AreWholeBelow self.now → IfOk result (λ block. AreWholeIn block) }
    {
        self.share_at(i, alloc)
    }

    /// Keeps a block in the place of the i-th one.
    pub fn put_block(&mut self, i: usize, block: BlockRef)
        requires { i < branch_blocks }
        ensures put { IsBlockPutRow branch_pages i block (branch_row self.old) (branch_row self.new) }
        ensures whole { AreWholeIn block → AreWholeBelow self.old → AreWholeBelow self.new }
    {
        self.blocks[i] = block;
    }
}

impl BranchRef {
    /// A block with the permissions and bytes of the i-th one, which shares what that shares.
    pub fn share_block(&self, i: usize, alloc: Global) -> Result<BlockRef, AllocError>
        requires { i < branch_blocks }
        ensures same { IfOk result (λ block. IsBlockOf (limb_row self.now) i block) }
        ensures whole { AreWholeLimb self.now → IfOk result (λ block. AreWholeIn block) }
    {
        match self {
            BranchRef::Uniform(permission) => Ok(BlockRef::Uniform(*permission)),
            BranchRef::Shared(branch) => branch.share_block(i, alloc),
            BranchRef::Own(branch) => branch.share_block(i, alloc),
        }
    }

    /// Keeps a block in the place of the i-th one.
    pub fn put_block(&mut self, i: usize, block: BlockRef)
        requires within { i < branch_blocks }
        requires ready { ReadyLimb (block_pages * i) (block_pages * i + block_pages) self.old }
        ensures put { IsBlockPutRow branch_pages i block (limb_row self.old) (limb_row self.new) }
        ensures whole { AreWholeIn block → AreWholeLimb self.old → AreWholeLimb self.new }
    {
        match self {
            BranchRef::Uniform(_) => {}
            BranchRef::Shared(_) => {}
            BranchRef::Own(branch) => branch.put_block(i, block),
        }
    }
}

impl Tree {
    /// A block with the permissions and bytes of the i-th one, which shares what that shares.
    pub fn share_block(&self, i: usize, alloc: Global) -> Result<BlockRef, AllocError>
        requires { block_pages * i < tree_pages }
        ensures same { IfOk result (λ block. IsBlockOf (tree_row self.now) i block) }
        ensures whole { AreWholeTree self.now → IfOk result (λ block. AreWholeIn block) }
    {
        self.branches[i / BLOCKS].share_block(i % BLOCKS, alloc)
    }

    /// Keeps a block in the place of the i-th one.
    pub fn put_block(&mut self, i: usize, block: BlockRef)
        requires within { block_pages * i < tree_pages }
        requires ready { ReadyTree (block_pages * i) (block_pages * i + block_pages) self.old }
        ensures put { IsBlockPutRow tree_pages i block (tree_row self.old) (tree_row self.new) }
        ensures whole { AreWholeIn block → AreWholeTree self.old → AreWholeTree self.new }
    {
        self.put_in_branch(i / BLOCKS, i % BLOCKS, block);
    }

    /// A branch with the permissions and bytes of the i-th one, which shares what that shares.
    pub fn share_branch(&self, i: usize, alloc: Global) -> Result<BranchRef, AllocError>
        requires { i < tree_branches }
        ensures same { IfOk result (λ branch. IsBranchOf (tree_row self.now) i branch) }
        ensures whole { AreWholeTree self.now → IfOk result (λ branch. AreWholeLimb branch) }
    {
        self.share_at(i, alloc)
    }

    /// Keeps a branch in the place of the i-th one.
    pub fn put_branch(&mut self, i: usize, branch: BranchRef)
        requires { i < tree_branches }
        ensures put { IsBranchPutRow i branch (tree_row self.old) (tree_row self.new) }
        ensures whole { AreWholeLimb branch → AreWholeTree self.old → AreWholeTree self.new }
    {
        self.branches[i] = branch;
    }

    // Keeps a block in the place of one of a branch.
    fn put_in_branch(&mut self, k: usize, i: usize, block: BlockRef)
        requires branch { k < tree_branches }
        requires within { i < branch_blocks }
        requires ready { ReadyLimb (block_pages * i) (block_pages * i + block_pages) (branch_at self.old k) }
        ensures put { IsBlockPutRow branch_pages i block (limb_row (branch_at self.old k)) (limb_row (branch_at self.new k)) }
        ensures whole { AreWholeIn block → AreWholeLimb (branch_at self.old k) → AreWholeLimb (branch_at self.new k) }
        ensures others { SameOtherBranches k self.old self.new }
    {
        self.branches[k].put_block(i, block);
    }
}

impl TreeRef {
    /// A block with the permissions and bytes of the i-th one, which shares what that shares.
    pub fn share_block(&self, i: usize, alloc: Global) -> Result<BlockRef, AllocError>
        requires { block_pages * i < tree_pages }
        ensures same { IfOk result (λ block. IsBlockOf (root_row self.now) i block) }
        ensures whole { AreWholeRoot self.now → IfOk result (λ block. AreWholeIn block) }
    {
        match self {
            TreeRef::Uniform(permission) => Ok(BlockRef::Uniform(*permission)),
            TreeRef::Shared(tree) => tree.share_block(i, alloc),
            TreeRef::Own(tree) => tree.share_block(i, alloc),
        }
    }

    /// Keeps a block in the place of the i-th one.
    pub fn put_block(&mut self, i: usize, block: BlockRef)
        requires within { block_pages * i < tree_pages }
        requires ready { ReadyRoot (block_pages * i) (block_pages * i + block_pages) self.old }
        ensures put { IsBlockPutRow tree_pages i block (root_row self.old) (root_row self.new) }
        ensures whole { AreWholeIn block → AreWholeRoot self.old → AreWholeRoot self.new }
    {
        match self {
            TreeRef::Uniform(_) => {}
            TreeRef::Shared(_) => {}
            TreeRef::Own(tree) => tree.put_block(i, block),
        }
    }

    /// A branch with the permissions and bytes of the i-th one, which shares what that shares.
    pub fn share_branch(&self, i: usize, alloc: Global) -> Result<BranchRef, AllocError>
        requires { i < tree_branches }
        ensures same { IfOk result (λ branch. IsBranchOf (root_row self.now) i branch) }
        ensures whole { AreWholeRoot self.now → IfOk result (λ branch. AreWholeLimb branch) }
    {
        match self {
            TreeRef::Uniform(permission) => Ok(BranchRef::Uniform(*permission)),
            TreeRef::Shared(tree) => tree.share_branch(i, alloc),
            TreeRef::Own(tree) => tree.share_branch(i, alloc),
        }
    }

    /// Keeps a branch in the place of the i-th one.
    pub fn put_branch(&mut self, i: usize, branch: BranchRef)
        requires within { i < tree_branches }
        requires ready { ReadyRoot (branch_pages * i) (branch_pages * i + branch_pages) self.old }
        ensures put { IsBranchPutRow i branch (root_row self.old) (root_row self.new) }
        ensures whole { AreWholeLimb branch → AreWholeRoot self.old → AreWholeRoot self.new }
    {
        match self {
            TreeRef::Uniform(_) => {}
            TreeRef::Shared(_) => {}
            TreeRef::Own(tree) => tree.put_branch(i, branch),
        }
    }
}
