ghost use Rattle.std.specs.Prelude.{◌≡◌, ℕ, ◌<◌, ◌≤◌, IfSome, IsFalse, IsTrue, None, false};
ghost use Rattle.page_tree.specs.Blocks.{block_pages, page_in, permission_in};
ghost use Rattle.page_tree.specs.BlockRefs.{AreWholeIn, ref_own, ref_page, ref_permission, ref_row};
ghost use Rattle.page_tree.specs.Branches.{branch_pages, branch_blocks, block_at, IsUniformBranch};
ghost use Rattle.page_tree.specs.BranchRefs.{AreWholeLimb, limb_row};
ghost use Rattle.page_tree.specs.Ready.{ReadyBlock, ReadyLimb};
ghost use Rattle.page_tree.specs.Settled.{IsEqualRow};
ghost use Rattle.page_tree.specs.declared.block_ref.BlockRef.TheVariants.{Uniform};

use crate::block::{BLOCK_PAGES, Block};
use crate::block_ref::BlockRef;
use crate::branch::{BLOCKS, Branch};
use crate::branch_ref::BranchRef;

impl Block {
    // The permission of all pages, where no page is kept and all have one.
    fn bare_permission(&self) -> Option<u8>
        ensures pages { IfSome result (λ permission. (j : ℕ) → j < block_pages → page_in self.now j ≡ None) }
        ensures permissions { IfSome result (λ permission. (j : ℕ) → j < block_pages → permission_in self.now j ≡ permission) }
    {
        let permission = self.permissions[0];
        for j in 0..BLOCK_PAGES {
            if !self.is_bare(j, permission) {
                return None;
            }
        }
        Some(permission)
    }

    // Whether a page is not kept and has this permission.
    pub(crate) fn is_bare(&self, j: usize, permission: u8) -> bool
        requires { j < block_pages }
        ensures page { IsTrue result → page_in self.now j ≡ None }
        ensures permission { IsTrue result → permission_in self.now j ≡ permission }
        ensures other { IsFalse result → page_in self.now j ≡ None → permission_in self.now j ≡ permission → ⊥ }
    {
        self.page(j).is_none() && self.permissions[j] == permission
    }
}

impl BlockRef {
    /// Makes a block that keeps no page, and whose pages have one permission, uniform. Pages and permissions stay.
    pub(crate) fn settle(&mut self)
        ensures same { IsEqualRow block_pages (ref_row self.old) (ref_row self.new) }
        ensures whole { AreWholeIn self.old → AreWholeIn self.new }
        ensures ready { ReadyBlock 0 block_pages self.old → ReadyBlock 0 block_pages self.new }
    {
        if let Some(permission) = self.one_permission() {
            *self = BlockRef::Uniform(permission);
        }
    }

    // The permission of all pages, where no page is kept and all have one.
    fn one_permission(&self) -> Option<u8>
        ensures pages { IfSome result (λ permission. (j : ℕ) → j < block_pages → ref_page self.now j ≡ None) }
        ensures permissions { IfSome result (λ permission. (j : ℕ) → j < block_pages → ref_permission self.now j ≡ permission) }
        ensures own { IfSome result (λ permission. (j : ℕ) → j < block_pages → ref_own self.now j ≡ false) }
    {
        match self {
            BlockRef::Own(block) => block.bare_permission(),
            BlockRef::Bare(block) => block.one_permission(),
            _ => None,
        }
    }
}

impl Branch {
    // The permission of all pages, where each block is uniform and all have one.
    fn one_permission(&self) -> Option<u8>
        ensures { IfSome result (λ permission. IsUniformBranch permission self.now) }
    {
        match self.blocks[0] {
            BlockRef::Uniform(permission) => {
                if !self.are_uniform(permission) {
                    return None;
                }
                Some(permission)
            }
            _ => None,
        }
    }

    // Whether each block is uniform, of this permission.
    fn are_uniform(&self, permission: u8) -> bool
        ensures { IsTrue result → IsUniformBranch permission self.now }
    {
        for i in 0..BLOCKS {
            if !self.is_uniform(i, permission) {
                return false;
            }
        }
        true
    }

    // Whether a block is uniform, of this permission.
    fn is_uniform(&self, i: usize, permission: u8) -> bool
        requires { i < branch_blocks }
        ensures { IsTrue result → block_at self.now i ≡ Uniform permission }
    {
        match self.blocks[i] {
            BlockRef::Uniform(of_all) => of_all == permission,
            _ => false,
        }
    }
}

impl BranchRef {
    /// Makes an own branch whose blocks are uniform, of one permission, uniform itself. Pages and permissions stay.
    pub(crate) fn settle(&mut self)
        ensures same { IsEqualRow branch_pages (limb_row self.old) (limb_row self.new) }
        ensures whole { AreWholeLimb self.old → AreWholeLimb self.new }
        ensures ready { ReadyLimb 0 branch_pages self.old → ReadyLimb 0 branch_pages self.new }
    {
        if let BranchRef::Own(branch) = self {
            if let Some(permission) = branch.one_permission() {
                *self = BranchRef::Uniform(permission);
            }
        }
    }
}
