ghost use Rattle.std.specs.Prelude.{◌≡◌, ◌/◌, ◌%◌, ◌<◌, IsTrue, IsFalse, true};
ghost use Rattle.memory_model.specs.Memory.{width_bytes};
ghost use Rattle.memory_model.specs.Sizes.{page_size};
ghost use Rattle.page_store.specs.Bytes.{with_number_in};
ghost use Rattle.page_tree.specs.Rows.{IsEditedRow};
ghost use Rattle.page_tree.specs.Blocks.{block_pages, page_in, permission_in, is_own_in, AreWhole};
ghost use Rattle.page_tree.specs.BlockRows.{block_row};
ghost use Rattle.page_tree.specs.BlockRefs.{ref_permission, ref_own, ref_row, AreWholeIn};
ghost use Rattle.page_tree.specs.Branches.{branch_pages, branch_permission, branch_own, branch_row, AreWholeBelow};
ghost use Rattle.page_tree.specs.BranchRefs.{limb_permission, limb_own, limb_row, AreWholeLimb};
ghost use Rattle.page_tree.specs.Trees.{tree_pages, tree_permission, tree_own, tree_row, AreWholeTree};
ghost use Rattle.page_tree.specs.TreeRefs.{root_permission, root_own, root_row, AreWholeRoot};

use crate::block::{BLOCK_PAGES, Block};
use crate::block_ref::BlockRef;
use crate::branch::{BRANCH_PAGES, Branch};
use crate::branch_ref::BranchRef;
use crate::tree::Tree;
use crate::tree_ref::TreeRef;
use memory_model::Width;
use page_store::may_write;

impl Block {
    /// Writes the lowest `width` bytes of `value` at an aligned place of an own page that may be written. False: nothing has changed,
    /// since the page is no own one or may not be written.
    #[inline(always)]
    pub fn try_write(&mut self, page: usize, at: u16, width: Width, value: u32) -> bool
        requires page { page < block_pages }
        requires within { at < page_size }
        requires aligned { at % width_bytes width ≡ 0 }
        ensures done { IsTrue result → IsEditedRow block_pages page (λ bytes. with_number_in bytes at width value) (block_row self.old) (block_row self.new) }
        ensures allowed { IsTrue result → permission_in self.old page / 2 % 2 ≡ 1 }
        ensures own { IsTrue result → is_own_in (page_in self.old page) ≡ true }
        ensures undone { IsFalse result → self.new ≡ self.old }
        ensures sure { is_own_in (page_in self.old page) ≡ true → permission_in self.old page / 2 % 2 ≡ 1 → IsTrue result }
        ensures whole { AreWhole self.old → AreWhole self.new }
    {
        if !may_write(self.permissions[page]) {
            return false;
        }
        self.pages.write(page, at, width, value)
    }
}

impl BlockRef {
    /// Writes the lowest `width` bytes of `value` at an aligned place of an own page that may be written. False: nothing has changed,
    /// since the page is no own one or may not be written.
    #[inline(always)]
    pub fn try_write(&mut self, page: usize, at: u16, width: Width, value: u32) -> bool
        requires page { page < block_pages }
        requires within { at < page_size }
        requires aligned { at % width_bytes width ≡ 0 }
        ensures done { IsTrue result → IsEditedRow block_pages page (λ bytes. with_number_in bytes at width value) (ref_row self.old) (ref_row self.new) }
        ensures allowed { IsTrue result → ref_permission self.old page / 2 % 2 ≡ 1 }
        ensures own { IsTrue result → ref_own self.old page ≡ true }
        ensures undone { IsFalse result → self.new ≡ self.old }
        ensures sure { ref_own self.old page ≡ true → ref_permission self.old page / 2 % 2 ≡ 1 → IsTrue result }
        ensures whole { AreWholeIn self.old → AreWholeIn self.new }
    {
        match self {
            BlockRef::Own(block) => block.try_write(page, at, width, value),
            _ => false,
        }
    }
}

impl Branch {
    /// Writes the lowest `width` bytes of `value` at an aligned place of an own page that may be written. False: nothing has changed,
    /// since the page is no own one or may not be written.
    #[inline(always)]
    pub fn try_write(&mut self, page: usize, at: u16, width: Width, value: u32) -> bool
        requires page { page < branch_pages }
        requires within { at < page_size }
        requires aligned { at % width_bytes width ≡ 0 }
        ensures done { IsTrue result → IsEditedRow branch_pages page (λ bytes. with_number_in bytes at width value) (branch_row self.old) (branch_row self.new) }
        ensures allowed { IsTrue result → branch_permission self.old page / 2 % 2 ≡ 1 }
        ensures own { IsTrue result → branch_own self.old page ≡ true }
        ensures undone { IsFalse result → self.new ≡ self.old }
        ensures sure { branch_own self.old page ≡ true → branch_permission self.old page / 2 % 2 ≡ 1 → IsTrue result }
        ensures whole { AreWholeBelow self.old → AreWholeBelow self.new }
    {
        self.blocks[page / BLOCK_PAGES].try_write(page % BLOCK_PAGES, at, width, value)
    }
}

impl BranchRef {
    /// Writes the lowest `width` bytes of `value` at an aligned place of an own page that may be written. False: nothing has changed,
    /// since the page is no own one or may not be written.
    #[inline(always)]
    pub fn try_write(&mut self, page: usize, at: u16, width: Width, value: u32) -> bool
        requires page { page < branch_pages }
        requires within { at < page_size }
        requires aligned { at % width_bytes width ≡ 0 }
        ensures done { IsTrue result → IsEditedRow branch_pages page (λ bytes. with_number_in bytes at width value) (limb_row self.old) (limb_row self.new) }
        ensures allowed { IsTrue result → limb_permission self.old page / 2 % 2 ≡ 1 }
        ensures own { IsTrue result → limb_own self.old page ≡ true }
        ensures undone { IsFalse result → self.new ≡ self.old }
        ensures sure { limb_own self.old page ≡ true → limb_permission self.old page / 2 % 2 ≡ 1 → IsTrue result }
        ensures whole { AreWholeLimb self.old → AreWholeLimb self.new }
    {
        match self {
            BranchRef::Own(branch) => branch.try_write(page, at, width, value),
            _ => false,
        }
    }
}

impl Tree {
    /// Writes the lowest `width` bytes of `value` at an aligned place of an own page that may be written. False: nothing has changed,
    /// since the page is no own one or may not be written.
    #[inline(always)]
    pub fn try_write(&mut self, page: usize, at: u16, width: Width, value: u32) -> bool
        requires page { page < tree_pages }
        requires within { at < page_size }
        requires aligned { at % width_bytes width ≡ 0 }
        ensures done { IsTrue result → IsEditedRow tree_pages page (λ bytes. with_number_in bytes at width value) (tree_row self.old) (tree_row self.new) }
        ensures allowed { IsTrue result → tree_permission self.old page / 2 % 2 ≡ 1 }
        ensures own { IsTrue result → tree_own self.old page ≡ true }
        ensures undone { IsFalse result → self.new ≡ self.old }
        ensures sure { tree_own self.old page ≡ true → tree_permission self.old page / 2 % 2 ≡ 1 → IsTrue result }
        ensures whole { AreWholeTree self.old → AreWholeTree self.new }
    {
        self.branches[page / BRANCH_PAGES].try_write(page % BRANCH_PAGES, at, width, value)
    }
}

impl TreeRef {
    /// Writes the lowest `width` bytes of `value` at an aligned place of an own page that may be written. False: nothing has changed,
    /// since the page is no own one or may not be written.
    #[inline(always)]
    pub fn try_write(&mut self, page: usize, at: u16, width: Width, value: u32) -> bool
        requires page { page < tree_pages }
        requires within { at < page_size }
        requires aligned { at % width_bytes width ≡ 0 }
        ensures done { IsTrue result → IsEditedRow tree_pages page (λ bytes. with_number_in bytes at width value) (root_row self.old) (root_row self.new) }
        ensures allowed { IsTrue result → root_permission self.old page / 2 % 2 ≡ 1 }
        ensures own { IsTrue result → root_own self.old page ≡ true }
        ensures undone { IsFalse result → self.new ≡ self.old }
        ensures sure { root_own self.old page ≡ true → root_permission self.old page / 2 % 2 ≡ 1 → IsTrue result }
        ensures whole { AreWholeRoot self.old → AreWholeRoot self.new }
    {
        match self {
            TreeRef::Own(tree) => tree.try_write(page, at, width, value),
            _ => false,
        }
    }
}
