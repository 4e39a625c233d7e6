ghost use Rattle.std.specs.Prelude.{◌≡◌, ℕ, ◌+◌, ◌%◌, ◌<◌, ◌≤◌, cond, IfOk, IsOk, OnOk, OnErr, IfSome, IsNone, false, true};
ghost use Rattle.page_tree.specs.Branches.{branch_pages};
ghost use Rattle.page_tree.specs.Trees.{tree_pages, tree_branches, branch_at, tree_permission, tree_page, tree_own, SameTree, SameOwnTree, NoneOwnTree, AreWholeTree, IsOwnedTree};
ghost use Rattle.page_tree.specs.BranchRefs.{SameLimb, SameOwnLimb, NoneOwnLimb, AreWholeLimb};
ghost use Rattle.page_tree.specs.declared.branch_ref.BranchRef.TheVariants.{Uniform};

use crate::branch::BRANCH_PAGES;
use crate::branch_ref::BranchRef;
use page_store::PageRef;
use std::alloc::{AllocError, Global};
use std::array::from_fn;

/// How many branches a tree has.
pub const BRANCHES: usize = 128;

/// How many pages a tree has.
pub const TREE_PAGES: usize = 1048576;

/// 1,048,576 pages in a row.
#[derive(Drop)]
pub struct Tree {
    pub branches: [BranchRef; BRANCHES],
}

impl Tree {
    /// The permission of a page.
    #[inline(always)]
    pub fn permission(&self, page: usize) -> u8
        requires { page < tree_pages }
        ensures { result ≡ tree_permission self.now page }
    {
        match self.branches.get(page / BRANCH_PAGES) {
            Some(block) => block.permission(page % BRANCH_PAGES),
            None => 0,
        }
    }

    /// A branch of pages that are not kept, each with the permission.
    pub fn uniform(permission: u8) -> Tree
        ensures { (i : ℕ) → i < tree_branches → branch_at result i ≡ Uniform permission }
    {
        let mut branches = from_fn(|_| BranchRef::Uniform(0));
        if permission != 0 {
            for i in 0..BRANCHES {
                branches[i] = BranchRef::Uniform(permission);
            }
        }
        Tree { branches }
    }

    /// What is kept of a page.
    #[inline(always)]
    pub fn page(&self, page: usize) -> Option<&PageRef>
        requires { page < tree_pages }
        ensures some { IfSome result (λ kept. tree_page self.now page ≡ Some kept.now) }
        ensures none { IsNone result → tree_page self.now page ≡ None }
    {
        match self.branches.get(page / BRANCH_PAGES) {
            Some(block) => block.page(page % BRANCH_PAGES),
            None => None,
        }
    }

    /// The same pages: of what is shared another holder, and copies of the rest.
    pub fn share(&self, alloc: Global) -> Result<Tree, AllocError>
        ensures same { IfOk result (λ copy. SameTree self.now copy) }
        ensures own { IfOk result (λ copy. SameOwnTree self.now copy) }
        ensures whole { AreWholeTree self.now → IfOk result (λ copy. AreWholeTree copy) }
    {
        let mut branches = from_fn(|_| BranchRef::Uniform(0));
        for i in 0..BRANCHES {
            branches[i] = self.share_at(i, alloc)?;
        }
        Ok(Tree { branches })
    }

    // What is kept of a block, shared.
    #[inline(always)]
    pub(crate) fn share_at(&self, i: usize, alloc: Global) -> Result<BranchRef, AllocError>
        ensures same { IfOk result (λ copy. SameLimb (branch_at self.now i) copy) }
        ensures own { IfOk result (λ copy. SameOwnLimb (branch_at self.now i) copy) }
        ensures whole { AreWholeLimb (branch_at self.now i) → IfOk result (λ copy. AreWholeLimb copy) }
    {
        match self.branches.get(i) {
            Some(block) => block.share(alloc),
            None => Ok(BranchRef::Uniform(0)),
        }
    }

    /// Makes it one that can be shared, with all its pages. No page becomes an own one. At an error, want of memory, some
    /// pages may be shared and others owned.
    pub fn freeze(&mut self, alloc: Global) -> Result<(), AllocError>
        ensures same { SameTree self.old self.new }
        ensures none { OnOk result (NoneOwnTree self.new) }
        ensures less { (j : ℕ) → j < tree_pages → tree_own self.new j ≡ true → tree_own self.old j ≡ true }
        ensures whole { AreWholeTree self.old → AreWholeTree self.new }
    {
        for i in 0..BRANCHES {
            self.branches[i].freeze(alloc)?;
        }
        Ok(())
    }

    /// Owns a page too.
    pub fn own_page(&mut self, page: usize, alloc: Global) -> Result<(), AllocError>
        requires { page < tree_pages }
        ensures same { SameTree self.old self.new }
        ensures owned { OnOk result (IsOwnedTree page self.old self.new) }
        ensures whole { AreWholeTree self.old → AreWholeTree self.new }
        ensures err { OnErr result (SameOwnTree self.old self.new) }
        ensures idle { tree_own self.old page ≡ true → IsOk result }
    {
        self.branches[page / BRANCH_PAGES].own_page(page % BRANCH_PAGES, alloc)?;
        Ok(())
    }
}
