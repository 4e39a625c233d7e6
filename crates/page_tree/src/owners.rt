ghost use Rattle.std.specs.Prelude.{◌≡◌, ℕ, ◌*◌, ◌/◌, ◌<◌, ◌≤◌, IfSome, IsNone, false, true};
ghost use Rattle.page_tree.specs.Blocks.{block_pages, page_in, is_own_in};
ghost use Rattle.page_tree.specs.BlockRefs.{ref_own};
ghost use Rattle.page_tree.specs.Branches.{branch_pages, branch_blocks, branch_own};
ghost use Rattle.page_tree.specs.BranchRefs.{limb_own};
ghost use Rattle.page_tree.specs.Trees.{tree_pages, tree_branches, tree_own};
ghost use Rattle.page_tree.specs.TreeRefs.{root_own};

use crate::block::{BLOCK_PAGES, Block};
use crate::block_ref::BlockRef;
use crate::branch::{BRANCH_PAGES, Branch};
use crate::branch_ref::BranchRef;
use crate::tree::Tree;
use crate::tree_ref::TreeRef;

impl Block {
    /// The least page from `from` to before `end` that is kept as an own one.
    pub fn next_own(&self, from: usize, end: usize) -> Option<usize>
        requires { end ≤ block_pages }
        ensures from { IfSome result (λ p. from ≤ p) }
        ensures within { IfSome result (λ p. p < end) }
        ensures own { IfSome result (λ p. is_own_in (page_in self.now p) ≡ true) }
        ensures least { IfSome result (λ p. (q : ℕ) → from ≤ q → q < p → is_own_in (page_in self.now q) ≡ false) }
        ensures none { IsNone result → (q : ℕ) → from ≤ q → q < end → is_own_in (page_in self.now q) ≡ false }
    {
        if self.pages.is_empty() {
            return None;
        }
        for j in from..end {
            if self.is_own_at(j) {
                return Some(j);
            }
        }
        None
    }

    // Whether a page is kept as an own one.
    fn is_own_at(&self, j: usize) -> bool
        ensures { result ≡ is_own_in (page_in self.now j) }
    {
        match self.page(j) {
            Some(page) => page.is_own(),
            None => false,
        }
    }
}

impl BlockRef {
    /// The least page from `from` to before `end` that is owned. A part that is shared owns none, and is one step.
    pub fn next_own(&self, from: usize, end: usize) -> Option<usize>
        requires { end ≤ block_pages }
        ensures from { IfSome result (λ p. from ≤ p) }
        ensures within { IfSome result (λ p. p < end) }
        ensures own { IfSome result (λ p. ref_own self.now p ≡ true) }
        ensures least { IfSome result (λ p. (q : ℕ) → from ≤ q → q < p → ref_own self.now q ≡ false) }
        ensures none { IsNone result → (q : ℕ) → from ≤ q → q < end → ref_own self.now q ≡ false }
    {
        match self {
            BlockRef::Own(block) => block.next_own(from, end),
            _ => None,
        }
    }
}

impl Branch {
    /// The least page from `from` to before `end` that is owned.
    pub fn next_own(&self, from: usize, end: usize) -> Option<usize>
        requires { end ≤ branch_pages }
        ensures from { IfSome result (λ p. from ≤ p) }
        ensures within { IfSome result (λ p. p < end) }
        ensures own { IfSome result (λ p. branch_own self.now p ≡ true) }
        ensures least { IfSome result (λ p. (q : ℕ) → from ≤ q → q < p → branch_own self.now q ≡ false) }
        ensures none { IsNone result → (q : ℕ) → from ≤ q → q < end → branch_own self.now q ≡ false }
    {
        for i in from / BLOCK_PAGES..end.div_ceil(BLOCK_PAGES) {
            let found = self.next_own_in(i, from, end);
            if found.is_some() {
                return found;
            }
        }
        None
    }

    // The least page of a block from `from` to before `end` that is owned.
    fn next_own_in(&self, i: usize, from: usize, end: usize) -> Option<usize>
        requires block { i < branch_blocks }
        requires before { block_pages * i < end }
        ensures from { IfSome result (λ p. from ≤ p) }
        ensures within { IfSome result (λ p. p / block_pages ≡ i) }
        ensures below { IfSome result (λ p. p < end) }
        ensures own { IfSome result (λ p. branch_own self.now p ≡ true) }
        ensures least { IfSome result (λ p. (q : ℕ) → from ≤ q → q / block_pages ≡ i → q < p → branch_own self.now q ≡ false) }
        ensures none { IsNone result → (q : ℕ) → from ≤ q → q < end → q / block_pages ≡ i → branch_own self.now q ≡ false }
    {
        let first = i * BLOCK_PAGES;
        let to = (end - first).min(BLOCK_PAGES);
        match self.blocks[i].next_own(from.saturating_sub(first), to) {
            Some(page) => Some(first + page),
            None => None,
        }
    }
}

impl BranchRef {
    /// The least page from `from` to before `end` that is owned. A part that is shared owns none, and is one step.
    pub fn next_own(&self, from: usize, end: usize) -> Option<usize>
        requires { end ≤ branch_pages }
        ensures from { IfSome result (λ p. from ≤ p) }
        ensures within { IfSome result (λ p. p < end) }
        ensures own { IfSome result (λ p. limb_own self.now p ≡ true) }
        ensures least { IfSome result (λ p. (q : ℕ) → from ≤ q → q < p → limb_own self.now q ≡ false) }
        ensures none { IsNone result → (q : ℕ) → from ≤ q → q < end → limb_own self.now q ≡ false }
    {
        match self {
            BranchRef::Own(branch) => branch.next_own(from, end),
            _ => None,
        }
    }
}

impl Tree {
    /// The least page from `from` to before `end` that is owned.
    pub fn next_own(&self, from: usize, end: usize) -> Option<usize>
        requires { end ≤ tree_pages }
        ensures from { IfSome result (λ p. from ≤ p) }
        ensures within { IfSome result (λ p. p < end) }
        ensures own { IfSome result (λ p. tree_own self.now p ≡ true) }
        ensures least { IfSome result (λ p. (q : ℕ) → from ≤ q → q < p → tree_own self.now q ≡ false) }
        ensures none { IsNone result → (q : ℕ) → from ≤ q → q < end → tree_own self.now q ≡ false }
    {
        for i in from / BRANCH_PAGES..end.div_ceil(BRANCH_PAGES) {
            let found = self.next_own_in(i, from, end);
            if found.is_some() {
                return found;
            }
        }
        None
    }

    // The least page of a branch from `from` to before `end` that is owned.
    fn next_own_in(&self, i: usize, from: usize, end: usize) -> Option<usize>
        requires branch { i < tree_branches }
        requires before { branch_pages * i < end }
        ensures from { IfSome result (λ p. from ≤ p) }
        ensures within { IfSome result (λ p. p / branch_pages ≡ i) }
        ensures below { IfSome result (λ p. p < end) }
        ensures own { IfSome result (λ p. tree_own self.now p ≡ true) }
        ensures least { IfSome result (λ p. (q : ℕ) → from ≤ q → q / branch_pages ≡ i → q < p → tree_own self.now q ≡ false) }
        ensures none { IsNone result → (q : ℕ) → from ≤ q → q < end → q / branch_pages ≡ i → tree_own self.now q ≡ false }
    {
        let first = i * BRANCH_PAGES;
        let to = (end - first).min(BRANCH_PAGES);
        match self.branches[i].next_own(from.saturating_sub(first), to) {
            Some(page) => Some(first + page),
            None => None,
        }
    }
}

impl TreeRef {
    /// The least page from `from` to before `end` that is owned. A part that is shared owns none, and is one step.
    pub fn next_own(&self, from: usize, end: usize) -> Option<usize>
        requires { end ≤ tree_pages }
        ensures from { IfSome result (λ p. from ≤ p) }
        ensures within { IfSome result (λ p. p < end) }
        ensures own { IfSome result (λ p. root_own self.now p ≡ true) }
        ensures least { IfSome result (λ p. (q : ℕ) → from ≤ q → q < p → root_own self.now q ≡ false) }
        ensures none { IsNone result → (q : ℕ) → from ≤ q → q < end → root_own self.now q ≡ false }
    {
        match self {
            TreeRef::Own(tree) => tree.next_own(from, end),
            _ => None,
        }
    }
}
