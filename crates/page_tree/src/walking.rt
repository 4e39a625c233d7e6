ghost use Rattle.std.specs.Prelude.{◌≡◌, ℕ, ◌*◌, ◌/◌, ◌<◌, ◌≤◌, IfSome, IsNone};
ghost use Rattle.page_tree.specs.Rows.{IsBlankPage, IsBareStretch};
ghost use Rattle.page_tree.specs.Blocks.{block_pages, page_in};
ghost use Rattle.page_tree.specs.BlockRows.{block_row};
ghost use Rattle.page_tree.specs.BlockRefs.{ref_page, ref_row};
ghost use Rattle.page_tree.specs.Branches.{branch_pages, branch_blocks, branch_page, branch_row};
ghost use Rattle.page_tree.specs.BranchRefs.{limb_page, limb_row};
ghost use Rattle.page_tree.specs.Trees.{tree_pages, tree_branches, tree_page, tree_row};
ghost use Rattle.page_tree.specs.TreeRefs.{root_page, root_row};

use crate::block::{BLOCK_PAGES, Block};
use crate::block_ref::BlockRef;
use crate::branch::{BLOCKS, BRANCH_PAGES, Branch};
use crate::branch_ref::BranchRef;
use crate::tree::{BRANCHES, TREE_PAGES, Tree};
use crate::tree_ref::TreeRef;

impl Block {
    /// The least page from `from` to before `end` of which bytes are kept. It looks at no page beside, and at none where nothing is kept.
    pub fn next_kept(&self, from: usize, end: usize) -> Option<usize>
        requires { end ≤ block_pages }
        ensures from { IfSome result (λ p. from ≤ p) }
        ensures within { IfSome result (λ p. p < end) }
        ensures kept { IfSome result (λ p. page_in self.now p ≡ None → ⊥) }
        ensures least { IfSome result (λ p. (q : ℕ) → from ≤ q → q < p → page_in self.now q ≡ None) }
        ensures none { IsNone result → (q : ℕ) → from ≤ q → q < end → page_in self.now q ≡ None }
    {
        if self.pages.is_empty() {
            return None;
        }
        for j in from..end {
            if self.page(j).is_some() {
                return Some(j);
            }
        }
        None
    }

    /// Where pages that keep no bytes and have one permission end, from a page on. It may stop early, where a part ends.
    pub fn bare_end(&self, page: usize) -> usize
        requires { page < block_pages }
        ensures rise { page ≤ result }
        ensures within { result ≤ block_pages }
        ensures bare { IsBareStretch (block_row self.now) page result }
        ensures kept { result ≡ page → page_in self.now page ≡ None → ⊥ }
    {
        let permission = self.permissions[page];
        for j in page..BLOCK_PAGES {
            if !self.is_bare(j, permission) {
                return j;
            }
        }
        BLOCK_PAGES
    }
}

impl BlockRef {
    /// The least page from `from` to before `end` of which bytes are kept. It looks at no page beside.
    pub fn next_kept(&self, from: usize, end: usize) -> Option<usize>
        requires { end ≤ block_pages }
        ensures from { IfSome result (λ p. from ≤ p) }
        ensures within { IfSome result (λ p. p < end) }
        ensures kept { IfSome result (λ p. ref_page self.now p ≡ None → ⊥) }
        ensures least { IfSome result (λ p. (q : ℕ) → from ≤ q → q < p → ref_page self.now q ≡ None) }
        ensures none { IsNone result → (q : ℕ) → from ≤ q → q < end → ref_page self.now q ≡ None }
    {
        match self {
            BlockRef::Uniform(_) => None,
            BlockRef::Bare(_) => None,
            BlockRef::Shared(block) => block.next_kept(from, end),
            BlockRef::Own(block) => block.next_kept(from, end),
        }
    }

    /// Where pages that keep no bytes and have one permission end, from a page on. It may stop early, where a part ends.
    pub fn bare_end(&self, page: usize) -> usize
        requires { page < block_pages }
        ensures rise { page ≤ result }
        ensures within { result ≤ block_pages }
        ensures bare { IsBareStretch (ref_row self.now) page result }
        ensures kept { result ≡ page → ref_page self.now page ≡ None → ⊥ }
    {
        match self {
            BlockRef::Uniform(_) => BLOCK_PAGES,
            BlockRef::Bare(block) => block.same_end(page),
            BlockRef::Shared(block) => block.bare_end(page),
            BlockRef::Own(block) => block.bare_end(page),
        }
    }
}

impl Branch {
    /// The least page from `from` to before `end` of which bytes are kept. It looks at no page beside.
    pub fn next_kept(&self, from: usize, end: usize) -> Option<usize>
        requires { end ≤ branch_pages }
        ensures from { IfSome result (λ p. from ≤ p) }
        ensures within { IfSome result (λ p. p < end) }
        ensures kept { IfSome result (λ p. branch_page self.now p ≡ None → ⊥) }
        ensures least { IfSome result (λ p. (q : ℕ) → from ≤ q → q < p → branch_page self.now q ≡ None) }
        ensures none { IsNone result → (q : ℕ) → from ≤ q → q < end → branch_page self.now q ≡ None }
    {
        for i in from / BLOCK_PAGES..end.div_ceil(BLOCK_PAGES) {
            let found = self.next_kept_in(i, from, end);
            if found.is_some() {
                return found;
            }
        }
        None
    }

    // The least page of a block from `from` to before `end` of which bytes are kept.
    fn next_kept_in(&self, i: usize, from: usize, end: usize) -> Option<usize>
        requires block { i < branch_blocks }
        requires before { block_pages * i < end }
        ensures from { IfSome result (λ p. from ≤ p) }
        ensures within { IfSome result (λ p. p / block_pages ≡ i) }
        ensures below { IfSome result (λ p. p < end) }
        ensures kept { IfSome result (λ p. branch_page self.now p ≡ None → ⊥) }
        ensures least { IfSome result (λ p. (q : ℕ) → from ≤ q → q / block_pages ≡ i → q < p → branch_page self.now q ≡ None) }
        ensures none { IsNone result → (q : ℕ) → from ≤ q → q < end → q / block_pages ≡ i → branch_page self.now q ≡ None }
    {
        let first = i * BLOCK_PAGES;
        let to = (end - first).min(BLOCK_PAGES);
        match self.blocks[i].next_kept(from.saturating_sub(first), to) {
            Some(page) => Some(first + page),
            None => None,
        }
    }

    /// The least page from `from` on that has a permission or a byte other than 0.
    pub fn next_used(&self, from: usize) -> Option<usize>
        requires { from < branch_pages }
        ensures from { IfSome result (λ p. from ≤ p) }
        ensures within { IfSome result (λ p. p < branch_pages) }
        ensures used { IfSome result (λ p. IsBlankPage (branch_row self.now) p → ⊥) }
        ensures least { IfSome result (λ p. (q : ℕ) → from ≤ q → q < p → IsBlankPage (branch_row self.now) q) }
        ensures none { IsNone result → (q : ℕ) → from ≤ q → q < branch_pages → IsBlankPage (branch_row self.now) q }
    {
        for i in from / BLOCK_PAGES..BLOCKS {
            let found = self.next_used_in(i, from);
            if found.is_some() {
                return found;
            }
        }
        None
    }

    // The least page of a block from `from` on that has a permission or a byte other than 0.
    fn next_used_in(&self, i: usize, from: usize) -> Option<usize>
        requires within { i < branch_blocks }
        requires before { from / block_pages ≤ i }
        ensures from { IfSome result (λ p. from ≤ p) }
        ensures within { IfSome result (λ p. p / block_pages ≡ i) }
        ensures used { IfSome result (λ p. IsBlankPage (branch_row self.now) p → ⊥) }
        ensures least { IfSome result (λ p. (q : ℕ) → from ≤ q → q / block_pages ≡ i → q < p → IsBlankPage (branch_row self.now) q) }
        ensures none { IsNone result → (q : ℕ) → from ≤ q → q / block_pages ≡ i → IsBlankPage (branch_row self.now) q }
    {
        let first = i * BLOCK_PAGES;
        match self.blocks[i].next_used(from.saturating_sub(first)) {
            Some(page) => Some(first + page),
            None => None,
        }
    }

    /// Where pages that keep no bytes and have one permission end, from a page on. It may stop early, where a part ends.
    pub fn bare_end(&self, page: usize) -> usize
        requires { page < branch_pages }
        ensures rise { page ≤ result }
        ensures within { result ≤ branch_pages }
        ensures bare { IsBareStretch (branch_row self.now) page result }
        ensures kept { result ≡ page → branch_page self.now page ≡ None → ⊥ }
    {
        let first = page / BLOCK_PAGES * BLOCK_PAGES;
        first + self.blocks[page / BLOCK_PAGES].bare_end(page % BLOCK_PAGES)
    }
}

impl BranchRef {
    /// The least page from `from` to before `end` of which bytes are kept. It looks at no page beside.
    pub fn next_kept(&self, from: usize, end: usize) -> Option<usize>
        requires { end ≤ branch_pages }
        ensures from { IfSome result (λ p. from ≤ p) }
        ensures within { IfSome result (λ p. p < end) }
        ensures kept { IfSome result (λ p. limb_page self.now p ≡ None → ⊥) }
        ensures least { IfSome result (λ p. (q : ℕ) → from ≤ q → q < p → limb_page self.now q ≡ None) }
        ensures none { IsNone result → (q : ℕ) → from ≤ q → q < end → limb_page self.now q ≡ None }
    {
        match self {
            BranchRef::Uniform(_) => None,
            BranchRef::Shared(branch) => branch.next_kept(from, end),
            BranchRef::Own(branch) => branch.next_kept(from, end),
        }
    }

    /// The least page from `from` on that has a permission or a byte other than 0.
    pub fn next_used(&self, from: usize) -> Option<usize>
        requires { from < branch_pages }
        ensures from { IfSome result (λ p. from ≤ p) }
        ensures within { IfSome result (λ p. p < branch_pages) }
        ensures used { IfSome result (λ p. IsBlankPage (limb_row self.now) p → ⊥) }
        ensures least { IfSome result (λ p. (q : ℕ) → from ≤ q → q < p → IsBlankPage (limb_row self.now) q) }
        ensures none { IsNone result → (q : ℕ) → from ≤ q → q < branch_pages → IsBlankPage (limb_row self.now) q }
    {
        match self {
            BranchRef::Uniform(permission) => { if *permission == 0 { None } else { Some(from) } },
            BranchRef::Shared(branch) => branch.next_used(from),
            BranchRef::Own(branch) => branch.next_used(from),
        }
    }

    /// Where pages that keep no bytes and have one permission end, from a page on. It may stop early, where a part ends.
    pub fn bare_end(&self, page: usize) -> usize
        requires { page < branch_pages }
        ensures rise { page ≤ result }
        ensures within { result ≤ branch_pages }
        ensures bare { IsBareStretch (limb_row self.now) page result }
        ensures kept { result ≡ page → limb_page self.now page ≡ None → ⊥ }
    {
        match self {
            BranchRef::Uniform(_) => BRANCH_PAGES,
            BranchRef::Shared(branch) => branch.bare_end(page),
            BranchRef::Own(branch) => branch.bare_end(page),
        }
    }
}

impl Tree {
    /// The least page from `from` to before `end` of which bytes are kept. It looks at no page beside.
    pub fn next_kept(&self, from: usize, end: usize) -> Option<usize>
        requires { end ≤ tree_pages }
        ensures from { IfSome result (λ p. from ≤ p) }
        ensures within { IfSome result (λ p. p < end) }
        ensures kept { IfSome result (λ p. tree_page self.now p ≡ None → ⊥) }
        ensures least { IfSome result (λ p. (q : ℕ) → from ≤ q → q < p → tree_page self.now q ≡ None) }
        ensures none { IsNone result → (q : ℕ) → from ≤ q → q < end → tree_page self.now q ≡ None }
    {
        for i in from / BRANCH_PAGES..end.div_ceil(BRANCH_PAGES) {
            let found = self.next_kept_in(i, from, end);
            if found.is_some() {
                return found;
            }
        }
        None
    }

    // The least page of a branch from `from` to before `end` of which bytes are kept.
    fn next_kept_in(&self, i: usize, from: usize, end: usize) -> Option<usize>
        requires branch { i < tree_branches }
        requires before { branch_pages * i < end }
        ensures from { IfSome result (λ p. from ≤ p) }
        ensures within { IfSome result (λ p. p / branch_pages ≡ i) }
        ensures below { IfSome result (λ p. p < end) }
        ensures kept { IfSome result (λ p. tree_page self.now p ≡ None → ⊥) }
        ensures least { IfSome result (λ p. (q : ℕ) → from ≤ q → q / branch_pages ≡ i → q < p → tree_page self.now q ≡ None) }
        ensures none { IsNone result → (q : ℕ) → from ≤ q → q < end → q / branch_pages ≡ i → tree_page self.now q ≡ None }
    {
        let first = i * BRANCH_PAGES;
        let to = (end - first).min(BRANCH_PAGES);
        match self.branches[i].next_kept(from.saturating_sub(first), to) {
            Some(page) => Some(first + page),
            None => None,
        }
    }

    /// The least page from `from` on that has a permission or a byte other than 0.
    pub fn next_used(&self, from: usize) -> Option<usize>
        requires { from < tree_pages }
        ensures from { IfSome result (λ p. from ≤ p) }
        ensures within { IfSome result (λ p. p < tree_pages) }
        ensures used { IfSome result (λ p. IsBlankPage (tree_row self.now) p → ⊥) }
        ensures least { IfSome result (λ p. (q : ℕ) → from ≤ q → q < p → IsBlankPage (tree_row self.now) q) }
        ensures none { IsNone result → (q : ℕ) → from ≤ q → q < tree_pages → IsBlankPage (tree_row self.now) q }
    {
        for i in from / BRANCH_PAGES..BRANCHES {
            let found = self.next_used_in(i, from);
            if found.is_some() {
                return found;
            }
        }
        None
    }

    // The least page of a branch from `from` on that has a permission or a byte other than 0.
    fn next_used_in(&self, i: usize, from: usize) -> Option<usize>
        requires within { i < tree_branches }
        requires before { from / branch_pages ≤ i }
        ensures from { IfSome result (λ p. from ≤ p) }
        ensures within { IfSome result (λ p. p / branch_pages ≡ i) }
        ensures used { IfSome result (λ p. IsBlankPage (tree_row self.now) p → ⊥) }
        ensures least { IfSome result (λ p. (q : ℕ) → from ≤ q → q / branch_pages ≡ i → q < p → IsBlankPage (tree_row self.now) q) }
        ensures none { IsNone result → (q : ℕ) → from ≤ q → q / branch_pages ≡ i → IsBlankPage (tree_row self.now) q }
    {
        let first = i * BRANCH_PAGES;
        match self.branches[i].next_used(from.saturating_sub(first)) {
            Some(page) => Some(first + page),
            None => None,
        }
    }

    /// Where pages that keep no bytes and have one permission end, from a page on. It may stop early, where a part ends.
    pub fn bare_end(&self, page: usize) -> usize
        requires { page < tree_pages }
        ensures rise { page ≤ result }
        ensures within { result ≤ tree_pages }
        ensures bare { IsBareStretch (tree_row self.now) page result }
        ensures kept { result ≡ page → tree_page self.now page ≡ None → ⊥ }
    {
        let first = page / BRANCH_PAGES * BRANCH_PAGES;
        first + self.branches[page / BRANCH_PAGES].bare_end(page % BRANCH_PAGES)
    }
}

impl TreeRef {
    /// The least page from `from` to before `end` of which bytes are kept. It looks at no page beside.
    pub fn next_kept(&self, from: usize, end: usize) -> Option<usize>
        requires { end ≤ tree_pages }
        ensures from { IfSome result (λ p. from ≤ p) }
        ensures within { IfSome result (λ p. p < end) }
        ensures kept { IfSome result (λ p. root_page self.now p ≡ None → ⊥) }
        ensures least { IfSome result (λ p. (q : ℕ) → from ≤ q → q < p → root_page self.now q ≡ None) }
        ensures none { IsNone result → (q : ℕ) → from ≤ q → q < end → root_page self.now q ≡ None }
    {
        match self {
            TreeRef::Uniform(_) => None,
            TreeRef::Shared(tree) => tree.next_kept(from, end),
            TreeRef::Own(tree) => tree.next_kept(from, end),
        }
    }

    /// The least page from `from` on that has a permission or a byte other than 0.
    pub fn next_used(&self, from: usize) -> Option<usize>
        requires { from < tree_pages }
        ensures from { IfSome result (λ p. from ≤ p) }
        ensures within { IfSome result (λ p. p < tree_pages) }
        ensures used { IfSome result (λ p. IsBlankPage (root_row self.now) p → ⊥) }
        ensures least { IfSome result (λ p. (q : ℕ) → from ≤ q → q < p → IsBlankPage (root_row self.now) q) }
        ensures none { IsNone result → (q : ℕ) → from ≤ q → q < tree_pages → IsBlankPage (root_row self.now) q }
    {
        match self {
            TreeRef::Uniform(permission) => { if *permission == 0 { None } else { Some(from) } },
            TreeRef::Shared(tree) => tree.next_used(from),
            TreeRef::Own(tree) => tree.next_used(from),
        }
    }

    /// Where pages that keep no bytes and have one permission end, from a page on. It may stop early, where a part ends.
    pub fn bare_end(&self, page: usize) -> usize
        requires { page < tree_pages }
        ensures rise { page ≤ result }
        ensures within { result ≤ tree_pages }
        ensures bare { IsBareStretch (root_row self.now) page result }
        ensures kept { result ≡ page → root_page self.now page ≡ None → ⊥ }
    {
        match self {
            TreeRef::Uniform(_) => TREE_PAGES,
            TreeRef::Shared(tree) => tree.bare_end(page),
            TreeRef::Own(tree) => tree.bare_end(page),
        }
    }
}
