ghost use Rattle.std.specs.Prelude.{◌≡◌, ℕ, ◌<◌, IsTrue, IsFalse, Some, slice_index};
ghost use Rattle.page_store.specs.Bytes.{bytes_of};
ghost use Rattle.page_tree.specs.Rows.{SameRow};
ghost use Rattle.page_tree.specs.Uniforms.{uniform_row};
ghost use Rattle.page_tree.specs.Blocks.{block_pages, page_in, byte_in};
ghost use Rattle.page_tree.specs.BareRows.{bare_row};
ghost use Rattle.page_tree.specs.BlockRows.{block_row};
ghost use Rattle.page_tree.specs.BlockRefs.{ref_row};
ghost use Rattle.page_tree.specs.Branches.{branch_pages, branch_blocks, block_at, branch_row};
ghost use Rattle.page_tree.specs.BranchRefs.{limb_row};
ghost use Rattle.page_tree.specs.Trees.{tree_pages, tree_branches, branch_at, tree_row};
ghost use Rattle.page_tree.specs.TreeRefs.{root_row};

use crate::bare_block::BareBlock;
use crate::block::{BLOCK_PAGES, Block};
use crate::block_ref::BlockRef;
use crate::branch::{BLOCKS, Branch};
use crate::branch_ref::BranchRef;
use crate::tree::{BRANCHES, Tree};
use crate::tree_ref::TreeRef;
use page_store::PageRef;

// Whether two pages that are kept have the same bytes.
fn same_page(page: &PageRef, other: &PageRef) -> bool
    ensures same { IsTrue result → bytes_of other.now ≡ bytes_of page.now }
    ensures differs { IsFalse result → ((k : ℕ) → byte_in (Some other.now) k ≡ byte_in (Some page.now) k) → ⊥ }
{
    let _bytes = page.bytes();
    let _others = other.bytes();
    page.has_bytes_of(other)
}

// Whether two blocks' permissions are the same.
fn same_permissions(own: &[u8; BLOCK_PAGES], others: &[u8; BLOCK_PAGES]) -> bool
    ensures same { IsTrue result → others.now ≡ own.now }
    ensures differs { IsFalse result → ((j : ℕ) → j < block_pages → slice_index others.now j ≡ slice_index own.now j) → ⊥ }
{
    own == others
}

impl BareBlock {
    /// Whether two blocks have the same permissions.
    pub fn same(&self, other: &BareBlock) -> bool
        ensures same { IsTrue result → SameRow block_pages (bare_row self.now) (bare_row other.now) }
        ensures differs { IsFalse result → SameRow block_pages (bare_row self.now) (bare_row other.now) → ⊥ }
    {
        same_permissions(&self.permissions, &other.permissions)
    }

    /// Whether each page has the permission.
    pub fn is_all(&self, permission: u8) -> bool
        ensures same { IsTrue result → SameRow block_pages (uniform_row permission) (bare_row self.now) }
        ensures differs { IsFalse result → SameRow block_pages (uniform_row permission) (bare_row self.now) → ⊥ }
    {
        for j in 0..BLOCK_PAGES {
            if self.permissions[j] != permission {
                return false;
            }
        }
        true
    }
}

impl Block {
    /// Whether two blocks have the same permissions and bytes. It looks at no page where neither keeps any.
    pub fn same(&self, other: &Block) -> bool
        ensures same { IsTrue result → SameRow block_pages (block_row self.now) (block_row other.now) }
        ensures differs { IsFalse result → SameRow block_pages (block_row self.now) (block_row other.now) → ⊥ }
    {
        if !same_permissions(&self.permissions, &other.permissions) {
            return false;
        }
        if self.pages.is_empty() && other.pages.is_empty() {
            return true;
        }
        for j in 0..BLOCK_PAGES {
            if !self.same_at(other, j) {
                return false;
            }
        }
        true
    }

    // Whether a page has the same bytes in two blocks.
    fn same_at(&self, other: &Block, j: usize) -> bool
        ensures same { IsTrue result → (k : ℕ) → byte_in (page_in other.now j) k ≡ byte_in (page_in self.now j) k }
        ensures differs { IsFalse result → ((k : ℕ) → byte_in (page_in other.now j) k ≡ byte_in (page_in self.now j) k) → ⊥ }
    {
        let Some(page) = self.page(j) else {
            return other.is_zero_at(j);
        };
        match other.page(j) {
            Some(kept) => same_page(page, kept),
            None => page.is_zero(),
        }
    }

    // Whether a page has no byte other than 0.
    fn is_zero_at(&self, j: usize) -> bool
        ensures zero { IsTrue result → (k : ℕ) → byte_in (page_in self.now j) k ≡ 0 }
        ensures other { IsFalse result → ((k : ℕ) → byte_in (page_in self.now j) k ≡ 0) → ⊥ }
    {
        match self.page(j) {
            Some(page) => page.is_zero(),
            None => true,
        }
    }

    /// Whether each page has the permission, and no byte other than 0.
    pub fn is_all(&self, permission: u8) -> bool
        ensures same { IsTrue result → SameRow block_pages (uniform_row permission) (block_row self.now) }
        ensures differs { IsFalse result → SameRow block_pages (uniform_row permission) (block_row self.now) → ⊥ }
    {
        for j in 0..BLOCK_PAGES {
            if self.permissions[j] != permission || !self.is_zero_at(j) {
                return false;
            }
        }
        true
    }

    /// Whether each page has its permission in a bare block, and no byte other than 0. It looks at no page where none is kept.
    pub fn is_like_bare(&self, bare: &BareBlock) -> bool
        ensures same { IsTrue result → SameRow block_pages (bare_row bare.now) (block_row self.now) }
        ensures differs { IsFalse result → SameRow block_pages (bare_row bare.now) (block_row self.now) → ⊥ }
    {
        if !same_permissions(&bare.permissions, &self.permissions) {
            return false;
        }
        if self.pages.is_empty() {
            return true;
        }
        for j in 0..BLOCK_PAGES {
            if !self.is_zero_at(j) {
                return false;
            }
        }
        true
    }
}

impl BlockRef {
    /// Whether two blocks have the same permissions and bytes.
    pub fn same(&self, other: &BlockRef) -> bool
        ensures same { IsTrue result → SameRow block_pages (ref_row self.now) (ref_row other.now) }
        ensures differs { IsFalse result → SameRow block_pages (ref_row self.now) (ref_row other.now) → ⊥ }
    {
        match self {
            BlockRef::Uniform(permission) => other.is_all(*permission),
            BlockRef::Bare(bare) => other.same_as_bare(bare),
            BlockRef::Shared(block) => other.same_as_block(block),
            BlockRef::Own(block) => other.same_as_block(block),
        }
    }

    // Whether it has the permissions of a bare block, and no byte other than 0.
    fn same_as_bare(&self, bare: &BareBlock) -> bool
        ensures same { IsTrue result → SameRow block_pages (bare_row bare.now) (ref_row self.now) }
        ensures differs { IsFalse result → SameRow block_pages (bare_row bare.now) (ref_row self.now) → ⊥ }
    {
        match self {
            BlockRef::Uniform(permission) => bare.is_all(*permission),
            BlockRef::Bare(kept) => bare.same(kept),
            BlockRef::Shared(block) => block.is_like_bare(bare),
            BlockRef::Own(block) => block.is_like_bare(bare),
        }
    }

    // Whether it has the permissions and bytes of a block.
    fn same_as_block(&self, block: &Block) -> bool
        ensures same { IsTrue result → SameRow block_pages (block_row block.now) (ref_row self.now) }
        ensures differs { IsFalse result → SameRow block_pages (block_row block.now) (ref_row self.now) → ⊥ }
    {
        match self {
            BlockRef::Uniform(permission) => block.is_all(*permission),
            BlockRef::Bare(bare) => block.is_like_bare(bare),
            BlockRef::Shared(kept) => block.same(kept),
            BlockRef::Own(kept) => block.same(kept),
        }
    }

    /// Whether each page has the permission, and no byte other than 0.
    pub fn is_all(&self, permission: u8) -> bool
        ensures same { IsTrue result → SameRow block_pages (uniform_row permission) (ref_row self.now) }
        ensures differs { IsFalse result → SameRow block_pages (uniform_row permission) (ref_row self.now) → ⊥ }
    {
        match self {
            BlockRef::Uniform(of_all) => *of_all == permission,
            BlockRef::Bare(bare) => bare.is_all(permission),
            BlockRef::Shared(block) => block.is_all(permission),
            BlockRef::Own(block) => block.is_all(permission),
        }
    }
}

impl Branch {
    /// Whether two branches have the same permissions and bytes.
    pub fn same(&self, other: &Branch) -> bool
        ensures same { IsTrue result → SameRow branch_pages (branch_row self.now) (branch_row other.now) }
        ensures differs { IsFalse result → SameRow branch_pages (branch_row self.now) (branch_row other.now) → ⊥ }
    {
        for i in 0..BLOCKS {
            if !self.same_block(other, i) {
                return false;
            }
        }
        true
    }

    // Whether a block is the same in two branches.
    #[inline(always)]
    fn same_block(&self, other: &Branch, i: usize) -> bool
        requires { i < branch_blocks }
        ensures same { IsTrue result → SameRow block_pages (ref_row (block_at self.now i)) (ref_row (block_at other.now i)) }
        ensures differs { IsFalse result → SameRow block_pages (ref_row (block_at self.now i)) (ref_row (block_at other.now i)) → ⊥ }
    {
        self.blocks[i].same(&other.blocks[i])
    }

    /// Whether each page has the permission, and no byte other than 0.
    pub fn is_all(&self, permission: u8) -> bool
        ensures same { IsTrue result → SameRow branch_pages (uniform_row permission) (branch_row self.now) }
        ensures differs { IsFalse result → SameRow branch_pages (uniform_row permission) (branch_row self.now) → ⊥ }
    {
        for i in 0..BLOCKS {
            if !self.is_all_block(i, permission) {
                return false;
            }
        }
        true
    }

    // Whether each page of a block has the permission, and no byte other than 0.
    #[inline(always)]
    fn is_all_block(&self, i: usize, permission: u8) -> bool
        requires { i < branch_blocks }
        ensures same { IsTrue result → SameRow block_pages (uniform_row permission) (ref_row (block_at self.now i)) }
        ensures differs { IsFalse result → SameRow block_pages (uniform_row permission) (ref_row (block_at self.now i)) → ⊥ }
    {
        self.blocks[i].is_all(permission)
    }
}

impl BranchRef {
    /// Whether two branches have the same permissions and bytes.
    pub fn same(&self, other: &BranchRef) -> bool
        ensures same { IsTrue result → SameRow branch_pages (limb_row self.now) (limb_row other.now) }
        ensures differs { IsFalse result → SameRow branch_pages (limb_row self.now) (limb_row other.now) → ⊥ }
    {
        match self {
            BranchRef::Uniform(permission) => other.is_all(*permission),
            BranchRef::Shared(branch) => other.same_as_branch(branch),
            BranchRef::Own(branch) => other.same_as_branch(branch),
        }
    }

    // Whether it has the permissions and bytes of a branch.
    fn same_as_branch(&self, branch: &Branch) -> bool
        ensures same { IsTrue result → SameRow branch_pages (branch_row branch.now) (limb_row self.now) }
        ensures differs { IsFalse result → SameRow branch_pages (branch_row branch.now) (limb_row self.now) → ⊥ }
    {
        match self {
            BranchRef::Uniform(permission) => branch.is_all(*permission),
            BranchRef::Shared(kept) => branch.same(kept),
            BranchRef::Own(kept) => branch.same(kept),
        }
    }

    /// Whether each page has the permission, and no byte other than 0.
    pub fn is_all(&self, permission: u8) -> bool
        ensures same { IsTrue result → SameRow branch_pages (uniform_row permission) (limb_row self.now) }
        ensures differs { IsFalse result → SameRow branch_pages (uniform_row permission) (limb_row self.now) → ⊥ }
    {
        match self {
            BranchRef::Uniform(of_all) => *of_all == permission,
            BranchRef::Shared(branch) => branch.is_all(permission),
            BranchRef::Own(branch) => branch.is_all(permission),
        }
    }
}

impl Tree {
    /// Whether two trees have the same permissions and bytes.
    pub fn same(&self, other: &Tree) -> bool
        ensures same { IsTrue result → SameRow tree_pages (tree_row self.now) (tree_row other.now) }
        ensures differs { IsFalse result → SameRow tree_pages (tree_row self.now) (tree_row other.now) → ⊥ }
    {
        for i in 0..BRANCHES {
            if !self.same_branch(other, i) {
                return false;
            }
        }
        true
    }

    // Whether a branch is the same in two trees.
    #[inline(always)]
    fn same_branch(&self, other: &Tree, i: usize) -> bool
        requires { i < tree_branches }
        ensures same { IsTrue result → SameRow branch_pages (limb_row (branch_at self.now i)) (limb_row (branch_at other.now i)) }
        ensures differs { IsFalse result → SameRow branch_pages (limb_row (branch_at self.now i)) (limb_row (branch_at other.now i)) → ⊥ }
    {
        self.branches[i].same(&other.branches[i])
    }

    /// Whether each page has the permission, and no byte other than 0.
    pub fn is_all(&self, permission: u8) -> bool
        ensures same { IsTrue result → SameRow tree_pages (uniform_row permission) (tree_row self.now) }
        ensures differs { IsFalse result → SameRow tree_pages (uniform_row permission) (tree_row self.now) → ⊥ }
    {
        for i in 0..BRANCHES {
            if !self.is_all_branch(i, permission) {
                return false;
            }
        }
        true
    }

    // Whether each page of a branch has the permission, and no byte other than 0.
    #[inline(always)]
    fn is_all_branch(&self, i: usize, permission: u8) -> bool
        requires { i < tree_branches }
        ensures same { IsTrue result → SameRow branch_pages (uniform_row permission) (limb_row (branch_at self.now i)) }
        ensures differs { IsFalse result → SameRow branch_pages (uniform_row permission) (limb_row (branch_at self.now i)) → ⊥ }
    {
        self.branches[i].is_all(permission)
    }
}

impl TreeRef {
    /// Whether two trees have the same permissions and bytes. It takes no memory, and a part that is wholly of one permission is one step.
    pub fn same(&self, other: &TreeRef) -> bool
        ensures same { IsTrue result → SameRow tree_pages (root_row self.now) (root_row other.now) }
        ensures differs { IsFalse result → SameRow tree_pages (root_row self.now) (root_row other.now) → ⊥ }
    {
        match self {
            TreeRef::Uniform(permission) => other.is_all(*permission),
            TreeRef::Shared(tree) => other.same_as_tree(tree),
            TreeRef::Own(tree) => other.same_as_tree(tree),
        }
    }

    // Whether it has the permissions and bytes of a tree.
    fn same_as_tree(&self, tree: &Tree) -> bool
        ensures same { IsTrue result → SameRow tree_pages (tree_row tree.now) (root_row self.now) }
        ensures differs { IsFalse result → SameRow tree_pages (tree_row tree.now) (root_row self.now) → ⊥ }
    {
        match self {
            TreeRef::Uniform(permission) => tree.is_all(*permission),
            TreeRef::Shared(kept) => tree.same(kept),
            TreeRef::Own(kept) => tree.same(kept),
        }
    }

    /// Whether each page has the permission, and no byte other than 0.
    pub fn is_all(&self, permission: u8) -> bool
        ensures same { IsTrue result → SameRow tree_pages (uniform_row permission) (root_row self.now) }
        ensures differs { IsFalse result → SameRow tree_pages (uniform_row permission) (root_row self.now) → ⊥ }
    {
        match self {
            TreeRef::Uniform(of_all) => *of_all == permission,
            TreeRef::Shared(tree) => tree.is_all(permission),
            TreeRef::Own(tree) => tree.is_all(permission),
        }
    }
}
