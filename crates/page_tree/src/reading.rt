ghost use Rattle.std.specs.Prelude.{◌≡◌, ◌/◌, ◌%◌, ◌<◌, ◌==◌, if◌then◌else◌, Some, None, IfSome, IsNone};
ghost use Rattle.memory_model.specs.Memory.{number_from, width_bytes};
ghost use Rattle.memory_model.specs.Sizes.{page_size};
ghost use Rattle.memory_model.specs.declared.Width.TheVariants.{Four};
ghost use Rattle.page_tree.specs.Blocks.{block_pages, page_in, permission_in, byte_in};
ghost use Rattle.page_tree.specs.BlockRefs.{ref_permission, ref_page};
ghost use Rattle.page_tree.specs.Branches.{branch_pages, branch_permission, branch_page};
ghost use Rattle.page_tree.specs.BranchRefs.{limb_permission, limb_page};
ghost use Rattle.page_tree.specs.Trees.{tree_pages, tree_permission, tree_page};
ghost use Rattle.page_tree.specs.TreeRefs.{root_permission, root_page};

use crate::block::{BLOCK_PAGES, Block};
use crate::block_ref::BlockRef;
use crate::branch::{BRANCH_PAGES, Branch};
use crate::branch_ref::BranchRef;
use crate::tree::Tree;
use crate::tree_ref::TreeRef;
use memory_model::Width;
use page_store::{may_execute, may_read};

impl Block {
    /// The number of the bytes at an aligned place of a page. It is 0 where none are kept.
    #[inline(always)]
    pub fn number(&self, j: usize, at: u16, width: Width) -> u32
        requires page { j < block_pages }
        requires within { at < page_size }
        requires aligned { at % width_bytes width ≡ 0 }
        ensures { result ≡ number_from (byte_in (page_in self.now j)) width at }
    {
        match self.page(j) {
            Some(page) => page.number(at, width),
            None => 0,
        }
    }

    /// The number of the bytes at an aligned place of a page that may be read.
    #[inline(always)]
    pub fn load(&self, j: usize, at: u16, width: Width) -> Option<u32>
        requires page { j < block_pages }
        requires within { at < page_size }
        requires aligned { at % width_bytes width ≡ 0 }
        ensures { result ≡ (if permission_in self.now j % 2 == 1 then Some (number_from (byte_in (page_in self.now j)) width at) else None) }
    {
        if !may_read(self.permissions[j]) {
            return None;
        }
        Some(self.number(j, at, width))
    }

    /// The number of the bytes at an aligned place of a page that is kept and may be read.
    #[inline(always)]
    pub fn load_kept(&self, j: usize, at: u16, width: Width) -> Option<u32>
        requires page { j < block_pages }
        requires within { at < page_size }
        requires aligned { at % width_bytes width ≡ 0 }
        ensures { IfSome result (λ number. Some number ≡ (if permission_in self.now j % 2 == 1 then Some (number_from (byte_in (page_in self.now j)) width at) else None)) }
    {
        if !may_read(self.permissions[j]) {
            return None;
        }
        match self.page(j) {
            Some(page) => Some(page.number(at, width)),
            None => None,
        }
    }

    /// The word at an aligned place of a page that may be executed.
    #[inline(always)]
    pub fn fetch(&self, j: usize, at: u16) -> Option<u32>
        requires page { j < block_pages }
        requires within { at < page_size }
        requires aligned { at % 4 ≡ 0 }
        ensures { result ≡ (if permission_in self.now j / 4 % 2 == 1 then Some (number_from (byte_in (page_in self.now j)) Four at) else None) }
    {
        if !may_execute(self.permissions[j]) {
            return None;
        }
        Some(self.number(j, at, Width::Four))
    }
}

impl BlockRef {
    /// The block that keeps a page. There is none where no page beside it is kept either.
    #[inline(always)]
    pub fn block(&self, page: usize) -> Option<&Block>
        requires { page < block_pages }
        ensures permission { IfSome result (λ block. permission_in block.now (page % block_pages) ≡ ref_permission self.now page) }
        ensures page { IfSome result (λ block. page_in block.now (page % block_pages) ≡ ref_page self.now page) }
        ensures none { IsNone result → ref_page self.now page ≡ None }
    {
        match self {
            BlockRef::Uniform(_) => None,
            BlockRef::Bare(_) => None,
            BlockRef::Shared(block) => Some(block),
            BlockRef::Own(block) => Some(block),
        }
    }

    /// The number of the bytes at an aligned place of a page that may be read, where no part above it is shared. None says nothing.
    #[inline(always)]
    pub fn load_own(&self, page: usize, at: u16, width: Width) -> Option<u32>
        requires page { page < block_pages }
        requires within { at < page_size }
        requires aligned { at % width_bytes width ≡ 0 }
        ensures { IfSome result (λ number. Some number ≡ (if ref_permission self.now page % 2 == 1 then Some (number_from (byte_in (ref_page self.now page)) width at) else None)) }
    {
        match self {
            BlockRef::Own(block) => block.load_kept(page, at, width),
            _ => None,
        }
    }
}

impl Branch {
    /// The block that keeps a page. There is none where no page beside it is kept either.
    #[inline(always)]
    pub fn block(&self, page: usize) -> Option<&Block>
        requires { page < branch_pages }
        ensures permission { IfSome result (λ block. permission_in block.now (page % block_pages) ≡ branch_permission self.now page) }
        ensures page { IfSome result (λ block. page_in block.now (page % block_pages) ≡ branch_page self.now page) }
        ensures none { IsNone result → branch_page self.now page ≡ None }
    {
        match self.blocks.get(page / BLOCK_PAGES) {
            Some(block) => block.block(page % BLOCK_PAGES),
            None => None,
        }
    }

    /// The number of the bytes at an aligned place of a page that may be read, where no part above it is shared. None says nothing.
    #[inline(always)]
    pub fn load_own(&self, page: usize, at: u16, width: Width) -> Option<u32>
        requires page { page < branch_pages }
        requires within { at < page_size }
        requires aligned { at % width_bytes width ≡ 0 }
        ensures { IfSome result (λ number. Some number ≡ (if branch_permission self.now page % 2 == 1 then Some (number_from (byte_in (branch_page self.now page)) width at) else None)) }
    {
        self.blocks[page / BLOCK_PAGES].load_own(page % BLOCK_PAGES, at, width)
    }
}

impl BranchRef {
    /// The block that keeps a page. There is none where no page beside it is kept either.
    #[inline(always)]
    pub fn block(&self, page: usize) -> Option<&Block>
        requires { page < branch_pages }
        ensures permission { IfSome result (λ block. permission_in block.now (page % block_pages) ≡ limb_permission self.now page) }
        ensures page { IfSome result (λ block. page_in block.now (page % block_pages) ≡ limb_page self.now page) }
        ensures none { IsNone result → limb_page self.now page ≡ None }
    {
        match self {
            BranchRef::Uniform(_) => None,
            BranchRef::Shared(branch) => branch.block(page),
            BranchRef::Own(branch) => branch.block(page),
        }
    }

    /// The number of the bytes at an aligned place of a page that may be read, where no part above it is shared. None says nothing.
    #[inline(always)]
    pub fn load_own(&self, page: usize, at: u16, width: Width) -> Option<u32>
        requires page { page < branch_pages }
        requires within { at < page_size }
        requires aligned { at % width_bytes width ≡ 0 }
        ensures { IfSome result (λ number. Some number ≡ (if limb_permission self.now page % 2 == 1 then Some (number_from (byte_in (limb_page self.now page)) width at) else None)) }
    {
        match self {
            BranchRef::Own(branch) => branch.load_own(page, at, width),
            _ => None,
        }
    }
}

impl Tree {
    /// The block that keeps a page. There is none where no page beside it is kept either.
    #[inline(always)]
    pub fn block(&self, page: usize) -> Option<&Block>
        requires { page < tree_pages }
        ensures permission { IfSome result (λ block. permission_in block.now (page % block_pages) ≡ tree_permission self.now page) }
        ensures page { IfSome result (λ block. page_in block.now (page % block_pages) ≡ tree_page self.now page) }
        ensures none { IsNone result → tree_page self.now page ≡ None }
    {
        match self.branches.get(page / BRANCH_PAGES) {
            Some(branch) => branch.block(page % BRANCH_PAGES),
            None => None,
        }
    }

    /// The number of the bytes at an aligned place of a page that may be read, where no part above it is shared. None says nothing.
    #[inline(always)]
    pub fn load_own(&self, page: usize, at: u16, width: Width) -> Option<u32>
        requires page { page < tree_pages }
        requires within { at < page_size }
        requires aligned { at % width_bytes width ≡ 0 }
        ensures { IfSome result (λ number. Some number ≡ (if tree_permission self.now page % 2 == 1 then Some (number_from (byte_in (tree_page self.now page)) width at) else None)) }
    {
        self.branches[page / BRANCH_PAGES].load_own(page % BRANCH_PAGES, at, width)
    }
}

impl TreeRef {
    /// The block that keeps a page. There is none where no page beside it is kept either.
    #[inline(always)]
    pub fn block(&self, page: usize) -> Option<&Block>
        requires { page < tree_pages }
        ensures permission { IfSome result (λ block. permission_in block.now (page % block_pages) ≡ root_permission self.now page) }
        ensures page { IfSome result (λ block. page_in block.now (page % block_pages) ≡ root_page self.now page) }
        ensures none { IsNone result → root_page self.now page ≡ None }
    {
        match self {
            TreeRef::Uniform(_) => None,
            TreeRef::Shared(tree) => tree.block(page),
            TreeRef::Own(tree) => tree.block(page),
        }
    }

    /// The number of the bytes at an aligned place of a page that may be read, where no part above it is shared. None says nothing.
    #[inline(always)]
    pub fn load_own(&self, page: usize, at: u16, width: Width) -> Option<u32>
        requires page { page < tree_pages }
        requires within { at < page_size }
        requires aligned { at % width_bytes width ≡ 0 }
        ensures { IfSome result (λ number. Some number ≡ (if root_permission self.now page % 2 == 1 then Some (number_from (byte_in (root_page self.now page)) width at) else None)) }
    {
        match self {
            TreeRef::Own(tree) => tree.load_own(page, at, width),
            _ => None,
        }
    }

    /// The number of the bytes at an aligned place of a page that may be read. Where no part above the page is shared, one test for each
    /// part finds it; whatever else it may be is left to a call.
    #[inline(always)]
    pub fn load(&self, page: usize, at: u16, width: Width) -> Option<u32>
        requires page { page < tree_pages }
        requires within { at < page_size }
        requires aligned { at % width_bytes width ≡ 0 }
        ensures { result ≡ (if root_permission self.now page % 2 == 1 then Some (number_from (byte_in (root_page self.now page)) width at) else None) }
    {
        match self.load_own(page, at, width) {
            Some(number) => Some(number),
            None => self.load_any(page, at, width),
        }
    }

    // The number of the bytes at an aligned place of a page that may be read, whatever is above it.
    #[inline(never)]
    fn load_any(&self, page: usize, at: u16, width: Width) -> Option<u32>
        requires page { page < tree_pages }
        requires within { at < page_size }
        requires aligned { at % width_bytes width ≡ 0 }
        ensures { result ≡ (if root_permission self.now page % 2 == 1 then Some (number_from (byte_in (root_page self.now page)) width at) else None) }
    {
        match self.block(page) {
            Some(block) => block.load(page % BLOCK_PAGES, at, width),
            None => self.load_zero(page),
        }
    }

    // A zero, where a page of which no bytes are kept may be read.
    #[inline(never)]
    fn load_zero(&self, page: usize) -> Option<u32>
        requires page { page < tree_pages }
        ensures { result ≡ (if root_permission self.now page % 2 == 1 then Some 0 else None) }
    {
        if !may_read(self.permission(page)) {
            return None;
        }
        Some(0)
    }

    /// The word at an aligned place of a page that may be executed.
    #[inline(always)]
    pub fn fetch(&self, page: usize, at: u16) -> Option<u32>
        requires page { page < tree_pages }
        requires within { at < page_size }
        requires aligned { at % 4 ≡ 0 }
        ensures { result ≡ (if root_permission self.now page / 4 % 2 == 1 then Some (number_from (byte_in (root_page self.now page)) Four at) else None) }
    {
        match self.block(page) {
            Some(block) => block.fetch(page % BLOCK_PAGES, at),
            None => self.fetch_zero(page),
        }
    }

    // A zero, where a page of which no bytes are kept may be executed.
    #[inline(never)]
    fn fetch_zero(&self, page: usize) -> Option<u32>
        requires page { page < tree_pages }
        ensures { result ≡ (if root_permission self.now page / 4 % 2 == 1 then Some 0 else None) }
    {
        if !may_execute(self.permission(page)) {
            return None;
        }
        Some(0)
    }

    /// The number of the bytes at an aligned place of a page, whatever its permission.
    #[inline(always)]
    pub fn number(&self, page: usize, at: u16, width: Width) -> u32
        requires page { page < tree_pages }
        requires within { at < page_size }
        requires aligned { at % width_bytes width ≡ 0 }
        ensures { result ≡ number_from (byte_in (root_page self.now page)) width at }
    {
        match self.block(page) {
            Some(block) => block.number(page % BLOCK_PAGES, at, width),
            None => 0,
        }
    }
}
