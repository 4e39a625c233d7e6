ghost use Rattle.std.specs.Prelude.{◌≡◌, ℕ, ◌+◌, ◌%◌, ◌<◌, ◌≤◌, cond, IfOk, IsOk, OnOk, OnErr, IfSome, IsNone, None, false, true};
ghost use Rattle.std.specs.Arc.{arc_value};
ghost use Rattle.page_tree.specs.BareBlocks.{bare_permission};
ghost use Rattle.page_tree.specs.Blocks.{block_pages, page_in, permission_in, byte_in, is_own_in, SameBytes, NoneOwn, AreWhole, IsShare};
ghost use Rattle.page_tree.specs.BlockRefs.{ref_permission, ref_page, ref_own, IsOwnBlock, IsLoose, AreWholeIn, SameRef, SameOwn, NoneOwnIn, IsOwnedToo, IsBlankAt};

use crate::bare_block::BareBlock;
use crate::block::{BLOCK_PAGES, Block};
use page_store::PageRef;
use std::alloc::{AllocError, Global};
use std::mem;
use std::sync::Arc;

/// What is kept of 64 pages.
#[derive(Drop)]
pub enum BlockRef {
    /// Pages of this permission whose bytes are 0.
    Uniform(u8),
    /// Pages of these permissions whose bytes are 0.
    Bare(Box<BareBlock, Global>),
    /// A block that others may hold too. No write changes it.
    Shared(Arc<Block, Global>),
    /// A block of its holder's own.
    Own(Box<Block, Global>),
}

impl BlockRef {
    /// The permission of a page.
    #[inline(always)]
    pub fn permission(&self, j: usize) -> u8
        requires { j < block_pages }
        ensures { result ≡ ref_permission self.now j }
    {
        match self {
            BlockRef::Uniform(permission) => *permission,
            BlockRef::Bare(block) => block.permissions[j],
            BlockRef::Shared(block) => block.permissions[j],
            BlockRef::Own(block) => block.permissions[j],
        }
    }

    /// What is kept of a page.
    #[inline(always)]
    pub fn page(&self, j: usize) -> Option<&PageRef>
        ensures some { IfSome result (λ page. ref_page self.now j ≡ Some page.now) }
        ensures none { IsNone result → ref_page self.now j ≡ None }
    {
        match self {
            BlockRef::Uniform(_) => None,
            BlockRef::Bare(_) => None,
            BlockRef::Shared(block) => block.page(j),
            BlockRef::Own(block) => block.page(j),
        }
    }

    /// Makes it a block of its holder's own.
    pub fn own(&mut self, alloc: Global) -> Result<(), AllocError>
        ensures same { SameRef self.old self.new }
        ensures owned { OnOk result (SameOwn self.old self.new) }
        ensures own { OnOk result (IsOwnBlock self.new) }
        ensures whole { AreWholeIn self.old → AreWholeIn self.new }
        ensures err { OnErr result (self.new ≡ self.old) }
        ensures idle { IsOwnBlock self.old → IsOk result }
    {
        match self {
            BlockRef::Uniform(permission) => {
                let block = box_uniform(*permission, alloc)?;
                *self = BlockRef::Own(block);
                Ok(())
            }
            BlockRef::Bare(block) => {
                let block = box_bare(block, alloc)?;
                *self = BlockRef::Own(block);
                Ok(())
            }
            BlockRef::Shared(block) => {
                let block = copy_of(block, alloc)?;
                *self = BlockRef::Own(block);
                Ok(())
            }
            BlockRef::Own(_) => Ok(()),
        }
    }

    /// Makes it one whose permissions can be changed one by one: where nothing is kept they are all that it has.
    pub fn loosen(&mut self, alloc: Global) -> Result<(), AllocError>
        ensures same { SameRef self.old self.new }
        ensures owned { OnOk result (SameOwn self.old self.new) }
        ensures loose { OnOk result (IsLoose self.new) }
        ensures stays { IsOwnBlock self.old → IsOwnBlock self.new }
        ensures whole { AreWholeIn self.old → AreWholeIn self.new }
        ensures err { OnErr result (self.new ≡ self.old) }
    {
        match self {
            BlockRef::Uniform(permission) => {
                let block = bare_uniform(*permission, alloc)?;
                *self = BlockRef::Bare(block);
                Ok(())
            }
            BlockRef::Shared(block) => {
                let block = copy_of(block, alloc)?;
                *self = BlockRef::Own(block);
                Ok(())
            }
            BlockRef::Bare(_) => Ok(()),
            BlockRef::Own(_) => Ok(()),
        }
    }

    /// The same pages: of a shared block another holder, of an own one a copy that shares its shared pages.
    pub fn share(&self, alloc: Global) -> Result<BlockRef, AllocError>
        ensures same { IfOk result (λ copy. SameRef self.now copy) }
        ensures own { IfOk result (λ copy. SameOwn self.now copy) }
        ensures whole { AreWholeIn self.now → IfOk result (λ copy. AreWholeIn copy) }
    {
        match self {
            BlockRef::Uniform(permission) => Ok(BlockRef::Uniform(*permission)),
            BlockRef::Bare(block) => {
                let copy = block.copy(alloc)?;
                Ok(BlockRef::Bare(copy))
            }
            BlockRef::Shared(block) => Ok(BlockRef::Shared(Arc::try_clone(block)?)),
            BlockRef::Own(block) => {
                let copy = box_share(block, alloc)?;
                Ok(BlockRef::Own(copy))
            }
        }
    }

    /// Makes it one that can be shared, with all its pages. No page becomes an own one. At an error, want of memory, some
    /// pages may be shared and others owned.
    pub fn freeze(&mut self, alloc: Global) -> Result<(), AllocError>
        ensures same { SameRef self.old self.new }
        ensures none { OnOk result (NoneOwnIn self.new) }
        ensures less { (j : ℕ) → j < block_pages → ref_own self.new j ≡ true → ref_own self.old j ≡ true }
        ensures whole { AreWholeIn self.old → AreWholeIn self.new }
    {
        if let BlockRef::Own(block) = self {
            let frozen = frozen(block, alloc)?;
            *self = frozen;
        }
        Ok(())
    }

    /// Owns a page too.
    pub fn own_page(&mut self, j: usize, alloc: Global) -> Result<(), AllocError>
        requires { j < block_pages }
        ensures same { SameRef self.old self.new }
        ensures owned { OnOk result (IsOwnedToo j self.old self.new) }
        ensures whole { AreWholeIn self.old → AreWholeIn self.new }
        ensures err { OnErr result (SameOwn self.old self.new) }
        ensures idle { ref_own self.old j ≡ true → IsOk result }
    {
        self.own(alloc)?;
        match self {
            BlockRef::Own(block) => block.own_page(j, alloc),
            _ => Ok(()),
        }
    }

    /// The least page from `from` on that has a permission or a byte other than 0.
    pub fn next_used(&self, from: usize) -> Option<usize>
        requires { from < block_pages }
        ensures from { IfSome result (λ j. from ≤ j) }
        ensures within { IfSome result (λ j. j < block_pages) }
        ensures used { IfSome result (λ j. IsBlankAt self.now j → ⊥) }
        ensures least { IfSome result (λ j. (i : ℕ) → from ≤ i → i < j → IsBlankAt self.now i) }
        ensures none { IsNone result → (i : ℕ) → from ≤ i → i < block_pages → IsBlankAt self.now i }
    {
        match self {
            BlockRef::Uniform(permission) => { if *permission == 0 { None } else { Some(from) } }
            BlockRef::Bare(block) => block.next_used(from),
            BlockRef::Shared(block) => block.next_used(from),
            BlockRef::Own(block) => block.next_used(from),
        }
    }
}

// A block's pages as ones that can be shared: their permissions alone where none is kept. At an error, want of memory, some pages may be
// shared and others owned.
fn frozen(block: &mut Block, alloc: Global) -> Result<BlockRef, AllocError>
    ensures permission { IfOk result (λ frozen. (j : ℕ) → j < block_pages → ref_permission frozen j ≡ permission_in block.old j) }
    ensures byte { IfOk result (λ frozen. (j k : ℕ) → j < block_pages → byte_in (ref_page frozen j) k ≡ byte_in (page_in block.old j) k) }
    ensures none { IfOk result (λ frozen. NoneOwnIn frozen) }
    ensures whole { IfOk result (λ frozen. AreWhole block.old → AreWholeIn frozen) }
    ensures same { OnErr result (SameBytes block.old block.new) }
    ensures less { OnErr result ((j : ℕ) → j < block_pages → is_own_in (page_in block.new j) ≡ true → is_own_in (page_in block.old j) ≡ true) }
    ensures still { OnErr result (AreWhole block.old → AreWhole block.new) }
{
    if block.pages.is_empty() {
        let bare = bare_of(block, alloc)?;
        return Ok(BlockRef::Bare(bare));
    }
    block.freeze(alloc)?;
    let shared = arc_of(block, alloc)?;
    Ok(BlockRef::Shared(shared))
}

// A block of pages that are not kept, each with the permission. Like the functions below it is not inlined, so that a loop over many
// blocks does not clear its place on the stack at each turn.
#[inline(never)]
fn box_uniform(permission: u8, alloc: Global) -> Result<Box<Block, Global>, AllocError>
    ensures pages { IfOk result (λ block. (j : ℕ) → page_in block.value j ≡ None) }
    ensures permissions { IfOk result (λ block. (j : ℕ) → j < block_pages → permission_in block.value j ≡ permission) }
{
    let block = Box::new(alloc, Block::uniform(permission))?;
    Ok(block)
}

// The permissions of pages that each have the permission.
#[inline(never)]
fn bare_uniform(permission: u8, alloc: Global) -> Result<Box<BareBlock, Global>, AllocError>
    ensures { IfOk result (λ block. (j : ℕ) → j < block_pages → bare_permission block.value j ≡ permission) }
{
    let block = Box::new(alloc, BareBlock::uniform(permission))?;
    Ok(block)
}

// The permissions of a block alone.
#[inline(never)]
fn bare_of(block: &Block, alloc: Global) -> Result<Box<BareBlock, Global>, AllocError>
    ensures { IfOk result (λ bare. bare.value.permissions ≡ block.now.permissions) }
{
    let bare = BareBlock {
        permissions: block.permissions,
    };
    let bare = Box::new(alloc, bare)?;
    Ok(bare)
}

// A block of pages that are not kept, with the permissions of a bare one.
#[inline(never)]
fn box_bare(bare: &BareBlock, alloc: Global) -> Result<Box<Block, Global>, AllocError>
    ensures pages { IfOk result (λ block. (j : ℕ) → page_in block.value j ≡ None) }
    ensures permissions { IfOk result (λ block. block.value.permissions ≡ bare.now.permissions) }
{
    let block = Box::new(alloc, Block::bare(bare.permissions))?;
    Ok(block)
}

// A block of the same pages: of shared ones another holder, of own ones copies.
#[inline(never)]
fn box_share(block: &Block, alloc: Global) -> Result<Box<Block, Global>, AllocError>
    ensures { IfOk result (λ copy. IsShare block.now copy.value) }
{
    let copy = Box::new(alloc, block.share(alloc)?)?;
    Ok(copy)
}

// Moves a block to where it can be shared, and leaves one of blank pages. At the one error, want of memory, it stays.
#[inline(never)]
fn arc_of(block: &mut Block, alloc: Global) -> Result<Arc<Block, Global>, AllocError>
    ensures ok { IfOk result (λ arc. arc_value arc ≡ block.old) }
    ensures err { OnErr result (block.new ≡ block.old) }
{
    let moved = mem::replace(block, Block::uniform(0));
    match Arc::new(alloc, moved) {
        Ok(arc) => Ok(arc),
        Err(failed) => {
            *block = failed.value;
            Err(AllocError)
        }
    }
}

// A block of the same pages, none of which is an own one.
#[inline(never)]
fn copy_of(block: &Block, alloc: Global) -> Result<Box<Block, Global>, AllocError>
    ensures same { IfOk result (λ copy. SameBytes block.now copy.value) }
    ensures none { IfOk result (λ copy. NoneOwn copy.value) }
    ensures whole { IfOk result (λ copy. AreWhole copy.value) }
{
    let mut copy = block.share(alloc)?;
    copy.freeze(alloc)?;
    let copy = Box::new(alloc, copy)?;
    Ok(copy)
}
