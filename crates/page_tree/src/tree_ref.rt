ghost use Rattle.std.specs.Prelude.{◌≡◌, ℕ, ◌+◌, ◌%◌, ◌<◌, ◌≤◌, cond, IfOk, IsOk, OnOk, OnErr, IfSome, IsNone, false, true};
ghost use Rattle.std.specs.Arc.{arc_value};
ghost use Rattle.page_tree.specs.Trees.{tree_pages, SameTree, SameOwnTree, NoneOwnTree, AreWholeTree, IsUniformTree};
ghost use Rattle.page_tree.specs.TreeRefs.{root_permission, root_page, root_own, IsOwnTree, AreWholeRoot, SameRoot, SameOwnRoot, NoneOwnRoot, IsOwnedRoot};

use crate::tree::Tree;
use page_store::PageRef;
use std::alloc::{AllocError, Global};
use std::mem;
use std::sync::Arc;

/// What is kept of 1,048,576 pages.
#[derive(Drop)]
pub enum TreeRef {
    /// Pages of this permission whose bytes are 0.
    Uniform(u8),
    /// A tree that others may hold too. No write changes it.
    Shared(Arc<Tree, Global>),
    /// A tree of its holder's own.
    Own(Box<Tree, Global>),
}

impl TreeRef {
    /// The permission of a page.
    #[inline(always)]
    pub fn permission(&self, j: usize) -> u8
        requires { j < tree_pages }
        ensures { result ≡ root_permission self.now j }
    {
        match self {
            TreeRef::Uniform(permission) => *permission,
            TreeRef::Shared(tree) => tree.permission(j),
            TreeRef::Own(tree) => tree.permission(j),
        }
    }

    /// What is kept of a page.
    #[inline(always)]
    pub fn page(&self, j: usize) -> Option<&PageRef>
        requires { j < tree_pages }
        ensures some { IfSome result (λ page. root_page self.now j ≡ Some page.now) }
        ensures none { IsNone result → root_page self.now j ≡ None }
    {
        match self {
            TreeRef::Uniform(_) => None,
            TreeRef::Shared(tree) => tree.page(j),
            TreeRef::Own(tree) => tree.page(j),
        }
    }

    /// Makes it a tree of its holder's own.
    pub fn own(&mut self, alloc: Global) -> Result<(), AllocError>
        ensures same { SameRoot self.old self.new }
        ensures owned { OnOk result (SameOwnRoot self.old self.new) }
        ensures own { OnOk result (IsOwnTree self.new) }
        ensures whole { AreWholeRoot self.old → AreWholeRoot self.new }
        ensures err { OnErr result (self.new ≡ self.old) }
        ensures idle { IsOwnTree self.old → IsOk result }
        ensures again { IsOwnTree self.old → self.new ≡ self.old }
    {
        match self {
            TreeRef::Uniform(permission) => {
                let tree = box_uniform(*permission, alloc)?;
                *self = TreeRef::Own(tree);
                Ok(())
            }
            TreeRef::Shared(tree) => {
                let tree = copy_of(tree, alloc)?;
                *self = TreeRef::Own(tree);
                Ok(())
            }
            TreeRef::Own(_) => Ok(()),
        }
    }

    /// The same pages: of a shared tree another holder, of an own one a copy that shares its shared pages.
    pub fn share(&self, alloc: Global) -> Result<TreeRef, AllocError>
        ensures same { IfOk result (λ copy. SameRoot self.now copy) }
        ensures own { IfOk result (λ copy. SameOwnRoot self.now copy) }
        ensures whole { AreWholeRoot self.now → IfOk result (λ copy. AreWholeRoot copy) }
    {
        match self {
            TreeRef::Uniform(permission) => Ok(TreeRef::Uniform(*permission)),
            TreeRef::Shared(tree) => Ok(TreeRef::Shared(Arc::try_clone(tree)?)),
            TreeRef::Own(tree) => {
                let copy = box_share(tree, alloc)?;
                Ok(TreeRef::Own(copy))
            }
        }
    }

    /// Makes it one that can be shared, with all its pages. No page becomes an own one. At an error, want of memory, some
    /// pages may be shared and others owned.
    pub fn freeze(&mut self, alloc: Global) -> Result<(), AllocError>
        ensures same { SameRoot self.old self.new }
        ensures none { OnOk result (NoneOwnRoot self.new) }
        ensures less { (j : ℕ) → j < tree_pages → root_own self.new j ≡ true → root_own self.old j ≡ true }
        ensures whole { AreWholeRoot self.old → AreWholeRoot self.new }
    {
        if let TreeRef::Own(tree) = self {
            tree.freeze(alloc)?;
            let shared = arc_of(tree, alloc)?;
            *self = TreeRef::Shared(shared);
        }
        Ok(())
    }

    /// Owns a page too.
    pub fn own_page(&mut self, j: usize, alloc: Global) -> Result<(), AllocError>
        requires { j < tree_pages }
        ensures same { SameRoot self.old self.new }
        ensures owned { OnOk result (IsOwnedRoot j self.old self.new) }
        ensures whole { AreWholeRoot self.old → AreWholeRoot self.new }
        ensures err { OnErr result (SameOwnRoot self.old self.new) }
        ensures idle { root_own self.old j ≡ true → IsOk result }
    {
        self.own(alloc)?;
        match self {
            TreeRef::Own(tree) => tree.own_page(j, alloc),
            _ => Ok(()),
        }
    }
}

// A tree of pages that are not kept, each with the permission. Like the functions below it is not inlined, so that a loop over many
// of them does not clear its place on the stack at each turn.
#[inline(never)]
fn box_uniform(permission: u8, alloc: Global) -> Result<Box<Tree, Global>, AllocError>
    ensures { IfOk result (λ tree. IsUniformTree permission tree.value) }
{
    let tree = Box::new(alloc, Tree::uniform(permission))?;
    Ok(tree)
}

// A tree of the same pages: of what is shared another holder, and copies of the rest.
#[inline(never)]
fn box_share(tree: &Tree, alloc: Global) -> Result<Box<Tree, Global>, AllocError>
    ensures same { IfOk result (λ copy. SameTree tree.now copy.value) }
    ensures own { IfOk result (λ copy. SameOwnTree tree.now copy.value) }
    ensures whole { AreWholeTree tree.now → IfOk result (λ copy. AreWholeTree copy.value) }
{
    let copy = Box::new(alloc, tree.share(alloc)?)?;
    Ok(copy)
}

// Moves a tree to where it can be shared, and leaves one of blank pages. At the one error, want of memory, it stays.
#[inline(never)]
fn arc_of(tree: &mut Tree, alloc: Global) -> Result<Arc<Tree, Global>, AllocError>
    ensures ok { IfOk result (λ arc. arc_value arc ≡ tree.old) }
    ensures err { OnErr result (tree.new ≡ tree.old) }
{
    let moved = mem::replace(tree, Tree::uniform(0));
    match Arc::new(alloc, moved) {
        Ok(arc) => Ok(arc),
        Err(failed) => {
            *tree = failed.value;
            Err(AllocError)
        }
    }
}

// A tree of the same pages, none of which is an own one.
#[inline(never)]
fn copy_of(tree: &Tree, alloc: Global) -> Result<Box<Tree, Global>, AllocError>
    ensures same { IfOk result (λ copy. SameTree tree.now copy.value) }
    ensures none { IfOk result (λ copy. NoneOwnTree copy.value) }
    ensures whole { AreWholeTree tree.now → IfOk result (λ copy. AreWholeTree copy.value) }
{
    let mut copy = tree.share(alloc)?;
    copy.freeze(alloc)?;
    let copy = Box::new(alloc, copy)?;
    Ok(copy)
}
