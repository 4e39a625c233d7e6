ghost use Rattle.std.specs.Prelude.{◌≡◌, ℕ, ◌+◌, ◌%◌, ◌<◌, ◌≤◌, cond, IfOk, IsOk, OnOk, OnErr, IfSome, IsNone, false, true};
ghost use Rattle.std.specs.Arc.{arc_value};
ghost use Rattle.page_tree.specs.Branches.{branch_pages, SameBelow, SameOwnBelow, NoneOwnBelow, AreWholeBelow, IsUniformBranch};
ghost use Rattle.page_tree.specs.BranchRefs.{limb_permission, limb_page, limb_own, IsOwnBranch, AreWholeLimb, SameLimb, SameOwnLimb, NoneOwnLimb, IsOwnedLimb};

use crate::branch::Branch;
use page_store::PageRef;
use std::alloc::{AllocError, Global};
use std::mem;
use std::sync::Arc;

/// What is kept of 8,192 pages.
#[derive(Drop)]
pub enum BranchRef {
    /// Pages of this permission whose bytes are 0.
    Uniform(u8),
    /// A branch that others may hold too. No write changes it.
    Shared(Arc<Branch, Global>),
    /// A branch of its holder's own.
    Own(Box<Branch, Global>),
}

impl BranchRef {
    /// The permission of a page.
    #[inline(always)]
    pub fn permission(&self, j: usize) -> u8
        requires { j < branch_pages }
        ensures { result ≡ limb_permission self.now j }
    {
        match self {
            BranchRef::Uniform(permission) => *permission,
            BranchRef::Shared(branch) => branch.permission(j),
            BranchRef::Own(branch) => branch.permission(j),
        }
    }

    /// What is kept of a page.
    #[inline(always)]
    pub fn page(&self, j: usize) -> Option<&PageRef>
        requires { j < branch_pages }
        ensures some { IfSome result (λ page. limb_page self.now j ≡ Some page.now) }
        ensures none { IsNone result → limb_page self.now j ≡ None }
    {
        match self {
            BranchRef::Uniform(_) => None,
            BranchRef::Shared(branch) => branch.page(j),
            BranchRef::Own(branch) => branch.page(j),
        }
    }

    /// Makes it a branch of its holder's own.
    pub fn own(&mut self, alloc: Global) -> Result<(), AllocError>
        ensures same { SameLimb self.old self.new }
        ensures owned { OnOk result (SameOwnLimb self.old self.new) }
        ensures own { OnOk result (IsOwnBranch self.new) }
        ensures whole { AreWholeLimb self.old → AreWholeLimb self.new }
        ensures err { OnErr result (self.new ≡ self.old) }
        ensures idle { IsOwnBranch self.old → IsOk result }
        ensures again { IsOwnBranch self.old → self.new ≡ self.old }
    {
        match self {
            BranchRef::Uniform(permission) => {
                let branch = box_uniform(*permission, alloc)?;
                *self = BranchRef::Own(branch);
                Ok(())
            }
            BranchRef::Shared(branch) => {
                let branch = copy_of(branch, alloc)?;
                *self = BranchRef::Own(branch);
                Ok(())
            }
            BranchRef::Own(_) => Ok(()),
        }
    }

    /// The same pages: of a shared branch another holder, of an own one a copy that shares its shared pages.
    pub fn share(&self, alloc: Global) -> Result<BranchRef, AllocError>
        ensures same { IfOk result (λ copy. SameLimb self.now copy) }
        ensures own { IfOk result (λ copy. SameOwnLimb self.now copy) }
        ensures whole { AreWholeLimb self.now → IfOk result (λ copy. AreWholeLimb copy) }
    {
        match self {
            BranchRef::Uniform(permission) => Ok(BranchRef::Uniform(*permission)),
            BranchRef::Shared(branch) => Ok(BranchRef::Shared(Arc::try_clone(branch)?)),
            BranchRef::Own(branch) => {
                let copy = box_share(branch, alloc)?;
                Ok(BranchRef::Own(copy))
            }
        }
    }

    /// Makes it one that can be shared, with all its pages. No page becomes an own one. At an error, want of memory, some
    /// pages may be shared and others owned.
    pub fn freeze(&mut self, alloc: Global) -> Result<(), AllocError>
        ensures same { SameLimb self.old self.new }
        ensures none { OnOk result (NoneOwnLimb self.new) }
        ensures less { (j : ℕ) → j < branch_pages → limb_own self.new j ≡ true → limb_own self.old j ≡ true }
        ensures whole { AreWholeLimb self.old → AreWholeLimb self.new }
    {
        if let BranchRef::Own(branch) = self {
            branch.freeze(alloc)?;
            let shared = arc_of(branch, alloc)?;
            *self = BranchRef::Shared(shared);
        }
        Ok(())
    }

    /// Owns a page too.
    pub fn own_page(&mut self, j: usize, alloc: Global) -> Result<(), AllocError>
        requires { j < branch_pages }
        ensures same { SameLimb self.old self.new }
        ensures owned { OnOk result (IsOwnedLimb j self.old self.new) }
        ensures whole { AreWholeLimb self.old → AreWholeLimb self.new }
        ensures err { OnErr result (SameOwnLimb self.old self.new) }
        ensures idle { limb_own self.old j ≡ true → IsOk result }
    {
        self.own(alloc)?;
        match self {
            BranchRef::Own(branch) => branch.own_page(j, alloc),
            _ => Ok(()),
        }
    }
}

// A branch of pages that are not kept, each with the permission. Like the functions below it is not inlined, so that a loop over many
// of them does not clear its place on the stack at each turn.
#[inline(never)]
fn box_uniform(permission: u8, alloc: Global) -> Result<Box<Branch, Global>, AllocError>
    ensures { IfOk result (λ branch. IsUniformBranch permission branch.value) }
{
    let branch = Box::new(alloc, Branch::uniform(permission))?;
    Ok(branch)
}

// A branch of the same pages: of what is shared another holder, and copies of the rest.
#[inline(never)]
fn box_share(branch: &Branch, alloc: Global) -> Result<Box<Branch, Global>, AllocError>
    ensures same { IfOk result (λ copy. SameBelow branch.now copy.value) }
    ensures own { IfOk result (λ copy. SameOwnBelow branch.now copy.value) }
    ensures whole { AreWholeBelow branch.now → IfOk result (λ copy. AreWholeBelow copy.value) }
{
    let copy = Box::new(alloc, branch.share(alloc)?)?;
    Ok(copy)
}

// Moves a branch to where it can be shared, and leaves one of blank pages. At the one error, want of memory, it stays.
#[inline(never)]
fn arc_of(branch: &mut Branch, alloc: Global) -> Result<Arc<Branch, Global>, AllocError>
    ensures ok { IfOk result (λ arc. arc_value arc ≡ branch.old) }
    ensures err { OnErr result (branch.new ≡ branch.old) }
{
    let moved = mem::replace(branch, Branch::uniform(0));
    match Arc::new(alloc, moved) {
        Ok(arc) => Ok(arc),
        Err(failed) => {
            *branch = failed.value;
            Err(AllocError)
        }
    }
}

// A branch of the same pages, none of which is an own one.
#[inline(never)]
fn copy_of(branch: &Branch, alloc: Global) -> Result<Box<Branch, Global>, AllocError>
    ensures same { IfOk result (λ copy. SameBelow branch.now copy.value) }
    ensures none { IfOk result (λ copy. NoneOwnBelow copy.value) }
    ensures whole { AreWholeBelow branch.now → IfOk result (λ copy. AreWholeBelow copy.value) }
{
    let mut copy = branch.share(alloc)?;
    copy.freeze(alloc)?;
    let copy = Box::new(alloc, copy)?;
    Ok(copy)
}
