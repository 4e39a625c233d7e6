ghost use Rattle.std.specs.Prelude.{◌≡◌, ℕ, ◌+◌, ◌<◌, ◌≤◌, ◌==◌, cond, IfOk, IfSome, IsNone, OnErr, OnOk};
ghost use Rattle.memory_model.specs.Sizes.{pages};
ghost use Rattle.page_marks.specs.Marks.{AreBare, SetsMarks, IsBareTree, ReadyMarks, SameMarks, mark_of};
ghost use Rattle.page_tree.specs.TreeRefs.{root_permission};

use crate::few::FewPages;
use memory_model::PAGES;
use page_tree::{BLOCK_PAGES, TreeRef};
use std::alloc::{AllocError, Global};

/// The pages of a memory that are marked.
#[derive(Drop)]
pub enum PageMarks {
    /// A few pages, each of which is marked.
    Few(FewPages),
    /// The marked pages have permission 1 here, and the others 0.
    Many(TreeRef),
}

impl PageMarks {
    /// No page is marked.
    pub fn none() -> PageMarks
        ensures none { (p : ℕ) → p < pages → mark_of result p ≡ 0 }
        ensures bare { AreBare result }
    {
        PageMarks::Few(FewPages::none())
    }

    /// Each page is marked.
    pub fn all() -> PageMarks
        ensures all { (p : ℕ) → mark_of result p ≡ 1 }
        ensures bare { AreBare result }
    {
        PageMarks::Many(TreeRef::Uniform(1))
    }

    /// Whether a page is marked.
    pub fn has(&self, page: u32) -> bool
        requires { page < pages }
        ensures { result ≡ (mark_of self.now page == 1) }
    {
        match self {
            PageMarks::Few(few) => few.has(page),
            PageMarks::Many(tree) => tree.permission(page as usize) == 1,
        }
    }

    /// Makes a range ready to be marked. The same pages are marked, also at the one error, want of memory.
    pub fn prepare(&mut self, first: usize, end: usize, alloc: Global) -> Result<(), AllocError>
        requires rise { first < end }
        requires within { end ≤ pages }
        ensures same { SameMarks self.old self.new }
        ensures ready { OnOk result (ReadyMarks first end self.new) }
        ensures bare { AreBare self.old → AreBare self.new }
    {
        match self {
            PageMarks::Few(few) => {
                if end - first == 1 && few.has_room(first as u32) {
                    return Ok(());
                }
                let mut tree = few.tree(alloc)?;
                tree.prepare(first, end, alloc)?;
                *self = PageMarks::Many(tree);
                Ok(())
            }
            PageMarks::Many(tree) => tree.prepare(first, end, alloc),
        }
    }

    /// Marks the pages from `first` to before `end`.
    pub fn mark(&mut self, first: usize, end: usize)
        requires rise { first < end }
        requires within { end ≤ pages }
        requires ready { ReadyMarks first end self.old }
        ensures marked { SetsMarks first end 1 self.old self.new }
        ensures bare { AreBare self.old → AreBare self.new }
    {
        match self {
            PageMarks::Few(few) => few.add(first as u32),
            PageMarks::Many(tree) => tree.permit(first, end, 1),
        }
    }

    /// Takes a page's mark away. The one error is want of memory: the same pages are marked then.
    pub fn unmark(&mut self, page: u32, alloc: Global) -> Result<(), AllocError>
        requires { page < pages }
        ensures ok { OnOk result (SetsMarks page (page + 1) 0 self.old self.new) }
        ensures err { OnErr result (SameMarks self.old self.new) }
        ensures bare { AreBare self.old → AreBare self.new }
    {
        match self {
            PageMarks::Few(few) => {
                few.remove(page);
                Ok(())
            }
            PageMarks::Many(tree) => unmark_in(tree, page as usize, alloc),
        }
    }

    /// The least marked page from `n` on.
    pub fn next(&self, n: u32) -> Option<u32>
        requires page { n < pages }
        requires bare { AreBare self.now }
        ensures from { IfSome result (λ p. n ≤ p) }
        ensures within { IfSome result (λ p. p < pages) }
        ensures marked { IfSome result (λ p. mark_of self.now p ≡ 0 → ⊥) }
        ensures least { IfSome result (λ p. (q : ℕ) → n ≤ q → q < p → mark_of self.now q ≡ 0) }
        ensures none { IsNone result → (q : ℕ) → n ≤ q → q < pages → mark_of self.now q ≡ 0 }
    {
        match self {
            PageMarks::Few(few) => few.next(n),
            PageMarks::Many(tree) => next_in(tree, n),
        }
    }

    /// The same marks. The one error is want of memory: the same pages are marked then.
    pub fn share(&mut self, alloc: Global) -> Result<PageMarks, AllocError>
        ensures same { SameMarks self.old self.new }
        ensures copy { IfOk result (λ copy. SameMarks self.old copy) }
        ensures bare { AreBare self.old → AreBare self.new }
        ensures copied { AreBare self.old → IfOk result (λ copy. AreBare copy) }
    {
        match self {
            PageMarks::Few(few) => Ok(PageMarks::Few(few.copy())),
            PageMarks::Many(tree) => {
                tree.freeze(alloc)?;
                Ok(PageMarks::Many(tree.share(alloc)?))
            }
        }
    }
}

// The least page from `n` on that has a permission in a tree that keeps no bytes.
fn next_in(tree: &TreeRef, n: u32) -> Option<u32>
    requires page { n < pages }
    requires bare { IsBareTree tree.now }
    ensures from { IfSome result (λ p. n ≤ p) }
    ensures within { IfSome result (λ p. p < pages) }
    ensures marked { IfSome result (λ p. root_permission tree.now p ≡ 0 → ⊥) }
    ensures least { IfSome result (λ p. (q : ℕ) → n ≤ q → q < p → root_permission tree.now q ≡ 0) }
    ensures none { IsNone result → (q : ℕ) → n ≤ q → q < pages → root_permission tree.now q ≡ 0 }
{
    match tree.next_used(n as usize) {
        Some(page) => Some(page as u32),
        None => None,
    }
}

// Takes a page's mark away from a tree. At the one error, want of memory, the same pages are marked.
fn unmark_in(tree: &mut TreeRef, page: usize, alloc: Global) -> Result<(), AllocError>
    requires { page < pages }
    ensures ok { OnOk result ((p : ℕ) → p < pages → root_permission tree.new p ≡ cond (p == page) 0 (root_permission tree.old p)) }
    ensures err { OnErr result ((p : ℕ) → p < pages → root_permission tree.new p ≡ root_permission tree.old p) }
    ensures bare { IsBareTree tree.old → IsBareTree tree.new }
{
    tree.prepare(page, page + 1, alloc)?;
    tree.permit(page, page + 1, 0);
    settle_block(tree, page, alloc);
    Ok(())
}

// Makes the block of a page that has no mark uniform, where none of its pages has one, so that a search passes over it in one step.
fn settle_block(tree: &mut TreeRef, page: usize, alloc: Global)
    requires page { page < pages }
    requires none { root_permission tree.old page ≡ 0 }
    ensures same { (p : ℕ) → p < pages → root_permission tree.new p ≡ root_permission tree.old p }
    ensures bare { IsBareTree tree.old → IsBareTree tree.new }
{
    let first = page - page % BLOCK_PAGES;
    let end = first + BLOCK_PAGES;
    if tree.bare_end(first) < end {
        return;
    }
    if tree.prepare(first, end, alloc).is_ok() {
        tree.permit(first, end, 0);
    }
}
