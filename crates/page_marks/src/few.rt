ghost use Rattle.std.specs.Prelude.{◌≡◌, ℕ, ◌+◌, ◌<◌, ◌≤◌, ◌==◌, ◌||◌, cond, slice_index, IfOk, IfSome, IsNone, OnOk, length, false, true};
ghost use Rattle.memory_model.specs.Sizes.{pages};
ghost use Rattle.page_marks.specs.Lists.{has_page, has_room, no_page};
ghost use Rattle.page_marks.specs.Marks.{IsBareTree, mark_in};
ghost use Rattle.page_tree.specs.TreeRefs.{root_permission};

use memory_model::PAGES;
use page_tree::TreeRef;
use std::alloc::{AllocError, Global};

/// How many pages are listed at most.
pub const PLACES: usize = 6;

/// A few pages, in no order. A free place has the number of no page.
#[derive(Drop)]
pub struct FewPages {
    pub places: [u32; PLACES],
}

impl FewPages {
    /// No page.
    pub fn none() -> FewPages
        ensures { (p : ℕ) → p < pages → has_page result.places p ≡ false }
    {
        FewPages {
            places: [PAGES; PLACES],
        }
    }

    /// The same pages.
    pub fn copy(&self) -> FewPages
        ensures { result ≡ self.now }
    {
        FewPages {
            places: self.places,
        }
    }

    // The first place that has a number.
    fn place_of(&self, number: u32) -> Option<usize>
        ensures within { IfSome result (λ i. i < length self.now.places) }
        ensures sized { length self.now.places ≡ 6 }
        ensures here { IfSome result (λ i. slice_index self.now.places i ≡ number) }
        ensures has { IfSome result (λ i. has_page self.now.places number ≡ true) }
        ensures none { IsNone result → has_page self.now.places number ≡ false }
    {
        for i in 0..PLACES {
            if self.places[i] == number {
                return Some(i);
            }
        }
        None
    }

    /// Whether a page is one of them.
    pub fn has(&self, page: u32) -> bool
        ensures { result ≡ has_page self.now.places page }
    {
        self.place_of(page).is_some()
    }

    /// Whether a page is one of them, or there is a place for it.
    pub fn has_room(&self, page: u32) -> bool
        ensures { result ≡ has_room self.now.places page }
    {
        self.has(page) || self.has(PAGES)
    }

    /// One more page, for which there is room.
    pub fn add(&mut self, page: u32)
        requires page { page < pages }
        requires room { has_room self.old.places page ≡ true }
        ensures { (p : ℕ) → p < pages → has_page self.new.places p ≡ cond (p == page) true (has_page self.old.places p) }
    {
        if self.has(page) {
            return;
        }
        if let Some(i) = self.place_of(PAGES) {
            self.places[i] = page;
        }
    }

    /// All but one page.
    pub fn remove(&mut self, page: u32)
        requires { page < pages }
        ensures { (p : ℕ) → p < pages → has_page self.new.places p ≡ cond (p == page) false (has_page self.old.places p) }
    {
        for i in 0..PLACES {
            if self.places[i] == page {
                self.places[i] = PAGES;
            }
        }
    }

    /// The least page from `n` on.
    pub fn next(&self, n: u32) -> Option<u32>
        ensures from { IfSome result (λ p. n ≤ p) }
        ensures within { IfSome result (λ p. p < pages) }
        ensures has { IfSome result (λ p. has_page self.now.places p ≡ true) }
        ensures least { IfSome result (λ p. (q : ℕ) → n ≤ q → q < p → has_page self.now.places q ≡ false) }
        ensures none { IsNone result → (q : ℕ) → n ≤ q → q < pages → has_page self.now.places q ≡ false }
    {
        let mut least = PAGES;
        for i in 0..PLACES {
            if n <= self.places[i] && self.places[i] < least {
                least = self.places[i];
            }
        }
        if least == PAGES {
            return None;
        }
        Some(least)
    }

    /// A tree that marks the same pages.
    pub fn tree(&self, alloc: Global) -> Result<TreeRef, AllocError>
        ensures marks { IfOk result (λ tree. (p : ℕ) → p < pages → root_permission tree p ≡ mark_in self.now.places p) }
        ensures bare { IfOk result (λ tree. IsBareTree tree) }
    {
        let mut tree = TreeRef::Uniform(0);
        for number in &self.places {
            mark_number(&mut tree, *number, alloc)?;
        }
        Ok(tree)
    }
}

// Marks a page, if the number is one of a page. The one error is want of memory.
fn mark_number(tree: &mut TreeRef, number: u32, alloc: Global) -> Result<(), AllocError>
    ensures marks { OnOk result ((p : ℕ) → p < pages → root_permission tree.new p ≡ cond (number == p) 1 (root_permission tree.old p)) }
    ensures bare { IsBareTree tree.old → IsBareTree tree.new }
{
    if number >= PAGES {
        return Ok(());
    }
    let at = number as usize;
    tree.prepare(at, at + 1, alloc)?;
    tree.permit(at, at + 1, 1);
    Ok(())
}
