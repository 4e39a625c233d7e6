ghost use Rattle.std.specs.Prelude.{◌≡◌, ℕ, ◌+◌, ◌-◌, ◌%◌, ◌<◌, ◌≤◌, ◌==◌, cond, IfOk, IsTrue, OnOk, OnErr};
ghost use Rattle.memory_model.specs.Ranges.{with_copies};
ghost use Rattle.memory_model.specs.Sizes.{pages};
ghost use Rattle.page_tree.specs.Blocks.{block_pages, byte_in, within, IsWhole};
ghost use Rattle.page_tree.specs.Branches.{branch_pages};
ghost use Rattle.page_tree.specs.Trees.{tree_pages};
ghost use Rattle.page_tree.specs.Rows.{SameOwners, SameRow};
ghost use Rattle.page_tree.specs.TreeRefs.{root_own, root_page, root_permission, root_row, AreWholeRoot};
ghost use Rattle.space_mem.specs.Held.{IsOutside, KeepsMarksOutside, Marks};
ghost use Rattle.space_mem.specs.Moves.{HasMoved};
ghost use Rattle.space_mem.specs.Tables.{IsTable, held_of, memory_of};

use crate::layout::Pages;
use crate::memory::Mem;
use crate::table::PageTable;
use memory_model::PAGES;
use page_marks::PageMarks;
use page_store::PageRef;
use page_tree::{BLOCK_PAGES, BRANCH_PAGES, TreeRef};
use std::alloc::{AllocError, Global};

impl Mem {
    /// Gives the pages of a range the bytes and permissions of a source's pages from `from` on, which end within the memory.
    /// Pages of the source that are not owned are shared, and others copied. Which other pages are owned stays, and which of them are
    /// dirty. Its one error is want of memory: nothing has changed then.
    pub fn copy_from(&mut self, source: &Mem, from: u32, to: Pages) -> Result<(), AllocError>
        requires { from + to.count ≤ 1048576 }
        ensures ok { OnOk result (self.new.memory ≡ with_copies self.old.memory source.now.memory from to.first to.count) }
        ensures err { OnErr result (self.new ≡ self.old) }
        ensures outside { KeepsMarksOutside to.first (to.first + to.count) self.old self.new }
        ensures marks { Marks self.old self.new }
    {
        self.table
            .copy(&source.table, from, to.first, to.first + to.count)
    }
}

impl PageTable {
    // Gives the pages from `first` to before `end` the bytes and permissions of a source's pages from `from` on; they are dirty then.
    pub fn copy(
        &mut self,
        source: &PageTable,
        from: u32,
        first: u32,
        end: u32,
    ) -> Result<(), AllocError>
        requires table { IsTable self.old }
        requires source { IsTable source.now }
        requires rise { first ≤ end }
        requires within { end ≤ pages }
        requires in_range { from + (end - first) ≤ pages }
        ensures table { IsTable self.new }
        ensures ok { OnOk result ((held_of self.new).memory ≡ with_copies (memory_of self.old.pages) (memory_of source.now.pages) from first (end - first)) }
        ensures err { OnErr result (held_of self.new ≡ held_of self.old) }
        ensures outside { KeepsMarksOutside first end (held_of self.old) (held_of self.new) }
        ensures marks { Marks (held_of self.old) (held_of self.new) }
    {
        if first == end {
            return Ok(());
        }
        if first == 0 && end == PAGES {
            return self.copy_all(source);
        }
        if end - first == 1 && source.pages.page(from as usize).is_some() {
            return self.copy_page(source, from as usize, first as usize, end as usize);
        }
        self.copy_part(source, from as usize, first as usize, end as usize)
    }

    // Takes the bytes and permissions of all of a source's pages; they are dirty then.
    fn copy_all(&mut self, source: &PageTable) -> Result<(), AllocError>
        requires table { IsTable self.old }
        requires source { IsTable source.now }
        ensures table { IsTable self.new }
        ensures ok { OnOk result (memory_of self.new.pages ≡ with_copies (memory_of self.old.pages) (memory_of source.now.pages) 0 0 pages) }
        ensures err { OnErr result (self.new ≡ self.old) }
        ensures outside { KeepsMarksOutside 0 pages (held_of self.old) (held_of self.new) }
        ensures marks { Marks (held_of self.old) (held_of self.new) }
    {
        let copied = source.pages.share(self.alloc)?;
        self.pages = copied;
        self.dirty = PageMarks::all();
        Ok(())
    }

    // Gives one page the bytes and the permission of a source's page; it is dirty then. No tree is made for it.
    fn copy_page(
        &mut self,
        source: &PageTable,
        from: usize,
        first: usize,
        end: usize,
    ) -> Result<(), AllocError>
        requires table { IsTable self.old }
        requires source { IsTable source.now }
        requires one { end ≡ first + 1 }
        requires within { end ≤ pages }
        requires in_range { from + (end - first) ≤ pages }
        ensures table { IsTable self.new }
        ensures ok { OnOk result (memory_of self.new.pages ≡ with_copies (memory_of self.old.pages) (memory_of source.now.pages) from first (end - first)) }
        ensures err { OnErr result (held_of self.new ≡ held_of self.old) }
        ensures outside { KeepsMarksOutside first end (held_of self.old) (held_of self.new) }
        ensures marks { Marks (held_of self.old) (held_of self.new) }
    {
        self.dirty.prepare(first, end, self.alloc)?;
        move_page(&mut self.pages, &source.pages, from, first, self.alloc)?;
        self.dirty.mark(first, end);
        Ok(())
    }

    // Gives some pages the bytes and permissions of a source's pages from `from` on; they are dirty then. Of both trees only what lies across
    // an end of the range is copied.
    fn copy_part(
        &mut self,
        source: &PageTable,
        from: usize,
        first: usize,
        end: usize,
    ) -> Result<(), AllocError>
        requires table { IsTable self.old }
        requires source { IsTable source.now }
        requires rise { first < end }
        requires within { end ≤ pages }
        requires in_range { from + (end - first) ≤ pages }
        ensures table { IsTable self.new }
        ensures ok { OnOk result (memory_of self.new.pages ≡ with_copies (memory_of self.old.pages) (memory_of source.now.pages) from first (end - first)) }
        ensures err { OnErr result (held_of self.new ≡ held_of self.old) }
        ensures outside { KeepsMarksOutside first end (held_of self.old) (held_of self.new) }
        ensures marks { Marks (held_of self.old) (held_of self.new) }
    {
        let mut made = move_pages(&source.pages, from, first, end - first, self.alloc)?;
        made.cut(first, end, self.alloc)?;
        self.dirty.prepare(first, end, self.alloc)?;
        self.pages.cut(first, end, self.alloc)?;
        self.pages.take(&mut made, first, end);
        self.dirty.mark(first, end);
        Ok(())
    }
}

// A tree in which `count` pages from `first` on are like a source's from `from` on.
pub fn move_pages(
    source: &TreeRef,
    from: usize,
    first: usize,
    count: usize,
    alloc: Global,
) -> Result<TreeRef, AllocError>
    requires within { first + count ≤ tree_pages }
    requires in_range { from + count ≤ tree_pages }
    requires whole { AreWholeRoot source.now }
    ensures moved { IfOk result (λ made. HasMoved (root_row source.now) from first count (root_row made)) }
    ensures whole { IfOk result (λ made. AreWholeRoot made) }
{
    let mut made = TreeRef::Uniform(0);
    let mut done = 0;
    while done < count {
        done += move_some(
            &mut made,
            source,
            from + done,
            first + done,
            count - done,
            alloc,
        )?;
    }
    Ok(made)
}

// Makes some pages from `to` on, at most `count`, like a source's from `at` on, and tells how many: a whole branch or block where one begins at
// each place. The pages from `to` on have no byte other than 0 before.
fn move_some(
    made: &mut TreeRef,
    source: &TreeRef,
    at: usize,
    to: usize,
    count: usize,
    alloc: Global,
) -> Result<usize, AllocError>
    requires some { 0 < count }
    requires within { to + count ≤ tree_pages }
    requires in_range { at + count ≤ tree_pages }
    requires whole { AreWholeRoot source.now }
    ensures some { IfOk result (λ done. 0 < done) }
    ensures most { IfOk result (λ done. done ≤ count) }
    ensures moved { IfOk result (λ done. (from first before : ℕ) → at ≡ from + before → to ≡ first + before → HasMoved (root_row source.now) from first before (root_row made.old) → HasMoved (root_row source.now) from first (before + done) (root_row made.new)) }
    ensures whole { AreWholeRoot made.old → AreWholeRoot made.new }
{
    let bare = (source.bare_end(at) - at).min(count);
    if bare < BRANCH_PAGES && begin_branches(at, to) && count >= BRANCH_PAGES {
        move_branch(made, source, at, to, alloc)?;
        return Ok(BRANCH_PAGES);
    }
    if bare < BLOCK_PAGES && begin_blocks(at, to) && count >= BLOCK_PAGES {
        move_block(made, source, at, to, alloc)?;
        return Ok(BLOCK_PAGES);
    }
    if bare == 0 {
        move_page(made, source, at, to, alloc)?;
        return Ok(1);
    }
    move_bare(made, to, to + bare, source.permission(at), alloc)?;
    Ok(bare)
}

// Whether two pages each are the first of a block.
fn begin_blocks(at: usize, to: usize) -> bool
    ensures at { IsTrue result → at % block_pages ≡ 0 }
    ensures to { IsTrue result → to % block_pages ≡ 0 }
{
    at % BLOCK_PAGES == 0 && to % BLOCK_PAGES == 0
}

// Whether two pages each are the first of a branch.
fn begin_branches(at: usize, to: usize) -> bool
    ensures at { IsTrue result → at % branch_pages ≡ 0 }
    ensures to { IsTrue result → to % branch_pages ≡ 0 }
{
    at % BRANCH_PAGES == 0 && to % BRANCH_PAGES == 0
}

// Gives the branch that begins with the page `to` the pages of a source's branch, which it shares.
fn move_branch(
    made: &mut TreeRef,
    source: &TreeRef,
    at: usize,
    to: usize,
    alloc: Global,
) -> Result<(), AllocError>
    requires at { at % branch_pages ≡ 0 }
    requires to { to % branch_pages ≡ 0 }
    requires within { to + branch_pages ≤ tree_pages }
    requires in_range { at + branch_pages ≤ tree_pages }
    requires whole { AreWholeRoot source.now }
    ensures here { OnOk result ((j : ℕ) → j < branch_pages → root_permission made.new (to + j) ≡ root_permission source.now (at + j)) }
    ensures bytes { OnOk result ((j k : ℕ) → j < branch_pages → byte_in (root_page made.new (to + j)) k ≡ byte_in (root_page source.now (at + j)) k) }
    ensures beside { OnOk result ((p : ℕ) → p < tree_pages → IsOutside to (to + branch_pages) p → root_permission made.new p ≡ root_permission made.old p) }
    ensures rest { OnOk result ((p k : ℕ) → p < tree_pages → IsOutside to (to + branch_pages) p → byte_in (root_page made.new p) k ≡ byte_in (root_page made.old p) k) }
    ensures whole { AreWholeRoot made.old → AreWholeRoot made.new }
{
    let branch = source.share_branch(at / BRANCH_PAGES, alloc)?;
    made.prepare(to, to + BRANCH_PAGES, alloc)?;
    made.put_branch(to / BRANCH_PAGES, branch);
    Ok(())
}

// Gives the block that begins with the page `to` the pages of a source's block, which it shares.
fn move_block(
    made: &mut TreeRef,
    source: &TreeRef,
    at: usize,
    to: usize,
    alloc: Global,
) -> Result<(), AllocError>
    requires at { at % block_pages ≡ 0 }
    requires to { to % block_pages ≡ 0 }
    requires within { to + block_pages ≤ tree_pages }
    requires in_range { at + block_pages ≤ tree_pages }
    requires whole { AreWholeRoot source.now }
    ensures here { OnOk result ((j : ℕ) → j < block_pages → root_permission made.new (to + j) ≡ root_permission source.now (at + j)) }
    ensures bytes { OnOk result ((j k : ℕ) → j < block_pages → byte_in (root_page made.new (to + j)) k ≡ byte_in (root_page source.now (at + j)) k) }
    ensures beside { OnOk result ((p : ℕ) → p < tree_pages → IsOutside to (to + block_pages) p → root_permission made.new p ≡ root_permission made.old p) }
    ensures rest { OnOk result ((p k : ℕ) → p < tree_pages → IsOutside to (to + block_pages) p → byte_in (root_page made.new p) k ≡ byte_in (root_page made.old p) k) }
    ensures whole { AreWholeRoot made.old → AreWholeRoot made.new }
{
    let block = source.share_block(at / BLOCK_PAGES, alloc)?;
    made.prepare(to, to + BLOCK_PAGES, alloc)?;
    made.put_block(to / BLOCK_PAGES, block);
    Ok(())
}

// Gives the pages from `to` to before `end` a permission.
fn move_bare(
    made: &mut TreeRef,
    to: usize,
    end: usize,
    permission: u8,
    alloc: Global,
) -> Result<(), AllocError>
    requires rise { to < end }
    requires within { end ≤ tree_pages }
    ensures permission { OnOk result ((p : ℕ) → p < tree_pages → root_permission made.new p ≡ cond (within to end p) permission (root_permission made.old p)) }
    ensures byte { (p k : ℕ) → p < tree_pages → byte_in (root_page made.new p) k ≡ byte_in (root_page made.old p) k }
    ensures whole { AreWholeRoot made.old → AreWholeRoot made.new }
{
    made.prepare(to, end, alloc)?;
    made.permit(to, end, permission);
    Ok(())
}

// Gives the page `to` the bytes and the permission of a source's page. At the one error, want of memory, bytes, permissions and owners stay.
fn move_page(
    made: &mut TreeRef,
    source: &TreeRef,
    at: usize,
    to: usize,
    alloc: Global,
) -> Result<(), AllocError>
    requires at { at < tree_pages }
    requires to { to < tree_pages }
    ensures permission { OnOk result ((p : ℕ) → p < tree_pages → root_permission made.new p ≡ cond (within to (to + 1) p) (root_permission source.now at) (root_permission made.old p)) }
    ensures byte { OnOk result ((p k : ℕ) → p < tree_pages → byte_in (root_page made.new p) k ≡ cond (p == to) (byte_in (root_page source.now at) k) (byte_in (root_page made.old p) k)) }
    ensures owners { OnOk result ((p : ℕ) → p < tree_pages → IsOutside to (to + 1) p → root_own made.new p ≡ root_own made.old p) }
    ensures whole { AreWholeRoot made.old → AreWholeRoot made.new }
    ensures err { OnErr result (SameRow tree_pages (root_row made.old) (root_row made.new)) }
    ensures err_owners { OnErr result (SameOwners tree_pages (root_row made.old) (root_row made.new)) }
{
    let kept = share_page(source, at, alloc)?;
    made.own_block(to, alloc)?;
    made.replace(to, kept);
    made.permit(to, to + 1, source.permission(at));
    Ok(())
}

// What is kept of a page: a shared one is shared, and an own one copied.
pub fn share_page(
    source: &TreeRef,
    page: usize,
    alloc: Global,
) -> Result<Option<PageRef>, AllocError>
    requires { page < tree_pages }
    ensures byte { IfOk result (λ kept. (k : ℕ) → byte_in kept k ≡ byte_in (root_page source.now page) k) }
    ensures whole { IfOk result (λ kept. IsWhole kept) }
{
    match source.page(page) {
        None => Ok(None),
        Some(kept) => {
            let copy = kept.share(alloc)?;
            let _bytes = copy.bytes();
            Ok(Some(copy))
        }
    }
}
