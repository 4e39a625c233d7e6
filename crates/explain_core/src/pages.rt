ghost use Rattle.std.specs.Prelude.{◌≡◌, ◌++◌, ◌<◌, ◌≤◌, IfOk, IfSome, IsNone, OnOk};
ghost use Rattle.memory_model.specs.Memory.{permission_at};
ghost use Rattle.memory_model.specs.Sizes.{pages};
ghost use Rattle.space_mem.specs.Held.{AllZero, Covers, HaveOnePermission};
ghost use Rattle.explain_core.specs.Pages.{IsNextKeptIn, change_at, changed_pages, is_changed, run_between, runs_of};

use det_report::page_bytes;
use memory_model::{PAGE_SIZE, PAGES};
use merge3::same_page;
use space_tree::Mem;
use std::alloc::{AllocError, Global};

/// Pages in a row with one permission other than 0, as many as there are.
#[derive(Clone, Copy, Debug, PartialEq, Eq)]
pub(crate) struct Run {
    /// The first address.
    pub(crate) first: u32,
    /// The last address.
    pub(crate) last: u32,
    /// The permission of each page, 1 to 7.
    pub(crate) permission: u8,
}

// A page behind one, before which all pages have the permission of this one.
#[tactic(auto, using(crate::proofs::Runs::one_page))]
fn onward(memory: &Mem, page: u32) -> u32
    requires { page < pages }
    ensures above { page < result }
    ensures within { result ≤ pages }
    ensures alike { HaveOnePermission memory.now.memory page result }
{
    let end = memory.bare_end(page);
    if end > page {
        return end;
    }
    page + 1
}

// Where the pages from one on end that have its permission.
#[tactic(auto, using(crate::proofs::Runs::alike_further))]
fn alike_end(memory: &Mem, page: u32) -> u32
    requires { page < pages }
    ensures above { page < result }
    ensures within { result ≤ pages }
    ensures alike { HaveOnePermission memory.now.memory page result }
    ensures other { result < pages → permission_at memory.now.memory result ≡ permission_at memory.now.memory page → ⊥ }
{
    let permission = memory.perm(page);
    let mut end = onward(memory, page);
    'pages: while end < PAGES && memory.perm(end) == permission {
        end = onward(memory, end);
    }
    end
}

// Appends the run of the pages from one to before another, unless their permission is 0.
fn push_run(runs: &mut Vec<Run>, permission: u8, page: u32, end: u32) -> Result<(), AllocError>
    requires some { page < end }
    requires within { end ≤ pages }
    ensures { OnOk result (runs.new.items ≡ runs.old.items ++ run_between permission page end) }
{
    if permission == 0 {
        return Ok(());
    }
    runs.push(Run {
        first: PAGE_SIZE * page,
        last: PAGE_SIZE * (end - 1) + (PAGE_SIZE - 1),
        permission,
    })?;
    Ok(())
}

/// The runs of pages with one permission other than 0, by rising addresses. It looks at kept pages and at parts of the page table, not at each page.
#[tactic(auto, using(crate::proofs::Runs::at_first))]
pub(crate) fn runs_of(alloc: Global, memory: &Mem) -> Result<Vec<Run>, AllocError>
    ensures { IfOk result (λ v. v.items ≡ runs_of memory.now.memory) }
{
    let mut runs = Vec::new(alloc);
    let mut page = 0;
    'runs: while page < PAGES {
        let end = alike_end(memory, page);
        push_run(&mut runs, memory.perm(page), page, end)?;
        page = end;
    }
    Ok(runs)
}

// Whether some byte of a page is another than the snapshot's.
#[tactic(auto, using(crate::proofs::Changes::tells))]
fn is_changed(memory: &Mem, snapshot: &Mem, page: u32) -> bool
    ensures { result ≡ is_changed memory.now.memory snapshot.now.memory page }
{
    !same_page(page_bytes(memory, page), page_bytes(snapshot, page))
}

// Appends the first address of a page, where it has changed.
fn push_change(
    changed: &mut Vec<u32>,
    memory: &Mem,
    snapshot: &Mem,
    page: u32,
) -> Result<(), AllocError>
    requires { page < pages }
    ensures { OnOk result (changed.new.items ≡ changed.old.items ++ change_at memory.now.memory snapshot.now.memory page) }
{
    if is_changed(memory, snapshot, page) {
        changed.push(PAGE_SIZE * page)?;
    }
    Ok(())
}

/// The first addresses of the pages that have changed since a snapshot, rising. It looks at dirty pages alone.
#[tactic(auto, using(crate::proofs::Changes::at_first, crate::proofs::Changes::one_more, crate::proofs::Changes::at_last))]
pub(crate) fn changed_pages(
    alloc: Global,
    memory: &Mem,
    snapshot: &Mem,
) -> Result<Vec<u32>, AllocError>
    requires { Covers memory.now snapshot.now.memory }
    ensures { IfOk result (λ v. v.items ≡ changed_pages memory.now.memory snapshot.now.memory) }
{
    let mut changed = Vec::new(alloc);
    let mut from = 0;
    'pages: while let Some(page) = memory.next_dirty(from) {
        push_change(&mut changed, memory, snapshot, page)?;
        from = page + 1;
    }
    Ok(changed)
}

// The least page from one on of which one of two memories keeps bytes; all before it are 0 in both.
fn next_kept_in(before: &Mem, after: &Mem, from: u32) -> Option<u32>
    ensures some { IfSome result (IsNextKeptIn before.now.memory after.now.memory from) }
    ensures none { IsNone result → AllZero before.now.memory from pages × AllZero after.now.memory from pages }
{
    match (before.next_kept(from, PAGES), after.next_kept(from, PAGES)) {
        (Some(page), Some(other)) => Some(page.min(other)),
        (Some(page), None) => Some(page),
        (None, other) => other,
    }
}

/// The first addresses of the pages of which a memory has another byte than one before it, rising. It looks at the pages of which either keeps bytes.
#[tactic(auto, using(crate::proofs::Changes::at_first, crate::proofs::Between::one_more, crate::proofs::Between::at_last))]
pub(crate) fn pages_between(
    alloc: Global,
    before: &Mem,
    after: &Mem,
) -> Result<Vec<u32>, AllocError>
    ensures { IfOk result (λ v. v.items ≡ changed_pages after.now.memory before.now.memory) }
{
    let mut changed = Vec::new(alloc);
    let mut from = 0;
    'pages: while let Some(page) = next_kept_in(before, after, from) {
        push_change(&mut changed, after, before, page)?;
        from = page + 1;
    }
    Ok(changed)
}
