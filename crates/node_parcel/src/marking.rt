ghost use Rattle.std.specs.Prelude.{◌≡◌, ◌↔◌, ℕ, ◌<◌, ◌≤◌, false, IfSome, IsNone, IsTrue, OnOk};
ghost use Rattle.memory_model.specs.Sizes.{pages};
ghost use Rattle.space_mem.specs.Held.{AllZero, Covers, CoversIn, IsClean, SamePage};
ghost use Rattle.node_parcel.specs.OneNumber.{held_in, AreAlike, AreAlikeIn};

use crate::runs::Placed;
use crate::spans::{Span, past, same_end};
use memory_model::PAGES;
use space_mem::Mem;
use std::alloc::AllocError;

// The least page from one on of which one of two memories keeps bytes; where there is none, all of both are 0 from there on.
fn next_kept(memory: &Mem, snapshot: &Mem, from: u32) -> Option<u32>
    ensures above { IfSome result (λ page. from ≤ page) }
    ensures below { IfSome result (λ page. page < pages) }
    ensures zero { IfSome result (λ page. AllZero memory.now.memory from page × AllZero snapshot.now.memory from page) }
    ensures none { IsNone result → AllZero memory.now.memory from pages × AllZero snapshot.now.memory from pages }
{
    let Some(page) = memory.next_kept(from, PAGES) else {
        return snapshot.next_kept(from, PAGES);
    };
    match snapshot.next_kept(from, page) {
        Some(before) => Some(before),
        None => Some(page),
    }
}

// Whether two memories have the same bytes in a page.
fn has_same_bytes(memory: &Mem, snapshot: &Mem, page: u32) -> bool
    ensures { IsTrue result ↔ SamePage memory.now.memory snapshot.now.memory page }
{
    match memory.page(page) {
        Some(bytes) => match snapshot.page(page) {
            Some(other) => bytes.has_bytes_of(other),
            None => bytes.is_zero(),
        },
        None => match snapshot.page(page) {
            Some(other) => other.is_zero(),
            None => true,
        },
    }
}

// Whether two memories differ in a page; before `end` they are known not to, and no byte is looked at.
fn differ(memory: &Mem, snapshot: &Mem, page: u32, end: u32) -> bool
    requires { page < end → SamePage memory.now.memory snapshot.now.memory page }
    ensures differs { IsTrue result → SamePage memory.now.memory snapshot.now.memory page → ⊥ }
    ensures same { result ≡ false → SamePage memory.now.memory snapshot.now.memory page }
    ensures here { IsTrue result → end ≤ page }
{
    if page < end {
        return false;
    }
    !has_same_bytes(memory, snapshot, page)
}

// Marks exactly the pages in which a memory differs from its snapshot; no page of it is owned then. Where the spans tell that pages of both
// have one number, they are passed at once. The one error is want of memory.
fn mark_differences(
    memory: &mut Mem,
    ours: &[Span],
    snapshot: &Mem,
    theirs: &[Span],
) -> Result<(), AllocError>
    requires { AreAlike memory.old.memory snapshot.now.memory ours.now theirs.now }
    ensures same { OnOk result (memory.new.memory ≡ memory.old.memory) }
    ensures covers { OnOk result (Covers memory.new snapshot.now.memory) }
    ensures exact { OnOk result ((page : ℕ) → page < pages → SamePage memory.new.memory snapshot.now.memory page → IsClean memory.new page) }
{
    memory.freeze()?;
    memory.clean();
    let mut from = 0;
    let mut our = 0;
    let mut their = 0;
    while let Some(page) = next_kept(memory, snapshot, from) {
        our = past(ours, our, page);
        their = past(theirs, their, page);
        let end = same_end(ours, our, theirs, their, page);
        if differ(memory, snapshot, page, end) {
            memory.mark(page)?;
        }
        from = end.max(page + 1);
    }
    Ok(())
}

/// Marks exactly the pages in which a memory differs from its snapshot, where there is one. The one error is want of memory.
pub(crate) fn mark(
    memory: &mut Mem,
    spans: &[Span],
    snapshot: &Option<Placed>,
) -> Result<(), AllocError>
    requires { AreAlikeIn memory.old.memory spans.now snapshot.now }
    ensures same { OnOk result (memory.new.memory ≡ memory.old.memory) }
    ensures covers { OnOk result (CoversIn memory.new (held_in snapshot.now)) }
{
    match snapshot {
        Some(snapshot) => mark_differences(memory, spans, &snapshot.memory, &snapshot.spans),
        None => Ok(()),
    }
}
