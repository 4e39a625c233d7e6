ghost use Rattle.std.specs.Prelude.{◌≡◌, ◌≤◌, min, IfSome, IsNone, Some, None, Option};
ghost use Rattle.memory_model.specs.Sizes.{pages};
ghost use Rattle.space_mem.specs.Held.{Covers, IsClean};
ghost use Rattle.snapshot.specs.Pages.{ArePassed, IsNextToMerge, SameBytes};

use crate::cursor::Cursor;

// The next page from one to before another that a merge has to look at: one that is dirty in the child, and of which the child or the snapshot
// keeps bytes. Other pages have the same bytes in both. Behind a page of which neither keeps bytes, dirty pages up to the next one that either
// keeps are passed over at once. No page beside is looked at, but to find that none is dirty.
pub fn next_page(child: &mut Cursor, snapshot: &mut Cursor, from: u32, end: u32) -> Option<u32>
    requires covers { Covers child.old snapshot.old.memory }
    requires within { end ≤ pages }
    ensures some { IfSome result (IsNextToMerge child.old.memory snapshot.old.memory from end) }
    ensures dirty { IfSome result (λ page. IsClean child.old page → ⊥) }
    ensures passed { IfSome result (ArePassed child.old from) }
    ensures all_passed { IsNone result → ArePassed child.old from end }
    ensures none { IsNone result → SameBytes child.old.memory snapshot.old.memory from end }
    ensures same_child { child.new ≡ child.old }
    ensures same_snapshot { snapshot.new ≡ snapshot.old }
{
    let mut at = from;
    while let Some(dirty) = child.next_dirty(at) {
        if dirty >= end {
            return None;
        }
        if child.keeps(dirty) || snapshot.keeps(dirty) {
            return Some(dirty);
        }
        at = child
            .next_kept(dirty + 1, end)
            .min(snapshot.next_kept(dirty + 1, end));
    }
    None
}
