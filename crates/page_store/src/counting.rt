// How many pages are kept of several.

ghost use Rattle.std.specs.Prelude.{◌≡◌, ◌+◌, ◌^◌, ◌<◌, ◌≤◌};
ghost use Rattle.page_store.specs.Kept.{kept_in};

use crate::PageRef;

/// 1 where a page is kept.
pub fn count_of(slot: &Option<PageRef>) -> usize
    ensures { result ≡ kept_in slot.now }
{
    match slot {
        Some(_) => 1,
        None => 0,
    }
}

/// How many of several pages are kept, of which so many were, once what is kept of one of them is exchanged.
pub fn count_after(count: usize, was: &Option<PageRef>, now: &Option<PageRef>) -> usize
    requires one { kept_in was.now ≤ count }
    requires few { count + 1 < 2 ^ 64 }
    ensures { result + kept_in was.now ≡ count + kept_in now.now }
{
    count + count_of(now) - count_of(was)
}
