ghost use Rattle.std.specs.Prelude.{◌≡◌, ◌<◌, length, OnOk, OnErr};
ghost use Rattle.node_store.specs.Lists.{with_both};

use node_parcel::{ResidentPage, Residents};
use std::alloc::{AllocError, Global};

/// Adds pages to the lists of both ends, for each list those for which there is room and which are not there yet. The one error is want of
/// memory: nothing has changed then.
pub(crate) fn add_to_both(
    alloc: Global,
    lists: &mut [Residents],
    from: usize,
    to: usize,
    pages: &[ResidentPage],
) -> Result<(), AllocError>
    requires from { from < length lists.old }
    requires to { to < length lists.old }
    ensures ok { OnOk result (lists.new ≡ with_both lists.old from to pages.now) }
    ensures err { OnErr result (lists.new ≡ lists.old) }
{
    let count = lists[to].len();
    lists[to].add_all(alloc, pages)?;
    if from == to {
        return Ok(());
    }
    let added = lists[from].add_all(alloc, pages);
    if added.is_err() {
        lists[to].truncate(count);
    }
    added
}
