ghost use Rattle.std.specs.Prelude.{◌≡◌, ◌+◌, ◌≤◌, ◌++◌, ◌∷◌, [], length, suc, IfOk};
ghost use Rattle.call_model.specs.Limits.{greatest_depth};
ghost use Rattle.explain_core.specs.WatchList.{entry_at, from_above, itself, watched_at, watched_from};

use crate::going::copied;
use crate::watching::Watched;
use space_tree::Path;
use std::alloc::{AllocError, Global};
use std::collections::BTreeMap;

/// What is watched in a run: a byte of the space at a path and of all below it, a register of the space at a path alone. Of a path one thing is watched at most: what is asked first
/// from the root on.
#[derive(Drop)]
pub struct WatchList {
    pub(crate) wanted: BTreeMap<Path, Watched>,
}

impl WatchList {
    /// Nothing is watched yet.
    pub fn new(alloc: Global) -> WatchList {
        WatchList {
            wanted: BTreeMap::new(alloc),
        }
    }

    /// Watches this at a path, and says whether it does: not where something else is watched there. Of two paths, one on the way to the other, the shorter comes first.
    pub fn add(&mut self, path: &Path, watched: Watched) -> Result<bool, AllocError> {
        if watched_at(self, path)? != Watched::Register(0) || self.wanted.contains_key(path) {
            return Ok(false);
        }
        self.wanted.insert(copied(path)?, watched)?;
        Ok(true)
    }
}

// What is watched at a path because of an entry there.
fn entry_at(list: &WatchList, path: &Path) -> Option<Watched>
    ensures { result ≡ entry_at list.now.wanted.entries path.now.items }
{
    match list.wanted.get(path) {
        Some(watched) => Some(*watched),
        None => None,
    }
}

// What is watched of a space for its own sake; x0, which stays 0, where nothing is.
fn itself(here: Option<Watched>) -> Watched
    ensures { result ≡ itself here }
{
    match here {
        Some(watched) => watched,
        None => Watched::Register(0),
    }
}

// What is watched of a space, by the path of one above it, what is watched there, and the rest of its own path.
#[cycle(watched_from)]
fn watched_below(
    list: &WatchList,
    above: &Path,
    here: Option<Watched>,
    number: u16,
    rest: &[u16],
) -> Result<Watched, AllocError>
    requires { suc (length above.now.items + length rest.now) ≤ greatest_depth }
    ensures { IfOk result (λ w. w ≡ from_above here (watched_from list.now.wanted.entries (above.now.items ++ number ∷ []) rest.now)) }
{
    match here {
        Some(Watched::Byte(address)) => Ok(Watched::Byte(address)),
        Some(Watched::Register(_)) | None => {
            let mut there = copied(above)?;
            there.push(number);
            watched_from(list, &there, rest)
        }
    }
}

// What is watched of a space, by the path of one above it and the rest of its own.
#[cycle(watched_from)]
fn watched_from(list: &WatchList, above: &Path, rest: &[u16]) -> Result<Watched, AllocError>
    requires { length above.now.items + length rest.now ≤ greatest_depth }
    ensures { IfOk result (λ w. w ≡ watched_from list.now.wanted.entries above.now.items rest.now) }
{
    let here = entry_at(list, above);
    match rest {
        [] => Ok(itself(here)),
        [number, below @ ..] => watched_below(list, above, here, *number, below),
    }
}

/// What is watched of the space at a path.
pub(crate) fn watched_at(list: &WatchList, path: &Path) -> Result<Watched, AllocError>
    ensures { IfOk result (λ w. w ≡ watched_at list.now.wanted.entries path.now.items) }
{
    watched_from(list, &Path::new(), path.as_slice())
}
