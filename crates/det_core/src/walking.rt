ghost use Rattle.std.specs.Prelude.{◌≡◌, IfOk};
ghost use Rattle.call_model.specs.Limits.{greatest_depth};
ghost use Rattle.space_model.specs.Sound.{IsSound};
ghost use Rattle.run_model.specs.Replay.{replay};
ghost use Rattle.det_core.specs.View.{path_views};

use crate::stepping::step;
use space_step::DecodeCache;
use space_tree::{Path, Space};
use std::alloc::{AllocError, Global};

/// Goes through a schedule: the event at each path, one after the other, where it may happen; where it may not, nothing changes. Its
/// one error is want of memory.
pub fn walk(alloc: Global, mut space: Space, paths: &[Path]) -> Result<Space, AllocError>
    ensures value { IfOk result (λ s. s ≡ replay (path_views paths.now) greatest_depth space) }
    ensures sound { IsSound space → IfOk result IsSound }
{
    let mut cache = match DecodeCache::new(alloc) {
        Ok(cache) => cache,
        Err(error) => {
            drop(space);
            return Err(error);
        }
    };
    for path in paths {
        if let Err(error) = step(alloc, &mut cache, &mut space, path) {
            drop(cache);
            drop(space);
            return Err(error);
        }
    }
    drop(cache);
    Ok(space)
}
