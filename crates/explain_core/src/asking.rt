ghost use Rattle.std.specs.Prelude.{◌≡◌, ◌-◌, ◌≤◌, None, IfOk, IfSome, IsNone};
ghost use Rattle.space_model.specs.Path.{at};
ghost use Rattle.space_model.specs.Sound.{IsSound};
ghost use Rattle.run_model.specs.Demand.{settle_tree};
ghost use Rattle.explain_core.specs.Reached.{NeverHappens, ShowsEvent, ShowsSpace};

use crate::bytes::Bytes;
use crate::going::run_to;
use crate::showing::{show_end, show_event};
use demand_eval::settle;
use space_tree::{Path, Space, at};
use std::alloc::{AllocError, Global};

/// What is shown of the space at a path just behind its own event of this number, from 1 on: the text of its top there, with the bytes that are wanted, which is one
/// and the same in every schedule that has this event. None exactly where no schedule has it. The one error is want of memory.
pub fn after_event(
    alloc: Global,
    tree: Space,
    path: &Path,
    number: u64,
    bytes: Option<Bytes>,
) -> Result<Option<Vec<u8>>, AllocError>
    requires sound { IsSound tree }
    requires number { 1 ≤ number }
    ensures some { IfOk result (λ o. IfSome o (λ v. ShowsEvent bytes tree path.now.items (number - 1) v.items)) }
    ensures none { IfOk result (λ o. IsNone o → NeverHappens tree path.now.items (number - 1)) }
{
    let mut tree = tree;
    let happened = run_to(alloc, &mut tree, path, number)?;
    if !happened {
        return Ok(None);
    }
    match at(&tree, path) {
        Some(space) => Ok(Some(show_event(alloc, path, number, &space.top, bytes)?)),
        None => Ok(None),
    }
}

/// What is shown of the space at a path when no space of the tree runs any more, with the bytes that are wanted. None exactly where no space stands there then. The one
/// error is want of memory.
pub fn at_end(
    alloc: Global,
    tree: Space,
    path: &Path,
    bytes: Option<Bytes>,
) -> Result<Option<Vec<u8>>, AllocError>
    requires { IsSound tree }
    ensures some { IfOk result (λ o. IfSome o (λ v. ShowsSpace bytes path.now.items (settle_tree tree) v.items)) }
    ensures none { IfOk result (λ o. IsNone o → at path.now.items (settle_tree tree) ≡ None) }
{
    let settled = settle(alloc, tree)?;
    match at(&settled, path) {
        Some(space) => Ok(Some(show_end(alloc, path, space, bytes)?)),
        None => Ok(None),
    }
}
