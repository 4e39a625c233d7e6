ghost use Rattle.std.specs.Prelude.{◌≡◌, IfOk, option_map, option_and_then};
ghost use Rattle.space_model.specs.Space.{find, top_of};
ghost use Rattle.space_model.specs.Path.{at};
ghost use Rattle.space_tree.specs.Kept.{children_in, unboxed};

use crate::copying::copy_top;
use crate::path::Path;
use crate::space::Space;
use crate::top::Top;
use std::alloc::AllocError;
use std::collections::BTreeMap;

/// An equal copy of the state of the space at a path, whose memories no later write to the tree changes; none exactly where no space stands
/// there. The tree is as it was, and as much is known of its children: nothing in it moves, and the copy shares its pages. The one error is
/// want of memory.
pub fn copy_top_at(space: &mut Space, path: &Path) -> Result<Option<Top>, AllocError>
    ensures equal { IfOk result (λ copy. copy ≡ option_map top_of (at path.now.items space.old)) }
    ensures same { space.new ≡ space.old }
{
    copy_at(space, path)
}

// A copy of the state at a path.
#[cycle(copy_at)]
fn copy_at(space: &mut Space, path: &[u16]) -> Result<Option<Top>, AllocError>
    ensures equal { IfOk result (λ copy. copy ≡ option_map top_of (at path.now space.old)) }
    ensures same { space.new ≡ space.old }
{
    match path {
        [] => Ok(Some(copy_top(&mut space.top)?)),
        [number, rest @ ..] => copy_below(&mut space.children.entries, *number, rest),
    }
}

// A copy of the state at the rest of a path, in the child of that number.
#[cycle(copy_at)]
fn copy_below(
    entries: &mut BTreeMap<u16, Box<Space>>,
    number: u16,
    rest: &[u16],
) -> Result<Option<Top>, AllocError>
    ensures equal { IfOk result (λ copy. copy ≡ option_map top_of (option_and_then (at rest.now) (find number (children_in entries.old.entries)))) }
    ensures same { unboxed entries.new.entries ≡ unboxed entries.old.entries }
{
    match entries.get_mut(&number) {
        Some(child) => copy_at(child, rest),
        None => Ok(None),
    }
}
