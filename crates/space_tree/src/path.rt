ghost use Rattle.std.specs.Prelude.{◌≡◌, ℕ, ◌-◌, ◌<◌, true, length, slice_index, IfSome, IsNone, OnOk, OnErr};
ghost use Rattle.call_model.specs.Limits.{IsChild, greatest_depth, levels_below};
ghost use Rattle.std.specs.Option.{option_copied};
ghost use Rattle.space_model.specs.Space.{Space, top_of, put_child};
ghost use Rattle.space_model.specs.Path.{at, under, with_top, with_space, is_root, HasParent};
ghost use Rattle.space_model.specs.Sound.{IsSoundTop, IsSoundAt};

use crate::space::Space;
use crate::top::Top;
use arrayvec::ArrayVec;
use std::alloc::{AllocError, Global};
use std::mem;

/// The numbers of the children that lead to a space, from the root on: at most 8, since no space is deeper.
pub type Path = ArrayVec<u16, 8>;

/// The space at a path; none exactly where no space stands there.
pub fn at<'a>(space: &'a Space, path: &Path) -> Option<&'a Space>
    ensures some { IfSome result (λ s. at path.now.items space.now ≡ Some s.now) }
    ensures none { IsNone result → at path.now.items space.now ≡ None }
{
    find(space, path)
}

/// Puts a space at a path, in the place of the one there or as a new child of one that is there. Its one error is want of
/// memory; nothing changes then.
pub fn put_at(alloc: Global, space: &mut Space, path: &Path, new: Space) -> Result<(), AllocError>
    requires { HasParent path.now.items space.old }
    ensures ok { OnOk result (space.new ≡ with_space path.now.items new space.old) }
    ensures err { OnErr result (space.new ≡ space.old) }
    ensures sound { (fuel : ℕ) → IsSoundAt greatest_depth true fuel space.old → IsSoundAt (levels_below (length path.now.items)) (is_root true path.now.items) fuel new → IsSoundAt greatest_depth true fuel space.new }
{
    put(alloc, space, path, new)
}

/// Gives the space at a path another state, and answers the one that it had. It needs no memory.
pub fn swap_top(space: &mut Space, path: &Path, top: Top) -> Top
    requires { (s : Space) × (at path.now.items space.old ≡ Some s) }
    ensures former { IfSome (at path.now.items space.old) (λ s. result ≡ top_of s) }
    ensures swapped { space.new ≡ with_top path.now.items top space.old }
    ensures sound { (fuel : ℕ) → IsSoundAt greatest_depth true fuel space.old → IsSoundTop fuel (is_root true path.now.items) top → IsSoundAt greatest_depth true fuel space.new }
{
    swap(space, path, top)
}

// The space at a path.
fn find<'a>(space: &'a Space, path: &[u16]) -> Option<&'a Space>
    ensures { option_copied result ≡ at path.now space.now }
{
    match path {
        [] => Some(space),
        [number, rest @ ..] => find(space.children.get(*number)?, rest),
    }
}

// Puts a child in the place of the one of its number, or as a new one.
fn put_child(alloc: Global, space: &mut Space, number: u16, child: Space) -> Result<(), AllocError>
    ensures ok { OnOk result (space.new ≡ under (put_child number child) space.old) }
    ensures err { OnErr result (space.new ≡ space.old) }
{
    space.children.insert(alloc, number, child)
}

// Puts a space at a path whose last number names a child of a space that is there.
fn put(alloc: Global, space: &mut Space, path: &[u16], new: Space) -> Result<(), AllocError>
    requires { HasParent path.now space.old }
    ensures ok { OnOk result (space.new ≡ with_space path.now new space.old) }
    ensures err { OnErr result (space.new ≡ space.old) }
    ensures numbers { (k : ℕ) → IsChild (slice_index path.now k) }
{
    match path {
        [] => {
            *space = new;
            Ok(())
        }
        [number] => put_child(alloc, space, *number, new),
        [number, rest @ ..] => match space.children.get_mut(*number) {
            Some(child) => put(alloc, child, rest, new),
            None => Ok(()),
        },
    }
}

// Swaps the top at a path; where no space stands there, the top comes back.
fn swap(space: &mut Space, path: &[u16], top: Top) -> Top
    ensures former { IfSome (at path.now space.old) (λ s. result ≡ top_of s) }
    ensures swapped { space.new ≡ with_top path.now top space.old }
{
    match path {
        [] => mem::replace(&mut space.top, top),
        [number, rest @ ..] => match space.children.get_mut(*number) {
            Some(child) => swap(child, rest, top),
            None => top,
        },
    }
}
