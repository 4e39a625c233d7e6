ghost use Rattle.std.specs.Prelude.{◌≡◌, ◌++◌, [], IfOk, OnOk, length, map};
ghost use Rattle.call_model.specs.Limits.{levels_below};
ghost use Rattle.space_model.specs.Sound.{IsSound};
ghost use Rattle.demand_eval.specs.Turns.{IsSoundBelow};
ghost use Rattle.explain_why.specs.Parts.{paths_from};

use space_tree::{Path, Space};
use std::alloc::{AllocError, Global};

/// A path that is equal.
pub(crate) fn copy_path(path: &Path) -> Result<Path, AllocError>
    ensures { IfOk result (λ p. p.items ≡ path.now.items) }
{
    path.clone()
}

// Adds the paths of a space and of all below it.
fn push_paths(path: &Path, space: &Space, paths: &mut Vec<Path>) -> Result<(), AllocError>
    requires { IsSoundBelow (levels_below (length path.now.items)) space.now }
    ensures { OnOk result (map (λ p. p.items) paths.new.items ≡ map (λ p. p.items) paths.old.items ++ paths_from path.now.items space.now) }
{
    paths.push(copy_path(path)?)?;
    for (number, child) in space.children.entries() {
        let mut below = copy_path(path)?;
        below.push(*number);
        push_paths(&below, child, paths)?;
    }
    Ok(())
}

/// The paths of all spaces of a tree, a parent before its children, and children by rising number.
pub(crate) fn paths_of(alloc: Global, tree: &Space) -> Result<Vec<Path>, AllocError>
    requires { IsSound tree.now }
    ensures { IfOk result (λ paths. map (λ p. p.items) paths.items ≡ paths_from [] tree.now) }
{
    let mut paths = Vec::new(alloc);
    push_paths(&Path::new(), tree, &mut paths)?;
    Ok(paths)
}
