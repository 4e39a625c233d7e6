// The spaces that may run, by the node on which each stands.

ghost use Rattle.std.specs.Prelude.{◌≡◌, ◌≢◌, ℕ, ◌≤◌, ◌<◌, [], length, List, IfOk, IfSome, IsNone, OnOk, slice_set};
ghost use Rattle.node_places.specs.Places.{all_home};
ghost use Rattle.path_set.specs.Paths.{Has, IsFirst, rest_of};
ghost use Rattle.board.specs.Runs.{HasAllLists, HasRun, list_on};

use node_places::Places;
use path_set::PathSet;
use space_tree::Path;
use std::alloc::{AllocError, Global};
use std::marker::Model;

/// On which node each space stands, and for each node the paths of spaces there that may run: all that have to be looked at, and maybe others, since each
/// path is looked at before it is used.
#[derive(Drop)]
pub(crate) struct Runs {
    pub(crate) places: Places,
    pub(crate) lists: Vec<PathSet>,
}

impl Model for Runs {
    ghost use Rattle.std.specs.Prelude.{◌≡◌, length};
    ghost use Rattle.board.specs.Runs.{Runs, coded_runs};

    ghost Value = { Runs };

    ghost coded = { coded_runs };

    ghost view = { λ r. record { places = r.places; lists = r.lists.items } };

    ghost invariant = { λ r. length r.lists.items ≡ r.places.nodes };
}

// So many empty lists.
fn empty_lists(alloc: Global, nodes: u32) -> Result<Vec<PathSet>, AllocError>
    ensures { IfOk result (λ ls. length ls.items ≡ nodes) }
{
    let mut lists = Vec::new(alloc);
    for _ in 0..nodes {
        lists.push(PathSet::new(alloc))?;
    }
    Ok(lists)
}

impl Runs {
    /// So many nodes, at least 1, all spaces at home, and nothing listed. The one error is want of memory.
    pub(crate) fn new(alloc: Global, nodes: u32) -> Result<Runs, AllocError>
        requires { 1 ≤ nodes }
        ensures { IfOk result (λ r. r.places ≡ all_home nodes) }
    {
        Ok(Runs {
            places: Places::new(alloc, nodes),
            lists: empty_lists(alloc, nodes)?,
        })
    }

    /// Lists a path for a node. The one error is want of memory.
    pub(crate) fn list_on(&mut self, path: &Path, node: u32) -> Result<(), AllocError>
        requires { node < self.old.places.nodes }
        ensures places { self.new.places ≡ self.old.places }
        ensures all { HasAllLists self.new self.old }
        ensures there { OnOk result (Has (list_on self.new node) path.now.items) }
    {
        self.lists[node as usize].insert(path.clone()?)
    }

    /// Lists a path for the node on which its space stands. The one error is want of memory.
    pub(crate) fn list(&mut self, path: &Path) -> Result<(), AllocError>
        ensures places { self.new.places ≡ self.old.places }
        ensures all { HasAllLists self.new self.old }
        ensures there { OnOk result (HasRun self.new path.now.items) }
    {
        let node = self.places.place(path);
        self.list_on(path, node)
    }

    /// The first path that is listed for a node.
    pub(crate) fn first_on(&self, node: u32) -> Option<&Path>
        requires { node < self.now.places.nodes }
        ensures some { IfSome result (λ p. IsFirst p.now.items (list_on self.now node)) }
        ensures none { IsNone result → list_on self.now node ≡ [] }
    {
        self.lists[node as usize].first()
    }

    /// Takes the first path that is listed for a node out of its list.
    pub(crate) fn drop_first_on(&mut self, node: u32)
        requires { node < self.old.places.nodes }
        ensures { self.new ≡ record self.old { lists = slice_set self.old.lists node (rest_of (list_on self.old node)) } }
    {
        self.lists[node as usize].pop_first();
    }

    /// Takes a path out of the list of the node on which its space stands.
    pub(crate) fn remove(&mut self, path: &Path)
        ensures places { self.new.places ≡ self.old.places }
        ensures others { (p : List ℕ) → p ≢ path.now.items → HasRun self.old p → HasRun self.new p }
    {
        let node = self.places.place(path);
        self.lists[node as usize].remove(path);
    }
}
