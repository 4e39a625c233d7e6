ghost use Rattle.std.specs.Prelude.{◌≡◌, ◌+◌, ◌-◌, ◌<◌, ◌≤◌, Some, slice_get, IfOk, OnOk, length};
ghost use Rattle.space_model.specs.Sound.{IsSound};
ghost use Rattle.board.specs.Listed.{HasAll, HasEnabled, HasEnabledBelow, IsSoundSomewhere};
ghost use Rattle.path_set.specs.Paths.{Has};
ghost use Rattle.board.specs.Runs.{HasAllLists, HasRun};
ghost use Rattle.board.specs.Value.{begun};

use crate::board::Board;
use crate::boot::Boot;
use crate::counts::Counts;
use crate::listing::{child_path, list};
use crate::lists::Lists;
use crate::runs::Runs;
use node_store::Nodes;
use path_set::PathSet;
use slab::Slab;
use space_step::DecodeCache;
use space_tree::{Path, Space, copy_tree};
use std::alloc::{AllocError, Global};

// The number at a place of a list.
fn number_at(numbers: &[u16], index: usize) -> u16
    requires { index < length numbers.now }
    ensures { slice_get numbers.now index ≡ Some result }
{
    numbers[index]
}

// Lists the paths of a space, which stands at a path, and of all below it, so many levels at most, that may have an event.
#[cycle(all)]
fn list_all(
    alloc: Global,
    run: &mut Runs,
    calls: &mut PathSet,
    space: &Space,
    path: &Path,
    levels: u8,
) -> Result<(), AllocError>
    requires sound { IsSoundSomewhere levels space.now }
    requires deep { length path.now.items + levels ≡ 8 }
    ensures places { run.new.places ≡ run.old.places }
    ensures run { HasAllLists run.new run.old }
    ensures calls { HasAll (Has calls.new) (Has calls.old) }
    ensures all { OnOk result (HasEnabled (HasRun run.new) path.now.items levels space.now × HasEnabled (Has calls.new) path.now.items levels space.now) }
{
    list(run, calls, path)?;
    let numbers = space.children.numbers(alloc)?;
    for index in 0..numbers.len() {
        let number = number_at(&numbers, index);
        list_child(alloc, run, calls, space, path, levels, number)?;
    }
    Ok(())
}

// As `list_all`, of the child of that number, where there is one.
#[cycle(all)]
fn list_child(
    alloc: Global,
    run: &mut Runs,
    calls: &mut PathSet,
    space: &Space,
    path: &Path,
    levels: u8,
    number: u16,
) -> Result<(), AllocError>
    requires sound { IsSoundSomewhere levels space.now }
    requires deep { length path.now.items + levels ≡ 8 }
    ensures places { run.new.places ≡ run.old.places }
    ensures run { HasAllLists run.new run.old }
    ensures calls { HasAll (Has calls.new) (Has calls.old) }
    ensures child { OnOk result (HasEnabledBelow (HasRun run.new) path.now.items levels number space.now × HasEnabledBelow (Has calls.new) path.now.items levels number space.now) }
{
    let Some(child) = space.children.get(number) else {
        return Ok(());
    };
    let below = child_path(path, number)?;
    list_all(alloc, run, calls, child, &below, levels - 1)
}

// A board over a sound tree, on these nodes.
fn begin_on(alloc: Global, mut space: Space, pages: Nodes, nodes: u32) -> Result<Board, AllocError>
    requires sound { IsSound space }
    requires nodes { (1 ≤ nodes) × (nodes ≤ 64) }
    requires pages { length pages.lists ≡ nodes }
    ensures { IfOk result (λ b. b ≡ begun space nodes) }
{
    let mut run = Runs::new(alloc, nodes)?;
    let mut calls = PathSet::new(alloc);
    list_all(alloc, &mut run, &mut calls, &space, &Path::new(), 8)?;
    let cache = DecodeCache::new(alloc)?;
    Ok(Board {
        alloc,
        boot: Boot::of(copy_tree(alloc, &mut space)?),
        tree: space,
        history: Vec::new(alloc),
        out: Slab::new(alloc),
        counts: Counts {
            next_ticket: 0,
            taken: 0,
            owed: 0,
        },
        lists: Lists {
            at_work: PathSet::new(alloc),
            run,
            calls,
            news: Vec::new(alloc),
            pages,
            cache,
        },
    })
}

impl Board {
    /// A board over a sound tree, which is the tree that it begins with and the tree that it has, on so many nodes, 1 to 64: each space stands at home, no job is
    /// out, and nothing has happened. The one error is want of memory.
    pub fn begin(alloc: Global, space: Space, nodes: u32) -> Result<Board, AllocError>
        requires sound { IsSound space }
        requires nodes { (1 ≤ nodes) × (nodes ≤ 64) }
        ensures { IfOk result (λ b. b ≡ begun space nodes) }
    {
        let pages = Nodes::new(alloc, nodes)?;
        begin_on(alloc, space, pages, nodes)
    }

    /// As `begin`, on nodes between which parcels go over links that lose, repeat and reorder, as rows of numbers decide that all begin with one seed.
    pub fn begin_linked(
        alloc: Global,
        space: Space,
        nodes: u32,
        seed: u32,
    ) -> Result<Board, AllocError>
        requires sound { IsSound space }
        requires nodes { (1 ≤ nodes) × (nodes ≤ 64) }
        ensures { IfOk result (λ b. b ≡ begun space nodes) }
    {
        let pages = Nodes::linked(alloc, nodes, seed)?;
        begin_on(alloc, space, pages, nodes)
    }
}
