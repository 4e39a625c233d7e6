// A caller and the children that its call awaits are brought together, before they meet.

ghost use Rattle.std.specs.Prelude.{◌≡◌, ◌≢◌, ◌⊎◌, ◌∷◌, ◌++◌, [], ℕ, ◌<◌, List, length, IfOk, OnOk};
ghost use Rattle.call_model.specs.Limits.{greatest_depth};
ghost use Rattle.det_core.specs.Legal.{replaced};
ghost use Rattle.node_places.specs.Places.{place_of, home};
ghost use Rattle.path_set.specs.Paths.{Has};
ghost use Rattle.space_model.specs.Meeting.{awaits};
ghost use Rattle.board.specs.Gathering.{AreAway, IsReplaced, MeetsOn};
ghost use Rattle.board.specs.Listed.{HasAll, HasAwaited, HasWay};
ghost use Rattle.board.specs.Runs.{HasAllLists, HasAtHome, HasRun, list_on};

use crate::listing::{list_awaited, list_way, path_below};
use crate::lists::Lists;
use crate::moving::send;
use call_model::Call;
use node_places::Places;
use node_store::Nodes;
use path_set::PathSet;
use space_step::AcceptedCall;
use space_tree::{Path, Space};
use std::alloc::{AllocError, Global};
use trap_ret::{Awaited, awaits};

/// What was brought together for a call: the node on which it meets its children, those of them that came home for it, and where it puts a copy or takes a
/// space away.
#[derive(Drop)]
pub(crate) struct Gathered {
    pub(crate) node: u32,
    pub(crate) away: PathSet,
    pub(crate) replaced: Option<Path>,
}

// The node on which the space at a path meets the children that its call awaits.
fn node_to_meet(places: &Places, path: &Path, all: &Awaited) -> u32
    ensures on { MeetsOn places.now path.now.items all.now result }
    ensures below { result < places.now.nodes }
{
    if all.len() == 0 {
        return places.place(path);
    }
    places.home_of(all.get(0).number)
}

// A child of the space at a path, where it does not stand at home, goes home as a parcel, and is one of those that are away.
fn send_child_home(
    pages: &mut Nodes,
    tree: &mut Space,
    away: &mut PathSet,
    places: &Places,
    path: &Path,
    number: u16,
) -> Result<(), AllocError>
    requires nodes { length pages.old.lists ≡ places.now.nodes }
    ensures same { tree.new ≡ tree.old }
    ensures nodes { length pages.new.lists ≡ length pages.old.lists }
    ensures more { HasAll (Has away.new) (Has away.old) }
    ensures only { (q : List ℕ) → Has away.new q → Has away.old q ⊎ ((q ≡ path.now.items ++ number ∷ []) × (place_of places.now q ≢ home places.now.nodes q)) }
    ensures there { OnOk result ((length path.now.items < greatest_depth → place_of places.now (path.now.items ++ number ∷ []) ≡ home places.now.nodes (path.now.items ++ number ∷ [])) ⊎ Has away.new (path.now.items ++ number ∷ [])) }
{
    let Some(child) = path_below(path, number)? else {
        return Ok(());
    };
    let from = places.place(&child);
    let to = places.home(&child);
    if from == to {
        return Ok(());
    }
    send(pages, tree, &child, from, to)?;
    away.insert(child)
}

// Those of the awaited children that do not stand at home: they have gone home as parcels.
fn send_home(
    alloc: Global,
    pages: &mut Nodes,
    tree: &mut Space,
    places: &Places,
    path: &Path,
    all: &Awaited,
) -> Result<PathSet, AllocError>
    requires nodes { length pages.old.lists ≡ places.now.nodes }
    ensures same { tree.new ≡ tree.old }
    ensures nodes { length pages.new.lists ≡ length pages.old.lists }
    ensures away { IfOk result (λ away. AreAway places.now path.now.items all.now away) }
{
    let mut away = PathSet::new(alloc);
    for index in 0..all.len() {
        let awaited = all.get(index);
        send_child_home(pages, tree, &mut away, places, path, awaited.number)?;
    }
    Ok(away)
}

// The path of a child's child.
fn path_two_below(path: &Path, child: u16, number: u16) -> Result<Option<Path>, AllocError>
    ensures { IfOk result (λ o. IsReplaced path.now.items (Some (child ∷ number ∷ [])) o) }
{
    let Some(below) = path_below(path, child)? else {
        return Ok(None);
    };
    path_below(&below, number)
}

// Where the call of the space at a path puts a copy, or takes a space away.
fn replaced_by(path: &Path, call: Call) -> Result<Option<Path>, AllocError>
    ensures { IfOk result (λ o. IsReplaced path.now.items (replaced call) o) }
{
    match call {
        Call::PutTree { child, to, .. } => path_two_below(path, child, to),
        Call::GetTree { to, .. } => path_below(path, to),
        Call::Wait { child } => path_below(path, child),
        _ => Ok(None),
    }
}

/// Brings a caller and the children that its call awaits together, as parcels, and lists where something may happen once they have met. The tree and the places
/// are as they were. The one error is want of memory.
pub(crate) fn gather(
    alloc: Global,
    lists: &mut Lists,
    tree: &mut Space,
    path: &Path,
    call: AcceptedCall,
) -> Result<Gathered, AllocError>
    requires nodes { length lists.old.pages.lists ≡ lists.old.run.places.nodes }
    ensures tree { tree.new ≡ tree.old }
    ensures pages { length lists.new.pages.lists ≡ length lists.old.pages.lists }
    ensures places { lists.new.run.places ≡ lists.old.run.places }
    ensures work { lists.new.at_work ≡ lists.old.at_work }
    ensures news { lists.new.news ≡ lists.old.news }
    ensures run { HasAllLists lists.new.run lists.old.run }
    ensures calls { HasAll (Has lists.new.calls) (Has lists.old.calls) }
    ensures node { IfOk result (λ g. (g.node < lists.old.run.places.nodes) × MeetsOn lists.old.run.places path.now.items (awaits call) g.node) }
    ensures away { IfOk result (λ g. AreAway lists.old.run.places path.now.items (awaits call) g.away) }
    ensures replaced { IfOk result (λ g. IsReplaced path.now.items (replaced call) g.replaced) }
    ensures here { IfOk result (λ g. Has (list_on lists.new.run g.node) path.now.items) }
    ensures way { OnOk result (HasWay (HasRun lists.new.run) path.now.items × HasWay (Has lists.new.calls) path.now.items) }
    ensures awaited { OnOk result (HasAwaited (HasAtHome lists.new.run) (awaits call) path.now.items × HasAwaited (Has lists.new.calls) (awaits call) path.now.items) }
{
    list_way(&mut lists.run, &mut lists.calls, path)?;
    list_awaited(&mut lists.run, &mut lists.calls, path, call)?;
    let all = awaits(call);
    let pages = &mut lists.pages;
    let run = &mut lists.run;
    let node = node_to_meet(&run.places, path, &all);
    run.list_on(path, node)?;
    let away = send_home(alloc, pages, tree, &run.places, path, &all)?;
    let from = run.places.place(path);
    send(pages, tree, path, from, node)?;
    Ok(Gathered {
        node,
        away,
        replaced: replaced_by(path, call.call())?,
    })
}
