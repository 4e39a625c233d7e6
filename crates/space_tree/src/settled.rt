ghost use Rattle.std.specs.Prelude.{◌≡◌};
ghost use Rattle.space_model.specs.Stop.{is_stopped};
ghost use Rattle.space_model.specs.Space.{top_of, is_settled, are_settled};
ghost use Rattle.space_tree.specs.Kept.{children_in};

use crate::children::Children;
use crate::space::Space;
use std::collections::BTreeMap;

/// Whether the space itself has stopped.
pub fn is_stopped(space: &Space) -> bool
    ensures { result ≡ is_stopped (top_of space.now).status }
{
    space.top.is_stopped()
}

/// Whether the space has stopped, and every space below it.
#[cycle(settled)]
pub fn is_settled(space: &Space) -> bool
    ensures { result ≡ is_settled space.now }
{
    space.top.is_stopped() && are_settled(&space.children)
}

// Whether no child runs, nor a space below it: as it is kept, or else by looking.
#[cycle(settled)]
pub(crate) fn are_settled(children: &Children) -> bool
    ensures { result ≡ are_settled children.now }
{
    children.settled || each_settled(&children.entries)
}

// Whether each of these children has settled.
#[tactic(auto, using(crate::proofs::Values::all_settled_values))]
#[cycle(settled)]
fn each_settled(entries: &BTreeMap<u16, Box<Space>>) -> bool
    ensures { result ≡ are_settled (children_in entries.now.entries) }
{
    for child in entries.values() {
        if !is_settled(child) {
            return false;
        }
    }
    true
}
