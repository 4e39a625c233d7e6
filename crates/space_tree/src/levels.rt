ghost use Rattle.std.specs.Prelude.{◌≡◌, min};
ghost use Rattle.space_model.specs.Space.{height, levels_of};
ghost use Rattle.space_tree.specs.Kept.{children_in};

use crate::children::Children;
use crate::space::Space;
use std::collections::BTreeMap;

/// How many levels of children there are below a space: 0 where it has none, at most 8 in a sound tree, 255 where there are more.
#[cycle(height)]
pub fn height(space: &Space) -> u8
    ensures { result ≡ min (height space.now) 255 }
{
    levels(&space.children)
}

// How many levels these children make, with all below them: as it is kept, or else by looking.
#[cycle(height)]
fn levels(children: &Children) -> u8
    ensures { result ≡ min (levels_of children.now) 255 }
{
    match children.levels {
        Some(levels) => levels,
        None => levels_of_each(&children.entries),
    }
}

// How many levels each of these children makes, the most of them.
#[tactic(auto, using(crate::proofs::Heights::most_levels_values, crate::proofs::Heights::one_more))]
#[cycle(height)]
fn levels_of_each(entries: &BTreeMap<u16, Box<Space>>) -> u8
    ensures { result ≡ min (levels_of (children_in entries.now.entries)) 255 }
{
    let mut most: u8 = 0;
    for child in entries.values() {
        most = most.max(height(child).saturating_add(1));
    }
    most
}
