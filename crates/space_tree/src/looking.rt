ghost use Rattle.std.specs.Prelude.{◌≡◌, true, false, option_map};
ghost use Rattle.space_model.specs.Space.{find, is_settled, are_settled};
ghost use Rattle.space_tree.specs.Kept.{children_in, unboxed};

use crate::children::Children;
use crate::settled::are_settled;
use crate::space::Space;
use std::collections::BTreeMap;

/// Whether the child of that number has settled, with all below it; none where it is missing. What was found is kept, so that the next
/// look takes a step for each level, until a space below is handed out to be changed.
pub fn look_at_child(children: &mut Children, number: u16) -> Option<bool>
    ensures settled { result ≡ option_map is_settled (find number children.old) }
    ensures same { children.new ≡ children.old }
{
    look_at_entry(&mut children.entries, number)
}

// The number of the first child from this one on of which it is not known that it has settled.
fn next_unknown(entries: &BTreeMap<u16, Box<Space>>, from: u16) -> Option<u16> {
    for (number, child) in entries.range(from..) {
        if !child.is_known_settled() {
            return Some(*number);
        }
    }
    None
}

// The number of a child of which it is not known that it has settled: the next one from where it was looked last, else the first.
fn next_to_look_at(children: &Children) -> Option<u16> {
    match next_unknown(&children.entries, children.looked) {
        Some(number) => Some(number),
        None => next_unknown(&children.entries, 0),
    }
}

// Whether the child of that number has settled, with all below it.
#[cycle(look)]
fn look_at_entry(entries: &mut BTreeMap<u16, Box<Space>>, number: u16) -> Option<bool>
    ensures settled { result ≡ option_map is_settled (find number (children_in entries.old.entries)) }
    ensures same { unboxed entries.new.entries ≡ unboxed entries.old.entries }
{
    match entries.get_mut(&number) {
        Some(child) => Some(look_at(child)),
        None => None,
    }
}

// Whether the space has settled, with all below it.
#[cycle(look)]
fn look_at(space: &mut Space) -> bool
    ensures settled { result ≡ is_settled space.old }
    ensures same { space.new ≡ space.old }
{
    space.top.is_stopped() && look_at_all(&mut space.children)
}

// Whether a child was found that has not settled. Else all that are known to have settled are, and it is kept.
#[cycle(look)]
fn is_one_running(children: &mut Children) -> bool
    ensures running { result ≡ true → are_settled children.old ≡ false }
    ensures same { children.new ≡ children.old }
{
    for _ in 0..=children.entries.len() {
        let Some(number) = next_to_look_at(children) else {
            break;
        };
        children.looked = number;
        if let Some(false) = look_at_entry(&mut children.entries, number) {
            return true;
        }
    }
    children.remember();
    false
}

// Whether each child has settled, with all below it.
#[cycle(look)]
fn look_at_all(children: &mut Children) -> bool
    ensures settled { result ≡ are_settled children.old }
    ensures same { children.new ≡ children.old }
{
    !is_one_running(children) && are_settled(children)
}
