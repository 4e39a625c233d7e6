ghost use Rattle.std.specs.Prelude.{◌≡◌, ◌<◌, suc, length, IfSome};
ghost use Rattle.call_model.specs.Limits.{greatest_depth};

use space_model::Reach;
use space_step::{Next, peek};
use space_tree::{Path, Space};
use trap_ret::awaits;

// A path that is equal. It takes no memory.
fn copy(path: &Path) -> Path
    ensures { result ≡ path.now }
{
    path.clone().unwrap()
}

// The path of a child, where a space can stand there.
fn child_of(path: &Path, number: u16) -> Option<Path>
    ensures { IfSome result (λ p. (length path.now.items < greatest_depth) × (length p.items ≡ suc (length path.now.items))) }
{
    if path.len() >= 8 {
        return None;
    }
    let mut child = copy(path);
    child.push(number);
    Some(child)
}

// Of the numbers that lead from a space to where the last turn was, those below a child; none where the turn was elsewhere.
fn below(last: &[u16], number: u16) -> &[u16] {
    match last {
        [first, rest @ ..] if *first == number => rest,
        _ => &[],
    }
}

// The number of the child in which the last turn was, or the first of all.
fn first_of(last: &[u16]) -> u16 {
    match last {
        [] => 0,
        [first, ..] => *first,
    }
}

// Where a child of a number goes on that a call waits for; none where it is ready.
#[cycle(busy)]
fn busy_child(space: &Space, number: u16, reach: Reach, last: &[u16], path: &Path) -> Option<Path> {
    let child = space.children.get(number)?;
    let there = child_of(path, number)?;
    busy_at(child, reach, below(last, number), &there)
}

// Where the first child from a number on goes on that has not settled.
#[cycle(busy)]
fn busy_from(space: &Space, from: u16, last: &[u16], path: &Path) -> Option<Path> {
    for (number, _) in space.children.entries().range(from..) {
        let busy = busy_child(space, *number, Reach::Whole, last, path);
        if busy.is_some() {
            return busy;
        }
    }
    None
}

// Where a child goes on that has not settled: the next one from that of the last turn on, else the first.
#[cycle(busy)]
fn busy_below(space: &Space, last: &[u16], path: &Path) -> Option<Path> {
    if space.children.are_known_settled() {
        return None;
    }
    let busy = busy_from(space, first_of(last), last, path);
    if busy.is_some() {
        return busy;
    }
    busy_from(space, 0, last, path)
}

// Where the space at a path goes on that is waited for, itself or with all below it; none where it is ready.
#[cycle(busy)]
fn busy_at(space: &Space, reach: Reach, last: &[u16], path: &Path) -> Option<Path> {
    if !space.top.is_stopped() {
        return Some(goes_on_at(space, last, path));
    }
    match reach {
        Reach::Itself => None,
        Reach::Whole => busy_below(space, last, path),
    }
}

// Where the space at a path goes on, which has not stopped: itself, or at a child that its next call waits for.
#[cycle(busy)]
fn goes_on_at(space: &Space, last: &[u16], path: &Path) -> Path {
    let Next::Meet(call) = peek(&space.top, path.len() as u8) else {
        return copy(path);
    };
    let all = awaits(call);
    for index in 0..all.len() {
        let awaited = all.get(index);
        if let Some(busy) = busy_child(space, awaited.number, awaited.reach, last, path) {
            return busy;
        }
    }
    copy(path)
}

// Where the first space goes on that has not stopped, from the space at a path down a way.
fn on_the_way(space: &Space, way: &[u16], last: &[u16], path: &Path) -> Path {
    if !space.top.is_stopped() {
        return goes_on_at(space, last, path);
    }
    let [number, rest @ ..] = way else {
        return copy(path);
    };
    let Some(child) = space.children.get(*number) else {
        return copy(path);
    };
    match child_of(path, *number) {
        Some(there) => on_the_way(child, rest, below(last, *number), &there),
        None => copy(path),
    }
}

/// The path at which a tree goes on until all on the way to a path have stopped: that of the first space on the way that has not, or of one that it waits for. Of many that it waits
/// for, the one of the last turn comes first, and then those behind it. No clause says that a space can go on there.
pub(crate) fn next_path(tree: &Space, last: &Path, way: &Path) -> Path {
    on_the_way(tree, way.as_slice(), last.as_slice(), &Path::new())
}
