// Spaces that go from one node to another, as parcels.

ghost use Rattle.std.specs.Prelude.{◌≡◌, ◌<◌, length, IfOk, None};

use node_parcel::ParcelFault;
use node_store::Nodes;
use space_tree::{Path, Space, Top};
use std::alloc::AllocError;

// The state of a space as it arrives at a node: packed at the one, without the pages that the other keeps, carried over the link between them, where they have one, and
// read at the other.
fn arrive(pages: &mut Nodes, top: &Top, from: u32, to: u32) -> Result<Top, AllocError>
    requires from { from < length pages.old.lists }
    requires to { to < length pages.old.lists }
    requires devices { top.now.devices ≡ None }
    ensures same { IfOk result (λ t. t ≡ top.now) }
    ensures nodes { length pages.new.lists ≡ length pages.old.lists }
{
    let sent = pages.send(from, to, top)?;
    let parcel = pages.carry(from, to, sent)?;
    match pages.receive(to, &parcel, None) {
        Ok(arrived) => Ok(arrived),
        Err(ParcelFault::Memory) => Err(AllocError),
        Err(ParcelFault::Bad(_)) => unreachable!(),
    }
}

// The state of a space goes to another node; its devices are handed over beside the parcel. It is as it was, at an error too.
fn send_top(pages: &mut Nodes, top: &mut Top, from: u32, to: u32) -> Result<(), AllocError>
    requires from { from < length pages.old.lists }
    requires to { to < length pages.old.lists }
    ensures same { top.new ≡ top.old }
    ensures nodes { length pages.new.lists ≡ length pages.old.lists }
{
    let devices = top.devices.take();
    match arrive(pages, top, from, to) {
        Ok(mut arrived) => {
            arrived.devices = devices;
            *top = arrived;
            Ok(())
        }
        Err(error) => {
            top.devices = devices;
            Err(error)
        }
    }
}

// As `send`, of the space at a path from a space on.
fn send_below(
    pages: &mut Nodes,
    space: &mut Space,
    path: &[u16],
    from: u32,
    to: u32,
) -> Result<(), AllocError>
    requires from { from < length pages.old.lists }
    requires to { to < length pages.old.lists }
    ensures same { space.new ≡ space.old }
    ensures nodes { length pages.new.lists ≡ length pages.old.lists }
{
    match path {
        [] => send_top(pages, &mut space.top, from, to),
        [number, rest @ ..] => {
            let Some(child) = space.children.get_mut(*number) else {
                return Ok(());
            };
            send_below(pages, child, rest, from, to)
        }
    }
}

/// The space at a path, where one stands there, goes from one node to another as a parcel. The tree is as it was, at an error too. The one error is want
/// of memory.
pub(crate) fn send(
    pages: &mut Nodes,
    tree: &mut Space,
    path: &Path,
    from: u32,
    to: u32,
) -> Result<(), AllocError>
    requires from { from < length pages.old.lists }
    requires to { to < length pages.old.lists }
    ensures same { tree.new ≡ tree.old }
    ensures nodes { length pages.new.lists ≡ length pages.old.lists }
{
    if from == to {
        return Ok(());
    }
    send_below(pages, tree, path.as_slice(), from, to)
}
