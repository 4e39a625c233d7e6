ghost use Rattle.std.specs.Prelude.{◌≡◌, ◌<◌, length, IfOk, None};

use node_store::Nodes;
use space_tree::{Mem, Top, same_top};
use std::alloc::{AllocError, Global};
use std::process::Abort;
use std::test::Fail;

// A top with bytes in three pages, two of which are equal.
fn top_of_three_pages(alloc: Global) -> Result<Top, AllocError>
    ensures { IfOk result (λ t. t.devices ≡ None) }
{
    let mut memory = Mem::new(alloc);
    memory.write_bytes(4096, b"one")?;
    memory.write_bytes(8192, b"two")?;
    memory.write_bytes(12288, b"one")?;
    let mut top = Top::fresh(alloc, 100);
    top.memory = memory;
    Ok(top)
}

// Sends a top from one of three nodes to another, where it is received: how many bytes the parcel has.
fn carry(
    rt: &impl Abort,
    nodes: &mut Nodes,
    from: u32,
    to: u32,
    top: &Top,
) -> Result<usize, AllocError>
    requires nodes { length nodes.old.lists ≡ 3 }
    requires from { from < 3 }
    requires to { to < 3 }
    requires devices { top.now.devices ≡ None }
    ensures { length nodes.new.lists ≡ 3 }
{
    let parcel = nodes.send(from, to, top)?;
    let is_same = match nodes.receive(to, &parcel, None) {
        Ok(received) => same_top(&received, top),
        Err(_) => false,
    };
    assert!(rt; is_same);
    Ok(parcel.len())
}

#[test]
fn pages_sent_twice_are_numbers(rt: HostRuntime) -> Result<(), Fail> {
    let alloc = rt.alloc();
    let mut nodes = Nodes::new(alloc, 3)?;
    let top = top_of_three_pages(alloc)?;
    let first = carry(&rt, &mut nodes, 0, 1, &top)?;
    assert_eq!(rt; first, 157 + 3 * (6 + 4096));
    let again = carry(&rt, &mut nodes, 2, 1, &top)?;
    assert_eq!(rt; again, 157 + 3 * (6 + 4));
    let back = carry(&rt, &mut nodes, 1, 0, &top)?;
    assert_eq!(rt; back, 157 + 3 * (6 + 4));
    Ok(())
}
