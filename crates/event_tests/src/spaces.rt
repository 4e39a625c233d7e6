use space_tree::{Cause, Devices, Mem, Pages, Path, Space, Top, at, copy_top, put_at, swap_top};
use std::alloc::{AllocError, Global};
use std::process::Abort;
use std::test::Fail;

// A tree whose root has 10 units of fuel, its child 65535 after a change 30, and that one's child 7 has 40; and the fuel of the former state.
fn tree_of_three(rt: &impl Abort, alloc: Global) -> Result<(Space, u32), AllocError> {
    let mut tree = Space::alone(alloc, Top::fresh(alloc, 10));
    let mut path = Path::new();
    path.push(65_535);
    put_at(
        alloc,
        &mut tree,
        &path,
        Space::alone(alloc, Top::fresh(alloc, 20)),
    )?;
    let former = swap_top(&mut tree, &path, Top::fresh(alloc, 30));
    assert!(rt; at(&tree, &path).is_some());
    path.push(7);
    put_at(
        alloc,
        &mut tree,
        &path,
        Space::alone(alloc, Top::fresh(alloc, 40)),
    )?;
    Ok((tree, former.fuel))
}

// The fuel of the spaces on the way to child 7 of child 65535, and of one more.
fn fuel_on_the_way(tree: &Space) -> [Option<u32>; 4] {
    let mut path = Path::new();
    let root = at(tree, &path).map(|space| space.top().fuel);
    path.push(65_535);
    let child = at(tree, &path).map(|space| space.top().fuel);
    path.push(7);
    let below = at(tree, &path).map(|space| space.top().fuel);
    path.push(0);
    [
        root,
        child,
        below,
        at(tree, &path).map(|space| space.top().fuel),
    ]
}

#[test]
fn spaces_at_paths(rt: HostRuntime) -> Result<(), Fail> {
    let (tree, former) = tree_of_three(&rt, rt.alloc())?;
    let want = [Some(10), Some(30), Some(40), None];
    assert_eq!(rt; (fuel_on_the_way(&tree), former), (want, 20));
    Ok(())
}

// A root with a 9 in its page 2, which may be read and written, with a byte in its console, and 50 units of fuel.
fn root(alloc: Global) -> Result<Top, AllocError> {
    let mut memory = Mem::new(alloc);
    memory.set_perm(Pages { first: 2, count: 1 }, 3)?;
    memory.write(0x2000, 9)?;
    let mut devices = Devices::new(alloc);
    devices.console.extend_from_slice(b"c")?;
    Ok(Top::root(0x2000, 0x3000, memory, 50, devices))
}

// A copy of a space, which then writes and stops.
#[tactic(auto, using(space_mem::proofs::Dirty::covers_in_after))]
fn copy_of(top: &mut Top) -> Result<Top, AllocError> {
    let copy = copy_top(top)?;
    top.memory.write(0x2000, 8)?;
    top.stop(Cause::Ret, 1);
    Ok(copy)
}

fn assert_copy(rt: &impl Abort, alloc: Global, copy: &Top) -> Result<(), AllocError> {
    let numbers = [
        u32::from(copy.memory.byte(0x2000)),
        copy.total_fuel(),
        copy.registers.pc,
    ];
    assert_eq!(rt; numbers, [9, 50, 0x2000]);
    let dirty = [copy.memory.next_dirty(0), copy.memory.next_dirty(3)];
    assert_eq!(rt; dirty, [Some(2), None]);
    let console = copy.console(alloc)?;
    assert_eq!(rt;
        (console.as_slice(), copy.is_stopped()),
        (b"c".as_slice(), false)
    );
    Ok(())
}

#[test]
fn copies(rt: HostRuntime) -> Result<(), Fail> {
    let mut top = root(rt.alloc())?;
    let copy = copy_of(&mut top)?;
    assert_copy(&rt, rt.alloc(), &copy)?;
    Ok(())
}
