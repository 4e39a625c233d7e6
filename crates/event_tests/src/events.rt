use det_core::{boot, enabled, step};
use image_file::read_image;
use space_step::DecodeCache;
use space_tree::{Cause, Devices, Path, Space, Status, Top};
use std::alloc::{AllocError, Global};
use std::process::Abort;
use std::test::*;

/// At 0x1000, which may be read and executed: Put with Start of child 5, and Get of it.
const IMAGE: [u8; 47] = [
    0x44, 0x54, 0x49, 0x31, 0x00, 0x10, 0, 0, 0, 0, 0, 0, 1, 0, 0x00, 0x10, 0, 0, 1, 24, 0, 0, 0,
    0x93, 0x08, 0x10, 0x00, 0x13, 0x05, 0x00, 0x04, 0x93, 0x05, 0x50, 0x00, 0x73, 0x00, 0x00, 0x00,
    0x93, 0x08, 0x20, 0x00, 0x73, 0x00, 0x00, 0x00,
];

// The event at a path, with a cache of its own.
fn stepped(alloc: Global, tree: &mut Space, path: &Path) -> Result<bool, AllocError> {
    let mut cache = DecodeCache::new(alloc)?;
    step(alloc, &mut cache, tree, path)
}

// Tries the event at a path, which may happen, or may not.
fn tries(rt: &impl Abort, alloc: Global, tree: &mut Space, path: &Path, may: bool) {
    assert_eq!(rt; enabled(tree, path), may);
    match stepped(alloc, tree, path) {
        Ok(went) => assert_eq!(rt; went, may),
        Err(_) => panic!(rt; "no memory"),
    }
}

// The events in which the root starts its child and waits for it: of the root, but where the child's is next.
fn try_events(rt: &impl Abort, alloc: Global, tree: &mut Space) {
    let root = Path::new();
    let mut child = Path::new();
    child.push(5);
    tries(rt, alloc, tree, &child, false);
    for _ in 0..5 {
        tries(rt, alloc, tree, &root, true);
    }
    tries(rt, alloc, tree, &root, false);
    tries(rt, alloc, tree, &child, true);
    assert!(rt; !enabled(tree, &child));
    tries(rt, alloc, tree, &root, true);
}

// The tree of the image after those events.
fn after_events(rt: &impl Abort, alloc: Global) -> Result<Space, Fail> {
    let image = read_image(alloc, &IMAGE)?;
    let mut tree = boot(alloc, &image, Devices::new(alloc), 100)?;
    try_events(rt, alloc, &mut tree);
    Ok(tree)
}

fn child_of<'a>(rt: &impl Abort, tree: &'a Space) -> &'a Top {
    match tree.children.get(5) {
        Some(child) => child.top(),
        None => panic!(rt; "no child"),
    }
}

#[test]
fn get_waits_for_the_child(rt: HostRuntime) -> Result<(), Fail> {
    let tree = after_events(&rt, rt.alloc())?;
    let root = tree.top();
    assert_eq!(rt; (root.registers.pc, root.used), (0x1018, 6));
    let fault = Status::Stopped {
        cause: Cause::FetchFault,
        value: 0,
    };
    let child = child_of(&rt, &tree);
    assert_eq!(rt; (child.status, child.used), (fault, 1));
    Ok(())
}
