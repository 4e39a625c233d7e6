use crate::threads::{
    FIRST, LAST, MANY, bytes_of, child_of, child_writes, commit, start, threads_write,
    tree_of_threads,
};
use space_tree::Space;
use std::alloc::{AllocError, Global};
use std::test::*;

// What a start makes of the root and of the three children.
fn started(alloc: Global) -> Result<([u32; 2], [[u32; 3]; 3], [u32; 2]), AllocError> {
    let mut tree = tree_of_threads(alloc)?;
    let told = start(&mut tree)?;
    let children = [
        child_of(&tree.children, FIRST),
        child_of(&tree.children, FIRST + 1),
        child_of(&tree.children, FIRST + 2),
    ];
    Ok((told, children, [tree.top.fuel, tree.top.used]))
}

#[test]
fn a_start_passes_over_a_child_that_returned(rt: HostRuntime) -> Result<(), Fail> {
    let (told, children, paid) = started(rt.alloc())?;
    assert_eq!(rt; told, [0, 2]);
    assert_eq!(rt; children, [[1, 100, 9], [0, 0, 0], [1, 100, 9]]);
    assert_eq!(rt; paid, [49, 1]);
    Ok(())
}

// A tree whose threads were started and have written.
fn written(alloc: Global) -> Result<Space, AllocError> {
    let mut tree = tree_of_threads(alloc)?;
    start(&mut tree)?;
    threads_write(&mut tree.children)?;
    Ok(tree)
}

// What a commit of them makes of the root.
fn committed(alloc: Global) -> Result<([u32; 2], [u8; 3]), AllocError> {
    let mut tree = written(alloc)?;
    let told = commit(&mut tree)?;
    Ok((told, bytes_of(&tree.top.memory)))
}

#[test]
fn the_last_thread_decides(rt: HostRuntime) -> Result<(), Fail> {
    let (told, bytes) = committed(rt.alloc())?;
    assert_eq!(rt; told, [0, 2]);
    assert_eq!(rt; bytes, [67, 2, 0]);
    Ok(())
}

// After a commit a thread writes once more, and so does the root.
fn written_again(alloc: Global) -> Result<Space, AllocError> {
    let mut tree = written(alloc)?;
    commit(&mut tree)?;
    child_writes(&mut tree.children, FIRST, LAST, 3)?;
    tree.top.memory.write(MANY, 7)?;
    Ok(tree)
}

// What a second commit makes of the root.
fn committed_again(alloc: Global) -> Result<([u32; 2], [u8; 3]), AllocError> {
    let mut tree = written_again(alloc)?;
    let told = commit(&mut tree)?;
    Ok((told, bytes_of(&tree.top.memory)))
}

#[test]
fn a_byte_is_taken_over_once(rt: HostRuntime) -> Result<(), Fail> {
    let (told, bytes) = committed_again(rt.alloc())?;
    assert_eq!(rt; told, [0, 2]);
    assert_eq!(rt; bytes, [7, 3, 0]);
    Ok(())
}
