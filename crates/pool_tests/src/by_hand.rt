use crate::programs::{FAR, TWO_THREADS};
use crate::test_board::{TestBoard, TestJob};
use board::Commit;
use det_core::Entry;
use space_tree::Path;
use std::alloc::Global;
use std::process::Abort;
use std::test::*;

const ROOT: Option<&[u16]> = Some(&[]);

// The first job of a board on one node: its root's, in slot 0 with ticket 0. No other is handed out.
fn first_job(rt: &impl Abort, board: &mut TestBoard) -> TestJob {
    let job = board.take(rt, 0).expect(rt, "the root's job");
    assert!(rt; board.takes(rt, 0, None));
    job
}

// A board over two threads whose root had its three events, and whose fork has met its thread.
fn board_behind_fork(rt: &impl Abort, alloc: Global) -> TestBoard {
    let mut board = TestBoard::over(rt, alloc, TWO_THREADS, 1);
    let done = first_job(rt, &mut board).work(rt, alloc);
    assert_eq!(rt; done.events(), 3);
    assert_eq!(rt; board.commit(done), Commit::Taken);
    assert!(rt; board.meets(rt, ROOT));
    assert!(rt; board.meets(rt, None));
    board
}

#[test]
fn the_root_runs_to_its_fork_and_then_beside_its_thread(rt: HostRuntime) {
    let mut board = board_behind_fork(&rt, rt.alloc());
    assert!(rt; board.takes(&rt, 0, ROOT));
    assert!(rt; board.takes(&rt, 0, Some(&[0])));
    assert!(rt; board.takes(&rt, 0, None));
}

// A board on three nodes over a root whose first call forks process 256, behind that call.
fn board_behind_move(rt: &impl Abort, alloc: Global) -> TestBoard {
    let mut board = TestBoard::over(rt, alloc, FAR, 3);
    let done = first_job(rt, &mut board).work(rt, alloc);
    assert_eq!(rt; board.commit(done), Commit::Taken);
    assert!(rt; board.meets(rt, ROOT));
    board
}

#[test]
fn a_caller_moves_to_the_home_of_its_child(rt: HostRuntime) {
    let mut board = board_behind_move(&rt, rt.alloc());
    let history = [
        Entry::Ran {
            path: Path::new(),
            events: 2,
        },
        Entry::Moved {
            path: Path::new(),
            node: 1,
        },
        Entry::Met { path: Path::new() },
    ];
    assert!(rt; board.history() == history.as_slice());
    assert!(rt; board.takes(&rt, 0, None));
    assert!(rt; board.takes(&rt, 1, ROOT));
    assert!(rt; board.takes(&rt, 1, Some(&[256])));
}
