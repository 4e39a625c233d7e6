use crate::programs::booted;
use board::{Board, Commit, Done, Job, work};
use det_core::Entry;
use space_step::DecodeCache;
use space_tree::Path;
use std::alloc::Global;
use std::marker::Model;
use std::process::Abort;
use std::test::*;

/// A job that is out. Contracts see nothing of it.
#[derive(Drop)]
pub(crate) struct TestJob {
    job: Job,
}

impl Model for TestJob {
    ghost Value = { Unit {0} };

    ghost view = { λ j. tt };
}

/// A result that is not handed in yet. Contracts see nothing of it.
#[derive(Drop)]
pub(crate) struct TestDone {
    done: Done,
}

impl Model for TestDone {
    ghost Value = { Unit {0} };

    ghost view = { λ d. tt };
}

/// A board that a test works at by hand. Contracts see nothing of it.
#[derive(Drop)]
pub(crate) struct TestBoard {
    board: Board,
}

impl Model for TestBoard {
    ghost Value = { Unit {0} };

    ghost view = { λ b. tt };
}

impl TestJob {
    /// What becomes of it.
    pub(crate) fn work(self, rt: &impl Abort, alloc: Global) -> TestDone {
        let mut cache = DecodeCache::new(alloc).expect(rt, "memory");
        let done = work(&mut cache, self.job).expect(rt, "memory");
        TestDone { done }
    }
}

impl TestDone {
    /// How many events the space of the job had.
    pub(crate) fn events(&self) -> u32 {
        self.done.run.ran()
    }
}

// Whether a path, where there is one, has these numbers.
fn is_path(path: Option<&Path>, numbers: Option<&[u16]>) -> bool {
    match (path, numbers) {
        (Some(path), Some(numbers)) => path.as_slice() == numbers,
        (None, None) => true,
        _ => false,
    }
}

impl TestBoard {
    /// A board over the tree of a source, on so many nodes.
    pub(crate) fn over(rt: &impl Abort, alloc: Global, source: &[u8], nodes: u32) -> TestBoard {
        assert!(rt; 1 <= nodes && nodes <= 64);
        let tree = booted(rt, alloc, source);
        let board = Board::begin(alloc, tree, nodes).expect(rt, "memory");
        TestBoard { board }
    }

    /// The job that is handed out next on a node, which is out from then on.
    pub(crate) fn take(&mut self, rt: &impl Abort, node: u32) -> Option<TestJob> {
        assert!(rt; node < self.board.nodes());
        match self.board.take(node).expect(rt, "memory") {
            Some(job) => Some(TestJob { job }),
            None => None,
        }
    }

    /// Whether the job that is handed out next on a node is for the space at this path, or there is none. It stays out.
    pub(crate) fn takes(&mut self, rt: &impl Abort, node: u32, path: Option<&[u16]>) -> bool {
        match self.take(rt, node) {
            Some(taken) => is_path(Some(&taken.job.path), path),
            None => is_path(None, path),
        }
    }

    /// What becomes of a result.
    pub(crate) fn commit(&mut self, done: TestDone) -> Commit {
        self.board.commit(done.done)
    }

    /// Whether the call that meets its children next is of the space at this path, or there is none.
    pub(crate) fn meets(&mut self, rt: &impl Abort, path: Option<&[u16]>) -> bool {
        let met = self.board.meet().expect(rt, "memory");
        is_path(met.as_ref(), path)
    }

    /// What has happened.
    pub(crate) fn history(&self) -> &[Entry] {
        self.board.history()
    }
}
