ghost use Rattle.std.specs.Prelude.{◌≡◌, ◌≤◌, ◌<◌, ◌++◌, List, [], ℕ, Some, min, take, length, IfOk, OnErr, IsErrOf, true, false};
ghost use Rattle.det_host.specs.Held.{is_failing, no_calls, after_write, FailsAt};
ghost use Rattle.det_host.specs.Outside.{Rose, Takes};

use crate::calls::Calls;
use crate::{Sink, SinkError};
use std::alloc::Global;
use std::marker::Model;

/// A sink that holds what it took.
#[derive(Drop)]
pub struct MemSink {
    most: usize,
    taken: Vec<u8>,
    calls: Calls,
}

impl Model for MemSink {
    ghost use Rattle.det_host.specs.Held.{Taking, coded_taking};

    ghost Value = { Taking };

    ghost coded = { coded_taking };

    ghost view = { λ s. record { most = s.most; taken = s.taken.items; calls = s.calls } };
}

impl MemSink {
    /// A sink that takes at most `most` bytes a call, and fails at the calls of these numbers, from 1.
    pub fn new(alloc: Global, most: usize, failing: Vec<u64>) -> MemSink
        ensures holds { result ≡ record { most = most; taken = []; calls = no_calls failing.items } }
        ensures numbered { FailsAt failing.items result.calls }
    {
        MemSink {
            most,
            taken: Vec::new(alloc),
            calls: Calls::new(failing),
        }
    }

    /// What it took, the first byte first.
    pub fn taken(&self) -> &[u8]
        ensures { result.now ≡ self.now.taken }
    {
        &self.taken
    }
}

impl Sink for MemSink {
    ghost taken = { λ s. Some s.taken };

    ghost faults = { λ s. s.calls.faults };

    fn write(&mut self, piece: &[u8]) -> Result<usize, SinkError>
        ensures count { IfOk result (λ n. n ≤ length piece.now) }
        ensures ok { IfOk result (λ n. Takes (Some self.old.taken) (Some self.new.taken) (take n piece.now)) }
        ensures err { OnErr result (Takes (Some self.old.taken) (Some self.new.taken) []) }
        ensures failed { IsErrOf result SinkError.Failed → Rose self.old.calls.faults self.new.calls.faults }
        ensures nothing { result ≡ Ok 0 → 0 < length piece.now → Rose self.old.calls.faults self.new.calls.faults }
        ensures later { self.old.calls.faults ≤ self.new.calls.faults }
        ensures fails { IsErrOf result SinkError.Failed → is_failing self.old.calls ≡ true }
        ensures next { self.new ≡ after_write self.old piece.now result }
        ensures goes_on { IfOk result (λ n. (is_failing self.old.calls ≡ false) × (n ≡ min (length piece.now) self.old.most)) }
    {
        if self.calls.next_fails() {
            self.calls.add_fault();
            return Err(SinkError::Failed);
        }
        let count = piece.len().min(self.most);
        if self.taken.extend_from_slice(&piece[..count]).is_err() {
            return Err(SinkError::Memory);
        }
        if count == 0 && !piece.is_empty() {
            self.calls.add_fault();
        }
        Ok(count)
    }
}
