ghost use Rattle.std.specs.Prelude.{◌≡◌, ◌≤◌, ◌<◌, ◌++◌, List, [], ℕ, Some, take, length, IfOk, OnErr, IsErrOf, Ok};
ghost use Rattle.det_host.specs.Outside.{Rose, Takes};

use crate::{Sink, SinkError};
use std::alloc::Global;
use std::marker::Model;

/// A sink in memory that never fails: only memory can run out.
#[derive(Drop)]
pub struct SureSink {
    taken: Vec<u8>,
}

impl Model for SureSink {
    ghost use Rattle.std.specs.Prelude.{List, ℕ};

    ghost Value = { List ℕ };

    ghost view = { λ s. s.taken.items };
}

impl SureSink {
    /// A sink that took nothing yet.
    pub fn new(alloc: Global) -> SureSink
        ensures { result ≡ [] }
    {
        SureSink {
            taken: Vec::new(alloc),
        }
    }

    /// What it took, the first byte first.
    pub fn taken(&self) -> &[u8]
        ensures { result.now ≡ self.now }
    {
        &self.taken
    }
}

impl Sink for SureSink {
    ghost taken = { λ s. Some s };

    ghost faults = { λ _. 0 };

    fn write(&mut self, piece: &[u8]) -> Result<usize, SinkError>
        ensures count { IfOk result (λ n. n ≤ length piece.now) }
        ensures ok { IfOk result (λ n. Takes (Some self.old) (Some self.new) (take n piece.now)) }
        ensures err { OnErr result (Takes (Some self.old) (Some self.new) []) }
        ensures failed { IsErrOf result SinkError.Failed → Rose 0 0 }
        ensures nothing { result ≡ Ok 0 → 0 < length piece.now → Rose 0 0 }
        ensures later { 0 ≤ 0 }
        ensures whole { IfOk result (λ n. n ≡ length piece.now) }
    {
        match self.taken.extend_from_slice(piece) {
            Ok(()) => Ok(piece.len()),
            Err(_) => Err(SinkError::Memory),
        }
    }
}
