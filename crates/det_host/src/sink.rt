ghost use Rattle.std.specs.Prelude.{◌≡◌, ◌≤◌, ◌<◌, List, [], ℕ, Option, take, length, IfOk, OnErr, IsErrOf};
ghost use Rattle.det_host.specs.Outside.{Rose, Takes};

/// Why a sink took nothing.
#[derive(Clone, Copy, Debug, PartialEq, Eq)]
pub enum SinkError {
    /// It could not be written; the sink has counted a fault.
    Failed,
    /// Memory ran out.
    Memory,
}

/// Where bytes go.
pub trait Sink {
    /// The bytes that it took, the first one first, where it tells them.
    ghost taken: { Self → Option (List ℕ) };

    /// How often it has failed. A count that stands at 2^64 - 1 stays there.
    ghost faults: { Self → ℕ };

    /// Takes some first bytes of the piece, and says how many. None of a piece that is not empty is a fault.
    fn write(&mut self, piece: &[u8]) -> Result<usize, SinkError>
        ensures count { IfOk result (λ n. n ≤ length piece.now) }
        ensures ok { IfOk result (λ n. Takes (taken self.old) (taken self.new) (take n piece.now)) }
        ensures err { OnErr result (Takes (taken self.old) (taken self.new) []) }
        ensures failed { IsErrOf result SinkError.Failed → Rose (faults self.old) (faults self.new) }
        ensures nothing { result ≡ Ok 0 → 0 < length piece.now → Rose (faults self.old) (faults self.new) }
        ensures later { faults self.old ≤ faults self.new };
}
