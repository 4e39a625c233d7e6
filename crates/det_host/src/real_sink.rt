ghost use Rattle.std.specs.Prelude.{◌≡◌, ◌≢◌, ◌≤◌, ◌<◌, List, [], ℕ, Option, None, Ok, take, length, IfOk, IfErr, OnErr, IsErrOf};
ghost use Rattle.std.specs.IoError.{error_kind};
ghost use Rattle.std.specs.Io.KnownBytes.{Appends, Keeps};
ghost use Rattle.det_host.specs.Outside.{Rose, Takes};

use crate::{Sink, SinkError};
use std::io;
use std::io::{ErrorKind, Write};

/// A sink over a writer of the standard library. It tells what its writer tells: of a stream nothing.
#[derive(Drop)]
pub struct StdSink<W: Write + Drop> {
    writer: W,
    faults: u64,
}

impl<W: Write + Drop> StdSink<W> {
    /// A sink that has written nothing yet.
    pub fn new(writer: W) -> StdSink<W>
        ensures writer { result.writer ≡ writer }
        ensures no_fault { result.faults ≡ 0 }
    {
        StdSink { writer, faults: 0 }
    }
}

// Writes some first bytes of a piece, and tries again where it was interrupted before the writer took any.
#[tactic(auto, using(crate::proofs::Sending::kept_same, crate::proofs::Sending::kept_still, crate::proofs::Sending::sent_then))]
fn write_some<W: Write>(writer: &mut W, piece: &[u8]) -> io::Result<usize>
    ensures count { IfOk result (λ n. n ≤ length piece.now) }
    ensures ok { IfOk result (λ n. Appends (W.contents writer.old) (W.contents writer.new) (take n piece.now)) }
    ensures err { OnErr result (Keeps (W.contents writer.old) (W.contents writer.new)) }
    ensures retried { IfErr result (λ e. error_kind e ≢ ErrorKind.Interrupted) }
{
    for _ in 0..u64::MAX {
        match writer.write(piece) {
            Ok(count) => return Ok(count),
            Err(error) => {
                if error.kind() != ErrorKind::Interrupted {
                    return Err(error);
                }
            }
        }
    }
    Err(io::Error::from(ErrorKind::TimedOut))
}

impl<W: Write + Drop> Sink for StdSink<W> {
    ghost taken = { λ s. W.contents s.writer };

    ghost faults = { λ s. s.faults };

    /// Writes again where the writer took only a part or was interrupted, until all is written or it takes no more. An answer below the
    /// piece's length, an error among them, has counted a fault.
    #[tactic(auto, using(crate::proofs::Sending::nothing_sent, crate::proofs::Sending::sent_more, crate::proofs::Sending::kept_after, crate::proofs::Sending::takes_sent))]
    fn write(&mut self, piece: &[u8]) -> Result<usize, SinkError>
        ensures count { IfOk result (λ n. n ≤ length piece.now) }
        ensures ok { IfOk result (λ n. Takes (W.contents self.old.writer) (W.contents self.new.writer) (take n piece.now)) }
        ensures err { OnErr result (Takes (W.contents self.old.writer) (W.contents self.new.writer) []) }
        ensures failed { IsErrOf result SinkError.Failed → Rose self.old.faults self.new.faults }
        ensures nothing { result ≡ Ok 0 → 0 < length piece.now → Rose self.old.faults self.new.faults }
        ensures later { self.old.faults ≤ self.new.faults }
        ensures short { IfOk result (λ n. n < length piece.now → Rose self.old.faults self.new.faults) }
        ensures whole { IfOk result (λ n. n ≡ length piece.now → self.new.faults ≡ self.old.faults) }
        ensures no_memory { IsErrOf result SinkError.Memory → ⊥ }
    {
        let mut done = 0;
        'pieces: while done < piece.len() {
            match write_some(&mut self.writer, &piece[done..]) {
                Ok(0) => {
                    self.faults = self.faults.saturating_add(1);
                    break;
                }
                Ok(count) => done += count,
                Err(_) => {
                    self.faults = self.faults.saturating_add(1);
                    if done == 0 {
                        return Err(SinkError::Failed);
                    }
                    break;
                }
            }
        }
        Ok(done)
    }
}
