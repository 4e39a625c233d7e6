ghost use Rattle.std.specs.Prelude.{◌≤◌, OnOk, IsErrOf};
ghost use Rattle.det_host.specs.Outside.{Takes};
ghost use Rattle.det_host.specs.Writing.{TakesPrefix, StopsWithin, output_of};

use crate::{Sink, SinkError};

/// Writes all of the bytes, in as many pieces as the sink takes. At an error the sink has taken some first ones of them; where it failed, not all.
#[tactic(auto, using(crate::proofs::Written::took_more, crate::proofs::Written::took_nothing, crate::proofs::Written::took_prefix, crate::proofs::Written::took_all, crate::proofs::Written::stopped_at))]
pub fn write_all<S: Sink>(sink: &mut S, bytes: &[u8]) -> Result<(), SinkError>
    ensures ok { OnOk result (Takes (S.taken sink.old) (S.taken sink.new) bytes.now) }
    ensures prefix { TakesPrefix (S.taken sink.old) (S.taken sink.new) bytes.now }
    ensures failed { IsErrOf result SinkError.Failed → StopsWithin (output_of S.taken S.faults sink.old sink.new) bytes.now }
    ensures later { S.faults sink.old ≤ S.faults sink.new }
{
    let mut done = 0;
    'pieces: while done < bytes.len() {
        match sink.write(&bytes[done..]) {
            Ok(0) => return Err(SinkError::Failed),
            Ok(count) => done += count,
            Err(error) => return Err(error),
        }
    }
    Ok(())
}
