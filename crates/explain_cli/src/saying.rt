ghost use Rattle.std.specs.Prelude.{◌≡◌, ◌≤◌, ◌⊎◌, OnOk, IsErrOf};
ghost use Rattle.det_host.specs.Outside.{Takes};
ghost use Rattle.det_host.specs.Writing.{TakesPrefix, StopsWithin, output_of};
ghost use Rattle.explain_cli.specs.Answers.{Says};
ghost use Rattle.explain_cli.specs.Ends.{line_text};

use crate::end::End;
use det_cli::{End as Failure, write_fault};
use det_host::{Sink, SinkError, write_all};
use std::alloc::Global;

/// Writes the line that names an end's cause; nothing for `Shown`. An error leaves a first part of it written.
pub fn write_line<E: Sink>(alloc: Global, end: &End, err: &mut E) -> Result<(), SinkError>
    ensures ok { OnOk result (Takes (E.taken err.old) (E.taken err.new) (line_text end.now)) }
    ensures prefix { TakesPrefix (E.taken err.old) (E.taken err.new) (line_text end.now) }
    ensures failed { IsErrOf result SinkError.Failed → StopsWithin (output_of E.taken E.faults err.old err.new) (line_text end.now) }
    ensures later { E.faults err.old ≤ E.faults err.new }
{
    match end {
        End::Shown => write_all(err, "".as_bytes()),
        End::NoEvent => write_all(err, "explain: no such event\n".as_bytes()),
        End::NoSpace => write_all(err, "explain: no such space\n".as_bytes()),
        End::Usage => write_all(err, "explain: usage: at|trace|why\n".as_bytes()),
        End::Failed(failure) => write_fault(alloc, failure, err),
    }
}

/// Writes the line of an end. Where that finds no memory, that is the end.
pub(crate) fn say<E: Sink>(alloc: Global, ended: End, err: &mut E) -> End
    ensures line { Says (output_of E.taken E.faults err.old err.new) result }
    ensures end { (result ≡ ended) ⊎ (result ≡ End.Failed Failure.NoMemory) }
    ensures later { E.faults err.old ≤ E.faults err.new }
{
    match write_line(alloc, &ended, err) {
        Ok(()) | Err(SinkError::Failed) => ended,
        Err(SinkError::Memory) => End::Failed(Failure::NoMemory),
    }
}
