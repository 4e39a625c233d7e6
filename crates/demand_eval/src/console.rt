ghost use Rattle.std.specs.Prelude.{◌≤◌, OnOk, IsErrOf};
ghost use Rattle.report_model.specs.Report.{console_of};
ghost use Rattle.det_host.specs.Outside.{Takes};
ghost use Rattle.det_host.specs.Writing.{StopsWithin, TakesPrefix, output_of};

use det_host::{Sink, SinkError, write_all};
use space_tree::Space;
use std::alloc::Global;

/// Writes all that the root of a tree has written to its console. Where there is nothing, the sink is not called. At an error the sink has taken
/// some first bytes of it; where it failed, not all.
pub fn write_console<O: Sink>(alloc: Global, space: &Space, out: &mut O) -> Result<(), SinkError>
    ensures ok { OnOk result (Takes (O.taken out.old) (O.taken out.new) (console_of space.now)) }
    ensures prefix { TakesPrefix (O.taken out.old) (O.taken out.new) (console_of space.now) }
    ensures failed { IsErrOf result SinkError.Failed → StopsWithin (output_of O.taken O.faults out.old out.new) (console_of space.now) }
    ensures later { O.faults out.old ≤ O.faults out.new }
{
    match space.top.console(alloc) {
        Ok(bytes) => write_all(out, &bytes),
        Err(_) => Err(SinkError::Memory),
    }
}
