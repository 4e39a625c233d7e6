ghost use Rattle.std.specs.Prelude.{◌≡◌, ◌≤◌, OnOk, IfOk, IsErrOf, string_bytes};
ghost use Rattle.det_host.specs.Outside.{Takes};
ghost use Rattle.det_cli.specs.Lines.{fault_line};
ghost use Rattle.det_host.specs.Writing.{TakesPrefix, StopsWithin, output_of};

use crate::end::End;
use det_host::{Sink, SinkError, write_all};
use std::alloc::{AllocError, Global};

// Writes the line of an end, which is this one.
fn write_fixed<E: Sink>(end: &End, line: &str, err: &mut E) -> Result<(), SinkError>
    requires { line.now ≡ fault_line end.now }
    ensures ok { OnOk result (Takes (E.taken err.old) (E.taken err.new) (fault_line end.now)) }
    ensures prefix { TakesPrefix (E.taken err.old) (E.taken err.new) (fault_line end.now) }
    ensures failed { IsErrOf result SinkError.Failed → StopsWithin (output_of E.taken E.faults err.old err.new) (fault_line end.now) }
    ensures later { E.faults err.old ≤ E.faults err.new }
{
    write_all(err, line.as_bytes())
}

// Writes the line of an end, which was made, or for which memory ran out.
fn write_made<E: Sink>(
    end: &End,
    made: Result<String, AllocError>,
    err: &mut E,
) -> Result<(), SinkError>
    requires { IfOk made (λ s. string_bytes s ≡ fault_line end.now) }
    ensures ok { OnOk result (Takes (E.taken err.old) (E.taken err.new) (fault_line end.now)) }
    ensures prefix { TakesPrefix (E.taken err.old) (E.taken err.new) (fault_line end.now) }
    ensures failed { IsErrOf result SinkError.Failed → StopsWithin (output_of E.taken E.faults err.old err.new) (fault_line end.now) }
    ensures later { E.faults err.old ≤ E.faults err.new }
{
    let Ok(line) = made else {
        return Err(SinkError::Memory);
    };
    write_all(err, line.as_bytes())
}

/// Writes the line that names an end's cause; nothing for `Ret` and `Trapped`. An error leaves a first part of it written. A line that says no number is written without
/// memory, that of want of memory among them.
pub fn write_fault<E: Sink>(alloc: Global, end: &End, err: &mut E) -> Result<(), SinkError>
    ensures ok { OnOk result (Takes (E.taken err.old) (E.taken err.new) (fault_line end.now)) }
    ensures prefix { TakesPrefix (E.taken err.old) (E.taken err.new) (fault_line end.now) }
    ensures failed { IsErrOf result SinkError.Failed → StopsWithin (output_of E.taken E.faults err.old err.new) (fault_line end.now) }
    ensures later { E.faults err.old ≤ E.faults err.new }
{
    match end {
        End::Ret | End::Trapped => write_fixed(end, "", err),
        End::Usage => write_fixed(end, "det: usage: run|walk|asm|bench\n", err),
        End::ReadFault => write_fixed(end, "det: read fault\n", err),
        End::WriteFault => write_fixed(end, "det: write fault\n", err),
        End::NoMemory => write_fixed(end, "det: out of memory\n", err),
        End::BadImage(e) => write_made(end, format!(in alloc; "det: image: {e}\n"), err),
        End::BadElf(e) => write_made(end, format!(in alloc; "det: elf: {e}\n"), err),
        End::BadScript(e) => write_made(end, format!(in alloc; "det: script: {e}\n"), err),
        End::BadSchedule(e) => write_made(end, format!(in alloc; "det: schedule: {e}\n"), err),
        End::BadSource(e) => {
            let line = e.line;
            let kind = e.kind.name();
            write_made(
                end,
                format!(in alloc; "det: source: line {line}: {kind}\n"),
                err,
            )
        }
        End::TooLarge { read } => {
            let read = *read;
            write_made(
                end,
                format!(in alloc; "det: too large: {read} bytes read\n"),
                err,
            )
        }
    }
}
