ghost use Rattle.std.specs.Prelude.{◌≡◌, ◌≤◌, ◌⊎◌, map, string_bytes};
ghost use Rattle.det_cli.specs.Status.{status_of};
ghost use Rattle.det_cli.specs.Files.{input_of};
ghost use Rattle.det_host.specs.Writing.{output_of};
ghost use Rattle.det_cli.specs.Answers.{Says, Program};

use crate::end::{End, status};
use crate::fault_line::write_fault;
use crate::main_call::det_main;
use det_host::{Gate, Loader, Sink, SinkError};
use std::alloc::Global;
use std::sync::Wait;
use std::thread::Threads;

/// How the program ended, and the status that it ends with.
#[derive(Clone, Copy, Debug, PartialEq, Eq)]
pub struct Exit {
    pub end: End,
    pub status: u8,
}

// Writes the line of an end. Where that finds no memory, that is the end.
fn say<E: Sink>(alloc: Global, ended: End, err: &mut E) -> End
    ensures line { Says (output_of E.taken E.faults err.old err.new) result }
    ensures end { (result ≡ ended) ⊎ (result ≡ End.NoMemory) }
    ensures later { E.faults err.old ≤ E.faults err.new }
{
    match write_fault(alloc, &ended, err) {
        Ok(()) | Err(SinkError::Failed) => ended,
        Err(SinkError::Memory) => End::NoMemory,
    }
}

/// Does all that the program does: what `det_main` does, and then the line that names a fault's cause. As that it returns on each line but those of a pool or of seats.
pub fn det_program<R: AllocGlobal + Threads + Wait + Sync, L: Loader, O: Sink, E: Sink, G: Gate>(
    rt: &R,
    words: &[String],
    files: &mut L,
    out: &mut O,
    err: &mut E,
    gate: &G,
) -> Exit
    ensures answers { Program (record {
      words = map string_bytes words.now;
      input = input_of L.told L.asked L.faults files.old files.new;
      out = output_of O.taken O.faults out.old out.new;
      err = output_of E.taken E.faults err.old err.new;
      end = result.end;
    }) }
    ensures status { result.status ≡ status_of result.end }
{
    let ended = det_main(rt, words, files, out, err, gate);
    let end = say(rt.alloc(), ended, err);
    Exit {
        end,
        status: status(&end),
    }
}
