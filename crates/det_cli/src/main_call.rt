ghost use Rattle.std.specs.Prelude.{◌≤◌, map, string_bytes};
ghost use Rattle.command_line.specs.Line.{line_of, IsInRange};
ghost use Rattle.det_cli.specs.Files.{input_of};
ghost use Rattle.det_host.specs.Writing.{output_of};
ghost use Rattle.det_cli.specs.Answers.{Answers, Course};
ghost use Rattle.space_model.specs.Sound.{IsSound};
ghost use Rattle.det_cli.specs.Ending.{BringsToEnds, Ends};
ghost use Rattle.std.specs.Thread.{IsSync};

use crate::assembling::assemble_source;
use crate::benching::bench;
use crate::end::End;
use crate::evaluating::{Booted, settle_still};
use crate::pooling::settle_pooled;
use crate::running::run_image;
use command_line::{Command, Engine, Run, read_line};
use det_host::{Gate, Loader, Sink};
use space_tree::Space;
use std::alloc::{AllocError, Global};
use std::sync::Wait;
use std::thread::Threads;

// Does what a command asks for.
fn carry_out<F: Fn(Booted) -> Result<Space, AllocError>, L: Loader, O: Sink, E: Sink>(
    rt: &(impl Threads + Sync),
    settle: &F,
    alloc: Global,
    command: Command<'_>,
    files: &mut L,
    out: &mut O,
    err: &mut E,
) -> End
    requires range { IsInRange (line_of command) }
    requires settles { BringsToEnds (F.pre settle.now) (F.post settle.now) }
    ensures course { Course (line_of command.entry)
        (input_of L.told L.asked L.faults files.old files.new)
        (output_of O.taken O.faults out.old out.new)
        (output_of E.taken E.faults err.old err.new) result }
    ensures files_later { L.faults files.old ≤ L.faults files.new }
    ensures out_later { O.faults out.old ≤ O.faults out.new }
    ensures err_later { E.faults err.old ≤ E.faults err.new }
{
    match command {
        Command::Run(run) => run_image(rt, settle, alloc, &run, files, out, err),
        Command::Asm { source } => assemble_source(alloc, source, files, out, err),
        Command::Bench { engine, seed } => bench(settle, alloc, engine, seed, files, out),
    }
}

/// Does what `det_main` does, and returns, whatever the words: a line that names the engine `pool` or `seats` is run on demand.
///
/// The runtime gives memory, and for rounds the threads of the host. It waits for no other thread but those that it has started and that have all
/// they need to end.
pub fn det_still<R: AllocGlobal + Threads + Sync, L: Loader, O: Sink, E: Sink>(
    rt: &R,
    words: &[String],
    files: &mut L,
    out: &mut O,
    err: &mut E,
) -> End
    ensures { Answers (record {
      words = map string_bytes words.now;
      input = input_of L.told L.asked L.faults files.old files.new;
      out = output_of O.taken O.faults out.old out.new;
      err = output_of E.taken E.faults err.old err.new;
      end = result;
    }) }
{
    let alloc = rt.alloc();
    let Ok(named) = read_line(alloc, words) else {
        return End::NoMemory;
    };
    match named {
        Some(command) => {
            let settle = |booted: Booted| -> Result<Space, AllocError>
                requires { IsSync R.row × IsSound booted.root }
                ensures { Ends booted.root result }
            { settle_still(rt, alloc, booted) };
            carry_out(rt, &settle, alloc, command, files, out, err)
        }
        None => End::Usage,
    }
}

// Whether workers in threads of their own are to do what a command asks for.
fn is_by_workers(command: &Command<'_>) -> bool {
    match command {
        Command::Run(Run { engine, .. }) | Command::Bench { engine, .. } => {
            matches!(engine, Engine::Pool { .. } | Engine::Seats { .. })
        }
        Command::Asm { .. } => false,
    }
}

// As `carry_out`, by workers where the command names a pool or seats. `gate` is told of their events.
fn carry_out_pooled<R: Threads + Wait + Sync, L: Loader, O: Sink, E: Sink, G: Gate>(
    rt: &R,
    alloc: Global,
    command: Command<'_>,
    files: &mut L,
    out: &mut O,
    err: &mut E,
    gate: &G,
) -> End
    requires range { IsInRange (line_of command) }
    ensures course { Course (line_of command.entry)
        (input_of L.told L.asked L.faults files.old files.new)
        (output_of O.taken O.faults out.old out.new)
        (output_of E.taken E.faults err.old err.new) result }
    ensures files_later { L.faults files.old ≤ L.faults files.new }
    ensures out_later { O.faults out.old ≤ O.faults out.new }
    ensures err_later { E.faults err.old ≤ E.faults err.new }
{
    if is_by_workers(&command) {
        let settle = |booted: Booted| -> Result<Space, AllocError>
            requires { IsSync R.row × IsSync G.row × IsSound booted.root }
            ensures { Ends booted.root result }
        { settle_pooled(rt, alloc, booted, gate) };
        carry_out(rt, &settle, alloc, command, files, out, err)
    } else {
        let settle = |booted: Booted| -> Result<Space, AllocError>
            requires { IsSync R.row × IsSound booted.root }
            ensures { Ends booted.root result }
        { settle_still(rt, alloc, booted) };
        carry_out(rt, &settle, alloc, command, files, out, err)
    }
}

/// Does all that the program does but for the fault line: reads the words, loads the files that they name, and
/// runs an image, on demand, in rounds, by a pool of workers, by workers in seats or by a schedule, and writes its console to `out` and then the report
/// to `err`; or writes the image of a source, or the summary of an image that is made from a number, to `out`.
///
/// The runtime gives memory, for rounds and for workers the threads of the host, and for workers the leave to wait. `gate` is told of the events of the
/// workers. No clause says that they come to their end: so a line that names the engine `pool` or `seats` may wait for ever. Each other line takes no leave to
/// wait, and returns.
///
/// Where the loader does not tell a file, there are bytes of which all of this is true. Of sinks that do not tell what they took the
/// counts are promised all the same.
pub fn det_main<R: AllocGlobal + Threads + Wait + Sync, L: Loader, O: Sink, E: Sink, G: Gate>(
    rt: &R,
    words: &[String],
    files: &mut L,
    out: &mut O,
    err: &mut E,
    gate: &G,
) -> End
    ensures { Answers (record {
      words = map string_bytes words.now;
      input = input_of L.told L.asked L.faults files.old files.new;
      out = output_of O.taken O.faults out.old out.new;
      err = output_of E.taken E.faults err.old err.new;
      end = result;
    }) }
{
    let alloc = rt.alloc();
    let Ok(named) = read_line(alloc, words) else {
        return End::NoMemory;
    };
    match named {
        Some(command) => carry_out_pooled(rt, alloc, command, files, out, err, gate),
        None => End::Usage,
    }
}
