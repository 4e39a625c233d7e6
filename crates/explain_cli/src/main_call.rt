ghost use Rattle.std.specs.Prelude.{◌≤◌, map, string_bytes};
ghost use Rattle.det_cli.specs.Files.{input_of};
ghost use Rattle.det_host.specs.Writing.{output_of};
ghost use Rattle.explain_words.specs.Line.{IsInRange, line_of};
ghost use Rattle.explain_cli.specs.About.{text_asked};
ghost use Rattle.explain_cli.specs.Answers.{Begun, BegunOf, Course};

use crate::about::text_asked;
use crate::end::End;
use crate::explaining::{explain_run, write_text};
use crate::reading::read_run;
use det_cli::End as Failure;
use det_host::{Loader, Sink};
use explain_words::{Command, read_line};
use std::alloc::Global;

// Does what a command asks for.
fn carry_out<L: Loader, O: Sink>(
    alloc: Global,
    command: &Command<'_>,
    files: &mut L,
    out: &mut O,
) -> End
    requires { IsInRange (line_of command.now) }
    ensures course { Course (line_of command.now) (input_of L.told L.asked L.faults files.old files.new) (output_of O.taken O.faults out.old out.new) result }
    ensures files_later { L.faults files.old ≤ L.faults files.new }
    ensures out_later { O.faults out.old ≤ O.faults out.new }
{
    match read_run(alloc, files, command) {
        Ok(loaded) => explain_run(alloc, command, loaded, out),
        Err(failure) => End::Failed(failure),
    }
}

// Reads the words, and does what the command that they write asks for.
fn begin<L: Loader, O: Sink>(alloc: Global, words: &[String], files: &mut L, out: &mut O) -> End
    ensures begun { Begun (map string_bytes words.now) (input_of L.told L.asked L.faults files.old files.new) (output_of O.taken O.faults out.old out.new) result }
    ensures files_later { L.faults files.old ≤ L.faults files.new }
    ensures out_later { O.faults out.old ≤ O.faults out.new }
{
    let Ok(named) = read_line(alloc, words) else {
        return End::Failed(Failure::NoMemory);
    };
    match named {
        Some(command) => carry_out(alloc, &command, files, out),
        None => End::Usage,
    }
}

/// Does all that the program does but for the line that names its end.
pub(crate) fn perform<L: Loader, O: Sink>(
    alloc: Global,
    words: &[String],
    files: &mut L,
    out: &mut O,
) -> End
    ensures begun { BegunOf (text_asked (map string_bytes words.now)) (map string_bytes words.now) (input_of L.told L.asked L.faults files.old files.new) (output_of O.taken O.faults out.old out.new) result }
    ensures files_later { L.faults files.old ≤ L.faults files.new }
    ensures out_later { O.faults out.old ≤ O.faults out.new }
{
    match text_asked(words) {
        Some(text) => write_text(text.as_bytes(), out),
        None => begin(alloc, words, files, out),
    }
}
