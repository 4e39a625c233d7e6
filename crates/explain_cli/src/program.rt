ghost use Rattle.std.specs.Prelude.{◌≡◌, map, string_bytes};
ghost use Rattle.det_cli.specs.Files.{input_of};
ghost use Rattle.det_host.specs.Writing.{output_of};
ghost use Rattle.explain_cli.specs.Answers.{Answers};
ghost use Rattle.explain_cli.specs.Ends.{status_of};

use crate::end::{End, status};
use crate::main_call::perform;
use crate::saying::say;
use det_host::{Loader, Sink};
use std::alloc::Global;

/// How the program ended, and the status that it ends with.
#[derive(Clone, Copy, Debug, PartialEq, Eq)]
pub struct Exit {
    pub end: End,
    pub status: u8,
}

/// Does all that the program does: writes the text that words ask for about the program itself, to `out`; or reads the
/// words, loads the image and the script that they name, and writes to `out` the answer to what they ask about the run.
/// Then writes the line of an end that is no success to `err`.
///
/// Where the loader does not tell a file, there are bytes of which all of this is true. Of sinks that do not tell what they took the counts are
/// promised all the same. It starts no threads and waits for none.
pub fn explain_main<L: Loader, O: Sink, E: Sink>(
    alloc: Global,
    words: &[String],
    files: &mut L,
    out: &mut O,
    err: &mut E,
) -> Exit
    ensures answers { Answers (record {
      words = map string_bytes words.now;
      input = input_of L.told L.asked L.faults files.old files.new;
      out = output_of O.taken O.faults out.old out.new;
      err = output_of E.taken E.faults err.old err.new;
      end = result.end;
    }) }
    ensures status { result.status ≡ status_of result.end }
{
    let ended = perform(alloc, words, files, out);
    let end = say(alloc, ended, err);
    Exit {
        end,
        status: status(&end),
    }
}
