ghost use Rattle.std.specs.Prelude.{◌≤◌};
ghost use Rattle.image_model.specs.Image.{image_bytes};
ghost use Rattle.command_line.specs.Line.{asm};
ghost use Rattle.det_cli.specs.Commands.{expectation_of_bytes};
ghost use Rattle.det_cli.specs.Files.{input_of};
ghost use Rattle.det_host.specs.Writing.{IsUntouched, Output, output_of};
ghost use Rattle.det_cli.specs.Answers.{Course, Writes};

use crate::end::End;
use crate::formats::Assembled;
use crate::reading::load_as;
use crate::running::write_end;
use det_host::{Loader, Sink, write_all};
use image_file::{Image, write_image};
use std::alloc::Global;

// Writes the bytes of an image.
fn write_made<O: Sink>(alloc: Global, image: &Image, out: &mut O) -> End
    ensures writes { (err : Output) → IsUntouched err
        → Writes (expectation_of_bytes (image_bytes image.now)) (output_of O.taken O.faults out.old out.new) err result }
    ensures out_later { O.faults out.old ≤ O.faults out.new }
{
    let Ok(bytes) = write_image(alloc, image) else {
        return End::NoMemory;
    };
    match write_all(out, &bytes) {
        Ok(()) => End::Ret,
        Err(error) => write_end(error),
    }
}

/// Writes the image of a source file.
pub(crate) fn assemble_source<L: Loader, O: Sink, E: Sink>(
    alloc: Global,
    source: &str,
    files: &mut L,
    out: &mut O,
    err: &mut E,
) -> End
    ensures course { Course (asm source.now)
        (input_of L.told L.asked L.faults files.old files.new)
        (output_of O.taken O.faults out.old out.new)
        (output_of E.taken E.faults err.old err.new) result }
    ensures files_later { L.faults files.old ≤ L.faults files.new }
    ensures out_later { O.faults out.old ≤ O.faults out.new }
    ensures err_later { E.faults err.old ≤ E.faults err.new }
{
    match load_as::<L, Assembled>(alloc, files, source) {
        Ok(made) => write_made(alloc, &made.image, out),
        Err(end) => end,
    }
}
