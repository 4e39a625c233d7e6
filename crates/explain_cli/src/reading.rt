ghost use Rattle.std.specs.Prelude.{◌≤◌};
ghost use Rattle.det_cli.specs.Files.{input_of};
ghost use Rattle.explain_words.specs.Line.{line_of};
ghost use Rattle.explain_cli.specs.Stages.{ReadsRun};

use crate::names::{NamedImage, Names};
use det_cli::{End as Failure, load_as};
use det_host::Loader;
use dev_script::Devices;
use explain_words::Command;
use image_file::Image;
use std::alloc::Global;

/// What the files of a command are read as.
#[derive(Drop)]
pub(crate) struct Loaded {
    pub(crate) image: Image,
    pub(crate) devices: Devices,
    /// What gives names to addresses: what is given, or else the image, where it is an executable file.
    pub(crate) names: Option<Names>,
}

/// What the files of a command are read as, where none is refused. Each file is loaded once, and read before the next is
/// loaded.
pub(crate) fn read_run<L: Loader>(
    alloc: Global,
    files: &mut L,
    command: &Command<'_>,
) -> Result<Loaded, Failure>
    ensures reads { ReadsRun (line_of command.now) (input_of L.told L.asked L.faults files.old files.new) result }
    ensures later { L.faults files.old ≤ L.faults files.new }
{
    let NamedImage { image, names } = load_as::<L, NamedImage>(alloc, files, command.image)?;
    let devices = load_as::<L, Devices>(alloc, files, command.script)?;
    match command.source {
        Some(source) => {
            let names = load_as::<L, Names>(alloc, files, source)?;
            Ok(Loaded {
                image,
                devices,
                names: Some(names),
            })
        }
        None => Ok(Loaded {
            image,
            devices,
            names,
        }),
    }
}
