ghost use Rattle.std.specs.Prelude.{◌≡◌};
ghost use Rattle.det_cli.specs.Status.{status_of};

use det_core::ScheduleError;
use dev_script::ScriptError;
use elf_image::ElfError;
use image_file::ImageError;
use rv_asm::AsmError;

/// How a call of the program ended.
#[derive(Clone, Copy, Debug, PartialEq, Eq)]
pub enum End {
    /// All was written; of a run, the root stopped by the call Ret.
    Ret,
    /// All was written, and the root stopped for another cause.
    Trapped,
    /// The words are no command.
    Usage,
    /// There is room for the bytes of the image, and they are no image; with its first fault.
    BadImage(ImageError),
    /// There is room for the bytes of the image, they begin as an executable file does, and they are none; with its first fault.
    BadElf(ElfError),
    /// There is room for the bytes of the script, and they are no script; with its first line that is refused.
    BadScript(ScriptError),
    /// There is room for the bytes of the schedule, and they are no schedule; with its first line that is refused.
    BadSchedule(ScheduleError),
    /// There is room for the bytes of the source, and they are no source; with its first fault.
    BadSource(AsmError),
    /// A file has more bytes than there is room for; `read` is one more than the room.
    TooLarge { read: u64 },
    /// A file could not be loaded.
    ReadFault,
    /// The console or the report could not be written whole.
    WriteFault,
    /// Memory ran out.
    NoMemory,
}

/// The status with which the program ends: 0 to 6.
pub fn status(end: &End) -> u8
    ensures { result ≡ status_of end.now }
{
    match end {
        End::Ret => 0,
        End::Trapped => 1,
        End::Usage => 2,
        End::BadImage(_)
        | End::BadElf(_)
        | End::BadScript(_)
        | End::BadSchedule(_)
        | End::BadSource(_)
        | End::TooLarge { .. } => 3,
        End::ReadFault => 4,
        End::WriteFault => 5,
        End::NoMemory => 6,
    }
}
