ghost use Rattle.std.specs.Prelude.{◌≡◌, ◌<◌, ◌^◌, ℕ, List, Option, Ok, IfOk, true};
ghost use Rattle.std.proofs.Common.{lit<};
ghost use Rattle.det_core.specs.View.{path_views};
ghost use Rattle.det_cli.specs.declared.end.End as end;
ghost use Rattle.det_cli.specs.Commands.{devices_of_file, image_of_file, image_of_source, image_room, paths_of_file, refusal_of, schedule_room, script_room, source_room};
ghost use Rattle.det_cli.specs.Stages.{GivesRefusal};
ghost use Rattle.elf_model.specs.Elf.{is_elf};

use crate::end::End;
use crate::limits::{IMAGE_ROOM, SCHEDULE_ROOM, SCRIPT_ROOM, SOURCE_ROOM};
use det_core::{ScheduleFault, read_schedule};
use dev_script::{Devices, ScriptFault, read_script};
use elf_image::{ElfFault, begins_as_elf, read_elf};
use image_file::{Image, ImageFault, read_image};
use rv_asm::{AsmFault, assemble};
use space_tree::Path;
use std::alloc::Global;

/// What a file is read as.
pub trait FileFormat: Drop + Sized {
    /// The most bytes of a file.
    const ROOM: u64;

    ghost ROOM: { ℕ };

    /// Bytes that are read as this value.
    ghost reads: { List ℕ → Self → Type 0 };

    /// The end of bytes that are refused.
    ghost refusal: { List ℕ → Option end.End };

    /// What these bytes are read as, or the end that names their first fault. One error more is want of memory.
    fn read(alloc: Global, bytes: &[u8]) -> Result<Self, End>
        ensures ok { IfOk result (λ value. reads bytes.now value) }
        ensures judged { GivesRefusal (refusal bytes.now) result };

    ghost small: { ROOM < 2 ^ 32 };
}

// An executable file.
fn read_executable(alloc: Global, bytes: &[u8]) -> Result<Image, End>
    requires { is_elf bytes.now ≡ true }
    ensures ok { IfOk result (λ image. image_of_file bytes.now ≡ Ok image) }
    ensures judged { GivesRefusal (refusal_of (image_of_file bytes.now)) result }
{
    match read_elf(alloc, bytes) {
        Ok(image) => Ok(image),
        Err(ElfFault::Bad(e)) => Err(End::BadElf(e)),
        Err(ElfFault::Memory) => Err(End::NoMemory),
    }
}

// The first bytes say the format.
impl FileFormat for Image {
    const ROOM: u64 = IMAGE_ROOM;

    ghost ROOM = { image_room };

    ghost reads = { λ bytes image. image_of_file bytes ≡ Ok image };

    ghost refusal = { λ bytes. refusal_of (image_of_file bytes) };

    ghost small = { lit< tt };

    fn read(alloc: Global, bytes: &[u8]) -> Result<Image, End> {
        if begins_as_elf(bytes) {
            return read_executable(alloc, bytes);
        }
        match read_image(alloc, bytes) {
            Ok(image) => Ok(image),
            Err(ImageFault::Bad(e)) => Err(End::BadImage(e)),
            Err(ImageFault::Memory) => Err(End::NoMemory),
        }
    }
}

// A script.
impl FileFormat for Devices {
    const ROOM: u64 = SCRIPT_ROOM;

    ghost ROOM = { script_room };

    ghost reads = { λ bytes devices. devices_of_file bytes ≡ Ok devices };

    ghost refusal = { λ bytes. refusal_of (devices_of_file bytes) };

    ghost small = { lit< tt };

    fn read(alloc: Global, bytes: &[u8]) -> Result<Devices, End> {
        match read_script(alloc, bytes) {
            Ok(devices) => Ok(devices),
            Err(ScriptFault::Bad(e)) => Err(End::BadScript(e)),
            Err(ScriptFault::Memory) => Err(End::NoMemory),
        }
    }
}

// A schedule.
impl FileFormat for Vec<Path> {
    const ROOM: u64 = SCHEDULE_ROOM;

    ghost ROOM = { schedule_room };

    ghost reads = { λ bytes paths. paths_of_file bytes ≡ Ok (path_views paths.items) };

    ghost refusal = { λ bytes. refusal_of (paths_of_file bytes) };

    ghost small = { lit< tt };

    fn read(alloc: Global, bytes: &[u8]) -> Result<Vec<Path>, End> {
        match read_schedule(alloc, bytes) {
            Ok(paths) => Ok(paths),
            Err(ScheduleFault::Bad(e)) => Err(End::BadSchedule(e)),
            Err(ScheduleFault::Memory) => Err(End::NoMemory),
        }
    }
}

/// The image of a source file.
#[derive(Drop)]
pub(crate) struct Assembled {
    pub(crate) image: Image,
}

impl FileFormat for Assembled {
    const ROOM: u64 = SOURCE_ROOM;

    ghost ROOM = { source_room };

    ghost reads = { λ bytes made. image_of_source bytes ≡ Ok made.image };

    ghost refusal = { λ bytes. refusal_of (image_of_source bytes) };

    ghost small = { lit< tt };

    fn read(alloc: Global, bytes: &[u8]) -> Result<Assembled, End> {
        match assemble(alloc, bytes) {
            Ok(image) => Ok(Assembled { image }),
            Err(AsmFault::Bad(e)) => Err(End::BadSource(e)),
            Err(AsmFault::Memory) => Err(End::NoMemory),
        }
    }
}
