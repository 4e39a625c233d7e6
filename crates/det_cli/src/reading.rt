ghost use Rattle.std.specs.Prelude.{◌≡◌, ◌≤◌, ◌<◌, ◌^◌, List, ℕ};
ghost use Rattle.command_line.specs.Line as line;
ghost use Rattle.command_line.specs.Line.{engine_of, run_of, IsStaffed};
ghost use Rattle.det_cli.specs.Files.{input_of};
ghost use Rattle.det_cli.specs.Commands.{run_shows, steps_of, whole_of};
ghost use Rattle.det_cli.specs.Stages.{LoadsFile, Reads, ReadsFile};

use crate::end::End;
use crate::evaluating::{Plan, read_plan};
use crate::formats::FileFormat;
use command_line::Run;
use det_host::{LoadError, Loader};
use dev_script::Devices;
use image_file::Image;
use std::alloc::Global;

/// The bytes of a file that has at most `room`.
#[tactic(auto, using(crate::proofs::Stages::too_large))]
fn load<L: Loader>(alloc: Global, files: &mut L, name: &str, room: u64) -> Result<Vec<u8>, End>
    requires { room < 2 ^ 32 }
    ensures loaded { LoadsFile (λ v. v.items) (record { name = name.now; room = room })
        (input_of L.told L.asked L.faults files.old files.new) result }
    ensures later { L.faults files.old ≤ L.faults files.new }
    ensures told { (other : List ℕ) → L.told files.new other ≡ L.told files.old other }
{
    match files.load(alloc, name, room) {
        Ok(bytes) => Ok(bytes),
        Err(LoadError::Failed) => Err(End::ReadFault),
        Err(LoadError::TooLarge { read }) => Err(End::TooLarge { read }),
        Err(LoadError::Memory) => Err(End::NoMemory),
    }
}

/// What a file is read as. It is loaded once.
pub fn load_as<L: Loader, T: FileFormat>(alloc: Global, files: &mut L, name: &str) -> Result<T, End>
    ensures file { ReadsFile T.reads (record { name = name.now; room = T.ROOM; refuse = T.refusal })
        (input_of L.told L.asked L.faults files.old files.new) result }
    ensures later { L.faults files.old ≤ L.faults files.new }
    ensures told { (other : List ℕ) → L.told files.new other ≡ L.told files.old other }
{
    let bytes = load(alloc, files, name, T::ROOM)?;
    T::read(alloc, &bytes)
}

/// The image, the devices and the plan of a run, where none of its files is refused. Each file is loaded once, and read before the
/// next is loaded.
pub(crate) fn read_run<L: Loader>(
    alloc: Global,
    files: &mut L,
    run: &Run<'_>,
) -> Result<(Image, Devices, Plan), End>
    requires { IsStaffed (engine_of run.now.engine) }
    ensures reads { Reads (λ x. run_shows run.now.fuel run.now.digest x.0 x.1)
        (steps_of (line.run (run_of run.now))) (whole_of (line.run (run_of run.now)))
        (input_of L.told L.asked L.faults files.old files.new) result }
    ensures later { L.faults files.old ≤ L.faults files.new }
{
    let image = load_as::<L, Image>(alloc, files, run.image)?;
    let devices = load_as::<L, Devices>(alloc, files, run.script)?;
    let plan = read_plan(alloc, files, run.engine)?;
    Ok((image, devices, plan))
}
