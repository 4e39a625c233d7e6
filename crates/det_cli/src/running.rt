ghost use Rattle.std.specs.Prelude.{◌≡◌, ◌≤◌, true, IfOk};
ghost use Rattle.space_model.specs.Space.{is_settled};
ghost use Rattle.command_line.specs.Line as line;
ghost use Rattle.command_line.specs.Line.{engine_of, run_of, IsStaffed};
ghost use Rattle.det_cli.specs.Commands.{end_of, run_shows, settled_root};
ghost use Rattle.det_cli.specs.Files.{input_of};
ghost use Rattle.det_host.specs.Writing.{output_of};
ghost use Rattle.det_cli.specs.Answers.{Course, Writes};
ghost use Rattle.det_cli.specs.Ending.{BringsToEnds};
ghost use Rattle.det_cli.specs.Shown.{ShowsReport};

use crate::end::End;
use crate::evaluating::{Booted, Plan};
use crate::reading::read_run;
use crate::showing::show_console;
use command_line::Run;
use det_core::boot;
use det_host::{Loader, Sink, SinkError, write_all};
use det_report::report;
use dev_script::Devices;
use image_file::Image;
use space_tree::{Cause, Space, Status};
use std::alloc::{AllocError, Global};
use std::thread::Threads;

/// The settled root of an image with these devices, where each space has so much fuel, by a plan.
pub(crate) fn settled_root<F: Fn(Booted) -> Result<Space, AllocError>>(
    settle: &F,
    alloc: Global,
    image: &Image,
    devices: Devices,
    plan: Plan,
    fuel: u32,
) -> Result<Space, AllocError>
    requires fuel { 1 ≤ fuel }
    requires settles { BringsToEnds (F.pre settle.now) (F.post settle.now) }
    ensures root { IfOk result (λ s. s ≡ settled_root image.now devices fuel) }
    ensures settled { IfOk result (λ s. is_settled s ≡ true) }
{
    let root = boot(alloc, image, devices, fuel)?;
    settle(Booted { root, plan })
}

fn end_of(space: &Space) -> End
    ensures { result ≡ end_of space.now }
{
    match space.top.status {
        Status::Stopped {
            cause: Cause::Ret,
            ..
        } => End::Ret,
        _ => End::Trapped,
    }
}

/// The end of a write that failed.
pub fn write_end(error: SinkError) -> End
    ensures failed { error ≡ SinkError.Failed → result ≡ End.WriteFault }
    ensures memory { error ≡ SinkError.Memory → result ≡ End.NoMemory }
{
    match error {
        SinkError::Failed => End::WriteFault,
        SinkError::Memory => End::NoMemory,
    }
}

// Writes the report of a settled root, with digests or without.
#[tactic(auto, using(crate::proofs::Shown::cut_short))]
fn write_report<E: Sink>(alloc: Global, space: &Space, digest: bool, err: &mut E) -> End
    requires { is_settled space.now ≡ true }
    ensures shows { ShowsReport (output_of E.taken E.faults err.old err.new) digest space.now result }
    ensures later { E.faults err.old ≤ E.faults err.new }
{
    let Ok(text) = report(alloc, space, digest) else {
        return End::NoMemory;
    };
    match write_all(err, &text) {
        Ok(()) => end_of(space),
        Err(error) => write_end(error),
    }
}

// Boots and settles the image of a run by a plan, and writes what its root shows: its console, and its report behind that.
#[tactic(auto, using(crate::proofs::Shown::shown, crate::proofs::Shown::not_shown, crate::proofs::Courses::nothing_begun))]
fn settle_and_write<F: Fn(Booted) -> Result<Space, AllocError>, O: Sink, E: Sink>(
    rt: &(impl Threads + Sync),
    settle: &F,
    alloc: Global,
    run: &Run<'_>,
    image: &Image,
    devices: Devices,
    plan: Plan,
    out: &mut O,
    err: &mut E,
) -> End
    requires fuel { 1 ≤ run.now.fuel }
    requires settles { BringsToEnds (F.pre settle.now) (F.post settle.now) }
    ensures writes { Writes (run_shows run.now.fuel run.now.digest image.now devices)
        (output_of O.taken O.faults out.old out.new)
        (output_of E.taken E.faults err.old err.new) result }
    ensures out_later { O.faults out.old ≤ O.faults out.new }
    ensures err_later { E.faults err.old ≤ E.faults err.new }
{
    let Ok(root) = boot(alloc, image, devices, run.fuel) else {
        return End::NoMemory;
    };
    match show_console(rt, settle, alloc, Booted { root, plan }, out) {
        Ok(space) => write_report(alloc, &space, run.digest, err),
        Err(end) => end,
    }
}

/// Runs an image on a script by an engine, where each space has so much fuel, and shows it with digests or without.
pub(crate) fn run_image<F: Fn(Booted) -> Result<Space, AllocError>, L: Loader, O: Sink, E: Sink>(
    rt: &(impl Threads + Sync),
    settle: &F,
    alloc: Global,
    run: &Run<'_>,
    files: &mut L,
    out: &mut O,
    err: &mut E,
) -> End
    requires fuel { 1 ≤ run.now.fuel }
    requires staffed { IsStaffed (engine_of run.now.engine) }
    requires settles { BringsToEnds (F.pre settle.now) (F.post settle.now) }
    ensures course { Course (line.run (run_of run.now))
        (input_of L.told L.asked L.faults files.old files.new)
        (output_of O.taken O.faults out.old out.new)
        (output_of E.taken E.faults err.old err.new) result }
    ensures files_later { L.faults files.old ≤ L.faults files.new }
    ensures out_later { O.faults out.old ≤ O.faults out.new }
    ensures err_later { E.faults err.old ≤ E.faults err.new }
{
    match read_run(alloc, files, run) {
        Ok((image, devices, plan)) => {
            settle_and_write(rt, settle, alloc, run, &image, devices, plan, out, err)
        }
        Err(end) => end,
    }
}
