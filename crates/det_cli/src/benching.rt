ghost use Rattle.std.specs.Prelude.{◌≡◌, ◌≤◌, [], IfOk};
ghost use Rattle.bench_model.specs.Generated.{generated};
ghost use Rattle.report_model.specs.Summary.{summary};
ghost use Rattle.script_model.specs.Script.{devices_from};
ghost use Rattle.command_line.specs.Line as line;
ghost use Rattle.command_line.specs.Line.{engine_of, IsStaffed};
ghost use Rattle.det_cli.specs.Commands.{bench_fuel, expectation_of_bench, settled_root};
ghost use Rattle.det_cli.specs.Files.{input_of};
ghost use Rattle.det_host.specs.Writing.{IsUntouched, Output, output_of};
ghost use Rattle.det_cli.specs.Answers.{Course, Writes};
ghost use Rattle.det_cli.specs.Ending.{BringsToEnds};

use crate::end::End;
use crate::evaluating::{Booted, Plan, read_plan};
use crate::limits::BENCH_FUEL;
use crate::running::{settled_root, write_end};
use command_line::Engine;
use det_host::{Loader, Sink, write_all};
use det_report::summary;
use dev_script::Devices;
use rv_asm::generated;
use space_tree::Space;
use std::alloc::{AllocError, Global};

// The devices of an empty script.
fn no_script(alloc: Global) -> Devices
    ensures { result ≡ devices_from [] }
{
    Devices::new(alloc)
}

// The summary of a generated image that has run on an empty script.
fn summary_of<F: Fn(Booted) -> Result<Space, AllocError>>(
    settle: &F,
    alloc: Global,
    plan: Plan,
    seed: u32,
) -> Result<Vec<u8>, AllocError>
    requires settles { BringsToEnds (F.pre settle.now) (F.post settle.now) }
    ensures { IfOk result (λ v. v.items ≡ summary (settled_root (generated seed) (devices_from []) bench_fuel)) }
{
    let image = generated(alloc, seed)?;
    let root = settled_root(settle, alloc, &image, no_script(alloc), plan, BENCH_FUEL)?;
    summary(alloc, &root)
}

// Makes an image from a number, runs it by a plan, and writes its summary.
fn sum_up<F: Fn(Booted) -> Result<Space, AllocError>, O: Sink>(
    settle: &F,
    alloc: Global,
    plan: Plan,
    seed: u32,
    out: &mut O,
) -> End
    requires settles { BringsToEnds (F.pre settle.now) (F.post settle.now) }
    ensures writes { (err : Output) → IsUntouched err
        → Writes (expectation_of_bench seed) (output_of O.taken O.faults out.old out.new) err result }
    ensures out_later { O.faults out.old ≤ O.faults out.new }
{
    let Ok(text) = summary_of(settle, alloc, plan, seed) else {
        return End::NoMemory;
    };
    match write_all(out, &text) {
        Ok(()) => End::Ret,
        Err(error) => write_end(error),
    }
}

/// Makes an image from a number, runs it by an engine, and writes its summary.
pub(crate) fn bench<F: Fn(Booted) -> Result<Space, AllocError>, L: Loader, O: Sink>(
    settle: &F,
    alloc: Global,
    engine: Engine<'_>,
    seed: u32,
    files: &mut L,
    out: &mut O,
) -> End
    requires staffed { IsStaffed (engine_of engine) }
    requires settles { BringsToEnds (F.pre settle.now) (F.post settle.now) }
    ensures course { (err : Output) → IsUntouched err → Course (line.bench (engine_of engine.entry) seed)
        (input_of L.told L.asked L.faults files.old files.new)
        (output_of O.taken O.faults out.old out.new) err result }
    ensures files_later { L.faults files.old ≤ L.faults files.new }
    ensures out_later { O.faults out.old ≤ O.faults out.new }
{
    match read_plan(alloc, files, engine) {
        Ok(plan) => sum_up(settle, alloc, plan, seed, out),
        Err(end) => end,
    }
}
