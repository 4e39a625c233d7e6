ghost use Rattle.std.specs.Prelude.{◌≡◌, ◌≤◌, true, IfOk, IsErrOf};
ghost use Rattle.space_model.specs.Space.{Space, is_settled};
ghost use Rattle.space_model.specs.Sound.{IsSound};
ghost use Rattle.run_model.specs.Demand.{settle_tree};
ghost use Rattle.report_model.specs.Report.{console_of};
ghost use Rattle.det_host.specs.Writing.{StopsWithin, Wrote, WrotePrefix, output_of};
ghost use Rattle.det_cli.specs.Ending.{BringsToEnds};
ghost use Rattle.det_cli.specs.Shown.{ShowsConsole};

use crate::end::End;
use crate::evaluating::{Booted, Plan};
use crate::limits::QUANTUM;
use crate::running::write_end;
use demand_eval::{StreamFault, settle_to, write_console};
use det_core::walk;
use det_host::Sink;
use round_eval::rounds_to;
use space_tree::{Path, Space};
use std::alloc::{AllocError, Global};
use std::thread::Threads;

// The events at these paths happen, and then all that is left to run; the console is written from the settling on.
#[tactic(auto, using(crate::proofs::Shown::stands_within))]
fn walk_and_stream<O: Sink>(
    alloc: Global,
    paths: &[Path],
    root: Space,
    out: &mut O,
) -> Result<Space, StreamFault>
    requires { IsSound root }
    ensures meaning { IfOk result (λ s. s ≡ settle_tree root) }
    ensures settled { IfOk result (λ s. is_settled s ≡ true) }
    ensures written { IfOk result (λ s. Wrote (output_of O.taken O.faults out.old out.new) (console_of s)) }
    ensures stops { (at : Space) → IsErrOf result (StreamFault.Write at) → StopsWithin (output_of O.taken O.faults out.old out.new) (console_of (settle_tree root)) }
    ensures prefix { WrotePrefix (output_of O.taken O.faults out.old out.new) (console_of (settle_tree root)) }
    ensures later { O.faults out.old ≤ O.faults out.new }
{
    match walk(alloc, root, paths) {
        Ok(walked) => settle_to(alloc, walked, out),
        Err(_) => Err(StreamFault::Memory),
    }
}

// Brings a root to its end as `settle_still` does, and writes its console as it grows.
#[tactic(auto, using(crate::proofs::Shown::stands_within))]
fn stream_still<O: Sink>(
    rt: &(impl Threads + Sync),
    alloc: Global,
    booted: Booted,
    out: &mut O,
) -> Result<Space, StreamFault>
    requires { IsSound booted.root }
    ensures meaning { IfOk result (λ s. s ≡ settle_tree booted.root) }
    ensures settled { IfOk result (λ s. is_settled s ≡ true) }
    ensures written { IfOk result (λ s. Wrote (output_of O.taken O.faults out.old out.new) (console_of s)) }
    ensures stops { (at : Space) → IsErrOf result (StreamFault.Write at) → StopsWithin (output_of O.taken O.faults out.old out.new) (console_of (settle_tree booted.root)) }
    ensures prefix { WrotePrefix (output_of O.taken O.faults out.old out.new) (console_of (settle_tree booted.root)) }
    ensures later { O.faults out.old ≤ O.faults out.new }
{
    let Booted { root, plan } = booted;
    match plan {
        Plan::Demand | Plan::Pool(_) | Plan::Seats(_) => settle_to(alloc, root, out),
        Plan::Rounds => rounds_to(rt, alloc, root, QUANTUM, out),
        Plan::Schedule(paths) => walk_and_stream(alloc, &paths, root, out),
    }
}

// Brings a root to its end, and writes its console then.
fn settle_then_write<F: Fn(Booted) -> Result<Space, AllocError>, O: Sink>(
    settle: &F,
    alloc: Global,
    booted: Booted,
    out: &mut O,
) -> Result<Space, End>
    requires sound { IsSound booted.root }
    requires settles { BringsToEnds (F.pre settle.now) (F.post settle.now) }
    ensures shows { ShowsConsole (output_of O.taken O.faults out.old out.new) booted.root result }
    ensures later { O.faults out.old ≤ O.faults out.new }
{
    let Ok(space) = settle(booted) else {
        return Err(End::NoMemory);
    };
    match write_console(alloc, &space, out) {
        Ok(()) => Ok(space),
        Err(error) => Err(write_end(error)),
    }
}

// Brings a root to its end, and writes its console as it grows.
fn write_as_it_grows<O: Sink>(
    rt: &(impl Threads + Sync),
    alloc: Global,
    booted: Booted,
    out: &mut O,
) -> Result<Space, End>
    requires { IsSound booted.root }
    ensures shows { ShowsConsole (output_of O.taken O.faults out.old out.new) booted.root result }
    ensures later { O.faults out.old ≤ O.faults out.new }
{
    match stream_still(rt, alloc, booted, out) {
        Ok(space) => Ok(space),
        Err(StreamFault::Write { .. }) => Err(End::WriteFault),
        Err(StreamFault::Memory) => Err(End::NoMemory),
    }
}

/// Brings a root to its end by a plan, and writes its console: as it grows, and where the plan is of workers, at the end.
pub(crate) fn show_console<F: Fn(Booted) -> Result<Space, AllocError>, O: Sink>(
    rt: &(impl Threads + Sync),
    settle: &F,
    alloc: Global,
    booted: Booted,
    out: &mut O,
) -> Result<Space, End>
    requires sound { IsSound booted.root }
    requires settles { BringsToEnds (F.pre settle.now) (F.post settle.now) }
    ensures shows { ShowsConsole (output_of O.taken O.faults out.old out.new) booted.root result }
    ensures later { O.faults out.old ≤ O.faults out.new }
{
    match booted.plan {
        Plan::Pool(_) | Plan::Seats(_) => settle_then_write(settle, alloc, booted, out),
        _ => write_as_it_grows(rt, alloc, booted, out),
    }
}
