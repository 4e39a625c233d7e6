ghost use Rattle.std.specs.Prelude.{◌≡◌, ◌≤◌, ℕ, List, Option, Some, true, IfOk};
ghost use Rattle.space_model.specs.Space.{is_settled};
ghost use Rattle.space_model.specs.Sound.{IsSound};
ghost use Rattle.run_model.specs.Demand.{settle_tree};
ghost use Rattle.command_line.specs.Line.{engine_of, IsStaffed};
ghost use Rattle.det_cli.specs.Files.{Expectation, input_of};
ghost use Rattle.det_cli.specs.Commands.{engine_steps};
ghost use Rattle.det_cli.specs.Status.{IsDone};
ghost use Rattle.det_cli.specs.Stages.{Reads};
ghost use Rattle.det_cli.specs.Ending.{Ends};

use crate::end::End;
use crate::limits::QUANTUM;
use crate::reading::load_as;
use crate::staff::{Staff, staff_of};
use command_line::Engine;
use demand_eval::settle;
use det_core::walk;
use det_host::Loader;
use round_eval::rounds;
use space_tree::{Path, Space};
use std::alloc::{AllocError, Global};
use std::thread::Threads;

/// An engine whose files were read: in which order the events of a tree happen.
#[derive(Drop)]
pub(crate) enum Plan {
    /// Each space runs when its parent waits for it.
    Demand,
    /// All spaces that can go on run side by side, round by round.
    Rounds,
    /// Workers take whichever space can go on, as they come.
    Pool(Staff),
    /// Workers take turns, in the order of their tickets.
    Seats(Staff),
    /// First the events at these paths, and then whatever is left to run.
    Schedule(Vec<Path>),
}

/// The plan of an engine, where none of its files is refused. Each file is loaded once.
pub(crate) fn read_plan<L: Loader>(
    alloc: Global,
    files: &mut L,
    engine: Engine<'_>,
) -> Result<Plan, End>
    requires { IsStaffed (engine_of engine) }
    // Whatever a command makes, these files do not change it.
    ensures reads { (whole : List (List ℕ) → Option Expectation) (e : Expectation) → ((rest : List (List ℕ)) → whole rest ≡ Some e) → IsDone e.end
        → Reads (λ plan. e) (engine_steps (engine_of engine.entry)) whole (input_of L.told L.asked L.faults files.old files.new) result }
    ensures later { L.faults files.old ≤ L.faults files.new }
{
    match engine {
        Engine::Demand => Ok(Plan::Demand),
        Engine::Rounds => Ok(Plan::Rounds),
        Engine::Pool {
            workers,
            nodes,
            link,
        } => Ok(Plan::Pool(staff_of(workers, nodes, link))),
        Engine::Seats {
            workers,
            nodes,
            link,
        } => Ok(Plan::Seats(staff_of(workers, nodes, link))),
        Engine::Schedule(name) => {
            let paths = load_as::<L, Vec<Path>>(alloc, files, name)?;
            Ok(Plan::Schedule(paths))
        }
    }
}

// The events at these paths happen, and then all that is left to run.
fn walk_and_settle(alloc: Global, paths: &[Path], root: Space) -> Result<Space, AllocError>
    requires { IsSound root }
    ensures meaning { IfOk result (λ s. s ≡ settle_tree root) }
    ensures settled { IfOk result (λ s. is_settled s ≡ true) }
{
    let walked = walk(alloc, root, paths)?;
    settle(alloc, walked)
}

/// A root that is to be brought to its end, and the plan by which.
#[derive(Drop)]
pub(crate) struct Booted {
    pub(crate) root: Space,
    pub(crate) plan: Plan,
}

/// Brings a root to its end: on all processors where the plan is of rounds, and else on this thread, a plan of workers too, which is then done on demand. It
/// waits for no other thread but those that it has started and that have all they need to end: so it returns, whatever the plan. The one error is want of
/// memory.
pub(crate) fn settle_still(
    rt: &(impl Threads + Sync),
    alloc: Global,
    booted: Booted,
) -> Result<Space, AllocError>
    requires { IsSound booted.root }
    ensures { Ends booted.root result }
{
    let Booted { root, plan } = booted;
    match plan {
        Plan::Demand | Plan::Pool(_) | Plan::Seats(_) => settle(alloc, root),
        Plan::Rounds => rounds(rt, alloc, root, QUANTUM),
        Plan::Schedule(paths) => walk_and_settle(alloc, &paths, root),
    }
}
