ghost use Rattle.std.specs.Prelude.{◌≡◌, ◌*◌, ◌≤◌, true, false, IfOk, IsErrOf, OnOk, OnErr};
ghost use Rattle.space_model.specs.Space.{Space, is_settled};
ghost use Rattle.space_model.specs.Sound.{IsSound};
ghost use Rattle.report_model.specs.Report.{console_of};
ghost use Rattle.run_model.specs.Console.{most_output};
ghost use Rattle.run_model.specs.Demand.{settle_tree};
ghost use Rattle.det_host.specs.Outside.{Takes};
ghost use Rattle.det_host.specs.Writing.{TakesPrefix, output_of};
ghost use Rattle.demand_eval.specs.Streams.{Begins, Lags, StandsStill, Writes};
ghost use Rattle.round_eval.specs.Apart.{ByOneQuantum};
ghost use Rattle.round_eval.specs.Later.{IsLater};

use crate::apart::round_apart;
use crate::engine::Engine;
use demand_eval::{StreamFault, settle_on, write_console};
use det_host::{Sink, SinkError, write_all};
use space_tree::Space;
use std::alloc::Global;
use std::thread::Threads;

// A round, and what it wrote to the console goes to the sink.
fn round_to<O: Sink>(
    rt: &(impl Threads + Sync),
    engine: &mut Engine,
    space: &mut Space,
    quantum: u32,
    out: &mut O,
) -> Result<bool, SinkError>
    requires sound { IsSound space.old }
    requires quantum { 1 ≤ quantum }
    ensures ok { IfOk result (λ some. IsLater some space.old space.new) }
    ensures writes { OnOk result (Writes (output_of O.taken O.faults out.old out.new) space.old space.new) }
    ensures failed { IsErrOf result SinkError.Failed → Lags (quantum * most_output) (ByOneQuantum quantum) (output_of O.taken O.faults out.old out.new) space.old space.new }
    ensures begins { OnErr result (Begins (output_of O.taken O.faults out.old out.new) space.old) }
    ensures later { O.faults out.old ≤ O.faults out.new }
{
    let mut output = Vec::new(engine.alloc);
    let Ok(some) = round_apart(rt, engine, space, quantum, &mut output) else {
        return Err(SinkError::Memory);
    };
    if let Err(error) = write_all(out, &output) {
        return Err(error);
    }
    Ok(some)
}

// Rounds, until one has no event. What each of them writes to the console goes to the sink behind it.
fn go_to<O: Sink>(
    rt: &(impl Threads + Sync),
    alloc: Global,
    space: &mut Space,
    quantum: u32,
    out: &mut O,
) -> Result<(), SinkError>
    requires sound { IsSound space.old }
    requires quantum { 1 ≤ quantum }
    ensures same { OnOk result (settle_tree space.new ≡ settle_tree space.old) }
    ensures reached { OnOk result (IsLater false space.old space.new) }
    ensures sound { OnOk result (IsSound space.new) }
    ensures writes { OnOk result (Writes (output_of O.taken O.faults out.old out.new) space.old space.new) }
    ensures failed { IsErrOf result SinkError.Failed → Lags (quantum * most_output) (ByOneQuantum quantum) (output_of O.taken O.faults out.old out.new) space.old space.new }
    ensures begins { OnErr result (Begins (output_of O.taken O.faults out.old out.new) space.old) }
    ensures later { O.faults out.old ≤ O.faults out.new }
{
    let Ok(mut engine) = Engine::new(rt, alloc, space, quantum) else {
        return Err(SinkError::Memory);
    };
    'rounds: loop {
        match round_to(rt, &mut engine, space, quantum, out) {
            Ok(true) => {}
            Ok(false) => return Ok(()),
            Err(error) => return Err(error),
        }
    }
}

// As `rounds_to`, from a console on that the sink has taken already.
fn rounds_on<O: Sink>(
    rt: &(impl Threads + Sync),
    alloc: Global,
    mut space: Space,
    quantum: u32,
    out: &mut O,
) -> Result<Space, StreamFault>
    requires sound { IsSound space }
    requires quantum { 1 ≤ quantum }
    ensures meaning { IfOk result (λ s. s ≡ settle_tree space) }
    ensures settled { IfOk result (λ s. is_settled s ≡ true) }
    ensures sound { IfOk result IsSound }
    ensures writes { IfOk result (λ s. Writes (output_of O.taken O.faults out.old out.new) space s) }
    ensures write { (at : Space) → IsErrOf result (StreamFault.Write at) → Lags (quantum * most_output) (ByOneQuantum quantum) (output_of O.taken O.faults out.old out.new) space at }
    ensures begins { OnErr result (Begins (output_of O.taken O.faults out.old out.new) space) }
    ensures later { O.faults out.old ≤ O.faults out.new }
{
    match go_to(rt, alloc, &mut space, quantum, out) {
        // No space has an event left; `settle_on` looks at each once more and says so.
        Ok(()) => settle_on(alloc, space, out),
        Err(SinkError::Failed) => Err(StreamFault::Write { at: space }),
        Err(SinkError::Memory) => Err(StreamFault::Memory),
    }
}

/// Runs a whole tree in rounds as `rounds` does, and writes its root's console as it grows: first what it holds already, then, after each round, what
/// the round wrote. The sink is never called with nothing to write. It takes exactly the console of the settled tree; at an error some first
/// bytes of it. In a round the root goes on for the quantum at most, before the other spaces do.
///
/// Where the sink fails, the tree stands still: it settles to the same, and the sink has not taken all of its console. Either no event has happened, or the
/// sink has taken all that the console held before the last round, in which the root had at most the quantum of local events.
pub fn rounds_to<O: Sink>(
    rt: &(impl Threads + Sync),
    alloc: Global,
    space: Space,
    quantum: u32,
    out: &mut O,
) -> Result<Space, StreamFault>
    requires sound { IsSound space }
    requires quantum { 1 ≤ quantum }
    ensures meaning { IfOk result (λ s. s ≡ settle_tree space) }
    ensures settled { IfOk result (λ s. is_settled s ≡ true) }
    ensures sound { IfOk result IsSound }
    ensures written { IfOk result (λ s. Takes (O.taken out.old) (O.taken out.new) (console_of s)) }
    ensures write { (at : Space) → IsErrOf result (StreamFault.Write at) → StandsStill (quantum * most_output) (ByOneQuantum quantum) (output_of O.taken O.faults out.old out.new) space at }
    ensures prefix { TakesPrefix (O.taken out.old) (O.taken out.new) (console_of (settle_tree space)) }
    ensures later { O.faults out.old ≤ O.faults out.new }
{
    match write_console(alloc, &space, out) {
        Ok(()) => rounds_on(rt, alloc, space, quantum, out),
        Err(SinkError::Failed) => Err(StreamFault::Write { at: space }),
        Err(SinkError::Memory) => Err(StreamFault::Memory),
    }
}
