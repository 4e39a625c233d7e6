ghost use Rattle.std.specs.Prelude.{◌≡◌, ◌≤◌, true, IfOk, IsErrOf, OnOk, OnErr};
ghost use Rattle.call_model.specs.Limits.{greatest_depth};
ghost use Rattle.space_model.specs.Space.{Space, is_settled, top_of};
ghost use Rattle.space_model.specs.Sound.{IsSound};
ghost use Rattle.report_model.specs.Report.{console_of};
ghost use Rattle.run_model.specs.Console.{most_output};
ghost use Rattle.run_model.specs.Demand.{run, settle_tree};
ghost use Rattle.det_host.specs.Outside.{Takes};
ghost use Rattle.det_host.specs.Writing.{TakesPrefix, output_of};
ghost use Rattle.demand_eval.specs.Streams.{Begins, ByOneEvent, Lags, StandsStill, Writes};
ghost use Rattle.demand_eval.specs.Turns.{Comes, IsSoundBelow, IsTold, Turned};

use crate::console::write_console;
use crate::running::{Runner, STRETCH, meet, settle_children};
use det_host::{Sink, SinkError};
use space_step::{DecodeCache, Next, advance_to};
use space_tree::Space;
use std::alloc::{AllocError, Global};

/// Why a run whose console is written as it grows has not come to its end.
#[derive(Drop)]
pub enum StreamFault {
    /// The sink could not be written any further. The tree stands as it stood then, and may go on from there to another sink.
    Write { at: Space },
    /// Memory ran out; the tree is given up.
    Memory,
}

// The call that is next of the root, if there is one. It says whether the root has stopped.
fn meet_next(runner: &mut Runner, space: &mut Space, next: Option<Next>) -> Result<bool, AllocError>
    requires sound { IsSoundBelow greatest_depth space.old }
    requires next { IsTold greatest_depth next (top_of space.old) }
    ensures { IfOk result (λ stopped. Comes greatest_depth next stopped space.old space.new) }
{
    match next.ok_or(AllocError)? {
        Next::Local => Ok(false),
        Next::Meet(call) => {
            meet(runner, call, space, 0)?;
            Ok(false)
        }
        Next::Stopped => Ok(true),
    }
}

// Local events of the root; what each writes to its console goes to the sink before the next. Then the call that is next, if there is one. It says whether
// the root has stopped.
fn turn_root<O: Sink>(
    runner: &mut Runner,
    space: &mut Space,
    out: &mut O,
) -> Result<bool, SinkError>
    requires { IsSound space.old }
    ensures ok { IfOk result (λ stopped. Turned greatest_depth stopped space.old space.new) }
    ensures writes { OnOk result (Writes (output_of O.taken O.faults out.old out.new) space.old space.new) }
    ensures failed { IsErrOf result SinkError.Failed → Lags most_output ByOneEvent (output_of O.taken O.faults out.old out.new) space.old space.new }
    ensures begins { OnErr result (Begins (output_of O.taken O.faults out.old out.new) space.old) }
    ensures later { O.faults out.old ≤ O.faults out.new }
{
    let reached = match advance_to(&mut space.top, 0, STRETCH, &mut runner.cache, out) {
        Ok(reached) => reached,
        Err(error) => return Err(error),
    };
    match meet_next(runner, space, reached.next) {
        Ok(stopped) => Ok(stopped),
        Err(_) => Err(SinkError::Memory),
    }
}

// The root runs until it stops. What it writes to its console goes to the sink, event by event.
fn run_root<O: Sink>(runner: &mut Runner, space: &mut Space, out: &mut O) -> Result<(), SinkError>
    requires { IsSound space.old }
    ensures ok { OnOk result (space.new ≡ run greatest_depth space.old) }
    ensures writes { OnOk result (Writes (output_of O.taken O.faults out.old out.new) space.old space.new) }
    ensures failed { IsErrOf result SinkError.Failed → Lags most_output ByOneEvent (output_of O.taken O.faults out.old out.new) space.old space.new }
    ensures begins { OnErr result (Begins (output_of O.taken O.faults out.old out.new) space.old) }
    ensures later { O.faults out.old ≤ O.faults out.new }
{
    'turns: loop {
        match turn_root(runner, space, out) {
            Ok(true) => return Ok(()),
            Ok(false) => {}
            Err(error) => return Err(error),
        }
    }
}

// The root runs, and what its console grows by goes to the sink; when it has stopped, its children settle.
fn stream<O: Sink>(runner: &mut Runner, space: &mut Space, out: &mut O) -> Result<(), SinkError>
    requires { IsSound space.old }
    ensures ok { OnOk result (space.new ≡ settle_tree space.old) }
    ensures writes { OnOk result (Writes (output_of O.taken O.faults out.old out.new) space.old space.new) }
    ensures failed { IsErrOf result SinkError.Failed → Lags most_output ByOneEvent (output_of O.taken O.faults out.old out.new) space.old space.new }
    ensures begins { OnErr result (Begins (output_of O.taken O.faults out.old out.new) space.old) }
    ensures later { O.faults out.old ≤ O.faults out.new }
{
    if let Err(error) = run_root(runner, space, out) {
        return Err(error);
    }
    match settle_children(runner, space, 0) {
        Ok(()) => Ok(()),
        Err(_) => Err(SinkError::Memory),
    }
}

/// As `settle_to`, but what the console holds already is not written: a sink that has taken it goes on from there.
pub fn settle_on<O: Sink>(
    alloc: Global,
    mut space: Space,
    out: &mut O,
) -> Result<Space, StreamFault>
    requires { IsSound space }
    ensures meaning { IfOk result (λ s. s ≡ settle_tree space) }
    ensures settled { IfOk result (λ s. is_settled s ≡ true) }
    ensures sound { IfOk result IsSound }
    ensures writes { IfOk result (λ s. Writes (output_of O.taken O.faults out.old out.new) space s) }
    ensures write { (at : Space) → IsErrOf result (StreamFault.Write at) → Lags most_output ByOneEvent (output_of O.taken O.faults out.old out.new) space at }
    ensures begins { OnErr result (Begins (output_of O.taken O.faults out.old out.new) space) }
    ensures later { O.faults out.old ≤ O.faults out.new }
{
    let Ok(cache) = DecodeCache::new(alloc) else {
        return Err(StreamFault::Memory);
    };
    let mut runner = Runner { alloc, cache };
    match stream(&mut runner, &mut space, out) {
        Ok(()) => Ok(space),
        Err(SinkError::Failed) => Err(StreamFault::Write { at: space }),
        Err(SinkError::Memory) => Err(StreamFault::Memory),
    }
}

/// Runs a whole tree as `settle` does, and writes its root's console as it grows: first what it holds already, then, after each event of the root that
/// writes to it, what that event wrote. The sink is never called with nothing to write. It takes exactly the console of the settled tree; at an
/// error some first bytes of it.
///
/// Where the sink fails, the tree stands still: it settles to the same, and the sink has not taken all of its console. Either no event has happened, or the
/// sink has taken all that the console held before the last event of the root, which came there by demand: what its calls waited for ran, and nothing else.
pub fn settle_to<O: Sink>(alloc: Global, space: Space, out: &mut O) -> Result<Space, StreamFault>
    requires { IsSound space }
    ensures meaning { IfOk result (λ s. s ≡ settle_tree space) }
    ensures settled { IfOk result (λ s. is_settled s ≡ true) }
    ensures sound { IfOk result IsSound }
    ensures written { IfOk result (λ s. Takes (O.taken out.old) (O.taken out.new) (console_of s)) }
    ensures write { (at : Space) → IsErrOf result (StreamFault.Write at) → StandsStill most_output ByOneEvent (output_of O.taken O.faults out.old out.new) space at }
    ensures prefix { TakesPrefix (O.taken out.old) (O.taken out.new) (console_of (settle_tree space)) }
    ensures later { O.faults out.old ≤ O.faults out.new }
{
    match write_console(alloc, &space, out) {
        Ok(()) => settle_on(alloc, space, out),
        Err(SinkError::Failed) => Err(StreamFault::Write { at: space }),
        Err(SinkError::Memory) => Err(StreamFault::Memory),
    }
}
