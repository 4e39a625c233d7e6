ghost use Rattle.std.specs.Prelude.{ℕ, Bool, ◌+◌, ◌-◌, ◌^◌, ◌≤◌, ◌<◌, IfOk, IsErrOf, OnErr, OnOk};
ghost use Rattle.call_model.specs.Limits.{greatest_depth, levels_below};
ghost use Rattle.instruction_model.specs.Outcome.{view_of};
ghost use Rattle.space_model.specs.Sound.{IsSoundTop};
ghost use Rattle.det_host.specs.Writing.{StopsWithin, Wrote, WrotePrefix, output_of};
ghost use Rattle.space_step.specs.Output.{named_bytes, named_from, named_length};
ghost use Rattle.space_step.specs.ToSink.{AdvancesTo, GoesPartlyTo, StopsAtLast};

use crate::decode_cache::DecodeCache;
use crate::event::{Advance, Next};
use crate::output::{copy_named, lent_named};
use crate::running::{Progress, proceed};
use crate::source::Source;
use det_host::{Sink, SinkError, write_all};
use space_tree::Top;

// Writes the bytes that a1 and a2 name.
fn write_named<O: Sink>(top: &Top, out: &mut O) -> Result<(), SinkError>
    requires { named_from top.now + named_length top.now ≤ 2 ^ 32 }
    ensures ok { OnOk result (Wrote (output_of O.taken O.faults out.old out.new) (named_bytes top.now)) }
    ensures prefix { WrotePrefix (output_of O.taken O.faults out.old out.new) (named_bytes top.now) }
    ensures failed { IsErrOf result SinkError.Failed → StopsWithin (output_of O.taken O.faults out.old out.new) (named_bytes top.now) }
    ensures later { O.faults out.old ≤ O.faults out.new }
{
    if let Some(bytes) = lent_named(top) {
        return write_all(out, bytes);
    }
    match copy_named(top) {
        Ok(bytes) => write_all(out, &bytes),
        Err(_) => Err(SinkError::Memory),
    }
}

// Local events of a space at a depth, as many as the quantum, unless something blocks it; what each writes to the console goes to the sink before the next.
fn go_on_to<S: Source, O: Sink>(
    source: &mut S,
    top: &mut Top,
    depth: u8,
    quantum: u32,
    out: &mut O,
) -> Result<Advance, SinkError>
    requires agrees { S.agrees source.old (view_of top.old.memory) }
    requires depth { depth ≤ greatest_depth }
    ensures ok { IfOk result (λ a. AdvancesTo (levels_below depth) quantum a (output_of O.taken O.faults out.old out.new) top.old top.new) }
    ensures failed { IsErrOf result SinkError.Failed → StopsAtLast (levels_below depth) (output_of O.taken O.faults out.old out.new) top.old top.new }
    ensures partly { OnErr result (GoesPartlyTo (levels_below depth) (output_of O.taken O.faults out.old out.new) top.old top.new) }
    ensures later { O.faults out.old ≤ O.faults out.new }
    ensures agrees { S.agrees source.new (view_of top.new.memory) }
{
    let mut ran = 0;
    'stretches: while ran < quantum {
        let written = top.console_len();
        match proceed(source, top, depth, quantum - ran) {
            Progress::Went(events) => ran += events,
            Progress::Blocked(events, next) => {
                return Ok(Advance {
                    ran: ran + events,
                    next,
                });
            }
        }
        if top.console_len() > written {
            if let Err(error) = write_named(top, out) {
                return Err(error);
            }
        }
    }
    Ok(Advance {
        ran,
        next: Some(Next::Local),
    })
}

/// As `advance`, but what an event writes to the console goes to the sink, before the next event. The sink is not called where nothing was written.
/// Where it fails, the space stands behind the event of whose bytes it took a part. Where memory runs out, it has taken some first bytes of what was written.
pub fn advance_to<O: Sink>(
    top: &mut Top,
    depth: u8,
    quantum: u32,
    cache: &mut DecodeCache,
    out: &mut O,
) -> Result<Advance, SinkError>
    requires { depth ≤ greatest_depth }
    ensures ok { IfOk result (λ a. AdvancesTo (levels_below depth) quantum a (output_of O.taken O.faults out.old out.new) top.old top.new) }
    ensures failed { IsErrOf result SinkError.Failed → StopsAtLast (levels_below depth) (output_of O.taken O.faults out.old out.new) top.old top.new }
    ensures partly { OnErr result (GoesPartlyTo (levels_below depth) (output_of O.taken O.faults out.old out.new) top.old top.new) }
    ensures later { O.faults out.old ≤ O.faults out.new }
    ensures sound { (fuel : ℕ) (root : Bool) → IsSoundTop fuel root top.old → IsSoundTop fuel root top.new }
{
    let table = &mut *cache.table;
    table.renew();
    go_on_to(table, top, depth, quantum, out)
}
