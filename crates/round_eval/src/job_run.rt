ghost use Rattle.std.specs.Prelude.{◌≤◌, IfOk};
ghost use Rattle.call_model.specs.Limits.{greatest_depth, levels_below};
ghost use Rattle.space_model.specs.Event.{Follows};
ghost use Rattle.round_eval.specs.Jobs.{WentOn};

use crate::job::{Done, Job};
use crate::pace::Pace;
use space_step::{Advance, DecodeCache, Next, advance};
use space_tree::Top;
use std::alloc::AllocError;

// A space goes on quantum by quantum, for so many events at most, until it stops or calls, or those of its round are asked to end.
fn run_quanta(
    top: &mut Top,
    depth: u8,
    most: u32,
    pace: &Pace,
    cache: &mut DecodeCache,
) -> Result<(u32, Next), AllocError>
    requires { depth ≤ greatest_depth }
    ensures { IfOk result (λ r. Follows (levels_below depth) r.0 top.old top.new) }
{
    let mut ran = 0;
    let mut stretch = pace.quantum;
    'quanta: while ran < most {
        let Advance { ran: more, next } = advance(top, depth, stretch.min(most - ran), cache)?;
        let next = next.ok_or(AllocError)?;
        ran += more;
        if next != Next::Local || pace.is_to_end() {
            return Ok((ran, next));
        }
        stretch = pace.further;
    }
    Ok((ran, Next::Local))
}

/// The space of a job goes on, with what this thread has decoded. Where it stops or calls, all of its round are asked to end.
pub(crate) fn run(job: Job, pace: &Pace, cache: &mut DecodeCache) -> Result<Done, AllocError>
    ensures { IfOk result (λ done. WentOn job done) }
{
    let Job {
        path,
        mut top,
        left,
    } = job;
    let depth = path.len() as u8;
    let (ran, next) = run_quanta(&mut top, depth, left, pace, cache)?;
    if next != Next::Local {
        pace.ask_to_end();
    }
    Ok(Done {
        path,
        top,
        ran,
        next,
    })
}
