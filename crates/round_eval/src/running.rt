ghost use Rattle.std.specs.Prelude.{◌≡◌, ◌≤◌, true, IfOk};
ghost use Rattle.space_model.specs.Sound.{IsSound};
ghost use Rattle.space_model.specs.Space.{is_settled};
ghost use Rattle.run_model.specs.Demand.{settle_tree};
ghost use Rattle.round_eval.specs.Later.{IsLater};

use crate::engine::Engine;
use crate::hints::Hints;
use crate::round::round;
use demand_eval::settle;
use space_tree::Space;
use std::alloc::{AllocError, Global};
use std::thread::Threads;

// A round where the hints say, and where it finds nothing, one where a search of the tree says.
#[tactic(auto, using(crate::proofs::Later::then_second))]
fn next_round(
    rt: &(impl Threads + Sync),
    engine: &mut Engine,
    space: &mut Space,
) -> Result<bool, AllocError>
    ensures { IfOk result (λ some. IsLater some space.old space.new) }
{
    engine.pace.begin();
    let hinted = round(rt, engine, space)?;
    if hinted {
        return Ok(hinted);
    }
    engine.hints = Hints::search(engine.alloc, space)?;
    let found = round(rt, engine, space)?;
    Ok(found)
}

/// Runs a whole tree until no space in it runs. In each round the spaces that have local events go on side by side, each for at most `quantum` events,
/// which is at least 1, or up to 16 times as many while none of them stops or calls, by as many threads as there are processors; then each call
/// whose time has come meets its children (OSDI 2010, "Efficient System-Enforced Deterministic Parallelism", the section on the kernel interface:
/// spaces run in parallel, and synchronize by Put, Get and Ret alone).
/// What comes of it is what `settle` gives, whatever the quantum and the number of threads. The one error is want of memory; the tree is given up then.
#[tactic(auto, using(crate::proofs::Later::later_sound, crate::proofs::Later::later_settles, crate::proofs::Later::later_fewer))]
pub fn rounds(
    rt: &(impl Threads + Sync),
    alloc: Global,
    mut space: Space,
    quantum: u32,
) -> Result<Space, AllocError>
    requires sound { IsSound space }
    requires quantum { 1 ≤ quantum }
    ensures meaning { IfOk result (λ s. s ≡ settle_tree space) }
    ensures settled { IfOk result (λ s. is_settled s ≡ true) }
    ensures sound { IfOk result IsSound }
{
    let mut engine = Engine::new(rt, alloc, &space, quantum)?;
    'rounds: loop {
        let some = next_round(rt, &mut engine, &mut space)?;
        if !some {
            break;
        }
    }
    // No space has an event left; `settle` looks at each once more and says so.
    settle(alloc, space)
}
