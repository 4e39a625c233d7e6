ghost use Rattle.std.specs.Prelude.{◌≡◌, ◌≤◌, true, IfOk, IfSome, IsNone, OnOk};
ghost use Rattle.std.specs.List.{All};
ghost use Rattle.det_laws.specs.Moved.{AreOut, HasRunning, HasSpace, IsTaken, paths_of, with_tops};
ghost use Rattle.round_eval.specs.Jobs.{dones_out, jobs_out};

use crate::hints::Hints;
use crate::job::{Done, Job};
use space_tree::{Path, Space, Top, at, swap_top};
use std::alloc::{AllocError, Global};

// The fuel of a top that stands in another's place. It is never run.
const NO_MATTER: u32 = 1;

// Whether a space that runs stands at a path.
fn runs_at(space: &Space, path: &Path) -> bool
    ensures { result ≡ true → HasRunning space.now path.now.items }
{
    match at(space, path) {
        Some(found) => !found.top.is_stopped(),
        None => false,
    }
}

// The top of the space that runs at a path, which one that has stopped replaces; none where no space runs there.
#[tactic(auto, using(crate::proofs::Moves::stands_where_it_runs))]
fn take_out(alloc: Global, space: &mut Space, path: &Path) -> Option<Top>
    ensures some { IfSome result (λ t. IsTaken path.now.items t space.old space.new) }
    ensures none { IsNone result → space.new ≡ space.old }
{
    if runs_at(space, path) {
        Some(swap_top(space, path, Top::fresh(alloc, NO_MATTER)))
    } else {
        None
    }
}

/// The tops of the spaces that are to go on and run, each once, out of their tree, for so many events at most.
pub(crate) fn take_all(
    alloc: Global,
    space: &mut Space,
    turns: Vec<Path>,
    left: u32,
) -> Result<Vec<Job>, AllocError>
    requires { 1 ≤ left }
    ensures { IfOk result (λ jobs. AreOut (jobs_out jobs.items) space.old space.new) }
{
    let mut jobs = Vec::new(alloc);
    for path in turns {
        if let Some(top) = take_out(alloc, space, &path) {
            jobs.push(Job { path, top, left })?;
        }
    }
    Ok(jobs)
}

/// Puts the tops back, and notes what is next of each. The one error is want of memory.
pub(crate) fn put_all(
    space: &mut Space,
    mut dones: Vec<Done>,
    hints: &mut Hints,
) -> Result<(), AllocError>
    requires { All (HasSpace space.old) (paths_of (dones_out dones.items)) }
    ensures { OnOk result (space.new ≡ with_tops (dones_out dones.items) space.old) }
{
    while let Some(done) = dones.pop() {
        let Done {
            path,
            top,
            ran: _,
            next,
        } = done;
        swap_top(space, &path, top);
        hints.note(path, next)?;
    }
    Ok(())
}
