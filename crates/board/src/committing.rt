ghost use Rattle.std.specs.Prelude.{◌≡◌, ◌-◌, true, None, Some, option_map};
ghost use Rattle.det_laws.specs.Tops.{top_at};
ghost use Rattle.board.specs.declared.job.Out.{Out};
ghost use Rattle.board.specs.Jobs.{out_at};
ghost use Rattle.board.specs.Steps.{IsStart};

use crate::done::Done;
use crate::job::Out;
use slab::Slab;
use space_tree::{Path, Space, Top, at, same_top};

/// The number of the ticket of the job in a slot.
pub(crate) fn ticket_in(out: &Slab<Out>, slot: usize) -> Option<u64>
    ensures { result ≡ option_map (λ (o : Out). o.ticket) (out_at out.now.slots slot) }
{
    match out.get(slot) {
        Some(job) => Some(job.ticket),
        None => None,
    }
}

// Whether this top stands at a path.
fn stands(tree: &Space, path: &Path, top: &Top) -> bool
    ensures yes { result ≡ true → top_at path.now.items tree.now ≡ Some top.now }
    ensures no { top_at path.now.items tree.now ≡ Some top.now → result ≡ true }
{
    match at(tree, path) {
        Some(found) => same_top(&found.top, top),
        None => false,
    }
}

// Whether a result is of this job: its path is the job's, and its start is what stands there, which may be known.
fn is_of(tree: &Space, job: &Out, done: &Done, known: bool) -> bool
    requires { known ≡ true → top_at job.now.path.items tree.now ≡ Some (let run = done.now.run in run.start) }
    ensures yes { result ≡ true → IsStart tree.now job.now done.now }
    ensures no { IsStart tree.now job.now done.now → result ≡ true }
{
    job.path.as_slice() == done.path.as_slice()
        && (known || stands(tree, &done.path, done.run.start()))
}

/// Whether a result is of the job in its slot. That it began with what stands at the job's path may be known.
pub(crate) fn is_of_slot(tree: &Space, out: &Slab<Out>, done: &Done, known: bool) -> bool
    requires { known ≡ true → (o : Out) → out_at out.now.slots done.now.slot ≡ Some o → top_at o.path.items tree.now ≡ Some (let run = done.now.run in run.start) }
    ensures yes { result ≡ true → (o : Out) × (out_at out.now.slots done.now.slot ≡ Some o) × IsStart tree.now o done.now }
    ensures no { (o : Out) → out_at out.now.slots done.now.slot ≡ Some o → IsStart tree.now o done.now → result ≡ true }
{
    match out.get(done.slot) {
        Some(job) => is_of(tree, job, done, known),
        None => false,
    }
}
