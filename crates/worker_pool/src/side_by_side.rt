// Workers in threads.

ghost use Rattle.std.specs.Prelude.{◌≡◌, IfOk, vec_len};
ghost use Rattle.std.specs.Thread.{IsSync, IsSend};

use std::alloc::{AllocError, Global};
use std::thread::{Threads, join};

/// Calls f at each job and gives the results in order. Each call but the first has a thread of its own, and the first is in this thread. Threads are
/// started one after another, all by this one, the last job's first. A job for which no thread could be made is done when those that were started later
/// have ended. The one error is want of memory, once all calls have ended.
#[cycle(side_by_side)]
pub(crate) fn side_by_side<R: Threads + Sync, J: Send + Drop, X: Send + Drop, F: Fn(J) -> X + Sync>(
    rt: &R,
    alloc: Global,
    f: &F,
    jobs: Vec<J>,
) -> Result<Vec<X>, AllocError>
    requires { (job : J) → F.pre f.now job }
    ensures { IfOk result (λ v. vec_len v ≡ vec_len jobs) }
{
    let mut jobs = jobs;
    let Some(job) = jobs.pop() else {
        return Ok(Vec::new(alloc));
    };
    if jobs.is_empty() {
        return alone(alloc, f(job));
    }
    let last = move || -> X
        requires { F.pre f.now job }
    { f(job) };
    let others = move || -> Result<Vec<X>, AllocError>
        requires { IsSync R.row × IsSync F.row × IsSend J.row × IsSend X.row × ((job : J) → F.pre f.now job) }
        ensures { IfOk result (λ v. vec_len v ≡ vec_len jobs) }
    { side_by_side(rt, alloc, f, jobs) };
    let (last, others) = join(rt, last, others);
    let mut results = others?;
    results.push(last)?;
    Ok(results)
}

fn alone<X: Drop>(alloc: Global, one: X) -> Result<Vec<X>, AllocError>
    ensures { IfOk result (λ v. vec_len v ≡ 1) }
{
    let mut results = Vec::new(alloc);
    results.push(one)?;
    Ok(results)
}
