// The pool: a shop is served by workers until it is over.

ghost use Rattle.std.specs.Prelude.{◌≡◌, ◌+◌, ◌^◌, ◌<◌, IfOk, OnOk, sum, length, vec_len};

use crate::attendance::Attendance;
use crate::desk::Desk;
use crate::hall::Hall;
use crate::shop::{Shop, Turn, Worked};
use crate::side_by_side::side_by_side;
use crate::worker::{Served, Worker, serve};
use det_host::Gate;
use std::alloc::{AllocError, Global};
use std::marker::Brand;
use std::sync::Wait;
use std::sync::ledger::{Blank, Book, Ledger, Share};
use std::thread::Threads;

/// Runs a shop to its end, by `workers` workers (1 to 64), each in a thread of its own but the first, which this thread is. Jobs are worked at outside of
/// the lock under which the shop lies. `gate` is passed outside of it, too, after each event. Answers the shop, which is idle and owes nothing, and how
/// many results of each worker it accepted. The one error is want of memory, of a worker or of the pool itself. It may wait for ever where a job does not
/// end, or where the shop answers `Rest` while no job is out.
pub fn run_pool<S: Shop, G: Gate, R: Threads + Wait + Sync>(
    rt: &R,
    alloc: Global,
    shop: S,
    workers: usize,
    gate: &G,
) -> Result<(S, Vec<u64>), AllocError>
    requires shop { (S.owed shop ≡ 0) × (S.accepted shop ≡ 0) }
    requires some { (0 < workers) × (workers < 65) }
    ensures idle { IfOk result (λ r. S.idle r.0) }
    ensures owed { IfOk result (λ r. S.owed r.0 ≡ 0) }
    ensures accepted { IfOk result (λ r. S.accepted r.0 ≡ sum r.1.items) }
    ensures counts { IfOk result (λ r. vec_len r.1 ≡ workers) }
{
    let parts = workers as u64 + 1;
    run::<S, Brand, Brand, G, R>(
        rt,
        alloc,
        Blank::new(parts),
        Blank::new(parts),
        shop,
        workers,
        gate,
    )
}

// As `run_pool`, with two new books: of the jobs that are out, and of the results that were accepted.
fn run<
    S: Shop,
    L: Ledger + Send + Sync,
    M: Ledger + Send + Sync,
    G: Gate,
    R: Threads + Wait + Sync,
>(
    rt: &R,
    alloc: Global,
    jobs: Blank,
    accepted: Blank,
    shop: S,
    workers: usize,
    gate: &G,
) -> Result<(S, Vec<u64>), AllocError>
    requires jobs { (jobs.name ≡ L.name) × (jobs.parts ≡ L.parts) × (jobs.parts ≡ workers + 1) }
    requires accepted { (accepted.name ≡ M.name) × (accepted.parts ≡ M.parts) × (accepted.parts ≡ workers + 1) }
    requires shop { (S.owed shop ≡ 0) × (S.accepted shop ≡ 0) }
    requires some { 0 < workers }
    ensures idle { IfOk result (λ r. S.idle r.0) }
    ensures owed { IfOk result (λ r. S.owed r.0 ≡ 0) }
    ensures accepted { IfOk result (λ r. S.accepted r.0 ≡ sum r.1.items) }
    ensures counts { IfOk result (λ r. vec_len r.1 ≡ workers) }
{
    let (out, mut all_out) = jobs.open::<L>();
    let (done, mut all_done) = accepted.open::<M>();
    let staff = hired(alloc, workers, &mut all_out, &mut all_done)?;
    let hall = Hall::new(opened(shop, out, done));
    let ended = side_by_side(
        rt,
        alloc,
        &|worker: Worker<L, M>| serve(rt, alloc, &hall, gate, worker),
        staff,
    )?;
    let counts = gathered(alloc, ended, &mut all_out, &mut all_done)?;
    closed(rt, alloc, hall.into_desk(), counts, all_out, all_done)
}

fn opened<S: Shop, L: Ledger, M: Ledger>(shop: S, out: Book<L>, done: Book<M>) -> Desk<S, L, M>
    requires out { S.owed shop ≡ out.total }
    requires done { S.accepted shop ≡ done.total }
{
    Desk {
        shop,
        out,
        done,
        attendance: Attendance::new(),
    }
}

// The workers, each with a part of both books.
fn hired<L: Ledger, M: Ledger>(
    alloc: Global,
    workers: usize,
    all_out: &mut Share<L>,
    all_done: &mut Share<M>,
) -> Result<Vec<Worker<L, M>>, AllocError>
    requires out { (all_out.old.parts ≡ workers + 1) × (all_out.old.amount ≡ 0) }
    requires done { (all_done.old.parts ≡ workers + 1) × (all_done.old.amount ≡ 0) }
    ensures staff { IfOk result (λ v. vec_len v ≡ workers) }
    ensures out { OnOk result ((all_out.new.parts ≡ 1) × (all_out.new.amount ≡ 0)) }
    ensures done { OnOk result ((all_done.new.parts ≡ 1) × (all_done.new.amount ≡ 0)) }
{
    let mut staff = Vec::new(alloc);
    for number in 0..workers {
        let out = all_out.split_off(1, 0);
        let done = all_done.split_off(1, 0);
        staff.push(Worker { number, out, done })?;
    }
    Ok(staff)
}

// How many results of each were accepted, in order, with the parts of the books of all who have ended.
fn gathered<L: Ledger, M: Ledger>(
    alloc: Global,
    ended: Vec<Result<Served<L, M>, AllocError>>,
    all_out: &mut Share<L>,
    all_done: &mut Share<M>,
) -> Result<Vec<u64>, AllocError>
    requires out { (all_out.old.parts ≡ 1) × (all_out.old.amount ≡ 0) }
    requires done { (all_done.old.parts ≡ 1) × (all_done.old.amount ≡ 0) }
    ensures counts { IfOk result (λ v. vec_len v ≡ vec_len ended) }
    ensures out { OnOk result ((all_out.new.parts ≡ vec_len ended + 1) × (all_out.new.amount ≡ 0)) }
    ensures done { IfOk result (λ v. (all_done.new.parts ≡ vec_len ended + 1) × (all_done.new.amount ≡ sum v.items)) }
{
    let mut counts = Vec::new(alloc);
    for one in ended {
        let Served { count, out, done } = one?;
        all_out.merge(out);
        all_done.merge(done);
        counts.push(count)?;
    }
    Ok(counts)
}

// With all parts of both books, nothing is out, and what was accepted is what the workers count.
fn closed<S: Shop, L: Ledger, M: Ledger, R: Wait>(
    rt: &R,
    alloc: Global,
    desk: Desk<S, L, M>,
    counts: Vec<u64>,
    all_out: Share<L>,
    all_done: Share<M>,
) -> Result<(S, Vec<u64>), AllocError>
    requires out { (all_out.parts ≡ L.parts) × (all_out.amount ≡ 0) }
    requires done { (all_done.parts ≡ M.parts) × (all_done.amount ≡ sum counts.items) }
    requires some { 0 < vec_len counts }
    ensures idle { IfOk result (λ r. S.idle r.0) }
    ensures owed { IfOk result (λ r. S.owed r.0 ≡ 0) }
    ensures accepted { IfOk result (λ r. S.accepted r.0 ≡ sum r.1.items) }
    ensures counts { IfOk result (λ r. vec_len r.1 ≡ vec_len counts) }
{
    let Desk {
        shop,
        mut out,
        mut done,
        ..
    } = desk;
    let mut all_out = all_out;
    let mut all_done = all_done;
    out.audit(&mut all_out);
    done.audit(&mut all_done);
    let (shop, more) = drain(rt, alloc, shop)?;
    let mut counts = counts;
    if more > 0 {
        add_first(&mut counts, more);
    }
    Ok((shop, counts))
}

// The shop to its end, on this thread, by the first worker. After workers that ended at `Over` that is one turn, unless the shop takes `Over` back.
fn drain<S: Shop, R: Wait>(rt: &R, alloc: Global, shop: S) -> Result<(S, u64), AllocError>
    requires { S.owed shop ≡ 0 }
    ensures idle { IfOk result (λ r. S.idle r.0) }
    ensures owed { IfOk result (λ r. S.owed r.0 ≡ 0) }
    ensures accepted { IfOk result (λ r. S.accepted r.0 ≡ S.accepted shop + r.1) }
    ensures small { IfOk result (λ r. 0 < r.1 → S.accepted r.0 < 2 ^ 64) }
{
    let mut shop = shop;
    let mut count: u64 = 0;
    for _ in rt.forever() {
        match shop.turn(0)? {
            Turn::Job(job) => {
                let mut tools = S::tools(alloc)?;
                let done = done_whole::<S>(&mut tools, job)?;
                if shop.commit(done) {
                    count += 1;
                }
            }
            Turn::Met => {}
            Turn::Rest | Turn::Over => break,
        }
    }
    Ok((shop, count))
}

// Does a job from its beginning to its end.
fn done_whole<S: Shop>(tools: &mut S::Tools, job: S::Job) -> Result<S::Done, AllocError> {
    match S::work(tools, job)? {
        Worked::Ended(done) => Ok(done),
        Worked::Lasts(done) => S::go_on(tools, done),
    }
}

fn add_first(counts: &mut [u64], more: u64)
    requires some { 0 < length counts.old }
    requires fits { sum counts.old + more < 2 ^ 64 }
    ensures { sum counts.new ≡ sum counts.old + more }
{
    let first = counts[0];
    counts[0] = first + more;
}
