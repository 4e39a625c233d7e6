ghost use Rattle.std.specs.Prelude.{◌≤◌};

use space_step::{Advance, DecodeCache, Next, Run, advance, next, peek, run_local};
use space_tree::{Cause, Devices, Mem, Pages, Status, Top};
use std::alloc::{AllocError, Global};
use std::process::Abort;
use std::test::Fail;
use trap_ret::Call;

// a0 goes up by 1 twice, and then Ret.
const COUNTS: [u32; 4] = [0x0015_0513, 0x0015_0513, 0x0030_0893, 0x0000_0073];

// Put.
const PUTS: [u32; 4] = [0x0010_0893, 0x0000_0073, 0, 0];

// A root that is about to run these words.
fn root(alloc: Global, words: [u32; 4], fuel: u32) -> Result<Top, AllocError>
    requires { 1 ≤ fuel }
{
    let mut memory = Mem::new(alloc);
    memory.set_perm(Pages { first: 1, count: 1 }, 5)?;
    let mut at: u32 = 0x1000;
    for word in words {
        for byte in word.to_le_bytes() {
            memory.write(at, byte)?;
            at = at.wrapping_add(1);
        }
    }
    Ok(Top::root(0x1000, 0, memory, fuel, Devices::new(alloc)))
}

const fn stopped(cause: Cause, value: u32) -> Status {
    Status::Stopped { cause, value }
}

// Where a run has come to: how many events there were, pc, status and what is left of the limit.
#[derive(Clone, Copy, Debug, PartialEq, Eq)]
struct Ran {
    ran: u32,
    pc: u32,
    status: Status,
    limit: Option<u32>,
}

// At most `quantum` events of a space with this limit and fuel 100.
fn after_run(alloc: Global, quantum: u32, limit: Option<u32>) -> Result<Ran, AllocError>
    requires { 1 ≤ quantum }
{
    let mut top = root(alloc, COUNTS, 100)?;
    top.limit = limit;
    let mut cache = DecodeCache::new(alloc)?;
    let run = run_local(top, 0, quantum, &mut cache)?;
    let top = run.top();
    Ok(Ran {
        ran: run.ran(),
        pc: top.registers.pc,
        status: top.status,
        limit: top.limit,
    })
}

fn one_of_runs(rt: &impl Abort, alloc: Global, quantum: u32, limit: Option<u32>, want: Ran)
    requires { 1 ≤ quantum }
{
    match after_run(alloc, quantum, limit) {
        Ok(got) => assert_eq!(rt; got, want, "{quantum}"),
        Err(_) => panic!(rt; "no memory"),
    }
}

// A space that still runs, and one that has stopped.
const fn runs_on(ran: u32, pc: u32, limit: Option<u32>) -> Ran {
    Ran {
        ran,
        pc,
        status: Status::Running,
        limit,
    }
}

const fn ends(ran: u32, pc: u32, cause: Cause, value: u32, limit: Option<u32>) -> Ran {
    Ran {
        ran,
        pc,
        status: stopped(cause, value),
        limit,
    }
}

#[test]
fn runs(rt: HostRuntime) -> Result<(), Fail> {
    let alloc = rt.alloc();
    one_of_runs(&rt, alloc, 1, None, runs_on(1, 0x1004, None));
    one_of_runs(&rt, alloc, 2, None, runs_on(2, 0x1008, None));
    one_of_runs(&rt, alloc, 100, None, ends(4, 0x1010, Cause::Ret, 2, None));
    one_of_runs(&rt, alloc, 3, Some(3), runs_on(3, 0x100c, Some(0)));
    let limit = ends(4, 0x100c, Cause::Limit, 0, Some(0));
    one_of_runs(&rt, alloc, 100, Some(3), limit);
    let ret = ends(4, 0x1010, Cause::Ret, 2, Some(0));
    one_of_runs(&rt, alloc, 100, Some(4), ret);
    Ok(())
}

// A root that is about to run these words.
fn root_of(rt: &impl Abort, alloc: Global, words: [u32; 4], fuel: u32) -> Top
    requires { 1 ≤ fuel }
{
    match root(alloc, words, fuel) {
        Ok(top) => top,
        Err(_) => panic!(rt; "no memory"),
    }
}

fn cache_of(rt: &impl Abort, alloc: Global) -> DecodeCache {
    match DecodeCache::new(alloc) {
        Ok(cache) => cache,
        Err(_) => panic!(rt; "no memory"),
    }
}

// How far a space goes on, for at most `quantum` events.
fn advanced(
    rt: &impl Abort,
    cache: &mut DecodeCache,
    top: &mut Top,
    depth: u8,
    quantum: u32,
) -> Advance
    requires depth { depth ≤ 8 }
    requires quantum { 1 ≤ quantum }
{
    match advance(top, depth, quantum, cache) {
        Ok(advance) => advance,
        Err(_) => panic!(rt; "no memory"),
    }
}

// What is next of a space; a local event has happened then.
fn next_of(rt: &impl Abort, cache: &mut DecodeCache, top: &mut Top, depth: u8) -> Next
    requires { depth ≤ 8 }
{
    match next(top, depth, cache) {
        Ok(next) => next,
        Err(_) => panic!(rt; "no memory"),
    }
}

fn run_of(rt: &impl Abort, alloc: Global, top: Top, depth: u8, quantum: u32) -> Run
    requires depth { depth ≤ 8 }
    requires quantum { 1 ≤ quantum }
{
    let mut cache = cache_of(rt, alloc);
    match run_local(top, depth, quantum, &mut cache) {
        Ok(run) => run,
        Err(_) => panic!(rt; "no memory"),
    }
}

fn assert_stands(rt: &impl Abort, top: &Top, status: Status, pc: u32, used: u32) {
    assert_eq!(rt;
        (top.status, top.registers.pc, top.used),
        (status, pc, used)
    );
}

#[test]
fn fuel_ends_at_a_call(rt: HostRuntime) -> Result<(), Fail> {
    let mut top = root_of(&rt, rt.alloc(), COUNTS, 3);
    top.limit = Some(3);
    let mut cache = cache_of(&rt, rt.alloc());
    let ran = advanced(&rt, &mut cache, &mut top, 0, 100).ran;
    assert_eq!(rt; (ran, top.fuel), (4, 0));
    assert_stands(&rt, &top, stopped(Cause::Fuel, 0), 0x100c, 3);
    let stays = advanced(&rt, &mut cache, &mut top, 0, 100);
    assert_eq!(rt; stays.ran, 0);
    assert_eq!(rt; stays.next, Some(Next::Stopped));
    let next = next_of(&rt, &mut cache, &mut top, 0);
    assert_eq!(rt; next, Next::Stopped);
    Ok(())
}

fn is_put(next: Next) -> bool {
    match next {
        Next::Meet(call) => matches!(call.call(), Call::Put(_)),
        Next::Local | Next::Stopped => false,
    }
}

#[test]
fn put_meets_a_child(rt: HostRuntime) -> Result<(), Fail> {
    let mut top = root_of(&rt, rt.alloc(), PUTS, 100);
    assert_eq!(rt; peek(&top, 7), Next::Local);
    let mut cache = cache_of(&rt, rt.alloc());
    let next = next_of(&rt, &mut cache, &mut top, 7);
    assert_eq!(rt; next, Next::Local);
    assert!(rt; is_put(peek(&top, 7)));
    let next = next_of(&rt, &mut cache, &mut top, 7);
    assert!(rt; is_put(next));
    let ran = advanced(&rt, &mut cache, &mut top, 7, 5).ran;
    assert_eq!(rt; ran, 0);
    Ok(())
}

// A run of a space at depth 8 that is about to make a child.
fn refused(rt: &impl Abort, alloc: Global) -> Run {
    let mut top = root_of(rt, alloc, PUTS, 100);
    let mut cache = cache_of(rt, alloc);
    let next = next_of(rt, &mut cache, &mut top, 7);
    assert_eq!(rt; next, Next::Local);
    assert_eq!(rt; peek(&top, 8), Next::Local);
    run_of(rt, alloc, top, 8, 5)
}

#[test]
fn put_is_refused_at_depth_8(rt: HostRuntime) -> Result<(), Fail> {
    let run = refused(&rt, rt.alloc());
    run.leads();
    assert_eq!(rt; (run.depth(), run.ran(), run.start().used), (8, 1, 1));
    let (_, after) = run.into_parts();
    assert_stands(&rt, &after, stopped(Cause::Badcall, 8), 0x1004, 2);
    Ok(())
}
