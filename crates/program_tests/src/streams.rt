//! Consoles that are written as they grow: what a sink has taken where it fails, and from where the run goes on to another one.

ghost use Rattle.std.specs.Prelude.{◌≡◌, ◌≤◌, Some, IfOk, IsErrOf};
ghost use Rattle.space_model.specs.Space.{Space};
ghost use Rattle.space_model.specs.Sound.{IsSound};

use demand_eval::{StreamFault, settle_to};
use det_core::boot;
use det_host::{MemSink, Sink, SinkError, SureSink};
use dev_script::Devices;
use round_eval::rounds_to;
use rv_asm::assemble;
use space_tree::Space;
use std::alloc::{AllocError, Global};
use std::process::Abort;
use std::test::*;
use std::thread::Threads;

// It writes one byte and then spins.
const SPIN: &[u8] = b"
.segment 0x1000 1
        lui a1, 2
        addi a2, zero, 1
        addi a7, zero, 4
        ecall
spin:   jal zero, spin
.segment 0x2000 1
        .byte 0x41
";

// It writes one byte ten times, and between two of them forks a process and waits for it.
const TEN: &[u8] = b"
.segment 0x1000 1
        addi s0, zero, 10
again:  lui a1, 2
        addi a2, zero, 1
        addi a7, zero, 4
        ecall
        addi a1, zero, 0
        addi a7, zero, 16
        ecall
        bne a0, zero, kid
        addi a1, zero, 0
        addi a7, zero, 17
        ecall
        addi s0, s0, -1
        bne s0, zero, again
kid:    addi a7, zero, 3
        ecall
.segment 0x2000 3
        .byte 0x41
";

// It never writes.
const QUIET: &[u8] = b"
.segment 0x1000 1
        addi a7, zero, 3
        ecall
";

// The root of a program.
fn root_of(alloc: Global, source: &[u8], fuel: u32) -> Result<Space, AllocError>
    requires { 1 ≤ fuel }
    ensures { IfOk result IsSound }
{
    match assemble(alloc, source) {
        Ok(image) => boot(alloc, &image, Devices::new(alloc), fuel),
        Err(_) => Err(AllocError),
    }
}

// By which engine a run goes.
#[derive(Clone, Copy)]
enum By {
    Demand,
    Rounds,
}

// Runs a tree, and its console goes to a sink.
fn stream<R: Threads + Sync, O: Sink>(
    rt: &R,
    alloc: Global,
    by: By,
    root: Space,
    out: &mut O,
) -> Result<Space, StreamFault>
    requires { IsSound root }
    ensures { (at : Space) → IsErrOf result (StreamFault.Write at) → IsSound at }
{
    match by {
        By::Demand => settle_to(alloc, root, out),
        By::Rounds => rounds_to(rt, alloc, root, 4, out),
    }
}

// What a run has written to sinks: one that takes a byte a call and fails at a call of this number, and then another that takes on where that one failed.
fn two_sinks<R: Threads + Sync>(
    rt: &R,
    alloc: Global,
    by: By,
    call: u64,
) -> Result<(Vec<u8>, Vec<u8>), AllocError> {
    let mut failing = Vec::new(alloc);
    failing.push(call)?;
    let mut first = MemSink::new(alloc, 1, failing);
    let mut second = SureSink::new(alloc);
    let root = root_of(alloc, TEN, 1_000_000)?;
    match stream(rt, alloc, by, root, &mut first) {
        Err(StreamFault::Write { at }) => match stream(rt, alloc, by, at, &mut second) {
            Ok(_) => Ok((taken(alloc, first.taken())?, taken(alloc, second.taken())?)),
            Err(_) => Err(AllocError),
        },
        _ => Err(AllocError),
    }
}

// The bytes of a sink.
fn taken(alloc: Global, bytes: &[u8]) -> Result<Vec<u8>, AllocError> {
    let mut copy = Vec::new(alloc);
    copy.extend_from_slice(bytes)?;
    Ok(copy)
}

// Bytes that stand for so many writes.
fn written<R: AllocGlobal + Abort>(rt: &R, count: u64) -> Vec<u8> {
    let mut bytes = Vec::new(rt.alloc());
    for _ in 0..count {
        if bytes.push(0x41).is_err() {
            panic!(rt; "no memory");
        }
    }
    bytes
}

fn one_of_calls<R: AllocGlobal + Abort + Threads + Sync>(rt: &R, by: By, call: u64)
    requires { 1 ≤ call }
{
    match two_sinks(rt, rt.alloc(), by, call) {
        Ok((first, second)) => {
            assert_eq!(rt; first, written(rt, call - 1));
            assert_eq!(rt; second, written(rt, 10));
        }
        Err(_) => panic!(rt; "no memory"),
    }
}

// Each byte is written before the next event, and what one sink was not given another is.
#[test]
fn a_sink_fails_at_each_of_ten_calls(rt: HostRuntime) {
    for call in 1..11 {
        one_of_calls(&rt, By::Demand, call);
        one_of_calls(&rt, By::Rounds, call);
    }
}

// A sink that takes all of each piece, and counts a fault each time. An empty piece it refuses.
#[derive(Drop)]
struct Grumbler {
    taken: Vec<u8>,
    faults: u64,
}

impl Sink for Grumbler {
    ghost taken = { λ s. Some s.taken.items };

    ghost faults = { λ s. s.faults };

    fn write(&mut self, piece: &[u8]) -> Result<usize, SinkError> {
        if piece.is_empty() || self.taken.extend_from_slice(piece).is_err() {
            return Err(SinkError::Memory);
        }
        self.faults = self.faults.saturating_add(1);
        Ok(piece.len())
    }
}

// What such a sink has taken of a whole run.
fn grumbled<R: Threads + Sync>(rt: &R, alloc: Global, by: By) -> Result<Vec<u8>, AllocError> {
    let mut sink = Grumbler {
        taken: Vec::new(alloc),
        faults: 0,
    };
    let root = root_of(alloc, TEN, 1_000_000)?;
    match stream(rt, alloc, by, root, &mut sink) {
        Ok(_) => taken(alloc, &sink.taken),
        Err(_) => Err(AllocError),
    }
}

// A fault is one where a sink takes no more, and not where it has counted one.
#[test]
fn a_sink_counts_faults_and_takes_all(rt: HostRuntime) {
    assert_eq!(&rt; grumbled(&rt, rt.alloc(), By::Demand), Ok(written(&rt, 10)));
    assert_eq!(&rt; grumbled(&rt, rt.alloc(), By::Rounds), Ok(written(&rt, 10)));
}

// What the console holds and how many events the root has used, where a sink that fails at its first call stops a run; none where it is not called.
fn stopped<R: Threads + Sync>(
    rt: &R,
    alloc: Global,
    by: By,
    source: &[u8],
    fuel: u32,
) -> Result<Option<(usize, u32)>, AllocError>
    requires { 1 ≤ fuel }
{
    let mut failing = Vec::new(alloc);
    failing.push(1)?;
    let mut sink = MemSink::new(alloc, 65_536, failing);
    let root = root_of(alloc, source, fuel)?;
    match stream(rt, alloc, by, root, &mut sink) {
        Ok(_) => Ok(None),
        Err(StreamFault::Write { at }) => Ok(Some((at.top.console_len(), at.top.used))),
        Err(StreamFault::Memory) => Err(AllocError),
    }
}

// A run whose sink fails ends at once, though its program spins: on demand behind the event that wrote, in rounds of four events behind that round.
#[test]
fn a_run_stops_where_its_sink_fails(rt: HostRuntime) {
    let stands = Ok(Some((1, 4)));
    assert_eq!(&rt;
        stopped(&rt, rt.alloc(), By::Demand, SPIN, 4_294_967_295),
        stands
    );
    assert_eq!(&rt;
        stopped(&rt, rt.alloc(), By::Rounds, SPIN, 4_294_967_295),
        stands
    );
}

// A sink is not called where nothing is written.
#[test]
fn a_quiet_run_calls_no_sink(rt: HostRuntime) {
    assert_eq!(&rt;
        stopped(&rt, rt.alloc(), By::Demand, QUIET, 1_000_000),
        Ok(None)
    );
    assert_eq!(&rt;
        stopped(&rt, rt.alloc(), By::Rounds, QUIET, 1_000_000),
        Ok(None)
    );
}
