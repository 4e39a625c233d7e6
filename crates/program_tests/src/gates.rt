//! The workers of a pool and of seats, as the gate sees them that `det_main` gets.

use crate::calls::{Row, assert_taken, files_of, plain, sink, words_of};
use det_cli::{End, det_main, det_still};
use det_host::{Gate, GateEvent};
use image_file::write_image;
use rv_asm::assemble;
use std::alloc::{AllocError, Global};
use std::process::Abort;
use std::sync::Wait;
use std::sync::atomic::{AtomicU64, Ordering};
use std::test::*;
use std::thread::{Threads, yield_now};

// Counts the events of two workers. After the first meeting it holds the worker that takes a job first, until the other one has taken one.
#[derive(Drop)]
struct Holding {
    taken_by_first: AtomicU64,
    taken_by_second: AtomicU64,
    committed: AtomicU64,
    met: AtomicU64,
    held: AtomicU64,
    in_vain: AtomicU64,
}

impl Holding {
    fn new() -> Holding {
        Holding {
            taken_by_first: AtomicU64::new(0),
            taken_by_second: AtomicU64::new(0),
            committed: AtomicU64::new(0),
            met: AtomicU64::new(0),
            held: AtomicU64::new(0),
            in_vain: AtomicU64::new(0),
        }
    }

    // Holds a worker until the other one has taken a job, for ten million turns at most.
    fn hold(&self, other: &AtomicU64) {
        for _ in 0..10_000_000u32 {
            if other.load(Ordering::SeqCst) > 0 {
                return;
            }
            yield_now();
        }
        self.in_vain.fetch_add(1, Ordering::SeqCst);
    }

    fn took(&self, mine: &AtomicU64, other: &AtomicU64) {
        mine.fetch_add(1, Ordering::SeqCst);
        if self.met.load(Ordering::SeqCst) > 0 && self.held.swap(1, Ordering::SeqCst) == 0 {
            self.hold(other);
        }
    }
}

impl Gate for Holding {
    fn pass(&self, worker: usize, event: GateEvent) {
        match event {
            GateEvent::Took if worker == 0 => self.took(
                &self.taken_by_first,
                &self.taken_by_second,
            ),
            GateEvent::Took => self.took(&self.taken_by_second, &self.taken_by_first),
            GateEvent::Committed => {
                self.committed.fetch_add(1, Ordering::SeqCst);
            }
            GateEvent::Met => {
                self.met.fetch_add(1, Ordering::SeqCst);
            }
            GateEvent::Resting => {}
        }
    }
}

// Calls `det_main` with a gate, or `det_still` where there is none, and asserts what the row says.
fn call<R: AllocGlobal + Abort + Threads + Wait + Sync>(
    rt: &R,
    row: &Row<'_>,
    gate: Option<&Holding>,
) -> Result<(), AllocError> {
    let alloc = rt.alloc();
    let words = words_of(alloc, row.words)?;
    let mut files = files_of(alloc, row)?;
    let mut out = sink(alloc, row.most, row.outs)?;
    let mut err = sink(alloc, row.most, row.errs)?;
    let end = match gate {
        Some(gate) => det_main(rt, &words, &mut files, &mut out, &mut err, gate),
        None => det_still(rt, &words, &mut files, &mut out, &mut err),
    };
    assert_eq!(rt; end, row.end);
    assert_taken(rt, row, &out, &err);
    Ok(())
}

// Both workers take jobs, and hand in as many, and four calls at least meet children; what comes is what the row says, and what comes on demand.
fn one_row<R: AllocGlobal + Abort + Threads + Wait + Sync>(rt: &R, row: &Row<'_>) {
    let gate = Holding::new();
    assert!(rt; call(rt, row, Some(&gate)).is_ok());
    let first = gate.taken_by_first.load(Ordering::SeqCst);
    let second = gate.taken_by_second.load(Ordering::SeqCst);
    assert!(rt; first > 0 && second > 0);
    assert_eq!(rt;
        gate.committed.load(Ordering::SeqCst),
        first.wrapping_add(second)
    );
    assert!(rt; gate.met.load(Ordering::SeqCst) > 3);
    assert_eq!(rt; gate.held.load(Ordering::SeqCst), 1);
    assert_eq!(rt; gate.in_vain.load(Ordering::SeqCst), 0);
    assert!(rt; call(rt, row, None).is_ok());
}

fn image_of(alloc: Global, source: &[u8]) -> Result<Vec<u8>, AllocError> {
    match assemble(alloc, source) {
        Ok(image) => write_image(alloc, &image),
        Err(_) => Err(AllocError),
    }
}

// Two threads of 4,008 events each, more than a space goes on for in a turn: they are jobs.
const TWO_LONG_THREADS: &[u8] = b"
.segment 0x1000 1
        addi s0, zero, 0
fork:   addi a1, s0, 0
        addi a7, zero, 18
        ecall
        bne a0, zero, kid
        addi s0, s0, 1
        addi t0, zero, 2
        bne s0, t0, fork
        addi a1, zero, 0
        addi a7, zero, 19
        ecall
        addi a1, zero, 1
        ecall
        lui t0, 2
        lhu a0, 0(t0)
        addi a7, zero, 3
        ecall
kid:    addi t2, zero, 2000
again:  addi t2, t2, -1
        bne t2, zero, again
        lui t0, 2
        add t0, t0, s0
        addi t1, s0, 65
        sb t1, 0(t0)
        addi a7, zero, 3
        ecall
.segment 0x2000 3
        .byte 0
";

const REPORT: &str = "/ ret 00004241 00001044 24
/0 ret 00000001 00001068 4008
/1 ret 00000001 00001068 4008
";

// The line of the image of the number 1, which two threads make.
const SUMMARY_OF_ONE: &[u8] = b"threads 2 spaces 3 used 27955 console 64 root ret 00000002\n";

#[test]
fn two_workers_take_jobs_side_by_side(rt: HostRuntime) -> Result<(), Fail> {
    let image = image_of(rt.alloc(), TWO_LONG_THREADS)?;
    let pool = "det run --engine pool --workers 2 image script";
    one_row(&rt, &plain(pool, &image, End::Ret, b"", REPORT));
    let seats = "det run --engine seats --workers 2 image script";
    one_row(&rt, &plain(seats, &image, End::Ret, b"", REPORT));
    for bench in [
        "det bench --engine pool --workers 2 1",
        "det bench --engine seats --workers 2 1",
    ] {
        one_row(&rt, &plain(bench, b"", End::Ret, SUMMARY_OF_ONE, ""));
    }
    Ok(())
}
