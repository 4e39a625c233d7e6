//! Writes that fail, and sinks that take a few bytes a call.

use crate::calls::{REPORT, RETURN_SEVEN, Row, SOURCE, SUMMARY, WRITE_TWO, check, plain};
use det_cli::{End, write_fault};
use det_host::SureSink;
use std::process::Abort;
use std::sync::Wait;
use std::test::*;
use std::thread::Threads;

const RUN: &str = "det run image script";

const ROUNDS: &str = "det run --engine rounds image script";

const POOL: &str = "det run --engine pool --workers 2 image script";

const SEATS: &str = "det run --engine seats --workers 2 image script";

const WALK: &str = "det walk image script schedule";

const ASM: &str = "det asm image";

const BENCH: &str = "det bench 0";

const WRITE_FAULT: &str = "det: write fault\n";

// A call whose sinks take at most so many bytes a call, and in which these calls of `out` fail.
fn one_of_outs<R: AllocGlobal + Abort + Threads + Wait + Sync>(
    rt: &R,
    call: (&str, &[u8]),
    most: usize,
    outs: &[u64],
    out: &[u8],
) {
    let fault = plain(call.0, call.1, End::WriteFault, out, WRITE_FAULT);
    check(
        rt,
        &Row {
            most,
            outs,
            ..fault
        },
    );
}

// A call whose sinks take no byte, and count a fault each time: it ends as one whose write fails.
fn none_taken<R: AllocGlobal + Abort + Threads + Wait + Sync>(rt: &R, words: &str, image: &[u8]) {
    check(
        rt,
        &Row {
            most: 0,
            ..plain(words, image, End::WriteFault, b"", "")
        },
    );
}

// What was taken stays, and the fault's line stands on the other sink.
#[test]
fn a_write_that_fails_ends_the_output(rt: HostRuntime) -> Result<(), Fail> {
    for words in [RUN, ROUNDS, POOL, SEATS, WALK] {
        one_of_outs(&rt, (words, &WRITE_TWO), 1, &[1], b"");
        one_of_outs(&rt, (words, &WRITE_TWO), 1, &[2], b"A");
        none_taken(&rt, words, &WRITE_TWO);
        none_taken(&rt, words, &RETURN_SEVEN);
    }
    none_taken(&rt, ASM, SOURCE);
    none_taken(&rt, BENCH, b"");
    one_of_outs(&rt, (ASM, SOURCE), 65536, &[1], b"");
    one_of_outs(&rt, (ASM, SOURCE), 16, &[3], &RETURN_SEVEN[..32]);
    one_of_outs(&rt, (BENCH, b""), 65536, &[1], b"");
    one_of_outs(&rt, (BENCH, b""), 8, &[2], b"threads ");
    Ok(())
}

// The report is begun, and the fault's line comes behind it.
#[test]
fn a_report_that_fails(rt: HostRuntime) -> Result<(), Fail> {
    let part = "/ ret 00det: write fault\n";
    check(
        &rt,
        &Row {
            most: 4,
            errs: &[3],
            ..plain(RUN, &WRITE_TWO, End::WriteFault, b"AB", part)
        },
    );
    Ok(())
}

// A call whose sinks take one byte a call.
fn one_of_pieces<R: AllocGlobal + Abort + Threads + Wait + Sync>(
    rt: &R,
    call: (&str, &[u8]),
    out: &[u8],
    err: &str,
) {
    check(
        rt,
        &Row {
            most: 1,
            ..plain(call.0, call.1, End::Ret, out, err)
        },
    );
}

#[test]
fn a_sink_may_take_one_byte_a_call(rt: HostRuntime) -> Result<(), Fail> {
    for words in [RUN, ROUNDS, POOL, SEATS, WALK] {
        one_of_pieces(&rt, (words, &WRITE_TWO), b"AB", REPORT);
    }
    one_of_pieces(&rt, (ASM, SOURCE), &RETURN_SEVEN, "");
    one_of_pieces(&rt, (BENCH, b""), SUMMARY, "");
    Ok(())
}

#[test]
fn a_fault_line_alone(rt: HostRuntime) -> Result<(), Fail> {
    let alloc = rt.alloc();
    let mut sink = SureSink::new(alloc);
    assert!(rt; write_fault(alloc, &End::WriteFault, &mut sink).is_ok());
    assert_eq!(rt; sink.taken(), WRITE_FAULT.as_bytes());
    Ok(())
}
