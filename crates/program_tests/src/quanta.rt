//! Rounds of quanta that no word of the program names.

ghost use Rattle.std.specs.Prelude.{◌≤◌};

use det_core::boot;
use det_report::report;
use dev_script::Devices;
use round_eval::rounds;
use rv_asm::assemble;
use std::alloc::{AllocError, Global};
use std::process::Abort;
use std::test::*;
use std::thread::Threads;

/// Two threads write neighbouring bytes, and the joins bring both to the root, which returns the two bytes (`examples/two_threads.s`).
pub(crate) const TWO_THREADS: &[u8] = b"
.segment 0x1000 1
        addi s0, zero, 0
fork:   addi a1, s0, 0
        addi a7, zero, 18
        ecall
        bne a0, zero, kid
        addi s0, s0, 1
        addi t0, zero, 2
        bne s0, t0, fork
        addi a1, zero, 0
        addi a7, zero, 19
        ecall
        addi a1, zero, 1
        ecall
        lui t0, 2
        lhu a0, 0(t0)
        addi a7, zero, 3
        ecall
kid:    lui t0, 2
        add t0, t0, s0
        addi t1, s0, 65
        sb t1, 0(t0)
        addi a7, zero, 3
        ecall
.segment 0x2000 3
        .byte 0
";

/// Its report.
pub(crate) const REPORT: &str = "/ ret 00004241 00001044 24
/0 ret 00000001 0000105c 7
/1 ret 00000001 0000105c 7
";

/// Both threads write one byte, and the second join is a conflict there (`examples/conflict.s`).
const CONFLICT: &[u8] = b"
.segment 0x1000 1
        addi s0, zero, 0
fork:   addi a1, s0, 0
        addi a7, zero, 18
        ecall
        bne a0, zero, kid
        addi s0, s0, 1
        addi t0, zero, 2
        bne s0, t0, fork
        addi a1, zero, 0
        addi a7, zero, 19
        ecall
        addi a1, zero, 1
        ecall
        lui t0, 2
        lhu a0, 0(t0)
        addi a7, zero, 3
        ecall
kid:    lui t0, 2
        addi t0, t0, 0
        addi t1, s0, 65
        sb t1, 0(t0)
        addi a7, zero, 3
        ecall
.segment 0x2000 3
        .byte 0
";

/// Its report.
const CONFLICT_REPORT: &str = "/ conflict 00002000 00001030 20
/0 ret 00000001 0000105c 7
/1 ret 00000001 0000105c 7
";

// The report of a program, run in rounds.
fn reported<R: Threads + Sync>(
    rt: &R,
    alloc: Global,
    source: &[u8],
    quantum: u32,
) -> Result<Vec<u8>, AllocError>
    requires { 1 ≤ quantum }
{
    let image = match assemble(alloc, source) {
        Ok(image) => image,
        Err(_) => return Err(AllocError),
    };
    let root = boot(alloc, &image, Devices::new(alloc), 1_000_000)?;
    let settled = rounds(rt, alloc, root, quantum)?;
    report(alloc, &settled, false)
}

fn one_report<R: AllocGlobal + Abort + Threads + Sync>(
    rt: &R,
    source: &[u8],
    quantum: u32,
    report: &str,
)
    requires { 1 ≤ quantum }
{
    match reported(rt, rt.alloc(), source, quantum) {
        Ok(found) => assert_eq!(rt; found.as_slice(), report.as_bytes()),
        Err(_) => panic!(rt; "no memory"),
    }
}

fn one_quantum<R: AllocGlobal + Abort + Threads + Sync>(rt: &R, quantum: u32)
    requires { 1 ≤ quantum }
{
    one_report(rt, TWO_THREADS, quantum, REPORT);
    one_report(rt, CONFLICT, quantum, CONFLICT_REPORT);
}

#[test]
fn every_quantum_gives_one_report(rt: HostRuntime) {
    one_quantum(&rt, 1);
    one_quantum(&rt, 2);
    one_quantum(&rt, 4_096);
    one_quantum(&rt, 1_048_576);
}
