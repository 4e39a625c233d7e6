ghost use Rattle.std.specs.Prelude.{◌≤◌};
ghost use Rattle.space_model.specs.Sound.{IsSound};

use det_core::boot;
use image_file::Image;
use rv_asm::{assemble, generated};
use space_tree::{Devices, Space};
use std::alloc::Global;
use std::process::Abort;
use std::test::*;

/// Two threads write neighbouring bytes, and the joins bring both to the root, as in examples/two_threads.s.
pub(crate) const TWO_THREADS: &[u8] = b"
.segment 0x1000 1
        addi s0, zero, 0
fork:   addi a1, s0, 0
        addi a7, zero, 18
        ecall
        bne a0, zero, thread
        addi s0, s0, 1
        addi t0, zero, 2
        bne s0, t0, fork
        addi a1, zero, 0
        addi a7, zero, 19
        ecall
        addi a1, zero, 1
        ecall
        lui t0, 2
        lhu a0, 0(t0)
        addi a7, zero, 3
        ecall
thread: lui t0, 2
        add t0, t0, s0
        addi t1, s0, 65
        sb t1, 0(t0)
        addi a7, zero, 3
        ecall
.segment 0x2000 3
        .byte 0
";

/// The root forks process 256, which forks process 513, which does not end; none waits.
pub(crate) const FAR: &[u8] = b"
.segment 0x1000 1
        addi a1, zero, 256
        addi a7, zero, 16
        ecall
        bne a0, zero, child
        addi a7, zero, 3
        ecall
child:  addi a1, zero, 513
        addi a7, zero, 16
        ecall
        bne a0, zero, turn
        addi a7, zero, 3
        ecall
turn:   jal zero, turn
";

/// The root forks threads 256 and 1, and then has child 1 become a copy of child 0 of 256. Thread 256 forks thread 0, and thread 1 forks thread 256.
pub(crate) const TWO_AWAY: &[u8] = b"
.segment 0x1000 1
        addi a1, zero, 256
        addi a7, zero, 18
        ecall
        bne a0, zero, far
        addi a1, zero, 1
        ecall
        bne a0, zero, near
        addi a0, zero, 256
        addi a1, zero, 256
        addi a4, zero, 1
        addi a7, zero, 2
        ecall
        addi a7, zero, 3
        ecall
far:    addi a1, zero, 0
        beq zero, zero, both
near:   addi a1, zero, 256
both:   ecall
        addi a7, zero, 3
        ecall
";

/// The root has 301 events of its own before it forks thread 0, which returns at once.
pub(crate) const LATE_FORK: &[u8] = b"
.segment 0x1000 1
        addi t0, zero, 149
turn:   addi t0, t0, -1
        bne t0, zero, turn
        addi a1, zero, 0
        addi a7, zero, 18
        ecall
        addi a7, zero, 3
        ecall
";

/// Two threads of 262,145 events each before they return, and a root that joins both.
pub(crate) const LONG_THREADS: &[u8] = b"
.segment 0x1000 1
        addi s0, zero, 0
fork:   addi a1, s0, 0
        addi a7, zero, 18
        ecall
        bne a0, zero, thread
        addi s0, s0, 1
        addi t0, zero, 2
        bne s0, t0, fork
        addi a1, zero, 0
        addi a7, zero, 19
        ecall
        addi a1, zero, 1
        ecall
        addi a7, zero, 3
        ecall
thread: lui t1, 32
turn:   addi t1, t1, -1
        bne t1, zero, turn
        addi a7, zero, 3
        ecall
";

// The tree that an image boots to, each space of which may have so many events.
fn booted_with(rt: &impl Abort, alloc: Global, image: &Image, limit: u32) -> Space
    requires { 1 ≤ limit }
    ensures { IsSound result }
{
    boot(alloc, image, Devices::new(alloc), limit).expect(rt, "memory")
}

/// The tree that a source boots to.
pub(crate) fn booted(rt: &impl Abort, alloc: Global, source: &[u8]) -> Space
    ensures { IsSound result }
{
    let image = assemble(alloc, source).expect(rt, "an image");
    booted_with(rt, alloc, &image, 1_000_000)
}

/// The tree that the image made from a number boots to: at most 16 threads, each of which may have 160 events.
pub(crate) fn booted_from(rt: &impl Abort, alloc: Global, seed: u32) -> Space
    ensures { IsSound result }
{
    let image = generated(alloc, seed).expect(rt, "memory");
    booted_with(rt, alloc, &image, 160)
}
