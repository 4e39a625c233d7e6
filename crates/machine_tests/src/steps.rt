use rv_exec::{Regs, Stepped, step};
use space_mem::{Mem, Pages};
use std::alloc::{AllocError, Global};
use std::test::Fail;

// What a step does in a memory that has `addi x7, x5, -1` at 0x1000, where x5 is 0; x7 and pc after it.
fn stepped(alloc: Global) -> Result<(Stepped, [u32; 2]), AllocError> {
    let mut mem = Mem::new(alloc);
    mem.set_perm(Pages { first: 1, count: 1 }, 4)?;
    mem.write_bytes(0x1000, &[0x93, 0x83, 0xf2, 0xff])?;
    let mut regs = Regs::new(0x1000);
    let did = step(&mut regs, &mut mem)?;
    Ok((did, [regs.register(7), regs.pc]))
}

#[test]
fn one_instruction(rt: HostRuntime) -> Result<(), Fail> {
    assert_eq!(rt;
        stepped(rt.alloc())?,
        (Stepped::Next, [0xffff_ffff, 0x1004])
    );
    Ok(())
}
