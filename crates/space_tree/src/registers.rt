ghost use Rattle.std.specs.Prelude.{◌≡◌, ◌+◌, ◌%◌, ◌≤◌, ◌^◌, drop};
ghost use Rattle.call_model.specs.Limits.{block_size};
ghost use Rattle.space_model.specs.Block.{registers_at};

use rv_exec::Regs;
use space_mem::Mem;

// The registers that a block of memory holds: pc, then x1 to x31.
pub(crate) fn read_registers(memory: &Mem, at: u32) -> Regs
    requires aligned { at % 4 ≡ 0 }
    requires within { at + block_size ≤ 2 ^ 32 }
    ensures { result ≡ registers_at memory.now.memory at }
{
    let mut registers = Regs::new(memory.word(at));
    for number in 1..32 {
        registers.set_register(number, memory.word(at + 4 * u32::from(number)));
    }
    registers
}

// x1 to x31.
pub(crate) fn without_zero(registers: &Regs) -> [u32; 31]
    ensures { result ≡ drop 1 registers.now.x }
{
    let mut x = [0; 31];
    x.copy_from_slice(&registers.x()[1..]);
    x
}
