ghost use Rattle.std.specs.Prelude.{◌≡◌, ◌+◌, ◌≤◌, ◌^◌, ◌&&◌, nat_le, nat_lt, take};
ghost use Rattle.memory_model.specs.Memory.{bytes_from};
ghost use Rattle.file_model.specs.Sizes.{greatest_name};

use space_mem::Mem;

// The greatest length of a name.
const GREATEST_NAME: usize = 32;

// Whether a name may have so many bytes.
pub(crate) fn is_short(count: u32) -> bool
    ensures { result ≡ (nat_lt 0 count && nat_le count greatest_name) }
{
    count > 0 && count as usize <= GREATEST_NAME
}

// The bytes of a name from an address on, and 0 behind them.
pub(crate) fn name_at(memory: &Mem, at: u32, count: u32) -> [u8; GREATEST_NAME]
    requires within { at + count ≤ 2 ^ 32 }
    requires short { count ≤ greatest_name }
    ensures { take count result ≡ bytes_from memory.now.memory at count }
{
    let mut name = [0; GREATEST_NAME];
    for i in 0..count {
        name[i as usize] = memory.byte(at + i);
    }
    name
}
