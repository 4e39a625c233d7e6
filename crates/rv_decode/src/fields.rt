ghost use Rattle.std.specs.Prelude.{◌≡◌, ◌<◌, ◌-◌, ◌^◌, nat_lt, if◌then◌else◌};
ghost use Rattle.instruction_model.specs.Arithmetic as arithmetic;
ghost use Rattle.instruction_model.specs.Word as word_fields;

/// `value` shifted to the right by so many bits, fewer than 32, with its sign.
#[inline(always)]
pub fn arithmetic_shift(value: u32, by: u32) -> u32
    requires { by < 32 }
    ensures { result ≡ arithmetic.arithmetic_shift value by }
{
    (value.cast_signed() >> by).cast_unsigned()
}

#[inline(always)]
pub(crate) fn rd(word: u32) -> u8
    ensures { result ≡ word_fields.rd word }
{
    (word / 128 % 32) as u8
}

#[inline(always)]
pub(crate) fn rs1(word: u32) -> u8
    ensures { result ≡ word_fields.rs1 word }
{
    (word / 32768 % 32) as u8
}

#[inline(always)]
pub(crate) fn rs2(word: u32) -> u8
    ensures { result ≡ word_fields.rs2 word }
{
    (word / 1_048_576 % 32) as u8
}

#[inline(always)]
pub(crate) fn immediate_i(word: u32) -> u32
    ensures { result ≡ word_fields.immediate_i word }
{
    arithmetic_shift(word, 20)
}

// all ones where bit 31 is set, else 0
#[inline(always)]
fn sign(word: u32) -> u32
    ensures { result ≡ (if nat_lt word (2 ^ 31) then 0 else 2 ^ 32 - 1) }
{
    arithmetic_shift(word, 31)
}

#[inline(always)]
pub(crate) fn immediate_s(word: u32) -> u32
    ensures { result ≡ word_fields.immediate_s word }
{
    (arithmetic_shift(word, 25) << 5) + word / 128 % 32
}

#[inline(always)]
pub(crate) fn immediate_b(word: u32) -> u32
    ensures { result ≡ word_fields.immediate_b word }
{
    let low = word / 128 % 2 * 2048 + word / 33_554_432 % 64 * 32 + word / 256 % 16 * 2;
    (sign(word) << 12) + low
}

#[inline(always)]
pub(crate) fn immediate_u(word: u32) -> u32
    ensures { result ≡ word_fields.immediate_u word }
{
    word / 4096 * 4096
}

#[inline(always)]
pub(crate) fn immediate_j(word: u32) -> u32
    ensures { result ≡ word_fields.immediate_j word }
{
    let low = word / 4096 % 256 * 4096 + word / 1_048_576 % 2 * 2048 + word / 2_097_152 % 1024 * 2;
    (sign(word) << 20) + low
}
