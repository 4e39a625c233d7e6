ghost use Rattle.std.specs.Prelude.{◌≡◌, ◌<◌, ◌*◌, ◌^◌};
ghost use Rattle.memory_model.specs.Memory as memory;
ghost use Rattle.instruction_model.specs.Arithmetic as arithmetic;
ghost use Rattle.instruction_model.specs.Outcome as outcome;

use rv_decode::{Comparison, LoadKind, Operation, Width, arithmetic_shift};

#[inline(always)]
fn is_less(a: u32, b: u32) -> bool
    ensures { result ≡ arithmetic.is_less a b }
{
    a.cast_signed() < b.cast_signed()
}

#[inline(always)]
pub(crate) fn operation_result(operation: Operation, a: u32, b: u32) -> u32
    ensures { result ≡ arithmetic.operation_result operation a b }
{
    match operation {
        Operation::Add => a.wrapping_add(b),
        Operation::Sub => a.wrapping_sub(b),
        Operation::Sll => a << (b % 32),
        Operation::Slt => u32::from(is_less(a, b)),
        Operation::Sltu => u32::from(a < b),
        Operation::Xor => a ^ b,
        Operation::Srl => a >> (b % 32),
        Operation::Sra => arithmetic_shift(a, b % 32),
        Operation::Or => a | b,
        Operation::And => a & b,
    }
}

#[inline(always)]
pub(crate) fn compares(comparison: Comparison, a: u32, b: u32) -> bool
    ensures { result ≡ arithmetic.compares comparison a b }
{
    match comparison {
        Comparison::Beq => a == b,
        Comparison::Bne => a != b,
        Comparison::Blt => is_less(a, b),
        Comparison::Bge => !is_less(a, b),
        Comparison::Bltu => a < b,
        Comparison::Bgeu => a >= b,
    }
}

#[inline(always)]
pub(crate) fn width_bytes(width: Width) -> u32
    ensures value { result ≡ memory.width_bytes width }
{
    match width {
        Width::One => 1,
        Width::Two => 2,
        Width::Four => 4,
    }
}

#[inline(always)]
pub(crate) fn loaded_width(kind: LoadKind) -> Width
    ensures { result ≡ outcome.loaded_width kind }
{
    match kind {
        LoadKind::Lb | LoadKind::Lbu => Width::One,
        LoadKind::Lh | LoadKind::Lhu => Width::Two,
        LoadKind::Lw => Width::Four,
    }
}

// A number of the kind's width as a register holds it.
#[inline(always)]
pub(crate) fn extension_of(kind: LoadKind, value: u32) -> u32
    requires { value < 2 ^ (8 * memory.width_bytes (outcome.loaded_width kind)) }
    ensures { result ≡ outcome.extension_of kind value }
{
    match kind {
        LoadKind::Lb => arithmetic_shift(value << 24, 24),
        LoadKind::Lh => arithmetic_shift(value << 16, 16),
        LoadKind::Lw | LoadKind::Lbu | LoadKind::Lhu => value,
    }
}
