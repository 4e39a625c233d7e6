ghost use Rattle.std.specs.Prelude.{◌≡◌, ◌<◌, ◌+◌, ◌≤◌, ◌^◌, ◌⊎◌, option_map, IfOk, IfSome};
ghost use Rattle.instruction_model.specs.Form.{IsSigned};
ghost use Rattle.rv_asm.specs.Gives.{GivesExactly, clamp, clamp_number};
ghost use Rattle.source_model.specs.Field as fields;
ghost use Rattle.source_model.specs.Number as numbers;

use crate::text::{begins, is_label};
use source_model::{AsmErrorKind, Base, Number, Value};

/// Numbers from here on are in no field's range.
const CAP: u64 = 1 << 40;

pub(crate) fn digit_of(base: Base, byte: u8) -> Option<u8>
    ensures value { result ≡ numbers.digit_of base byte }
    ensures small { IfSome result (λ d. d < 16) }
{
    match (base, byte) {
        (_, b'0'..=b'9') => Some(byte - b'0'),
        (Base::Hexadecimal, b'a'..=b'f') => Some(byte - b'a' + 10),
        (Base::Hexadecimal, b'A'..=b'F') => Some(byte - b'A' + 10),
        _ => None,
    }
}

fn times(base: Base, number: u64) -> u64
    requires { number ≤ CAP }
    ensures value { result ≡ numbers.times base number }
    ensures small { result ≤ 2 ^ 44 }
{
    match base {
        Base::Decimal => 10 * number,
        Base::Hexadecimal => 16 * number,
    }
}

// The value of digits, no more than `CAP`.
fn value_of_digits(base: Base, text: &[u8]) -> Option<u64>
    ensures value { result ≡ option_map clamp (numbers.value_from base 0 text.now) }
    ensures small { IfSome result (λ n. n ≤ CAP) }
{
    let mut value = 0;
    for byte in text {
        let digit = digit_of(base, *byte)?;
        value = (times(base, value) + u64::from(digit)).min(CAP);
    }
    Some(value)
}

#[tactic(auto, unfolding(source_model::specs::Number::decimal))]
fn decimal(text: &[u8]) -> Option<u64>
    ensures value { result ≡ option_map clamp (numbers.decimal text.now) }
    ensures small { IfSome result (λ n. n ≤ CAP) }
{
    if text.is_empty() || (begins(b'0', text) && text.len() > 1) {
        return None;
    }
    value_of_digits(Base::Decimal, text)
}

#[tactic(auto, unfolding(source_model::specs::Number::hexadecimal))]
fn hexadecimal(text: &[u8]) -> Option<u64>
    ensures value { result ≡ option_map clamp (numbers.hexadecimal text.now) }
    ensures small { IfSome result (λ n. n ≤ CAP) }
{
    if text.is_empty() {
        return None;
    }
    value_of_digits(Base::Hexadecimal, text)
}

#[tactic(auto, unfolding(source_model::specs::Number::number_of))]
fn number_of(word: &[u8]) -> Option<Number>
    ensures { result ≡ option_map clamp_number (numbers.number_of word.now) }
{
    match word {
        [b'0', b'x', digits @ ..] => Some(Number::Plus(hexadecimal(digits)?)),
        [b'-', digits @ ..] => Some(Number::Minus(decimal(digits)?)),
        _ => Some(Number::Plus(decimal(word)?)),
    }
}

/// A number from `-below` to `above`, modulo 2^32.
#[tactic(auto, unfolding(source_model::specs::Field::field))]
pub(crate) fn field(below: u64, above: u64, word: &[u8]) -> Result<u32, AsmErrorKind>
    requires below { below < 2 ^ 32 }
    requires above { above < 2 ^ 32 }
    ensures value { GivesExactly (λ n. n) result (fields.field below above word.now) }
    ensures range { IfOk result (λ n. (n ≤ above) ⊎ (2 ^ 32 ≤ n + below)) }
{
    match number_of(word) {
        Some(Number::Plus(n)) if n <= above => Ok(n as u32),
        Some(Number::Minus(n)) if n <= below => Ok((((1 << 32) - n) % (1 << 32)) as u32),
        _ => Err(AsmErrorKind::Number),
    }
}

/// A number from 0 on; what is above the bound counts as one more than it.
#[tactic(auto, unfolding(source_model::specs::Field::count))]
pub(crate) fn count(bound: u64, word: &[u8]) -> Result<u64, AsmErrorKind>
    requires { bound ≤ 2 ^ 32 }
    ensures value { GivesExactly (λ n. n) result (fields.count bound word.now) }
    ensures bound { IfOk result (λ n. n ≤ bound + 1) }
{
    match number_of(word) {
        Some(Number::Plus(n)) => Ok(n.min(bound + 1)),
        Some(Number::Minus(0)) => Ok(0),
        _ => Err(AsmErrorKind::Number),
    }
}

/// A label, or a number from -2^31 to 2^32 - 1.
#[tactic(auto, unfolding(source_model::specs::Field::value_of))]
pub(crate) fn value_of(word: &[u8]) -> Result<Value, AsmErrorKind>
    ensures { GivesExactly (λ v. v) result (fields.value_of word.now) }
{
    if is_label(word) {
        return Ok(Value::Label);
    }
    Ok(Value::Number(field(1 << 31, 0xffff_ffff, word)?))
}

/// A number from -2,048 to 2,047, as the immediates of most instructions are.
pub(crate) fn immediate(word: &[u8]) -> Result<u32, AsmErrorKind>
    ensures value { GivesExactly (λ n. n) result (fields.field 2048 2047 word.now) }
    ensures signed { IfOk result (λ n. IsSigned 12 n) }
{
    field(2048, 2047, word)
}

/// A number from 0 on, no more than `most`.
pub(crate) fn unsigned(most: u32, word: &[u8]) -> Result<u32, AsmErrorKind>
    ensures value { GivesExactly (λ n. n) result (fields.field 0 most word.now) }
    ensures small { IfOk result (λ n. n ≤ most) }
{
    field(0, u64::from(most), word)
}
