ghost use Rattle.std.specs.Prelude.{◌≡◌, ◌<◌, ◌&&◌, ◌∷◌, length, Some, None, IfOk, IfSome, MatchOption, option_map, if◌then◌else◌};
ghost use Rattle.script_model.specs.Reading as reading;
ghost use Rattle.script_model.specs.Script as grammar;
ghost use Rattle.text_lines.specs.Reading as numbers;

use std::alloc::{AllocError, Global};

/// What follows a word at the front of a line.
pub(crate) fn after<'a>(word: &[u8], line: &'a [u8]) -> Option<&'a [u8]>
    ensures { option_map (λ rest. rest.now) result ≡ reading.after word.now line.now }
{
    line.strip_prefix(word)
}

/// The most digits of a number.
const MOST_DIGITS: usize = 10;

/// The number of 32 bits that 1 to 10 decimal digits write.
pub(crate) fn number_of(digits: &[u8]) -> Option<u32>
    ensures { result ≡ numbers.number_of grammar.most_digits grammar.greatest_number digits.now }
{
    text_lines::number_of(digits, MOST_DIGITS, u32::MAX)
}

// The byte that two hexadecimal digits of either case write, the high one first.
fn byte_of(high: u8, low: u8) -> Option<u8>
    ensures { result ≡ (if reading.is_hex_digit high && reading.is_hex_digit low
        then Some (grammar.byte_of high low) else None) }
{
    let high = char::from(high).to_digit(16)?;
    let low = char::from(low).to_digit(16)?;
    Some((16 * high + low) as u8)
}

// The byte that a text of digits begins with, and the digits behind it.
#[tactic(auto, unfolding(script_model::specs::Reading::bytes_of))]
fn first_byte(digits: &[u8]) -> Option<(u8, &[u8])>
    requires { 0 < length digits.now }
    ensures bytes { MatchOption result (reading.bytes_of digits.now ≡ None)
        (λ x. reading.bytes_of digits.now ≡ option_map (λ bytes. x.0 ∷ bytes) (reading.bytes_of x.1.now)) }
    ensures shorter { IfSome result (λ x. length x.1.now < length digits.now) }
{
    match digits {
        [high, low, rest @ ..] => Some((byte_of(*high, *low)?, rest)),
        _ => None,
    }
}

/// The bytes that pairs of hexadecimal digits write.
pub(crate) fn bytes_of(alloc: Global, digits: &[u8]) -> Result<Option<Vec<u8>>, AllocError>
    ensures { IfOk result (λ o. option_map (λ bytes. bytes.items) o ≡ reading.bytes_of digits.now) }
{
    let mut bytes = Vec::new(alloc);
    let mut rest = digits;
    while !rest.is_empty() {
        match first_byte(rest) {
            Some((byte, after)) => {
                bytes.push(byte)?;
                rest = after;
            }
            None => return Ok(None),
        }
    }
    Ok(Some(bytes))
}
