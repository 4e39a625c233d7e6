ghost use Rattle.std.specs.Prelude.{◌≡◌, ◌<◌, ◌^◌, true, length, IfSome};
ghost use Rattle.std.specs.Option.{SomeIff};
ghost use Rattle.std.specs.Str.{all_ascii_digits};
ghost use Rattle.std.specs.Str.Parse.{digits_value};
ghost use Rattle.text_lines.specs.Numbers.{IsNumber};
ghost use Rattle.text_lines.specs.Reading as reading;

// Whether each byte is a decimal digit.
fn are_digits(text: &[u8]) -> bool
    ensures { result ≡ all_ascii_digits text.now }
{
    text.iter().all(|byte| byte.is_ascii_digit())
}

// The number that decimal digits write, where there is one digit or more and the number has no more than 32 bits.
fn value_of(digits: &[u8]) -> Option<u32>
    requires { all_ascii_digits digits.now ≡ true }
    ensures { SomeIff result ((0 < length digits.now) × (digits_value 10 digits.now < 2 ^ 32)) (digits_value 10 digits.now) }
{
    str::from_utf8(digits).ok()?.parse().ok()
}

/// The number that 1 to `most` decimal digits write, zeros at the front among them, where it is at most `bound`. None of any
/// other text.
#[tactic(auto, unfolding(crate::specs::Reading::number_of))]
pub fn number_of(digits: &[u8], most: usize, bound: u32) -> Option<u32>
    // What is read is what the digits write.
    ensures found { IfSome result (λ n. IsNumber most bound digits.now n) }
    // What is read, and what is not, as a function of the bytes.
    ensures exact { result ≡ reading.number_of most bound digits.now }
{
    if digits.len() > most || !are_digits(digits) {
        return None;
    }
    match value_of(digits) {
        Some(number) if number <= bound => Some(number),
        _ => None,
    }
}
