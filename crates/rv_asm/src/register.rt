ghost use Rattle.std.specs.Prelude.{◌≡◌, ◌<◌, IfOk, IfSome};
ghost use Rattle.rv_asm.specs.Gives.{GivesExactly};
ghost use Rattle.source_model.specs.Field as fields;
ghost use Rattle.source_model.specs.Register as registers;

use crate::number::digit_of;
use crate::text::is_text;
use source_model::{AsmErrorKind, Base};

#[tactic(auto, unfolding(source_model::specs::Register::index_of))]
fn index_of(text: &[u8]) -> Option<u8>
    ensures { result ≡ registers.index_of text.now }
{
    match text {
        [one] => digit_of(Base::Decimal, *one),
        [b'0', _] => None,
        [ten, one] => Some(10 * digit_of(Base::Decimal, *ten)? + digit_of(Base::Decimal, *one)?),
        _ => None,
    }
}

fn letter_register(letter: u8, number: u8) -> Option<u8>
    ensures value { result ≡ registers.letter_register letter number }
    ensures small { IfSome result (λ r. r < 32) }
{
    match (letter, number) {
        (b'x', 0..=31) => Some(number),
        (b't', 0..=2) => Some(number + 5),
        (b't', 3..=6) => Some(number + 25),
        (b's', 0..=1) => Some(number + 8),
        (b's', 2..=11) => Some(number + 16),
        (b'a', 0..=7) => Some(number + 10),
        _ => None,
    }
}

fn register_in(word: &[u8]) -> Option<u8>
    ensures value { result ≡ registers.register_in word.now }
    ensures small { IfSome result (λ r. r < 32) }
{
    if is_text(word, "zero") {
        return Some(0);
    }
    if is_text(word, "ra") {
        return Some(1);
    }
    if is_text(word, "sp") {
        return Some(2);
    }
    if is_text(word, "gp") {
        return Some(3);
    }
    if is_text(word, "tp") {
        return Some(4);
    }
    match word {
        [] => None,
        [letter, rest @ ..] => letter_register(*letter, index_of(rest)?),
    }
}

/// The number of a register.
#[tactic(auto, unfolding(source_model::specs::Field::register_of))]
pub(crate) fn register_of(word: &[u8]) -> Result<u8, AsmErrorKind>
    ensures value { GivesExactly (λ r. r) result (fields.register_of word.now) }
    ensures small { IfOk result (λ r. r < 32) }
{
    register_in(word).ok_or(AsmErrorKind::Register)
}
