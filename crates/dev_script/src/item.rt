ghost use Rattle.std.specs.Prelude.{◌≡◌, ◌++◌, ◌∷◌, [], IfOk, option_map};
ghost use Rattle.dev_script.specs.View.{item_view};
ghost use Rattle.script_model.specs.Reading as reading;
ghost use Rattle.script_model.specs.Script as grammar;
ghost use Rattle.text_lines.specs.Reading as numbers;

use crate::words::{after, bytes_of, number_of};
use std::alloc::{AllocError, Global};

/// What a line of a script says.
#[derive(Drop)]
pub(crate) enum Item {
    /// Nothing.
    Nothing,
    /// These bytes come to the console's input.
    Input(Vec<u8>),
    /// This is a reading of the clock.
    Clock(u32),
    /// This is a random number.
    Random(u32),
}

// A text and a line feed come to the input.
fn text_of(alloc: Global, text: &[u8]) -> Result<Item, AllocError>
    ensures { IfOk result (λ item. item_view item ≡ grammar.Input (text.now ++ 10 ∷ [])) }
{
    let mut bytes = Vec::from_slice(alloc, text)?;
    bytes.push(b'\n')?;
    Ok(Item::Input(bytes))
}

// One pair of hexadecimal digits or more.
fn raw_of(alloc: Global, digits: &[u8]) -> Result<Option<Item>, AllocError>
    ensures { IfOk result (λ o. option_map item_view o ≡ reading.raw_of digits.now) }
{
    if digits.is_empty() {
        return Ok(None);
    }
    match bytes_of(alloc, digits)? {
        Some(bytes) => Ok(Some(Item::Input(bytes))),
        None => Ok(None),
    }
}

fn clock_of(digits: &[u8]) -> Option<Item>
    ensures { option_map item_view result ≡ option_map (λ n. grammar.Clock n) (numbers.number_of grammar.most_digits grammar.greatest_number digits.now) }
{
    match number_of(digits) {
        Some(number) => Some(Item::Clock(number)),
        None => None,
    }
}

fn random_of(digits: &[u8]) -> Option<Item>
    ensures { option_map item_view result ≡ option_map (λ n. grammar.Random n) (numbers.number_of grammar.most_digits grammar.greatest_number digits.now) }
{
    match number_of(digits) {
        Some(number) => Some(Item::Random(number)),
        None => None,
    }
}

// What a line says that has no word with a space behind it.
fn short_of(alloc: Global, line: &[u8]) -> Result<Option<Item>, AllocError>
    ensures { IfOk result (λ o. option_map item_view o ≡ reading.short_of line.now) }
{
    match line {
        [] | [b'#', ..] => Ok(Some(Item::Nothing)),
        [b'i', b'n'] => Ok(Some(text_of(alloc, b"")?)),
        _ => Ok(None),
    }
}

/// What a line says, None where it is outside the grammar.
#[tactic(auto, unfolding(script_model::specs::Reading::item_of))]
pub(crate) fn item_of(alloc: Global, line: &[u8]) -> Result<Option<Item>, AllocError>
    ensures { IfOk result (λ o. option_map item_view o ≡ reading.item_of line.now) }
{
    if let Some(text) = after(b"in ", line) {
        return Ok(Some(text_of(alloc, text)?));
    }
    if let Some(digits) = after(b"raw ", line) {
        return raw_of(alloc, digits);
    }
    if let Some(digits) = after(b"clock ", line) {
        return Ok(clock_of(digits));
    }
    if let Some(digits) = after(b"rand ", line) {
        return Ok(random_of(digits));
    }
    short_of(alloc, line)
}
