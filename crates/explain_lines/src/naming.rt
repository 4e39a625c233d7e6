ghost use Rattle.std.specs.Prelude.{◌≡◌, ◌++◌, IfOk, OnOk, Some, length, option_map, true};
ghost use Rattle.std.specs.List.{list_all};
ghost use Rattle.std.specs.Str.Parse.{digits_value};
ghost use Rattle.symbols.specs.Symbols.{place_of};
ghost use Rattle.explain_lines.specs.Names.{address_of, is_before_address, is_digit, named, named_line, named_word, place_behind, place_text};

use crate::cutting::cut;
use std::alloc::{AllocError, Global};
use symbols::{Place, Symbols};

fn is_digit(byte: u8) -> bool
    ensures { result ≡ is_digit byte }
{
    (48 <= byte && byte <= 57) || (97 <= byte && byte <= 102)
}

fn are_digits(word: &[u8]) -> bool
    ensures { result ≡ list_all is_digit word.now }
{
    word.iter().all(|byte| is_digit(*byte))
}

// The number that eight hexadecimal digits write.
fn number_of(digits: &[u8]) -> Option<u32>
    requires eight { length digits.now ≡ 8 }
    requires digits { list_all is_digit digits.now ≡ true }
    ensures { result ≡ Some (digits_value 16 digits.now) }
{
    u32::from_str_radix(str::from_utf8(digits).ok()?, 16).ok()
}

// The address that a word of eight hexadecimal digits in lower case writes. None of any other word.
fn address_of(word: &[u8]) -> Option<u32>
    ensures { result ≡ address_of word.now }
{
    if word.len() == 8 && are_digits(word) {
        number_of(word)
    } else {
        None
    }
}

// Whether an address may stand behind this word.
fn is_before_address(word: &[u8]) -> bool
    ensures { result ≡ is_before_address word.now }
{
    word == "pc".as_bytes() || word == "at".as_bytes()
}

// The place of the address that a word writes, where it stands behind a word that says so.
fn place_behind<'a>(symbols: &'a Symbols, before: &[u8], word: &[u8]) -> Option<Place<'a>>
    ensures { option_map place_of result ≡ place_behind symbols.now before.now word.now }
{
    if !is_before_address(before) {
        return None;
    }
    symbols.place_at(address_of(word)?)
}

// A place as text: a name, and how many bytes it is past that.
fn push_place(out: &mut Vec<u8>, place: Place<'_>) -> Result<(), AllocError>
    ensures { OnOk result (out.new.items ≡ out.old.items ++ place_text (place_of place.entry)) }
{
    out.extend_from_slice(place.name)?;
    let offset = place.offset;
    if offset != 0 {
        let alloc = *out.allocator();
        let text = format!(in alloc; "+{offset}")?;
        out.extend_from_slice(text.as_bytes())?;
    }
    Ok(())
}

// A word that stands behind another, with the place of its address.
fn push_word(
    out: &mut Vec<u8>,
    symbols: &Symbols,
    before: &[u8],
    word: &[u8],
) -> Result<(), AllocError>
    ensures { OnOk result (out.new.items ≡ out.old.items ++ named_word symbols.now before.now word.now) }
{
    out.extend_from_slice(word)?;
    match place_behind(symbols, before, word) {
        Some(place) => {
            out.push(b' ')?;
            push_place(out, place)
        }
        None => Ok(()),
    }
}

// A line, word by word.
fn push_line(out: &mut Vec<u8>, symbols: &Symbols, line: &[u8]) -> Result<(), AllocError>
    ensures { OnOk result (out.new.items ≡ out.old.items ++ named_line symbols.now line.now) }
{
    let (first, more) = cut(b' ', line);
    push_word(out, symbols, &[], first)?;
    let mut before = first;
    let mut rest = more;
    while let Some(words) = rest {
        let (word, after) = cut(b' ', words);
        out.push(b' ')?;
        push_word(out, symbols, before, word)?;
        before = word;
        rest = after;
    }
    Ok(())
}

/// The text with the name of the place behind each address that has one: of an address behind the word `pc` or `at`, a word of eight hexadecimal digits in lower case, as
/// in `pc 00001070 loop+8 addi a7, zero, 3`. All else stays as it is. The one error is want of memory.
pub fn named(alloc: Global, text: &[u8], symbols: &Symbols) -> Result<Vec<u8>, AllocError>
    ensures { IfOk result (λ v. v.items ≡ named symbols.now text.now) }
{
    let mut out = Vec::with_capacity(alloc, text.len())?;
    let (first, more) = cut(b'\n', text);
    push_line(&mut out, symbols, first)?;
    let mut rest = more;
    while let Some(lines) = rest {
        let (line, after) = cut(b'\n', lines);
        out.push(b'\n')?;
        push_line(&mut out, symbols, line)?;
        rest = after;
    }
    Ok(out)
}
