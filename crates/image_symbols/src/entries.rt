ghost use Rattle.std.specs.Prelude.{◌≡◌, ◌≤◌, ◌+◌, ◌==◌, ◌++◌, IfOk, OnOk, length, map, option_map};
ghost use Rattle.std.specs.List.{before_first, list_all};
ghost use Rattle.std.specs.Option.{option_to_list};
ghost use Rattle.symbols.specs.Symbols.{IsArranged, symbol_of};
ghost use Rattle.image_symbols.specs.Entries as model;
ghost use Rattle.image_symbols.specs.Entries.{elf_symbols, entry_size, is_name, is_place, is_printable, name_at, symbols_in};

use crate::fields::{u16_at, u32_at};
use crate::sections::tables_of;
use std::alloc::{AllocError, Global};
use symbols::{Symbol, Symbols};

/// How many bytes an entry of a symbol table has.
const ENTRY_SIZE: usize = 16;

/// How many bytes a name may have.
const LONGEST: usize = 1024;

// What stands before the first 0, or all where there is none.
fn before_zero(text: &[u8]) -> &[u8]
    ensures { result.now ≡ before_first (λ b. b == 0) text.now }
{
    for (at, byte) in text.iter().enumerate() {
        if *byte == 0 {
            return &text[..at];
        }
    }
    text
}

// The name that stands at an offset of a string table, or the beginning of one that is too long.
fn name_at(names: &[u8], at: u32) -> &[u8]
    ensures { result.now ≡ name_at names.now at }
{
    let (_, rest) = names.split_at(names.len().min(at as usize));
    let (front, _) = rest.split_at(rest.len().min(LONGEST + 1));
    before_zero(front)
}

fn are_printable(name: &[u8]) -> bool
    ensures { result ≡ list_all is_printable name.now }
{
    name.iter().all(|byte| 33 <= *byte && *byte <= 126)
}

// Whether a name is shown.
fn is_name(name: &[u8]) -> bool
    ensures { result ≡ is_name name.now }
{
    !name.is_empty()
        && name.len() <= LONGEST
        && are_printable(name)
        && name[0] != b'$'
        && name[0] != b'.'
}

// Whether an entry is a place in memory: defined in the file, without a type, or data, or a function.
fn is_place(table: &[u8], at: usize) -> bool
    requires { at + entry_size ≤ length table.now }
    ensures { result ≡ is_place at table.now }
{
    table[at + 12] % 16 <= 2 && u16_at(table, at + 14) != 0
}

// The symbol of an entry, where it names a place.
fn symbol_at(
    alloc: Global,
    table: &[u8],
    names: &[u8],
    at: usize,
) -> Result<Option<Symbol>, AllocError>
    requires { at + entry_size ≤ length table.now }
    ensures { IfOk result (λ o. option_map symbol_of o ≡ model.symbol_at table.now names.now at) }
{
    let name = name_at(names, u32_at(table, at));
    if !is_place(table, at) || !is_name(name) {
        return Ok(None);
    }
    Ok(Some(Symbol {
        address: u32_at(table, at + 4),
        name: Vec::from_slice(alloc, name)?,
    }))
}

// The symbol of an entry behind others, where it names a place.
fn push_symbol(
    alloc: Global,
    symbols: &mut Vec<Symbol>,
    table: &[u8],
    names: &[u8],
    at: usize,
) -> Result<(), AllocError>
    requires { at + entry_size ≤ length table.now }
    ensures { OnOk result (map symbol_of symbols.new.items ≡ map symbol_of symbols.old.items ++ option_to_list (model.symbol_at table.now names.now at)) }
{
    if let Some(symbol) = symbol_at(alloc, table, names, at)? {
        symbols.push(symbol)?;
    }
    Ok(())
}

// The symbols of a table, in its order.
fn symbols_in(alloc: Global, table: &[u8], names: &[u8]) -> Result<Vec<Symbol>, AllocError>
    ensures { IfOk result (λ v. map symbol_of v.items ≡ symbols_in table.now names.now) }
{
    let mut symbols = Vec::new(alloc);
    for k in 0..table.len() / ENTRY_SIZE {
        push_symbol(alloc, &mut symbols, table, names, ENTRY_SIZE * k)?;
    }
    Ok(symbols)
}

// The symbols of a file, in the order of its table.
fn all_symbols(alloc: Global, file: &[u8]) -> Result<Vec<Symbol>, AllocError>
    ensures { IfOk result (λ v. map symbol_of v.items ≡ elf_symbols file.now) }
{
    match tables_of(file) {
        Some((table, names)) => symbols_in(alloc, table, names),
        None => Ok(Vec::new(alloc)),
    }
}

/// The symbols of a file in the format ELF32, little endian (System V ABI): the entries of its symbol table that have no type or are data or functions, that the file
/// defines, and whose name has 1 to 1,024 printable characters, without a space, and does not begin with `$` or `.`. Symbols of one address stand in the order of the table, so the last
/// of these names a place there. None of any other file, and of one whose tables do not lie in it. The one error is want of memory.
pub fn elf_symbols(alloc: Global, file: &[u8]) -> Result<Symbols, AllocError>
    ensures { IfOk result (λ s. IsArranged (elf_symbols file.now) s) }
{
    Symbols::new(all_symbols(alloc, file)?)
}
