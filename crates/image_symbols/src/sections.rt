ghost use Rattle.std.specs.Prelude.{◌≡◌, ◌≤◌, ◌<◌, ◌+◌, ◌*◌, IfSome, None, Some, if◌then◌else◌, length, option_map, slice_get};
ghost use Rattle.std.specs.Int.{w32, from_le_bytes};
ghost use Rattle.std.specs.List.{find};
ghost use Rattle.std.specs.Option.{option_copied};
ghost use Rattle.elf_model.specs.Header.{mark};
ghost use Rattle.image_symbols.specs.Sections as model;
ghost use Rattle.image_symbols.specs.Sections.{content_of, count_of, has_sections, header_size, headers_at, is_of_format, is_symbol_table, sections_from, tables_of};
ghost use Rattle.image_symbols.specs.View.{section_view};

use crate::fields::{u16_at, u32_at};

/// How many bytes the file header has.
const FILE_HEADER_SIZE: usize = 52;

/// How many bytes a section header has.
const SECTION_HEADER_SIZE: usize = 40;

/// EI_CLASS of a file of 32 bits.
const CLASS_32: u8 = 1;

/// EI_DATA of a file whose numbers are little endian.
const LITTLE_ENDIAN: u8 = 1;

/// sh_type of a symbol table.
const SYMBOL_TABLE: u32 = 2;

/// Where section headers stand in a file, and how many there are.
#[derive(Clone, Copy)]
struct Headers {
    at: u32,
    count: u16,
}

/// What is read of a section header.
#[derive(Clone, Copy)]
struct Section {
    /// sh_type.
    kind: u32,
    /// Where its bytes stand in the file.
    offset: u32,
    /// How many bytes it has.
    size: u32,
    /// sh_link: of a symbol table, the number of the section that has its names.
    link: u32,
}

// The bytes that a file of this format begins with, as a little endian number.
fn file_mark() -> u32
    ensures { result ≡ from_le_bytes w32 mark }
{
    u32::from_le_bytes(*b"\x7fELF")
}

// Whether a file is one of this format.
fn is_of_format(bytes: &[u8]) -> bool
    ensures { result ≡ is_of_format bytes.now }
{
    bytes.len() >= FILE_HEADER_SIZE
        && u32_at(bytes, 0) == file_mark()
        && bytes[4] == CLASS_32
        && bytes[5] == LITTLE_ENDIAN
}

// The section headers of a file that has them whole.
fn read_headers(bytes: &[u8]) -> Option<Headers>
    ensures exact { result ≡ (if has_sections bytes.now then Some (record { at = headers_at bytes.now; count = count_of bytes.now }) else None) }
    ensures whole { IfSome result (λ h. h.at + header_size * h.count ≤ length bytes.now) }
{
    if !is_of_format(bytes) {
        return None;
    }
    let at = u32_at(bytes, 32);
    let size = u16_at(bytes, 46);
    let count = u16_at(bytes, 48);
    if usize::from(size) == SECTION_HEADER_SIZE
        && at as usize + SECTION_HEADER_SIZE * usize::from(count) <= bytes.len()
    {
        Some(Headers { at, count })
    } else {
        None
    }
}

// The section whose header stands at an offset.
fn section_at(bytes: &[u8], at: usize) -> Section
    requires { at + header_size ≤ length bytes.now }
    ensures { section_view result ≡ model.section_at at bytes.now }
{
    Section {
        kind: u32_at(bytes, at + 4),
        offset: u32_at(bytes, at + 16),
        size: u32_at(bytes, at + 20),
        link: u32_at(bytes, at + 24),
    }
}

// The first symbol table.
fn find_table(bytes: &[u8], headers: Headers) -> Option<Section>
    requires { headers.at + header_size * headers.count ≤ length bytes.now }
    ensures { option_map section_view result ≡ find is_symbol_table (sections_from headers.at headers.count bytes.now) }
{
    for k in 0..usize::from(headers.count) {
        let section = section_at(bytes, headers.at as usize + SECTION_HEADER_SIZE * k);
        if section.kind == SYMBOL_TABLE {
            return Some(section);
        }
    }
    None
}

// The section of a number.
fn numbered(bytes: &[u8], headers: Headers, number: u32) -> Option<Section>
    requires { headers.at + header_size * headers.count ≤ length bytes.now }
    ensures { option_map section_view result ≡ slice_get (sections_from headers.at headers.count bytes.now) number }
{
    if number >= u32::from(headers.count) {
        return None;
    }
    Some(section_at(
        bytes,
        headers.at as usize + SECTION_HEADER_SIZE * number as usize,
    ))
}

// A section's bytes, where the file has them whole.
fn content_of(bytes: &[u8], section: Section) -> Option<&[u8]>
    ensures { option_copied result ≡ content_of bytes.now (section_view section) }
{
    let from = section.offset as usize;
    let size = section.size as usize;
    if from + size > bytes.len() {
        return None;
    }
    let (_, rest) = bytes.split_at(from);
    let (content, _) = rest.split_at(size);
    Some(content)
}

/// The symbol table of a file, and the bytes that have its names. None where the file is not one of this format, has no symbol table, or does not have both whole.
#[tactic(auto, unfolding(crate::specs::Sections::tables_of))]
pub(crate) fn tables_of(bytes: &[u8]) -> Option<(&[u8], &[u8])>
    ensures { option_map (λ t. (t.0.now, t.1.now)) result ≡ tables_of bytes.now }
{
    let headers = read_headers(bytes)?;
    let table = find_table(bytes, headers)?;
    let names = numbered(bytes, headers, table.link)?;
    let table = content_of(bytes, table)?;
    let names = content_of(bytes, names)?;
    Some((table, names))
}
