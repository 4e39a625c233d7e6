ghost use Rattle.std.specs.Prelude.{◌≡◌, ◌++◌, ◌<◌, ◌≤◌, IfOk, OnOk, Some, string_bytes};
ghost use Rattle.file_model.specs.Sizes.{slot_count};
ghost use Rattle.file_model.specs.Slots.{slot_at};
ghost use Rattle.space_model.specs.Files.{file_bytes, files_in};
ghost use Rattle.explain_core.specs.Contents.{file_text, files_text, flag_text, flags_text, is_plain, name_byte, name_text, slot_text};
ghost use Rattle.explain_core.specs.Headers.{shown_header};

use file_image::Header;
use memory_files::header_in;
use space_tree::Mem;
use std::alloc::{AllocError, Global};

// How many slots a memory has.
const SLOTS: u32 = 64;

// Whether a byte of a name is shown as it is: from `!` to `~`, and no backslash.
fn is_plain(byte: u8) -> bool
    ensures { result ≡ is_plain byte }
{
    33 <= byte && byte <= 126 && byte != 92
}

// A byte of a name: itself from `!` to `~`, or its number behind `\x`; so is a backslash.
#[tactic(auto, using(std::proofs::lemmas::Str::encode_ascii))]
fn name_byte(alloc: Global, byte: u8) -> Result<String, AllocError>
    ensures { IfOk result (λ s. string_bytes s ≡ name_byte byte) }
{
    if is_plain(byte) {
        let mut text = String::new(alloc);
        text.push(char::from(byte))?;
        return Ok(text);
    }
    format!(in alloc; "\\x{byte:02x}")
}

/// A name of a file, with each byte that is not from `!` to `~` in hexadecimal digits.
pub(crate) fn name_text(alloc: Global, name: &[u8]) -> Result<String, AllocError>
    ensures { IfOk result (λ s. string_bytes s ≡ name_text name.now) }
{
    let mut text = String::new(alloc);
    for byte in name {
        let shown = name_byte(alloc, *byte)?;
        text.push_str(&shown)?;
    }
    Ok(text)
}

/// The name of a header's file.
pub(crate) fn file_name(alloc: Global, header: &Header) -> Result<String, AllocError>
    requires { header.now.name_length ≤ 32 }
    ensures { IfOk result (λ s. string_bytes s ≡ name_text (shown_header header.now).name) }
{
    name_text(alloc, &header.name[..header.name_length as usize])
}

// A space and a word, where this is so.
fn flag_text(alloc: Global, is: bool, word: &str) -> Result<String, AllocError>
    ensures { IfOk result (λ s. string_bytes s ≡ flag_text is word.now) }
{
    if is {
        format!(in alloc; " {word}")
    } else {
        String::from_str(alloc, "")
    }
}

// What is so of a file: that its content only grows, that parent and child both changed it, that it is deleted.
fn flags_text(alloc: Global, header: &Header) -> Result<String, AllocError>
    ensures { IfOk result (λ s. string_bytes s ≡ flags_text (shown_header header.now)) }
{
    let append = flag_text(alloc, header.append, "append")?;
    let conflicted = flag_text(alloc, header.conflicted, "conflicted")?;
    let deleted = flag_text(alloc, header.deleted, "deleted")?;
    format!(in alloc; "{append}{conflicted}{deleted}")
}

// A file in its slot.
fn file_text(alloc: Global, slot: u32, header: &Header) -> Result<String, AllocError>
    requires { header.now.name_length ≤ 32 }
    ensures { IfOk result (λ s. string_bytes s ≡ file_text slot (shown_header header.now)) }
{
    let name = file_name(alloc, header)?;
    let version = header.version;
    let length = header.length;
    let base = header.base;
    let flags = flags_text(alloc, header)?;
    format!(in alloc; "file {slot} {name} version {version} length {length} base {base}{flags}\n")
}

// What a slot has, where it is in use.
#[tactic(auto, using(crate::proofs::Names::short, crate::proofs::Names::slot_used, crate::proofs::Names::slot_free))]
fn slot_text(alloc: Global, memory: &Mem, slot: u32) -> Result<String, AllocError>
    requires { slot < slot_count }
    ensures { IfOk result (λ s. string_bytes s ≡ slot_text slot (slot_at (file_bytes memory.now.memory) slot)) }
{
    match header_in(memory, slot) {
        Some(header) => file_text(alloc, slot, &header),
        None => String::from_str(alloc, ""),
    }
}

/// Appends a line for each slot in use.
pub(crate) fn push_files(alloc: Global, text: &mut Vec<u8>, memory: &Mem) -> Result<(), AllocError>
    ensures { OnOk result (text.new.items ≡ text.old.items ++ files_text 0 (files_in memory.now.memory)) }
{
    for slot in 0..SLOTS {
        let line = slot_text(alloc, memory, slot)?;
        text.extend_from_slice(line.as_bytes())?;
    }
    Ok(())
}
