ghost use Rattle.std.specs.Prelude.{◌≡◌, ℕ, ◌≤◌, List, true, cond, length, nat_le, IfOk};
ghost use Rattle.file_model.specs.Sizes.{greatest_length};
ghost use Rattle.file_model.specs.Slots.{slots_of, with_slot};
ghost use Rattle.file_model.specs.Operations as files;
ghost use Rattle.file_image.specs.Lookup.{file_in, put_answer, HasFile};
ghost use Rattle.file_image.specs.Writes.{Applies};

use crate::editing::next_version;
use crate::fields::{is_append, length};
use crate::file_bytes::FileBytes;
use crate::header::{CONTENT, GREATEST_LENGTH};
use crate::reading::usable;
use crate::writing::{read_header, write_bytes, write_header};
use file_model::FileError;

// Where a part that is written begins in a content of this length.
fn start_of(length: u32, add: bool) -> u32
    ensures { result ≡ cond add length 0 }
{
    if add { length } else { 0 }
}

// Writes a content, or adds to it; it is short enough.
fn write_content<B: FileBytes>(bytes: &mut B, slot: u32, part: &[u8], add: bool)
    requires slot { HasFile (B.bytes bytes.old) slot }
    requires long { length (files.new_content (file_in (B.bytes bytes.old) slot) part.now add) ≤ greatest_length }
    requires ready { B.is_ready bytes.old slot ≡ true }
    requires all { B.spared bytes.old slot ≡ 0 }
    ensures bytes { B.bytes bytes.new ≡ with_slot (B.bytes bytes.old) slot (files.with_content part.now add (file_in (B.bytes bytes.old) slot)) }
    ensures kept { B.keeps bytes.old bytes.new }
{
    let mut header = read_header(bytes, slot);
    let start = start_of(header.length, add);
    header.version = next_version(header.version);
    header.length = start + part.len() as u32;
    write_header(bytes, slot, &header);
    write_bytes(bytes, slot, CONTENT + start, part);
}

// Whether a content stays short enough, of so many bytes, or with so many more.
fn is_room<B: FileBytes>(bytes: &B, slot: u32, count: usize, add: bool) -> bool
    requires { HasFile (B.bytes bytes.now) slot }
    ensures { (part : List ℕ) → length part ≡ count → result ≡ nat_le (length (files.new_content (file_in (B.bytes bytes.now) slot) part add)) greatest_length }
{
    let start = start_of(length(bytes, slot), add);
    count <= (GREATEST_LENGTH - start) as usize
}

/// The slot of a file whose content can be replaced by so many bytes, or added to by them; the error is that of `put`.
pub fn put_slot<B: FileBytes>(
    bytes: &B,
    name: &[u8],
    count: usize,
    add: bool,
) -> Result<u32, FileError>
    ensures put { (part : List ℕ) → length part ≡ count → files.put (slots_of (B.bytes bytes.now)) name.now part add ≡ put_answer (B.bytes bytes.now) part add result }
    ensures slot { IfOk result (λ k. HasFile (B.bytes bytes.now) k) }
    ensures room { IfOk result (λ k. (part : List ℕ) → length part ≡ count → length (files.new_content (file_in (B.bytes bytes.now) k) part add) ≤ greatest_length) }
{
    match usable(bytes, name) {
        Err(error) => Err(error),
        Ok(slot) => {
            if !add && is_append(bytes, slot) {
                return Err(FileError::NotAppend);
            }
            if !is_room(bytes, slot, count, add) {
                return Err(FileError::TooLong);
            }
            Ok(slot)
        }
    }
}

/// Replaces a file's content, or adds to it. The file's slot is ready, with all of its content.
pub fn put<B: FileBytes>(
    bytes: &mut B,
    name: &[u8],
    part: &[u8],
    add: bool,
) -> Result<(), FileError>
    requires ready { IfOk (files.put (slots_of (B.bytes bytes.old)) name.now part.now add) (λ e. B.is_ready bytes.old e.slot ≡ true) }
    requires all { IfOk (files.put (slots_of (B.bytes bytes.old)) name.now part.now add) (λ e. B.spared bytes.old e.slot ≡ 0) }
    ensures applied { Applies (files.put (slots_of (B.bytes bytes.old)) name.now part.now add) result (B.bytes bytes.old) (B.bytes bytes.new) }
    ensures kept { B.keeps bytes.old bytes.new }
{
    match put_slot(bytes, name, part.len(), add) {
        Err(error) => Err(error),
        Ok(slot) => {
            write_content(bytes, slot, part, add);
            Ok(())
        }
    }
}
