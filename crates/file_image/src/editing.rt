ghost use Rattle.std.specs.Prelude.{◌≡◌, ◌<◌, ◌+◌, ◌%◌, ◌^◌, Bool, true, IfOk};
ghost use Rattle.file_model.specs.Sizes.{slot_count};
ghost use Rattle.file_model.specs.File.{is_name};
ghost use Rattle.file_model.specs.Slots.{slots_of, with_slot, with_padding};
ghost use Rattle.file_model.specs.Operations as files;
ghost use Rattle.file_image.specs.Lookup.{file_in, slot_answer, HasFile};
ghost use Rattle.file_image.specs.Writes.{Applies};

use crate::fields::is_deleted;
use crate::file_bytes::FileBytes;
use crate::lookup::{find, lowest_free};
use crate::reading::{is_name, present};
use crate::writing::{Header, read_header, write_header};
use file_model::FileError;

// The version after this one: it wraps.
pub(crate) fn next_version(version: u32) -> u32
    ensures { result ≡ (version + 1) % 2 ^ 32 }
{
    version.wrapping_add(1)
}

// A name padded with 0.
fn pad(name: &[u8]) -> [u8; 32]
    requires { is_name name.now ≡ true }
    ensures { result ≡ with_padding name.now }
{
    let mut bytes = [0; 32];
    bytes[..name.len()].copy_from_slice(name);
    bytes
}

// A file that was never there, in a slot.
fn write_new<B: FileBytes>(bytes: &mut B, slot: u32, name: &[u8], append: bool)
    requires slot { slot < slot_count }
    requires named { is_name name.now ≡ true }
    requires ready { B.has_header bytes.old slot ≡ true }
    ensures bytes { B.bytes bytes.new ≡ with_slot (B.bytes bytes.old) slot (files.new_file name.now append) }
    ensures kept { B.keeps bytes.old bytes.new }
{
    let header = Header {
        name: pad(name),
        name_length: name.len() as u32,
        version: 1,
        base: 0,
        length: 0,
        length_at_base: 0,
        append,
        conflicted: false,
        deleted: false,
    };
    write_header(bytes, slot, &header);
}

// A deleted file is there again.
fn revive<B: FileBytes>(bytes: &mut B, slot: u32, append: bool)
    requires slot { HasFile (B.bytes bytes.old) slot }
    requires ready { B.has_header bytes.old slot ≡ true }
    ensures bytes { B.bytes bytes.new ≡ with_slot (B.bytes bytes.old) slot (files.revival (file_in (B.bytes bytes.old) slot) append) }
    ensures kept { B.keeps bytes.old bytes.new }
{
    let mut header = read_header(bytes, slot);
    header.version = next_version(header.version);
    header.length = 0;
    header.append = append;
    header.conflicted = false;
    header.deleted = false;
    write_header(bytes, slot, &header);
}

/// The slot in which `create` makes a file, or a deleted one anew; the error is that of `create`.
pub fn create_slot<B: FileBytes>(bytes: &B, name: &[u8]) -> Result<u32, FileError>
    ensures create { (append : Bool) → result ≡ slot_answer (files.create (slots_of (B.bytes bytes.now)) name.now append) }
    ensures within { IfOk result (λ k. k < slot_count) }
{
    if !is_name(name) {
        return Err(FileError::BadName);
    }
    match find(bytes, name) {
        Some(slot) => {
            if is_deleted(bytes, slot) {
                Ok(slot)
            } else {
                Err(FileError::Exists)
            }
        }
        None => match lowest_free(bytes) {
            Some(slot) => Ok(slot),
            None => Err(FileError::NoSlot),
        },
    }
}

/// Makes a file, or a deleted one anew. The header of the slot that it takes may be written.
pub fn create<B: FileBytes>(bytes: &mut B, name: &[u8], append: bool) -> Result<(), FileError>
    requires { IfOk (files.create (slots_of (B.bytes bytes.old)) name.now append) (λ e. B.has_header bytes.old e.slot ≡ true) }
    ensures applied { Applies (files.create (slots_of (B.bytes bytes.old)) name.now append) result (B.bytes bytes.old) (B.bytes bytes.new) }
    ensures kept { B.keeps bytes.old bytes.new }
{
    if !is_name(name) {
        return Err(FileError::BadName);
    }
    match find(bytes, name) {
        Some(slot) => {
            if !is_deleted(bytes, slot) {
                return Err(FileError::Exists);
            }
            revive(bytes, slot, append);
            Ok(())
        }
        None => match lowest_free(bytes) {
            Some(slot) => {
                write_new(bytes, slot, name, append);
                Ok(())
            }
            None => Err(FileError::NoSlot),
        },
    }
}

// A file is marked deleted, and has no content.
fn mark_deleted<B: FileBytes>(bytes: &mut B, slot: u32)
    requires slot { HasFile (B.bytes bytes.old) slot }
    requires ready { B.has_header bytes.old slot ≡ true }
    ensures bytes { B.bytes bytes.new ≡ with_slot (B.bytes bytes.old) slot (files.deleted_file (file_in (B.bytes bytes.old) slot)) }
    ensures kept { B.keeps bytes.old bytes.new }
{
    let mut header = read_header(bytes, slot);
    header.version = next_version(header.version);
    header.length = 0;
    header.conflicted = false;
    header.deleted = true;
    write_header(bytes, slot, &header);
}

/// Deletes a file. Its slot, whose header may be written, stays in use.
pub fn delete<B: FileBytes>(bytes: &mut B, name: &[u8]) -> Result<(), FileError>
    requires { IfOk (files.delete (slots_of (B.bytes bytes.old)) name.now) (λ e. B.has_header bytes.old e.slot ≡ true) }
    ensures applied { Applies (files.delete (slots_of (B.bytes bytes.old)) name.now) result (B.bytes bytes.old) (B.bytes bytes.new) }
    ensures kept { B.keeps bytes.old bytes.new }
{
    match present(bytes, name) {
        Err(error) => Err(error),
        Ok(slot) => {
            mark_deleted(bytes, slot);
            Ok(())
        }
    }
}
