ghost use Rattle.std.specs.Prelude.{◌≡◌, ◌==◌, ◌≤◌, ◌+◌, ◌++◌, length, take, drop, Ok, IfOk};
ghost use Rattle.std.specs.List.{list_any};
ghost use Rattle.file_model.specs.Sizes.{all_slots_size};
ghost use Rattle.file_model.specs.File.{is_name};
ghost use Rattle.file_model.specs.Slots.{slots_of, bytes_from};
ghost use Rattle.file_model.specs.Operations as files;
ghost use Rattle.file_image.specs.Lookup.{entry_answer, file_in, HasFile};
ghost use Rattle.file_image.specs.Answers.{count_of, buffer_after};

use crate::fields::{is_conflicted, is_deleted, length};
use crate::file_bytes::FileBytes;
use crate::header::{CONTENT, GREATEST_NAME, SLOT_SIZE, rest_of_page};
use crate::lookup::find;
use file_model::FileError;

// Whether one of the bytes is 0.
#[tactic(auto, using(crate::proofs::ByteRows::any_next, crate::proofs::ByteRows::any_end))]
fn has_zero(bytes: &[u8]) -> bool
    ensures { result ≡ list_any (λ b. b == 0) bytes.now }
{
    for b in bytes {
        if *b == 0 {
            return true;
        }
    }
    false
}

// Whether these bytes are a name: 1 to 32, none of them 0.
pub(crate) fn is_name(name: &[u8]) -> bool
    ensures { result ≡ is_name name.now }
{
    name.len() > 0 && name.len() <= GREATEST_NAME as usize && !has_zero(name)
}

/// The slot of a name's file that is not deleted; the error is that of `delete`.
pub fn present<B: FileBytes>(bytes: &B, name: &[u8]) -> Result<u32, FileError>
    ensures present { files.present (slots_of (B.bytes bytes.now)) name.now ≡ entry_answer (B.bytes bytes.now) result }
    ensures slot { IfOk result (λ k. HasFile (B.bytes bytes.now) k) }
{
    if !is_name(name) {
        return Err(FileError::BadName);
    }
    match find(bytes, name) {
        None => Err(FileError::NoFile),
        Some(slot) => {
            if is_deleted(bytes, slot) {
                return Err(FileError::NoFile);
            }
            Ok(slot)
        }
    }
}

// The slot of a name's file that is neither deleted nor conflicted.
pub(crate) fn usable<B: FileBytes>(bytes: &B, name: &[u8]) -> Result<u32, FileError>
    ensures usable { files.usable (slots_of (B.bytes bytes.now)) name.now ≡ entry_answer (B.bytes bytes.now) result }
    ensures slot { IfOk result (λ k. HasFile (B.bytes bytes.now) k) }
{
    match present(bytes, name) {
        Err(error) => Err(error),
        Ok(slot) => {
            if is_conflicted(bytes, slot) {
                return Err(FileError::Conflicted);
            }
            Ok(slot)
        }
    }
}

/// How long a file is.
pub fn len<B: FileBytes>(bytes: &B, name: &[u8]) -> Result<u32, FileError>
    ensures { result ≡ files.length_of (slots_of (B.bytes bytes.now)) name.now }
{
    match usable(bytes, name) {
        Err(error) => Err(error),
        Ok(slot) => Ok(length(bytes, slot)),
    }
}

// Copies bytes from an offset on, page by page.
pub(crate) fn read_bytes<B: FileBytes>(bytes: &B, at: u32, out: &mut [u8])
    requires { at + length out.old ≤ all_slots_size }
    ensures { out.new ≡ bytes_from (B.bytes bytes.now) at (length out.old) }
{
    let mut done: usize = 0;
    while done < out.len() {
        let from = at + done as u32;
        let count = rest_of_page(from).min(out.len() - done);
        bytes.read_run(from, &mut out[done..done + count]);
        done += count;
    }
}

// Copies a part of the content of a slot in use, and counts its bytes.
#[tactic(auto, using(crate::proofs::Parts::content_part, file_model::proofs::Lookups::short_content))]
fn read_content<B: FileBytes>(bytes: &B, slot: u32, offset: u32, out: &mut [u8]) -> u32
    requires { HasFile (B.bytes bytes.now) slot }
    ensures count { result ≡ length (take (length out.old) (drop offset (file_in (B.bytes bytes.now) slot).content)) }
    ensures out { out.new ≡ buffer_after (Ok (take (length out.old) (drop offset (file_in (B.bytes bytes.now) slot).content))) out.old }
{
    let length = length(bytes, slot);
    let from = offset.min(length);
    let count = ((length - from) as usize).min(out.len());
    read_bytes(bytes, SLOT_SIZE * slot + CONTENT + from, &mut out[..count]);
    count as u32
}

/// Copies a file's content from an offset on to the start of `out`, as far as `out` and the content reach, and counts the bytes.
pub fn get<B: FileBytes>(
    bytes: &B,
    name: &[u8],
    offset: u32,
    out: &mut [u8],
) -> Result<u32, FileError>
    ensures answer { result ≡ count_of (files.get (slots_of (B.bytes bytes.now)) name.now offset (length out.old)) }
    ensures out { out.new ≡ buffer_after (files.get (slots_of (B.bytes bytes.now)) name.now offset (length out.old)) out.old }
{
    match usable(bytes, name) {
        Err(error) => Err(error),
        Ok(slot) => Ok(read_content(bytes, slot, offset, out)),
    }
}
