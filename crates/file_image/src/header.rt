ghost use Rattle.std.specs.Prelude.{◌≡◌, ℕ, ◌+◌, ◌-◌, ◌%◌, ◌<◌, ◌≤◌, ◌==◌, ◌&&◌, nat_le, not, length};
ghost use Rattle.std.specs.List.{list_any};
ghost use Rattle.std.specs.Str.{bytes_eq};
ghost use Rattle.file_model.specs.Sizes.{slot_size, all_slots_size, content_offset, greatest_name, greatest_length};
ghost use Rattle.file_model.specs.File.{is_name};
ghost use Rattle.file_model.specs.Slots.{number_at, bytes_from, name_at, is_in_use, name_length_offset};

use crate::file_bytes::FileBytes;
use crate::reading::{is_name, read_bytes};

// The mark that a slot in use begins with, `DTF1`, as a number.
pub(crate) const MARK: u32 = 0x3146_5444;

// The greatest length of a content.
pub(crate) const GREATEST_LENGTH: u32 = 61440;

// The greatest length of a name.
pub(crate) const GREATEST_NAME: u32 = 32;

// How many slots there are.
pub(crate) const SLOTS: u32 = 64;

// The bytes of a slot.
pub(crate) const SLOT_SIZE: u32 = 65536;

// Where a content begins in its slot.
pub(crate) const CONTENT: u32 = 4096;

// The bytes of a page, of which a header has the first of its slot.
pub(crate) const PAGE_SIZE: u32 = 4096;

// How many bytes of a page stand from an offset on.
pub(crate) fn rest_of_page(offset: u32) -> usize
    ensures { result ≡ content_offset - offset % content_offset }
{
    (PAGE_SIZE - offset % PAGE_SIZE) as usize
}

// The number of four bytes at an offset, the least first.
pub(crate) fn number<B: FileBytes>(bytes: &B, at: u32) -> u32
    requires { at + 4 ≤ all_slots_size }
    ensures { result ≡ number_at (B.bytes bytes.now) at }
{
    let mut row = [0; 4];
    read_bytes(bytes, at, &mut row);
    u32::from_le_bytes(row)
}

// Whether the name of the slot that begins here is one.
fn is_named<B: FileBytes>(bytes: &B, at: u32) -> bool
    requires { at + slot_size ≤ all_slots_size }
    ensures { result ≡ is_name (name_at (B.bytes bytes.now) at) }
{
    let n = number(bytes, at + 24);
    if n > GREATEST_NAME {
        return false;
    }
    let mut row = [0; GREATEST_NAME as usize];
    let name = &mut row[..n as usize];
    read_bytes(bytes, at + 28, name);
    is_name(name)
}

// Whether the slot that begins here is in use.
pub(crate) fn is_in_use<B: FileBytes>(bytes: &B, at: u32) -> bool
    requires { at + slot_size ≤ all_slots_size }
    ensures { result ≡ is_in_use (B.bytes bytes.now) at }
{
    number(bytes, at) == MARK
        && number(bytes, at + 12) <= GREATEST_LENGTH
        && number(bytes, at + 16) <= GREATEST_LENGTH
        && number(bytes, at + 20) < 8
        && is_named(bytes, at)
}

// Whether the slot that begins here has this name, which is short.
pub(crate) fn has_name<B: FileBytes>(bytes: &B, at: u32, name: &[u8]) -> bool
    requires { at + slot_size ≤ all_slots_size }
    ensures { result ≡ (nat_le (number_at (B.bytes bytes.now) (at + name_length_offset)) greatest_name && bytes_eq (name_at (B.bytes bytes.now) at) name.now) }
{
    let n = number(bytes, at + 24);
    if n > GREATEST_NAME {
        return false;
    }
    if n as usize != name.len() {
        return false;
    }
    let mut row = [0; GREATEST_NAME as usize];
    let own = &mut row[..n as usize];
    read_bytes(bytes, at + 28, own);
    *own == *name
}
