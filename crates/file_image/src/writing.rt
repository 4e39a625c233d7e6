ghost use Rattle.std.specs.Prelude.{◌≡◌, ◌<◌, ◌≤◌, ◌+◌, ◌++◌, true, cond, length};
ghost use Rattle.file_model.specs.Sizes.{slot_count, slot_size, content_offset};
ghost use Rattle.file_model.specs.File.{File};
ghost use Rattle.file_model.specs.Slots.{slot_at, slot_start, with_bytes, header_bytes, with_padding};
ghost use Rattle.file_image.specs.Lookup.{file_in, HasFile};
ghost use Rattle.file_image.specs.Writes.{Describes, IsHeader, first_half, second_half};

use crate::fields::{base, is_append, is_conflicted, is_deleted, length, length_at_base, version};
use crate::file_bytes::FileBytes;
use crate::header::{SLOT_SIZE, number, rest_of_page};
use crate::lookup::is_free;
use crate::reading::read_bytes;

/// The fields of a slot's header, the name padded with 0.
#[derive(Clone, Copy)]
pub struct Header {
    /// The name, 1 to 32 bytes other than 0, and zeros behind it.
    pub name: [u8; 32],
    /// How many bytes the name has.
    pub name_length: u32,
    /// A number that each change adds one to.
    pub version: u32,
    /// The version that the file had when the process was forked.
    pub base: u32,
    /// How many bytes the content has, at most 61,440.
    pub length: u32,
    /// How many it had at the base.
    pub length_at_base: u32,
    /// Whether the content only grows.
    pub append: bool,
    /// Whether parent and child both changed the file.
    pub conflicted: bool,
    /// Whether the file is deleted.
    pub deleted: bool,
}

// Writes bytes from an offset of a slot on, page by page.
pub(crate) fn write_bytes<B: FileBytes>(bytes: &mut B, slot: u32, offset: u32, part: &[u8])
    requires slot { slot < slot_count }
    requires within { offset + length part.now ≤ slot_size }
    requires ready { B.has_header bytes.old slot ≡ true }
    requires content { content_offset < offset + length part.now → B.is_ready bytes.old slot ≡ true }
    requires beyond { content_offset < offset + length part.now → content_offset + B.spared bytes.old slot ≤ offset }
    ensures bytes { B.bytes bytes.new ≡ with_bytes (B.bytes bytes.old) (slot_start slot + offset) part.now }
    ensures ready { B.has_header bytes.new slot ≡ true }
    ensures kept { B.keeps bytes.old bytes.new }
{
    let start = SLOT_SIZE * slot + offset;
    let mut done: usize = 0;
    while done < part.len() {
        let at = start + done as u32;
        let count = rest_of_page(at).min(part.len() - done);
        bytes.write_run(at, &part[done..done + count]);
        done += count;
    }
}

// The flags of a header: 1 append, 2 conflicted, 4 deleted.
fn flags(header: &Header) -> u32
    ensures { result ≡ cond header.now.append 1 0 + cond header.now.conflicted 2 0 + cond header.now.deleted 4 0 }
{
    u32::from(header.append) + 2 * u32::from(header.conflicted) + 4 * u32::from(header.deleted)
}

// The bytes of a header.
fn header_row(header: &Header) -> [u8; 60]
    ensures { result ≡ first_half header.now ++ second_half header.now }
{
    let mut row = [0; 60];
    row[..4].copy_from_slice(b"DTF1");
    row[4..8].copy_from_slice(&header.version.to_le_bytes());
    row[8..12].copy_from_slice(&header.base.to_le_bytes());
    row[12..16].copy_from_slice(&header.length.to_le_bytes());
    row[16..20].copy_from_slice(&header.length_at_base.to_le_bytes());
    row[20..24].copy_from_slice(&flags(header).to_le_bytes());
    row[24..28].copy_from_slice(&header.name_length.to_le_bytes());
    row[28..].copy_from_slice(&header.name);
    row
}

// Writes a header.
pub(crate) fn write_header<B: FileBytes>(bytes: &mut B, slot: u32, header: &Header)
    requires slot { slot < slot_count }
    requires ready { B.has_header bytes.old slot ≡ true }
    ensures bytes { (f : File) → Describes header.now f → B.bytes bytes.new ≡ with_bytes (B.bytes bytes.old) (slot_start slot) (header_bytes f) }
    ensures ready { B.has_header bytes.new slot ≡ true }
    ensures kept { B.keeps bytes.old bytes.new }
{
    write_bytes(bytes, slot, 0, &header_row(header));
}

// The name of a slot in use, padded with 0.
fn read_name<B: FileBytes>(bytes: &B, slot: u32) -> [u8; 32]
    requires { HasFile (B.bytes bytes.now) slot }
    ensures { result ≡ with_padding (file_in (B.bytes bytes.now) slot).name }
{
    let at = SLOT_SIZE * slot;
    let n = number(bytes, at + 24) as usize;
    let mut name = [0; 32];
    read_bytes(bytes, at + 28, &mut name[..n]);
    name
}

// The header of a slot in use.
pub(crate) fn read_header<B: FileBytes>(bytes: &B, slot: u32) -> Header
    requires { HasFile (B.bytes bytes.now) slot }
    ensures { Describes result (file_in (B.bytes bytes.now) slot) }
{
    Header {
        name: read_name(bytes, slot),
        name_length: number(bytes, SLOT_SIZE * slot + 24),
        version: version(bytes, slot),
        base: base(bytes, slot),
        length: length(bytes, slot),
        length_at_base: length_at_base(bytes, slot),
        append: is_append(bytes, slot),
        conflicted: is_conflicted(bytes, slot),
        deleted: is_deleted(bytes, slot),
    }
}

/// The header of the file in a slot, below 64; none exactly where the slot is free.
#[tactic(auto, unfolding(file_model::specs::Slots::slot_at))]
pub fn file_header<B: FileBytes>(bytes: &B, slot: u32) -> Option<Header>
    requires { slot < slot_count }
    ensures { IsHeader (slot_at (B.bytes bytes.now) slot) result }
{
    if is_free(bytes, slot) {
        return None;
    }
    Some(read_header(bytes, slot))
}
