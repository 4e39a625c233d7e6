ghost use Rattle.std.specs.Prelude.{◌≡◌, ◌≤◌, ◌<◌, ◌^◌, ◌+◌, List, length, map, vec_len, IfOk, Ok, ◌/◌};
ghost use Rattle.std.specs.Int.{w8, w16, w32};
ghost use Rattle.fault_model.specs.Gives.{Gives};
ghost use Rattle.image_file.specs.View.{segment_view, segment_views};
ghost use Rattle.memory_model.specs.Sizes.{page_size, greatest_permission};
ghost use Rattle.image_model.specs.Image as model;
ghost use Rattle.image_model.specs.Image.{IsSegment, AreSegments, ImageOf};
ghost use Rattle.image_model.specs.Reading.{number_at, content_at, address_at, permission_at, length_at, segment_at, segments_at, magic_at, count_at, image_of};

use crate::fault::{ImageFault, bad};
use crate::format::{greatest_byte, mark, permission_of};
use crate::image::{Image, Segment};
use byteorder::{ByteOrder, LittleEndian};
use image_model::{Format, ImageErrorKind};
use memory_model::PAGE_SIZE;
use std::alloc::Global;

fn u32_at(at: u64, bytes: &[u8]) -> Result<(u32, &[u8]), ImageFault>
    ensures { Gives (λ x. (x.0, x.1.now)) result (number_at w32 at bytes.now) }
{
    if bytes.len() < 4 {
        return Err(bad(at, ImageErrorKind::Truncated));
    }
    let (front, rest) = bytes.split_at(4);
    Ok((LittleEndian::read_u32(front), rest))
}

fn u16_at(at: u64, bytes: &[u8]) -> Result<(u16, &[u8]), ImageFault>
    ensures { Gives (λ x. (x.0, x.1.now)) result (number_at w16 at bytes.now) }
{
    if bytes.len() < 2 {
        return Err(bad(at, ImageErrorKind::Truncated));
    }
    let (front, rest) = bytes.split_at(2);
    Ok((LittleEndian::read_u16(front), rest))
}

fn content_of(
    alloc: Global,
    count: u32,
    at: u64,
    bytes: &[u8],
) -> Result<(Vec<u8>, &[u8]), ImageFault>
    ensures read { Gives (λ x. (x.0.items, x.1.now)) result (content_at count at bytes.now) }
    ensures whole { IfOk result (λ x. length x.0.items ≡ count) }
{
    let count = count as usize;
    if bytes.len() < count {
        return Err(bad(at, ImageErrorKind::Truncated));
    }
    let (front, rest) = bytes.split_at(count);
    Ok((Vec::from_slice(alloc, front)?, rest))
}

fn address_of(page: u32, at: u64, bytes: &[u8]) -> Result<(u32, &[u8]), ImageFault>
    ensures read { Gives (λ x. (x.0, x.1.now)) result (address_at page at bytes.now) }
    ensures order { IfOk result (λ x. page ≤ x.0 / page_size) }
{
    let (address, rest) = u32_at(at, bytes)?;
    if address / PAGE_SIZE < page {
        return Err(bad(at, ImageErrorKind::Order));
    }
    Ok((address, rest))
}

#[tactic(auto, unfolding(image_model::specs::Reading::permission_at))]
fn permission_after(format: Format, at: u64, bytes: &[u8]) -> Result<(u8, &[u8]), ImageFault>
    ensures read { Gives (λ x. (x.0, x.1.now)) result (permission_at format at bytes.now) }
    ensures permission { IfOk result (λ x. x.0 ≤ greatest_permission) }
{
    match bytes {
        [] => Err(bad(at, ImageErrorKind::Truncated)),
        [byte, ..] if *byte > greatest_byte(format) => Err(bad(at, ImageErrorKind::Permission)),
        [byte, rest @ ..] => Ok((permission_of(format, *byte), rest)),
    }
}

fn length_of(address: u32, at: u64, bytes: &[u8]) -> Result<(u32, &[u8]), ImageFault>
    ensures read { Gives (λ x. (x.0, x.1.now)) result (length_at address at bytes.now) }
    ensures filled { IfOk result (λ x. 0 < x.0) }
    ensures short { IfOk result (λ x. x.0 < 2 ^ 32) }
    ensures range { IfOk result (λ x. address + x.0 ≤ 2 ^ 32) }
{
    let (count, rest) = u32_at(at, bytes)?;
    if count == 0 {
        return Err(bad(at, ImageErrorKind::Length));
    }
    if u64::from(address) + u64::from(count) > 1 << 32 {
        return Err(bad(at, ImageErrorKind::Range));
    }
    Ok((count, rest))
}

#[tactic(auto, unfolding(image_model::specs::Reading::segment_at))]
fn segment_of(
    alloc: Global,
    format: Format,
    page: u32,
    at: u64,
    bytes: &[u8],
) -> Result<(Segment, &[u8]), ImageFault>
    requires { at < 2 ^ 63 }
    ensures read { Gives (λ x. (segment_view x.0, x.1.now)) result (segment_at format page at bytes.now) }
    ensures sound { IfOk result (λ x. IsSegment page (segment_view x.0)) }
{
    let (addr, rest) = address_of(page, at, bytes)?;
    let (perm, rest) = permission_after(format, at + 4, rest)?;
    let (count, rest) = length_of(addr, at + 5, rest)?;
    let (content, rest) = content_of(alloc, count, at + 9, rest)?;
    Ok((
        Segment {
            addr,
            perm,
            bytes: content,
            zeros: 0,
        },
        rest,
    ))
}

fn magic_of(at: u64, bytes: &[u8]) -> Result<(Format, &[u8]), ImageFault>
    ensures { Gives (λ x. (x.0, x.1.now)) result (magic_at at bytes.now) }
{
    let (number, rest) = u32_at(at, bytes)?;
    if number == mark(Format::Dti1) {
        return Ok((Format::Dti1, rest));
    }
    if number == mark(Format::Dti2) {
        return Ok((Format::Dti2, rest));
    }
    Err(bad(at, ImageErrorKind::Magic))
}

fn count_of(at: u64, bytes: &[u8]) -> Result<(u16, &[u8]), ImageFault>
    ensures read { Gives (λ x. (x.0, x.1.now)) result (count_at at bytes.now) }
    ensures most { IfOk result (λ x. x.0 ≤ 64) }
{
    let (number, rest) = u16_at(at, bytes)?;
    if number > 64 {
        return Err(bad(at, ImageErrorKind::Count));
    }
    Ok((number, rest))
}

fn segments_of(
    alloc: Global,
    format: Format,
    count: u16,
    bytes: &[u8],
) -> Result<Vec<Segment>, ImageFault>
    requires { count ≤ 64 }
    ensures read { Gives (λ v. segment_views v.items) result (segments_at format count 0 14 bytes.now) }
    ensures sound { IfOk result (λ v. AreSegments 0 (segment_views v.items)) }
    ensures count { IfOk result (λ v. vec_len v ≡ count) }
{
    let mut parts = Vec::new(alloc);
    let mut page = 0;
    let mut at = 14;
    let mut rest = bytes;
    for _ in 0..count {
        let (segment, after) = segment_of(alloc, format, page, at, rest)?;
        let count = segment.size();
        at += 9 + count;
        page = ((u64::from(segment.addr) + count - 1) / u64::from(PAGE_SIZE) + 1) as u32;
        rest = after;
        parts.push(segment)?;
    }
    if !rest.is_empty() {
        return Err(bad(at, ImageErrorKind::Trailing));
    }
    Ok(parts)
}

#[tactic(auto, unfolding(image_model::specs::Reading::image_of))]
fn whole(alloc: Global, bytes: &[u8]) -> Result<Image, ImageFault>
    ensures { Gives (λ i. i) result (image_of bytes.now) }
{
    let (format, rest) = magic_of(0, bytes)?;
    let (entry, rest) = u32_at(4, rest)?;
    let (stack, rest) = u32_at(8, rest)?;
    let (count, rest) = count_of(12, rest)?;
    let segments = segments_of(alloc, format, count, rest)?;
    Ok(Image::new(entry, stack, segments))
}

/// The image that all of the bytes are, in the format DTI1 or DTI2, little endian: `DTI1` or `DTI2`, entry
/// (4 bytes), stack pointer (4), count (2), and for each segment its address (4), permission (1), length (4)
/// and bytes. In DTI1 the byte of a permission is from 0 to 3, and where it lets read, the segment lets
/// execute too; in DTI2 it is the permission, from 0 to 7. An error is the first fault from the left, at
/// the offset of its field, or want of memory.
pub fn read_image(alloc: Global, bytes: &[u8]) -> Result<Image, ImageFault>
    // What is read is spelled so.
    ensures found { IfOk result (λ i. ImageOf bytes.now i) }
    // What is spelled so is read, unless memory runs out.
    ensures only { (i : model.Image) → ImageOf bytes.now i → Gives (λ x. x) result (Ok i) }
    // Which fault it is.
    ensures exact { Gives (λ i. i) result (image_of bytes.now) }
{
    whole(alloc, bytes)
}
