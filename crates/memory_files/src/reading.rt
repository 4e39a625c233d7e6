ghost use Rattle.std.specs.Prelude.{◌≡◌, ◌+◌, ◌-◌, ◌<◌, ◌≤◌, ◌^◌, min, Ok, IfOk, OnErr};
ghost use Rattle.memory_model.specs.Memory.{bytes_from};
ghost use Rattle.file_model.specs.Operations as operations;
ghost use Rattle.call_model.specs.Accepted.{IsSpan};
ghost use Rattle.file_model.specs.Sizes.{slot_count};
ghost use Rattle.file_model.specs.Slots.{slot_at};
ghost use Rattle.file_image.specs.Writes.{IsHeader};
ghost use Rattle.space_model.specs.Files.{file_bytes, files_in, part_result, length_result};
ghost use Rattle.memory_files.specs.Answers.{HasResult, HasLength, IsBesidePart, IsFound, IsPart};

use crate::files::Files;
use crate::naming::{is_short, name_at};
use file_image::{FileError, Header, file_header, get, len};
use space_mem::Mem;
use space_model::FileAnswer;
use std::alloc::AllocError;

// Some bytes of a file's content from an offset on; there are so many. The one error is want of memory.
fn read_part(memory: &Mem, name: &[u8], offset: u32, count: u32) -> Result<Vec<u8>, AllocError>
    requires { HasLength (operations.get (files_in memory.now.memory) name.now offset count) count }
    ensures { IfOk result (λ part. operations.get (files_in memory.now.memory) name.now offset count ≡ Ok part.items) }
{
    let mut part = Vec::with_capacity(memory.allocator(), count as usize)?;
    part.resize(count as usize, 0)?;
    match get(&Files::new(memory), name, offset, &mut part) {
        Ok(_) => {}
        Err(_) => {}
    }
    Ok(part)
}

// How many of so many bytes from an offset on a content of this length has.
fn count_from(length: u32, offset: u32, count: u32) -> u32
    ensures { result ≡ min count (length - offset) }
{
    count.min(length - offset.min(length))
}

// At most `count` bytes of a file's content from an offset on. The one error of the outer result is want of memory.
fn part_of(
    memory: &Mem,
    name: &[u8],
    offset: u32,
    count: u32,
) -> Result<Result<Vec<u8>, FileError>, AllocError>
    ensures part { IfOk result (λ part. IsPart (operations.get (files_in memory.now.memory) name.now offset count) part) }
    ensures wanted { OnErr result (IsFound (operations.get (files_in memory.now.memory) name.now offset count)) }
{
    match len(&Files::new(memory), name) {
        Ok(length) => {
            let count = count_from(length, offset, count);
            let part = read_part(memory, name, offset, count)?;
            Ok(Ok(part))
        }
        Err(error) => Ok(Err(error)),
    }
}

// Writes a part of the content of this name's file from an address on, and counts its bytes. The one error is want of memory.
fn read_named(
    memory: &mut Mem,
    name: &[u8],
    addr: u32,
    count: u32,
    offset: u32,
) -> Result<FileAnswer, AllocError>
    requires { addr + count ≤ 2 ^ 32 }
    ensures { HasResult (part_result memory.old.memory addr (operations.get (files_in memory.old.memory) name.now offset count)) result memory.old memory.new (IsBesidePart addr (operations.get (files_in memory.old.memory) name.now offset count)) }
{
    match part_of(memory, name, offset, count) {
        Err(error) => Err(error),
        Ok(Err(error)) => Ok(FileAnswer::Refused(error)),
        Ok(Ok(part)) => match memory.write_bytes(addr, &part) {
            Err(error) => Err(error),
            Ok(()) => Ok(FileAnswer::Done(Some(part.len() as u32))),
        },
    }
}

// Writes a part of a file's content from an address on, and counts its bytes; the name stands in the memory. The one error is want of memory.
pub(crate) fn read_file(
    memory: &mut Mem,
    name: u32,
    name_len: u32,
    addr: u32,
    count: u32,
    offset: u32,
) -> Result<FileAnswer, AllocError>
    requires name { IsSpan name name_len }
    requires buffer { IsSpan addr count }
    ensures { HasResult (part_result memory.old.memory addr (operations.get (files_in memory.old.memory) (bytes_from memory.old.memory name name_len) offset count)) result memory.old memory.new (IsBesidePart addr (operations.get (files_in memory.old.memory) (bytes_from memory.old.memory name name_len) offset count)) }
{
    if !is_short(name_len) {
        return Ok(FileAnswer::Refused(FileError::BadName));
    }
    let bytes = name_at(memory, name, name_len);
    read_named(memory, &bytes[..name_len as usize], addr, count, offset)
}

// Tells how long the file of this name is.
fn length_named(memory: &Mem, name: &[u8]) -> FileAnswer
    ensures { result ≡ (length_result memory.now.memory (operations.length_of (files_in memory.now.memory) name.now)).answer }
{
    match len(&Files::new(memory), name) {
        Ok(length) => FileAnswer::Done(Some(length)),
        Err(error) => FileAnswer::Refused(error),
    }
}

// Tells how long a file is, whose name stands in the memory.
pub(crate) fn tell_length(memory: &Mem, name: u32, name_len: u32) -> FileAnswer
    requires { IsSpan name name_len }
    ensures { result ≡ (length_result memory.now.memory (operations.length_of (files_in memory.now.memory) (bytes_from memory.now.memory name name_len))).answer }
{
    if !is_short(name_len) {
        return FileAnswer::Refused(FileError::BadName);
    }
    let bytes = name_at(memory, name, name_len);
    length_named(memory, &bytes[..name_len as usize])
}

/// The header of the file in a slot, below 64, of a memory; none exactly where the slot is free.
pub fn header_in(memory: &Mem, slot: u32) -> Option<Header>
    requires { slot < slot_count }
    ensures { IsHeader (slot_at (file_bytes memory.now.memory) slot) result }
{
    file_header(&Files::new(memory), slot)
}
