ghost use Rattle.std.specs.Prelude.{◌≡◌, ℕ, ◌<◌, Bool, List, true, IfOk, Ok, length};
ghost use Rattle.memory_model.specs.Memory.{bytes_from};
ghost use Rattle.file_model.specs.Sizes.{slot_count};
ghost use Rattle.file_model.specs.Operations as operations;
ghost use Rattle.call_model.specs.Accepted.{IsSpan};
ghost use Rattle.file_image.specs.Lookup.{slot_answer};
ghost use Rattle.space_model.specs.Files.{files_in, change_result};
ghost use Rattle.memory_files.specs.Slots.{OwnsSlots, has_slot};
ghost use Rattle.memory_files.specs.Answers.{HasResult, IsBesideEntry, IsResult, change_answer};

use crate::files::Files;
use crate::naming::{is_short, name_at};
use crate::owning::{HEADER_PAGES, SLOT_PAGES, own_slot};
use crate::slots::Slots;
use file_image::{FileError, create, create_slot, delete, present, put, put_slot};
use space_mem::Mem;
use space_model::FileAnswer;
use std::alloc::AllocError;

// What a call that changes a file answers.
fn change_answer(changed: Result<(), FileError>) -> FileAnswer
    ensures { result ≡ change_answer changed }
{
    match changed {
        Ok(()) => FileAnswer::Done(None),
        Err(error) => FileAnswer::Refused(error),
    }
}

// The slot in which a file is made, or why none is.
fn slot_to_make(memory: &Mem, name: &[u8]) -> Result<u32, FileError>
    ensures create { (append : Bool) → result ≡ slot_answer (operations.create (files_in memory.now.memory) name.now append) }
    ensures within { IfOk result (λ k. k < slot_count) }
{
    create_slot(&Files::new(memory), name)
}

// The slot of a file to which so many bytes are put, or why they are not.
fn slot_to_put(memory: &Mem, name: &[u8], count: u32, add: bool) -> Result<u32, FileError>
    ensures put { (part : List ℕ) → length part ≡ count → result ≡ slot_answer (operations.put (files_in memory.now.memory) name.now part add) }
    ensures within { IfOk result (λ k. k < slot_count) }
{
    put_slot(&Files::new(memory), name, count as usize, add)
}

// The slot of a file that is deleted, or why it is not.
fn slot_to_delete(memory: &Mem, name: &[u8]) -> Result<u32, FileError>
    ensures delete { result ≡ slot_answer (operations.delete (files_in memory.now.memory) name.now) }
    ensures within { IfOk result (λ k. k < slot_count) }
{
    present(&Files::new(memory), name)
}

// Makes a file in a memory that owns the header of its slot.
fn create_owned(memory: &mut Mem, slots: [bool; 64], name: &[u8], append: bool) -> FileAnswer
    requires owned { OwnsSlots memory.old 1 slots }
    requires slot { IfOk (operations.create (files_in memory.old.memory) name.now append) (λ e. has_slot slots e.slot ≡ true) }
    ensures { IsResult (change_result memory.old.memory (operations.create (files_in memory.old.memory) name.now append)) result memory.old memory.new }
{
    let mut files = Slots::take_headers(memory, slots);
    let made = create(&mut files, name, append);
    files.put_back(memory);
    change_answer(made)
}

// Writes a file's content in a memory that owns its slot.
fn put_owned(memory: &mut Mem, slots: [bool; 64], name: &[u8], part: &[u8], add: bool) -> FileAnswer
    requires owned { OwnsSlots memory.old 16 slots }
    requires slot { IfOk (operations.put (files_in memory.old.memory) name.now part.now add) (λ e. has_slot slots e.slot ≡ true) }
    ensures { IsResult (change_result memory.old.memory (operations.put (files_in memory.old.memory) name.now part.now add)) result memory.old memory.new }
{
    let mut files = Slots::take(memory, slots);
    let written = put(&mut files, name, part, add);
    files.put_back(memory);
    change_answer(written)
}

// Deletes a file in a memory that owns the header of its slot.
fn delete_owned(memory: &mut Mem, slots: [bool; 64], name: &[u8]) -> FileAnswer
    requires owned { OwnsSlots memory.old 1 slots }
    requires slot { IfOk (operations.delete (files_in memory.old.memory) name.now) (λ e. has_slot slots e.slot ≡ true) }
    ensures { IsResult (change_result memory.old.memory (operations.delete (files_in memory.old.memory) name.now)) result memory.old memory.new }
{
    let mut files = Slots::take_headers(memory, slots);
    let deleted = delete(&mut files, name);
    files.put_back(memory);
    change_answer(deleted)
}

// Makes a file of this name. The one error is want of memory.
fn create_named(memory: &mut Mem, name: &[u8], append: bool) -> Result<FileAnswer, AllocError>
    ensures { HasResult (change_result memory.old.memory (operations.create (files_in memory.old.memory) name.now append)) result memory.old memory.new (IsBesideEntry 1 (operations.create (files_in memory.old.memory) name.now append)) }
{
    match slot_to_make(memory, name) {
        Err(error) => Ok(FileAnswer::Refused(error)),
        Ok(slot) => match own_slot(memory, slot, HEADER_PAGES) {
            Err(error) => Err(error),
            Ok(slots) => Ok(create_owned(memory, slots, name, append)),
        },
    }
}

// Puts data in the place of the content of this name's file, or behind it. The one error is want of memory.
fn put_named(
    memory: &mut Mem,
    name: &[u8],
    addr: u32,
    len: u32,
    add: bool,
) -> Result<FileAnswer, AllocError>
    requires { IsSpan addr len }
    ensures { HasResult (change_result memory.old.memory (operations.put (files_in memory.old.memory) name.now (bytes_from memory.old.memory addr len) add)) result memory.old memory.new (IsBesideEntry 16 (operations.put (files_in memory.old.memory) name.now (bytes_from memory.old.memory addr len) add)) }
{
    match slot_to_put(memory, name, len, add) {
        Err(error) => Ok(FileAnswer::Refused(error)),
        Ok(slot) => match memory.bytes(memory.allocator(), addr, len) {
            Err(error) => Err(error),
            Ok(part) => put_in(memory, slot, name, &part, add),
        },
    }
}

// Puts a part in the place of the content of this name's file, which is in this slot, or behind it. The one error is want of memory.
fn put_in(
    memory: &mut Mem,
    slot: u32,
    name: &[u8],
    part: &[u8],
    add: bool,
) -> Result<FileAnswer, AllocError>
    requires slot { slot < slot_count }
    requires told { slot_answer (operations.put (files_in memory.old.memory) name.now part.now add) ≡ Ok slot }
    ensures { HasResult (change_result memory.old.memory (operations.put (files_in memory.old.memory) name.now part.now add)) result memory.old memory.new (IsBesideEntry 16 (operations.put (files_in memory.old.memory) name.now part.now add)) }
{
    match own_slot(memory, slot, SLOT_PAGES) {
        Err(error) => Err(error),
        Ok(slots) => Ok(put_owned(memory, slots, name, part, add)),
    }
}

// Deletes the file of this name. The one error is want of memory.
fn delete_named(memory: &mut Mem, name: &[u8]) -> Result<FileAnswer, AllocError>
    ensures { HasResult (change_result memory.old.memory (operations.delete (files_in memory.old.memory) name.now)) result memory.old memory.new (IsBesideEntry 1 (operations.delete (files_in memory.old.memory) name.now)) }
{
    match slot_to_delete(memory, name) {
        Err(error) => Ok(FileAnswer::Refused(error)),
        Ok(slot) => match own_slot(memory, slot, HEADER_PAGES) {
            Err(error) => Err(error),
            Ok(slots) => Ok(delete_owned(memory, slots, name)),
        },
    }
}

// Makes a file, whose name stands in the memory. The one error is want of memory.
pub(crate) fn create_file(
    memory: &mut Mem,
    name: u32,
    name_len: u32,
    append: bool,
) -> Result<FileAnswer, AllocError>
    requires { IsSpan name name_len }
    ensures { HasResult (change_result memory.old.memory (operations.create (files_in memory.old.memory) (bytes_from memory.old.memory name name_len) append)) result memory.old memory.new (IsBesideEntry 1 (operations.create (files_in memory.old.memory) (bytes_from memory.old.memory name name_len) append)) }
{
    if !is_short(name_len) {
        return Ok(FileAnswer::Refused(FileError::BadName));
    }
    let bytes = name_at(memory, name, name_len);
    create_named(memory, &bytes[..name_len as usize], append)
}

// Puts data in the place of a file's content, or behind it; its name and the data stand in the memory. The one error is want of memory.
pub(crate) fn put_file(
    memory: &mut Mem,
    name: u32,
    name_len: u32,
    addr: u32,
    len: u32,
    add: bool,
) -> Result<FileAnswer, AllocError>
    requires name { IsSpan name name_len }
    requires data { IsSpan addr len }
    ensures { HasResult (change_result memory.old.memory (operations.put (files_in memory.old.memory) (bytes_from memory.old.memory name name_len) (bytes_from memory.old.memory addr len) add)) result memory.old memory.new (IsBesideEntry 16 (operations.put (files_in memory.old.memory) (bytes_from memory.old.memory name name_len) (bytes_from memory.old.memory addr len) add)) }
{
    if !is_short(name_len) {
        return Ok(FileAnswer::Refused(FileError::BadName));
    }
    let bytes = name_at(memory, name, name_len);
    put_named(memory, &bytes[..name_len as usize], addr, len, add)
}

// Deletes a file, whose name stands in the memory. The one error is want of memory.
pub(crate) fn delete_file(
    memory: &mut Mem,
    name: u32,
    name_len: u32,
) -> Result<FileAnswer, AllocError>
    requires { IsSpan name name_len }
    ensures { HasResult (change_result memory.old.memory (operations.delete (files_in memory.old.memory) (bytes_from memory.old.memory name name_len))) result memory.old memory.new (IsBesideEntry 1 (operations.delete (files_in memory.old.memory) (bytes_from memory.old.memory name name_len))) }
{
    if !is_short(name_len) {
        return Ok(FileAnswer::Refused(FileError::BadName));
    }
    let bytes = name_at(memory, name, name_len);
    delete_named(memory, &bytes[..name_len as usize])
}
