ghost use Rattle.std.specs.Prelude.{◌≡◌, ℕ, IfOk, IsOk, OnErr, OnOk};
ghost use Rattle.call_model.specs.Accepted.{IsFileCall, IsSpan};
ghost use Rattle.call_model.specs.declared.FileCall.TheVariants as calls;
ghost use Rattle.space_mem.specs.Held.{KeepsMarks, Marks};
ghost use Rattle.space_model.specs.Files as files;
ghost use Rattle.memory_files.specs.Answers.{HasResult, IsBesideCall, IsRefused};

use crate::editing::{create_file, delete_file, put_file};
use crate::reading::{read_file, tell_length};
use call_model::FileCall;
use space_mem::Mem;
use space_model::{Cause, FileAnswer, Refusal};
use std::alloc::AllocError;

/// A call on a file (OSDI 2010, "Efficient System-Enforced Deterministic Parallelism", the section on file system consistency), on the files in
/// a memory. The bytes of its name and its data, then those of its buffer, have to be accessible: the answer tells the least that is not. The one error
/// is want of memory: no byte has changed then, and no permission. A call that is refused, or whose bytes are not accessible, wants none and changes
/// nothing. A page of which the call has nothing to write is owned, and dirty, where it was, also at an error.
pub fn file_call(memory: &mut Mem, call: FileCall) -> Result<FileAnswer, AllocError>
    requires { IsFileCall call }
    ensures answer { IfOk result (λ a. a ≡ (files.file_call call memory.old.memory).answer) }
    ensures memory { OnOk result (memory.new.memory ≡ (files.file_call call memory.old.memory).memory) }
    ensures err { OnErr result (memory.new.memory ≡ memory.old.memory) }
    ensures refused { IsRefused (files.file_call call memory.old.memory).answer → memory.new ≡ memory.old }
    ensures idle { IsRefused (files.file_call call memory.old.memory).answer → IsOk result }
    ensures kept { (page : ℕ) → IsBesideCall call memory.old.memory page → KeepsMarks memory.old memory.new page }
    ensures marks { Marks memory.old memory.new }
{
    match call {
        FileCall::New {
            name,
            name_len,
            append,
        } => call_new(memory, name, name_len, append),
        FileCall::Put {
            name,
            name_len,
            addr,
            len,
            add,
        } => call_put(memory, name, name_len, addr, len, add),
        FileCall::Get {
            name,
            name_len,
            addr,
            len,
            offset,
        } => call_get(memory, name, name_len, addr, len, offset),
        FileCall::Length { name, name_len } => call_length(memory, name, name_len),
        FileCall::Delete { name, name_len } => call_delete(memory, name, name_len),
    }
}

// What stops a caller that reads bytes.
fn read_refusal(memory: &Mem, addr: u32, len: u32) -> Option<Refusal>
    requires { IsSpan addr len }
    ensures { result ≡ files.unreadable memory.now.memory addr len }
{
    match memory.first_unreadable(addr, len) {
        Some(value) => Some(Refusal {
            cause: Cause::LoadFault,
            value,
        }),
        None => None,
    }
}

// What stops a caller that writes bytes.
fn write_refusal(memory: &Mem, addr: u32, len: u32) -> Option<Refusal>
    requires { IsSpan addr len }
    ensures { result ≡ files.unwritable memory.now.memory addr len }
{
    match memory.first_unwritable(addr, len) {
        Some(value) => Some(Refusal {
            cause: Cause::StoreFault,
            value,
        }),
        None => None,
    }
}

// Makes a file. The one error is want of memory.
#[tactic(auto, unfolding(space_model::specs::Files::file_call))]
fn call_new(
    memory: &mut Mem,
    name: u32,
    name_len: u32,
    append: bool,
) -> Result<FileAnswer, AllocError>
    requires { IsSpan name name_len }
    ensures { HasResult (files.file_call (calls.New name name_len append) memory.old.memory) result memory.old memory.new (IsBesideCall (calls.New name name_len append) memory.old.memory) }
{
    if let Some(refusal) = read_refusal(memory, name, name_len) {
        return Ok(FileAnswer::Fault(refusal));
    }
    create_file(memory, name, name_len, append)
}

// Puts data in the place of a file's content, or behind it. The one error is want of memory.
#[tactic(auto, unfolding(space_model::specs::Files::file_call))]
fn call_put(
    memory: &mut Mem,
    name: u32,
    name_len: u32,
    addr: u32,
    len: u32,
    add: bool,
) -> Result<FileAnswer, AllocError>
    requires name { IsSpan name name_len }
    requires data { IsSpan addr len }
    ensures { HasResult (files.file_call (calls.Put name name_len addr len add) memory.old.memory) result memory.old memory.new (IsBesideCall (calls.Put name name_len addr len add) memory.old.memory) }
{
    if let Some(refusal) = read_refusal(memory, name, name_len) {
        return Ok(FileAnswer::Fault(refusal));
    }
    if let Some(refusal) = read_refusal(memory, addr, len) {
        return Ok(FileAnswer::Fault(refusal));
    }
    put_file(memory, name, name_len, addr, len, add)
}

// Copies a file's content from an offset on into a buffer. The one error is want of memory.
#[tactic(auto, unfolding(space_model::specs::Files::file_call))]
fn call_get(
    memory: &mut Mem,
    name: u32,
    name_len: u32,
    addr: u32,
    len: u32,
    offset: u32,
) -> Result<FileAnswer, AllocError>
    requires name { IsSpan name name_len }
    requires buffer { IsSpan addr len }
    ensures { HasResult (files.file_call (calls.Get name name_len addr len offset) memory.old.memory) result memory.old memory.new (IsBesideCall (calls.Get name name_len addr len offset) memory.old.memory) }
{
    if let Some(refusal) = read_refusal(memory, name, name_len) {
        return Ok(FileAnswer::Fault(refusal));
    }
    if let Some(refusal) = write_refusal(memory, addr, len) {
        return Ok(FileAnswer::Fault(refusal));
    }
    read_file(memory, name, name_len, addr, len, offset)
}

// Tells how long a file is. The one error is want of memory.
#[tactic(auto, unfolding(space_model::specs::Files::file_call))]
fn call_length(memory: &mut Mem, name: u32, name_len: u32) -> Result<FileAnswer, AllocError>
    requires { IsSpan name name_len }
    ensures { HasResult (files.file_call (calls.Length name name_len) memory.old.memory) result memory.old memory.new (IsBesideCall (calls.Length name name_len) memory.old.memory) }
{
    if let Some(refusal) = read_refusal(memory, name, name_len) {
        return Ok(FileAnswer::Fault(refusal));
    }
    Ok(tell_length(memory, name, name_len))
}

// Deletes a file. The one error is want of memory.
#[tactic(auto, unfolding(space_model::specs::Files::file_call))]
fn call_delete(memory: &mut Mem, name: u32, name_len: u32) -> Result<FileAnswer, AllocError>
    requires { IsSpan name name_len }
    ensures { HasResult (files.file_call (calls.Delete name name_len) memory.old.memory) result memory.old memory.new (IsBesideCall (calls.Delete name name_len) memory.old.memory) }
{
    if let Some(refusal) = read_refusal(memory, name, name_len) {
        return Ok(FileAnswer::Fault(refusal));
    }
    delete_file(memory, name, name_len)
}
