ghost use Rattle.std.specs.Prelude.{◌≡◌, ◌<◌, IfOk, true, string_bytes};
ghost use Rattle.space_model.specs.Stop.{is_stopped};
ghost use Rattle.explain_core.specs.Contents.{name_byte, name_text};
ghost use Rattle.explain_why.specs.Texts.{bytes_text, conflict_text, file_text, lone_conflict_text, register_word, trap_text};

use det_report::stop_text;
use explain_core::{call_name, path_text, register_name};
use space_tree::{Path, Status};
use std::alloc::{AllocError, Global};

/// The space, the call that found the conflict, the child that it joined, and the address.
pub(crate) fn conflict_text(
    alloc: Global,
    path: &Path,
    call: u32,
    child: &Path,
    address: u32,
) -> Result<String, AllocError>
    ensures { IfOk result (λ s. string_bytes s ≡ conflict_text path.now.items call child.now.items address) }
{
    let place = path_text(alloc, path)?;
    let name = call_name(call);
    let joined = path_text(alloc, child)?;
    format!(in alloc; "conflict {place} {name} of {joined} at {address:08x}\n")
}

/// The same, where no child with a snapshot stands there any more.
pub(crate) fn lone_conflict_text(
    alloc: Global,
    path: &Path,
    address: u32,
) -> Result<String, AllocError>
    ensures { IfOk result (λ s. string_bytes s ≡ lone_conflict_text path.now.items address) }
{
    let place = path_text(alloc, path)?;
    format!(in alloc; "conflict {place} at {address:08x}\n")
}

/// A byte of the snapshot, of the child and of its parent.
pub(crate) fn bytes_text(
    alloc: Global,
    snapshot: u8,
    child: u8,
    parent: u8,
) -> Result<String, AllocError>
    ensures { IfOk result (λ s. string_bytes s ≡ bytes_text snapshot child parent) }
{
    format!(in alloc; "snapshot {snapshot:02x} child {child:02x} parent {parent:02x}\n")
}

/// A space that a trap has stopped.
pub(crate) fn trap_text(alloc: Global, path: &Path, status: Status) -> Result<String, AllocError>
    requires { is_stopped status ≡ true }
    ensures { IfOk result (λ s. string_bytes s ≡ trap_text path.now.items status) }
{
    let place = path_text(alloc, path)?;
    let stop = stop_text(alloc, status)?;
    format!(in alloc; "trap {place} {stop}\n")
}

/// The register of an address, by its name.
pub(crate) fn register_word(alloc: Global, register: u8) -> Result<String, AllocError>
    requires { register < 32 }
    ensures { IfOk result (λ s. string_bytes s ≡ register_word register) }
{
    let name = register_name(register);
    format!(in alloc; "register {name} changed by")
}

// A byte of a name.
#[tactic(auto, using(std::proofs::lemmas::Str::encode_ascii))]
fn name_byte(alloc: Global, byte: u8) -> Result<String, AllocError>
    ensures { IfOk result (λ s. string_bytes s ≡ name_byte byte) }
{
    if 33 <= byte && byte <= 126 && byte != 92 {
        let mut text = String::new(alloc);
        text.push(char::from(byte))?;
        return Ok(text);
    }
    format!(in alloc; "\\x{byte:02x}")
}

// A name, with what is not visible by its numbers.
fn name_text(alloc: Global, name: &[u8]) -> Result<String, AllocError>
    ensures { IfOk result (λ s. string_bytes s ≡ name_text name.now) }
{
    let mut text = String::new(alloc);
    for byte in name {
        let part = name_byte(alloc, *byte)?;
        text.push_str(&part)?;
    }
    Ok(text)
}

/// A space with a file in conflict, its name and its slot.
pub(crate) fn file_text(
    alloc: Global,
    path: &Path,
    slot: u32,
    name: &[u8],
) -> Result<String, AllocError>
    ensures { IfOk result (λ s. string_bytes s ≡ file_text path.now.items slot name.now) }
{
    let place = path_text(alloc, path)?;
    let name = name_text(alloc, name)?;
    format!(in alloc; "conflict {place} file {name} slot {slot}\n")
}
