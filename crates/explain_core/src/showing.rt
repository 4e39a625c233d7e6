ghost use Rattle.std.specs.Prelude.{◌≡◌, ◌++◌, ◌+◌, ◌<◌, IfOk, OnOk, codes, string_bytes};
ghost use Rattle.std.specs.Fmt.{decimal};
ghost use Rattle.explain_core.specs.Text.{child_text, children_text, end_text, event_text, limit_text, line_of, pc_text, register_text, registers_text, state_text, status_text, top_text};

use crate::bytes::{Bytes, push_bytes};
use crate::contents::push_contents;
use crate::instructions::{instruction_at_pc, instruction_part, register_name};
use crate::paths::path_text;
use det_report::stop_text;
use space_tree::{Children, Path, Space, Status, Top};
use std::alloc::{AllocError, Global};

// A space that runs, or the cause and the value with which it has stopped.
fn status_text(alloc: Global, status: Status) -> Result<String, AllocError>
    ensures { IfOk result (λ s. string_bytes s ≡ status_text status) }
{
    match status {
        Status::Running => String::from_str(alloc, "running"),
        Status::Stopped { .. } => stop_text(alloc, status),
    }
}

fn limit_text(alloc: Global, limit: Option<u32>) -> Result<String, AllocError>
    ensures { IfOk result (λ s. string_bytes s ≡ limit_text limit) }
{
    match limit {
        None => String::from_str(alloc, "none"),
        Some(events) => format!(in alloc; "{events}"),
    }
}

// pc, and the instruction there.
fn pc_text(alloc: Global, top: &Top) -> Result<String, AllocError>
    ensures { IfOk result (λ s. string_bytes s ≡ pc_text top.now) }
{
    let pc = top.registers.pc;
    let instruction = instruction_part(alloc, pc, instruction_at_pc(top))?;
    format!(in alloc; "pc {pc:08x}{instruction}\n")
}

fn status_line(alloc: Global, status: Status) -> Result<String, AllocError>
    ensures { IfOk result (λ s. string_bytes s ≡ line_of (codes "status") (status_text status)) }
{
    let status = status_text(alloc, status)?;
    format!(in alloc; "status {status}\n")
}

fn limit_line(alloc: Global, limit: Option<u32>) -> Result<String, AllocError>
    ensures { IfOk result (λ s. string_bytes s ≡ line_of (codes "limit") (limit_text limit)) }
{
    let limit = limit_text(alloc, limit)?;
    format!(in alloc; "limit {limit}\n")
}

// A word and how many events.
fn events_line(alloc: Global, word: &str, events: u32) -> Result<String, AllocError>
    ensures { IfOk result (λ s. string_bytes s ≡ line_of word.now (decimal events)) }
{
    format!(in alloc; "{word} {events}\n")
}

// How a space stands: its status, pc and the instruction there, and what it may take and has taken.
fn state_text(alloc: Global, top: &Top) -> Result<String, AllocError>
    ensures { IfOk result (λ s. string_bytes s ≡ state_text top.now) }
{
    let status = status_line(alloc, top.status)?;
    let pc = pc_text(alloc, top)?;
    let fuel = events_line(alloc, "fuel", top.fuel)?;
    let limit = limit_line(alloc, top.limit)?;
    let used = events_line(alloc, "used", top.used)?;
    format!(in alloc; "{status}{pc}{fuel}{limit}{used}")
}

// A register by its number and its name.
fn register_text(alloc: Global, number: u8, value: u32) -> Result<String, AllocError>
    requires { number < 32 }
    ensures { IfOk result (λ s. string_bytes s ≡ register_text number value) }
{
    let name = register_name(number);
    format!(in alloc; "x{number} {name} {value:08x}\n")
}

// Appends a line for each register.
fn push_registers(alloc: Global, text: &mut Vec<u8>, x: &[u32; 32]) -> Result<(), AllocError>
    ensures { OnOk result (text.new.items ≡ text.old.items ++ registers_text 0 x.now) }
{
    for number in 0..32 {
        let line = register_text(alloc, number, x[number as usize])?;
        text.extend_from_slice(line.as_bytes())?;
    }
    Ok(())
}

// Appends what is shown of a space without its children, with the bytes that are wanted.
fn push_top(
    alloc: Global,
    text: &mut Vec<u8>,
    top: &Top,
    bytes: Option<Bytes>,
) -> Result<(), AllocError>
    ensures { OnOk result (text.new.items ≡ text.old.items ++ top_text bytes top.now) }
{
    let state = state_text(alloc, top)?;
    text.extend_from_slice(state.as_bytes())?;
    push_registers(alloc, text, top.registers.x())?;
    push_contents(alloc, text, &top.memory, &top.snapshot)?;
    push_bytes(alloc, text, &top.memory, bytes)
}

// A child by its number, and its status.
fn child_text(alloc: Global, number: u16, child: &Space) -> Result<String, AllocError>
    ensures { IfOk result (λ s. string_bytes s ≡ child_text number child.now) }
{
    let status = status_text(alloc, child.top.status)?;
    format!(in alloc; "child {number} {status}\n")
}

// Appends a line for each child.
fn push_children(alloc: Global, text: &mut Vec<u8>, children: &Children) -> Result<(), AllocError>
    ensures { OnOk result (text.new.items ≡ text.old.items ++ children_text children.now) }
{
    for (number, child) in children.entries() {
        let line = child_text(alloc, *number, child)?;
        text.extend_from_slice(line.as_bytes())?;
    }
    Ok(())
}

/// What is shown of a space just behind its own event of a number, from 1 on: a line that names the event, and what is shown of the space without its
/// children, with the bytes that are wanted.
pub(crate) fn show_event(
    alloc: Global,
    path: &Path,
    number: u64,
    top: &Top,
    bytes: Option<Bytes>,
) -> Result<Vec<u8>, AllocError>
    ensures { IfOk result (λ v. v.items ≡ event_text bytes path.now.items number top.now) }
{
    let place = path_text(alloc, path)?;
    let head = format!(in alloc; "space {place} event {number}\n")?;
    let mut text = head.into_bytes();
    push_top(alloc, &mut text, top, bytes)?;
    Ok(text)
}

/// What is shown of a space at the end of a run: a line that names it, what is shown of it without its children, and a line for each child with its
/// number and status, with the bytes that are wanted.
pub(crate) fn show_end(
    alloc: Global,
    path: &Path,
    space: &Space,
    bytes: Option<Bytes>,
) -> Result<Vec<u8>, AllocError>
    ensures { IfOk result (λ v. v.items ≡ end_text bytes path.now.items space.now) }
{
    let place = path_text(alloc, path)?;
    let head = format!(in alloc; "space {place} end\n")?;
    let mut text = head.into_bytes();
    push_top(alloc, &mut text, &space.top, bytes)?;
    push_children(alloc, &mut text, &space.children)?;
    Ok(text)
}
