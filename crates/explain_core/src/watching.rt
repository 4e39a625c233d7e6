ghost use Rattle.std.specs.Prelude.{◌≡◌, ◌==◌, Some, IfOk, OnOk, if◌then◌else◌, option_map};
ghost use Rattle.explain_core.specs.Instructions.{instruction_at_pc};
ghost use Rattle.space_mem.specs.Held.{memory_in};
ghost use Rattle.explain_core.specs.Trace.{calling_memory};
ghost use Rattle.explain_core.specs.Watch.{found_by, kept_of, memory_before, moment_of, nothing_kept, noted_of, noticed, told, value_before, watched_in, with_last};
ghost use Rattle.explain_core.specs.declared.watching.Noticing.TheVariants as kinds;

use crate::instructions::{instruction_at_pc, is_call};
use crate::tracing::{event_line, traced_line};
use rv_decode::Instr;
use space_tree::{Mem, Path, Regs, Status, Top};
use std::alloc::{AllocError, Global};

/// What is watched of a space: the byte at an address of its memory, or a register, 0 to 31.
#[derive(Clone, Copy, Debug, PartialEq, Eq)]
pub enum Watched {
    Byte(u32),
    Register(u8),
}

/// An own event that changed what is watched.
#[derive(Drop)]
pub struct Change {
    /// Its number among the own events at its path, from 1 on.
    pub number: u64,
    /// The registers before it.
    pub registers: Regs,
    /// The instruction at pc before it, where one can be fetched.
    pub instruction: Option<Instr>,
    /// What is watched, after it.
    pub value: u32,
    /// Its line, as in a trace.
    pub line: Vec<u8>,
}

/// What an event finds.
#[derive(Clone, Copy, Debug, PartialEq, Eq)]
pub(crate) struct Found {
    /// The registers.
    pub(crate) registers: Regs,
    /// The instruction at pc, where one can be fetched.
    pub(crate) instruction: Option<Instr>,
    /// What is watched; 0 where nothing is.
    pub(crate) value: u32,
}

/// An own event that changed what is watched.
#[derive(Clone, Copy, Debug, PartialEq, Eq)]
pub(crate) struct Moment {
    /// Its number among the own events at its path, from 1 on.
    pub(crate) number: u64,
    /// What it found.
    pub(crate) found: Found,
    /// The registers after it.
    pub(crate) after: Regs,
    /// The status after it.
    pub(crate) status: Status,
    /// What is watched, after it.
    pub(crate) value: u32,
}

/// What is noticed of own events.
#[derive(Clone, Copy, Debug, PartialEq, Eq)]
pub(crate) enum Noticing {
    /// A line of each.
    Lines,
    /// What the last was that changed what is watched.
    Change(Watched),
}

/// Of which space the own events are asked for, by its path; which of them, by the numbers of the first and the last; and what is noticed of these.
#[derive(Drop)]
pub(crate) struct Asked {
    pub(crate) path: Path,
    pub(crate) from: u64,
    pub(crate) to: u64,
    pub(crate) noticing: Noticing,
}

/// What is kept of the events that are asked for: their lines, or the last that changed what is watched.
#[derive(Drop)]
pub(crate) struct Kept {
    pub(crate) lines: Vec<u8>,
    pub(crate) last: Option<Moment>,
}

impl Kept {
    /// Nothing is kept.
    pub(crate) fn new(alloc: Global) -> Kept
        ensures { kept_of result ≡ nothing_kept }
    {
        Kept {
            lines: Vec::new(alloc),
            last: None,
        }
    }
}

/// A space before an event: what the event finds, and the memory, where the line of the event needs it.
#[derive(Drop)]
pub(crate) struct Before {
    pub(crate) found: Found,
    pub(crate) memory: Option<Mem>,
}

pub(crate) fn registers_of(top: &Top) -> Regs
    ensures { result ≡ top.now.registers }
{
    top.registers
}

/// What is watched, in a space.
pub(crate) fn watched_in(watched: Watched, top: &Top) -> u32
    ensures { result ≡ watched_in watched top.now }
{
    match watched {
        Watched::Byte(address) => u32::from(top.memory.byte(address)),
        Watched::Register(number) => match top.registers.x().get(number as usize) {
            Some(value) => *value,
            None => 0,
        },
    }
}

// What is watched, in a space before an event; 0 where nothing is.
fn value_before(noticing: Noticing, top: &Top) -> u32
    ensures { result ≡ value_before noticing top.now }
{
    match noticing {
        Noticing::Lines => 0,
        Noticing::Change(watched) => watched_in(watched, top),
    }
}

// The memory of a space before a call, which the line of the event needs.
#[tactic(auto, using(space_mem::proofs::Dirty::covers_in_same))]
fn calling_memory(top: &mut Top) -> Result<Option<Mem>, AllocError>
    ensures memory { IfOk result (λ o. memory_in o ≡ calling_memory top.old) }
    ensures same { top.new ≡ top.old }
{
    if is_call(instruction_at_pc(top)) {
        Ok(Some(top.memory.frozen()?))
    } else {
        Ok(None)
    }
}

// The memory of a space before an event, where the line of the event is wanted and needs it.
fn memory_before(noticing: Noticing, top: &mut Top) -> Result<Option<Mem>, AllocError>
    ensures memory { IfOk result (λ o. memory_in o ≡ memory_before noticing top.old) }
    ensures same { top.new ≡ top.old }
{
    match noticing {
        Noticing::Lines => calling_memory(top),
        Noticing::Change(_) => Ok(None),
    }
}

// What the next event of a space finds.
pub(crate) fn found_by(noticing: Noticing, top: &Top) -> Found
    ensures { result ≡ found_by noticing top.now }
{
    Found {
        registers: registers_of(top),
        instruction: instruction_at_pc(top),
        value: value_before(noticing, top),
    }
}

/// A space before its next event. The one error is want of memory.
pub(crate) fn before_event(noticing: Noticing, top: &mut Top) -> Result<Before, AllocError>
    ensures found { IfOk result (λ b. b.found ≡ found_by noticing top.old) }
    ensures memory { IfOk result (λ b. memory_in b.memory ≡ memory_before noticing top.old) }
    ensures same { top.new ≡ top.old }
{
    let memory = memory_before(noticing, top)?;
    let found = found_by(noticing, top);
    Ok(Before { found, memory })
}

// Keeps the line of an event that has just happened.
fn notice_line(
    alloc: Global,
    kept: &mut Kept,
    path: &Path,
    number: u64,
    before: &Before,
    after: &Top,
) -> Result<(), AllocError>
    ensures { OnOk result (kept_of kept.new ≡ noticed path.now.items kinds.Lines number before.now.found (memory_in before.now.memory) after.now (kept_of kept.old)) }
{
    let line = traced_line(alloc, path, number, before, after)?;
    kept.lines.extend_from_slice(line.as_bytes())
}

// Keeps what an event found and left, where it changed what is watched.
fn notice_change(kept: &mut Kept, watched: Watched, number: u64, found: Found, after: &Top)
    ensures { kept_of kept.new ≡ (if watched_in watched after.now == found.value then kept_of kept.old else with_last (Some (moment_of watched number found after.now)) (kept_of kept.old)) }
{
    let value = watched_in(watched, after);
    if value != found.value {
        kept.last = Some(Moment {
            number,
            found,
            after: registers_of(after),
            status: after.status,
            value,
        });
    }
}

/// Keeps of an event of a number, which has just happened, what is asked for.
pub(crate) fn notice(
    alloc: Global,
    kept: &mut Kept,
    asked: &Asked,
    number: u64,
    before: &Before,
    after: &Top,
) -> Result<(), AllocError>
    ensures { OnOk result (kept_of kept.new ≡ noticed asked.now.path.items asked.now.noticing number before.now.found (memory_in before.now.memory) after.now (kept_of kept.old)) }
{
    match asked.noticing {
        Noticing::Lines => notice_line(alloc, kept, &asked.path, number, before, after),
        Noticing::Change(watched) => {
            notice_change(kept, watched, number, before.found, after);
            Ok(())
        }
    }
}

/// Keeps what was found of the last event that changed what is watched, where one did.
pub(crate) fn keep_last(kept: &mut Kept, last: Option<Moment>)
    ensures { kept_of kept.new ≡ with_last last (kept_of kept.old) }
{
    if last.is_some() {
        kept.last = last;
    }
}

// What is told of an event at a path that changed what is watched.
fn told(alloc: Global, path: &Path, moment: &Moment) -> Result<Change, AllocError>
    ensures { IfOk result (λ c. noted_of c ≡ told path.now.items moment.now) }
{
    let line = event_line(alloc, path, moment)?;
    Ok(Change {
        number: moment.number,
        registers: moment.found.registers,
        instruction: moment.found.instruction,
        value: moment.value,
        line: line.into_bytes(),
    })
}

/// What is told of the last event at a path that changed what is watched, where one did.
pub(crate) fn told_change(
    alloc: Global,
    path: &Path,
    last: &Option<Moment>,
) -> Result<Option<Change>, AllocError>
    ensures { IfOk result (λ o. option_map noted_of o ≡ option_map (told path.now.items) last.now) }
{
    match last {
        Some(moment) => Ok(Some(told(alloc, path, moment)?)),
        None => Ok(None),
    }
}

/// The same of what is kept.
pub(crate) fn told_last(
    alloc: Global,
    path: &Path,
    kept: &Kept,
) -> Result<Option<Change>, AllocError>
    ensures { IfOk result (λ o. option_map noted_of o ≡ option_map (told path.now.items) kept.now.last) }
{
    told_change(alloc, path, &kept.last)
}
