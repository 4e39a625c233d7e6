ghost use Rattle.std.specs.Prelude.{◌≡◌, ◌++◌, ◌∷◌, ◌<◌, ◌==◌, [], true, IfOk, OnOk, codes, if◌then◌else◌, string_bytes};
ghost use Rattle.std.specs.List.{flat_map};
ghost use Rattle.space_mem.specs.Held.{memory_in};
ghost use Rattle.space_model.specs.Stop.{is_stopped};
ghost use Rattle.report_model.specs.Report.{hex8, stop_text};
ghost use Rattle.explain_core.specs.Trace.{act_text, call_name, change_text, changes_text, event_line, event_text, lowest_bytes, outcome_text, page_text, pages_text, place_text, traced_line};

use crate::instructions::{instruction_part, register_name};
use crate::pages::pages_between;
use crate::paths::path_text;
use crate::watching::{Before, Found, Moment};
use call_model::{
    CLOCK, CONSOLE_IN, CONSOLE_OUT, FILE_DELETE, FILE_GET, FILE_LENGTH, FILE_NEW, FILE_PUT, FORK,
    GET, PUT, QCOMMIT, QSTART, RANDOM, RET, TFORK, TJOIN, WAIT,
};
use det_report::stop_text;
use rv_decode::{Instr, Instruction, Width};
use space_tree::{Mem, Path, Regs, Status, Top};
use std::alloc::{AllocError, Global};

/// The name of a call by its number.
pub fn call_name(number: u32) -> &'static str
    ensures { result.now ≡ call_name number }
{
    if number == PUT {
        "put"
    } else if number == GET {
        "get"
    } else if number == RET {
        "ret"
    } else if number == CONSOLE_OUT {
        "console-out"
    } else if number == CONSOLE_IN {
        "console-in"
    } else if number == CLOCK {
        "clock"
    } else if number == RANDOM {
        "random"
    } else if number == FORK {
        "fork"
    } else if number == WAIT {
        "wait"
    } else if number == TFORK {
        "tfork"
    } else if number == TJOIN {
        "tjoin"
    } else if number == QSTART {
        "qstart"
    } else if number == QCOMMIT {
        "qcommit"
    } else if number == FILE_NEW {
        "fnew"
    } else if number == FILE_PUT {
        "fput"
    } else if number == FILE_GET {
        "fget"
    } else if number == FILE_LENGTH {
        "flen"
    } else if number == FILE_DELETE {
        "fdel"
    } else {
        "none"
    }
}

// The bytes that a store of a register writes.
fn lowest_bytes(width: Width, number: u32) -> u32
    ensures { result ≡ lowest_bytes width number }
{
    match width {
        Width::One => number % (1 << 8),
        Width::Two => number % (1 << 16),
        Width::Four => number,
    }
}

fn store_text(alloc: Global, number: u32, address: u32) -> Result<String, AllocError>
    ensures { IfOk result (λ s. string_bytes s ≡ codes " stores " ++ (hex8 number ++ (codes " at " ++ hex8 address))) }
{
    format!(in alloc; " stores {number:08x} at {address:08x}")
}

fn call_text(alloc: Global, number: u32, answer: u32) -> Result<String, AllocError>
    ensures { IfOk result (λ s. string_bytes s ≡ 32 ∷ (call_name number ++ (codes " a0 " ++ hex8 answer))) }
{
    let name = call_name(number);
    format!(in alloc; " {name} a0 {answer:08x}")
}

// What an instruction did beside registers: the number that was stored and its address; the name of the call and a0 after it.
fn act_text(
    alloc: Global,
    before: &Regs,
    after: &Regs,
    instruction: Option<Instr>,
) -> Result<String, AllocError>
    ensures { IfOk result (λ s. string_bytes s ≡ act_text before.now after.now instruction) }
{
    let Some(instr) = instruction else {
        return String::from_str(alloc, "");
    };
    match instr.instruction() {
        Instruction::Store {
            width,
            rs1,
            rs2,
            immediate,
        } => {
            let number = lowest_bytes(width, before.register(rs2));
            let address = before.register(rs1).wrapping_add(immediate);
            store_text(alloc, number, address)
        }
        Instruction::Ecall => call_text(alloc, before.register(17), after.register(10)),
        _ => String::from_str(alloc, ""),
    }
}

// A page by its first address.
fn page_text(alloc: Global, address: u32) -> Result<String, AllocError>
    ensures { IfOk result (λ s. string_bytes s ≡ page_text address) }
{
    format!(in alloc; " page {address:08x}")
}

// A register that has another value, or nothing.
fn change_text(alloc: Global, register: u8, old: u32, new: u32) -> Result<String, AllocError>
    requires { register < 32 }
    ensures { IfOk result (λ s. string_bytes s ≡ (if old == new then [] else change_text register old new)) }
{
    if old == new {
        return String::from_str(alloc, "");
    }
    let name = register_name(register);
    format!(in alloc; " x{register} {name} {old:08x} -> {new:08x}")
}

// Appends these pages, by their first addresses.
fn push_pages(alloc: Global, text: &mut String, pages: &[u32]) -> Result<(), AllocError>
    ensures { OnOk result (string_bytes text.new ≡ string_bytes text.old ++ flat_map page_text pages.now) }
{
    for address in pages {
        let page = page_text(alloc, *address)?;
        text.push_str(&page)?;
    }
    Ok(())
}

// The registers that have another value.
fn changes_text(alloc: Global, old: &[u32; 32], new: &[u32; 32]) -> Result<String, AllocError>
    ensures { IfOk result (λ s. string_bytes s ≡ changes_text 0 old.now new.now) }
{
    let mut text = String::new(alloc);
    for register in 0..32 {
        let index = register as usize;
        let change = change_text(alloc, register, old[index], new[index])?;
        text.push_str(&change)?;
    }
    Ok(text)
}

fn stopping_text(alloc: Global, status: Status) -> Result<String, AllocError>
    requires { is_stopped status ≡ true }
    ensures { IfOk result (λ s. string_bytes s ≡ codes " stops " ++ stop_text status) }
{
    let stop = stop_text(alloc, status)?;
    format!(in alloc; " stops {stop}")
}

// What an instruction did.
fn running_text(
    alloc: Global,
    before: &Regs,
    instruction: Option<Instr>,
    after: &Regs,
) -> Result<String, AllocError>
    ensures { IfOk result (λ s. string_bytes s ≡ act_text before.now after.now instruction ++ changes_text 0 (let r = before.now in r.x) (let r = after.now in r.x)) }
{
    let act = act_text(alloc, before, after, instruction)?;
    let changes = changes_text(alloc, before.x(), after.x())?;
    format!(in alloc; "{act}{changes}")
}

// What came of an event, by the status and the registers that it left: the cause with which the space has stopped, or what the instruction did.
fn outcome_text(
    alloc: Global,
    before: &Regs,
    instruction: Option<Instr>,
    status: Status,
    after: &Regs,
) -> Result<String, AllocError>
    ensures { IfOk result (λ s. string_bytes s ≡ outcome_text before.now instruction status after.now) }
{
    match status {
        Status::Running => running_text(alloc, before, instruction, after),
        Status::Stopped { .. } => stopping_text(alloc, status),
    }
}

// An event by its name, and where it stood: pc and the instruction there.
fn place_text(
    alloc: Global,
    path: &Path,
    number: u64,
    before: &Regs,
    instruction: Option<Instr>,
) -> Result<String, AllocError>
    ensures { IfOk result (λ s. string_bytes s ≡ place_text path.now.items number before.now instruction) }
{
    let place = path_text(alloc, path)?;
    let pc = before.pc;
    let text = instruction_part(alloc, pc, instruction)?;
    format!(in alloc; "{place}:{number} pc {pc:08x}{text}")
}

// An event by its name, where it stood, and what came of it.
fn event_text(
    alloc: Global,
    path: &Path,
    number: u64,
    found: &Found,
    status: Status,
    after: &Regs,
) -> Result<String, AllocError>
    ensures { IfOk result (λ s. string_bytes s ≡ (let f = found.now in event_text path.now.items number f.registers f.instruction status after.now)) }
{
    let place = place_text(alloc, path, number, &found.registers, found.instruction)?;
    let outcome = outcome_text(alloc, &found.registers, found.instruction, status, after)?;
    format!(in alloc; "{place}{outcome}")
}

// The pages that have changed since a memory, where there is one.
fn pages_text(alloc: Global, before: &Option<Mem>, after: &Mem) -> Result<String, AllocError>
    ensures { IfOk result (λ s. string_bytes s ≡ pages_text (memory_in before.now) after.now.memory) }
{
    let mut text = String::new(alloc);
    if let Some(before) = before {
        let pages = pages_between(alloc, before, after)?;
        push_pages(alloc, &mut text, &pages)?;
    }
    Ok(text)
}

/// The line of an event that changed what is watched.
pub(crate) fn event_line(alloc: Global, path: &Path, moment: &Moment) -> Result<String, AllocError>
    ensures { IfOk result (λ s. string_bytes s ≡ (let m = moment.now in event_line path.now.items m.number m.found.registers m.found.instruction m.status m.after)) }
{
    let event = event_text(
        alloc,
        path,
        moment.number,
        &moment.found,
        moment.status,
        &moment.after,
    )?;
    format!(in alloc; "{event}\n")
}

/// The line of an event in a trace: of a call with the pages that it has changed since the memory before it.
pub(crate) fn traced_line(
    alloc: Global,
    path: &Path,
    number: u64,
    before: &Before,
    after: &Top,
) -> Result<String, AllocError>
    ensures { IfOk result (λ s. string_bytes s ≡ traced_line path.now.items number before.now.found.registers before.now.found.instruction (memory_in before.now.memory) after.now) }
{
    let event = event_text(
        alloc,
        path,
        number,
        &before.found,
        after.status,
        &after.registers,
    )?;
    let pages = pages_text(alloc, &before.memory, &after.memory)?;
    format!(in alloc; "{event}{pages}\n")
}
