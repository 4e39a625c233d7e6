ghost use Rattle.std.specs.Prelude.{◌≡◌, ◌≤◌, ◌<◌, ◌^◌, ◌+◌, ◌*◌, ◌++◌, ◌∷◌, [], length, IfOk, IfSome, OnOk};
ghost use Rattle.std.specs.Option.{option_to_list};
ghost use Rattle.elf_model.specs.Header.{program_header_size, file_size_at, offset_at, memory_size_at, address_at};
ghost use Rattle.elf_model.specs.Loads as model;
ghost use Rattle.elf_model.specs.Loads.{loads_at, loads_from, stack, stack_base};
ghost use Rattle.elf_model.specs.Needs.{load_needs, header_needs, headers_need, memory_of, greatest_memory};
ghost use Rattle.elf_model.specs.Reading.{first_fault};
ghost use Rattle.elf_image.specs.View.{load_view, load_views, Tried, AddUp};

use crate::fault::{ElfFault, bad};
use crate::fields::u32_at;
use crate::file_header::Table;
use crate::load::{Load, PROGRAM_HEADER_SIZE, is_load, load_at};
use elf_model::ElfKind;
use std::alloc::{AllocError, Global};

/// p_type of what a dynamic linker needs.
const DYNAMIC: u32 = 2;

/// p_type of the name of a dynamic linker.
const INTERPRETER: u32 = 3;

/// How many loads a file may have.
const GREATEST_LOADS: usize = 32;

/// How many bytes of memory all loads may have together.
const GREATEST_MEMORY: u64 = 16_777_216;

/// The address where the stack begins. No load ends above it.
const STACK_BASE: u32 = 0xFFFF_0000;

/// How many bytes the stack has: it ends where memory does.
const STACK_SIZE: u32 = 0x1_0000;

/// What the stack's pages may be used for: reading and writing.
const STACK_PERMISSION: u8 = 3;

/// The loads of the program headers that were read.
#[derive(Drop)]
pub(crate) struct Loads<'a> {
    pub(crate) parts: Vec<Load<'a>>,
    /// The end of the last of them, or 0.
    end: u64,
    /// How many bytes of memory they have together.
    memory: u64,
}

// Tries what a load needs after the loads of the headers before its own.
fn try_load(bytes: &[u8], at: usize, before: &Loads<'_>) -> Result<(), ElfFault>
    requires header { at + program_header_size ≤ length bytes.now }
    requires sums { AddUp before.now }
    ensures tried { Tried result (first_fault (load_needs (load_views before.now.parts.items) at bytes.now)) }
    ensures content { IfOk result (λ _. 0 < file_size_at at bytes.now → offset_at at bytes.now + file_size_at at bytes.now ≤ length bytes.now) }
    ensures most { IfOk result (λ _. memory_of (load_views before.now.parts.items) + memory_size_at at bytes.now ≤ greatest_memory) }
    ensures range { IfOk result (λ _. address_at at bytes.now + memory_size_at at bytes.now ≤ stack_base) }
{
    let offset = u32_at(bytes, at + 4);
    let address = u32_at(bytes, at + 8);
    let file_size = u32_at(bytes, at + 16);
    let size = u32_at(bytes, at + 20);
    if before.parts.len() >= GREATEST_LOADS {
        return Err(bad(at as u64, ElfKind::Count));
    }
    if u64::from(address) < before.end {
        return Err(bad(at as u64 + 8, ElfKind::Order));
    }
    if file_size != 0 && offset as usize + file_size as usize > bytes.len() {
        return Err(bad(at as u64 + 4, ElfKind::Truncated));
    }
    if file_size > size {
        return Err(bad(at as u64 + 16, ElfKind::Size));
    }
    if u64::from(address) + u64::from(size) > u64::from(STACK_BASE) {
        return Err(bad(at as u64 + 20, ElfKind::Range));
    }
    if before.memory + u64::from(size) > GREATEST_MEMORY {
        return Err(bad(at as u64 + 20, ElfKind::TooBig));
    }
    Ok(())
}

// Tries what a program header needs after those before it; and its load, where it states one.
fn next_load<'a>(
    bytes: &'a [u8],
    at: usize,
    before: &Loads<'_>,
) -> Result<Option<Load<'a>>, ElfFault>
    requires header { at + program_header_size ≤ length bytes.now }
    requires sums { AddUp before.now }
    ensures tried { Tried result (first_fault (header_needs (load_views before.now.parts.items) at bytes.now)) }
    ensures load { IfOk result (λ o. load_views (option_to_list o) ≡ loads_at at bytes.now) }
    ensures most { IfOk result (λ o. IfSome o (λ l. memory_of (load_views before.now.parts.items) + l.size ≤ greatest_memory)) }
{
    let kind = u32_at(bytes, at);
    if kind == DYNAMIC || kind == INTERPRETER {
        return Err(bad(at as u64, ElfKind::Dynamic));
    }
    if !is_load(bytes, at) {
        return Ok(None);
    }
    try_load(bytes, at, before)?;
    Ok(Some(load_at(bytes, at)))
}

impl<'a> Loads<'a> {
    // None.
    fn new(alloc: Global) -> Loads<'a>
        ensures parts { result.parts.items ≡ [] }
        ensures sums { AddUp result }
    {
        Loads {
            parts: Vec::new(alloc),
            end: 0,
            memory: 0,
        }
    }

    // One more.
    fn push(&mut self, load: Load<'a>) -> Result<(), AllocError>
        requires sums { AddUp self.old }
        requires most { memory_of (load_views self.old.parts.items) + load.size ≤ greatest_memory }
        ensures parts { OnOk result (load_views self.new.parts.items ≡ load_views self.old.parts.items ++ load_view load.entry ∷ []) }
        ensures sums { OnOk result (AddUp self.new) }
    {
        self.end = u64::from(load.address) + u64::from(load.size);
        self.memory += u64::from(load.size);
        self.parts.push(load)?;
        Ok(())
    }

    // The load of a program header, where it states one, after those of the headers before it.
    fn read_next(&mut self, bytes: &'a [u8], at: usize) -> Result<(), ElfFault>
        requires header { at + program_header_size ≤ length bytes.now }
        requires sums { AddUp self.old }
        ensures tried { Tried result (first_fault (header_needs (load_views self.old.parts.items) at bytes.now)) }
        ensures parts { OnOk result (load_views self.new.parts.items ≡ load_views self.old.parts.items ++ loads_at at bytes.now) }
        ensures sums { OnOk result (AddUp self.new) }
    {
        match next_load(bytes, at, self)? {
            Some(load) => Ok(self.push(load)?),
            None => Ok(()),
        }
    }
}

/// The loads of a file's program headers, and the stack as the last.
pub(crate) fn read_parts(
    alloc: Global,
    bytes: &[u8],
    table: Table,
) -> Result<Vec<Load<'_>>, ElfFault>
    requires few { table.count ≤ 64 }
    requires whole { 0 < table.count → table.at + program_header_size * table.count ≤ length bytes.now }
    ensures tried { Tried result (first_fault (headers_need [] table.at table.count bytes.now)) }
    ensures parts { IfOk result (λ v. load_views v.items ≡ loads_from table.at table.count bytes.now ++ stack ∷ []) }
{
    let mut loads = Loads::new(alloc);
    let mut at = table.at as usize;
    for _ in 0..table.count {
        loads.read_next(bytes, at)?;
        at += PROGRAM_HEADER_SIZE;
    }
    let Loads { mut parts, .. } = loads;
    parts.push(Load {
        address: STACK_BASE,
        size: STACK_SIZE,
        permission: STACK_PERMISSION,
        content: &[],
    })?;
    Ok(parts)
}
