ghost use Rattle.std.specs.Prelude.{◌≡◌, ◌++◌, ◌+◌, ◌<◌, ◌≤◌, ◌^◌, OnOk};
ghost use Rattle.explain_core.specs.Bytes.{byte_text, bytes_text, row_bytes, row_text, rows_text};

use space_tree::Mem;
use std::alloc::{AllocError, Global};

/// Bytes of memory that are shown as well: so many from an address on, as far as there are addresses, whatever the permissions of their pages.
#[derive(Clone, Copy, Debug, PartialEq, Eq)]
pub struct Bytes {
    /// The address of the first one.
    pub address: u32,
    /// How many there are.
    pub count: u32,
}

// How many bytes a line has at most.
const ROW: u32 = 16;

// How many addresses there are.
const ADDRESSES: u64 = 1 << 32;

// Appends the byte at an address.
fn push_byte(
    alloc: Global,
    text: &mut Vec<u8>,
    memory: &Mem,
    address: u32,
) -> Result<(), AllocError>
    ensures { OnOk result (text.new.items ≡ text.old.items ++ byte_text memory.now.memory address) }
{
    let byte = memory.byte(address);
    let shown = format!(in alloc; " {byte:02x}")?;
    text.extend_from_slice(shown.as_bytes())
}

// Appends so many bytes from an address on.
fn push_row_bytes(
    alloc: Global,
    text: &mut Vec<u8>,
    memory: &Mem,
    first: u32,
    count: u32,
) -> Result<(), AllocError>
    requires { first + count ≤ 2 ^ 32 }
    ensures { OnOk result (text.new.items ≡ text.old.items ++ row_bytes memory.now.memory first count) }
{
    for index in 0..count {
        push_byte(alloc, text, memory, first + index)?;
    }
    Ok(())
}

// Appends a line: an address, and so many bytes from there on.
fn push_row(
    alloc: Global,
    text: &mut Vec<u8>,
    memory: &Mem,
    first: u32,
    count: u32,
) -> Result<(), AllocError>
    requires { first + count ≤ 2 ^ 32 }
    ensures { OnOk result (text.new.items ≡ text.old.items ++ row_text memory.now.memory first count) }
{
    let head = format!(in alloc; "bytes {first:08x}")?;
    text.extend_from_slice(head.as_bytes())?;
    push_row_bytes(alloc, text, memory, first, count)?;
    text.push(b'\n')?;
    Ok(())
}

// Appends lines of 16 bytes, of which the last may have fewer, for so many bytes from an address on.
fn push_rows(
    alloc: Global,
    text: &mut Vec<u8>,
    memory: &Mem,
    first: u32,
    count: u32,
) -> Result<(), AllocError>
    requires { first + count ≤ 2 ^ 32 }
    ensures { OnOk result (text.new.items ≡ text.old.items ++ rows_text memory.now.memory first count) }
{
    for row in 0..count.div_ceil(ROW) {
        let done = ROW * row;
        let more = (count - done).min(ROW);
        push_row(alloc, text, memory, first + done, more)?;
    }
    Ok(())
}

/// Appends the bytes of memory that are wanted, if some are.
pub(crate) fn push_bytes(
    alloc: Global,
    text: &mut Vec<u8>,
    memory: &Mem,
    bytes: Option<Bytes>,
) -> Result<(), AllocError>
    ensures { OnOk result (text.new.items ≡ text.old.items ++ bytes_text memory.now.memory bytes) }
{
    match bytes {
        Some(Bytes { address, count }) => {
            let there = ADDRESSES - u64::from(address);
            let shown = u64::from(count).min(there) as u32;
            push_rows(alloc, text, memory, address, shown)
        }
        None => Ok(()),
    }
}
