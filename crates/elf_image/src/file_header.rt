ghost use Rattle.std.specs.Prelude.{◌≡◌, ◌≤◌, ◌*◌, ◌+◌, length, IfOk, ◌<◌};
ghost use Rattle.std.specs.Int.{w32, from_le_bytes};
ghost use Rattle.elf_model.specs.Header.{file_header_size, program_header_size, mark, headers_of, header_count_of};
ghost use Rattle.elf_model.specs.Needs.{identity_needs, machine_needs, table_needs, file_needs};
ghost use Rattle.elf_model.specs.Reading.{first_fault};
ghost use Rattle.elf_image.specs.View.{Tried};

use crate::fault::{ElfFault, bad};
use crate::fields::{u16_at, u32_at};
use crate::load::PROGRAM_HEADER_SIZE;
use elf_model::ElfKind;

/// How many bytes the file header has.
const FILE_HEADER_SIZE: usize = 52;

/// EI_CLASS of a file of 32 bits.
const CLASS_32: u8 = 1;

/// EI_DATA of a file whose numbers are little endian.
const LITTLE_ENDIAN: u8 = 1;

/// EI_VERSION and e_version of the one version of the format.
const VERSION: u8 = 1;

/// e_type of an executable file whose addresses are its own.
const EXECUTABLE: u16 = 2;

/// e_machine of RISC-V.
const RISCV: u16 = 243;

/// How many program headers a file may have.
const GREATEST_HEADERS: u16 = 64;

/// The bytes that a file begins with, as a little endian number.
pub(crate) fn file_mark() -> u32
    ensures { result ≡ from_le_bytes w32 mark }
{
    u32::from_le_bytes(*b"\x7fELF")
}

// Tries what tells that a file is one of this format.
fn try_identity(bytes: &[u8]) -> Result<(), ElfFault>
    ensures tried { Tried result (first_fault (identity_needs bytes.now)) }
    ensures long { IfOk result (λ _. file_header_size ≤ length bytes.now) }
{
    if bytes.len() < FILE_HEADER_SIZE {
        return Err(bad(0, ElfKind::Truncated));
    }
    if u32_at(bytes, 0) != file_mark() {
        return Err(bad(0, ElfKind::Magic));
    }
    if bytes[4] != CLASS_32 {
        return Err(bad(4, ElfKind::Class));
    }
    if bytes[5] != LITTLE_ENDIAN {
        return Err(bad(5, ElfKind::Encoding));
    }
    if bytes[6] != VERSION {
        return Err(bad(6, ElfKind::Version));
    }
    Ok(())
}

// Tries what tells that a file is a program for this machine.
fn try_machine(bytes: &[u8]) -> Result<(), ElfFault>
    requires { file_header_size ≤ length bytes.now }
    ensures { Tried result (first_fault (machine_needs bytes.now)) }
{
    if u16_at(bytes, 16) != EXECUTABLE {
        return Err(bad(16, ElfKind::Filetype));
    }
    if u16_at(bytes, 18) != RISCV {
        return Err(bad(18, ElfKind::Machine));
    }
    if u32_at(bytes, 20) != u32::from(VERSION) {
        return Err(bad(20, ElfKind::Version));
    }
    let flags = u32_at(bytes, 36);
    let compressed = flags % 2;
    let float_interface = flags / 2 % 4;
    if compressed + float_interface != 0 {
        return Err(bad(36, ElfKind::Flags));
    }
    Ok(())
}

/// Where program headers stand in a file, and how many there are.
#[derive(Clone, Copy)]
pub(crate) struct Table {
    pub(crate) at: u32,
    pub(crate) count: u16,
}

// The program headers of a file that has them whole.
fn read_table(bytes: &[u8]) -> Result<Table, ElfFault>
    requires { file_header_size ≤ length bytes.now }
    ensures tried { Tried result (first_fault (table_needs bytes.now)) }
    ensures at { IfOk result (λ t. t.at ≡ headers_of bytes.now) }
    ensures count { IfOk result (λ t. t.count ≡ header_count_of bytes.now) }
    ensures few { IfOk result (λ t. t.count ≤ 64) }
    ensures whole { IfOk result (λ t. 0 < t.count → t.at + program_header_size * t.count ≤ length bytes.now) }
{
    let at = u32_at(bytes, 28);
    let size = u16_at(bytes, 42);
    let count = u16_at(bytes, 44);
    if count != 0 && usize::from(size) != PROGRAM_HEADER_SIZE {
        return Err(bad(42, ElfKind::Entries));
    }
    if count > GREATEST_HEADERS {
        return Err(bad(44, ElfKind::Count));
    }
    if count != 0 && at as usize + PROGRAM_HEADER_SIZE * usize::from(count) > bytes.len() {
        return Err(bad(28, ElfKind::Truncated));
    }
    Ok(Table { at, count })
}

/// The program headers of a file, once it has all that it needs of its header.
pub(crate) fn read_header(bytes: &[u8]) -> Result<Table, ElfFault>
    ensures tried { Tried result (first_fault (file_needs bytes.now)) }
    ensures long { IfOk result (λ _. file_header_size ≤ length bytes.now) }
    ensures at { IfOk result (λ t. t.at ≡ headers_of bytes.now) }
    ensures count { IfOk result (λ t. t.count ≡ header_count_of bytes.now) }
    ensures few { IfOk result (λ t. t.count ≤ 64) }
    ensures whole { IfOk result (λ t. 0 < t.count → t.at + program_header_size * t.count ≤ length bytes.now) }
{
    try_identity(bytes)?;
    try_machine(bytes)?;
    read_table(bytes)
}
