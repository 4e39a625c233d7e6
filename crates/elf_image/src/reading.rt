ghost use Rattle.std.specs.Prelude.{◌≡◌, ◌≤◌, length, IfOk, Ok, Err};
ghost use Rattle.fault_model.specs.Gives.{Gives};
ghost use Rattle.image_model.specs.Image as model;
ghost use Rattle.elf_model.specs.declared.error.ElfError as error;
ghost use Rattle.elf_model.specs.Header as header;
ghost use Rattle.elf_model.specs.Header.{file_header_size};
ghost use Rattle.elf_model.specs.Loads.{parts_of};
ghost use Rattle.elf_model.specs.Needs.{IsFirstFault, needs};
ghost use Rattle.elf_model.specs.Reading.{first_fault};
ghost use Rattle.elf_image.specs.View.{load_views, Tried};
ghost use Rattle.elf_model.specs.Elf.{ElfOf, is_elf};
ghost use Rattle.elf_model.specs.Reading.{elf_of};

use crate::fault::ElfFault;
use crate::fields::u32_at;
use crate::file_header::{file_mark, read_header};
use crate::load::Load;
use crate::loads::read_parts;
use crate::runs::runs_of;
use crate::segments::segments_of;
use image_file::Image;
use std::alloc::Global;

/// The address at which a program's stack pointer begins.
const STACK_POINTER: u32 = 0xFFFF_FFF0;

/// Whether a file begins as executable files do, by the bytes `7f 45 4c 46`.
pub fn begins_as_elf(bytes: &[u8]) -> bool
    ensures { result ≡ is_elf bytes.now }
{
    bytes.len() >= 4 && u32_at(bytes, 0) == file_mark()
}

// Where a program begins.
fn entry_of(bytes: &[u8]) -> u32
    requires { file_header_size ≤ length bytes.now }
    ensures { result ≡ header.entry_of bytes.now }
{
    u32_at(bytes, 24)
}

// All loads of a file that has what it needs, and the stack as the last of them.
fn loads_of(alloc: Global, bytes: &[u8]) -> Result<Vec<Load<'_>>, ElfFault>
    ensures tried { Tried result (first_fault (needs bytes.now)) }
    ensures long { IfOk result (λ _. file_header_size ≤ length bytes.now) }
    ensures parts { IfOk result (λ v. load_views v.items ≡ parts_of bytes.now) }
{
    let table = read_header(bytes)?;
    read_parts(alloc, bytes, table)
}

fn whole(alloc: Global, bytes: &[u8]) -> Result<Image, ElfFault>
    ensures { Gives (λ i. i) result (elf_of bytes.now) }
{
    let parts = loads_of(alloc, bytes)?;
    let mut runs = runs_of(alloc, &parts)?;
    let segments = segments_of(alloc, runs.make_contiguous(), &parts)?;
    Ok(Image::new(entry_of(bytes), STACK_POINTER, segments))
}

/// The image that an executable file states, in the format ELF32, little endian (System V ABI; RISC-V ELF psABI): it begins at e_entry, with the
/// stack pointer `FFFFFFF0`. Each program header of type PT_LOAD with memory has its bytes of the file at p_vaddr and zeros after them. A page may
/// be read, written and executed where a load that touches it has PF_R, PF_W or PF_X. The 16 pages from `FFFF0000` on are zeros that may be read
/// and written, for the stack. A segment of the image is a maximal run of adjoining pages that a load or the stack touches and that have one
/// permission; there are at most 64.
///
/// An error is the first need that the file does not meet, at the place of its field, or want of memory. Neither section headers nor physical
/// addresses nor alignments are read.
pub fn read_elf(alloc: Global, bytes: &[u8]) -> Result<Image, ElfFault>
    // What is read is stated so.
    ensures found { IfOk result (λ i. ElfOf bytes.now i) }
    // What is stated is read, unless memory runs out.
    ensures only { (i : model.Image) → ElfOf bytes.now i → Gives (λ x. x) result (Ok i) }
    // What is refused has this first fault.
    ensures refused { (e : error.ElfError) → IsFirstFault (needs bytes.now) e → Gives (λ x. x) result (Err e) }
    // All of these: one of the last two holds of each file.
    ensures exact { Gives (λ i. i) result (elf_of bytes.now) }
{
    whole(alloc, bytes)
}
