ghost use Rattle.std.specs.Prelude.{◌≡◌, ◌≤◌, ◌<◌, ◌+◌, length, take, drop};
ghost use Rattle.elf_model.specs.Header.{program_header_size, permission_of_rights};
ghost use Rattle.elf_model.specs.Loads as model;
ghost use Rattle.elf_model.specs.Header.{file_size_at, offset_at};
ghost use Rattle.elf_image.specs.View.{load_view};

use crate::fields::u32_at;

/// How many bytes a program header has.
pub(crate) const PROGRAM_HEADER_SIZE: usize = 32;

/// p_type of a load.
const LOAD: u32 = 1;

/// Bytes of a file that stand in memory from an address on, and zeros after them.
#[derive(Clone, Copy)]
pub(crate) struct Load<'a> {
    /// The address of the first byte.
    pub(crate) address: u32,
    /// How many bytes of memory, the zeros too.
    pub(crate) size: u32,
    /// From 0 to 7: 1 allows reading, 2 writing, 4 executing.
    pub(crate) permission: u8,
    /// The bytes of the file.
    pub(crate) content: &'a [u8],
}

/// Whether the program header at this offset states a load that has memory.
pub(crate) fn is_load(bytes: &[u8], at: usize) -> bool
    requires { at + program_header_size ≤ length bytes.now }
    ensures { result ≡ model.is_load at bytes.now }
{
    u32_at(bytes, at) == LOAD && u32_at(bytes, at + 20) != 0
}

// The permission of p_flags, of which bit 1 lets execute, bit 2 write and bit 4 read.
fn permission_of(rights: u32) -> u8
    ensures { result ≡ permission_of_rights rights }
{
    (rights / 4 % 2 + 2 * (rights / 2 % 2) + 4 * (rights % 2)) as u8
}

// So many bytes of a file from an offset on.
fn content_of(bytes: &[u8], offset: usize, count: usize) -> &[u8]
    requires { 0 < count → offset + count ≤ length bytes.now }
    ensures { result.now ≡ take count (drop offset bytes.now) }
{
    if count == 0 {
        return &[];
    }
    let (_, rest) = bytes.split_at(offset);
    let (content, _) = rest.split_at(count);
    content
}

/// The load of the program header at this offset, whose bytes the file has.
pub(crate) fn load_at(bytes: &[u8], at: usize) -> Load<'_>
    requires header { at + program_header_size ≤ length bytes.now }
    requires content { 0 < file_size_at at bytes.now → offset_at at bytes.now + file_size_at at bytes.now ≤ length bytes.now }
    ensures { load_view result ≡ model.load_at at bytes.now }
{
    let offset = u32_at(bytes, at + 4) as usize;
    let count = u32_at(bytes, at + 16) as usize;
    Load {
        address: u32_at(bytes, at + 8),
        size: u32_at(bytes, at + 20),
        permission: permission_of(u32_at(bytes, at + 24)),
        content: content_of(bytes, offset, count),
    }
}
