//! Numbers that stand in a file, little endian.

ghost use Rattle.std.specs.Prelude.{◌≡◌, ◌≤◌, ◌+◌, length};
ghost use Rattle.std.specs.Int.{w16, w32};
ghost use Rattle.elf_model.specs.Header.{number_in};

use byteorder::{ByteOrder, LittleEndian};

/// The number of four bytes from an offset on.
pub(crate) fn u32_at(bytes: &[u8], at: usize) -> u32
    requires { at + 4 ≤ length bytes.now }
    ensures { result ≡ number_in w32 at bytes.now }
{
    let (_, rest) = bytes.split_at(at);
    let (front, _) = rest.split_at(4);
    LittleEndian::read_u32(front)
}

/// The number of two bytes from an offset on.
pub(crate) fn u16_at(bytes: &[u8], at: usize) -> u16
    requires { at + 2 ≤ length bytes.now }
    ensures { result ≡ number_in w16 at bytes.now }
{
    let (_, rest) = bytes.split_at(at);
    let (front, _) = rest.split_at(2);
    LittleEndian::read_u16(front)
}
