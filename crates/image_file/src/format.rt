ghost use Rattle.std.specs.Prelude.{◌≡◌, ◌≤◌};
ghost use Rattle.std.specs.Int.{w32, to_le_bytes, from_le_bytes};
ghost use Rattle.memory_model.specs.Sizes.{greatest_permission};
ghost use Rattle.image_model.specs.Image as model;

use image_model::Format;
use memory_model::GREATEST_PERMISSION;

/// The mark that a file begins with, as a little endian number.
pub(crate) fn mark(format: Format) -> u32
    ensures number { result ≡ from_le_bytes w32 (model.mark format) }
    ensures bytes { to_le_bytes w32 result ≡ model.mark format }
{
    match format {
        Format::Dti1 => u32::from_le_bytes(*b"DTI1"),
        Format::Dti2 => u32::from_le_bytes(*b"DTI2"),
    }
}

/// The greatest byte that stands for a permission: 3 in DTI1, 7 in DTI2.
pub fn greatest_byte(format: Format) -> u8
    ensures { result ≡ model.greatest_byte format }
{
    match format {
        Format::Dti1 => 3,
        Format::Dti2 => GREATEST_PERMISSION,
    }
}

/// The permission that a byte stands for, from 0 to 7. In DTI1 a byte with bit 1, which lets read, lets
/// execute too.
pub fn permission_of(format: Format, byte: u8) -> u8
    requires { byte ≤ model.greatest_byte format }
    ensures value { result ≡ model.permission_of format byte }
    ensures most { result ≤ greatest_permission }
{
    match format {
        Format::Dti1 => byte + 4 * (byte % 2),
        Format::Dti2 => byte,
    }
}

/// The byte that stands for a permission which the format has.
pub(crate) fn permission_byte(format: Format, permission: u8) -> u8
    ensures { result ≡ model.permission_byte format permission }
{
    match format {
        Format::Dti1 => permission % 4,
        Format::Dti2 => permission,
    }
}

/// The format has the permission: in DTI1 what lets execute is exactly what lets read.
pub(crate) fn has_permission(format: Format, permission: u8) -> bool
    ensures { result ≡ model.has_permission format permission }
{
    match format {
        Format::Dti1 => permission / 4 == permission % 2,
        Format::Dti2 => true,
    }
}
