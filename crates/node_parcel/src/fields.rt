ghost use Rattle.std.specs.Prelude.{◌<◌, ◌≤◌, IfOk};
ghost use Rattle.std.specs.Int.{w32};
ghost use Rattle.fault_model.specs.Gives.{Gives};
ghost use Rattle.memory_model.specs.Sizes.{greatest_permission, pages};
ghost use Rattle.parcel_model.specs.Reading as reading;

use crate::fault::{ParcelFault, bad};
use byteorder::{ByteOrder, LittleEndian};
use memory_model::{GREATEST_PERMISSION, PAGES};
use parcel_model::ParcelErrorKind;

pub(crate) fn u32_at(at: u64, bytes: &[u8]) -> Result<(u32, &[u8]), ParcelFault>
    ensures { Gives (λ x. (x.0, x.1.now)) result (reading.number_at w32 at bytes.now) }
{
    if bytes.len() < 4 {
        return Err(bad(at, ParcelErrorKind::Truncated));
    }
    let (front, rest) = bytes.split_at(4);
    Ok((LittleEndian::read_u32(front), rest))
}

pub(crate) fn u8_at(at: u64, bytes: &[u8]) -> Result<(u8, &[u8]), ParcelFault>
    ensures { Gives (λ x. (x.0, x.1.now)) result (reading.byte_at at bytes.now) }
{
    match bytes {
        [] => Err(bad(at, ParcelErrorKind::Truncated)),
        [byte, rest @ ..] => Ok((*byte, rest)),
    }
}

pub(crate) fn page_of(least: u32, at: u64, bytes: &[u8]) -> Result<(u32, &[u8]), ParcelFault>
    ensures read { Gives (λ x. (x.0, x.1.now)) result (reading.page_at least at bytes.now) }
    ensures below { IfOk result (λ x. x.0 < pages) }
    ensures least { IfOk result (λ x. least ≤ x.0) }
{
    let (page, rest) = u32_at(at, bytes)?;
    if page < least {
        return Err(bad(at, ParcelErrorKind::Page));
    }
    if page >= PAGES {
        return Err(bad(at, ParcelErrorKind::Page));
    }
    Ok((page, rest))
}

pub(crate) fn permission_of(at: u64, bytes: &[u8]) -> Result<(u8, &[u8]), ParcelFault>
    ensures read { Gives (λ x. (x.0, x.1.now)) result (reading.permission_at at bytes.now) }
    ensures most { IfOk result (λ x. x.0 ≤ greatest_permission) }
{
    let (permission, rest) = u8_at(at, bytes)?;
    if permission > GREATEST_PERMISSION {
        return Err(bad(at, ParcelErrorKind::Permission));
    }
    Ok((permission, rest))
}
