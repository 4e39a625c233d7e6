ghost use Rattle.std.specs.Prelude.{◌≡◌, ◌≤◌, ◌<◌, IfOk};
ghost use Rattle.std.specs.Int.{w32, w64};
ghost use Rattle.link_model.specs.Reading as reading;
ghost use Rattle.link_model.specs.Frame.{data_mark, no_number, receipt_mark};
ghost use Rattle.link_model.specs.Reading.{Reads};

use byteorder::{ByteOrder, LittleEndian};
use link_model::{FrameError, FrameErrorKind, NO_NUMBER};

// What a frame of a parcel begins with, `DTD1` as a number, and one of a receipt, `DTK1`.
const DATA_MARK: u32 = 0x3144_5444;

const RECEIPT_MARK: u32 = 0x314B_5444;

fn bad(at: u64, kind: FrameErrorKind) -> FrameError
    ensures { result ≡ record { at = at; kind = kind } }
{
    FrameError { at, kind }
}

fn u32_at(at: u64, bytes: &[u8]) -> Result<(u32, &[u8]), FrameError>
    ensures { Reads (λ x. (x.0, x.1.now)) result (reading.number_at w32 at bytes.now) }
{
    if bytes.len() < 4 {
        return Err(bad(at, FrameErrorKind::Truncated));
    }
    let (front, rest) = bytes.split_at(4);
    Ok((LittleEndian::read_u32(front), rest))
}

fn u64_at(at: u64, bytes: &[u8]) -> Result<(u64, &[u8]), FrameError>
    ensures { Reads (λ x. (x.0, x.1.now)) result (reading.number_at w64 at bytes.now) }
{
    if bytes.len() < 8 {
        return Err(bad(at, FrameErrorKind::Truncated));
    }
    let (front, rest) = bytes.split_at(8);
    Ok((LittleEndian::read_u64(front), rest))
}

// The bytes behind the mark of a parcel's frame.
fn data_mark_at(at: u64, bytes: &[u8]) -> Result<&[u8], FrameError>
    ensures { Reads (λ x. x.now) result (reading.mark_at data_mark at bytes.now) }
{
    let (number, rest) = u32_at(at, bytes)?;
    if number == DATA_MARK {
        Ok(rest)
    } else {
        Err(bad(at, FrameErrorKind::Magic))
    }
}

// And of a receipt.
fn receipt_mark_at(at: u64, bytes: &[u8]) -> Result<&[u8], FrameError>
    ensures { Reads (λ x. x.now) result (reading.mark_at receipt_mark at bytes.now) }
{
    let (number, rest) = u32_at(at, bytes)?;
    if number == RECEIPT_MARK {
        Ok(rest)
    } else {
        Err(bad(at, FrameErrorKind::Magic))
    }
}

// The number of a parcel.
fn data_number_at(at: u64, bytes: &[u8]) -> Result<(u64, &[u8]), FrameError>
    ensures read { Reads (λ x. (x.0, x.1.now)) result (reading.data_number_at at bytes.now) }
    ensures below { IfOk result (λ x. x.0 < no_number) }
{
    let (number, rest) = u64_at(at, bytes)?;
    if number == NO_NUMBER {
        return Err(bad(at, FrameErrorKind::Ahead));
    }
    Ok((number, rest))
}

// The number of a receipt, where so many parcels were offered.
fn receipt_number_at(offered: u64, at: u64, bytes: &[u8]) -> Result<(u64, &[u8]), FrameError>
    ensures read { Reads (λ x. (x.0, x.1.now)) result (reading.receipt_number_at offered at bytes.now) }
    ensures within { IfOk result (λ x. x.0 ≤ offered) }
{
    let (number, rest) = u64_at(at, bytes)?;
    if number > offered {
        return Err(bad(at, FrameErrorKind::Ahead));
    }
    Ok((number, rest))
}

// So many bytes, and no more; the offset is at most that of the last field.
fn rest_at(size: u64, at: u64, bytes: &[u8]) -> Result<&[u8], FrameError>
    requires { at ≤ 20 }
    ensures { Reads (λ x. x.now) result (reading.rest_at size at bytes.now) }
{
    let len = bytes.len() as u64;
    if len < size {
        return Err(bad(at, FrameErrorKind::Truncated));
    }
    if size < len {
        return Err(bad(at + size, FrameErrorKind::Trailing));
    }
    Ok(bytes)
}

/// The parcel of a frame, with its number.
#[tactic(auto, unfolding(link_model::specs::Reading::data_of))]
pub(crate) fn read_data(bytes: &[u8]) -> Result<(u64, &[u8]), FrameError>
    ensures read { Reads (λ x. (x.0, x.1.now)) result (reading.data_of bytes.now) }
    ensures below { IfOk result (λ x. x.0 < no_number) }
{
    let rest = data_mark_at(0, bytes)?;
    let (number, rest) = data_number_at(4, rest)?;
    let (size, rest) = u64_at(12, rest)?;
    let parcel = rest_at(size, 20, rest)?;
    Ok((number, parcel))
}

/// The number of a receipt, where so many parcels were offered.
#[tactic(auto, unfolding(link_model::specs::Reading::receipt_of))]
pub(crate) fn read_receipt(offered: u64, bytes: &[u8]) -> Result<u64, FrameError>
    ensures read { Reads (λ n. n) result (reading.receipt_of offered bytes.now) }
    ensures within { IfOk result (λ n. n ≤ offered) }
{
    let rest = receipt_mark_at(0, bytes)?;
    let (number, rest) = receipt_number_at(offered, 4, rest)?;
    rest_at(0, 12, rest)?;
    Ok(number)
}
