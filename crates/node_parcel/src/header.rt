ghost use Rattle.std.specs.Prelude.{◌≡◌, ◌<◌, ◌≤◌, ◌^◌, ◌+◌, IfOk, Ok};
ghost use Rattle.fault_model.specs.Gives.{Gives};
ghost use Rattle.parcel_model.specs.Parcel as parcel;
ghost use Rattle.parcel_model.specs.Parcel.{status_in};
ghost use Rattle.parcel_model.specs.Reading as reading;
ghost use Rattle.node_parcel.specs.Meant.{end_at, registers_at};

use crate::fault::{ParcelFault, bad};
use crate::fields::{u8_at, u32_at};
use parcel_model::ParcelErrorKind;
use rv_exec::Regs;
use trap_ret::{Status, cause_number, cause_of};

// What stands for the cause of a space that runs.
const NO_CAUSE: u32 = 22;

// `DTP2`, as a little endian number.
const MARK: u32 = 0x3250_5444;

// The bytes after the mark.
pub(crate) fn magic_of(at: u64, bytes: &[u8]) -> Result<&[u8], ParcelFault>
    ensures { Gives (λ x. x.now) result (reading.magic_at at bytes.now) }
{
    let (number, rest) = u32_at(at, bytes)?;
    if number == MARK {
        return Ok(rest);
    }
    Err(bad(at, ParcelErrorKind::Magic))
}

// Reads pc, and x1 to x31: the bytes after them.
pub(crate) fn registers_into<'a>(
    registers: &mut Regs,
    at: u64,
    bytes: &'a [u8],
) -> Result<&'a [u8], ParcelFault>
    requires { at < 2 ^ 62 }
    ensures { Gives (λ x. (registers.new, x.now)) result (registers_at at bytes.now) }
{
    let (pc, first) = u32_at(at, bytes)?;
    *registers = Regs::new(pc);
    let mut rest = first;
    for number in 1..32 {
        let (word, after) = u32_at(at + 4 * u64::from(number), rest)?;
        registers.set_register(number, word);
        rest = after;
    }
    Ok(rest)
}

// Whether it is the number of a cause, or 22.
fn is_stop(number: u32) -> bool
    ensures { result ≡ parcel.is_stop number }
{
    number == NO_CAUSE || cause_number(cause_of(number)) == number
}

// The number of a cause, or 22.
pub(crate) fn cause_at(at: u64, bytes: &[u8]) -> Result<(u32, &[u8]), ParcelFault>
    ensures { Gives (λ x. (x.0, x.1.now)) result (reading.cause_at at bytes.now) }
{
    let (number, rest) = u32_at(at, bytes)?;
    if is_stop(number) {
        return Ok((number, rest));
    }
    Err(bad(at, ParcelErrorKind::Status))
}

// The value that came with the cause; 0 with 22.
pub(crate) fn value_at(cause: u32, at: u64, bytes: &[u8]) -> Result<(u32, &[u8]), ParcelFault>
    ensures { Gives (λ x. (x.0, x.1.now)) result (reading.value_at cause at bytes.now) }
{
    let (number, rest) = u32_at(at, bytes)?;
    if cause == NO_CAUSE && number != 0 {
        return Err(bad(at, ParcelErrorKind::Status));
    }
    Ok((number, rest))
}

// Whether the space runs, or why it has stopped.
pub(crate) fn status_of(cause: u32, value: u32) -> Status
    ensures { result ≡ status_in cause value }
{
    if cause == NO_CAUSE {
        return Status::Running;
    }
    Status::Stopped {
        cause: cause_of(cause),
        value,
    }
}

// From 0 to 3: 1 for a snapshot, 2 for a limit.
pub(crate) fn flags_at(at: u64, bytes: &[u8]) -> Result<(u8, &[u8]), ParcelFault>
    ensures { Gives (λ x. (x.0, x.1.now)) result (reading.flags_at at bytes.now) }
{
    let (flags, rest) = u8_at(at, bytes)?;
    if flags > 3 {
        return Err(bad(at, ParcelErrorKind::Flags));
    }
    Ok((flags, rest))
}

// The limit, where the flags tell of one; else the number is 0.
pub(crate) fn limit_at(
    flags: u8,
    at: u64,
    bytes: &[u8],
) -> Result<(Option<u32>, &[u8]), ParcelFault>
    ensures { Gives (λ x. (x.0, x.1.now)) result (reading.limit_at flags at bytes.now) }
{
    let (limit, rest) = u32_at(at, bytes)?;
    if flags > 1 {
        return Ok((Some(limit), rest));
    }
    if limit == 0 {
        return Ok((None, rest));
    }
    Err(bad(at, ParcelErrorKind::Limit))
}

// What was used, where so much fuel is left.
pub(crate) fn used_at(fuel: u32, at: u64, bytes: &[u8]) -> Result<(u32, &[u8]), ParcelFault>
    ensures read { Gives (λ x. (x.0, x.1.now)) result (reading.used_at fuel at bytes.now) }
    ensures most { IfOk result (λ x. fuel + x.0 < 2 ^ 32) }
    ensures some { IfOk result (λ x. 1 ≤ fuel + x.0) }
{
    let (used, rest) = u32_at(at, bytes)?;
    if fuel == 0 && used == 0 {
        return Err(bad(at, ParcelErrorKind::Fuel));
    }
    if fuel.checked_add(used).is_none() {
        return Err(bad(at, ParcelErrorKind::Fuel));
    }
    Ok((used, rest))
}

// Nothing stands there: how many bytes there are in all.
pub(crate) fn ended(at: u64, bytes: &[u8]) -> Result<u64, ParcelFault>
    ensures { Gives (λ x. x) result (end_at at bytes.now) }
{
    if !bytes.is_empty() {
        return Err(bad(at, ParcelErrorKind::Trailing));
    }
    Ok(at)
}
