ghost use Rattle.std.specs.Prelude.{◌≡◌, ◌<◌, ◌≤◌, ◌^◌, ◌+◌, ◌*◌, IfOk, OnOk, length};
ghost use Rattle.fault_model.specs.Gives.{Gives};
ghost use Rattle.memory_model.specs.Sizes.{greatest_permission, pages};
ghost use Rattle.space_mem.specs.Held as held;
ghost use Rattle.parcel_model.specs.Parcel.{is_zero, resident};
ghost use Rattle.parcel_model.specs.Reading as reading;
ghost use Rattle.std.specs.List.{All};
ghost use Rattle.node_parcel.specs.AtOnce.{meant, IsRun};
ghost use Rattle.node_parcel.specs.OneNumber.{held_in, ArePut, AreSpansIn, HasSpan};
ghost use Rattle.node_parcel.specs.Meant.{put_content, content_in, entry_in, pages_in, memory_in, snapshot_in};

use crate::fault::{ParcelFault, bad};
use crate::fields::{page_of, permission_of, u8_at, u32_at};
use crate::residents::Residents;
use crate::runs::{Placed, Placing};
use memory_model::PAGE_SIZE;
use parcel_model::ParcelErrorKind;
use std::alloc::Global;

const SIZE: usize = PAGE_SIZE as usize;

// Puts a page with nothing but a permission: where its form stood, and the bytes after it.
#[tactic(auto, unfolding(crate::specs::AtOnce::content_by))]
fn empty_into<'a>(
    placing: &mut Placing,
    known: &Residents,
    page: u32,
    permission: u8,
    at: u64,
    bytes: &'a [u8],
) -> Result<(u64, &'a [u8]), ParcelFault>
    requires run { IsRun known.now placing.old.run }
    requires put { ArePut known.now placing.old page }
    requires page { page < pages }
    requires permission { permission ≤ greatest_permission }
    requires place { at < 2 ^ 62 }
    ensures read { Gives (λ x. (meant known.now placing.new, x.0, x.1.now)) result (put_content known.now (meant known.now placing.old) page permission (at + 1) (reading.empty_at permission at bytes.now)) }
    ensures run { OnOk result (IsRun known.now placing.new.run) }
    ensures put { OnOk result (ArePut known.now placing.new (page + 1)) }
{
    if permission == 0 {
        return Err(bad(at, ParcelErrorKind::Zero));
    }
    placing.add(known, page, permission, None)?;
    Ok((at + 1, bytes))
}

// The number of a resident page that has a byte other than 0.
fn resident_at<'a>(
    known: &Residents,
    at: u64,
    bytes: &'a [u8],
) -> Result<(u32, &'a [u8]), ParcelFault>
    ensures read { Gives (λ x. (resident x.0, x.1.now)) result (reading.resident_at known.now at bytes.now) }
    ensures there { IfOk result (λ x. x.0 < length known.now) }
{
    let (number, rest) = u32_at(at, bytes)?;
    let Some(source) = known.page(number) else {
        return Err(bad(at, ParcelErrorKind::Resident));
    };
    if source.is_zero() {
        return Err(bad(at, ParcelErrorKind::Resident));
    }
    Ok((number, rest))
}

// Puts the resident page of the number that stands there.
#[tactic(auto, unfolding(crate::specs::AtOnce::content_by))]
fn resident_into<'a>(
    placing: &mut Placing,
    known: &Residents,
    page: u32,
    permission: u8,
    at: u64,
    bytes: &'a [u8],
) -> Result<(u64, &'a [u8]), ParcelFault>
    requires run { IsRun known.now placing.old.run }
    requires put { ArePut known.now placing.old page }
    requires page { page < pages }
    requires permission { permission ≤ greatest_permission }
    requires place { at < 2 ^ 62 }
    ensures read { Gives (λ x. (meant known.now placing.new, x.0, x.1.now)) result (put_content known.now (meant known.now placing.old) page permission at (reading.resident_at known.now at bytes.now)) }
    ensures run { OnOk result (IsRun known.now placing.new.run) }
    ensures put { OnOk result (ArePut known.now placing.new (page + 1)) }
{
    let (number, rest) = resident_at(known, at, bytes)?;
    placing.add(known, page, permission, Some(number))?;
    Ok((at + 4, rest))
}

// Puts the bytes of a page that stand there.
fn whole_into<'a>(
    placing: &mut Placing,
    known: &Residents,
    page: u32,
    permission: u8,
    at: u64,
    bytes: &'a [u8],
) -> Result<(u64, &'a [u8]), ParcelFault>
    requires run { IsRun known.now placing.old.run }
    requires put { ArePut known.now placing.old page }
    requires page { page < pages }
    requires permission { permission ≤ greatest_permission }
    requires place { at < 2 ^ 62 }
    ensures read { Gives (λ x. (meant known.now placing.new, x.0, x.1.now)) result (put_content known.now (meant known.now placing.old) page permission at (reading.whole_at at bytes.now)) }
    ensures run { OnOk result (IsRun known.now placing.new.run) }
    ensures put { OnOk result (ArePut known.now placing.new (page + 1)) }
    ensures end { IfOk result (λ x. x.0 ≡ at + 4096) }
{
    if bytes.len() < SIZE {
        return Err(bad(at, ParcelErrorKind::Truncated));
    }
    let (front, rest) = bytes.split_at(SIZE);
    if is_zero(front) {
        return Err(bad(at, ParcelErrorKind::Zero));
    }
    placing.add_whole(known, page, permission, front)?;
    Ok((at + 4096, rest))
}

// Whether all bytes are 0.
fn is_zero(bytes: &[u8]) -> bool
    ensures { result ≡ is_zero bytes.now }
{
    bytes.iter().all(|byte| *byte == 0)
}

// Puts a page with this permission, and with the content that its form tells of.
#[tactic(auto, unfolding(crate::specs::Meant::content_in))]
fn content_into<'a>(
    placing: &mut Placing,
    known: &Residents,
    page: u32,
    permission: u8,
    at: u64,
    bytes: &'a [u8],
) -> Result<(u64, &'a [u8]), ParcelFault>
    requires run { IsRun known.now placing.old.run }
    requires put { ArePut known.now placing.old page }
    requires page { page < pages }
    requires permission { permission ≤ greatest_permission }
    requires place { at < 2 ^ 61 }
    ensures read { Gives (λ x. (meant known.now placing.new, x.0, x.1.now)) result (content_in known.now (meant known.now placing.old) page permission at bytes.now) }
    ensures run { OnOk result (IsRun known.now placing.new.run) }
    ensures put { OnOk result (ArePut known.now placing.new (page + 1)) }
    ensures near { IfOk result (λ x. x.0 ≤ at + 4097) }
{
    let (form, rest) = u8_at(at, bytes)?;
    match form {
        0 => empty_into(placing, known, page, permission, at, rest),
        1 => resident_into(placing, known, page, permission, at + 1, rest),
        2 => whole_into(placing, known, page, permission, at + 1, rest),
        _ => Err(bad(at, ParcelErrorKind::Form)),
    }
}

// Puts the page that stands there, `least` or one above it: from which page on the next one may be, where it stands, and its bytes.
#[tactic(auto, unfolding(crate::specs::Meant::entry_in, parcel_model::specs::Reading::entry_at))]
fn entry_into<'a>(
    placing: &mut Placing,
    known: &Residents,
    least: u32,
    at: u64,
    bytes: &'a [u8],
) -> Result<(u32, u64, &'a [u8]), ParcelFault>
    requires run { IsRun known.now placing.old.run }
    requires put { ArePut known.now placing.old least }
    requires place { at < 2 ^ 60 }
    ensures read { Gives (λ x. (meant known.now placing.new, x.0, x.1, x.2.now)) result (entry_in known.now (meant known.now placing.old) least at bytes.now) }
    ensures run { OnOk result (IsRun known.now placing.new.run) }
    ensures put { IfOk result (λ x. ArePut known.now placing.new x.0) }
    ensures near { IfOk result (λ x. x.1 ≤ at + 4102) }
{
    let (page, rest) = page_of(least, at, bytes)?;
    let (permission, rest) = permission_of(at + 4, rest)?;
    let (end, rest) = content_into(placing, known, page, permission, at + 5, rest)?;
    Ok((page + 1, end, rest))
}

// The memory of so many pages.
fn pages_of<'a>(
    alloc: Global,
    known: &Residents,
    count: u32,
    start: u64,
    bytes: &'a [u8],
) -> Result<(Placed, u64, &'a [u8]), ParcelFault>
    requires { start < 2 ^ 59 }
    ensures read { Gives (λ x. (x.0.memory.memory, x.1, x.2.now)) result (pages_in known.now count start bytes.now) }
    ensures spans { IfOk result (λ x. All (HasSpan known.now x.0.memory.memory) x.0.spans.items) }
    ensures near { IfOk result (λ x. x.1 ≤ start + 4102 * count) }
{
    let mut placing = Placing::new(alloc, known);
    let mut least = 0;
    let mut at = start;
    let mut rest = bytes;
    for _ in 0..count {
        (least, at, rest) = entry_into(&mut placing, known, least, at, rest)?;
    }
    let placed = placing.finish(known)?;
    Ok((placed, at, rest))
}

// The memory that stands there, where it ends, and the bytes from there on.
#[tactic(auto, unfolding(crate::specs::Meant::memory_in, crate::specs::Meant::pages_in, parcel_model::specs::Reading::memory_at))]
pub(crate) fn memory_of<'a>(
    alloc: Global,
    known: &Residents,
    at: u64,
    bytes: &'a [u8],
) -> Result<(Placed, u64, &'a [u8]), ParcelFault>
    requires { at < 2 ^ 58 }
    ensures read { Gives (λ x. (x.0.memory.memory, x.1, x.2.now)) result (memory_in known.now at bytes.now) }
    ensures spans { IfOk result (λ x. All (HasSpan known.now x.0.memory.memory) x.0.spans.items) }
    ensures near { IfOk result (λ x. x.1 < at + 2 ^ 50) }
{
    let (count, rest) = u32_at(at, bytes)?;
    pages_of(alloc, known, count, at + 4, rest)
}

// A second memory, where the flags tell of one.
#[tactic(auto, unfolding(crate::specs::Meant::snapshot_in, crate::specs::Meant::memory_in, parcel_model::specs::Reading::snapshot_at))]
pub(crate) fn snapshot_of<'a>(
    alloc: Global,
    known: &Residents,
    flags: u8,
    at: u64,
    bytes: &'a [u8],
) -> Result<(Option<Placed>, u64, &'a [u8]), ParcelFault>
    requires { at < 2 ^ 58 }
    ensures read { Gives (λ x. (held.memory_in (held_in x.0), x.1, x.2.now)) result (snapshot_in known.now flags at bytes.now) }
    ensures spans { IfOk result (λ x. AreSpansIn known.now x.0) }
{
    if flags.is_multiple_of(2) {
        return Ok((None, at, bytes));
    }
    let (placed, end, rest) = memory_of(alloc, known, at, bytes)?;
    Ok((Some(placed), end, rest))
}
