ghost use Rattle.std.specs.Prelude.{◌≡◌, ◌≤◌, ◌<◌, ◌^◌, ◌+◌, ◌-◌, ◌/◌, OnOk, IfOk, length, slice_index, ℕ, true};
ghost use Rattle.run_model.specs.Boot.{with_segment, with_segments, boot};
ghost use Rattle.memory_model.specs.Memory.{no_memory, with_bytes};
ghost use Rattle.det_core.specs.Empty.{IsEmptyFrom};
ghost use Rattle.image_model.specs.Image.{IsSegment};
ghost use Rattle.image_file.specs.View.{segment_view};
ghost use Rattle.space_model.specs.Sound.{IsSound};

use image_file::{Image, Segment};
use memory_model::PAGE_SIZE;
use space_tree::{Devices, Mem, Pages, Space, Top};
use std::alloc::{AllocError, Global};

// Whether all of these bytes are 0. It looks at all of them, which takes many at a time.
fn are_zero(bytes: &[u8]) -> bool
    ensures { result ≡ true → (k : ℕ) → k < length bytes.now → slice_index bytes.now k ≡ 0 }
{
    let mut greatest: u8 = 0;
    for byte in bytes {
        greatest = greatest.max(*byte);
    }
    greatest == 0
}

// Writes bytes where a memory has none but zeros; zeros alone are not written.
fn write_part(memory: &mut Mem, at: u32, part: &[u8]) -> Result<(), AllocError>
    requires within { at + length part.now ≤ 2 ^ 32 }
    requires empty { IsEmptyFrom memory.old.memory at (length part.now) }
    ensures { OnOk result (memory.new.memory ≡ with_bytes memory.old.memory at part.now) }
{
    if are_zero(part) {
        return Ok(());
    }
    memory.write_bytes(at, part)
}

// Writes bytes where a memory has none but zeros. A page in which all of them are 0 is not kept.
fn write_content(memory: &mut Mem, at: u32, bytes: &[u8]) -> Result<(), AllocError>
    requires within { at + length bytes.now ≤ 2 ^ 32 }
    requires empty { IsEmptyFrom memory.old.memory at (length bytes.now) }
    ensures { OnOk result (memory.new.memory ≡ with_bytes memory.old.memory at bytes.now) }
{
    let mut done: usize = 0;
    while done < bytes.len() {
        let from = (at as usize + done) as u32;
        let count = ((PAGE_SIZE - from % PAGE_SIZE) as usize).min(bytes.len() - done);
        write_part(memory, from, &bytes[done..done + count])?;
        done += count;
    }
    Ok(())
}

// Writes a segment's bytes where a memory has none but zeros. The zeros behind them are there.
fn write_bytes_of(memory: &mut Mem, segment: &Segment) -> Result<(), AllocError>
    requires within { segment.now.addr + length (segment_view segment.now).content ≤ 2 ^ 32 }
    requires empty { IsEmptyFrom memory.old.memory segment.now.addr (length (segment_view segment.now).content) }
    ensures { OnOk result (memory.new.memory ≡ with_bytes memory.old.memory segment.now.addr (segment_view segment.now).content) }
{
    write_content(memory, segment.addr, &segment.bytes)?;
    Ok(())
}

// A segment's bytes, and its permission on each page that it touches, where a memory has none but zeros.
fn write_segment(memory: &mut Mem, segment: &Segment) -> Result<(), AllocError>
    requires sound { IsSegment 0 (segment_view segment.now) }
    requires empty { IsEmptyFrom memory.old.memory segment.now.addr (length (segment_view segment.now).content) }
    ensures { OnOk result (memory.new.memory ≡ with_segment memory.old.memory (segment_view segment.now)) }
{
    let first = segment.addr / PAGE_SIZE;
    let last = ((u64::from(segment.addr) + segment.size() - 1) / u64::from(PAGE_SIZE)) as u32;
    let pages = Pages {
        first,
        count: last + 1 - first,
    };
    write_bytes_of(memory, segment)?;
    memory.set_perm(pages, segment.perm)
}

// The memory of an image: its segments, one after the other.
fn load(alloc: Global, image: &Image) -> Result<Mem, AllocError>
    ensures { IfOk result (λ m. m.memory ≡ with_segments no_memory image.now.segments) }
{
    let mut memory = Mem::new(alloc);
    for segment in image.segments() {
        write_segment(&mut memory, segment)?;
    }
    Ok(memory)
}

/// The root of an image, with its devices and so much fuel: from 1 to 2^32 - 1 events.
#[tactic(auto, unfolding(run_model::specs::Boot::boot))]
pub fn boot(alloc: Global, image: &Image, devices: Devices, fuel: u32) -> Result<Space, AllocError>
    requires { 1 ≤ fuel }
    ensures value { IfOk result (λ s. s ≡ boot image.now devices fuel) }
    ensures sound { IfOk result IsSound }
{
    let memory = load(alloc, image)?;
    let top = Top::root(image.entry(), image.stack(), memory, fuel, devices);
    Ok(Space::alone(alloc, top))
}
