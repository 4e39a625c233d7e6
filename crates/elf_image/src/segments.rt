ghost use Rattle.std.specs.Prelude.{◌≡◌, ◌≤◌, ◌<◌, ◌^◌, ◌+◌, ◌-◌, ◌*◌, ◌&&◌, false, ℕ, nat_le, nat_lt, cond, length, map, slice_index, IfOk};
ghost use Rattle.std.specs.List.{All, range_with_len};
ghost use Rattle.memory_model.specs.Sizes.{page_size};
ghost use Rattle.image_file.specs.View.{segment_view, segment_views};
ghost use Rattle.elf_model.specs.Pages as pages;
ghost use Rattle.elf_model.specs.Pages.{byte_of};
ghost use Rattle.elf_image.specs.View.{load_view, load_views, run_view, run_views, IsWithin};

use crate::load::Load;
use crate::runs::Run;
use image_file::Segment;
use memory_model::PAGE_SIZE;
use std::alloc::{AllocError, Global};

// Writes a load's bytes over those of memory from `start` on, where it has any there.
fn overlay(content: &mut [u8], start: u64, load: &Load<'_>)
    requires { start ≤ 2 ^ 32 }
    ensures len { length content.new ≡ length content.old }
    ensures bytes { (k : ℕ) → k < length content.old → slice_index content.new k ≡ cond (nat_le load.now.address (start + k) && nat_lt (start + k) (load.now.address + length load.now.content.now)) (slice_index load.now.content.now (start + k - load.now.address)) (slice_index content.old k) }
{
    let address = u64::from(load.address);
    let from = start.max(address);
    let end = start + content.len() as u64;
    let to = end.min(address + load.content.len() as u64);
    if from < to {
        content[(from - start) as usize..(to - start) as usize].copy_from_slice(
            &load.content[(from - address) as usize..(to - address) as usize],
        );
    }
}

// Writes the bytes of loads over zeros of memory from `start` on.
fn overlay_all(content: &mut [u8], start: u64, loads: &[Load<'_>])
    requires low { start ≤ 2 ^ 32 }
    requires zeros { (k : ℕ) → slice_index content.old k ≡ 0 }
    ensures len { length content.new ≡ length content.old }
    ensures bytes { (k : ℕ) → k < length content.old → slice_index content.new k ≡ byte_of (load_views loads.now) (start + k) }
{
    let count = loads.len();
    for done in 0..count {
        overlay(content, start, &loads[count - 1 - done]);
    }
}

// The bytes of memory from an address on: those that loads have there, and else zeros.
fn content_of(
    alloc: Global,
    start: u64,
    size: usize,
    loads: &[Load<'_>],
) -> Result<Vec<u8>, AllocError>
    requires { start ≤ 2 ^ 32 }
    ensures { IfOk result (λ v. v.items ≡ map (byte_of (load_views loads.now)) (range_with_len start size)) }
{
    let mut content = Vec::new(alloc);
    content.resize(size, 0)?;
    overlay_all(&mut content, start, loads);
    Ok(content)
}

// How many bytes from `start` on lie before the end of a load's, and before `end`.
fn reach(start: u64, end: u64, load: &Load<'_>) -> u64
    requires { start ≤ end }
    ensures most { result ≤ end - start }
    ensures beyond { (a : ℕ) → start + result ≤ a → a < end → (nat_le load.now.address a && nat_lt a (load.now.address + length load.now.content.now)) ≡ false }
{
    let address = u64::from(load.address);
    if load.content.is_empty() || end <= address {
        return 0;
    }
    end.min(address + load.content.len() as u64)
        .saturating_sub(start)
}

// How many bytes there are from `start` on, up to the last before `end` that a load has; at least one. Behind them there are zeros.
fn filled(start: u64, end: u64, loads: &[Load<'_>]) -> u64
    requires { start < end }
    ensures some { 0 < result }
    ensures most { result ≤ end - start }
    ensures zeros { (k : ℕ) → result ≤ k → k < end - start → byte_of (load_views loads.now) (start + k) ≡ 0 }
{
    let mut most: u64 = 1;
    let count = loads.len();
    for done in 0..count {
        most = most.max(reach(start, end, &loads[count - 1 - done]));
    }
    most
}

// A run's pages, with the bytes that loads have there. The zeros behind the last of these are counted alone, however many they are.
fn segment_of(alloc: Global, run: Run, loads: &[Load<'_>]) -> Result<Segment, AllocError>
    requires { IsWithin (run_view run) }
    ensures { IfOk result (λ s. segment_view s ≡ pages.segment_of (load_views loads.now) (run_view run)) }
{
    let start = u64::from(run.first) * u64::from(PAGE_SIZE);
    let end = u64::from(run.end) * u64::from(PAGE_SIZE);
    let size = filled(start, end, loads);
    Ok(Segment {
        addr: run.first * PAGE_SIZE,
        perm: run.permission,
        bytes: content_of(alloc, start, size as usize, loads)?,
        zeros: (end - start - size) as u32,
    })
}

/// The segments of runs of pages, with the bytes that loads have there.
pub(crate) fn segments_of(
    alloc: Global,
    runs: &[Run],
    loads: &[Load<'_>],
) -> Result<Vec<Segment>, AllocError>
    requires { All (λ r. IsWithin (run_view r)) runs.now }
    ensures { IfOk result (λ v. segment_views v.items ≡ map (pages.segment_of (load_views loads.now)) (run_views runs.now)) }
{
    let mut segments = Vec::new(alloc);
    for run in runs {
        segments.push(segment_of(alloc, *run, loads)?)?;
    }
    Ok(segments)
}
