//! The merge of what a child wrote into a page of its parent's, byte by byte, against the child's snapshot. Many bytes are looked at
//! at once.
#![tactic(auto)]

ghost use Rattle.std.specs.Prelude.{◌≡◌, ℕ, ◌+◌, ◌<◌, ◌≤◌, IfErr, IfSome, IsFalse, IsNone, IsTrue, OnErr, OnOk, length, ◌↔◌};
ghost use Rattle.merge3.specs.Bytes.{IsFirstConflict, IsMergeBelow, NoneInConflict, NoneInConflictFrom, SameFrom};
ghost use Rattle.memory_model.specs.Sizes.{page_size};

use memory_model::PAGE_SIZE;
use std::simd::prelude::*;

const SIZE: usize = PAGE_SIZE as usize;

const LANES: usize = 64;

const GROUPS: usize = SIZE / LANES;

/// Merges a page: `out` has at each offset the child's byte where it differs from the snapshot's, else the parent's (OSDI 2010,
/// the section on reconciling memory). The error is the least offset, below 4,096, that is in conflict; `out` is as it was then.
/// An offset is in conflict where both the child's byte and the parent's differ from the snapshot's; with `agree`, only where
/// they differ from one another as well. It takes no memory.
pub fn merge_page(
    snapshot: &[u8; SIZE],
    child: &[u8; SIZE],
    parent: &[u8; SIZE],
    out: &mut [u8; SIZE],
    agree: bool,
) -> Result<(), u16>
    ensures ok { OnOk result (IsMergeBelow snapshot.now child.now parent.now out.new page_size) }
    ensures sure { OnOk result (NoneInConflict agree snapshot.now child.now parent.now page_size) }
    ensures conflict { IfErr result (IsFirstConflict agree snapshot.now child.now parent.now) }
    ensures err { OnErr result (out.new ≡ out.old) }
{
    match first_conflict(snapshot, child, parent, agree) {
        Some(offset) => Err(offset),
        None => {
            merge_bytes(snapshot, child, parent, out);
            Ok(())
        }
    }
}

/// Whether two pages have the same bytes.
pub fn same_page(a: &[u8; SIZE], b: &[u8; SIZE]) -> bool
    ensures { IsTrue result ↔ (a.now ≡ b.now) }
{
    for group in 0..GROUPS {
        if differ(a, b, LANES * group) {
            return false;
        }
    }
    true
}

// Whether two lists of bytes differ at one of the lanes from an offset on.
#[inline(always)]
fn differ(a: &[u8], b: &[u8], at: usize) -> bool
    requires a { at + 64 ≤ length a.now }
    requires b { at + 64 ≤ length b.now }
    ensures same { IsFalse result → SameFrom a.now b.now at (at + 64) }
    ensures other { IsTrue result → a.now ≡ b.now → ⊥ }
{
    let x = u8x64::from_slice(&a[at..]);
    let y = u8x64::from_slice(&b[at..]);
    x.simd_ne(y).to_bitmask() != 0
}

/// The least offset, below 4,096, that is in conflict: both the child's byte and the parent's differ from the snapshot's, and with `agree` from one
/// another as well; none exactly where there is none. It writes nothing.
pub fn first_conflict(
    snapshot: &[u8; SIZE],
    child: &[u8; SIZE],
    parent: &[u8; SIZE],
    agree: bool,
) -> Option<u16>
    ensures some { IfSome result (IsFirstConflict agree snapshot.now child.now parent.now) }
    ensures none { IsNone result → NoneInConflict agree snapshot.now child.now parent.now page_size }
{
    for group in 0..GROUPS {
        let at = LANES * group;
        if may_conflict(snapshot, child, parent, agree, at) {
            return first_conflict_from(snapshot, child, parent, agree, at);
        }
    }
    None
}

// Whether one of the lanes from an offset on is in conflict.
#[inline(always)]
fn may_conflict(snapshot: &[u8], child: &[u8], parent: &[u8], agree: bool, at: usize) -> bool
    requires snapshot { at + 64 ≤ length snapshot.now }
    requires child { at + 64 ≤ length child.now }
    requires parent { at + 64 ≤ length parent.now }
    ensures { IsFalse result → NoneInConflictFrom agree snapshot.now child.now parent.now at (at + 64) }
{
    let s = u8x64::from_slice(&snapshot[at..]);
    let c = u8x64::from_slice(&child[at..]);
    let p = u8x64::from_slice(&parent[at..]);
    let both = c.simd_ne(s) & p.simd_ne(s);
    let conflicts = if agree { both & c.simd_ne(p) } else { both };
    conflicts.to_bitmask() != 0
}

// The least offset that is in conflict, where there is none before `from`.
fn first_conflict_from(
    snapshot: &[u8; SIZE],
    child: &[u8; SIZE],
    parent: &[u8; SIZE],
    agree: bool,
    from: usize,
) -> Option<u16>
    requires { NoneInConflict agree snapshot.now child.now parent.now from }
    ensures some { IfSome result (IsFirstConflict agree snapshot.now child.now parent.now) }
    ensures none { IsNone result → NoneInConflict agree snapshot.now child.now parent.now page_size }
{
    for k in from..SIZE {
        if child[k] != snapshot[k]
            && parent[k] != snapshot[k]
            && !(agree && child[k] == parent[k])
        {
            return Some(k as u16);
        }
    }
    None
}

/// Merges a page whatever is in conflict: `out` has at each offset the child's byte where it differs from the snapshot's, else the parent's.
/// It takes no memory.
pub fn merge_bytes(
    snapshot: &[u8; SIZE],
    child: &[u8; SIZE],
    parent: &[u8; SIZE],
    out: &mut [u8; SIZE],
)
    ensures { IsMergeBelow snapshot.now child.now parent.now out.new page_size }
{
    for group in 0..GROUPS {
        merge_lanes(snapshot, child, parent, out, LANES * group);
    }
}

// Writes the merged bytes at the lanes from an offset on, where those before it are written.
#[inline(always)]
fn merge_lanes(snapshot: &[u8], child: &[u8], parent: &[u8], out: &mut [u8], at: usize)
    requires snapshot { at + 64 ≤ length snapshot.now }
    requires child { at + 64 ≤ length child.now }
    requires parent { at + 64 ≤ length parent.now }
    requires out { at + 64 ≤ length out.old }
    requires before { IsMergeBelow snapshot.now child.now parent.now out.old at }
    ensures sized { length out.new ≡ length out.old }
    ensures merged { IsMergeBelow snapshot.now child.now parent.now out.new (at + 64) }
{
    let s = u8x64::from_slice(&snapshot[at..]);
    let c = u8x64::from_slice(&child[at..]);
    let p = u8x64::from_slice(&parent[at..]);
    c.simd_ne(s).select(c, p).copy_to_slice(&mut out[at..]);
}
