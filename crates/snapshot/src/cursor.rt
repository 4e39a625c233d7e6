ghost use Rattle.std.specs.Prelude.{◌≡◌, ◌≤◌, IfSome, IsFalse, IsNone};
ghost use Rattle.memory_model.specs.Ranges.{IsPageOf, IsZeroPage};
ghost use Rattle.memory_model.specs.Sizes.{pages};
ghost use Rattle.space_mem.specs.Held.{AllClean, AllZero, IsNextDirty};

use crate::page::{SIZE, page_bytes};
use space_mem::Mem;
use std::marker::Model;

// A memory that is gone over once, from its first page to its last. What the last search found answers until it is passed, so all searches
// together look at each page once at most. A clause sees the memory.
#[derive(Drop)]
pub struct Cursor<'a> {
    memory: &'a Mem,
    // From the first of these pages on no bytes are kept before the other.
    from: u32,
    next: u32,
}

impl<'a> Model for Cursor<'a> {
    ghost use Rattle.std.specs.Prelude.{◌≤◌};
    ghost use Rattle.memory_model.specs.Sizes.{pages};
    ghost use Rattle.space_mem.specs.Held.{Held, AllZero, coded_held};

    ghost Value = { Held };

    ghost coded = { coded_held };

    ghost view = { λ c. c.memory.now };

    ghost invariant = { λ c. (c.next ≤ pages) × AllZero c.memory.now.memory c.from c.next };
}

impl<'a> Cursor<'a> {
    pub fn over(memory: &'a Mem) -> Cursor<'a>
        ensures { result ≡ memory.now }
    {
        Cursor {
            memory,
            from: 0,
            next: 0,
        }
    }

    // The least dirty page from `n` on.
    pub fn next_dirty(&self, n: u32) -> Option<u32>
        ensures some { IfSome result (IsNextDirty self.now n) }
        ensures none { IsNone result → AllClean self.now n pages }
    {
        self.memory.next_dirty(n)
    }

    // Whether bytes of a page are kept; where none are, all are 0.
    pub fn keeps(&self, page: u32) -> bool
        ensures { IsFalse result → IsZeroPage self.now.memory page }
    {
        self.memory.page(page).is_some()
    }

    // The bytes of a page.
    pub fn bytes(&self, page: u32) -> &[u8; SIZE]
        ensures { IsPageOf self.now.memory page result.now }
    {
        page_bytes(self.memory, page)
    }

    // The least page from `n` to before `end` of which bytes are kept, or `end`.
    pub fn next_kept(&mut self, n: u32, end: u32) -> u32
        requires rise { n ≤ end }
        requires within { end ≤ pages }
        ensures same { self.new ≡ self.old }
        ensures above { n ≤ result }
        ensures below { result ≤ end }
        ensures zero { AllZero self.old.memory n result }
    {
        if n < self.from || self.next < n {
            self.next = self.memory.next_kept(n, end).unwrap_or(end);
            self.from = n;
        }
        self.next.min(end)
    }
}
