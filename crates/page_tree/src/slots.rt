ghost use Rattle.std.specs.Prelude.{◌≡◌, ℕ, ◌+◌, ◌%◌, ◌<◌, ◌==◌, cond, None, IfErr, IfOk, IsErr, IsOk, OnOk, OnErr, IfSome, IsNone, IsTrue, IsFalse, true, false};
ghost use Rattle.memory_model.specs.Memory.{width_bytes};
ghost use Rattle.memory_model.specs.Sizes.{page_size};
ghost use Rattle.page_store.specs.Bytes.{bytes_of, is_own, IsPage, with_number_in};
ghost use Rattle.page_tree.specs.Blocks.{block_pages, byte_in, bytes_in, is_own_in, IsWhole};
ghost use Rattle.page_store.specs.Kept.{kept_in};
ghost use Rattle.page_tree.specs.Kept.{slot_in};

use crate::block::BLOCK_PAGES;
use memory_model::Width;
use page_store::{PageRef, count_after, count_of};
use std::alloc::{AllocError, AllocFailed, Global};
use std::array::from_fn;
use std::marker::Model;
use std::mem;

/// What is kept of 64 pages, and of how many of them anything is kept. Contracts see the list of what is kept of each.
#[derive(Drop)]
pub struct Slots {
    slots: [Option<PageRef>; BLOCK_PAGES],
    count: usize,
}

impl Model for Slots {
    ghost use Rattle.std.specs.Prelude.{List, Option};
    ghost use Rattle.page_store.specs.declared.PageRef.{PageRef};
    ghost use Rattle.page_tree.specs.Kept.{IsCounted};

    ghost Value = { List (Option PageRef) };

    ghost view = { λ s. s.slots };

    ghost invariant = { λ s. IsCounted s.count s.slots };
}

impl Slots {
    /// Nothing is kept of any page.
    #[tactic(auto, using(crate::proofs::Counts::count_none))]
    pub fn none() -> Slots
        ensures { (j : ℕ) → slot_in result j ≡ None }
    {
        Slots {
            slots: from_fn(|_| None),
            count: 0,
        }
    }

    /// What is kept of a page.
    #[inline(always)]
    pub fn get(&self, j: usize) -> Option<&PageRef>
        ensures some { IfSome result (λ page. slot_in self.now j ≡ Some page.now) }
        ensures none { IsNone result → slot_in self.now j ≡ None }
    {
        match self.slots.get(j) {
            Some(slot) => match slot {
                Some(page) => Some(page),
                None => None,
            },
            None => None,
        }
    }

    /// Whether nothing is kept of any page. It looks at none of them.
    #[inline(always)]
    #[tactic(auto, using(crate::proofs::Counts::none_kept))]
    pub fn is_empty(&self) -> bool
        ensures { IsTrue result → (j : ℕ) → slot_in self.now j ≡ None }
    {
        self.count == 0
    }

    /// Exchanges what is kept of a page.
    pub fn replace(&mut self, j: usize, kept: Option<PageRef>) -> Option<PageRef>
        requires { j < block_pages }
        ensures was { result ≡ slot_in self.old j }
        ensures here { slot_in self.new j ≡ kept }
        ensures other { (i : ℕ) → (i ≡ j → ⊥) → slot_in self.new i ≡ slot_in self.old i }
        ensures slots { (i : ℕ) → slot_in self.new i ≡ cond (i == j) kept (slot_in self.old i) }
    {
        self.count = count_after(self.count, &self.slots[j], &kept);
        mem::replace(&mut self.slots[j], kept)
    }

    /// Gives a page bytes of its holder's own. It takes no memory where it has such. The one error is want of memory: nothing has
    /// changed then.
    pub fn own(&mut self, j: usize, alloc: Global) -> Result<(), AllocError>
        requires { j < block_pages }
        ensures bytes { (i k : ℕ) → byte_in (slot_in self.new i) k ≡ byte_in (slot_in self.old i) k }
        ensures other { (i : ℕ) → (i ≡ j → ⊥) → slot_in self.new i ≡ slot_in self.old i }
        ensures own { OnOk result (is_own_in (slot_in self.new j) ≡ true) }
        ensures whole { (i : ℕ) → IsWhole (slot_in self.old i) → IsWhole (slot_in self.new i) }
        ensures err { OnErr result (self.new ≡ self.old) }
        ensures idle { is_own_in (slot_in self.old j) ≡ true → IsOk result }
    {
        let kept = count_of(&self.slots[j]);
        own_slot(&mut self.slots[j], alloc)?;
        self.count = self.count + 1 - kept;
        Ok(())
    }

    /// Makes a page that is kept one that can be shared. At the one error, want of memory, it is as it was.
    pub fn freeze(&mut self, j: usize, alloc: Global) -> Result<(), AllocError>
        requires { j < block_pages }
        ensures bytes { (i k : ℕ) → byte_in (slot_in self.new i) k ≡ byte_in (slot_in self.old i) k }
        ensures other { (i : ℕ) → (i ≡ j → ⊥) → slot_in self.new i ≡ slot_in self.old i }
        ensures whole { IsWhole (slot_in self.new j) }
        ensures none { OnOk result (is_own_in (slot_in self.new j) ≡ false) }
        ensures less { is_own_in (slot_in self.new j) ≡ true → is_own_in (slot_in self.old j) ≡ true }
    {
        freeze_slot(&mut self.slots[j], alloc)
    }

    /// Writes the lowest `width` bytes of `value` at an aligned place of an own page. False: nothing has changed, since the page is no own
    /// one.
    #[inline(always)]
    pub fn write(&mut self, j: usize, at: u16, width: Width, value: u32) -> bool
        requires page { j < block_pages }
        requires within { at < page_size }
        requires aligned { at % width_bytes width ≡ 0 }
        ensures bytes { IsTrue result → bytes_in (slot_in self.new j) ≡ with_number_in (bytes_in (slot_in self.old j)) at width value }
        ensures other { (i : ℕ) → (i ≡ j → ⊥) → slot_in self.new i ≡ slot_in self.old i }
        ensures was { IsTrue result → is_own_in (slot_in self.old j) ≡ true }
        ensures own { is_own_in (slot_in self.new j) ≡ is_own_in (slot_in self.old j) }
        ensures undone { IsFalse result → self.new ≡ self.old }
        ensures sure { is_own_in (slot_in self.old j) ≡ true → IsTrue result }
        ensures whole { IsWhole (slot_in self.old j) → IsWhole (slot_in self.new j) }
    {
        write_slot(&mut self.slots[j], at, width, value)
    }
}

// Gives a slot a page of its holder's own, with the bytes that it keeps, or zeros.
fn own_slot(slot: &mut Option<PageRef>, alloc: Global) -> Result<(), AllocError>
    ensures bytes { (k : ℕ) → byte_in slot.new k ≡ byte_in slot.old k }
    ensures own { OnOk result (is_own_in slot.new ≡ true) }
    ensures kept { OnOk result (kept_in slot.new ≡ 1) }
    ensures whole { IsWhole slot.old → IsWhole slot.new }
    ensures err { OnErr result (slot.new ≡ slot.old) }
    ensures idle { is_own_in slot.old ≡ true → IsOk result }
{
    match slot.take() {
        Some(page) => put_back(slot, page.own(alloc)),
        None => {
            let zeros = PageRef::zeros(alloc)?;
            *slot = Some(zeros);
            Ok(())
        }
    }
}

// Makes a page that is kept one that can be shared.
fn freeze_slot(slot: &mut Option<PageRef>, alloc: Global) -> Result<(), AllocError>
    ensures bytes { (k : ℕ) → byte_in slot.new k ≡ byte_in slot.old k }
    ensures whole { IsWhole slot.new }
    ensures none { OnOk result (is_own_in slot.new ≡ false) }
    ensures less { is_own_in slot.new ≡ true → is_own_in slot.old ≡ true }
    ensures kept { kept_in slot.new ≡ kept_in slot.old }
{
    match slot.take() {
        Some(page) => {
            let _whole = page.bytes();
            put_back(slot, page.freeze(alloc))
        }
        None => Ok(()),
    }
}

// Puts what became of a page into its slot: the page that was made, or the page as it was.
fn put_back(
    slot: &mut Option<PageRef>,
    page: Result<PageRef, AllocFailed<PageRef>>,
) -> Result<(), AllocError>
    ensures ok { IfOk page (λ made. slot.new ≡ Some made) }
    ensures err { IfErr page (λ failed. slot.new ≡ Some failed.value) }
    ensures kept { kept_in slot.new ≡ 1 }
    ensures done { OnOk result (IsOk page) }
    ensures failed { OnErr result (IsErr page) }
{
    match page {
        Ok(made) => {
            *slot = Some(made);
            Ok(())
        }
        Err(failed) => {
            *slot = Some(failed.value);
            Err(AllocError)
        }
    }
}

// Writes a number into the page that a slot keeps, if it is an own one.
#[inline(always)]
fn write_slot(slot: &mut Option<PageRef>, at: u16, width: Width, value: u32) -> bool
    requires within { at < page_size }
    requires aligned { at % width_bytes width ≡ 0 }
    ensures bytes { IsTrue result → bytes_in slot.new ≡ with_number_in (bytes_in slot.old) at width value }
    ensures was { IsTrue result → is_own_in slot.old ≡ true }
    ensures own { is_own_in slot.new ≡ is_own_in slot.old }
    ensures undone { IsFalse result → slot.new ≡ slot.old }
    ensures sure { is_own_in slot.old ≡ true → IsTrue result }
    ensures kept { kept_in slot.new ≡ kept_in slot.old }
    ensures whole { IsWhole slot.old → IsWhole slot.new }
{
    match slot {
        Some(page) => write_page(page, at, width, value),
        None => false,
    }
}

// Writes a number into a page, if it is an own one.
#[inline(always)]
fn write_page(page: &mut PageRef, at: u16, width: Width, value: u32) -> bool
    requires within { at < page_size }
    requires aligned { at % width_bytes width ≡ 0 }
    ensures bytes { IsTrue result → bytes_of page.new ≡ with_number_in (bytes_of page.old) at width value }
    ensures was { IsTrue result → is_own page.old ≡ true }
    ensures own { is_own page.new ≡ is_own page.old }
    ensures undone { IsFalse result → page.new ≡ page.old }
    ensures sure { is_own page.old ≡ true → IsTrue result }
    ensures whole { IsPage (bytes_of page.new) }
{
    let own = page.is_own();
    if own {
        page.write_own_number(at, width, value);
    }
    let _whole = page.bytes();
    own
}
