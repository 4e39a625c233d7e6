//! Pages of 4,096 bytes, and what their permissions allow.
#![tactic(auto)]

ghost use Rattle.std.specs.Prelude.{◌≡◌, ◌↔◌, ℕ, ◌<◌, ◌+◌, ◌%◌, ◌≤◌, IfErr, IfOk, IsOk, IsTrue, length, slice_index, slice_set, true, false};
ghost use Rattle.page_store.specs.Bytes.{bytes_of, is_own, IsPage, with_number_in, with_bytes_in};
ghost use Rattle.page_store.specs.declared.PageRef.TheVariants.{Shared, Own};
ghost use Rattle.memory_model.specs.Memory.{number_from, width_bytes};
ghost use Rattle.memory_model.specs.Sizes.{page_size};

mod counting;
mod rights;

pub use counting::{count_after, count_of};
use memory_model::{PAGE_SIZE, Width};
pub use rights::{may_execute, may_read, may_write};
use std::alloc::{AllocError, AllocFailed, Global};
use std::sync::Arc;

const SIZE: usize = PAGE_SIZE as usize;

/// 4,096 bytes.
#[derive(Drop)]
pub struct Page {
    pub bytes: [u8; SIZE],
}

/// A page that is held. Contracts see it by its bytes, `bytes_of`, and by whether it is its holder's own, `is_own`.
#[derive(Drop)]
pub enum PageRef {
    /// A page that others may hold too. No write changes it. It keeps the box that it was written in.
    Shared(Arc<Box<Page, Global>, Global>),
    /// A page of its holder's own.
    Own(Box<Page, Global>),
}

impl PageRef {
    /// An own page of zeros. Its one error is want of memory.
    pub fn zeros(alloc: Global) -> Result<PageRef, AllocError>
        ensures zeros { IfOk result (λ page. (k : ℕ) → slice_index (bytes_of page) k ≡ 0) }
        ensures whole { IfOk result (λ page. IsPage (bytes_of page)) }
        ensures own { IfOk result (λ page. is_own page ≡ true) }
    {
        let page = Box::new(alloc, Page { bytes: [0; SIZE] })?;
        let page = PageRef::Own(page);
        let _bytes = page.bytes();
        Ok(page)
    }

    /// Whether it is its holder's own page.
    #[inline(always)]
    pub fn is_own(&self) -> bool
        ensures { result ≡ is_own self.now }
    {
        match self {
            PageRef::Shared(_) => false,
            PageRef::Own(_) => true,
        }
    }

    /// A page that can be shared, of the same bytes: an own page's box moves, and its bytes stay where they are. A shared one takes no
    /// memory. The one error is want of memory: it gives the page back as it was.
    pub fn freeze(self, alloc: Global) -> Result<PageRef, AllocFailed<PageRef>>
        ensures same { IfOk result (λ page. bytes_of page ≡ bytes_of self) }
        ensures shared { IfOk result (λ page. is_own page ≡ false) }
        ensures err { IfErr result (λ failed. failed.value ≡ self) }
        ensures idle { is_own self ≡ false → IsOk result }
    {
        match self {
            PageRef::Shared(page) => Ok(PageRef::Shared(page)),
            PageRef::Own(page) => freeze_own(page, alloc),
        }
    }

    /// A page of the same bytes: of a shared page another holder, of an own page a copy. Its one error is want of memory.
    pub fn share(&self, alloc: Global) -> Result<PageRef, AllocError>
        ensures bytes { IfOk result (λ page. bytes_of page ≡ bytes_of self.now) }
        ensures own { IfOk result (λ page. is_own page ≡ is_own self.now) }
    {
        match self {
            PageRef::Shared(page) => Ok(PageRef::Shared(Arc::try_clone(page)?)),
            PageRef::Own(page) => Ok(PageRef::Own(copy_of(page, alloc)?)),
        }
    }

    /// An own page of the same bytes: a shared page's box is taken back where nobody else holds it, and its bytes are copied where somebody
    /// does. An own one takes no memory. The one error is want of memory: it gives the page back as it was.
    pub fn own(self, alloc: Global) -> Result<PageRef, AllocFailed<PageRef>>
        ensures same { IfOk result (λ page. bytes_of page ≡ bytes_of self) }
        ensures owned { IfOk result (λ page. is_own page ≡ true) }
        ensures err { IfErr result (λ failed. failed.value ≡ self) }
        ensures idle { is_own self ≡ true → IsOk result }
    {
        match self {
            PageRef::Shared(page) => own_shared(page, alloc),
            PageRef::Own(page) => Ok(PageRef::Own(page)),
        }
    }

    /// The page's bytes.
    #[inline(always)]
    pub fn bytes(&self) -> &[u8; SIZE]
        ensures bytes { result.now ≡ bytes_of self.now }
        ensures whole { IsPage (bytes_of self.now) }
    {
        match self {
            PageRef::Shared(page) => whole(&page.bytes),
            PageRef::Own(page) => whole(&page.bytes),
        }
    }

    /// The number of `width` bytes at `at`, which lies below 4,096 and is a multiple of the width. The least byte comes first.
    #[inline(always)]
    pub fn number(&self, at: u16, width: Width) -> u32
        requires within { at < page_size }
        requires aligned { at % width_bytes width ≡ 0 }
        ensures { result ≡ number_from (λ k. slice_index (bytes_of self.now) k) width at }
    {
        number_in(self.bytes(), at as usize, width)
    }

    /// Makes the byte at `at`, below 4,096, of an own page `value`.
    #[inline(always)]
    pub fn write_own_byte(&mut self, at: u16, value: u8)
        requires within { at < page_size }
        requires own { is_own self.old ≡ true }
        ensures bytes { bytes_of self.new ≡ slice_set (bytes_of self.old) at value }
        ensures own { is_own self.new ≡ true }
    {
        match self {
            PageRef::Own(page) => page.bytes[at as usize] = value,
            PageRef::Shared(_) => {}
        }
    }

    /// Writes the lowest `width` bytes of `value` at `at` of an own page. The place lies below 4,096 and is a multiple of the width;
    /// the least byte comes first.
    #[inline(always)]
    pub fn write_own_number(&mut self, at: u16, width: Width, value: u32)
        requires within { at < page_size }
        requires aligned { at % width_bytes width ≡ 0 }
        requires own { is_own self.old ≡ true }
        ensures bytes { bytes_of self.new ≡ with_number_in (bytes_of self.old) at width value }
        ensures own { is_own self.new ≡ true }
    {
        match self {
            PageRef::Own(page) => write_number_in(&mut page.bytes, at as usize, width, value),
            PageRef::Shared(_) => {}
        }
    }

    /// Writes `bytes` from `at` of an own page on; they end within the page.
    pub fn write_own_bytes(&mut self, at: u16, bytes: &[u8])
        requires within { at + length bytes.now ≤ page_size }
        requires own { is_own self.old ≡ true }
        ensures bytes { bytes_of self.new ≡ with_bytes_in (bytes_of self.old) at bytes.now }
        ensures own { is_own self.new ≡ true }
    {
        match self {
            PageRef::Own(page) => overwrite(&mut page.bytes, at as usize, bytes),
            PageRef::Shared(_) => {}
        }
    }

    /// Whether every byte is 0.
    pub fn is_zero(&self) -> bool
        ensures { IsTrue result ↔ ((k : ℕ) → slice_index (bytes_of self.now) k ≡ 0) }
    {
        all_zero(self.bytes())
    }

    /// Whether two pages have the same bytes.
    pub fn has_bytes_of(&self, other: &PageRef) -> bool
        ensures { IsTrue result ↔ (bytes_of self.now ≡ bytes_of other.now) }
    {
        self.bytes() == other.bytes()
    }
}

// An own page, as one that can be shared.
#[inline(never)]
fn freeze_own(page: Box<Page, Global>, alloc: Global) -> Result<PageRef, AllocFailed<PageRef>>
    ensures same { IfOk result (λ shared. bytes_of shared ≡ page.value.bytes) }
    ensures shared { IfOk result (λ shared. is_own shared ≡ false) }
    ensures err { IfErr result (λ failed. failed.value ≡ Own page) }
{
    match Arc::new(alloc, page) {
        Ok(page) => Ok(PageRef::Shared(page)),
        Err(failed) => Err(AllocFailed {
            value: PageRef::Own(failed.value),
        }),
    }
}

// A shared page, as an own one: itself where nobody else holds it, and else a copy.
#[inline(never)]
fn own_shared(
    page: Arc<Box<Page, Global>, Global>,
    alloc: Global,
) -> Result<PageRef, AllocFailed<PageRef>>
    ensures same { IfOk result (λ own. bytes_of own ≡ bytes_of (Shared page)) }
    ensures owned { IfOk result (λ own. is_own own ≡ true) }
    ensures err { IfErr result (λ failed. failed.value ≡ Shared page) }
{
    match Arc::try_unwrap(page) {
        Ok(page) => Ok(PageRef::Own(page)),
        Err(page) => match copy_of(&page, alloc) {
            Ok(copy) => Ok(PageRef::Own(copy)),
            Err(_) => Err(AllocFailed {
                value: PageRef::Shared(page),
            }),
        },
    }
}

// A page of its own with the same bytes.
#[inline(never)]
fn copy_of(page: &Page, alloc: Global) -> Result<Box<Page, Global>, AllocError>
    ensures { IfOk result (λ copy. copy.value.bytes ≡ page.now.bytes) }
{
    let copy = Box::new(alloc, Page { bytes: page.bytes })?;
    Ok(copy)
}

// The same bytes, whose type keeps how many they are and that each is below 256.
#[inline(always)]
fn whole(bytes: &[u8; SIZE]) -> &[u8; SIZE]
    ensures bytes { result.now ≡ bytes.now }
    ensures whole { IsPage bytes.now }
{
    let _bytes = small(bytes);
    bytes
}

// The same bytes, each below 256.
#[inline(always)]
fn small(bytes: &[u8]) -> &[u8]
    ensures bytes { result.now ≡ bytes.now }
    ensures small { (k : ℕ) → slice_index bytes.now k < 256 }
{
    bytes
}

// The number of `width` bytes at `at`.
#[inline(always)]
fn number_in(bytes: &[u8; SIZE], at: usize, width: Width) -> u32
    requires within { at < page_size }
    requires aligned { at % width_bytes width ≡ 0 }
    ensures { result ≡ number_from (λ k. slice_index bytes.now k) width at }
{
    match width {
        Width::One => u32::from(bytes[at]),
        Width::Two => u32::from(bytes[at]) + 256 * u32::from(bytes[at + 1]),
        Width::Four => {
            u32::from(bytes[at])
                + 256 * u32::from(bytes[at + 1])
                + 65536 * u32::from(bytes[at + 2])
                + 16777216 * u32::from(bytes[at + 3])
        }
    }
}

// The lowest `width` bytes of the value, at `at`.
#[inline(always)]
fn write_number_in(bytes: &mut [u8; SIZE], at: usize, width: Width, value: u32)
    requires within { at < page_size }
    requires aligned { at % width_bytes width ≡ 0 }
    ensures { bytes.new ≡ with_number_in bytes.old at width value }
{
    match width {
        Width::One => bytes[at] = (value % 256) as u8,
        Width::Two => {
            bytes[at] = (value % 256) as u8;
            bytes[at + 1] = (value / 256 % 256) as u8;
        }
        Width::Four => {
            bytes[at] = (value % 256) as u8;
            bytes[at + 1] = (value / 256 % 256) as u8;
            bytes[at + 2] = (value / 65536 % 256) as u8;
            bytes[at + 3] = (value / 16777216 % 256) as u8;
        }
    }
}

// These bytes from `at` on.
fn overwrite(page: &mut [u8; SIZE], at: usize, bytes: &[u8])
    requires { at + length bytes.now ≤ page_size }
    ensures { page.new ≡ with_bytes_in page.old at bytes.now }
{
    page[at..at + bytes.len()].copy_from_slice(bytes);
}

// Whether every byte is 0: all are joined, with no branch between them.
fn all_zero(bytes: &[u8; SIZE]) -> bool
    ensures { IsTrue result ↔ ((k : ℕ) → slice_index bytes.now k ≡ 0) }
{
    let mut joined = 0;
    for byte in bytes {
        joined |= *byte;
    }
    joined == 0
}
