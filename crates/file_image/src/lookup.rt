ghost use Rattle.std.specs.Prelude.{◌≡◌, ◌<◌, ◌+◌, ◌*◌, ◌^◌, IfSome, option_map, map, cond, not, true, length};
ghost use Rattle.file_model.specs.Sizes.{slot_count};
ghost use Rattle.file_model.specs.Slots.{slot_at, slots_of, slot_start, is_in_use};
ghost use Rattle.file_model.specs.Operations.{entry_of, lowest_free};
ghost use Rattle.file_model.specs.Reconcile.{is_used, bits_of};
ghost use Rattle.file_image.specs.Lookup.{holds, optional_entry, HasFile};

use crate::file_bytes::FileBytes;
use crate::header::{SLOT_SIZE, SLOTS, has_name, is_in_use};

// Whether a slot is in use and has this name.
fn slot_holds<B: FileBytes>(bytes: &B, slot: u32, name: &[u8]) -> bool
    requires { slot < slot_count }
    ensures holds { result ≡ holds name.now (slot_at (B.bytes bytes.now) slot) }
    ensures used { result ≡ true → is_in_use (B.bytes bytes.now) (slot_start slot) ≡ true }
{
    let at = SLOT_SIZE * slot;
    has_name(bytes, at, name) && is_in_use(bytes, at)
}

/// The slot of a name's file: the lowest in use that has the name.
pub fn find<B: FileBytes>(bytes: &B, name: &[u8]) -> Option<u32>
    ensures slot { result ≡ option_map (λ e. e.slot) (entry_of (slots_of (B.bytes bytes.now)) name.now) }
    ensures entry { entry_of (slots_of (B.bytes bytes.now)) name.now ≡ optional_entry (B.bytes bytes.now) result }
    ensures file { IfSome result (λ k. HasFile (B.bytes bytes.now) k) }
{
    for slot in 0..SLOTS {
        if slot_holds(bytes, slot, name) {
            return Some(slot);
        }
    }
    None
}

// One bit more, below the others.
pub(crate) fn with_bit(bits: u64, bit: bool) -> u64
    requires { bits < 2 ^ 63 }
    ensures { result ≡ cond bit 1 0 + 2 * bits }
{
    u64::from(bit) + 2 * bits
}

/// The slots in use: bit k for slot k.
pub fn used<B: FileBytes>(bytes: &B) -> u64
    ensures { result ≡ bits_of (map is_used (slots_of (B.bytes bytes.now))) }
{
    let mut bits = 0;
    let mut slot = SLOTS;
    while slot > 0 {
        slot -= 1;
        bits = with_bit(bits, is_in_use(bytes, SLOT_SIZE * slot));
    }
    bits
}

// Whether a slot is free.
pub(crate) fn is_free<B: FileBytes>(bytes: &B, slot: u32) -> bool
    requires { slot < slot_count }
    ensures { result ≡ not (is_in_use (B.bytes bytes.now) (slot_start slot)) }
{
    !is_in_use(bytes, SLOT_SIZE * slot)
}

/// The lowest free slot.
pub fn lowest_free<B: FileBytes>(bytes: &B) -> Option<u32>
    ensures slot { result ≡ lowest_free (slots_of (B.bytes bytes.now)) }
    ensures within { IfSome result (λ k. k < slot_count) }
{
    for slot in 0..SLOTS {
        if is_free(bytes, slot) {
            return Some(slot);
        }
    }
    None
}
