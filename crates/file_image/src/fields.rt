ghost use Rattle.std.specs.Prelude.{◌≡◌, ◌<◌, length};
ghost use Rattle.file_model.specs.Sizes.{slot_count};
ghost use Rattle.file_image.specs.Lookup.{file_in};

use crate::file_bytes::FileBytes;
use crate::header::{SLOT_SIZE, number};

// The version of a slot's file.
#[tactic(auto, unfolding(file_model::specs::Slots::file_at))]
pub(crate) fn version<B: FileBytes>(bytes: &B, slot: u32) -> u32
    requires { slot < slot_count }
    ensures { result ≡ (file_in (B.bytes bytes.now) slot).version }
{
    number(bytes, SLOT_SIZE * slot + 4)
}

// The version that it had at its base.
#[tactic(auto, unfolding(file_model::specs::Slots::file_at))]
pub(crate) fn base<B: FileBytes>(bytes: &B, slot: u32) -> u32
    requires { slot < slot_count }
    ensures { result ≡ (file_in (B.bytes bytes.now) slot).base }
{
    number(bytes, SLOT_SIZE * slot + 8)
}

// The length of its content.
#[tactic(auto, using(file_model::proofs::Lookups::content_length), unfolding(file_model::specs::Slots::file_at))]
pub(crate) fn length<B: FileBytes>(bytes: &B, slot: u32) -> u32
    requires { slot < slot_count }
    ensures { result ≡ length (file_in (B.bytes bytes.now) slot).content }
{
    number(bytes, SLOT_SIZE * slot + 12)
}

// The length that it had at its base.
#[tactic(auto, unfolding(file_model::specs::Slots::file_at))]
pub(crate) fn length_at_base<B: FileBytes>(bytes: &B, slot: u32) -> u32
    requires { slot < slot_count }
    ensures { result ≡ (file_in (B.bytes bytes.now) slot).length_at_base }
{
    number(bytes, SLOT_SIZE * slot + 16)
}

// Whether its content only grows.
#[tactic(auto, unfolding(file_model::specs::Slots::file_at))]
pub(crate) fn is_append<B: FileBytes>(bytes: &B, slot: u32) -> bool
    requires { slot < slot_count }
    ensures { result ≡ (file_in (B.bytes bytes.now) slot).append }
{
    number(bytes, SLOT_SIZE * slot + 20) % 2 == 1
}

// Whether parent and child both changed it.
#[tactic(auto, unfolding(file_model::specs::Slots::file_at))]
pub(crate) fn is_conflicted<B: FileBytes>(bytes: &B, slot: u32) -> bool
    requires { slot < slot_count }
    ensures { result ≡ (file_in (B.bytes bytes.now) slot).conflicted }
{
    number(bytes, SLOT_SIZE * slot + 20) / 2 % 2 == 1
}

// Whether it is deleted.
#[tactic(auto, unfolding(file_model::specs::Slots::file_at))]
pub(crate) fn is_deleted<B: FileBytes>(bytes: &B, slot: u32) -> bool
    requires { slot < slot_count }
    ensures { result ≡ (file_in (B.bytes bytes.now) slot).deleted }
{
    number(bytes, SLOT_SIZE * slot + 20) / 4 % 2 == 1
}
