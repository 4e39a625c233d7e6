ghost use Rattle.std.specs.Prelude.{◌≡◌, ◌<◌, ◌≤◌, ◌+◌, ◌%◌, true};
ghost use Rattle.file_model.specs.Sizes.{slot_count, slot_size, all_slots_size, content_offset};
ghost use Rattle.file_model.specs.Slots.{slot_start, bytes_from, with_bytes, with_slot};
ghost use Rattle.file_model.specs.Reconcile as reconciling;
ghost use Rattle.file_image.specs.Lookup.{file_in, HasFile};
ghost use Rattle.file_image.specs.Spared.{HasFirst, content_in};

use crate::editing::next_version;
use crate::fields::{length, length_at_base};
use crate::file_bytes::FileBytes;
use crate::header::{CONTENT, PAGE_SIZE, SLOT_SIZE, rest_of_page};
use crate::writing::{read_header, write_bytes, write_header};

// Copies bytes of one page of a child's slots into a slot of its parent, where the child keeps them as a slice or else through a buffer.
fn copy_piece<P: FileBytes, C: FileBytes>(
    parent: &mut P,
    slot: u32,
    offset: u32,
    child: &C,
    from: u32,
    count: u32,
)
    requires slot { slot < slot_count }
    requires page { from % content_offset + count ≤ content_offset }
    requires within { offset + count ≤ slot_size }
    requires from { from < all_slots_size }
    requires ready { P.is_ready parent.old slot ≡ true }
    requires beyond { content_offset + P.spared parent.old slot ≤ offset }
    ensures bytes { P.bytes parent.new ≡ with_bytes (P.bytes parent.old) (slot_start slot + offset) (bytes_from (C.bytes child.now) from count) }
    ensures kept { P.keeps parent.old parent.new }
{
    match child.lent_run(from, count) {
        Some(run) => write_bytes(parent, slot, offset, run),
        None => {
            let mut buffer = [0; PAGE_SIZE as usize];
            let piece = &mut buffer[..count as usize];
            child.read_run(from, piece);
            write_bytes(parent, slot, offset, piece);
        }
    }
}

// Copies bytes of a child's slots into a slot of its parent, page by page of the child.
fn copy_bytes<P: FileBytes, C: FileBytes>(
    parent: &mut P,
    slot: u32,
    offset: u32,
    child: &C,
    from: u32,
    count: u32,
)
    requires slot { slot < slot_count }
    requires within { offset + count ≤ slot_size }
    requires from { from + count ≤ all_slots_size }
    requires ready { P.is_ready parent.old slot ≡ true }
    requires beyond { content_offset + P.spared parent.old slot ≤ offset }
    ensures bytes { P.bytes parent.new ≡ with_bytes (P.bytes parent.old) (slot_start slot + offset) (bytes_from (C.bytes child.now) from count) }
    ensures ready { P.is_ready parent.new slot ≡ true }
    ensures kept { P.keeps parent.old parent.new }
{
    let mut done = 0;
    while done < count {
        let at = from + done;
        let piece = (rest_of_page(at) as u32).min(count - done);
        copy_piece(parent, slot, offset + done, child, at, piece);
        done += piece;
    }
}

// The parent's slot gets the child's file, with this base; what it has of the content is passed over.
pub(crate) fn take_file<P: FileBytes, C: FileBytes>(
    parent: &mut P,
    to: u32,
    child: &C,
    slot: u32,
    base: u32,
    length_at_base: u32,
)
    requires to { to < slot_count }
    requires slot { HasFile (C.bytes child.now) slot }
    requires ready { P.is_ready parent.old to ≡ true }
    requires spared { HasFirst (content_in (P.bytes parent.old) to) (P.spared parent.old to) (file_in (C.bytes child.now) slot).content }
    ensures bytes { P.bytes parent.new ≡ with_slot (P.bytes parent.old) to (reconciling.child_file (file_in (C.bytes child.now) slot) base length_at_base) }
    ensures kept { P.keeps parent.old parent.new }
{
    let mut header = read_header(child, slot);
    header.base = base;
    header.length_at_base = length_at_base;
    write_header(parent, to, &header);
    let spare = parent.spare(to);
    copy_bytes(
        parent,
        to,
        CONTENT + spare,
        child,
        SLOT_SIZE * slot + CONTENT + spare,
        header.length - spare,
    );
}

// The parent's file is marked conflicted.
pub(crate) fn mark_conflicted<P: FileBytes>(parent: &mut P, to: u32)
    requires to { HasFile (P.bytes parent.old) to }
    requires ready { P.is_ready parent.old to ≡ true }
    ensures bytes { P.bytes parent.new ≡ with_slot (P.bytes parent.old) to (reconciling.with_conflict (file_in (P.bytes parent.old) to)) }
    ensures kept { P.keeps parent.old parent.new }
{
    let mut header = read_header(parent, to);
    header.version = next_version(header.version);
    header.conflicted = true;
    header.deleted = false;
    write_header(parent, to, &header);
}

// What the child added to a file since its base comes behind the parent's content.
pub(crate) fn add_growth<P: FileBytes, C: FileBytes>(parent: &mut P, to: u32, child: &C, slot: u32)
    requires to { HasFile (P.bytes parent.old) to }
    requires slot { HasFile (C.bytes child.now) slot }
    requires joinable { reconciling.are_joinable (file_in (C.bytes child.now) slot) (file_in (P.bytes parent.old) to) ≡ true }
    requires ready { P.is_ready parent.old to ≡ true }
    requires all { P.spared parent.old to ≡ 0 }
    ensures bytes { P.bytes parent.new ≡ with_slot (P.bytes parent.old) to (reconciling.with_addition (file_in (C.bytes child.now) slot) (file_in (P.bytes parent.old) to)) }
    ensures kept { P.keeps parent.old parent.new }
{
    let mut header = read_header(parent, to);
    let end = header.length;
    let from = length_at_base(child, slot);
    let count = length(child, slot) - from;
    header.version = next_version(header.version);
    header.length = end + count;
    write_header(parent, to, &header);
    copy_bytes(
        parent,
        to,
        CONTENT + end,
        child,
        SLOT_SIZE * slot + CONTENT + from,
        count,
    );
}
