ghost use Rattle.std.specs.Prelude.{◌≡◌, ℕ, true};
ghost use Rattle.file_model.specs.File.{with_base};
ghost use Rattle.file_model.specs.Slots.{with_slot};
ghost use Rattle.file_model.specs.Reconcile.{with_bases};
ghost use Rattle.file_image.specs.Lookup.{file_in, HasFile};

use crate::file_bytes::FileBytes;
use crate::header::SLOTS;
use crate::lookup::is_free;
use crate::writing::{read_header, write_header};

// A slot's file with its base.
fn write_base<B: FileBytes>(bytes: &mut B, slot: u32)
    requires slot { HasFile (B.bytes bytes.old) slot }
    requires ready { B.has_header bytes.old slot ≡ true }
    ensures bytes { B.bytes bytes.new ≡ with_slot (B.bytes bytes.old) slot (with_base (file_in (B.bytes bytes.old) slot)) }
    ensures kept { B.keeps bytes.old bytes.new }
{
    let mut header = read_header(bytes, slot);
    header.base = header.version;
    header.length_at_base = header.length;
    write_header(bytes, slot, &header);
}

/// Gives each file its version and its length as base. The headers of the slots in use may be written.
pub fn mark_base<B: FileBytes>(bytes: &mut B)
    requires { (k : ℕ) → HasFile (B.bytes bytes.old) k → B.has_header bytes.old k ≡ true }
    ensures bytes { B.bytes bytes.new ≡ with_bases (B.bytes bytes.old) }
    ensures kept { B.keeps bytes.old bytes.new }
{
    for slot in 0..SLOTS {
        if is_free(bytes, slot) {
            continue;
        }
        write_base(bytes, slot);
    }
}
