ghost use Rattle.std.specs.Prelude.{◌≡◌, ◌++◌, ℕ, List};
ghost use Rattle.sha2.specs.Sha256.{sha256};
ghost use Rattle.sha2.specs.Hashers.{Holds256};
ghost use Rattle.report_model.specs.Digest.{memory_text, page_bytes, page_text};

use memory_model::PAGE_SIZE;
use sha2::{Digest, Sha256};
use space_tree::Mem;

const SIZE: usize = PAGE_SIZE as usize;

// The bytes of a page of which none are kept.
static ZEROS: [u8; SIZE] = [0; SIZE];

/// The bytes of a page.
#[tactic(auto, using(report_model::proofs::Pages::page_kept))]
pub fn page_bytes(memory: &Mem, page: u32) -> &[u8; SIZE]
    ensures { result.now ≡ page_bytes memory.now.memory page }
{
    match memory.page(page) {
        Some(kept) => kept.bytes(),
        None => &ZEROS,
    }
}

// Adds a page's number, permission and bytes to the message of a hasher.
fn update_with_page(hasher: &mut Sha256, memory: &Mem, page: u32)
    ensures { (message : List ℕ) → Holds256 hasher.old message → Holds256 hasher.new (message ++ page_text memory.now.memory page) }
{
    hasher.update(page.to_le_bytes());
    hasher.update([memory.perm(page)]);
    hasher.update(page_bytes(memory, page));
}

/// The digest of a memory: SHA-256 (FIPS 180-4) over each page with a permission or a byte other than 0, by rising number: its number in
/// four bytes, little endian, its permission in one, and its 4,096 bytes.
pub fn digest(memory: &Mem) -> [u8; 32]
    ensures { result ≡ sha256 (memory_text memory.now.memory) }
{
    let mut hasher = Sha256::new();
    let mut first = 0;
    while let Some(page) = memory.next_page(first) {
        update_with_page(&mut hasher, memory, page);
        first = page + 1;
    }
    hasher.finalize()
}
