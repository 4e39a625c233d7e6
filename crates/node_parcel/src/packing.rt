ghost use Rattle.std.specs.Prelude.{◌≡◌, ◌++◌, ◌∷◌, ◌+◌, ◌-◌, ◌*◌, ◌<◌, ◌≤◌, ◌^◌, ℕ, false, List, [], length, slice_index, IfOk, OnOk, None};
ghost use Rattle.std.specs.Int.{w32, to_le_bytes};
ghost use Rattle.std.specs.List.{flat_map};
ghost use Rattle.memory_model.specs.Ranges.{IsUsed};
ghost use Rattle.memory_model.specs.Sizes.{pages};
ghost use Rattle.page_store.specs.Bytes.{bytes_of};
ghost use Rattle.space_model.specs.Block.{block_of};
ghost use Rattle.space_mem.specs.Held as held;
ghost use Rattle.parcel_model.specs.Parcel.{block_spelling, content_spelling, entry_spelling, is_there, memory_spelling, snapshot_spelling, TopOf};
ghost use Rattle.parcel_model.specs.Packing.{content_of, entries_from, entries_of, entry_of, is_unused, number_of, numbered, page_bytes, parcel_bytes, parcel_of, snapshot_entries, IsBoundedIn, IsPackable};
ghost use Rattle.node_parcel.specs.Bare.{bare_entries, bare_entry};
ghost use Rattle.parcel_model.specs.Sent.{page_of_entry, pages_sent, whole_page, whole_pages, whole_pages_in};

use crate::resident::{ResidentPage, is_zero_page};
use crate::residents::Residents;
use page_store::PageRef;
use space_mem::Mem;
use space_tree::Top;
use std::alloc::{AllocError, Global};

/// A parcel, and the pages whose bytes stand in it, in their order.
#[derive(Drop)]
pub struct Packed {
    pub bytes: Vec<u8>,
    pub whole: Vec<ResidentPage>,
}

// Adds a number, the least byte first.
fn put_u32(out: &mut Vec<u8>, number: u32) -> Result<(), AllocError>
    ensures { OnOk result (out.new.items ≡ out.old.items ++ to_le_bytes w32 number) }
{
    out.extend_from_slice(&number.to_le_bytes())
}

// Adds numbers, one after the other.
fn put_words(out: &mut Vec<u8>, words: &[u32]) -> Result<(), AllocError>
    ensures { OnOk result (out.new.items ≡ out.old.items ++ flat_map (to_le_bytes w32) words.now) }
{
    for word in words {
        put_u32(out, *word)?;
    }
    Ok(())
}

// Adds the register block.
#[tactic(auto, using(crate::proofs::Written::block_parts))]
fn put_block(out: &mut Vec<u8>, top: &Top) -> Result<(), AllocError>
    ensures { OnOk result (out.new.items ≡ out.old.items ++ block_spelling (block_of top.now)) }
{
    let block = top.block();
    put_u32(out, block.pc)?;
    put_words(out, &block.x)?;
    put_u32(out, block.cause)?;
    put_u32(out, block.value)
}

// Adds a form and its content.
fn put_formed(out: &mut Vec<u8>, form: u8, content: &[u8]) -> Result<(), AllocError>
    ensures { OnOk result (out.new.items ≡ out.old.items ++ form ∷ content.now) }
{
    out.push(form)?;
    out.extend_from_slice(content)
}

// Adds the form and the content of a page that is not all 0, and is looked for in the list; and the page to the others whose bytes stand there.
// It is near the pages that were found before, so where it was found is where the next one is looked for.
fn put_searched(
    alloc: Global,
    out: &mut Vec<u8>,
    whole: &mut Vec<ResidentPage>,
    near: &mut u32,
    page: &PageRef,
    known: &Residents,
) -> Result<(), AllocError>
    ensures written { OnOk result (out.new.items ≡ out.old.items ++ content_spelling (numbered (number_of known.now (bytes_of page.now)) (bytes_of page.now))) }
    ensures whole { OnOk result (whole.new.items ≡ whole.old.items ++ whole_page (numbered (number_of known.now (bytes_of page.now)) (bytes_of page.now))) }
{
    let page = ResidentPage::of(alloc, page)?;
    match known.number_of(&page) {
        Some(number) => {
            *near = number.wrapping_add(1);
            put_formed(out, 1, &number.to_le_bytes())
        }
        None => {
            *near = near.wrapping_add(1);
            put_formed(out, 2, page.bytes())?;
            whole.push(page)?;
            Ok(())
        }
    }
}

// Adds the form and the content of a page that is not all 0: the page of the number that was guessed is looked at before any other.
fn put_some(
    alloc: Global,
    out: &mut Vec<u8>,
    whole: &mut Vec<ResidentPage>,
    near: &mut u32,
    page: &PageRef,
    known: &Residents,
) -> Result<(), AllocError>
    ensures written { OnOk result (out.new.items ≡ out.old.items ++ content_spelling (numbered (number_of known.now (bytes_of page.now)) (bytes_of page.now))) }
    ensures whole { OnOk result (whole.new.items ≡ whole.old.items ++ whole_page (numbered (number_of known.now (bytes_of page.now)) (bytes_of page.now))) }
{
    let number = *near;
    if known.has_at(number, page) {
        *near = number.wrapping_add(1);
        return put_formed(out, 1, &number.to_le_bytes());
    }
    put_searched(alloc, out, whole, near, page, known)
}

// Adds the form and the content of a page, and the page to the others whose bytes stand there.
fn put_content(
    alloc: Global,
    out: &mut Vec<u8>,
    whole: &mut Vec<ResidentPage>,
    near: &mut u32,
    memory: &Mem,
    page: u32,
    known: &Residents,
) -> Result<(), AllocError>
    ensures written { OnOk result (out.new.items ≡ out.old.items ++ content_spelling (content_of known.now (page_bytes memory.now.memory page))) }
    ensures whole { OnOk result (whole.new.items ≡ whole.old.items ++ whole_page (content_of known.now (page_bytes memory.now.memory page))) }
{
    let Some(bytes) = memory.page(page) else {
        return put_formed(out, 0, &[]);
    };
    if is_zero_page(bytes) {
        return put_formed(out, 0, &[]);
    }
    put_some(alloc, out, whole, near, bytes, known)
}

// Adds a page.
fn put_entry(
    alloc: Global,
    out: &mut Vec<u8>,
    whole: &mut Vec<ResidentPage>,
    near: &mut u32,
    memory: &Mem,
    page: u32,
    known: &Residents,
) -> Result<(), AllocError>
    ensures written { OnOk result (out.new.items ≡ out.old.items ++ entry_spelling (entry_of known.now memory.now.memory page)) }
    ensures whole { OnOk result (whole.new.items ≡ whole.old.items ++ page_of_entry (entry_of known.now memory.now.memory page)) }
{
    put_u32(out, page)?;
    out.push(memory.perm(page))?;
    put_content(alloc, out, whole, near, memory, page, known)
}

// Adds a page that has a permission, and of which no byte is looked for.
fn put_bare_entry(out: &mut Vec<u8>, page: u32, permission: u8) -> Result<(), AllocError>
    ensures { OnOk result (out.new.items ≡ out.old.items ++ entry_spelling (bare_entry permission page)) }
{
    put_u32(out, page)?;
    out.extend_from_slice(&[permission, 0])
}

// Adds the pages from one to before another, each with this permission and with no bytes.
fn put_bare(out: &mut Vec<u8>, permission: u8, first: u32, end: u32) -> Result<(), AllocError>
    ensures { OnOk result (out.new.items ≡ out.old.items ++ flat_map entry_spelling (bare_entries permission first (end - first))) }
{
    for page in first..end {
        put_bare_entry(out, page, permission)?;
    }
    Ok(())
}

// Where pages in a row end that are used, from one that is used on: those of which no bytes are kept are found at once.
fn used_end(memory: &Mem, page: u32) -> u32
    requires page { page < pages }
    requires used { IsUsed memory.now.memory page }
    ensures above { page < result }
    ensures below { result ≤ pages }
    ensures used { (q : ℕ) → page ≤ q → q < result → is_unused memory.now.memory q ≡ false }
{
    memory.bare_end(page).max(page + 1)
}

// How many pages have a permission or a byte other than 0.
fn count_pages(memory: &Mem) -> u32
    ensures { (known : List (List ℕ)) → result ≡ length (entries_of known memory.now.memory) }
{
    let mut count = 0;
    let mut from = 0;
    while let Some(page) = memory.next_page(from) {
        from = used_end(memory, page);
        count += from - page;
    }
    count
}

// Adds a page that is used, with the pages behind it that are like it where no bytes are kept of them: the page behind those.
fn put_row(
    alloc: Global,
    out: &mut Vec<u8>,
    whole: &mut Vec<ResidentPage>,
    near: &mut u32,
    memory: &Mem,
    page: u32,
    known: &Residents,
) -> Result<u32, AllocError>
    requires page { page < pages }
    requires used { IsUsed memory.now.memory page }
    ensures above { IfOk result (λ end. page < end) }
    ensures below { IfOk result (λ end. end ≤ pages) }
    ensures written { IfOk result (λ end. out.new.items ≡ out.old.items ++ flat_map entry_spelling (entries_from known.now memory.now.memory page (end - page))) }
    ensures whole { IfOk result (λ end. whole.new.items ≡ whole.old.items ++ whole_pages (entries_from known.now memory.now.memory page (end - page))) }
{
    let end = memory.bare_end(page);
    if page < end {
        put_bare(out, memory.perm(page), page, end)?;
        return Ok(end);
    }
    put_entry(alloc, out, whole, near, memory, page, known)?;
    Ok(page + 1)
}

// Adds the count of a memory's pages, and each of them.
fn put_memory(
    alloc: Global,
    out: &mut Vec<u8>,
    whole: &mut Vec<ResidentPage>,
    memory: &Mem,
    known: &Residents,
) -> Result<(), AllocError>
    ensures written { OnOk result (out.new.items ≡ out.old.items ++ memory_spelling (entries_of known.now memory.now.memory)) }
    ensures whole { OnOk result (whole.new.items ≡ whole.old.items ++ whole_pages (entries_of known.now memory.now.memory)) }
{
    put_u32(out, count_pages(memory))?;
    let mut near = 0;
    let mut from = 0;
    while let Some(page) = memory.next_page(from) {
        from = put_row(alloc, out, whole, &mut near, memory, page, known)?;
    }
    Ok(())
}

// Adds a snapshot, where there is one.
fn put_snapshot(
    alloc: Global,
    out: &mut Vec<u8>,
    whole: &mut Vec<ResidentPage>,
    snapshot: &Option<Mem>,
    known: &Residents,
) -> Result<(), AllocError>
    ensures written { OnOk result (out.new.items ≡ out.old.items ++ snapshot_spelling (snapshot_entries known.now (held.memory_in snapshot.now))) }
    ensures whole { OnOk result (whole.new.items ≡ whole.old.items ++ whole_pages_in (snapshot_entries known.now (held.memory_in snapshot.now))) }
{
    match snapshot {
        Some(snapshot) => put_memory(alloc, out, whole, snapshot, known),
        None => Ok(()),
    }
}

// 1 for a snapshot, 2 for a limit.
fn flags_of(top: &Top) -> u8
    ensures { result ≡ is_there top.now.snapshot + 2 * is_there top.now.limit }
{
    u8::from(top.snapshot.is_some()) + 2 * u8::from(top.limit.is_some())
}

// What every snapshot keeps.
fn snapshot_bounds(snapshot: &Option<Mem>)
    ensures { IsBoundedIn (held.memory_in snapshot.now) }
{
    if let Some(memory) = snapshot {
        memory.bounds();
    }
}

// What every register block keeps.
fn block_bounds(pc: u32, x: &[u32], cause: u32, value: u32)
    ensures { (k : ℕ) → slice_index (pc ∷ (x.now ++ cause ∷ value ∷ [])) k < 2 ^ 32 }
{}

// What every register file keeps.
fn register_bounds(x: &[u32; 32])
    ensures { length x.now ≡ 32 }
{}

// What every number keeps.
fn number_bounds(number: u32)
    ensures { number < 2 ^ 32 }
{}

// What every top without devices keeps, so that it may travel.
fn may_travel(top: &Top)
    requires { top.now.devices ≡ None }
    ensures { IsPackable top.now }
{
    let x = top.registers.x();
    register_bounds(x);
    let block = top.block();
    block_bounds(block.pc, &block.x, block.cause, block.value);
    number_bounds(top.limit.unwrap_or(0));
    top.memory.bounds();
    snapshot_bounds(&top.snapshot);
}

// The parcel of a top without devices, and the pages whose bytes stand in it.
fn written(alloc: Global, top: &Top, known: &Residents) -> Result<Packed, AllocError>
    requires { top.now.devices ≡ None }
    ensures bytes { IfOk result (λ p. p.bytes.items ≡ parcel_bytes known.now top.now) }
    ensures whole { IfOk result (λ p. p.whole.items ≡ pages_sent (parcel_of known.now top.now)) }
{
    let mut bytes = Vec::new(alloc);
    let mut whole = Vec::new(alloc);
    bytes.extend_from_slice(b"DTP2")?;
    put_block(&mut bytes, top)?;
    bytes.push(flags_of(top))?;
    put_u32(&mut bytes, top.limit.unwrap_or(0))?;
    put_u32(&mut bytes, top.fuel)?;
    put_u32(&mut bytes, top.used)?;
    put_memory(alloc, &mut bytes, &mut whole, &top.memory, known)?;
    put_snapshot(alloc, &mut bytes, &mut whole, &top.snapshot, known)?;
    Ok(Packed { bytes, whole })
}

/// The parcel of a top without devices, as `pack` writes it, with the pages whose bytes stand in it. Its one error is want of memory.
pub fn pack_to_send(alloc: Global, top: &Top, known: &Residents) -> Result<Packed, AllocError>
    requires { top.now.devices ≡ None }
    ensures bytes { IfOk result (λ p. p.bytes.items ≡ parcel_bytes known.now top.now) }
    ensures whole { IfOk result (λ p. p.whole.items ≡ pages_sent (parcel_of known.now top.now)) }
    ensures parcel { IfOk result (λ p. TopOf known.now p.bytes.items top.now) }
{
    may_travel(top);
    known.bounds();
    written(alloc, top, known)
}

/// The parcel of a top without devices: each page by the least number of a resident page with its bytes, where there is one. Read over the
/// same resident pages it gives an equal top. Its one error is want of memory.
pub fn pack(alloc: Global, top: &Top, known: &Residents) -> Result<Vec<u8>, AllocError>
    requires { top.now.devices ≡ None }
    ensures bytes { IfOk result (λ v. v.items ≡ parcel_bytes known.now top.now) }
    ensures parcel { IfOk result (λ v. TopOf known.now v.items top.now) }
{
    Ok(pack_to_send(alloc, top, known)?.bytes)
}
