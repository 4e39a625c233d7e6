use memory_model::{PAGES, Width};
use page_store::PageRef;
use snapshot::take;
use space_mem::{Mem, Pages};
use std::alloc::{AllocError, Global};
use std::process::Abort;
use std::test::Fail;

// A memory that was frozen before 9 was written at 0x2000.
fn frozen_before(mem: &mut Mem) -> Result<Mem, AllocError> {
    mem.set_perm(Pages { first: 2, count: 1 }, 3)?;
    let frozen = mem.frozen()?;
    mem.write(0x2000, 9)?;
    Ok(frozen)
}

// Page 2 as it was becomes page 5, and is 0 itself.
fn move_page(mem: &mut Mem) -> Result<(), AllocError> {
    let before = mem.frozen()?;
    mem.zero(Pages { first: 2, count: 1 })?;
    mem.copy_from(&before, 2, Pages { first: 5, count: 1 })
}

fn assert_moved(rt: &impl Abort, mem: &Mem) {
    let bytes = [mem.byte(0x2000), mem.byte(0x5000)];
    assert_eq!(rt; (bytes, [mem.perm(2), mem.perm(5)]), ([0, 9], [3, 3]));
}

#[test]
fn copies_and_zeros(rt: HostRuntime) -> Result<(), Fail> {
    let mut mem = Mem::new(rt.alloc());
    let frozen = frozen_before(&mut mem)?;
    assert_eq!(rt; [frozen.byte(0x2000), mem.byte(0x2000)], [0, 9]);
    move_page(&mut mem)?;
    assert_moved(&rt, &mem);
    Ok(())
}

// Stores at a page that may not be written, and at one that may be.
fn stores(alloc: Global) -> Result<(Mem, [bool; 2]), AllocError> {
    let mut mem = Mem::new(alloc);
    mem.set_perm(
        Pages {
            first: 17,
            count: 1,
        },
        3,
    )?;
    let refused = mem.try_store(0x1_0ffc, Width::Four, 1)?;
    let stored = mem.try_store(0x1_1ffc, Width::Four, 0x0403_0201)?;
    if mem.can_store(0x1_1ff8) {
        mem.store(0x1_1ff8, Width::Two, 0x0605)?;
    }
    Ok((mem, [refused, stored]))
}

fn assert_stored(rt: &impl Abort, mem: &Mem, stored: [bool; 2]) {
    assert_eq!(rt; stored, [false, true]);
    let word = mem.load(0x1_1ffc, Width::Four);
    let half = mem.load(0x1_1ffe, Width::Two);
    let other = mem.load(0x1_1ff8, Width::Four);
    assert_eq!(rt;
        [word, half, other],
        [Some(0x0403_0201), Some(0x0403), Some(0x0605)]
    );
}

#[test]
fn loads_and_stores(rt: HostRuntime) -> Result<(), Fail> {
    let (mem, stored) = stores(rt.alloc())?;
    assert_stored(&rt, &mem, stored);
    Ok(())
}

fn assert_text(rt: &impl Abort, mem: &Mem, read: &[u8]) {
    assert_eq!(rt; read, b"\0over\0".as_slice());
    assert_eq!(rt; [mem.next_page(0), mem.next_page(5)], [Some(3), None]);
}

#[test]
fn byte_strings(rt: HostRuntime) -> Result<(), Fail> {
    let alloc = rt.alloc();
    let mut mem = Mem::new(alloc);
    mem.write_bytes(0x3ffe, b"over")?;
    let read = mem.bytes(alloc, 0x3ffd, 6)?;
    assert_text(&rt, &mem, &read);
    Ok(())
}

// A memory that keeps zeros of page 9 and a page with a 7 as page 10, and in which both are dirty, as is page 64.
fn with_own_pages(alloc: Global) -> Result<Mem, AllocError> {
    let mut mem = Mem::new(alloc);
    mem.own(Pages { first: 9, count: 1 })?;
    let mut page = PageRef::zeros(alloc)?;
    page.write_own_byte(1, 7);
    mem.put_page(10, page)?;
    mem.mark(64)?;
    Ok(mem)
}

fn assert_own_pages(rt: &impl Abort, mem: &Mem) {
    let kept = [mem.next_kept(0, PAGES), mem.next_kept(11, PAGES)];
    let dirty = [mem.next_dirty(10), mem.next_dirty(11)];
    assert_eq!(rt; [kept, dirty], [[Some(9), None], [Some(10), Some(64)]]);
    assert_eq!(rt; mem.byte(0xa001), 7);
}

#[test]
fn own_pages(rt: HostRuntime) -> Result<(), Fail> {
    let mut mem = with_own_pages(rt.alloc())?;
    assert_own_pages(&rt, &mem);
    let snapshot = take(&mut mem)?;
    assert_eq!(rt; (mem.next_dirty(0), snapshot.byte(0xa001)), (None, 7));
    Ok(())
}

// A memory that may be read and written and has bytes in page 100 alone.
fn with_one_page(alloc: Global) -> Result<Mem, AllocError> {
    let mut mem = Mem::new(alloc);
    let all = Pages {
        first: 0,
        count: PAGES,
    };
    mem.set_perm(all, 3)?;
    mem.write(0x6_4000, 7)?;
    Ok(mem)
}

#[test]
fn bare_pages(rt: HostRuntime) -> Result<(), Fail> {
    let mem = with_one_page(rt.alloc())?;
    let ends = [mem.bare_end(0), mem.bare_end(64), mem.bare_end(100)];
    assert_eq!(rt; ends, [64, 100, 100]);
    assert_eq!(rt; [mem.bare_end(101), mem.bare_end(8192)], [128, 16_384]);
    Ok(())
}

// A memory of which seven pages are dirty, one more than stand in a list.
fn with_seven_dirty(alloc: Global) -> Result<Mem, AllocError> {
    let mut mem = Mem::new(alloc);
    mem.mark(900_000)?;
    mem.mark(3)?;
    mem.mark(700)?;
    mem.mark(64)?;
    mem.mark(8)?;
    mem.mark(130)?;
    mem.mark(65)?;
    Ok(mem)
}

#[test]
fn seven_dirty_pages(rt: HostRuntime) -> Result<(), Fail> {
    let mut mem = with_seven_dirty(rt.alloc())?;
    let low = [mem.next_dirty(0), mem.next_dirty(4), mem.next_dirty(9)];
    assert_eq!(rt; low, [Some(3), Some(8), Some(64)]);
    mem.unmark(64)?;
    mem.unmark(65)?;
    let high = [mem.next_dirty(9), mem.next_dirty(131), mem.next_dirty(701)];
    assert_eq!(rt; high, [Some(130), Some(700), Some(900_000)]);
    assert_eq!(rt; mem.next_dirty(900_001), None);
    Ok(())
}

#[test]
fn few_dirty_pages(rt: HostRuntime) -> Result<(), Fail> {
    let mut mem = Mem::new(rt.alloc());
    mem.mark(64)?;
    mem.mark(3)?;
    mem.mark(64)?;
    mem.write(0x5001, 7)?;
    let dirty = [mem.next_dirty(0), mem.next_dirty(4), mem.next_dirty(6)];
    assert_eq!(rt; dirty, [Some(3), Some(5), Some(64)]);
    mem.unmark(64)?;
    mem.unmark(3)?;
    assert_eq!(rt; [mem.next_dirty(0), mem.next_dirty(6)], [Some(5), None]);
    Ok(())
}
