use memory_model::Width;
use page_store::PageRef;
use std::alloc::{AllocError, Global};
use std::process::Abort;
use std::test::Fail;

fn write(page: &mut PageRef) {
    if page.is_own() {
        page.write_own_byte(4095, 1);
        page.write_own_number(8, Width::Four, 0x0403_0201);
        page.write_own_bytes(100, b"page");
    }
}

// What stands in a page after `write`, and not in its copy from before.
fn assert_written(rt: &impl Abort, page: &PageRef, other: &PageRef) {
    let tests = [page.is_zero(), other.is_zero(), page.has_bytes_of(other)];
    assert_eq!(rt; tests, [false, true, false]);
    let numbers = [page.number(10, Width::Two), page.number(4095, Width::One)];
    assert_eq!(rt; numbers, [0x0403, 1]);
    assert_eq!(rt; page.bytes()[103], b'e');
}

#[test]
fn pages(rt: HostRuntime) -> Result<(), Fail> {
    let alloc = rt.alloc();
    let mut page = PageRef::zeros(alloc)?;
    assert!(rt; page.is_zero());
    let other = page.share(alloc)?.own(alloc)?;
    write(&mut page);
    assert_written(&rt, &page, &other);
    Ok(())
}

// Two holders of a page of zeros, after 1 was written at 0 by the first.
fn shared_then_written(alloc: Global) -> Result<(PageRef, PageRef), AllocError> {
    let page = PageRef::zeros(alloc)?.freeze(alloc)?;
    let other = page.share(alloc)?;
    let mut page = page.own(alloc)?;
    page.write_own_byte(0, 1);
    Ok((page, other))
}

fn assert_apart(rt: &impl Abort, page: &PageRef, other: &PageRef) {
    assert_eq!(rt; [page.bytes()[0], other.bytes()[0]], [1, 0]);
    assert_eq!(rt; [page.is_own(), other.is_own()], [true, false]);
}

#[test]
fn shared_pages(rt: HostRuntime) -> Result<(), Fail> {
    let alloc = rt.alloc();
    let (page, other) = shared_then_written(alloc)?;
    assert_apart(&rt, &page, &other);
    let page = page.own(alloc)?;
    assert!(rt; page.is_own() && !page.is_zero());
    let other = other.own(alloc)?;
    assert!(rt; other.is_own() && other.is_zero());
    Ok(())
}
