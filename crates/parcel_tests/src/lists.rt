ghost use Rattle.std.specs.Prelude.{◌≤◌};

use node_parcel::{ResidentPage, Residents, node_of};
use space_tree::Mem;
use std::alloc::{AllocError, Global};
use std::process::Abort;
use std::test::Fail;

// Adds a page that begins with a number.
fn add_page(alloc: Global, known: &mut Residents, number: u32) -> Result<(), AllocError> {
    let mut memory = Mem::new(alloc);
    memory.write_bytes(0, &number.to_le_bytes())?;
    match memory.page(0) {
        Some(page) => known.add(alloc, &ResidentPage::of(alloc, page)?),
        None => Ok(()),
    }
}

// A list of pages that begin with the numbers from 1 to one.
fn list_of(alloc: Global, pages: u32) -> Result<Residents, AllocError> {
    let mut known = Residents::new(alloc);
    for number in 0..pages {
        add_page(alloc, &mut known, number.wrapping_add(1))?;
    }
    Ok(known)
}

// How many pages a list has after each of three more: one that is there, and two that are not.
fn lengths_after(alloc: Global, known: &mut Residents) -> Result<[usize; 3], AllocError> {
    add_page(alloc, known, 7)?;
    let same = known.len();
    add_page(alloc, known, 100_000)?;
    let one = known.len();
    add_page(alloc, known, 100_001)?;
    Ok([same, one, known.len()])
}

#[test]
fn a_list_is_full_at_65536(rt: HostRuntime) -> Result<(), Fail> {
    let mut known = list_of(rt.alloc(), 65_535)?;
    let lengths = lengths_after(rt.alloc(), &mut known)?;
    assert_eq!(rt; lengths, [65_535, 65_536, 65_536]);
    Ok(())
}

#[test]
fn homes_are_by_the_high_byte(rt: HostRuntime) {
    for (number, home) in [(0, 0), (255, 0), (256, 1), (65_535, 63)] {
        assert_eq!(rt; node_of(number, 64), home);
    }
    assert_eq!(rt;
        [node_of(65_535, 1), node_of(65_535, 3), node_of(256, 2)],
        [0, 0, 1]
    );
}
