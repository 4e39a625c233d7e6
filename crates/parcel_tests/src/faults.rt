ghost use Rattle.std.specs.Prelude.{◌≡◌, ◌<◌, length};

use fault_model::Fault;
use node_parcel::{ParcelErrorKind, Residents, pack, unpack};
use node_store::Nodes;
use space_tree::Top;
use std::alloc::{AllocError, Global};
use std::process::Abort;
use std::test::Fail;

// The bytes before the pages, of a space that has never run.
fn header(alloc: Global) -> Result<Vec<u8>, AllocError> {
    let top = Top::fresh(alloc, 100);
    let mut parcel = pack(alloc, &top, &Residents::new(alloc))?;
    parcel.truncate(153);
    Ok(parcel)
}

// A parcel with one page, whose number, permission, form and content these bytes are, over no resident pages: the first fault.
fn fault_of_page(alloc: Global, page: &[u8]) -> Result<(u64, ParcelErrorKind), AllocError> {
    let mut parcel = header(alloc)?;
    parcel.extend_from_slice(&[1, 0, 0, 0])?;
    parcel.extend_from_slice(page)?;
    fault_of(alloc, &parcel)
}

// The first fault of these bytes, over no resident pages. That there is none is told as a byte too many at 0.
fn fault_of(alloc: Global, parcel: &[u8]) -> Result<(u64, ParcelErrorKind), AllocError> {
    match unpack(alloc, parcel, &Residents::new(alloc)) {
        Err(Fault::Bad(error)) => Ok((error.at, error.kind)),
        Err(Fault::Memory) => Err(AllocError),
        Ok(_) => Ok((0, ParcelErrorKind::Trailing)),
    }
}

// A parcel without pages, of a space that has never run, with another byte at a place.
fn fault_with(alloc: Global, at: usize, byte: u8) -> Result<(u64, ParcelErrorKind), AllocError> {
    let mut parcel = header(alloc)?;
    parcel.extend_from_slice(&[0, 0, 0, 0])?;
    if let Some(place) = parcel.get_mut(at) {
        *place = byte;
    }
    fault_of(alloc, &parcel)
}

#[test]
fn fields_have_their_faults(rt: HostRuntime) -> Result<(), Fail> {
    for (at, byte, place, kind) in [
        (3, 0x33, 0, ParcelErrorKind::Magic),
        (132, 99, 132, ParcelErrorKind::Status),
        (140, 4, 140, ParcelErrorKind::Flags),
        (141, 1, 141, ParcelErrorKind::Limit),
        (145, 0, 149, ParcelErrorKind::Fuel),
        (153, 1, 157, ParcelErrorKind::Truncated),
    ] {
        assert_eq!(rt; fault_with(rt.alloc(), at, byte)?, (place, kind));
    }
    Ok(())
}

#[test]
fn pages_have_their_faults(rt: HostRuntime) -> Result<(), Fail> {
    for (page, place, kind) in [
        ([0, 0, 16, 0, 1, 0], 157, ParcelErrorKind::Page),
        ([0, 0, 0, 0, 8, 0], 161, ParcelErrorKind::Permission),
        ([0, 0, 0, 0, 1, 3], 162, ParcelErrorKind::Form),
        ([0, 0, 0, 0, 0, 0], 162, ParcelErrorKind::Zero),
        ([0, 0, 0, 0, 1, 1], 163, ParcelErrorKind::Truncated),
        ([0, 0, 0, 0, 1, 2], 163, ParcelErrorKind::Truncated),
        // Of two faults the first.
        ([0, 0, 16, 0, 8, 3], 157, ParcelErrorKind::Page),
        ([0, 0, 0, 0, 8, 3], 161, ParcelErrorKind::Permission),
    ] {
        assert_eq!(rt; fault_of_page(rt.alloc(), &page)?, (place, kind));
    }
    Ok(())
}

#[test]
fn contents_have_their_faults(rt: HostRuntime) -> Result<(), Fail> {
    let alloc = rt.alloc();
    let resident = fault_of_page(alloc, &[0, 0, 0, 0, 1, 1, 0, 0, 0, 0])?;
    assert_eq!(rt; resident, (163, ParcelErrorKind::Resident));
    let trailing = fault_of_page(alloc, &[0, 0, 0, 0, 1, 0, 7])?;
    assert_eq!(rt; trailing, (163, ParcelErrorKind::Trailing));
    Ok(())
}

// A page of zeros, by its bytes.
fn page_of_zeros(alloc: Global) -> Result<Vec<u8>, AllocError> {
    let mut page = vec![in alloc; 0; 4102]?;
    if let Some(permission) = page.get_mut(4) {
        *permission = 1;
    }
    if let Some(form) = page.get_mut(5) {
        *form = 2;
    }
    Ok(page)
}

#[test]
fn zeros_have_no_bytes_of_their_own(rt: HostRuntime) -> Result<(), Fail> {
    let page = page_of_zeros(rt.alloc())?;
    assert_eq!(rt;
        fault_of_page(rt.alloc(), &page)?,
        (163, ParcelErrorKind::Zero)
    );
    Ok(())
}

// A parcel of a page with bytes, and two with a permission alone.
fn parcel_of_three(alloc: Global) -> Result<Vec<u8>, AllocError> {
    let mut top = Top::fresh(alloc, 100);
    let mut memory = space_tree::Mem::new(alloc);
    memory.write_bytes(4096, b"one")?;
    memory.set_perm(space_tree::Pages { first: 9, count: 2 }, 3)?;
    top.memory = memory;
    pack(alloc, &top, &Residents::new(alloc))
}

// How many of the beginnings of a parcel, cut before its end, are read as one that was cut.
fn count_cut(alloc: Global, parcel: &[u8]) -> Result<usize, AllocError> {
    let mut count: usize = 0;
    for end in 0..parcel.len() {
        let (_at, kind) = fault_of(alloc, &parcel[..end])?;
        if kind == ParcelErrorKind::Truncated {
            count = count.wrapping_add(1);
        }
    }
    Ok(count)
}

#[test]
fn a_parcel_is_cut_at_every_byte(rt: HostRuntime) -> Result<(), Fail> {
    let parcel = parcel_of_three(rt.alloc())?;
    assert_eq!(rt; parcel.len(), 157 + 6 + 4096 + 2 * 6);
    assert_eq!(rt; count_cut(rt.alloc(), &parcel)?, parcel.len());
    Ok(())
}

// Whether a node refuses these bytes.
fn is_refused(nodes: &Nodes, parcel: &[u8]) -> Result<bool, AllocError>
    requires { length nodes.now.lists ≡ 2 }
{
    match nodes.receive(1, parcel, None) {
        Err(Fault::Bad(_)) => Ok(true),
        Err(Fault::Memory) => Err(AllocError),
        Ok(_) => Ok(false),
    }
}

// Sends a space from node 0 to node 1, after bytes came there that are no parcel: how many bytes its parcel has.
fn sent_after_a_fault(alloc: Global) -> Result<(bool, usize), AllocError> {
    let mut nodes = Nodes::new(alloc, 2)?;
    let top = Top::fresh(alloc, 100);
    let refused = is_refused(&nodes, b"DTP1")?;
    let parcel = nodes.send(0, 1, &top)?;
    Ok((refused, parcel.len()))
}

#[test]
fn a_bad_parcel_changes_nothing(rt: HostRuntime) -> Result<(), Fail> {
    assert_eq!(rt; sent_after_a_fault(rt.alloc())?, (true, 157));
    Ok(())
}
