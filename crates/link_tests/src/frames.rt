//! Faults of frames at their edges, and a window that is full.

use fault_model::Fault;
use node_link::{FrameErrorKind, Offered, Receiver, Sender};
use std::alloc::{AllocError, Global};
use std::test::Fail;

// The frame of a parcel of two bytes, the first that is offered.
const FRAME: [u8; 22] = [
    0x44, 0x54, 0x44, 0x31, 0, 0, 0, 0, 0, 0, 0, 0, 2, 0, 0, 0, 0, 0, 0, 0, 0xAA, 0xBB,
];

// The receipt for five parcels.
const RECEIPT: [u8; 12] = [0x44, 0x54, 0x4B, 0x31, 5, 0, 0, 0, 0, 0, 0, 0];

// Where a frame is refused by an end at which nothing has arrived, and why.
fn fault_of(alloc: Global, frame: &[u8]) -> Option<(u64, FrameErrorKind)> {
    match Receiver::new().arrive(alloc, frame) {
        Err(Fault::Bad(error)) => Some((error.at, error.kind)),
        _ => None,
    }
}

// The offset of the field of a parcel's frame in which so many bytes end.
fn field_at(length: usize) -> u64 {
    if length < 4 {
        0
    } else if length < 12 {
        4
    } else if length < 20 {
        12
    } else {
        20
    }
}

// An end from which so many empty parcels were offered, and the answer to one more.
fn offered(alloc: Global, count: u32) -> Result<(Sender, Offered), AllocError> {
    let mut sender = Sender::new(alloc);
    for _ in 0..count {
        sender.offer(alloc, &[])?;
    }
    let answer = sender.offer(alloc, &[])?;
    Ok((sender, answer))
}

// Where a receipt is refused by a sender, and why.
fn fault_of_receipt(sender: &mut Sender, receipt: &[u8]) -> Option<(u64, FrameErrorKind)> {
    match sender.receipt(receipt) {
        Err(error) => Some((error.at, error.kind)),
        Ok(()) => None,
    }
}

#[test]
fn a_frame_is_cut_short_at_each_of_its_bytes(rt: HostRuntime) -> Result<(), Fail> {
    for length in 0..FRAME.len() {
        let (frame, _) = FRAME.split_at(length);
        assert_eq!(rt;
            fault_of(rt.alloc(), frame),
            Some((field_at(length), FrameErrorKind::Truncated))
        );
    }
    assert_eq!(rt; fault_of(rt.alloc(), &FRAME), None);
    Ok(())
}

#[test]
fn the_greatest_length_is_cut_short(rt: HostRuntime) -> Result<(), Fail> {
    let mut frame = FRAME;
    for at in 12..20 {
        frame[at] = 0xFF;
    }
    assert_eq!(rt;
        fault_of(rt.alloc(), &frame),
        Some((20, FrameErrorKind::Truncated))
    );
    Ok(())
}

#[test]
fn no_parcel_has_the_greatest_number(rt: HostRuntime) -> Result<(), Fail> {
    let mut frame = FRAME;
    for at in 4..12 {
        frame[at] = 0xFF;
    }
    assert_eq!(rt;
        fault_of(rt.alloc(), &frame),
        Some((4, FrameErrorKind::Ahead))
    );
    Ok(())
}

#[test]
fn a_byte_behind_a_parcel_is_trailing(rt: HostRuntime) -> Result<(), Fail> {
    let mut frame = FRAME;
    frame[12] = 1;
    assert_eq!(rt;
        fault_of(rt.alloc(), &frame),
        Some((21, FrameErrorKind::Trailing))
    );
    Ok(())
}

#[test]
fn a_receipt_makes_room_and_an_older_one_changes_nothing(rt: HostRuntime) -> Result<(), Fail> {
    let alloc = rt.alloc();
    let (mut sender, answer) = offered(alloc, 16)?;
    assert_eq!(rt; answer, Offered::Full);
    assert_eq!(rt; fault_of_receipt(&mut sender, &RECEIPT), None);
    let mut older = RECEIPT;
    older[4] = 3;
    assert_eq!(rt; fault_of_receipt(&mut sender, &older), None);
    assert!(rt; sender.frame(alloc, 4)?.is_none());
    assert!(rt; sender.frame(alloc, 5)?.is_some());
    assert_eq!(rt; sender.offer(alloc, &[])?, Offered::Taken(16));
    Ok(())
}

#[test]
fn a_receipt_of_all_is_taken_and_one_more_is_ahead(rt: HostRuntime) -> Result<(), Fail> {
    let (mut sender, _) = offered(rt.alloc(), 4)?;
    let mut ahead = RECEIPT;
    ahead[4] = 6;
    assert_eq!(rt;
        fault_of_receipt(&mut sender, &ahead),
        Some((4, FrameErrorKind::Ahead))
    );
    assert_eq!(rt; fault_of_receipt(&mut sender, &RECEIPT), None);
    Ok(())
}

#[test]
fn a_byte_behind_a_receipt_is_trailing(rt: HostRuntime) -> Result<(), Fail> {
    let (mut sender, _) = offered(rt.alloc(), 4)?;
    let mut long = [0; 13];
    for at in 0..12 {
        long[at] = RECEIPT[at];
    }
    assert_eq!(rt;
        fault_of_receipt(&mut sender, &long),
        Some((12, FrameErrorKind::Trailing))
    );
    Ok(())
}
