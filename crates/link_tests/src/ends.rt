//! Copies of the two ends of a link go on as the ends do.

use node_link::{Offered, Receiver, Sender};
use std::alloc::{AllocError, Global};
use std::test::Fail;

// The frame of a parcel of one byte, the first that is offered.
const FRAME: [u8; 21] = [
    0x44, 0x54, 0x44, 0x31, 0, 0, 0, 0, 0, 0, 0, 0, 1, 0, 0, 0, 0, 0, 0, 0, 0xAA,
];

// Whether the frame of number 0 is this one.
fn has_frame(sender: &Sender, alloc: Global) -> Result<bool, AllocError> {
    match sender.frame(alloc, 0)? {
        Some(frame) => Ok(&*frame == FRAME.as_slice()),
        None => Ok(false),
    }
}

#[test]
fn copies_are_equal_ends(rt: HostRuntime) -> Result<(), Fail> {
    let alloc = rt.alloc();
    let mut sender = Sender::new(alloc);
    assert_eq!(rt; sender.offer(alloc, &[0xAA])?, Offered::Taken(0));
    let copy = sender.copy(alloc)?;
    assert!(rt; has_frame(&copy, alloc)?);
    assert!(rt; Receiver::new().copy().arrive(alloc, &FRAME)?.is_some());
    Ok(())
}
