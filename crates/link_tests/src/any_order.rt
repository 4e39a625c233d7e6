//! Ten thousand steps of two ends: offers, frames that are sent, lost, doubled and late, and receipts that are, in an order that a row of numbers decides.

use node_link::{Offered, Receiver, Sender};
use std::alloc::{AllocError, Global};
use std::test::Fail;

// Both ends, what is on its way between them, how many parcels were offered and how many have arrived, and whether each that has arrived was the next.
#[derive(Drop)]
struct Ends {
    alloc: Global,
    sender: Sender,
    receiver: Receiver,
    frames: Vec<Vec<u8>>,
    receipts: Vec<[u8; 12]>,
    offered: u64,
    arrived: u64,
    in_order: bool,
}

fn next(number: u32) -> u32 {
    1_664_525_u32
        .wrapping_mul(number)
        .wrapping_add(1_013_904_223)
}

// Offers a parcel whose bytes are its number.
fn offer(ends: &mut Ends) -> Result<(), AllocError> {
    let parcel = ends.offered.to_le_bytes();
    if let Offered::Taken(number) = ends.sender.offer(ends.alloc, &parcel)? {
        ends.in_order = ends.in_order && number == ends.offered;
        ends.offered = ends.offered.wrapping_add(1);
    }
    Ok(())
}

// Sends a frame of one of the last parcels.
fn send(ends: &mut Ends, choice: u32) -> Result<(), AllocError> {
    let number = ends.offered.wrapping_sub(u64::from(choice % 18));
    if let Some(frame) = ends.sender.frame(ends.alloc, number)? {
        ends.frames.push(frame)?;
    }
    Ok(())
}

// One of the last frames that were sent arrives, counted from the end: perhaps not for the first time, and never mind which were sent before it.
fn arrive(ends: &mut Ends, back: usize) {
    let count = ends.frames.len();
    let Some(frame) = ends.frames.get(count.wrapping_sub(back)) else {
        return;
    };
    if let Ok(Some(parcel)) = ends.receiver.arrive(ends.alloc, frame) {
        ends.in_order = ends.in_order && &*parcel == ends.arrived.to_le_bytes().as_slice();
        ends.arrived = ends.arrived.wrapping_add(1);
    }
}

// A receipt is sent.
fn answer(ends: &mut Ends) -> Result<(), AllocError> {
    let receipt = ends.receiver.answer();
    ends.receipts.push(receipt)?;
    Ok(())
}

// One of the last receipts that were sent arrives.
fn receive(ends: &mut Ends, back: usize) {
    let count = ends.receipts.len();
    if let Some(receipt) = ends.receipts.get(count.wrapping_sub(back)) {
        ends.in_order = ends.in_order && ends.sender.receipt(receipt).is_ok();
    }
}

// A step by a number, whose upper half decides; the newest of what is on its way arrives more often than the rest.
fn step(ends: &mut Ends, number: u32) -> Result<(), AllocError> {
    let choice = number / 65_536;
    match choice % 8 {
        0 | 1 => offer(ends)?,
        2 | 3 => send(ends, choice / 8)?,
        4 | 5 => {
            let back = (choice / 8 % 40) as usize;
            arrive(ends, back);
        }
        6 => answer(ends)?,
        _ => {
            let back = (choice / 8 % 10) as usize;
            receive(ends, back);
        }
    }
    Ok(())
}

// So many steps: how many parcels have arrived, and whether all came in order.
fn after_steps(alloc: Global, count: u32) -> Result<(u64, bool), AllocError> {
    let mut ends = Ends {
        alloc,
        sender: Sender::new(alloc),
        receiver: Receiver::new(),
        frames: Vec::new(alloc),
        receipts: Vec::new(alloc),
        offered: 0,
        arrived: 0,
        in_order: true,
    };
    let mut number = 1;
    for _ in 0..count {
        number = next(number);
        step(&mut ends, number)?;
    }
    Ok((ends.arrived, ends.in_order))
}

#[test]
fn whatever_happens_parcels_arrive_in_order(rt: HostRuntime) -> Result<(), Fail> {
    let (arrived, in_order) = after_steps(rt.alloc(), 10_000)?;
    assert!(rt; in_order);
    assert!(rt; arrived > 90);
    Ok(())
}
