//! What happens to two parcels, aa and bb, that go over a link one after the other, for seeds of its row of numbers.
//!
//! Where a call is refused memory it is made again: the same has to happen then.

use node_link::Link;
use node_link::LinkEvent::{self, Answer, Arrive, Receipt, Send};
use std::alloc::Global;
use std::test::Fail;

// Whether a parcel of one byte arrives as it is; a call that is refused memory is made once more.
fn is_carried(alloc: Global, link: &mut Link, byte: u8) -> bool {
    let parcel = [byte];
    match link.carry(alloc, &parcel) {
        Ok(arrived) => &*arrived == parcel.as_slice(),
        Err(_) => match link.carry(alloc, &parcel) {
            Ok(arrived) => &*arrived == parcel.as_slice(),
            Err(_) => false,
        },
    }
}

// Whether these events are behind the offers of the two parcels.
fn happens(alloc: Global, seed: u32, first: &[LinkEvent], second: &[LinkEvent]) -> bool {
    let mut link = Link::new(alloc, seed);
    is_carried(alloc, &mut link, 0xAA)
        && link.events() == first
        && is_carried(alloc, &mut link, 0xBB)
        && link.events() == second
}

#[test]
fn a_frame_arrives_twice_and_then_two_are_lost(rt: HostRuntime) -> Result<(), Fail> {
    let first = [Send(0), Arrive(0), Arrive(0), Answer, Receipt(0)];
    let second = [Send(1), Send(1), Send(1), Arrive(3), Answer, Receipt(1)];
    assert!(rt; happens(rt.alloc(), 0, &first, &second));
    Ok(())
}

#[test]
fn the_frame_of_an_earlier_parcel_arrives_once_more(rt: HostRuntime) -> Result<(), Fail> {
    let first = [
        Send(0),
        Send(0),
        Send(0),
        Arrive(2),
        Arrive(2),
        Answer,
        Receipt(0),
    ];
    let second = [
        Send(1),
        Arrive(2),
        Send(1),
        Send(1),
        Send(1),
        Arrive(6),
        Arrive(6),
        Answer,
        Receipt(1),
    ];
    assert!(rt; happens(rt.alloc(), 1, &first, &second));
    Ok(())
}

#[test]
fn a_frame_is_lost_and_the_next_arrives_twice(rt: HostRuntime) -> Result<(), Fail> {
    let first = [Send(0), Send(0), Arrive(1), Arrive(1), Answer, Receipt(0)];
    let second = [Send(1), Send(1), Arrive(3), Arrive(3), Answer, Receipt(1)];
    assert!(rt; happens(rt.alloc(), 7, &first, &second));
    Ok(())
}

#[test]
fn a_lost_frame_arrives_behind_the_next(rt: HostRuntime) -> Result<(), Fail> {
    let first = [Send(0), Arrive(0), Answer, Receipt(0)];
    let second = [Send(1), Arrive(0), Send(1), Arrive(1), Answer, Receipt(1)];
    assert!(rt; happens(rt.alloc(), 4_294_967_295, &first, &second));
    Ok(())
}

// No seed takes more turns than this one.
#[test]
fn a_ninth_frame_arrives_once_a_tenth_is_sent(rt: HostRuntime) -> Result<(), Fail> {
    let first = [
        Send(0),
        Send(0),
        Send(0),
        Send(0),
        Send(0),
        Send(0),
        Send(0),
        Send(0),
        Send(0),
        Send(0),
        Arrive(8),
        Answer,
        Receipt(0),
    ];
    let second = [Send(1), Arrive(10), Answer, Receipt(1)];
    assert!(rt; happens(rt.alloc(), 52_417, &first, &second));
    Ok(())
}
