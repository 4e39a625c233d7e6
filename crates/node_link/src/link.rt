ghost use Rattle.std.specs.Prelude.{◌≡◌, ◌<◌, ◌≤◌, ◌+◌, ◌++◌, ◌∷◌, [], IfOk, None, OnErr, OnOk, Ok, length, option_map};
ghost use Rattle.link_model.specs.Carrying.{IsCarrierOf, new_carrier, turns_of, with_one_more};
ghost use Rattle.link_model.specs.Ends.{Sending};
ghost use Rattle.link_model.specs.Frame.{no_number};
ghost use Rattle.link_model.specs.Link as links;
ghost use Rattle.link_model.specs.Link.{after_all};
ghost use Rattle.node_link.specs.Events.{events_of};

use crate::event::LinkEvent;
use crate::frame::Frame;
use crate::receiver::Receiver;
use crate::sender::{Offered, Sender};
use crate::way::Way;
use link_model::MOST_TURNS;
use std::alloc::{AllocError, Global};
use std::marker::Model;

// The most frames that a link may have sent when a parcel sets out: 16 more are below 2^64.
const MOST_FRAMES: u64 = 0xFFFF_FFFF_FFFF_FFEF;

/// A link over which parcels go one by one: each has arrived, and has its receipt, before the next is offered. Its two ends are kept between parcels, and the frame
/// that was sent last, which may come once more. Contracts see the last number of its row, how many parcels and frames went over it, and what happened behind the offer
/// of the last parcel.
#[derive(Drop)]
pub struct Link {
    sender: Sender,
    receiver: Receiver,
    number: u32,
    frames: u64,
    last: Option<Frame>,
    events: Vec<LinkEvent>,
}

impl Model for Link {
    ghost use Rattle.std.specs.Prelude.{◌≡◌, ◌≤◌, []};
    ghost use Rattle.link_model.specs.Carrying.{Carrier};
    ghost use Rattle.node_link.specs.Events.{IsLast, events_of};

    ghost Value = { Carrier };

    ghost view = { λ l. record { number = l.number; carried = l.receiver; frames = l.frames; events = events_of l.events.items } };

    ghost invariant = { λ l. (l.sender ≡ record { base = l.receiver; kept = [] }) × (l.receiver ≤ l.frames) × IsLast l.receiver l.frames l.last };
}

// The frame of a parcel that is offered to an end without parcels.
fn offered(alloc: Global, sender: &mut Sender, parcel: &[u8]) -> Result<Frame, AllocError>
    requires empty { sender.old.kept ≡ [] }
    requires numbered { sender.old.base < no_number }
    ensures frame { IfOk result (λ f. f ≡ (sender.old.base, parcel.now)) }
    ensures sender { OnOk result (sender.new ≡ record { base = sender.old.base; kept = parcel.now ∷ [] }) }
{
    let Offered::Taken(number) = sender.offer(alloc, parcel)? else {
        unreachable!()
    };
    let Some(bytes) = sender.frame(alloc, number)? else {
        unreachable!()
    };
    Ok(Frame::of(number, parcel, bytes))
}

// The receipt of the parcel that has arrived comes back.
fn acknowledge(sender: &mut Sender, receiver: &Receiver)
    requires arrived { receiver.now ≡ sender.old.base + 1 }
    requires kept { length sender.old.kept ≡ 1 }
    requires numbered { receiver.now < 18446744073709551616 }
    ensures { sender.new ≡ record { base = receiver.now; kept = [] } }
{
    if sender.receipt(&receiver.answer()).is_err() {
        unreachable!()
    }
}

impl Link {
    /// A link over which nothing has gone, with the seed of its row of numbers.
    pub fn new(alloc: Global, seed: u32) -> Link
        ensures { result ≡ new_carrier seed }
    {
        Link {
            sender: Sender::new(alloc),
            receiver: Receiver::new(),
            number: seed,
            frames: 0,
            last: None,
            events: Vec::new(alloc),
        }
    }

    /// What happened on the link behind the offer of the last parcel that went over it.
    pub fn events(&self) -> &[LinkEvent]
        ensures { events_of result.now ≡ self.now.events }
    {
        &self.events
    }

    // The link behind one parcel more, and the parcel as it arrived.
    fn go_over(&self, alloc: Global, parcel: &[u8]) -> Result<(Vec<u8>, Link), AllocError>
        requires room { self.now.frames + 16 < 18446744073709551616 }
        ensures parcel { IfOk result (λ r. r.0.items ≡ parcel.now) }
        ensures link { IfOk result (λ r. r.1 ≡ with_one_more self.now) }
    {
        let mut sender = self.sender.copy(alloc)?;
        let frame = offered(alloc, &mut sender, parcel)?;
        let mut way = Way {
            alloc,
            receiver: self.receiver.copy(),
            arrived: None,
            number: self.number,
            frames: self.frames,
            events: Vec::new(alloc),
        };
        way.turns(MOST_TURNS - 1, &frame, self.last.as_ref())?;
        let Some(arrived) = way.arrived.take() else {
            unreachable!()
        };
        way.events.push(LinkEvent::Answer)?;
        way.events.push(LinkEvent::Receipt(frame.number()))?;
        acknowledge(&mut sender, &way.receiver);
        let link = Link {
            sender,
            receiver: way.receiver,
            number: way.number,
            frames: way.frames,
            last: Some(frame),
            events: way.events,
        };
        Ok((arrived, link))
    }

    /// Has a parcel go over the link: it is offered, its frame is sent, once or more, as the row of numbers decides, and once it has arrived its receipt comes
    /// back. The answer is the parcel as it arrived. The one error is want of memory, or of numbers, once 2^64 - 16 frames were sent: nothing has changed then.
    pub fn carry(&mut self, alloc: Global, parcel: &[u8]) -> Result<Vec<u8>, AllocError>
        ensures parcel { IfOk result (λ v. v.items ≡ parcel.now) }
        ensures ok { OnOk result (self.new ≡ with_one_more self.old) }
        ensures err { OnErr result (self.new ≡ self.old) }
        // What happened is what events make of the link, which before and behind is at rest: its last parcel is this one.
        ensures events { OnOk result ((w : links.Link) → IsCarrierOf w self.old → IsCarrierOf (after_all (links.offer parcel.now ∷ self.new.events) w) self.new × ((after_all (links.offer parcel.now ∷ self.new.events) w).sent ≡ w.sent ++ parcel.now ∷ [])) }
    {
        if self.frames > MOST_FRAMES {
            return Err(AllocError);
        }
        match self.go_over(alloc, parcel) {
            Ok((arrived, link)) => {
                *self = link;
                Ok(arrived)
            }
            Err(error) => Err(error),
        }
    }
}
