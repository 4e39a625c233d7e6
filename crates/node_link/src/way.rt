ghost use Rattle.std.specs.Prelude.{◌≡◌, ◌<◌, ◌≤◌, ◌+◌, ◌-◌, ◌==◌, ◌++◌, ◌∷◌, [], IfOk, IsNone, None, OnOk, Some, if◌then◌else◌, length, option_map};
ghost use Rattle.bench_model.specs.Generated as generated;
ghost use Rattle.link_model.specs.Carrying as carrying;
ghost use Rattle.link_model.specs.Carrying.{arrivals, has_come, turns_taken};
ghost use Rattle.link_model.specs.Link as links;
ghost use Rattle.node_link.specs.Events.{IsBefore, bytes_of, events_of, is_first_turn};

use crate::event::LinkEvent;
use crate::fate::{fate_with, next};
use crate::frame::Frame;
use crate::receiver::Receiver;
use fault_model::Fault;
use link_model::Fate;
use std::alloc::{AllocError, Global};

/// A parcel on its way over a link: the end at which it is to arrive, what has arrived, the last number of the row that decides, how many frames the link has sent,
/// and what has happened.
#[derive(Drop)]
pub(crate) struct Way {
    pub(crate) alloc: Global,
    pub(crate) receiver: Receiver,
    pub(crate) arrived: Option<Vec<u8>>,
    pub(crate) number: u32,
    pub(crate) frames: u64,
    pub(crate) events: Vec<LinkEvent>,
}

impl Way {
    // A frame that was sent as the one of this place arrives.
    fn arrive(&mut self, frame: &Frame, place: u64) -> Result<(), AllocError>
        ensures number { self.new.number ≡ self.old.number }
        ensures frames { self.new.frames ≡ self.old.frames }
        ensures events { OnOk result (events_of self.new.events.items ≡ events_of self.old.events.items ++ links.arrive place ∷ []) }
        ensures receiver { OnOk result (self.new.receiver ≡ (if frame.now.0 == self.old.receiver then self.old.receiver + 1 else self.old.receiver)) }
        ensures arrived { OnOk result (bytes_of self.new.arrived ≡ (if frame.now.0 == self.old.receiver then Some frame.now.1 else bytes_of self.old.arrived)) }
    {
        match self.receiver.arrive(self.alloc, frame.bytes()) {
            Ok(Some(parcel)) => self.arrived = Some(parcel),
            Ok(None) => {}
            Err(Fault::Memory) => return Err(AllocError),
            Err(Fault::Bad(_)) => unreachable!(),
        }
        self.events.push(LinkEvent::Arrive(place))?;
        Ok(())
    }

    // What arrives by a turn of this fate, whose frame was sent as the one of this place, behind an earlier one.
    fn arrive_by(
        &mut self,
        fate: Fate,
        frame: &Frame,
        earlier: Option<&Frame>,
        place: u64,
    ) -> Result<(), AllocError>
        requires awaited { frame.now.0 ≡ self.old.receiver }
        requires before { IsBefore frame.now place (option_map (λ f. f.now) earlier) }
        requires none { bytes_of self.old.arrived ≡ None }
        ensures number { self.new.number ≡ self.old.number }
        ensures frames { self.new.frames ≡ self.old.frames }
        ensures events { OnOk result (events_of self.new.events.items ≡ events_of self.old.events.items ++ arrivals fate place) }
        ensures receiver { OnOk result (self.new.receiver ≡ (if has_come fate (is_first_turn frame.now.0 (option_map (λ f. f.now) earlier.entry)) then frame.now.0 + 1 else frame.now.0)) }
        ensures arrived { OnOk result (bytes_of self.new.arrived ≡ (if has_come fate (is_first_turn frame.now.0 (option_map (λ f. f.now) earlier.entry)) then Some frame.now.1 else None)) }
    {
        match fate {
            Fate::Lost => Ok(()),
            Fate::Arrives => self.arrive(frame, place),
            Fate::ArrivesTwice => {
                self.arrive(frame, place)?;
                self.arrive(frame, place)
            }
            Fate::EarlierArrives => match earlier {
                Some(earlier) => self.arrive(earlier, place - 1),
                None => Ok(()),
            },
        }
    }

    // The frame is sent once, with so many turns left behind this one.
    fn turn(&mut self, left: u32, frame: &Frame, earlier: Option<&Frame>) -> Result<(), AllocError>
        requires awaited { frame.now.0 ≡ self.old.receiver }
        requires before { IsBefore frame.now self.old.frames (option_map (λ f. f.now) earlier) }
        requires none { bytes_of self.old.arrived ≡ None }
        requires room { self.old.frames + 1 < 18446744073709551616 }
        ensures number { OnOk result (self.new.number ≡ generated.next self.old.number) }
        ensures frames { OnOk result (self.new.frames ≡ self.old.frames + 1) }
        ensures events { OnOk result (events_of self.new.events.items ≡ events_of self.old.events.items ++ links.send frame.now.0 ∷ arrivals (carrying.fate_with left (generated.next self.old.number)) self.old.frames) }
        ensures receiver { OnOk result (self.new.receiver ≡ (if has_come (carrying.fate_with left (generated.next self.old.number)) (is_first_turn frame.now.0 (option_map (λ f. f.now) earlier.entry)) then frame.now.0 + 1 else frame.now.0)) }
        ensures arrived { OnOk result (bytes_of self.new.arrived ≡ (if has_come (carrying.fate_with left (generated.next self.old.number)) (is_first_turn frame.now.0 (option_map (λ f. f.now) earlier.entry)) then Some frame.now.1 else None)) }
    {
        let place = self.frames;
        self.events.push(LinkEvent::Send(frame.number()))?;
        self.number = next(self.number);
        self.frames = place + 1;
        self.arrive_by(fate_with(left, self.number), frame, earlier, place)
    }

    /// Sends a frame turn by turn until it has arrived, with so many turns left behind the first.
    #[cycle(turns)]
    #[tactic(auto, using(crate::proofs::Numbers::number_one, crate::proofs::Numbers::number_later))]
    pub(crate) fn turns(
        &mut self,
        left: u32,
        frame: &Frame,
        earlier: Option<&Frame>,
    ) -> Result<(), AllocError>
        requires awaited { frame.now.0 ≡ self.old.receiver }
        requires before { IsBefore frame.now self.old.frames (option_map (λ f. f.now) earlier) }
        requires none { bytes_of self.old.arrived ≡ None }
        requires room { self.old.frames + left + 1 < 18446744073709551616 }
        ensures number { OnOk result (self.new.number ≡ generated.number self.old.number (turns_taken (left + 1) (is_first_turn frame.now.0 (option_map (λ f. f.now) earlier.entry)) self.old.number)) }
        ensures frames { OnOk result (self.new.frames ≡ self.old.frames + turns_taken (left + 1) (is_first_turn frame.now.0 (option_map (λ f. f.now) earlier.entry)) self.old.number) }
        ensures events { OnOk result (events_of self.new.events.items ++ links.answer ∷ links.receipt frame.now.0 ∷ [] ≡ events_of self.old.events.items ++ carrying.turns (left + 1) (is_first_turn frame.now.0 (option_map (λ f. f.now) earlier.entry)) frame.now.0 self.old.number self.old.frames) }
        ensures receiver { OnOk result (self.new.receiver ≡ frame.now.0 + 1) }
        ensures arrived { OnOk result (bytes_of self.new.arrived ≡ Some frame.now.1) }
    {
        self.turn(left, frame, earlier)?;
        if self.arrived.is_some() {
            return Ok(());
        }
        self.turns(left - 1, frame, Some(frame))
    }
}
