ghost use Rattle.std.specs.Prelude.{◌≡◌, ◌++◌, ◌∷◌, [], ℕ, IfOk, List, OnErr, Ok, Some, drop, length, option_map, slice_get, take};
ghost use Rattle.fault_model.specs.Gives.{Gives};
ghost use Rattle.link_model.specs.Ends.{awaited_after, one_of, read_at};
ghost use Rattle.link_model.specs.Frame.{receipt_bytes};
ghost use Rattle.link_model.specs.Link.{Link, after, answer, arrive};
ghost use Rattle.link_model.specs.Reading.{data_of};

use crate::fault::FrameFault;
use crate::fields::read_data;
use fault_model::Fault;
use std::alloc::Global;
use std::marker::Model;

/// The end of a link at which parcels arrive: it takes them in the order of their numbers, each once. It keeps the number that it awaits next.
#[derive(Drop)]
pub struct Receiver {
    awaited: u64,
}

impl Model for Receiver {
    ghost use Rattle.std.specs.Prelude.{ℕ, ◌<◌, ◌^◌};

    ghost Value = { ℕ };

    ghost view = { λ r. r.awaited };

    ghost invariant = { λ r. r.awaited < 2 ^ 64 };

    ghost inverse = { λ n. record { awaited = n } };
}

// The bytes of a parcel, kept.
fn kept(alloc: Global, parcel: &[u8]) -> Result<Vec<u8>, FrameFault>
    ensures { Gives (λ v. v.items) result (Ok parcel.now) }
{
    Ok(Vec::from_slice(alloc, parcel)?)
}

impl Receiver {
    /// An end at which nothing has arrived.
    pub fn new() -> Receiver
        ensures { result ≡ 0 }
    {
        Receiver { awaited: 0 }
    }

    /// Takes a frame that arrived: its parcel, where its number is the one that is awaited, which then goes up by one; of any other number none. The
    /// bytes may be refused, or memory may run out: nothing is changed then.
    pub fn arrive(&mut self, alloc: Global, frame: &[u8]) -> Result<Option<Vec<u8>>, FrameFault>
        ensures read { Gives (option_map (λ v. v.items)) result (read_at self.old frame.now) }
        ensures ok { IfOk result (λ o. self.new ≡ awaited_after self.old (option_map (λ v. v.items) o)) }
        ensures err { OnErr result (self.new ≡ self.old) }
        ensures event { IfOk result (λ o. (w : Link) (k n : ℕ) (parcel : List ℕ) → length w.delivered ≡ self.old → slice_get w.frames k ≡ Some n → take 1 (drop n w.sent) ≡ parcel ∷ []
            → data_of frame.now ≡ Ok (n, parcel) → ((after (arrive k) w).delivered ≡ w.delivered ++ one_of (option_map (λ v. v.items) o)) × (length (after (arrive k) w).delivered ≡ self.new)) }
    {
        let (number, parcel) = match read_data(frame) {
            Ok(read) => read,
            Err(error) => return Err(Fault::Bad(error)),
        };
        if number != self.awaited {
            return Ok(None);
        }
        let taken = kept(alloc, parcel)?;
        self.awaited = number + 1;
        Ok(Some(taken))
    }

    /// The receipt of all that has arrived: it tells the number that is awaited next.
    pub fn answer(&self) -> [u8; 12]
        ensures bytes { result ≡ receipt_bytes self.now }
        ensures event { (w : Link) → length w.delivered ≡ self.now → (after answer w).receipts ≡ w.receipts ++ self.now ∷ [] }
    {
        let [a, b, c, d, e, f, g, h] = self.awaited.to_le_bytes();
        [0x44, 0x54, 0x4B, 0x31, a, b, c, d, e, f, g, h]
    }

    /// An equal end.
    pub fn copy(&self) -> Receiver
        ensures { result ≡ self.now }
    {
        Receiver {
            awaited: self.awaited,
        }
    }
}
