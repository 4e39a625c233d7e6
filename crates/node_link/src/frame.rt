ghost use Rattle.std.specs.Prelude.{◌≡◌, ◌<◌, Ok};
ghost use Rattle.link_model.specs.Frame.{data_bytes, no_number};
ghost use Rattle.link_model.specs.Reading.{data_of};

use std::marker::Model;

/// A frame that was spelled. Contracts see the number of its parcel and the parcel's bytes, as they are read.
#[derive(Drop)]
pub(crate) struct Frame {
    number: u64,
    bytes: Vec<u8>,
}

impl Model for Frame {
    ghost use Rattle.std.specs.Prelude.{◌≡◌, ℕ, List, Ok, drop};
    ghost use Rattle.link_model.specs.Reading.{data_of};

    ghost Value = { ℕ × List ℕ };

    ghost view = { λ f. (f.number, drop 20 f.bytes.items) };

    ghost invariant = { λ f. data_of f.bytes.items ≡ Ok (f.number, drop 20 f.bytes.items) };
}

impl Frame {
    /// The frame of a parcel and its number, which are spelled by these bytes.
    pub(crate) fn of(number: u64, parcel: &[u8], bytes: Vec<u8>) -> Frame
        requires numbered { number < no_number }
        requires spelled { bytes.items ≡ data_bytes number parcel.now }
        ensures { result ≡ (number, parcel.now) }
    {
        Frame { number, bytes }
    }

    pub(crate) fn bytes(&self) -> &[u8]
        ensures { data_of result.now ≡ Ok self.now }
    {
        &self.bytes
    }

    pub(crate) fn number(&self) -> u64
        ensures { result ≡ self.now.0 }
    {
        self.number
    }
}
