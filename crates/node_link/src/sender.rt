ghost use Rattle.std.specs.Prelude.{◌≡◌, ◌≤◌, ◌<◌, ◌+◌, ◌-◌, ◌++◌, ◌∷◌, [], ℕ, IfOk, OnErr, OnOk, Ok, Some, drop, if◌then◌else◌, is_some, length, option_map, slice_get};
ghost use Rattle.std.specs.Int.{w64, to_le_bytes};
ghost use Rattle.link_model.specs.Ends.{IsSenderOf, frame_at, offered_to, with_receipt};
ghost use Rattle.link_model.specs.Link.{Link, after, offer, receipt, send};
ghost use Rattle.link_model.specs.Frame.{data_bytes};
ghost use Rattle.link_model.specs.Reading.{Reads, receipt_of};
ghost use Rattle.node_link.specs.Offers.{answer_to, behind, kept_of, told_of};

use crate::fields::read_receipt;
use link_model::{FrameError, NO_NUMBER, WINDOW};
use std::alloc::{AllocError, Global};
use std::marker::Model;

/// What becomes of a parcel that is offered.
#[derive(Clone, Copy, Debug, PartialEq, Eq)]
pub enum Offered {
    /// It is kept, under this number.
    Taken(u64),
    /// Sixteen parcels have no receipt yet.
    Full,
    /// There are no numbers left: 2^64 - 1 parcels were offered.
    Spent,
}

/// The end of a link from which parcels are sent: it keeps each under its number until its receipt comes, sixteen at most.
#[derive(Drop)]
pub struct Sender {
    // How many parcels have their receipt.
    base: u64,
    // Those behind them.
    kept: Vec<Vec<u8>>,
}

impl Model for Sender {
    ghost use Rattle.link_model.specs.Ends.{Sending, IsSending};
    ghost use Rattle.node_link.specs.Offers.{kept_of};

    ghost Value = { Sending };

    ghost view = { λ s. record { base = s.base; kept = kept_of s.kept.items } };

    ghost invariant = { λ s. IsSending (record { base = s.base; kept = kept_of s.kept.items }) };
}

// Puts a number behind bytes.
fn put_number(out: &mut Vec<u8>, number: u64) -> Result<(), AllocError>
    ensures { OnOk result (out.new.items ≡ out.old.items ++ to_le_bytes w64 number) }
{
    out.extend_from_slice(&number.to_le_bytes())
}

// The frame of a parcel.
fn framed(alloc: Global, number: u64, parcel: &[u8]) -> Result<Vec<u8>, AllocError>
    ensures { IfOk result (λ v. v.items ≡ data_bytes number parcel.now) }
{
    let mut out = Vec::new(alloc);
    out.extend_from_slice(b"DTD1")?;
    put_number(&mut out, number)?;
    put_number(&mut out, parcel.len() as u64)?;
    out.extend_from_slice(parcel)?;
    Ok(out)
}

// Takes so many from the front; sixteen stand there at most.
fn drop_front(kept: &mut Vec<Vec<u8>>, count: usize)
    requires { count ≤ length kept.old.items }
    ensures { kept.new.items ≡ drop count kept.old.items }
{
    for _ in 0..count {
        kept.remove(0);
    }
}

// Copies of parcels.
fn copied(alloc: Global, parcels: &[Vec<u8>]) -> Result<Vec<Vec<u8>>, AllocError>
    ensures { IfOk result (λ v. kept_of v.items ≡ kept_of parcels.now) }
{
    let mut out = Vec::new(alloc);
    for parcel in parcels {
        out.push(Vec::from_slice(alloc, parcel)?)?;
    }
    Ok(out)
}

impl Sender {
    /// An end from which nothing was sent.
    pub fn new(alloc: Global) -> Sender
        ensures { result ≡ record { base = 0; kept = [] } }
    {
        Sender {
            base: 0,
            kept: Vec::new(alloc),
        }
    }

    // How many parcels were offered.
    fn offered(&self) -> u64
        ensures { result ≡ offered_to self.now }
    {
        self.base + self.kept.len() as u64
    }

    /// Offers a parcel. It is kept under the next number; where sixteen have no receipt yet, or numbers are spent, nothing is changed. The one error is want
    /// of memory: nothing is changed then.
    pub fn offer(&mut self, alloc: Global, parcel: &[u8]) -> Result<Offered, AllocError>
        ensures answer { IfOk result (λ o. o ≡ answer_to self.old) }
        ensures ok { IfOk result (λ o. self.new ≡ behind o parcel.now self.old) }
        ensures err { OnErr result (self.new ≡ self.old) }
        ensures event { OnOk result ((w : Link) → IsSenderOf w self.old → IsSenderOf (after (offer parcel.now) w) self.new) }
    {
        if self.kept.len() >= WINDOW {
            return Ok(Offered::Full);
        }
        let number = self.offered();
        if number == NO_NUMBER {
            return Ok(Offered::Spent);
        }
        self.kept.push(Vec::from_slice(alloc, parcel)?)?;
        Ok(Offered::Taken(number))
    }

    /// The frame of the parcel of a number: none where it was not offered, or has its receipt.
    pub fn frame(&self, alloc: Global, number: u64) -> Result<Option<Vec<u8>>, AllocError>
        ensures bytes { IfOk result (λ o. option_map (λ v. v.items) o ≡ frame_at number self.now) }
        ensures event { (w : Link) → IsSenderOf w self.now → (after (send number) w).frames ≡ w.frames ++ (if is_some (frame_at number self.now) then number ∷ [] else []) }
    {
        if number < self.base {
            return Ok(None);
        }
        match self.kept.get((number - self.base) as usize) {
            Some(parcel) => Ok(Some(framed(alloc, number, parcel)?)),
            None => Ok(None),
        }
    }

    /// Takes a receipt that came: the parcels below its number have arrived, and are kept no longer. Bytes that are refused change nothing.
    pub fn receipt(&mut self, frame: &[u8]) -> Result<(), FrameError>
        ensures read { (n : ℕ) → receipt_of (offered_to self.old) frame.now ≡ Ok n → self.new ≡ with_receipt n self.old }
        ensures err { OnErr result (self.new ≡ self.old) }
        ensures event { (w : Link) (k n : ℕ) → IsSenderOf w self.old → receipt_of (offered_to self.old) frame.now ≡ Ok n → slice_get w.receipts k ≡ Some n → IsSenderOf (after (receipt k) w) self.new }
        ensures told { Reads (λ u. u) result (told_of (receipt_of (offered_to self.old) frame.now)) }
    {
        let number = read_receipt(self.offered(), frame)?;
        if number > self.base {
            drop_front(&mut self.kept, (number - self.base) as usize);
            self.base = number;
        }
        Ok(())
    }

    /// An equal end.
    pub fn copy(&self, alloc: Global) -> Result<Sender, AllocError>
        ensures { IfOk result (λ s. s ≡ self.now) }
    {
        Ok(Sender {
            base: self.base,
            kept: copied(alloc, &self.kept)?,
        })
    }
}
