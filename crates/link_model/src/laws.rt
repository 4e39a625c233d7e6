//! Laws of frames and of links.

ghost use Rattle.std.specs.Prelude.{◌≡◌, ◌↔◌, ◌<◌, ◌^◌, ◌++◌, ◌∷◌, [], ℕ, List, length, Ok};
ghost use Rattle.link_model.specs.Carrying.{Carrier, IsCarrierOf, turns_of, with_one_more};
ghost use Rattle.link_model.specs.Frame.{IsData, IsReceipt, no_number};
ghost use Rattle.link_model.specs.Link.{Link, Event, offer, after_all, at_rest, IsInOrder};
ghost use Rattle.link_model.specs.Reading.{IsBytes, data_of, receipt_of};

/// What is read from left to right is what the bytes spell: of parcels with their numbers, and of receipts.
pub fn reads_exactly_frames()
    ensures parcels { (bytes parcel : List ℕ) (number : ℕ) → IsBytes bytes → length bytes < 2 ^ 64 → data_of bytes ≡ Ok (number, parcel) ↔ IsData bytes number parcel }
    ensures receipts { (offered : ℕ) (bytes : List ℕ) (number : ℕ) → IsBytes bytes → offered < 2 ^ 64 → receipt_of offered bytes ≡ Ok number ↔ IsReceipt offered bytes number }
{}

/// Bytes spell at most one parcel with its number.
pub fn one_frame()
    ensures { (bytes p q : List ℕ) (n m : ℕ) → IsBytes bytes → length bytes < 2 ^ 64 → IsData bytes n p → IsData bytes m q → (n ≡ m) × (p ≡ q) }
{}

/// Whatever is lost, repeated or late: what arrived is the beginning of what was offered, in its order, each parcel once; and only parcels that
/// arrived have their receipt. A link begins at rest, with nothing sent, or with parcels that have all arrived and have their receipts.
pub fn delivered_in_order()
    ensures { (parcels : List (List ℕ)) (es : List Event) → IsInOrder (after_all es (at_rest parcels)) }
{}

/// Events may be taken in parts.
pub fn sent_in_parts()
    ensures { (before behind : List Event) (w : Link) → after_all (before ++ behind) w ≡ after_all behind (after_all before w) }
{}

/// A parcel that is offered to a link over which each earlier one has arrived arrives, whatever the numbers make of its frames: it is the last that was sent and the
/// last that arrived, and has its receipt.
pub fn goes_over()
    ensures { (w : Link) (c : Carrier) (parcel : List ℕ) → IsCarrierOf w c → c.carried < no_number
        → IsCarrierOf (after_all (offer parcel ∷ turns_of c) w) (with_one_more c) × ((after_all (offer parcel ∷ turns_of c) w).sent ≡ w.sent ++ parcel ∷ []) }
{}
