//! Laws of the definitions, over all lists of bytes and of resident pages.

ghost use Rattle.std.specs.Prelude.{◌≡◌, ℕ, ◌^◌, ◌≤◌, List, [], length, ◌↔◌, Result, Ok, Err, IsErr};
ghost use Rattle.space_model.specs.Beginning.{fresh_top};
ghost use Rattle.space_model.specs.Space.{Top};
ghost use Rattle.parcel_model.specs.Parcel.{Parcel, ParcelOf, TopOf};
ghost use Rattle.parcel_model.specs.Packing.{parcel_of, parcel_bytes, IsPackable};
ghost use Rattle.parcel_model.specs.Residents.{with_residents, IsLonger};
ghost use Rattle.parcel_model.specs.Reading.{IsBytes, fault, parcel_at, top_at};
ghost use Rattle.parcel_model.specs.declared.error.ParcelErrorKind.TheVariants.{Truncated};

/// What is read from left to right is what the grammar relates to the bytes: of parcels, and of tops.
pub fn reads_exactly_parcels()
    ensures parcels { (known : List (List ℕ)) (bytes : List ℕ) (p : Parcel) → IsBytes bytes → parcel_at known bytes ≡ Ok p ↔ ParcelOf known bytes p }
    ensures tops { (known : List (List ℕ)) (bytes : List ℕ) (t : Top) → IsBytes bytes → top_at known bytes ≡ Ok t ↔ TopOf known bytes t }
{}

/// A fault is found exactly where the bytes are no parcel of any top.
pub fn refuses_exactly_the_rest()
    ensures { (known : List (List ℕ)) (bytes : List ℕ) → IsBytes bytes → IsErr (top_at known bytes) ↔ ((t : Top) → TopOf known bytes t → ⊥) }
{}

/// Over one list of resident pages bytes are those of at most one parcel, and of at most one top.
pub fn one_parcel()
    ensures parcels { (known : List (List ℕ)) (bytes : List ℕ) (p q : Parcel) → ParcelOf known bytes p → ParcelOf known bytes q → p ≡ q }
    ensures tops { (known : List (List ℕ)) (bytes : List ℕ) (t u : Top) → TopOf known bytes t → TopOf known bytes u → t ≡ u }
{}

/// The bytes that are written of a top are in the grammar, and read over the same resident pages, of which there are at most 2^32, they
/// give an equal top.
pub fn packed_again()
    ensures spelled { (known : List (List ℕ)) (t : Top) → length known ≤ 2 ^ 32 → IsPackable t → TopOf known (parcel_bytes known t) t }
    ensures read { (known : List (List ℕ)) (t : Top) → length known ≤ 2 ^ 32 → IsPackable t → top_at known (parcel_bytes known t) ≡ Ok t }
{}

/// The bytes that are a parcel of a top over a list of resident pages are one of the same top over each longer list; and a list to which
/// pages are added is longer, with its pages in their places.
pub fn parcels_over_longer_lists()
    ensures tops { (known longer : List (List ℕ)) (bytes : List ℕ) (t : Top) → IsLonger known longer → TopOf known bytes t → TopOf longer bytes t }
    ensures grown { (known added : List (List ℕ)) → IsLonger known (with_residents known added) }
{}

/// No bytes are cut short at their first field; a space that has never run takes 157 bytes.
pub fn least_parcels()
    ensures none { (known : List (List ℕ)) → top_at known [] ≡ fault 0 Truncated }
    ensures fresh { (known : List (List ℕ)) (fuel : ℕ) → length (parcel_bytes known (fresh_top fuel)) ≡ 157 }
{}
