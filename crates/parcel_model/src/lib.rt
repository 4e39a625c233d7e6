//! Definitions of parcels, by which a space without its children travels from one node to another, for contracts, and the laws that join
//! their grammar to reading from left to right: `specs/` has the definitions.
#![tactic(auto)]

mod error;
mod laws;

pub use error::{ParcelError, ParcelErrorKind};
pub use laws::{
    least_parcels, one_parcel, packed_again, parcels_over_longer_lists, reads_exactly_parcels,
    refuses_exactly_the_rest,
};
