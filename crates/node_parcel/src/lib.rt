//! Parcels: a space without its children and without devices as bytes, over the list of resident pages of the node that it comes to
//! (OSDI 2010, "Efficient System-Enforced Deterministic Parallelism", the section on distribution: the high bits of a child's number name a
//! node, and a space migrates there with the pages that the node lacks).
//!
//! A child number is 0 to 65,535, and there are 1 to 64 nodes, from 0 on. A list has at most 65,536 resident pages of 4,096 bytes, no two of
//! them equal, counted from 0. A parcel has 157 bytes at least: the mark `DTP2`, the register block, flags, limit, fuel and used in events, the
//! pages of the memory and those of the snapshot, in numbers with the least byte first. A page takes 6 bytes, and 4 or 4,096 more.
//!
//! `pack` fails for want of memory alone. `unpack` answers the first fault of the bytes, from the left, with its offset, or want of memory.
#![tactic(auto)]

mod fault;
mod fields;
mod header;
mod home;
mod marking;
mod packing;
mod placing;
mod resident;
mod residents;
mod runs;
mod spans;
mod unpacking;

pub use fault::ParcelFault;
pub use home::node_of;
pub use packing::{Packed, pack, pack_to_send};
pub use parcel_model::{ParcelError, ParcelErrorKind};
pub use resident::ResidentPage;
pub use residents::Residents;
pub use unpacking::unpack;
