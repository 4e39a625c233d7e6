//! Nodes, each with a list of resident pages, between which spaces without children travel as parcels (OSDI 2010, "Efficient System-Enforced
//! Deterministic Parallelism", the section on distribution: a space migrates with the pages that its new node lacks, and both nodes keep them).
//!
//! There are 1 to 64 nodes, counted from 0, all in one process. A list has at most 65,536 pages of 4,096 bytes, no two of them equal, and only
//! grows. A parcel is packed over the list of the node that it goes to, and is read there over that list or a longer one.
#![tactic(auto)]

mod both;
mod nodes;

pub use node_parcel::{ParcelError, ParcelErrorKind, ParcelFault};
pub use nodes::Nodes;
