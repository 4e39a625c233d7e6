//! Definitions of images of a root's memory in the formats DTI1 and DTI2, for contracts, and the laws that
//! join their grammar to reading from left to right: `specs/` has the definitions.
#![tactic(auto)]

mod error;
mod format;
mod laws;

pub use error::{ImageError, ImageErrorKind};
pub use format::Format;
pub use laws::{one_image, read_again, reads_exactly_images, refuses_exactly_the_rest, spellings};
