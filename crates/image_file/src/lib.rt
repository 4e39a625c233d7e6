//! Images of a root's memory as files, in the formats DTI1 and DTI2.
#![tactic(auto)]

mod fault;
mod format;
mod image;
mod reading;
mod writing;

pub use fault::ImageFault;
pub use format::{greatest_byte, permission_of};
pub use image::{Image, Segment};
pub use image_model::{Format, ImageError, ImageErrorKind};
pub use reading::read_image;
pub use writing::write_image;
