ghost use Rattle.std.specs.Prelude.{◌≡◌};

use fault_model::Fault;
use image_model::{ImageError, ImageErrorKind};

/// Why an image could not be read.
pub type ImageFault = Fault<ImageError>;

/// This fault of the bytes, at this offset.
pub(crate) fn bad(at: u64, kind: ImageErrorKind) -> ImageFault
    ensures { result ≡ Fault.Bad (record { at = at; kind = kind }) }
{
    Fault::Bad(ImageError { at, kind })
}
