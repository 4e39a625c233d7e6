ghost use Rattle.std.specs.Prelude.{◌≡◌};

use std::fmt;

/// What is wrong with the bytes of an image.
#[derive(Clone, Copy, Debug, PartialEq, Eq)]
pub enum ImageErrorKind {
    /// A field, or a segment's bytes, does not fit in what is left.
    Truncated,
    /// The first four bytes are neither `DTI1` nor `DTI2`.
    Magic,
    /// There are more than 64 segments.
    Count,
    /// A segment's first page is not above the last page of the segment before.
    Order,
    /// The byte of a permission is above 3 in the format DTI1, or above 7 in DTI2.
    Permission,
    /// A segment has no bytes.
    Length,
    /// A segment's address plus its length is above 2^32.
    Range,
    /// A byte follows the last segment.
    Trailing,
}

/// The first fault of the bytes of an image.
#[derive(Clone, Copy, Debug, PartialEq, Eq)]
pub struct ImageError {
    /// The offset of the field, from the first byte.
    pub at: u64,
    /// What is wrong there.
    pub kind: ImageErrorKind,
}

impl ImageErrorKind {
    ghost use Rattle.image_model.specs.Names.{kind_name};

    /// The kind's name in lower case.
    pub fn name(self) -> &'static str
        ensures { result.now ≡ kind_name self }
    {
        match self {
            ImageErrorKind::Truncated => "truncated",
            ImageErrorKind::Magic => "magic",
            ImageErrorKind::Count => "count",
            ImageErrorKind::Order => "order",
            ImageErrorKind::Permission => "permission",
            ImageErrorKind::Length => "length",
            ImageErrorKind::Range => "range",
            ImageErrorKind::Trailing => "trailing",
        }
    }
}

impl fmt::Display for ImageErrorKind {
    ghost use Rattle.std.specs.Prelude.{Some};
    ghost use Rattle.image_model.specs.Names.{kind_name};

    ghost output = { λ kind. Some (kind_name kind) };

    fn fmt<W: fmt::Write>(&self, f: &mut fmt::Formatter<W>) -> fmt::Result {
        f.write_str(self.name())
    }
}

impl fmt::Display for ImageError {
    ghost use Rattle.std.specs.Prelude.{Some};
    ghost use Rattle.image_model.specs.Names.{error_text};

    ghost output = { λ error. Some (error_text error) };

    fn fmt<W: fmt::Write>(&self, f: &mut fmt::Formatter<W>) -> fmt::Result {
        write!(f, "{} at {}", self.kind, self.at)
    }
}
