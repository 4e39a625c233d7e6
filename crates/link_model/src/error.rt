ghost use Rattle.std.specs.Prelude.{◌≡◌};

use std::fmt;

/// What is wrong with the bytes of a frame.
#[derive(Clone, Copy, Debug, PartialEq, Eq)]
pub enum FrameErrorKind {
    /// A field, or a parcel's bytes, does not fit in what is left.
    Truncated,
    /// The first four bytes are not `DTD1` of a parcel, or `DTK1` of a receipt.
    Magic,
    /// A parcel has the number that none has, or a receipt's number is above the number of parcels that were offered.
    Ahead,
    /// A byte follows the last field.
    Trailing,
}

/// The first fault of the bytes of a frame.
#[derive(Clone, Copy, Debug, PartialEq, Eq)]
pub struct FrameError {
    /// The offset of the field, from the first byte.
    pub at: u64,
    /// What is wrong there.
    pub kind: FrameErrorKind,
}

impl FrameErrorKind {
    ghost use Rattle.link_model.specs.Names.{kind_name};

    /// The kind's name in lower case.
    pub fn name(self) -> &'static str
        ensures { result.now ≡ kind_name self }
    {
        match self {
            FrameErrorKind::Truncated => "truncated",
            FrameErrorKind::Magic => "magic",
            FrameErrorKind::Ahead => "ahead",
            FrameErrorKind::Trailing => "trailing",
        }
    }
}

impl fmt::Display for FrameErrorKind {
    ghost use Rattle.std.specs.Prelude.{Some};
    ghost use Rattle.link_model.specs.Names.{kind_name};

    ghost output = { λ kind. Some (kind_name kind) };

    fn fmt<W: fmt::Write>(&self, f: &mut fmt::Formatter<W>) -> fmt::Result {
        f.write_str(self.name())
    }
}

impl fmt::Display for FrameError {
    ghost use Rattle.std.specs.Prelude.{Some};
    ghost use Rattle.link_model.specs.Names.{error_text};

    ghost output = { λ error. Some (error_text error) };

    fn fmt<W: fmt::Write>(&self, f: &mut fmt::Formatter<W>) -> fmt::Result {
        write!(f, "{} at {}", self.kind, self.at)
    }
}
