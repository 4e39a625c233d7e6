ghost use Rattle.std.specs.Prelude.{◌≡◌};

use std::fmt;

/// What is wrong with the bytes of a parcel.
#[derive(Clone, Copy, Debug, PartialEq, Eq)]
pub enum ParcelErrorKind {
    /// A field, or a page's bytes, does not fit in what is left.
    Truncated,
    /// The first four bytes are not `DTP2`.
    Magic,
    /// The number of a cause is none, or a space that runs has a value.
    Status,
    /// The byte of the flags is above 3.
    Flags,
    /// There is a limit where the flags tell of none.
    Limit,
    /// Fuel and used together are 0, or above 2^32 - 1.
    Fuel,
    /// A page is not above the one before, or above 1,048,575.
    Page,
    /// A permission is above 7.
    Permission,
    /// The form of a page is above 2.
    Form,
    /// No resident page has the number, or its bytes are all 0.
    Resident,
    /// A page has neither a permission nor a byte other than 0, or its bytes stand there and are all 0.
    Zero,
    /// A byte follows the last memory.
    Trailing,
}

/// The first fault of the bytes of a parcel.
#[derive(Clone, Copy, Debug, PartialEq, Eq)]
pub struct ParcelError {
    /// The offset of the field, from the first byte.
    pub at: u64,
    /// What is wrong there.
    pub kind: ParcelErrorKind,
}

impl ParcelErrorKind {
    ghost use Rattle.parcel_model.specs.Names.{kind_name};

    /// The kind's name in lower case.
    pub fn name(self) -> &'static str
        ensures { result.now ≡ kind_name self }
    {
        match self {
            ParcelErrorKind::Truncated => "truncated",
            ParcelErrorKind::Magic => "magic",
            ParcelErrorKind::Status => "status",
            ParcelErrorKind::Flags => "flags",
            ParcelErrorKind::Limit => "limit",
            ParcelErrorKind::Fuel => "fuel",
            ParcelErrorKind::Page => "page",
            ParcelErrorKind::Permission => "permission",
            ParcelErrorKind::Form => "form",
            ParcelErrorKind::Resident => "resident",
            ParcelErrorKind::Zero => "zero",
            ParcelErrorKind::Trailing => "trailing",
        }
    }
}

impl fmt::Display for ParcelErrorKind {
    ghost use Rattle.std.specs.Prelude.{Some};
    ghost use Rattle.parcel_model.specs.Names.{kind_name};

    ghost output = { λ kind. Some (kind_name kind) };

    fn fmt<W: fmt::Write>(&self, f: &mut fmt::Formatter<W>) -> fmt::Result {
        f.write_str(self.name())
    }
}

impl fmt::Display for ParcelError {
    ghost use Rattle.std.specs.Prelude.{Some};
    ghost use Rattle.parcel_model.specs.Names.{error_text};

    ghost output = { λ error. Some (error_text error) };

    fn fmt<W: fmt::Write>(&self, f: &mut fmt::Formatter<W>) -> fmt::Result {
        write!(f, "{} at {}", self.kind, self.at)
    }
}
