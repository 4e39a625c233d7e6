ghost use Rattle.std.specs.Prelude.{◌≡◌};

use fault_model::Fault;
use parcel_model::{ParcelError, ParcelErrorKind};

/// Why a parcel could not be read.
pub type ParcelFault = Fault<ParcelError>;

/// This fault of the bytes, at this offset.
pub(crate) fn bad(at: u64, kind: ParcelErrorKind) -> ParcelFault
    ensures { result ≡ Fault.Bad (record { at = at; kind = kind }) }
{
    Fault::Bad(ParcelError { at, kind })
}
