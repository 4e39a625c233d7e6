ghost use Rattle.std.specs.Prelude.{◌≡◌};
ghost use Rattle.snapshot.specs.declared.fault.MergeError.TheVariants.{Memory};

use std::alloc::{AllocError, AllocFailed};
use thiserror::Error;

/// Why a merge was not done.
#[derive(Debug, Drop, Error)]
pub enum MergeError {
    /// The least address of the range that is in conflict: both sides changed its byte since the snapshot, and with agreement to
    /// different ones.
    #[error("both sides changed the byte at address {addr}")]
    Conflict {
        /// The address.
        addr: u32,
    },
    /// Memory ran out.
    #[error("out of memory")]
    Memory,
}

impl From<AllocError> for MergeError {
    ghost from_gives = { λ _ e. e ≡ Memory };

    fn from(_e: AllocError) -> MergeError {
        MergeError::Memory
    }
}

impl<T: Drop> From<AllocFailed<T>> for MergeError {
    ghost from_gives = { λ _ e. e ≡ Memory };

    fn from(_e: AllocFailed<T>) -> MergeError {
        MergeError::Memory
    }
}
