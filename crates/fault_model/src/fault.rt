ghost use Rattle.std.specs.Prelude.{◌≡◌};
ghost use Rattle.fault_model.specs.declared.fault.Fault.TheVariants.{Memory};

use std::alloc::{AllocError, AllocFailed};
use std::fmt::Display;
use thiserror::Error;

/// Why bytes could not be read.
#[derive(Debug, Drop, Error)]
pub enum Fault<E: Display> {
    /// The bytes are refused.
    #[error("{0}")]
    Bad(E),
    /// Memory ran out.
    #[error("out of memory")]
    Memory,
}

impl<E: Drop + Display> From<AllocError> for Fault<E> {
    ghost from_gives = { λ _ e. e ≡ Memory };

    fn from(_e: AllocError) -> Fault<E> {
        Fault::Memory
    }
}

impl<E: Drop + Display, T: Drop> From<AllocFailed<T>> for Fault<E> {
    ghost from_gives = { λ _ e. e ≡ Memory };

    fn from(_e: AllocFailed<T>) -> Fault<E> {
        Fault::Memory
    }
}
