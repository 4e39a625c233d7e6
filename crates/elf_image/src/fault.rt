ghost use Rattle.std.specs.Prelude.{◌≡◌};

use elf_model::{ElfError, ElfKind};
use fault_model::Fault;

/// Why an executable file could not be read.
pub type ElfFault = Fault<ElfError>;

/// This fault of the bytes, at this offset.
pub(crate) fn bad(at: u64, kind: ElfKind) -> ElfFault
    ensures { result ≡ Fault.Bad (record { at = at; kind = kind }) }
{
    Fault::Bad(ElfError { at, kind })
}
