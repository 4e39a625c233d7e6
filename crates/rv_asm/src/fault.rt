ghost use Rattle.std.specs.Prelude.{◌≡◌};
ghost use Rattle.fault_model.specs.declared.fault.Fault.TheVariants.{Bad};

use fault_model::Fault;
use source_model::{AsmError, AsmErrorKind};

/// Why a source could not be assembled: the text is no source of an image, or memory ran out.
pub type AsmFault = Fault<AsmError>;

/// This kind of fault in this line.
pub(crate) fn bad(line: u64, kind: AsmErrorKind) -> AsmFault
    ensures { result ≡ Bad (record { line = line; kind = kind }) }
{
    Fault::Bad(AsmError { line, kind })
}
