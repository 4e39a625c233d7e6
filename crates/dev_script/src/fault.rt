ghost use Rattle.std.specs.Prelude.{◌≡◌};

use fault_model::Fault;
use script_model::ScriptError;

/// Why a script could not be read.
pub type ScriptFault = Fault<ScriptError>;

/// The refusal of this line.
pub(crate) fn bad(line: u64) -> ScriptFault
    ensures { result ≡ Fault.Bad (record { line = line }) }
{
    Fault::Bad(ScriptError { line })
}
