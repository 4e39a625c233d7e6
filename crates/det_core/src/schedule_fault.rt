ghost use Rattle.std.specs.Prelude.{◌≡◌};

use fault_model::Fault;
use schedule_model::ScheduleError;

/// Why a schedule could not be read.
pub type ScheduleFault = Fault<ScheduleError>;

/// The refusal of this line.
pub(crate) fn bad(line: u64) -> ScheduleFault
    ensures { result ≡ Fault.Bad (record { line = line }) }
{
    Fault::Bad(ScheduleError { line })
}
