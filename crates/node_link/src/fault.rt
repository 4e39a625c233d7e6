ghost use Rattle.std.specs.Prelude.{◌≡◌};

use fault_model::Fault;
use link_model::FrameError;

/// Why a frame could not be taken.
pub type FrameFault = Fault<FrameError>;
