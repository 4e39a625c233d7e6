ghost use Rattle.std.specs.Prelude.{◌≡◌};
ghost use Rattle.explain_cli.specs.Ends.{status_of};

use det_cli::End as Failure;

/// How a call of the program ended.
#[derive(Clone, Copy, Debug, PartialEq, Eq)]
pub enum End {
    /// The answer was written.
    Shown,
    /// In no order of events has the space an event of this number.
    NoEvent,
    /// No space stands at the path when all have stopped.
    NoSpace,
    /// The words are no command.
    Usage,
    /// A file is refused or could not be loaded, the answer could not be written whole, or memory ran out: an end of `det`.
    Failed(Failure),
}

/// The status with which the program ends: 0 to 6.
pub fn status(end: &End) -> u8
    ensures { result ≡ status_of end.now }
{
    match end {
        End::Shown => 0,
        End::NoEvent | End::NoSpace => 1,
        End::Usage => 2,
        End::Failed(failure) => det_cli::status(failure),
    }
}
