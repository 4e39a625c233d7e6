use std::fmt;

/// The first line of a schedule that is outside the grammar.
#[derive(Clone, Copy, Debug, PartialEq, Eq)]
pub struct ScheduleError {
    /// The line, counted from 1.
    pub line: u64,
}

impl fmt::Display for ScheduleError {
    ghost use Rattle.std.specs.Prelude.{Some};
    ghost use Rattle.schedule_model.specs.Names.{error_text};

    ghost output = { λ error. Some (error_text error) };

    fn fmt<W: fmt::Write>(&self, f: &mut fmt::Formatter<W>) -> fmt::Result {
        write!(f, "line {}", self.line)
    }
}
