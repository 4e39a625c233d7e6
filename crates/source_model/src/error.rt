ghost use Rattle.std.specs.Prelude.{◌≡◌};

use std::fmt;

/// What is wrong with a line of a source.
#[derive(Clone, Copy, Debug, PartialEq, Eq)]
pub enum AsmErrorKind {
    /// There is no such statement, or a byte is not ASCII.
    Word,
    /// The operands are too many or too few, or one has not the shape that is wanted.
    Operand,
    /// There is no such register.
    Register,
    /// A number is malformed or out of its field's range, or a target is too far or odd.
    Number,
    /// The label is defined in an earlier line.
    Twice,
    /// Bytes stand where none can, a segment begins where none can or with a permission that it cannot have, or `.dti2` follows a segment.
    Place,
    /// The image's file is above 16,777,216 bytes.
    TooBig,
    /// The label is not defined.
    Label,
}

/// The first fault of a source: in the least line with one, the first kind of the list.
#[derive(Clone, Copy, Debug, PartialEq, Eq)]
pub struct AsmError {
    /// The line, counted from 1.
    pub line: u64,
    /// What is wrong there.
    pub kind: AsmErrorKind,
}

impl AsmErrorKind {
    ghost use Rattle.source_model.specs.Names.{kind_name};

    /// The kind's name in lower case.
    pub fn name(self) -> &'static str
        ensures { result.now ≡ kind_name self }
    {
        match self {
            AsmErrorKind::Word => "word",
            AsmErrorKind::Operand => "operand",
            AsmErrorKind::Register => "register",
            AsmErrorKind::Number => "number",
            AsmErrorKind::Twice => "twice",
            AsmErrorKind::Place => "place",
            AsmErrorKind::TooBig => "toobig",
            AsmErrorKind::Label => "label",
        }
    }
}

impl fmt::Display for AsmErrorKind {
    fn fmt<W: fmt::Write>(&self, f: &mut fmt::Formatter<W>) -> fmt::Result {
        f.write_str(self.name())
    }
}

impl fmt::Display for AsmError {
    fn fmt<W: fmt::Write>(&self, f: &mut fmt::Formatter<W>) -> fmt::Result {
        write!(f, "line {}: {}", self.line, self.kind)
    }
}
