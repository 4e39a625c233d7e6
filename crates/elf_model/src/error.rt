ghost use Rattle.std.specs.Prelude.{◌≡◌};

use std::fmt;

/// What is wrong with the bytes of an executable file.
#[derive(Clone, Copy, Debug, PartialEq, Eq)]
pub enum ElfKind {
    /// The file ends before its header does, before its program headers do, or before the bytes of a load do.
    Truncated,
    /// The first four bytes are not `7f 45 4c 46`.
    Magic,
    /// The file is not one of 32 bits.
    Class,
    /// Numbers are not little endian.
    Encoding,
    /// A version of the format other than 1.
    Version,
    /// The file is no executable with addresses of its own: position-independent ones are left out.
    Filetype,
    /// The machine is not RISC-V.
    Machine,
    /// The code is compressed, or uses a float interface.
    Flags,
    /// There are program headers, and their entries have not 32 bytes.
    Entries,
    /// There are more than 64 program headers, or more than 32 loads.
    Count,
    /// The file wants a dynamic linker.
    Dynamic,
    /// A load begins below the end of the one before.
    Order,
    /// A load has more bytes in the file than in memory.
    Size,
    /// A load ends above `FFFF0000`, where the stack begins.
    Range,
    /// The loads have more than 16,777,216 bytes of memory together.
    TooBig,
}

/// The first fault of the bytes of an executable file.
#[derive(Clone, Copy, Debug, PartialEq, Eq)]
pub struct ElfError {
    /// The offset of the field, from the first byte.
    pub at: u64,
    /// What is wrong there.
    pub kind: ElfKind,
}

impl ElfKind {
    ghost use Rattle.elf_model.specs.Names.{kind_name};

    /// The kind's name in lower case.
    pub fn name(self) -> &'static str
        ensures { result.now ≡ kind_name self }
    {
        match self {
            ElfKind::Truncated => "truncated",
            ElfKind::Magic => "magic",
            ElfKind::Class => "class",
            ElfKind::Encoding => "encoding",
            ElfKind::Version => "version",
            ElfKind::Filetype => "filetype",
            ElfKind::Machine => "machine",
            ElfKind::Flags => "flags",
            ElfKind::Entries => "entries",
            ElfKind::Count => "count",
            ElfKind::Dynamic => "dynamic",
            ElfKind::Order => "order",
            ElfKind::Size => "size",
            ElfKind::Range => "range",
            ElfKind::TooBig => "toobig",
        }
    }
}

impl fmt::Display for ElfKind {
    ghost use Rattle.std.specs.Prelude.{Some};
    ghost use Rattle.elf_model.specs.Names.{kind_name};

    ghost output = { λ kind. Some (kind_name kind) };

    fn fmt<W: fmt::Write>(&self, f: &mut fmt::Formatter<W>) -> fmt::Result {
        f.write_str(self.name())
    }
}

impl fmt::Display for ElfError {
    ghost use Rattle.std.specs.Prelude.{Some};
    ghost use Rattle.elf_model.specs.Names.{error_text};

    ghost output = { λ error. Some (error_text error) };

    fn fmt<W: fmt::Write>(&self, f: &mut fmt::Formatter<W>) -> fmt::Result {
        write!(f, "{} at {}", self.kind, self.at)
    }
}
