//! Definitions of spaces and of their local events, for contracts: `specs/` has them.
#![tactic(auto)]

use file_model::FileError;

/// Why a space has stopped. The first eight are traps of RISC-V (Privileged ISA, "Machine Cause"), with its numbers 0 to 7.
#[derive(Clone, Copy, Debug, PartialEq, Eq)]
pub enum Cause {
    /// A jump or taken branch to an address that is no multiple of 4, or a pc that is none.
    FetchMisaligned,
    /// The page of pc may not be fetched.
    FetchFault,
    /// The word at pc spells no instruction.
    Illegal,
    /// An EBREAK.
    Breakpoint,
    /// A load from an address that is no multiple of its width.
    LoadMisaligned,
    /// A load, or a call that reads, from a page that may not be read.
    LoadFault,
    /// A store to an address that is no multiple of its width.
    StoreMisaligned,
    /// A store, or a call that writes, to a page that may not be written.
    StoreFault,
    /// A call whose registers fail a test; the value is the number of the first test that fails.
    Badcall,
    /// A merge that met a byte which both sides had changed; the value is the least such address.
    Conflict,
    /// The limit that the parent gave has run out.
    Limit,
    /// The fuel has run out.
    Fuel,
    /// The call Ret; the value is its a0.
    Ret,
    /// The space has never run.
    Fresh,
}

/// Whether a space runs, or why it has stopped.
#[derive(Clone, Copy, Debug, PartialEq, Eq)]
pub enum Status {
    /// It has a next event.
    Running,
    /// It has none until it is started again.
    Stopped { cause: Cause, value: u32 },
}

/// What stops the caller of a call that meets children, before the call has done anything.
#[derive(Clone, Copy, Debug, PartialEq, Eq)]
pub struct Refusal {
    pub cause: Cause,
    pub value: u32,
}

/// What a call on a file answers.
#[derive(Clone, Copy, Debug, PartialEq, Eq)]
pub enum FileAnswer {
    /// It is done; of a call that counts bytes, how many.
    Done(Option<u32>),
    /// It is refused, and nothing has changed.
    Refused(FileError),
    /// A byte that it names lacks a right, and nothing has changed.
    Fault(Refusal),
}

/// How much of a child is waited for.
#[derive(Clone, Copy, Debug, Default, PartialEq, Eq)]
pub enum Reach {
    /// The child itself.
    #[default]
    Itself,
    /// The child and every space below it.
    Whole,
}

/// A child that a call waits for.
#[derive(Clone, Copy, Debug, Default, PartialEq, Eq)]
pub struct Await {
    pub number: u16,
    pub reach: Reach,
}
