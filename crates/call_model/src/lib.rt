//! Definitions of calls and of the register block, for contracts: `specs/` has them, over the numbers that stand here.
#![tactic(auto)]

pub mod limits;
pub mod option_bits;

/// What Put and Get are asked for (OSDI 2010, "Efficient System-Enforced Deterministic Parallelism", the section on the
/// kernel interface), in registers a0 to a6. Options are bits: 1 Regs, 2 Copy, 4 Zero, 8 Merge, 16 Perm, 32 Snap, 64 Start,
/// 128 Limit, 512 Agree; bits 12 to 14 are the permission. Addresses and sizes are in bytes, the limit in events.
#[derive(Clone, Copy, Debug, PartialEq, Eq)]
pub struct Transfer {
    pub options: u32,
    pub child: u16,
    pub block: u32,
    pub source: u32,
    pub destination: u32,
    pub size: u32,
    pub limit: u32,
}

/// The kind of a call: there is one for each number of a call in register a7.
#[derive(Clone, Copy, Debug, PartialEq, Eq)]
pub enum Kind {
    Put,
    Get,
    Ret,
    ConsoleOut,
    ConsoleIn,
    Clock,
    Random,
    Fork,
    Wait,
    Tfork,
    Tjoin,
    Qstart,
    Qcommit,
    FileNew,
    FilePut,
    FileGet,
    FileLength,
    FileDelete,
}

/// The numbers of the kinds of calls, in register a7.
pub const PUT: u32 = 1;

pub const GET: u32 = 2;

pub const RET: u32 = 3;

pub const CONSOLE_OUT: u32 = 4;

pub const CONSOLE_IN: u32 = 5;

pub const CLOCK: u32 = 6;

pub const RANDOM: u32 = 7;

pub const FORK: u32 = 16;

pub const WAIT: u32 = 17;

pub const TFORK: u32 = 18;

pub const TJOIN: u32 = 19;

pub const QSTART: u32 = 20;

pub const QCOMMIT: u32 = 21;

pub const FILE_NEW: u32 = 24;

pub const FILE_PUT: u32 = 25;

pub const FILE_GET: u32 = 26;

pub const FILE_LENGTH: u32 = 27;

pub const FILE_DELETE: u32 = 28;

/// What a call may be asked for, beside what it names.
#[derive(Clone, Copy, Debug, PartialEq, Eq)]
pub enum Options {
    /// Nothing.
    Nothing,
    /// The options of Put, in a0.
    Put,
    /// The options of Get, in a0.
    Get,
    /// Yes or no, by 1 or 0 in a3.
    ChoiceInA3,
    /// Yes or no, by 1 or 0 in a5.
    ChoiceInA5,
    /// How many children, 1 to 64, in a2.
    Row,
    /// The same, and a quantum in a3, 1 event or more.
    RowAndQuantum,
}

/// The children that a call names by their numbers.
#[derive(Clone, Copy, Debug, PartialEq, Eq)]
pub enum Children {
    /// None.
    Nobody,
    /// The one in a1.
    One,
    /// The one in a1; with Tree among the options in a0, those in a3 and a4 too.
    Tree,
    /// a2 of them, from the one in a1 on.
    Row,
}

/// The ranges of memory that a call names. Addresses and lengths are in bytes.
#[derive(Clone, Copy, Debug, PartialEq, Eq)]
pub enum Ranges {
    /// None.
    Nowhere,
    /// a2 bytes from a1 on.
    One,
    /// a2 bytes from a1 on, and a4 bytes from a3 on.
    Two,
    /// a5 bytes from a3 on and from a4 on, whole pages, as the options in a0 ask.
    Pages,
}

/// A row of the table of calls: what the tests on registers are told of a kind. Levels are counted from the caller, whose children are at 1.
#[derive(Clone, Copy, Debug, PartialEq, Eq)]
pub struct Row {
    /// Register a7.
    pub number: u32,
    pub options: Options,
    pub children: Children,
    pub ranges: Ranges,
    /// Whether it is for the root alone, which has the devices.
    pub device: bool,
    /// The deepest level at which it makes a space; 0 where it makes none.
    pub levels: u8,
    /// The same with Tree among the options in a0.
    pub tree_levels: u8,
}

/// A call on a file of the caller's own file system (OSDI 2010, "Efficient System-Enforced Deterministic Parallelism", the section on file
/// system consistency). A name is `name_len` bytes from address `name` on; data and a buffer are `len` bytes from `addr` on.
#[derive(Clone, Copy, Debug, PartialEq, Eq)]
pub enum FileCall {
    /// Makes a file, whose content may only be added to with `append`.
    New {
        name: u32,
        name_len: u32,
        append: bool,
    },
    /// Puts data in the place of the content, or behind it with `add`.
    Put {
        name: u32,
        name_len: u32,
        addr: u32,
        len: u32,
        add: bool,
    },
    /// Copies the content from an offset on into a buffer.
    Get {
        name: u32,
        name_len: u32,
        addr: u32,
        len: u32,
        offset: u32,
    },
    /// Tells how long the content is.
    Length {
        name: u32,
        name_len: u32,
    },
    /// Deletes a file.
    Delete {
        name: u32,
        name_len: u32,
    },
}

/// A call of a space.
#[derive(Clone, Copy, Debug, PartialEq, Eq)]
pub enum Call {
    /// Changes a child, and may start it.
    Put(Transfer),
    /// Copies the caller's child `from`, with all below it, to child `to` of child `child`.
    PutTree { child: u16, from: u16, to: u16 },
    /// Changes the caller by what a child has.
    Get(Transfer),
    /// Copies child `from` of child `child`, with all below it, to the caller's child `to`.
    GetTree { child: u16, from: u16, to: u16 },
    /// Stops with this value.
    Ret { value: u32 },
    /// Writes `len` bytes from `addr` on to the console.
    ConsoleOut { addr: u32, len: u32 },
    /// Reads at most `len` bytes of the console's input into a buffer from `addr` on.
    ConsoleIn { addr: u32, len: u32 },
    /// Reads the clock.
    Clock,
    /// Draws a random number.
    Random,
    /// Starts a process: a child that goes on from here with a copy of the caller's memory.
    Fork { child: u16 },
    /// Waits for a process and all below it, and removes them.
    Wait { child: u16 },
    /// Starts a thread: a child that goes on from here with a copy of the caller's memory, and with a snapshot of it.
    Tfork { child: u16 },
    /// Merges what a thread has changed since its snapshot into the caller's memory.
    Tjoin { child: u16 },
    /// Gives a quantum, in events, and a copy of the memory that they share to each of `count` threads from number `first` on that waits for one.
    Qstart { first: u16, count: u8, quantum: u32 },
    /// Commits to the caller's memory what each of `count` threads from number `first` on has changed, by rising numbers.
    Qcommit { first: u16, count: u8 },
    /// Makes, writes, reads or deletes a file.
    File(FileCall),
}

/// The number of the first test that a call's registers fail.
#[derive(Clone, Copy, Debug, PartialEq, Eq)]
pub struct Badcall(pub u8);

/// The register block of Put and Get: pc, x1 to x31, and the number of the cause and the value with which a child has stopped.
#[derive(Clone, Copy, Debug, PartialEq, Eq)]
pub struct Block {
    pub pc: u32,
    pub x: [u32; 31],
    pub cause: u32,
    pub value: u32,
}
