ghost use Rattle.std.specs.Prelude.{◌≡◌, ◌+◌, ◌<◌, ◌≤◌, false, length, slice_get, Some};
ghost use Rattle.call_model.specs.declared.Call.TheVariants.{File};
ghost use Rattle.call_model.specs.declared.Kind.TheVariants as kinds;
ghost use Rattle.call_model.specs.Limits.{IsChild};
ghost use Rattle.call_model.specs.Calls as table;
ghost use Rattle.call_model.specs.Accepted.{IsAccepted};
ghost use Rattle.space_model.specs.Meeting as meeting;
ghost use Rattle.trap_ret.specs.Shapes.{items_of, Fits};

use crate::options::{TREE, has};
use crate::table::{
    argument, row, wrong_block, wrong_children, wrong_depth, wrong_lengths, wrong_options,
    wrong_place, wrong_ranges,
};
use call_model::{Badcall, Call, FileCall, Kind, Row, Transfer};
use space_model::{Await, Reach};
use std::marker::Model;

/// A call that passed the tests on registers. Options of Put and Get stand together; with Copy, Zero, Merge or Perm the
/// destination is a range of whole pages of memory, with Copy the source too; with Regs the register block stands in memory, at a
/// multiple of 4. Console out's bytes, console in's buffer, and a file call's name, data and buffer, stand in memory and are at most
/// 65,536 bytes each. Children in a row are 1 to 64, the last one's number is at most 65,535, and a quantum is 1 event or more.
#[derive(Clone, Copy, Debug, PartialEq, Eq)]
pub struct AcceptedCall {
    call: Call,
}

impl Model for AcceptedCall {
    ghost use Rattle.call_model.specs.declared.Call.{Call};
    ghost use Rattle.call_model.specs.Accepted.{IsAccepted};

    ghost Value = { Call };

    ghost view = { λ c. c.call };

    ghost invariant = { λ c. IsAccepted c.call };

    ghost inverse = { λ c. record { call = c } };
}

impl AcceptedCall {
    /// The call, with what the tests keep.
    #[inline(always)]
    pub fn call(self) -> Call
        ensures value { result ≡ self }
        ensures kept { IsAccepted result }
    {
        self.call
    }
}

// What registers a0 to a6 say to Put and Get.
fn transfer(x: &[u32; 32]) -> Transfer
    requires { IsChild (table.argument x.now 1) }
    ensures { result ≡ table.transfer x.now }
{
    Transfer {
        options: argument(x, 0),
        child: argument(x, 1) as u16,
        block: argument(x, 2),
        source: argument(x, 3),
        destination: argument(x, 4),
        size: argument(x, 5),
        limit: argument(x, 6),
    }
}

// What registers a1 to a3 say of a file that is to be made.
fn file_new(x: &[u32; 32]) -> FileCall
    ensures { File result ≡ table.call_of kinds.FileNew x.now }
{
    FileCall::New {
        name: argument(x, 1),
        name_len: argument(x, 2),
        append: argument(x, 3) == 1,
    }
}

// What registers a1 to a5 say of a file that is to be written.
fn file_put(x: &[u32; 32]) -> FileCall
    ensures { File result ≡ table.call_of kinds.FilePut x.now }
{
    FileCall::Put {
        name: argument(x, 1),
        name_len: argument(x, 2),
        addr: argument(x, 3),
        len: argument(x, 4),
        add: argument(x, 5) == 1,
    }
}

// What registers a1 to a5 say of a file that is to be read.
fn file_get(x: &[u32; 32]) -> FileCall
    ensures { File result ≡ table.call_of kinds.FileGet x.now }
{
    FileCall::Get {
        name: argument(x, 1),
        name_len: argument(x, 2),
        addr: argument(x, 3),
        len: argument(x, 4),
        offset: argument(x, 5),
    }
}

// The number of the first test that a call of this row fails.
#[inline(always)]
fn first_failing(row: Row, x: &[u32; 32], is_root: bool, depth: u8) -> Option<u8>
    ensures { result ≡ table.first_of table.tests row x.now is_root depth }
{
    if wrong_options(row.options, x) {
        Some(2)
    } else if wrong_children(row.children, x) {
        Some(3)
    } else if wrong_ranges(row.ranges, x) {
        Some(4)
    } else if wrong_place(row.device, is_root) {
        Some(6)
    } else if wrong_lengths(row.ranges, x) {
        Some(7)
    } else if wrong_depth(row, x, depth) {
        Some(8)
    } else if wrong_block(row.options, x) {
        Some(9)
    } else {
        None
    }
}

// The call of a kind, with registers that fail no test.
#[inline(always)]
#[tactic(auto, unfolding(call_model::specs::Calls::wrong_children, call_model::specs::Calls::wrong_options))]
fn call_of(kind: Kind, x: &[u32; 32]) -> Call
    requires options { table.wrong_options (table.row kind).options x.now ≡ false }
    requires children { table.wrong_children (table.row kind).children x.now ≡ false }
    ensures { result ≡ table.call_of kind x.now }
{
    match kind {
        Kind::Put if has(argument(x, 0), TREE) => Call::PutTree {
            child: argument(x, 1) as u16,
            from: argument(x, 3) as u16,
            to: argument(x, 4) as u16,
        },
        Kind::Put => Call::Put(transfer(x)),
        Kind::Get if has(argument(x, 0), TREE) => Call::GetTree {
            child: argument(x, 1) as u16,
            from: argument(x, 3) as u16,
            to: argument(x, 4) as u16,
        },
        Kind::Get => Call::Get(transfer(x)),
        Kind::Ret => Call::Ret {
            value: argument(x, 0),
        },
        Kind::ConsoleOut => Call::ConsoleOut {
            addr: argument(x, 1),
            len: argument(x, 2),
        },
        Kind::ConsoleIn => Call::ConsoleIn {
            addr: argument(x, 1),
            len: argument(x, 2),
        },
        Kind::Clock => Call::Clock,
        Kind::Random => Call::Random,
        Kind::Fork => Call::Fork {
            child: argument(x, 1) as u16,
        },
        Kind::Wait => Call::Wait {
            child: argument(x, 1) as u16,
        },
        Kind::Tfork => Call::Tfork {
            child: argument(x, 1) as u16,
        },
        Kind::Tjoin => Call::Tjoin {
            child: argument(x, 1) as u16,
        },
        Kind::Qstart => Call::Qstart {
            first: argument(x, 1) as u16,
            count: argument(x, 2) as u8,
            quantum: argument(x, 3),
        },
        Kind::Qcommit => Call::Qcommit {
            first: argument(x, 1) as u16,
            count: argument(x, 2) as u8,
        },
        Kind::FileNew => Call::File(file_new(x)),
        Kind::FilePut => Call::File(file_put(x)),
        Kind::FileGet => Call::File(file_get(x)),
        Kind::FileLength => Call::File(FileCall::Length {
            name: argument(x, 1),
            name_len: argument(x, 2),
        }),
        Kind::FileDelete => Call::File(FileCall::Delete {
            name: argument(x, 1),
            name_len: argument(x, 2),
        }),
    }
}

// The call of a kind, or the number of the first test that it fails. Written out where it is called, it has the tests of its kind alone.
#[inline(always)]
#[tactic(auto, using(call_model::proofs::Accepted::named_accepted, call_model::proofs::Accepted::named_options, call_model::proofs::Accepted::named_child))]
fn read_kind(kind: Kind, x: &[u32; 32], is_root: bool, depth: u8) -> Result<AcceptedCall, Badcall>
    ensures { result ≡ table.read_as (Some kind) x.now is_root depth }
{
    match first_failing(row(kind), x, is_root, depth) {
        Some(number) => Err(Badcall(number)),
        None => Ok(AcceptedCall {
            call: call_of(kind, x),
        }),
    }
}

/// Asks for a call to do it.
pub struct Doing;

/// Asks for a call to tell what it is.
pub struct Looking;

/// The call that registers x0 to x31 name, at the root or below it, at a depth of at most 8; where they fail a test, the
/// number of the first. In this order:
///
/// 1. a7 is no call number;
/// 2. an option that is not known, permission bits without Perm, two of Copy, Zero and Merge, Agree without Merge, Tree with
///    another bit; in Put Merge, or Limit without Start; in Get one of Snap, Start and Limit; in FileNew an a3, or in FilePut an
///    a5, above 1; in Qstart and Qcommit an a2 that is 0 or above 64; in Qstart an a3 that is 0;
/// 3. a child number above 65,535, with Tree one of three, in Qstart and Qcommit that of the last child;
/// 4. a range of Put or Get that is not of whole pages of 4,096 bytes or passes the end of memory; console out's bytes, console in's
///    buffer, or a file call's name, data or buffer, that pass it;
/// 6. console out, console in, the clock or a random number outside the root;
/// 7. console out or console in of more than 65,536 bytes, or a file call's name, data or buffer of more;
/// 8. Put, Fork or Tfork at depth 8, Put with Tree at depth 7 or 8;
/// 9. a register block at no multiple of 4, or above 0xFFFFFF78.
///
/// It is written out in its caller, where each names itself: of one function of this size that two call, the compiler would leave the calls.
#[inline(always)]
pub fn read_call<Asker>(x: &[u32; 32], is_root: bool, depth: u8) -> Result<AcceptedCall, Badcall>
    ensures { result ≡ table.read x.now is_root depth }
{
    match argument(x, 7) {
        call_model::PUT => read_kind(Kind::Put, x, is_root, depth),
        call_model::GET => read_kind(Kind::Get, x, is_root, depth),
        call_model::RET => read_kind(Kind::Ret, x, is_root, depth),
        call_model::CONSOLE_OUT => read_kind(Kind::ConsoleOut, x, is_root, depth),
        call_model::CONSOLE_IN => read_kind(Kind::ConsoleIn, x, is_root, depth),
        call_model::CLOCK => read_kind(Kind::Clock, x, is_root, depth),
        call_model::RANDOM => read_kind(Kind::Random, x, is_root, depth),
        call_model::FORK => read_kind(Kind::Fork, x, is_root, depth),
        call_model::WAIT => read_kind(Kind::Wait, x, is_root, depth),
        call_model::TFORK => read_kind(Kind::Tfork, x, is_root, depth),
        call_model::TJOIN => read_kind(Kind::Tjoin, x, is_root, depth),
        call_model::QSTART => read_kind(Kind::Qstart, x, is_root, depth),
        call_model::QCOMMIT => read_kind(Kind::Qcommit, x, is_root, depth),
        call_model::FILE_NEW => read_kind(Kind::FileNew, x, is_root, depth),
        call_model::FILE_PUT => read_kind(Kind::FilePut, x, is_root, depth),
        call_model::FILE_GET => read_kind(Kind::FileGet, x, is_root, depth),
        call_model::FILE_LENGTH => read_kind(Kind::FileLength, x, is_root, depth),
        call_model::FILE_DELETE => read_kind(Kind::FileDelete, x, is_root, depth),
        _ => Err(Badcall(1)),
    }
}

// How the children stand that a call waits for.
#[derive(Clone, Copy)]
enum Shape {
    None,
    One(Await),
    Two(Await, Await),
    // So many from a first number on, each itself.
    Row { first: u16, count: u8 },
}

/// The children that a call waits for, in the order in which it does: none, one, two, or at most 64 in a row. It is a few bytes.
#[derive(Drop)]
pub struct Awaited {
    shape: Shape,
}

impl Model for Awaited {
    ghost use Rattle.std.specs.Prelude.{List};
    ghost use Rattle.space_model.specs.declared.Await.{Await};
    ghost use Rattle.trap_ret.specs.Shapes.{items_of, Fits};

    ghost Value = { List Await };

    ghost view = { λ a. items_of a.shape };

    ghost invariant = { λ a. Fits a.shape };
}

impl Awaited {
    /// How many there are.
    #[inline(always)]
    #[tactic(auto, using(crate::proofs::Shapes::row_length))]
    pub fn len(&self) -> usize
        ensures { result ≡ length self.now }
    {
        match self.shape {
            Shape::None => 0,
            Shape::One(_) => 1,
            Shape::Two(..) => 2,
            Shape::Row { count, .. } => usize::from(count),
        }
    }

    /// The one at an index, from 0 on.
    #[inline(always)]
    #[tactic(auto, using(crate::proofs::Shapes::row_length, crate::proofs::Shapes::row_item))]
    pub fn get(&self, index: usize) -> Await
        requires { index < length self.now }
        ensures { slice_get self.now index ≡ Some result }
    {
        match self.shape {
            Shape::None => Await::default(),
            Shape::One(only) => only,
            Shape::Two(first, second) => { if index == 0 { first } else { second } }
            Shape::Row { first, .. } => itself(first + index as u16),
        }
    }
}

fn itself(number: u16) -> Await
    ensures { result ≡ meeting.itself number }
{
    Await {
        number,
        reach: Reach::Itself,
    }
}

fn whole(number: u16) -> Await
    ensures { result ≡ meeting.whole number }
{
    Await {
        number,
        reach: Reach::Whole,
    }
}

// The children that a call waits for, as they stand.
fn shape_of(call: Call) -> Shape
    requires { IsAccepted call }
    ensures value { items_of result ≡ meeting.awaits call }
    ensures fits { Fits result }
{
    match call {
        Call::Put(x) | Call::Get(x) => Shape::One(itself(x.child)),
        Call::PutTree { child, from, .. } => Shape::Two(whole(child), whole(from)),
        Call::GetTree { child, to, .. } => Shape::Two(whole(child), whole(to)),
        Call::Fork { child } | Call::Tfork { child } | Call::Tjoin { child } => {
            Shape::One(itself(child))
        }
        Call::Wait { child } => Shape::One(whole(child)),
        Call::Qstart { first, count, .. } | Call::Qcommit { first, count } => {
            Shape::Row { first, count }
        }
        Call::Ret { .. }
        | Call::ConsoleOut { .. }
        | Call::ConsoleIn { .. }
        | Call::Clock
        | Call::Random
        | Call::File(_) => Shape::None,
    }
}

/// The children that a call waits for, each itself or with all below it.
pub fn awaits(call: AcceptedCall) -> Awaited
    ensures { result ≡ meeting.awaits call }
{
    Awaited {
        shape: shape_of(call.call()),
    }
}
