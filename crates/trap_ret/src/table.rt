//! The table of calls, and the tests on registers that go by its columns.

ghost use Rattle.std.specs.Prelude.{◌≡◌, ◌+◌, ◌<◌, ◌||◌, nat_lt, true, false};
ghost use Rattle.call_model.specs.Limits.{greatest_child};
ghost use Rattle.call_model.specs.Calls as table;
ghost use Rattle.call_model.specs.Options as options_of;
ghost use Rattle.call_model.specs.declared.Options.TheVariants as asked;
ghost use Rattle.call_model.specs.declared.Children.TheVariants as children_of;
ghost use Rattle.call_model.specs.declared.Ranges.TheVariants as ranges_of;

use crate::options::{
    AGREE, COPY, KNOWN, LIMIT, MERGE, PERM, PERMISSION, REGS, SNAP, START, TREE, ZERO, has,
};
use call_model::limits::{
    GREATEST_CHILD, GREATEST_DEPTH, GREATEST_LENGTH, LAST_BLOCK, LONGEST_ROW,
};
use call_model::{Children, Kind, Options, Ranges, Row};
use memory_model::PAGE_SIZE;

// A call that takes nothing.
#[inline(always)]
fn plain(number: u32) -> Row
    ensures { result ≡ table.columns number asked.Nothing children_of.Nobody ranges_of.Nowhere false 0 0 }
{
    Row {
        number,
        options: Options::Nothing,
        children: Children::Nobody,
        ranges: Ranges::Nowhere,
        device: false,
        levels: 0,
        tree_levels: 0,
    }
}

// A call of a device.
#[inline(always)]
fn device(number: u32, ranges: Ranges) -> Row
    ensures { result ≡ table.columns number asked.Nothing children_of.Nobody ranges true 0 0 }
{
    Row {
        ranges,
        device: true,
        ..plain(number)
    }
}

// A call on a file.
#[inline(always)]
fn file(number: u32, options: Options, ranges: Ranges) -> Row
    ensures { result ≡ table.columns number options children_of.Nobody ranges false 0 0 }
{
    Row {
        options,
        ranges,
        ..plain(number)
    }
}

// A call of a process or a thread, which names one child.
#[inline(always)]
fn child(number: u32, levels: u8) -> Row
    ensures { result ≡ table.columns number asked.Nothing children_of.One ranges_of.Nowhere false levels levels }
{
    Row {
        children: Children::One,
        levels,
        tree_levels: levels,
        ..plain(number)
    }
}

// A call that names children in a row, and makes none.
#[inline(always)]
fn row_of_children(number: u32, options: Options) -> Row
    ensures { result ≡ table.columns number options children_of.Row ranges_of.Nowhere false 0 0 }
{
    Row {
        options,
        children: Children::Row,
        ..plain(number)
    }
}

// Put or Get.
#[inline(always)]
fn transfer(number: u32, options: Options, levels: u8, tree_levels: u8) -> Row
    ensures { result ≡ table.columns number options children_of.Tree ranges_of.Pages false levels tree_levels }
{
    Row {
        options,
        children: Children::Tree,
        ranges: Ranges::Pages,
        levels,
        tree_levels,
        ..plain(number)
    }
}

/// What the tests on registers are told of a kind.
#[inline(always)]
pub(crate) fn row(kind: Kind) -> Row
    ensures { result ≡ table.row kind }
{
    match kind {
        Kind::Put => transfer(call_model::PUT, Options::Put, 1, 2),
        Kind::Get => transfer(call_model::GET, Options::Get, 0, 0),
        Kind::Ret => plain(call_model::RET),
        Kind::ConsoleOut => device(call_model::CONSOLE_OUT, Ranges::One),
        Kind::ConsoleIn => device(call_model::CONSOLE_IN, Ranges::One),
        Kind::Clock => device(call_model::CLOCK, Ranges::Nowhere),
        Kind::Random => device(call_model::RANDOM, Ranges::Nowhere),
        Kind::Fork => child(call_model::FORK, 1),
        Kind::Wait => child(call_model::WAIT, 0),
        Kind::Tfork => child(call_model::TFORK, 1),
        Kind::Tjoin => child(call_model::TJOIN, 0),
        Kind::Qstart => row_of_children(call_model::QSTART, Options::RowAndQuantum),
        Kind::Qcommit => row_of_children(call_model::QCOMMIT, Options::Row),
        Kind::FileNew => file(call_model::FILE_NEW, Options::ChoiceInA3, Ranges::One),
        Kind::FilePut => file(call_model::FILE_PUT, Options::ChoiceInA5, Ranges::Two),
        Kind::FileGet => file(call_model::FILE_GET, Options::Nothing, Ranges::Two),
        Kind::FileLength => file(call_model::FILE_LENGTH, Options::Nothing, Ranges::One),
        Kind::FileDelete => file(call_model::FILE_DELETE, Options::Nothing, Ranges::One),
    }
}

/// Argument `number` of a call, below 8: register a0 and those above it.
#[inline(always)]
pub(crate) fn argument(x: &[u32; 32], number: usize) -> u32
    requires { number < 8 }
    ensures { result ≡ table.argument x.now number }
{
    x[10 + number]
}

// Two of Copy, Zero and Merge.
fn has_two_changes(options: u32) -> bool
    ensures { result ≡ options_of.has_two_changes options }
{
    (has(options, COPY) && has(options, ZERO))
        || ((has(options, COPY) || has(options, ZERO)) && has(options, MERGE))
}

// Permission bits without Perm, two changes of one range, Agree without Merge, or Tree with another bit.
fn has_clash(options: u32) -> bool
    ensures { result ≡ options_of.has_clash options }
{
    (has(options, PERMISSION) && !has(options, PERM))
        || has_two_changes(options)
        || (has(options, AGREE) && !has(options, MERGE))
        || (has(options, TREE) && options != TREE)
}

fn has_unknown(options: u32) -> bool
    ensures { result ≡ options_of.has_unknown options }
{
    options & KNOWN != options
}

#[tactic(auto, unfolding(call_model::specs::Options::wrong_put_options))]
fn wrong_put_options(options: u32) -> bool
    ensures { result ≡ options_of.wrong_put_options options }
{
    has_unknown(options)
        || has_clash(options)
        || (has(options, LIMIT) && !has(options, START))
        || has(options, MERGE)
}

#[tactic(auto, unfolding(call_model::specs::Options::wrong_get_options))]
fn wrong_get_options(options: u32) -> bool
    ensures { result ≡ options_of.wrong_get_options options }
{
    has_unknown(options)
        || has_clash(options)
        || has(options, SNAP)
        || has(options, START)
        || has(options, LIMIT)
}

#[inline(always)]
fn passes_end(address: u32, size: u32) -> bool
    ensures { result ≡ options_of.passes_end address size }
{
    u64::from(address) + u64::from(size) > 1 << 32
}

fn wrong_range(address: u32, size: u32) -> bool
    ensures { result ≡ options_of.wrong_range address size }
{
    address % PAGE_SIZE != 0 || size % PAGE_SIZE != 0 || passes_end(address, size)
}

fn has_range(options: u32) -> bool
    ensures { result ≡ options_of.has_range options }
{
    has(options, COPY) || has(options, ZERO) || has(options, MERGE) || has(options, PERM)
}

#[tactic(auto, unfolding(call_model::specs::Options::wrong_pages))]
fn wrong_pages(options: u32, source: u32, destination: u32, size: u32) -> bool
    ensures { result ≡ options_of.wrong_pages options source destination size }
{
    (has_range(options) && wrong_range(destination, size))
        || (has(options, COPY) && wrong_range(source, size))
}

#[tactic(auto, unfolding(call_model::specs::Options::wrong_block_address))]
fn wrong_block_address(options: u32, block: u32) -> bool
    ensures { result ≡ options_of.wrong_block_address options block }
{
    has(options, REGS) && (block % 4 != 0 || block > LAST_BLOCK)
}

// What says yes or no is neither 1 nor 0.
#[inline(always)]
fn wrong_choice(number: u32) -> bool
    ensures { result ≡ table.wrong_choice number }
{
    number > 1
}

// No number of children in a row.
#[inline(always)]
fn wrong_row(count: u32) -> bool
    ensures { result ≡ table.wrong_row count }
{
    count == 0 || count > LONGEST_ROW
}

// No quantum.
#[inline(always)]
fn wrong_quantum(quantum: u32) -> bool
    ensures { result ≡ table.wrong_quantum quantum }
{
    quantum == 0
}

/// Test 2: options that do not stand, or do not stand together; a choice that is none; a row that is empty or too long; or no quantum.
#[inline(always)]
#[tactic(auto, unfolding(call_model::specs::Calls::wrong_options))]
pub(crate) fn wrong_options(options: Options, x: &[u32; 32]) -> bool
    ensures { result ≡ table.wrong_options options x.now }
{
    match options {
        Options::Put => wrong_put_options(argument(x, 0)),
        Options::Get => wrong_get_options(argument(x, 0)),
        Options::ChoiceInA3 => wrong_choice(argument(x, 3)),
        Options::ChoiceInA5 => wrong_choice(argument(x, 5)),
        Options::Row => wrong_row(argument(x, 2)),
        Options::RowAndQuantum => wrong_row(argument(x, 2)) || wrong_quantum(argument(x, 3)),
        Options::Nothing => false,
    }
}

#[inline(always)]
fn wrong_child(number: u32) -> bool
    ensures { result ≡ table.wrong_child number }
{
    number > GREATEST_CHILD
}

// A row of children with a number above the greatest.
#[inline(always)]
fn wrong_end(first: u32, count: u32) -> bool
    ensures { result ≡ (table.wrong_child first || nat_lt (greatest_child + 1) (first + count)) }
{
    wrong_child(first) || u64::from(first) + u64::from(count) > u64::from(GREATEST_CHILD) + 1
}

/// Test 3: a child number above the greatest.
#[inline(always)]
#[tactic(auto, unfolding(call_model::specs::Calls::wrong_children))]
pub(crate) fn wrong_children(children: Children, x: &[u32; 32]) -> bool
    ensures { result ≡ table.wrong_children children x.now }
{
    match children {
        Children::Nobody => false,
        Children::One => wrong_child(argument(x, 1)),
        Children::Tree => {
            wrong_child(argument(x, 1))
                || (has(argument(x, 0), TREE)
                    && (wrong_child(argument(x, 3)) || wrong_child(argument(x, 4))))
        }
        Children::Row => wrong_end(argument(x, 1), argument(x, 2)),
    }
}

/// Test 4: bytes that pass the end of memory, or ranges that do not suit the options.
#[inline(always)]
#[tactic(auto, unfolding(call_model::specs::Calls::wrong_ranges))]
pub(crate) fn wrong_ranges(ranges: Ranges, x: &[u32; 32]) -> bool
    ensures { result ≡ table.wrong_ranges ranges x.now }
{
    match ranges {
        Ranges::Nowhere => false,
        Ranges::One => passes_end(argument(x, 1), argument(x, 2)),
        Ranges::Two => {
            passes_end(argument(x, 1), argument(x, 2)) || passes_end(argument(x, 3), argument(x, 4))
        }
        Ranges::Pages => wrong_pages(
            argument(x, 0),
            argument(x, 3),
            argument(x, 4),
            argument(x, 5),
        ),
    }
}

/// Test 6: a call of a device outside the root.
#[inline(always)]
#[tactic(auto, unfolding(call_model::specs::Calls::wrong_place))]
pub(crate) fn wrong_place(device: bool, is_root: bool) -> bool
    ensures { result ≡ table.wrong_place device is_root }
{
    device && !is_root
}

#[inline(always)]
fn wrong_length(length: u32) -> bool
    ensures { result ≡ table.wrong_length length }
{
    length > GREATEST_LENGTH
}

/// Test 7: a length above the greatest.
#[inline(always)]
#[tactic(auto, unfolding(call_model::specs::Calls::wrong_lengths))]
pub(crate) fn wrong_lengths(ranges: Ranges, x: &[u32; 32]) -> bool
    ensures { result ≡ table.wrong_lengths ranges x.now }
{
    match ranges {
        Ranges::Nowhere | Ranges::Pages => false,
        Ranges::One => wrong_length(argument(x, 2)),
        Ranges::Two => wrong_length(argument(x, 2)) || wrong_length(argument(x, 4)),
    }
}

// The deepest level below its caller at which a call makes a space.
#[inline(always)]
fn new_levels(row: Row, x: &[u32; 32]) -> u8
    ensures { result ≡ table.new_levels row x.now }
{
    if has(argument(x, 0), TREE) {
        row.tree_levels
    } else {
        row.levels
    }
}

/// Test 8: a space that would be deeper than the deepest.
#[inline(always)]
#[tactic(auto, unfolding(call_model::specs::Calls::wrong_depth))]
pub(crate) fn wrong_depth(row: Row, x: &[u32; 32], depth: u8) -> bool
    ensures { result ≡ table.wrong_depth row x.now depth }
{
    u32::from(depth) + u32::from(new_levels(row, x)) > u32::from(GREATEST_DEPTH)
}

/// Test 9: a register block of Put or Get that does not stand in memory.
#[inline(always)]
#[tactic(auto, unfolding(call_model::specs::Calls::wrong_block))]
pub(crate) fn wrong_block(options: Options, x: &[u32; 32]) -> bool
    ensures { result ≡ table.wrong_block options x.now }
{
    match options {
        Options::Put | Options::Get => wrong_block_address(argument(x, 0), argument(x, 2)),
        Options::Nothing
        | Options::ChoiceInA3
        | Options::ChoiceInA5
        | Options::Row
        | Options::RowAndQuantum => false,
    }
}
