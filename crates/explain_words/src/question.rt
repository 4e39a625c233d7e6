//! Paths, events, moments and bytes as words write them.

ghost use Rattle.std.specs.Prelude.{◌≡◌, Ok, IfOk, option_and_then, option_map};
ghost use Rattle.std.specs.List.{list_all};
ghost use Rattle.std.specs.Char.{is_ascii_hexdigit};
ghost use Rattle.det_core.specs.View.{path_views};
ghost use Rattle.explain_words.specs.Line.{address_in, at_end, at_in, at_with, behind_event, bytes_in, bytes_of, bytes_with, count_in, event_in, from_one, hexadecimal_in, is_hexadecimal, moment_in, moment_of, only_path, path_in, question_of, trace_in, trace_with};

use crate::command::{Bytes, Moment, Question};
use det_core::{ScheduleFault, read_schedule};
use space_tree::Path;
use std::alloc::{AllocError, Global};

// The most digits of an event's number.
const MOST_DIGITS: usize = 10;

// The most digits of an address.
const MOST_HEXADECIMAL: usize = 8;

// The most bytes that are shown, and the most digits of that number.
const MOST_BYTES: u32 = 4_194_304;

const MOST_DIGITS_OF_BYTES: usize = 7;

// The path of a schedule that has no other.
fn only_path(paths: Vec<Path>) -> Option<Path>
    ensures { option_map (λ p. p.items) result ≡ only_path (Ok (path_views paths.items)) }
{
    let mut paths = paths;
    if paths.len() == 1 { paths.pop() } else { None }
}

// The path that a schedule of it alone writes.
fn path_in(alloc: Global, text: &str) -> Result<Option<Path>, AllocError>
    ensures { IfOk result (λ o. option_map (λ p. p.items) o ≡ path_in text.now) }
{
    match read_schedule(alloc, text.as_bytes()) {
        Ok(paths) => Ok(only_path(paths)),
        Err(ScheduleFault::Bad(_)) => Ok(None),
        Err(ScheduleFault::Memory) => Err(AllocError),
    }
}

// A number, where it is not 0.
fn from_one(number: Option<u32>) -> Option<u32>
    ensures { result ≡ option_and_then from_one number }
{
    match number {
        Some(number) if number > 0 => Some(number),
        _ => None,
    }
}

// The number of an event that 1 to 10 digits write.
fn event_in(digits: &str) -> Option<u32>
    ensures { result ≡ event_in digits.now }
{
    from_one(text_lines::number_of(digits.as_bytes(), MOST_DIGITS, u32::MAX))
}

// A path and an event, where both are there.
fn behind_event(path: Option<Path>, event: Option<u32>) -> Option<Moment>
    ensures { option_map moment_of result ≡ behind_event (option_map (λ p. p.items) path) event }
{
    Some(Moment {
        path: path?,
        event: Some(event?),
    })
}

// A path alone.
fn at_end(path: Option<Path>) -> Option<Moment>
    ensures { option_map moment_of result ≡ at_end (option_map (λ p. p.items) path) }
{
    Some(Moment {
        path: path?,
        event: None,
    })
}

// The moment that a text writes: a path as in a schedule, alone or before `:` and the number of an event.
#[tactic(auto, unfolding(crate::specs::Line::moment_in))]
fn moment_in(alloc: Global, text: &str) -> Result<Option<Moment>, AllocError>
    ensures { IfOk result (λ o. option_map moment_of o ≡ moment_in text.now) }
{
    match text.split_once(':') {
        Some((path, event)) => Ok(behind_event(path_in(alloc, path)?, event_in(event))),
        None => Ok(at_end(path_in(alloc, text)?)),
    }
}

// Whether each byte is a hexadecimal digit.
fn are_hexadecimal(text: &[u8]) -> bool
    ensures { result ≡ list_all is_ascii_hexdigit text.now }
{
    text.iter().all(|byte| byte.is_ascii_hexdigit())
}

// Whether these are 1 to 8 hexadecimal digits, in either case.
fn is_hexadecimal(digits: &str) -> bool
    ensures { result ≡ is_hexadecimal digits.now }
{
    !digits.is_empty() && digits.len() <= MOST_HEXADECIMAL && are_hexadecimal(digits.as_bytes())
}

// The number that 1 to 8 hexadecimal digits write.
fn hexadecimal_in(digits: &str) -> Option<u32>
    ensures { result ≡ hexadecimal_in digits.now }
{
    if is_hexadecimal(digits) {
        u32::from_str_radix(digits, 16).ok()
    } else {
        None
    }
}

// The address that hexadecimal digits behind `0x` write.
fn address_in(text: &str) -> Option<u32>
    ensures { result ≡ address_in text.now }
{
    match text.strip_prefix("0x") {
        Some(digits) => hexadecimal_in(digits),
        None => None,
    }
}

// How many bytes 1 to 7 digits write.
fn count_in(digits: &str) -> Option<u32>
    ensures { result ≡ count_in digits.now }
{
    from_one(text_lines::number_of(digits.as_bytes(), MOST_DIGITS_OF_BYTES, MOST_BYTES))
}

// An address and a count, where both are there.
fn bytes_with(address: Option<u32>, count: Option<u32>) -> Option<Bytes>
    ensures { result ≡ bytes_with address count }
{
    Some(Bytes {
        address: address?,
        count: count?,
    })
}

// The bytes that a text writes: an address before `:` and how many there are.
#[tactic(auto, unfolding(crate::specs::Line::bytes_in))]
fn bytes_in(text: &str) -> Option<Bytes>
    ensures { result ≡ bytes_in text.now }
{
    match text.split_once(':') {
        Some((address, count)) => bytes_with(address_in(address), count_in(count)),
        None => None,
    }
}

// The bytes that are asked for, be there none. None where a text writes none.
fn bytes_of(text: Option<&str>) -> Option<Option<Bytes>>
    ensures { result ≡ bytes_of (option_map (λ s. s.now) text.entry) }
{
    match text {
        Some(text) => Some(Some(bytes_in(text)?)),
        None => Some(None),
    }
}

// A space at a moment, with bytes or without, where none of them is written wrongly.
fn at_with(moment: Option<Moment>, bytes: Option<Option<Bytes>>) -> Option<Question>
    ensures { option_map question_of result ≡ at_with (option_map moment_of moment) bytes }
{
    Some(Question::At {
        moment: moment?,
        bytes: bytes?,
    })
}

// Events of a space, where a path and two numbers are there.
fn trace_with(path: Option<Path>, from: Option<u32>, to: Option<u32>) -> Option<Question>
    ensures { option_map question_of result ≡ trace_with (option_map (λ p. p.items) path) from to }
{
    Some(Question::Trace {
        path: path?,
        from: from?,
        to: to?,
    })
}

/// The question that the words of `at` write: a moment, and bytes or none. None where they write none. The one error is want of memory.
pub(crate) fn at_in(
    alloc: Global,
    moment: Option<&str>,
    bytes: Option<&str>,
) -> Result<Option<Question>, AllocError>
    ensures { IfOk result (λ o. option_map question_of o ≡ at_in (option_map (λ s. s.now) moment.entry) (option_map (λ s. s.now) bytes.entry)) }
{
    match moment {
        Some(text) => Ok(at_with(moment_in(alloc, text)?, bytes_of(bytes))),
        None => Ok(None),
    }
}

/// The question that the words of `trace` write: a path as in a schedule, and the numbers of a first and a last event. None where they write none. The
/// one error is want of memory.
pub(crate) fn trace_in(
    alloc: Global,
    path: Option<&str>,
    from: Option<&str>,
    to: Option<&str>,
) -> Result<Option<Question>, AllocError>
    ensures { IfOk result (λ o. option_map question_of o ≡ trace_in (option_map (λ s. s.now) path.entry) (option_map (λ s. s.now) from.entry) (option_map (λ s. s.now) to.entry)) }
{
    match (path, from, to) {
        (Some(path), Some(from), Some(to)) => Ok(trace_with(
            path_in(alloc, path)?,
            event_in(from),
            event_in(to),
        )),
        _ => Ok(None),
    }
}
