ghost use Rattle.std.specs.Prelude.{◌≡◌, ◌↔◌, IfOk, IsNone, map, option_map, option_and_then, IfSome};
ghost use Rattle.std.specs.String.{string_bytes};
ghost use Rattle.clap.specs.Words.{found_of, rows_of, subcommand_rows_of};
ghost use Rattle.command_line.specs.Line.{has_flag};
ghost use Rattle.explain_words.specs.Line.{IsInRange, IsRefused, at_from, command_line, command_with, line, line_of, line_with, question_named, question_of, trace_from};

use crate::apps::program_command;
use crate::command::{Command, Question};
use crate::question::{at_in, trace_in};
use clap::ArgMatches;
use clap::error::ErrorKind;
use command_line::{fuel_from, text_from};
use std::alloc::{AllocError, Global};

// Whether a flag was there. `get_flag` promises nothing of a text that is no `bool`; this reads it as false.
fn flag_from(matches: &ArgMatches<'_>, id: &str) -> bool
    ensures { result ≡ has_flag id.now (rows_of (found_of matches.now)) }
{
    matches.get_one::<bool>(id).unwrap_or(false)
}

fn at_from(alloc: Global, matches: &ArgMatches<'_>) -> Result<Option<Question>, AllocError>
    ensures { IfOk result (λ o. option_map question_of o ≡ at_from (rows_of (found_of matches.now))) }
{
    let moment = text_from(matches, "moment");
    let bytes = text_from(matches, "bytes");
    at_in(alloc, moment, bytes)
}

fn trace_from(alloc: Global, matches: &ArgMatches<'_>) -> Result<Option<Question>, AllocError>
    ensures { IfOk result (λ o. option_map question_of o ≡ trace_from (rows_of (found_of matches.now))) }
{
    let path = text_from(matches, "path");
    let from = text_from(matches, "from");
    let to = text_from(matches, "to");
    trace_in(alloc, path, from, to)
}

// The question that the words of a command write.
fn question_named(
    alloc: Global,
    name: &str,
    matches: &ArgMatches<'_>,
) -> Result<Option<Question>, AllocError>
    ensures { IfOk result (λ o. option_map question_of o ≡ question_named (name.now, rows_of (found_of matches.now))) }
{
    if name == "at" {
        at_from(alloc, matches)
    } else if name == "trace" {
        trace_from(alloc, matches)
    } else if name == "why" {
        Ok(Some(Question::Why))
    } else {
        Ok(None)
    }
}

// The parts, where all that have to be there are.
fn command_with<'a>(
    json: bool,
    source: Option<&'a str>,
    fuel: Option<u32>,
    image: Option<&'a str>,
    script: Option<&'a str>,
    question: Option<Question>,
) -> Option<Command<'a>>
    ensures { option_map line_of result ≡ command_with json (option_map (λ s. s.now) source.entry) fuel (option_map (λ s. s.now) image.entry) (option_map (λ s. s.now) script.entry) (option_map question_of question) }
{
    Some(Command {
        json,
        source,
        fuel: fuel?,
        image: image?,
        script: script?,
        question: question?,
    })
}

fn command_about<'a>(matches: &ArgMatches<'a>, question: Option<Question>) -> Option<Command<'a>>
    ensures { option_map line_of result ≡ line_with (option_map question_of question) (rows_of (found_of matches.now)) }
{
    let json = flag_from(matches, "json");
    let source = text_from(matches, "source");
    let fuel = fuel_from(matches);
    let image = text_from(matches, "image");
    let script = text_from(matches, "script");
    command_with(json, source, fuel, image, script, question)
}

fn command_from<'a>(
    alloc: Global,
    matches: &ArgMatches<'a>,
) -> Result<Option<Command<'a>>, AllocError>
    ensures { IfOk result (λ o. option_map line_of o ≡ option_and_then command_line (subcommand_rows_of matches.now)) }
{
    let Some((name, inner)) = matches.subcommand() else {
        return Ok(None);
    };
    let question = question_named(alloc, name, inner)?;
    Ok(command_about(inner, question))
}

/// Reads the words of a command line, of which the first is the program's name. `None` comes exactly where `clap` refuses the words for
/// another cause than memory, or those for a moment, events or bytes write none; calls for help and for the version are among these.
pub fn read_line<'a>(alloc: Global, words: &'a [String]) -> Result<Option<Command<'a>>, AllocError>
    ensures line { IfOk result (λ c. option_map line_of c ≡ line (map string_bytes words.entry.now)) }
    ensures refused { IfOk result (λ c. IsNone c ↔ IsRefused (map string_bytes words.entry.now)) }
    ensures range { IfOk result (λ c. IfSome c (λ x. IsInRange (line_of x))) }
{
    let command = program_command(alloc)?;
    match command.try_get_matches_from(words) {
        Ok(matches) => command_from(alloc, &matches),
        Err(error) => {
            if error.kind() == ErrorKind::OutOfMemory {
                Err(AllocError)
            } else {
                Ok(None)
            }
        }
    }
}
