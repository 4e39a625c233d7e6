ghost use Rattle.std.specs.Prelude.{◌≡◌, ◌↔◌, IfOk, IsNone, codes, map, option_map, option_and_then, IfSome};
ghost use Rattle.std.specs.String.{string_bytes};
ghost use Rattle.clap.specs.Words.{first_of, found_of, rows_of, subcommand_rows_of};
ghost use Rattle.command_line.specs.Line.{IsInRange, IsRefused, asm_line, bench_line, bench_with, command_line, engine_in, engine_named, engine_of, engine_with, fuel_of, has_flag, line, line_of, link_of, nodes_of, number_of, run_by, run_line, run_with, schedule, seed_of, walk_line, workers_of};

use crate::apps::{GREATEST_FUEL, GREATEST_SEED, MOST_NODES, MOST_WORKERS, program_command};
use crate::command::{Command, Engine, Run};
use clap::ArgMatches;
use clap::error::ErrorKind;
use std::alloc::{AllocError, Global};

fn number_from(matches: &ArgMatches<'_>, id: &str, low: u32, high: u32) -> Option<u32>
    ensures { result ≡ number_of low high id.now (rows_of (found_of matches.now)) }
{
    match matches.get_one::<u32>(id) {
        Some(number) => {
            if low <= number && number <= high {
                Some(number)
            } else {
                None
            }
        }
        None => None,
    }
}

/// The first value of an argument.
pub fn text_from<'a>(matches: &ArgMatches<'a>, id: &str) -> Option<&'a str>
    ensures { option_map (λ s. s.now) result ≡ first_of id.now (rows_of (found_of matches.now)) }
{
    matches.get_str(id)
}

// Whether a flag was there. `get_flag` promises nothing of a text that is no `bool`; this reads it as false.
fn flag_from(matches: &ArgMatches<'_>, id: &str) -> bool
    ensures { result ≡ has_flag id.now (rows_of (found_of matches.now)) }
{
    matches.get_one::<bool>(id).unwrap_or(false)
}

/// The fuel that `--limit` gives.
pub fn fuel_from(matches: &ArgMatches<'_>) -> Option<u32>
    ensures { result ≡ fuel_of (rows_of (found_of matches.now)) }
{
    number_from(matches, "limit", 1, GREATEST_FUEL)
}

fn seed_from(matches: &ArgMatches<'_>) -> Option<u32>
    ensures { result ≡ seed_of (rows_of (found_of matches.now)) }
{
    number_from(matches, "seed", 0, GREATEST_SEED)
}

fn workers_from(matches: &ArgMatches<'_>) -> Option<u32>
    ensures { result ≡ workers_of (rows_of (found_of matches.now)) }
{
    number_from(matches, "workers", 1, MOST_WORKERS)
}

fn nodes_from(matches: &ArgMatches<'_>) -> Option<u32>
    ensures { result ≡ nodes_of (rows_of (found_of matches.now)) }
{
    number_from(matches, "nodes", 1, MOST_NODES)
}

fn link_from(matches: &ArgMatches<'_>) -> Option<u32>
    ensures { result ≡ link_of (rows_of (found_of matches.now)) }
{
    number_from(matches, "link", 0, GREATEST_SEED)
}

// The engine of a name, with so many workers and nodes, and such links, if it has any.
fn engine_named<'a>(workers: u32, nodes: u32, link: Option<u32>, name: &str) -> Option<Engine<'a>>
    ensures { option_map engine_of result ≡ engine_named workers nodes link name.now }
{
    if name == "demand" {
        Some(Engine::Demand)
    } else if name == "rounds" {
        Some(Engine::Rounds)
    } else if name == "pool" {
        Some(Engine::Pool {
            workers,
            nodes,
            link,
        })
    } else if name == "seats" {
        Some(Engine::Seats {
            workers,
            nodes,
            link,
        })
    } else {
        None
    }
}

// The engine of a name and two numbers, where all are there, and of a seed, which may be left out.
fn engine_with<'a>(
    workers: Option<u32>,
    nodes: Option<u32>,
    link: Option<u32>,
    name: Option<&str>,
) -> Option<Engine<'a>>
    ensures { option_map engine_of result ≡ engine_with workers nodes link (option_map (λ s. s.now) name.entry) }
{
    engine_named(workers?, nodes?, link, name?)
}

// The engine that is named, or the one that stands for no name.
fn engine_from<'a>(matches: &ArgMatches<'a>) -> Option<Engine<'a>>
    ensures { option_map engine_of result ≡ engine_in (rows_of (found_of matches.now)) }
{
    let workers = workers_from(matches);
    let nodes = nodes_from(matches);
    let link = link_from(matches);
    let name = text_from(matches, "engine");
    engine_with(workers, nodes, link, name)
}

// The parts of a run, where all are there.
fn run_with<'a>(
    fuel: Option<u32>,
    digest: bool,
    engine: Option<Engine<'a>>,
    image: Option<&'a str>,
    script: Option<&'a str>,
) -> Option<Command<'a>>
    ensures { option_map line_of result ≡ run_with fuel digest (option_map engine_of engine.entry)
        (option_map (λ s. s.now) image.entry) (option_map (λ s. s.now) script.entry) }
{
    Some(Command::Run(Run {
        fuel: fuel?,
        digest,
        engine: engine?,
        image: image?,
        script: script?,
    }))
}

// A run with digests or without, by an engine.
fn run_by<'a>(
    matches: &ArgMatches<'a>,
    digest: bool,
    engine: Option<Engine<'a>>,
) -> Option<Command<'a>>
    ensures { option_map line_of result ≡ run_by digest (option_map engine_of engine.entry) (rows_of (found_of matches.now)) }
{
    let fuel = fuel_from(matches);
    let image = text_from(matches, "image");
    let script = text_from(matches, "script");
    run_with(fuel, digest, engine, image, script)
}

fn run_from<'a>(matches: &ArgMatches<'a>) -> Option<Command<'a>>
    ensures { option_map line_of result ≡ run_line (rows_of (found_of matches.now)) }
{
    let digest = flag_from(matches, "digest");
    let engine = engine_from(matches);
    run_by(matches, digest, engine)
}

fn schedule_from<'a>(matches: &ArgMatches<'a>) -> Option<Engine<'a>>
    ensures { option_map engine_of result ≡ option_map (λ name. schedule name) (first_of (codes "schedule") (rows_of (found_of matches.now))) }
{
    let name = text_from(matches, "schedule")?;
    Some(Engine::Schedule(name))
}

fn walk_from<'a>(matches: &ArgMatches<'a>) -> Option<Command<'a>>
    ensures { option_map line_of result ≡ walk_line (rows_of (found_of matches.now)) }
{
    let engine = schedule_from(matches);
    run_by(matches, false, engine)
}

fn asm_from<'a>(matches: &ArgMatches<'a>) -> Option<Command<'a>>
    ensures { option_map line_of result ≡ asm_line (rows_of (found_of matches.now)) }
{
    let source = text_from(matches, "source")?;
    Some(Command::Asm { source })
}

// An engine and a seed, where both are there.
fn bench_with<'a>(engine: Option<Engine<'a>>, seed: Option<u32>) -> Option<Command<'a>>
    ensures { option_map line_of result ≡ bench_with (option_map engine_of engine.entry) seed }
{
    Some(Command::Bench {
        engine: engine?,
        seed: seed?,
    })
}

fn bench_from<'a>(matches: &ArgMatches<'a>) -> Option<Command<'a>>
    ensures { option_map line_of result ≡ bench_line (rows_of (found_of matches.now)) }
{
    let engine = engine_from(matches);
    let seed = seed_from(matches);
    bench_with(engine, seed)
}

fn command_from<'a>(matches: &ArgMatches<'a>) -> Option<Command<'a>>
    ensures { option_map line_of result ≡ option_and_then command_line (subcommand_rows_of matches.now) }
{
    let (name, inner) = matches.subcommand()?;
    if name == "run" {
        run_from(inner)
    } else if name == "walk" {
        walk_from(inner)
    } else if name == "asm" {
        asm_from(inner)
    } else if name == "bench" {
        bench_from(inner)
    } else {
        None
    }
}

/// Reads the words of a command line, of which the first is the program's name. `None` comes exactly
/// where `clap` refuses the words for another cause than memory, or the name of an engine is none; calls for help and for the
/// version are among these.
pub fn read_line<'a>(alloc: Global, words: &'a [String]) -> Result<Option<Command<'a>>, AllocError>
    ensures line { IfOk result (λ c. option_map line_of c ≡ line (map string_bytes words.entry.now)) }
    ensures refused { IfOk result (λ c. IsNone c ↔ IsRefused (map string_bytes words.entry.now)) }
    ensures range { IfOk result (λ c. IfSome c (λ x. IsInRange (line_of x))) }
{
    let command = program_command(alloc)?;
    match command.try_get_matches_from(words) {
        Ok(matches) => Ok(command_from(&matches)),
        Err(error) => {
            if error.kind() == ErrorKind::OutOfMemory {
                Err(AllocError)
            } else {
                Ok(None)
            }
        }
    }
}
