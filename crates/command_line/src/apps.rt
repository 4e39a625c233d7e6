//! The commands as `clap` reads them.

ghost use Rattle.std.specs.Prelude.{IfOk};
ghost use Rattle.clap.specs.Words.{App, Rule, with_rule, with_subcommand};
ghost use Rattle.command_line.specs.Line.{IsApp, IsRule, asm_app, bench_app, engine_rule, fuel_rule, link_rule, nodes_rule, program_app, run_app, seed_rule, walk_app, workers_rule};
ghost use Rattle.command_line.specs.Line.{required_rule, flag as flag_rule, number as number_rule, required_number as required_number_rule};

use clap::builder::ValueParser;
use clap::{Arg, ArgAction, Command};
use std::alloc::{AllocError, Global};

/// The most fuel that a command line may give: 2^32 - 1.
pub(crate) const GREATEST_FUEL: u32 = 4_294_967_295;

/// The greatest seed, of an image or of links: 2^32 - 1.
pub(crate) const GREATEST_SEED: u32 = 4_294_967_295;

/// The most workers that a pool may have.
pub(crate) const MOST_WORKERS: u32 = 64;

/// The most nodes that a pool may have.
pub(crate) const MOST_NODES: u32 = 64;

fn number<'a>(alloc: Global, id: &'a str, low: u64, high: u64, value: &'a str) -> Arg<'a>
    ensures { IsRule result (number_rule id.entry.now low high value.entry.now) }
{
    Arg::new(alloc, id)
        .long(id)
        .default_value(value)
        .value_parser(ValueParser::unsigned(low, high))
}

fn flag<'a>(alloc: Global, id: &'a str) -> Arg<'a>
    ensures { IsRule result (flag_rule id.entry.now) }
{
    Arg::new(alloc, id).long(id).action(ArgAction::SetTrue)
}

/// A word that has to be there.
pub fn required_argument<'a>(alloc: Global, id: &'a str) -> Arg<'a>
    ensures { IsRule result (required_rule id.entry.now) }
{
    Arg::new(alloc, id).required(true)
}

fn required_number<'a>(alloc: Global, id: &'a str, low: u64, high: u64) -> Arg<'a>
    ensures { IsRule result (required_number_rule id.entry.now low high) }
{
    required_argument(alloc, id).value_parser(ValueParser::unsigned(low, high))
}

/// `--limit`, how many events a space may take.
pub fn fuel_argument<'a>(alloc: Global) -> Arg<'a>
    ensures { IsRule result fuel_rule }
{
    number(alloc, "limit", 1, u64::from(GREATEST_FUEL), "1000000")
}

// Which names are engines' is decided where the line is read.
fn engine_argument<'a>(alloc: Global) -> Arg<'a>
    ensures { IsRule result engine_rule }
{
    Arg::new(alloc, "engine")
        .long("engine")
        .default_value("demand")
}

// `clap` reads it whatever the engine.
fn workers_argument<'a>(alloc: Global) -> Arg<'a>
    ensures { IsRule result workers_rule }
{
    number(alloc, "workers", 1, u64::from(MOST_WORKERS), "4")
}

// `clap` reads it whatever the engine.
fn nodes_argument<'a>(alloc: Global) -> Arg<'a>
    ensures { IsRule result nodes_rule }
{
    number(alloc, "nodes", 1, u64::from(MOST_NODES), "1")
}

// `clap` reads it whatever the engine; it may be left out.
fn link_argument<'a>(alloc: Global) -> Arg<'a>
    ensures { IsRule result link_rule }
{
    Arg::new(alloc, "link")
        .long("link")
        .value_parser(ValueParser::unsigned(0, u64::from(GREATEST_SEED)))
}

fn seed_argument<'a>(alloc: Global) -> Arg<'a>
    ensures { IsRule result seed_rule }
{
    required_number(alloc, "seed", 0, u64::from(GREATEST_SEED))
}

fn run_command<'a>(alloc: Global) -> Result<Command<'a>, AllocError>
    ensures { IfOk result (λ c. IsApp c run_app) }
{
    let run = Command::new(alloc, "run").arg(engine_argument(alloc));
    let run = with_arg(run, workers_argument(alloc));
    let run = with_arg(run, nodes_argument(alloc));
    let run = with_arg(run, link_argument(alloc));
    let run = with_arg(run, fuel_argument(alloc));
    let run = with_arg(run, flag(alloc, "digest"));
    let run = with_arg(run, required_argument(alloc, "image"));
    with_arg(run, required_argument(alloc, "script"))
}

fn walk_command<'a>(alloc: Global) -> Result<Command<'a>, AllocError>
    ensures { IfOk result (λ c. IsApp c walk_app) }
{
    let walk = Command::new(alloc, "walk").arg(fuel_argument(alloc));
    let walk = with_arg(walk, required_argument(alloc, "image"));
    let walk = with_arg(walk, required_argument(alloc, "script"));
    with_arg(walk, required_argument(alloc, "schedule"))
}

fn asm_command<'a>(alloc: Global) -> Result<Command<'a>, AllocError>
    ensures { IfOk result (λ c. IsApp c asm_app) }
{
    let source = required_argument(alloc, "source");
    Command::new(alloc, "asm").arg(source)
}

fn bench_command<'a>(alloc: Global) -> Result<Command<'a>, AllocError>
    ensures { IfOk result (λ c. IsApp c bench_app) }
{
    let bench = Command::new(alloc, "bench").arg(engine_argument(alloc));
    let bench = with_arg(bench, workers_argument(alloc));
    let bench = with_arg(bench, nodes_argument(alloc));
    let bench = with_arg(bench, link_argument(alloc));
    with_arg(bench, seed_argument(alloc))
}

/// A command, where it could be made, with an argument more.
pub fn with_arg<'a>(
    command: Result<Command<'a>, AllocError>,
    arg: Arg<'a>,
) -> Result<Command<'a>, AllocError>
    ensures { (a : App) → (r : Rule) → IfOk command.entry (λ c. IsApp c a) → IsRule arg.entry r → IfOk result (λ c. IsApp c (with_rule a r)) }
{
    match command {
        Ok(command) => command.arg(arg),
        Err(error) => Err(error),
    }
}

/// A command with another one below it, where that could be made.
pub fn with_command<'a>(
    command: Command<'a>,
    below: Result<Command<'a>, AllocError>,
) -> Result<Command<'a>, AllocError>
    ensures { (a s : App) → IsApp command.entry a → IfOk below.entry (λ c. IsApp c s) → IfOk result (λ c. IsApp c (with_subcommand a s.top)) }
{
    match below {
        Ok(below) => command.subcommand(below),
        Err(error) => Err(error),
    }
}

/// The program's command, one of whose subcommands has to be named.
pub(crate) fn program_command<'a>(alloc: Global) -> Result<Command<'a>, AllocError>
    ensures { IfOk result (λ c. IsApp c program_app) }
{
    let det = Command::new(alloc, "det")
        .subcommand_required(true)
        .disable_help_subcommand(true);
    let det = with_command(det, run_command(alloc))?;
    let det = with_command(det, walk_command(alloc))?;
    let det = with_command(det, asm_command(alloc))?;
    with_command(det, bench_command(alloc))
}
