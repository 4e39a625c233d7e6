//! The commands as `clap` reads them.

ghost use Rattle.std.specs.Prelude.{IfOk};
ghost use Rattle.command_line.specs.Line.{IsApp, IsRule, flag as flag_rule};
ghost use Rattle.explain_words.specs.Line.{at_app, option_rule, program_app, run_app, trace_app, why_app};

use clap::{Arg, ArgAction, Command};
use command_line::{fuel_argument, required_argument};
use std::alloc::{AllocError, Global};

fn flag<'a>(alloc: Global, id: &'a str) -> Arg<'a>
    ensures { IsRule result (flag_rule id.entry.now) }
{
    Arg::new(alloc, id).long(id).action(ArgAction::SetTrue)
}

// An option with a text, which may be left out.
fn option<'a>(alloc: Global, id: &'a str) -> Arg<'a>
    ensures { IsRule result (option_rule id.entry.now) }
{
    Arg::new(alloc, id).long(id)
}

// A command with what each of them has: options, an image and a script.
fn run_command<'a>(alloc: Global, name: &'a str) -> Result<Command<'a>, AllocError>
    ensures { IfOk result (λ c. IsApp c (run_app name.entry.now)) }
{
    Command::new(alloc, name)
        .arg(fuel_argument(alloc))?
        .arg(flag(alloc, "json"))?
        .arg(option(alloc, "source"))?
        .arg(required_argument(alloc, "image"))?
        .arg(required_argument(alloc, "script"))
}

// To `clap` the words for bytes and for a moment are any texts.
fn at_command<'a>(alloc: Global) -> Result<Command<'a>, AllocError>
    ensures { IfOk result (λ c. IsApp c at_app) }
{
    run_command(alloc, "at")?
        .arg(option(alloc, "bytes"))?
        .arg(required_argument(alloc, "moment"))
}

// To `clap` a path and numbers of events are any texts.
fn trace_command<'a>(alloc: Global) -> Result<Command<'a>, AllocError>
    ensures { IfOk result (λ c. IsApp c trace_app) }
{
    run_command(alloc, "trace")?
        .arg(required_argument(alloc, "path"))?
        .arg(required_argument(alloc, "from"))?
        .arg(required_argument(alloc, "to"))
}

fn why_command<'a>(alloc: Global) -> Result<Command<'a>, AllocError>
    ensures { IfOk result (λ c. IsApp c why_app) }
{
    run_command(alloc, "why")
}

/// The program's command, one of whose subcommands has to be named.
pub(crate) fn program_command<'a>(alloc: Global) -> Result<Command<'a>, AllocError>
    ensures { IfOk result (λ c. IsApp c program_app) }
{
    Command::new(alloc, "explain")
        .subcommand_required(true)
        .disable_help_subcommand(true)
        .subcommand(at_command(alloc)?)?
        .subcommand(trace_command(alloc)?)?
        .subcommand(why_command(alloc)?)
}
