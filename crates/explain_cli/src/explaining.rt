ghost use Rattle.std.specs.Prelude.{◌≡◌, ◌≤◌, ◌⊎◌, IfErr, IfOk, option_map};
ghost use Rattle.space_model.specs.Sound.{IsSound};
ghost use Rattle.run_model.specs.Boot.{boot};
ghost use Rattle.det_host.specs.Writing.{output_of};
ghost use Rattle.explain_words.specs.Line.{IsCounted, IsInRange, at_moment, line_of, moment_of, question_of};
ghost use Rattle.explain_cli.specs.Explains.{Explains, IsAnswer, NeverComes, Shows, ShowsWritten, as_wanted, named_by, wanted};
ghost use Rattle.explain_cli.specs.Stages.{symbols_of};

use crate::end::End;
use crate::names::Names;
use crate::reading::Loaded;
use det_cli::{End as Failure, write_end};
use det_core::boot;
use det_host::{Sink, write_all};
use explain_core::{Bytes, after_event, at_end, trace};
use explain_lines::{json_of, named};
use explain_why::why;
use explain_words::{Bytes as AskedBytes, Command, Moment, Question};
use space_tree::Space;
use std::alloc::{AllocError, Global};

// The bytes that words ask for.
fn wanted(bytes: Option<AskedBytes>) -> Option<Bytes>
    ensures { result ≡ option_map wanted bytes }
{
    match bytes {
        Some(bytes) => Some(Bytes {
            address: bytes.address,
            count: bytes.count,
        }),
        None => None,
    }
}

// What is shown of a space at a moment, or the end that says that it never comes.
fn text_at(
    alloc: Global,
    root: Space,
    moment: &Moment,
    bytes: Option<AskedBytes>,
) -> Result<Vec<u8>, End>
    requires sound { IsSound root }
    requires counted { IsCounted (at_moment (moment_of moment.now) bytes) }
    ensures text { IfOk result (λ v. IsAnswer root (at_moment (moment_of moment.now) bytes) v.items) }
    ensures end { IfErr result (λ e. NeverComes root (at_moment (moment_of moment.now) bytes) e ⊎ (e ≡ End.Failed Failure.NoMemory)) }
{
    let bytes = wanted(bytes);
    match moment.event {
        Some(number) => match after_event(alloc, root, &moment.path, u64::from(number), bytes) {
            Ok(Some(text)) => Ok(text),
            Ok(None) => Err(End::NoEvent),
            Err(_) => Err(End::Failed(Failure::NoMemory)),
        },
        None => match at_end(alloc, root, &moment.path, bytes) {
            Ok(Some(text)) => Ok(text),
            Ok(None) => Err(End::NoSpace),
            Err(_) => Err(End::Failed(Failure::NoMemory)),
        },
    }
}

// The lines that answer a question, or the end that says why there are none.
fn answer(alloc: Global, root: Space, question: &Question) -> Result<Vec<u8>, End>
    requires sound { IsSound root }
    requires counted { IsCounted (question_of question.now) }
    ensures text { IfOk result (λ v. IsAnswer root (question_of question.now) v.items) }
    ensures end { IfErr result (λ e. NeverComes root (question_of question.now) e ⊎ (e ≡ End.Failed Failure.NoMemory)) }
{
    match question {
        Question::At { moment, bytes } => text_at(alloc, root, moment, *bytes),
        Question::Trace { path, from, to } => {
            match trace(alloc, root, path, u64::from(*from), u64::from(*to)) {
                Ok(text) => Ok(text),
                Err(_) => Err(End::Failed(Failure::NoMemory)),
            }
        }
        Question::Why => match why(alloc, root) {
            Ok(text) => Ok(text),
            Err(_) => Err(End::Failed(Failure::NoMemory)),
        },
    }
}

// Lines with the places of their addresses, where there is something that gives names.
fn named_by(alloc: Global, names: &Option<Names>, lines: Vec<u8>) -> Result<Vec<u8>, AllocError>
    ensures { IfOk result (λ v. v.items ≡ named_by (symbols_of names.now) lines.items) }
{
    match names {
        Some(names) => named(alloc, &lines, &names.symbols),
        None => Ok(lines),
    }
}

// Lines as they are, or the same as JSON.
fn as_wanted(alloc: Global, json: bool, lines: Vec<u8>) -> Result<Vec<u8>, AllocError>
    ensures { IfOk result (λ v. v.items ≡ as_wanted json lines.items) }
{
    if json {
        json_of(alloc, &lines)
    } else {
        Ok(lines)
    }
}

// An answer as a command wants it written.
fn written(
    alloc: Global,
    json: bool,
    names: &Option<Names>,
    lines: Vec<u8>,
) -> Result<Vec<u8>, AllocError>
    ensures { IfOk result (λ v. v.items ≡ as_wanted json (named_by (symbols_of names.now) lines.items)) }
{
    let named = named_by(alloc, names, lines)?;
    as_wanted(alloc, json, named)
}

// What is written in answer to a command's question, or the end that says why nothing is.
fn text_of(
    alloc: Global,
    root: Space,
    command: &Command<'_>,
    names: &Option<Names>,
) -> Result<Vec<u8>, End>
    requires sound { IsSound root }
    requires counted { IsCounted (question_of command.now.question) }
    ensures text { IfOk result (λ v. Shows root (line_of command.now) (symbols_of names.now) v.items) }
    ensures end { IfErr result (λ e. NeverComes root (question_of command.now.question) e ⊎ (e ≡ End.Failed Failure.NoMemory)) }
{
    match answer(alloc, root, &command.question) {
        Ok(lines) => match written(alloc, command.json, names, lines) {
            Ok(text) => Ok(text),
            Err(_) => Err(End::Failed(Failure::NoMemory)),
        },
        Err(end) => Err(end),
    }
}

/// Writes a text that answers.
pub(crate) fn write_text<O: Sink>(text: &[u8], out: &mut O) -> End
    ensures written { ShowsWritten (output_of O.taken O.faults out.old out.new) text.now result }
    ensures later { O.faults out.old ≤ O.faults out.new }
{
    match write_all(out, text) {
        Ok(()) => End::Shown,
        Err(error) => End::Failed(write_end(error)),
    }
}

/// Boots an image with devices, and writes the answer to a command's question about its tree.
pub(crate) fn explain_run<O: Sink>(
    alloc: Global,
    command: &Command<'_>,
    loaded: Loaded,
    out: &mut O,
) -> End
    requires { IsInRange (line_of command.now) }
    ensures explains { Explains (boot loaded.image loaded.devices command.now.fuel) (line_of command.now) (symbols_of loaded.names) (output_of O.taken O.faults out.old out.new) result }
    ensures later { O.faults out.old ≤ O.faults out.new }
{
    let Loaded {
        image,
        devices,
        names,
    } = loaded;
    let Ok(root) = boot(alloc, &image, devices, command.fuel) else {
        return End::Failed(Failure::NoMemory);
    };
    match text_of(alloc, root, command, &names) {
        Ok(text) => write_text(&text, out),
        Err(end) => end,
    }
}
