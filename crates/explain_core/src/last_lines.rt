ghost use Rattle.std.specs.Prelude.{◌≡◌, ◌<◌, ◌≤◌, None, IfOk, IfSome, IsNone, IsSome, OnOk, string_bytes};
ghost use Rattle.space_model.specs.Path.{at};
ghost use Rattle.space_model.specs.Space.{Space};
ghost use Rattle.explain_core.specs.LastLines.{Becomes, CountsMore, FindsAt, FindsTop, GoesWithLine, HasLine, IsLineOf, LeavesLine, MayCount, TellsEndings, next_line};
ghost use Rattle.explain_core.specs.WatchList.{entry_at};
ghost use Rattle.explain_core.specs.declared.last_lines.NextLine.TheVariants.{Quiet, Line};

use crate::tracing::traced_line;
use crate::turning::{event_at, stretch_at};
use crate::watching::{Before, Noticing, Watched, before_event};
use demand_eval::STRETCH;
use det_core::step;
use space_step::DecodeCache;
use space_tree::{Path, Space, Top, at, copy_top_at};
use std::alloc::{AllocError, Global};
use std::collections::BTreeMap;

/// The lines of the last two own events of a space, of which there are to be so many.
#[derive(Drop)]
pub(crate) struct Ending {
    /// How many own events there are to be.
    pub(crate) count: u64,
    /// How many there were.
    pub(crate) had: u64,
    /// The lines of those that are the last two, or come behind these.
    pub(crate) lines: Vec<u8>,
}

/// The last lines that are wanted, by their paths.
pub(crate) type Endings = BTreeMap<Path, Ending>;

/// What is kept of the next event of a path.
#[derive(Clone, Copy, Debug, PartialEq, Eq)]
pub(crate) enum NextLine {
    /// Nothing.
    Quiet,
    /// Its line, as that of this number.
    Line(u64),
    /// There is to be none.
    Over,
}

// How many more events of a path may go by without a line, at most as many as a stretch has.
fn events_left(ending: &Ending) -> u32
    ensures { MayCount result ending.now }
{
    let left = ending.count.saturating_sub(2).saturating_sub(ending.had);
    if left < u64::from(STRETCH) {
        left as u32
    } else {
        STRETCH
    }
}

// How many instructions of a path may go by without a line, at most as many as a stretch has.
fn quiet_events(endings: &Endings, path: &Path) -> u32
    ensures { IfSome (entry_at endings.now.entries path.now.items) (MayCount result) }
{
    match endings.get(path) {
        None => STRETCH,
        Some(ending) => events_left(ending),
    }
}

// Counts so many more events.
fn count_more(ending: &mut Ending, count: u32)
    requires { MayCount count ending.old }
    ensures { CountsMore count ending.old ending.new }
{
    let _count = ending.count;
    if count > 0 {
        ending.had += u64::from(count);
    }
}

// Counts events of a path without their lines.
fn count_quietly(endings: &mut Endings, path: &Path, count: u32)
    requires { IfSome (entry_at endings.old.entries path.now.items) (MayCount count) }
    ensures { Becomes path.now.items (CountsMore count) endings.old.entries endings.new.entries }
{
    match endings.get_mut(path) {
        Some(ending) => count_more(ending, count),
        None => {}
    }
}

// Instructions of the space at a path that have no line, up to a call or a trap, and whether there were any.
fn stretch_quietly(
    cache: &mut DecodeCache,
    tree: &mut Space,
    endings: &mut Endings,
    path: &Path,
) -> bool
    ensures { (root : Space) → TellsEndings root endings.old.entries tree.old → TellsEndings root endings.new.entries tree.new }
{
    let most = quiet_events(endings, path);
    let x0 = Watched::Register(0);
    let stretch = stretch_at(cache, tree, path.as_slice(), x0, 0, most);
    count_quietly(endings, path, stretch.count);
    stretch.count != 0
}

// The event that is next at a path, where it may happen, without its line, and whether it has.
fn event_quietly(
    alloc: Global,
    cache: &mut DecodeCache,
    tree: &mut Space,
    endings: &mut Endings,
    path: &Path,
) -> Result<bool, AllocError>
    requires { next_line (entry_at endings.old.entries path.now.items) ≡ Quiet }
    ensures { IfOk result (λ _. (root : Space) → TellsEndings root endings.old.entries tree.old → TellsEndings root endings.new.entries tree.new) }
{
    match event_at(alloc, cache, tree, path, Watched::Register(0), 0) {
        Ok(event) => {
            count_quietly(endings, path, event.count);
            Ok(event.count != 0)
        }
        Err(error) => Err(error),
    }
}

// What the event of a top that is next finds, and the memory before it.
fn before_line(top: Top) -> Result<Option<Before>, AllocError>
    ensures { IfOk result (λ o. IfSome o (FindsTop top)) }
{
    let mut top = top;
    match before_event(Noticing::Lines, &mut top) {
        Ok(before) => Ok(Some(before)),
        Err(error) => Err(error),
    }
}

// What the event that is next at a path finds, and the memory before it; none where no space is there.
fn before_at(tree: &mut Space, path: &Path) -> Result<Option<Before>, AllocError>
    ensures some { IfOk result (λ o. IfSome o (FindsAt path.now.items tree.old)) }
    ensures same { tree.new ≡ tree.old }
{
    match copy_top_at(tree, path) {
        Ok(Some(top)) => before_line(top),
        Ok(None) => Ok(None),
        Err(error) => Err(error),
    }
}

// The line of an event of this number, which has left this top.
fn line_behind(
    alloc: Global,
    path: &Path,
    number: u64,
    before: &Before,
    after: &Top,
) -> Result<Option<String>, AllocError>
    ensures some { IfOk result IsSome }
    ensures line { IfOk result (λ o. IfSome o (λ line. IsLineOf path.now.items number before.now after.now (string_bytes line))) }
{
    match traced_line(alloc, path, number, before, after) {
        Ok(line) => Ok(Some(line)),
        Err(error) => Err(error),
    }
}

// The line of an event of this number, which has just happened at a path; none where no space is there.
fn line_at(
    alloc: Global,
    tree: &Space,
    path: &Path,
    number: u64,
    before: &Before,
) -> Result<Option<String>, AllocError>
    ensures some { IfOk result (λ o. IfSome o (λ line. LeavesLine path.now.items number before.now (string_bytes line) tree.now)) }
    ensures none { IfOk result (λ o. IsNone o → at path.now.items tree.now ≡ None) }
{
    match at(tree, path) {
        Some(space) => line_behind(alloc, path, number, before, &space.top),
        None => Ok(None),
    }
}

// The event that is next at a path, by what it finds, and its line as that of this number; none where it may not happen.
fn event_line(
    alloc: Global,
    cache: &mut DecodeCache,
    tree: &mut Space,
    path: &Path,
    number: u64,
    before: &Before,
) -> Result<Option<String>, AllocError>
    requires some { 1 ≤ number }
    requires finds { FindsAt path.now.items tree.old before.now }
    ensures some { IfOk result (λ o. IfSome o (λ line. GoesWithLine path.now.items number (string_bytes line) tree.old tree.new)) }
    ensures none { IfOk result (λ o. IsNone o → tree.new ≡ tree.old) }
{
    match step(alloc, cache, tree, path) {
        Ok(true) => line_at(alloc, tree, path, number, before),
        Ok(false) => Ok(None),
        Err(error) => Err(error),
    }
}

// The event that is next at a path, and its line as that of this number; none where it may not happen.
fn told_event(
    alloc: Global,
    cache: &mut DecodeCache,
    tree: &mut Space,
    path: &Path,
    number: u64,
) -> Result<Option<String>, AllocError>
    requires { 1 ≤ number }
    ensures some { IfOk result (λ o. IfSome o (λ line. GoesWithLine path.now.items number (string_bytes line) tree.old tree.new)) }
    ensures none { IfOk result (λ o. IsNone o → tree.new ≡ tree.old) }
{
    match before_at(tree, path) {
        Ok(Some(before)) => event_line(alloc, cache, tree, path, number, &before),
        Ok(None) => Ok(None),
        Err(error) => Err(error),
    }
}

// Adds a line, of one more event.
fn add_line(ending: &mut Ending, line: &str) -> Result<(), AllocError>
    requires { ending.old.had < ending.old.count }
    ensures { OnOk result (HasLine line.now ending.old ending.new) }
{
    let _count = ending.count;
    ending.lines.extend_from_slice(line.as_bytes())?;
    ending.had += 1;
    Ok(())
}

// Keeps the line of an event of a path, which has just happened.
fn keep_line(endings: &mut Endings, path: &Path, line: &str) -> Result<(), AllocError>
    requires { IfSome (entry_at endings.old.entries path.now.items) (λ e. e.had < e.count) }
    ensures { OnOk result (Becomes path.now.items (HasLine line.now) endings.old.entries endings.new.entries) }
{
    match endings.get_mut(path) {
        Some(ending) => add_line(ending, line),
        None => Ok(()),
    }
}

// The event that is next at a path, where it may happen, with its line, and whether it has.
fn event_with_line(
    alloc: Global,
    cache: &mut DecodeCache,
    tree: &mut Space,
    endings: &mut Endings,
    path: &Path,
    number: u64,
) -> Result<bool, AllocError>
    requires { next_line (entry_at endings.old.entries path.now.items) ≡ Line number }
    ensures { IfOk result (λ _. (root : Space) → TellsEndings root endings.old.entries tree.old → TellsEndings root endings.new.entries tree.new) }
{
    match told_event(alloc, cache, tree, path, number)? {
        Some(line) => {
            keep_line(endings, path, &line)?;
            Ok(true)
        }
        None => Ok(false),
    }
}

// What is kept of the event that is next at a path.
fn next_line(endings: &Endings, path: &Path) -> NextLine
    ensures { result ≡ next_line (entry_at endings.now.entries path.now.items) }
{
    match endings.get(path) {
        None => NextLine::Quiet,
        Some(ending) => {
            if ending.count <= ending.had {
                NextLine::Over
            } else if ending.count - ending.had <= 2 {
                NextLine::Line(ending.had + 1)
            } else {
                NextLine::Quiet
            }
        }
    }
}

// The event that is next at a path, where it may happen, and whether it has.
fn event_told(
    alloc: Global,
    cache: &mut DecodeCache,
    tree: &mut Space,
    endings: &mut Endings,
    path: &Path,
) -> Result<bool, AllocError>
    ensures { IfOk result (λ _. (root : Space) → TellsEndings root endings.old.entries tree.old → TellsEndings root endings.new.entries tree.new) }
{
    match next_line(endings, path) {
        NextLine::Quiet => event_quietly(alloc, cache, tree, endings, path),
        NextLine::Line(number) => event_with_line(alloc, cache, tree, endings, path, number),
        NextLine::Over => Ok(false),
    }
}

/// A turn of the space at a path: instructions up to a call or a trap, and then the event that is next, where it may happen. It says whether anything has happened.
pub(crate) fn line_turn(
    alloc: Global,
    cache: &mut DecodeCache,
    tree: &mut Space,
    endings: &mut Endings,
    path: &Path,
) -> Result<bool, AllocError>
    ensures { IfOk result (λ _. (root : Space) → TellsEndings root endings.old.entries tree.old → TellsEndings root endings.new.entries tree.new) }
{
    let ran = stretch_quietly(cache, tree, endings, path);
    let happened = event_told(alloc, cache, tree, endings, path)?;
    Ok(ran || happened)
}
