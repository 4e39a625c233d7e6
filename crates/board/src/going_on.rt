// A space goes on where it stands, within a turn: so one that has few events until its next call is never a job.

ghost use Rattle.std.specs.Prelude.{◌≡◌, ◌+◌, ◌≤◌, ◌<◌, ◌++◌, ◌∷◌, [], ℕ, true, IfOk, OnErr, Some, vec_len, vec_capacity};
ghost use Rattle.call_model.specs.Limits.{greatest_depth, levels_below};
ghost use Rattle.run_model.specs.Schedule.{is_local_at};
ghost use Rattle.det_core.specs.declared.entry.Entry.TheVariants.{Ran};
ghost use Rattle.det_core.specs.Legal.{RunsAt};
ghost use Rattle.space_model.specs.Path as model;
ghost use Rattle.space_model.specs.Space.{Space as Tree};
ghost use Rattle.board.specs.GoingOn.{GoesBelow, HasGoneOn};
ghost use Rattle.board.specs.Jobs.{MayBeTaken, Slots};
ghost use Rattle.board.specs.Listed.{AreOut};

use crate::board::Board;
use crate::listing::{copy_path, one_more};
use crate::taking::{make_places, may_be_taken};
use det_core::Entry;
use path_set::PathSet;
use space_step::{Advance, DecodeCache, Next, advance};
use space_tree::{Path, Space};
use std::alloc::AllocError;

/// How many local events a space has in its place before it is put out as a job: fewer than it costs to put it out.
pub const EVENTS_IN_PLACE: u32 = 128;

// Local events of the space at the rest of a path from a space on, at a depth, in its place; none where no space stands there.
fn go_on_below(
    space: &mut Space,
    path: &[u16],
    depth: u8,
    cache: &mut DecodeCache,
) -> Result<Advance, AllocError>
    requires { depth ≤ greatest_depth }
    ensures goes { IfOk result (λ a. (here : Tree) → model.at path.now space.old ≡ Some here → GoesBelow (levels_below depth) path.now a here space.old space.new) }
    ensures err { OnErr result (space.new ≡ space.old) }
{
    match path {
        [] => advance(&mut space.top, depth, EVENTS_IN_PLACE, cache),
        [number, rest @ ..] => {
            let Some(child) = space.children.get_mut(*number) else {
                return Ok(Advance {
                    ran: 0,
                    next: Some(Next::Stopped),
                });
            };
            go_on_below(child, rest, depth, cache)
        }
    }
}

/// What a space had in its place: how many local events, and whether these are as many as it may have there.
#[derive(Drop)]
struct Went {
    events: u32,
    lasts: bool,
}

// Whether there were as many events as there might be.
fn is_whole(next: &Option<Next>) -> bool {
    match next {
        Some(Next::Local) => true,
        Some(Next::Meet(_) | Next::Stopped) | None => false,
    }
}

// Local events of the space at a path, in its place.
fn go_on_in(tree: &mut Space, path: &Path, cache: &mut DecodeCache) -> Result<Went, AllocError>
    requires { is_local_at path.now.items greatest_depth tree.old ≡ true }
    ensures runs { IfOk result (λ went. RunsAt path.now.items went.events tree.old tree.new) }
    ensures within { IfOk result (λ went. went.events ≤ EVENTS_IN_PLACE) }
    ensures err { OnErr result (tree.new ≡ tree.old) }
{
    let advance = go_on_below(tree, path.as_slice(), path.len() as u8, cache)?;
    let lasts = is_whole(&advance.next);
    Ok(Went {
        events: advance.ran,
        lasts,
    })
}

// Whether the space at a path, where it went on as far as it might, may be taken, where these are at work.
fn may_go_on(tree: &Space, at_work: &PathSet, path: &Path, lasts: bool) -> bool
    ensures { result ≡ true → (out : Slots) → AreOut at_work.now out → MayBeTaken tree.now out path.now.items }
{
    if !lasts {
        return false;
    }
    may_be_taken(tree, at_work, path)
}

// Events of a space are the last entry of a history, and its path is the last of the news. It takes no memory.
fn note(history: &mut Vec<Entry>, news: &mut Vec<Path>, entry: Path, path: Path, events: u32)
    requires history { vec_len history.old < vec_capacity history.old }
    requires news { vec_len news.old < vec_capacity news.old }
    ensures history { history.new.items ≡ history.old.items ++ Ran entry events ∷ [] }
    ensures history_len { vec_len history.new ≡ vec_len history.old + 1 }
    ensures history_room { vec_capacity history.new ≡ vec_capacity history.old }
    ensures news { news.new.items ≡ news.old.items ++ path ∷ [] }
    ensures news_len { vec_len news.new ≡ vec_len news.old + 1 }
    ensures news_room { vec_capacity news.new ≡ vec_capacity news.old }
{
    news.push_reserved(path);
    let ran = Entry::Ran {
        path: entry,
        events,
    };
    history.push_reserved(ran);
}

impl Board {
    /// Lets the space at a path, which may be taken, have its next local events where it stands, `EVENTS_IN_PLACE` at most: they are the last entry of the history.
    /// Answers whether it may be taken still, and false, too, where it had fewer. The one error is want of memory, and then nothing has changed.
    pub(crate) fn go_on_at(&mut self, path: &Path) -> Result<bool, AllocError>
        requires { MayBeTaken self.old.tree self.old.out path.now.items }
        ensures gone { IfOk result (λ more. (events : ℕ) × HasGoneOn self.old path.now events self.new) }
        ensures more { IfOk result (λ more. more ≡ true → MayBeTaken self.new.tree self.new.out path.now.items) }
        ensures err { OnErr result (self.new ≡ self.old) }
    {
        let count = one_more(self.out.len())?;
        make_places(&mut self.history, &mut self.lists.news, count)?;
        let news = copy_path(path)?;
        let entry = copy_path(path)?;
        let went = go_on_in(&mut self.tree, path, &mut self.lists.cache)?;
        let lists = &mut self.lists;
        note(&mut self.history, &mut lists.news, entry, news, went.events);
        Ok(may_go_on(&self.tree, &lists.at_work, path, went.lasts))
    }
}
