ghost use Rattle.std.specs.Prelude.{◌≡◌, ◌+◌, ◌<◌, ◌≤◌, ◌++◌, [], ◌∷◌, IfOk, IfSome, IsNone, OnOk, take, length, vec_len, vec_capacity};
ghost use Rattle.space_model.specs.Space.{Space};
ghost use Rattle.path_set.specs.Paths.{Has, paths_in};
ghost use Rattle.board.specs.Runs.{HasAllLists, HasAtHome, HasRun};
ghost use Rattle.board.specs.Jobs.{Slots};
ghost use Rattle.board.specs.Listed.{HasAll, HasAwaited, HasWay, IsListed};
ghost use Rattle.space_model.specs.Meeting.{awaits};

use crate::runs::Runs;
use path_set::PathSet;
use space_step::AcceptedCall;
use space_tree::Path;
use std::alloc::AllocError;
use trap_ret::awaits;

/// Lists a path among the spaces that may run and among the calls that may meet their children.
pub(crate) fn list(run: &mut Runs, calls: &mut PathSet, path: &Path) -> Result<(), AllocError>
    ensures places { run.new.places ≡ run.old.places }
    ensures run { HasAllLists run.new run.old }
    ensures calls { HasAll (Has calls.new) (Has calls.old) }
    ensures there { OnOk result (HasRun run.new path.now.items × Has calls.new path.now.items) }
{
    run.list(path)?;
    calls.insert(path.clone()?)
}

/// One more than so many. The one error stands for want of memory: no list is so long.
pub(crate) fn one_more(count: usize) -> Result<usize, AllocError>
    ensures { IfOk result (λ n. n ≡ count + 1) }
{
    count.checked_add(1).ok_or(AllocError)
}

/// How many entries of the history there may be once a call has met its children, so many of which come home, and so many jobs have come back: the error stands for want of memory.
pub(crate) fn with_moves(jobs: usize, away: usize) -> Result<usize, AllocError>
    ensures { IfOk result (λ n. n ≡ jobs + (away + 2)) }
{
    let moves = away.checked_add(2).ok_or(AllocError)?;
    jobs.checked_add(moves).ok_or(AllocError)
}

/// A path that is equal.
pub(crate) fn copy_path(path: &Path) -> Result<Path, AllocError>
    ensures { IfOk result (λ p. p ≡ path.now) }
{
    path.clone()
}

/// The path of a child of the space at a path, where there is a level for one.
pub(crate) fn child_path(path: &Path, number: u16) -> Result<Path, AllocError>
    requires { length path.now.items < 8 }
    ensures { IfOk result (λ p. p.items ≡ path.now.items ++ number ∷ []) }
{
    let mut child = path.clone()?;
    child.push(number);
    Ok(child)
}

// The first so many numbers of a path.
fn beginning(path: &Path, length: usize) -> Result<Path, AllocError>
    ensures { IfOk result (λ p. p.items ≡ take length path.now.items) }
{
    let mut above = path.clone()?;
    above.truncate(length);
    Ok(above)
}

// Puts a path into a set, and all that stand on the way to it.
#[tactic(auto, using(crate::proofs::Ways::none_shorter))]
fn put_way(paths: &mut PathSet, path: &Path) -> Result<(), AllocError>
    ensures all { HasAll (Has paths.new) (Has paths.old) }
    ensures way { OnOk result (HasWay (Has paths.new) path.now.items) }
{
    for length in 0..path.len() + 1 {
        let above = beginning(path, length)?;
        paths.insert(above)?;
    }
    Ok(())
}

// Lists all that stand on the way to a path among the spaces that may run.
#[tactic(auto, using(crate::proofs::Ways::none_shorter))]
fn list_way_to_run(run: &mut Runs, path: &Path) -> Result<(), AllocError>
    ensures places { run.new.places ≡ run.old.places }
    ensures all { HasAllLists run.new run.old }
    ensures way { OnOk result (HasWay (HasRun run.new) path.now.items) }
{
    for length in 0..path.len() + 1 {
        let above = beginning(path, length)?;
        run.list(&above)?;
    }
    Ok(())
}

/// Lists a path, and all that stand on the way to it.
pub(crate) fn list_way(run: &mut Runs, calls: &mut PathSet, path: &Path) -> Result<(), AllocError>
    ensures places { run.new.places ≡ run.old.places }
    ensures run { HasAllLists run.new run.old }
    ensures calls { HasAll (Has calls.new) (Has calls.old) }
    ensures way { OnOk result (HasWay (HasRun run.new) path.now.items × HasWay (Has calls.new) path.now.items) }
{
    list_way_to_run(run, path)?;
    put_way(calls, path)
}

// Lists a path that is news: its space may run, and so may each call on the way to it meet its children.
fn list_one_of_news(run: &mut Runs, calls: &mut PathSet, path: &Path) -> Result<(), AllocError>
    ensures places { run.new.places ≡ run.old.places }
    ensures run { HasAllLists run.new run.old }
    ensures calls { HasAll (Has calls.new) (Has calls.old) }
    ensures there { OnOk result (HasRun run.new path.now.items × HasWay (Has calls.new) path.now.items) }
{
    run.list(path)?;
    put_way(calls, path)
}

/// The path of a child of the space at a path, where a space can stand there.
pub(crate) fn path_below(path: &Path, number: u16) -> Result<Option<Path>, AllocError>
    ensures some { IfOk result (λ o. IfSome o (λ p. (p.items ≡ path.now.items ++ number ∷ []) × (length path.now.items < 8))) }
    ensures none { IfOk result (λ o. IsNone o → 8 ≤ length path.now.items) }
{
    let mut child = path.clone()?;
    if child.try_push(number).is_err() {
        return Ok(None);
    }
    Ok(Some(child))
}

// Lists a child of the space at a path, where a space can stand there: among the spaces that may run for its home.
fn list_child(
    run: &mut Runs,
    calls: &mut PathSet,
    path: &Path,
    number: u16,
) -> Result<(), AllocError>
    ensures places { run.new.places ≡ run.old.places }
    ensures run { HasAllLists run.new run.old }
    ensures calls { HasAll (Has calls.new) (Has calls.old) }
    ensures there { OnOk result (length path.now.items < 8 → HasAtHome run.new (path.now.items ++ number ∷ []) × Has calls.new (path.now.items ++ number ∷ [])) }
{
    let Some(child) = path_below(path, number)? else {
        return Ok(());
    };
    let home = run.places.home(&child);
    run.list_on(&child, home)?;
    calls.insert(child)
}

/// Lists the children of the space at a path that its call awaits, for their homes.
pub(crate) fn list_awaited(
    run: &mut Runs,
    calls: &mut PathSet,
    path: &Path,
    call: AcceptedCall,
) -> Result<(), AllocError>
    ensures places { run.new.places ≡ run.old.places }
    ensures run { HasAllLists run.new run.old }
    ensures calls { HasAll (Has calls.new) (Has calls.old) }
    ensures awaited { OnOk result (HasAwaited (HasAtHome run.new) (awaits call) path.now.items × HasAwaited (Has calls.new) (awaits call) path.now.items) }
{
    let all = awaits(call);
    for index in 0..all.len() {
        let awaited = all.get(index);
        list_child(run, calls, path, awaited.number)?;
    }
    Ok(())
}

/// Brings the lists up to date: the news are listed, as are the calls on the way to them, and no news are left.
pub(crate) fn list_news(
    run: &mut Runs,
    calls: &mut PathSet,
    news: &mut Vec<Path>,
) -> Result<(), AllocError>
    ensures places { run.new.places ≡ run.old.places }
    ensures listed { (tree : Space) (out : Slots) → IsListed tree run.old calls.old (paths_in news.old.items) out → IsListed tree run.new calls.new (paths_in news.new.items) out }
    ensures none { OnOk result (news.new.items ≡ []) }
    ensures fewer { vec_len news.new ≤ vec_len news.old }
    ensures capacity { vec_capacity news.new ≡ vec_capacity news.old }
{
    while let Some(path) = news.pop() {
        if list_one_of_news(run, calls, &path).is_err() {
            news.push_reserved(path);
            return Err(AllocError);
        }
    }
    Ok(())
}
