ghost use Rattle.std.specs.Prelude.{◌≡◌, ℕ, ◌++◌, ◌∷◌, None, Some, IfOk, IfSome, IsNone, codes, map, option_map};
ghost use Rattle.memory_model.specs.Memory.{byte_at};
ghost use Rattle.space_model.specs.Sound.{IsSound};
ghost use Rattle.space_model.specs.Space.{Space};
ghost use Rattle.explain_core.specs.declared.watching.Watched.TheVariants.{Byte};
ghost use Rattle.explain_core.specs.Watch.{noted_of};
ghost use Rattle.explain_core.specs.Reached.{TellsLast};
ghost use Rattle.explain_core.specs.Joins.{is_join, joined_path};
ghost use Rattle.explain_core.specs.Lineage.{TellsLineage, noted_link};
ghost use Rattle.explain_why.specs.Origin.{IsLeft, IsLeftBy, TellsOrigin, where_left};
ghost use Rattle.explain_why.specs.Sought.{IsSoughtBelow};
ghost use Rattle.explain_why.specs.Why.{all_events};

use crate::paths::copy_path;
use explain_core::{
    Change, ChangeBefore, LineageLink, Watched, change_before, child_path, is_call, last_change,
    merges,
};
use space_tree::{Mem, Path, Space, copy_tree};
use std::alloc::{AllocError, Global};

// Who left this value, of what is watched, of the first so many own events at a path.
#[derive(Drop)]
struct Sought {
    path: Path,
    to: u64,
    watched: Watched,
    value: u32,
}

// The last event that changed what is watched, where it left the value that is sought.
fn where_left(sought: &Sought, change: Option<Change>) -> Option<Change>
    ensures { option_map noted_of result ≡ where_left sought.now.value (option_map noted_of change) }
{
    match change {
        None => None,
        Some(change) => {
            if change.value == sought.value {
                Some(change)
            } else {
                None
            }
        }
    }
}

// The last event that left the value that is sought.
fn left_by(alloc: Global, root: &mut Space, sought: &Sought) -> Result<Option<Change>, AllocError>
    requires { IsSound root.old }
    ensures left { IfOk result (λ o. IsLeft root.old sought.now.path.items sought.now.to sought.now.watched sought.now.value (option_map noted_of o)) }
    ensures same { root.new ≡ root.old }
{
    let tree = copy_tree(alloc, root)?;
    let change = last_change(alloc, tree, &sought.path, sought.to, sought.watched)?;
    Ok(where_left(sought, change))
}

// Whether an event joined a child.
fn is_join(watched: Watched, change: &Change) -> bool
    ensures { result ≡ is_join watched (noted_of change.now) }
{
    match watched {
        Watched::Byte(_) => is_call(change.instruction) && merges(&change.registers),
        Watched::Register(_) => false,
    }
}

// The path of the child that an event at a path joined.
fn joined_path(path: &Path, watched: Watched, change: &Change) -> Result<Option<Path>, AllocError>
    ensures { IfOk result (λ o. option_map (λ p. p.items) o ≡ joined_path path.now.items watched (noted_of change.now)) }
{
    if !is_join(watched, change) {
        return Ok(None);
    }
    child_path(path, change.registers.register(11))
}

// A word, and that no own event changed what is watched.
fn line_of_none(alloc: Global, word: &str) -> Result<Vec<u8>, AllocError>
    ensures { IfOk result (λ v. v.items ≡ word.now ++ codes " no own event\n") }
{
    let line = format!(in alloc; "{word} no own event\n")?;
    Ok(line.into_bytes())
}

// A word, a line, and what stands behind it.
fn line_of_change(
    alloc: Global,
    word: &str,
    line: &[u8],
    rest: &[u8],
) -> Result<Vec<u8>, AllocError>
    ensures { IfOk result (λ v. v.items ≡ word.now ++ 32 ∷ (line.now ++ rest.now)) }
{
    let mut text = Vec::new(alloc);
    text.extend_from_slice(word.as_bytes())?;
    text.push(b' ')?;
    text.extend_from_slice(line)?;
    text.extend_from_slice(rest)?;
    Ok(text)
}

// The same sought at another path, of the first so many own events there.
fn sought_at(sought: &Sought, path: Path, to: u64) -> Sought
    ensures { result ≡ record sought.now { path = path; to = to } }
{
    Sought {
        path,
        to,
        watched: sought.watched,
        value: sought.value,
    }
}

// What is sought of the child at a path that an event joined, and who left the value. One run tells how many own events the child has before the event, and the last of
// them that changed what is watched; where it has more than are counted, all that are counted are asked.
fn sought_below(
    alloc: Global,
    root: &mut Space,
    sought: &Sought,
    change: &Change,
    path: Path,
) -> Result<(Sought, Option<Change>), AllocError>
    requires sound { IsSound root.old }
    requires left { IsLeftBy root.old sought.now.path.items sought.now.to sought.now.watched sought.now.value (noted_of change.now) }
    requires path { joined_path sought.now.path.items sought.now.watched (noted_of change.now) ≡ Some path.items }
    ensures below { IfOk result (λ r. IsSoughtBelow root.old sought.now (noted_of change.now) r.0) }
    ensures left { IfOk result (λ r. IsLeft root.old r.0.path.items r.0.to r.0.watched r.0.value (option_map noted_of r.1)) }
    ensures same { root.new ≡ root.old }
{
    let number = change.number;
    let child = change.registers.register(11) as u16;
    let watched = sought.watched;
    let tree = copy_tree(alloc, root)?;
    match change_before(alloc, tree, &sought.path, number, &path, child, watched)? {
        Some(ChangeBefore { count, change }) => {
            let below = sought_at(sought, path, count);
            let left = where_left(&below, change);
            Ok((below, left))
        }
        None => {
            let below = sought_at(sought, path, u64::MAX);
            let left = left_by(alloc, root, &below)?;
            Ok((below, left))
        }
    }
}

// What is sought of the child that an event joined: who of its own events before it left the value; and the one that did. None exactly where the event joined none.
fn joined(
    alloc: Global,
    root: &mut Space,
    sought: &Sought,
    change: &Change,
) -> Result<Option<(Sought, Option<Change>)>, AllocError>
    requires sound { IsSound root.old }
    requires left { IsLeftBy root.old sought.now.path.items sought.now.to sought.now.watched sought.now.value (noted_of change.now) }
    ensures some { IfOk result (λ o. IfSome o (λ r. IsSoughtBelow root.old sought.now (noted_of change.now) r.0)) }
    ensures left { IfOk result (λ o. IfSome o (λ r. IsLeft root.old r.0.path.items r.0.to r.0.watched r.0.value (option_map noted_of r.1))) }
    ensures none { IfOk result (λ o. IsNone o → joined_path sought.now.path.items sought.now.watched (noted_of change.now) ≡ None) }
    ensures same { root.new ≡ root.old }
{
    match joined_path(&sought.path, sought.watched, change)? {
        None => Ok(None),
        Some(path) => {
            let below = sought_below(alloc, root, sought, change, path)?;
            Ok(Some(below))
        }
    }
}

// A line for the event that left a value, where one did, behind a word; and behind one that joined a child, on through it to the one who stored.
fn origin_of(
    alloc: Global,
    root: &mut Space,
    sought: &Sought,
    change: Option<Change>,
    word: &str,
) -> Result<Vec<u8>, AllocError>
    requires sound { IsSound root.old }
    requires left { IsLeft root.old sought.now.path.items sought.now.to sought.now.watched sought.now.value (option_map noted_of change) }
    ensures told { IfOk result (λ v. TellsOrigin root.old sought.now.watched sought.now.path.items sought.now.to sought.now.value word.now v.items) }
    ensures same { root.new ≡ root.old }
{
    let Some(change) = change else {
        return line_of_none(alloc, word);
    };
    let Some((below, left)) = joined(alloc, root, sought, &change)? else {
        return line_of_change(alloc, word, &change.line, b"");
    };
    let rest = origin_of(alloc, root, &below, left, "through")?;
    line_of_change(alloc, word, &change.line, &rest)
}

// What is sought of what is watched: who left this value, of all own events of a path.
fn all_sought(path: &Path, watched: Watched, value: u32) -> Result<Sought, AllocError>
    ensures path { IfOk result (λ s. s.path.items ≡ path.now.items) }
    ensures rest { IfOk result (λ s. (s.to ≡ all_events) × (s.watched ≡ watched) × (s.value ≡ value)) }
{
    Ok(Sought {
        path: copy_path(path)?,
        to: u64::MAX,
        watched,
        value,
    })
}

/// A line for the event that left a value of what is watched, where the last of all own events of a path that changed it is known.
pub(crate) fn changed_origin(
    alloc: Global,
    root: &mut Space,
    path: &Path,
    watched: Watched,
    value: u32,
    change: Option<Change>,
    word: &str,
) -> Result<Vec<u8>, AllocError>
    requires sound { IsSound root.old }
    requires change { TellsLast root.old path.now.items all_events watched (option_map noted_of change) }
    ensures told { IfOk result (λ v. TellsOrigin root.old watched path.now.items all_events value word.now v.items) }
    ensures same { root.new ≡ root.old }
{
    let sought = all_sought(path, watched, value)?;
    let left = where_left(&sought, change);
    origin_of(alloc, root, &sought, left, word)
}

/// A line for the event that left a value of what is watched, among all own events of a path.
pub(crate) fn last_origin(
    alloc: Global,
    root: &mut Space,
    path: &Path,
    watched: Watched,
    value: u32,
    word: &str,
) -> Result<Vec<u8>, AllocError>
    requires { IsSound root.old }
    ensures told { IfOk result (λ v. TellsOrigin root.old watched path.now.items all_events value word.now v.items) }
    ensures same { root.new ≡ root.old }
{
    let sought = all_sought(path, watched, value)?;
    let left = left_by(alloc, root, &sought)?;
    origin_of(alloc, root, &sought, left, word)
}

// The event of a link that left a value, if it did.
fn left_in(link: &LineageLink, value: u32) -> Option<&Change>
    ensures { option_map (λ c. noted_of c.now) result ≡ where_left value (let l = noted_link link.now in l.change) }
{
    match &link.change {
        None => None,
        Some(change) => {
            if change.value == value {
                Some(change)
            } else {
                None
            }
        }
    }
}

/// A line for the event that left a value of what is watched, by the lineage of a path; and behind one that joined a child, on by the child's.
pub(crate) fn lineage_origin(
    alloc: Global,
    path: &Path,
    watched: Watched,
    value: u32,
    lineage: &[LineageLink],
    word: &str,
) -> Result<Vec<u8>, AllocError>
    ensures { (root : Space) (to : ℕ) → TellsLineage root watched path.now.items to (map noted_link lineage.now) → IfOk result (λ v. TellsOrigin root watched path.now.items to value word.now v.items) }
{
    let [link, below @ ..] = lineage else {
        return line_of_none(alloc, word);
    };
    let Some(change) = left_in(link, value) else {
        return line_of_none(alloc, word);
    };
    let Some(child) = joined_path(path, watched, change)? else {
        return line_of_change(alloc, word, &change.line, b"");
    };
    let rest = lineage_origin(alloc, &child, watched, value, below, "through")?;
    line_of_change(alloc, word, &change.line, &rest)
}

/// A line for the event that left the byte at an address of a memory, by the lineage of a path.
pub(crate) fn lineage_byte(
    alloc: Global,
    path: &Path,
    address: u32,
    memory: &Mem,
    lineage: &[LineageLink],
    word: &str,
) -> Result<Vec<u8>, AllocError>
    ensures { (root : Space) → TellsLineage root (Byte address) path.now.items all_events (map noted_link lineage.now) → IfOk result (λ v. TellsOrigin root (Byte address) path.now.items all_events (byte_at memory.now.memory address) word.now v.items) }
{
    let byte = u32::from(memory.byte(address));
    lineage_origin(alloc, path, Watched::Byte(address), byte, lineage, word)
}

/// A line for the event that left the byte at an address of a memory, where the last of all own events of a path that changed it is known.
pub(crate) fn changed_byte(
    alloc: Global,
    root: &mut Space,
    path: &Path,
    address: u32,
    memory: &Mem,
    change: Option<Change>,
    word: &str,
) -> Result<Vec<u8>, AllocError>
    requires sound { IsSound root.old }
    requires change { TellsLast root.old path.now.items all_events (Byte address) (option_map noted_of change) }
    ensures told { IfOk result (λ v. TellsOrigin root.old (Byte address) path.now.items all_events (byte_at memory.now.memory address) word.now v.items) }
    ensures same { root.new ≡ root.old }
{
    let byte = u32::from(memory.byte(address));
    changed_origin(
        alloc,
        root,
        path,
        Watched::Byte(address),
        byte,
        change,
        word,
    )
}

/// A line for the event that left the byte at an address of a memory, among all own events of a path.
pub(crate) fn byte_origin(
    alloc: Global,
    root: &mut Space,
    path: &Path,
    address: u32,
    memory: &Mem,
    word: &str,
) -> Result<Vec<u8>, AllocError>
    requires { IsSound root.old }
    ensures told { IfOk result (λ v. TellsOrigin root.old (Byte address) path.now.items all_events (byte_at memory.now.memory address) word.now v.items) }
    ensures same { root.new ≡ root.old }
{
    let watched = Watched::Byte(address);
    let byte = u32::from(memory.byte(address));
    last_origin(alloc, root, path, watched, byte, word)
}
