ghost use Rattle.std.specs.Prelude.{◌≡◌, IfOk, IfSome, IsNone, codes};
ghost use Rattle.memory_model.specs.Memory.{Memory, byte_at};
ghost use Rattle.space_model.specs.Sound.{IsSound};
ghost use Rattle.space_model.specs.Space.{Space, Top};
ghost use Rattle.explain_core.specs.Beside.{child_of};
ghost use Rattle.explain_core.specs.declared.watching.Watched.TheVariants.{Byte};
ghost use Rattle.explain_why.specs.Origin.{TellsOrigin};
ghost use Rattle.explain_why.specs.Texts.{lone_conflict_text};
ghost use Rattle.explain_why.specs.Runs.{StillTell, TellRuns};
ghost use Rattle.explain_why.specs.Why.{ExplainsConflict, StandsAt, TellsConflict, all_events};

use crate::origin::{byte_origin, changed_byte};
use crate::runs::{Runs, byte_told};
use crate::texts::{bytes_text, conflict_text, lone_conflict_text};
use explain_core::{Watched, child_path, last_changes};
use space_tree::{Mem, Path, Space, Top, at, copy_tree};
use std::alloc::{AllocError, Global};

// The words before who changed the child's byte, and the parent's.
const CHILD: &str = "child changed by";

const PARENT: &str = "parent changed by";

// The tops of a space and of the child that it joined, and the child's snapshot.
#[derive(Drop)]
struct Sides<'a> {
    parent: &'a Top,
    child: &'a Top,
    snapshot: &'a Mem,
}

// Who changed the byte at an address, on the side of a child and on that of the space at a path that joined it, each asked for apart.
fn origins_apart(
    alloc: Global,
    root: &mut Space,
    path: &Path,
    below: &Path,
    child: &Mem,
    parent: &Mem,
    address: u32,
) -> Result<(Vec<u8>, Vec<u8>), AllocError>
    requires { IsSound root.old }
    ensures child { IfOk result (λ v. TellsOrigin root.old (Byte address) below.now.items all_events (byte_at child.now.memory address) (codes "child changed by") v.0.items) }
    ensures parent { IfOk result (λ v. TellsOrigin root.old (Byte address) path.now.items all_events (byte_at parent.now.memory address) (codes "parent changed by") v.1.items) }
    ensures same { root.new ≡ root.old }
{
    let by_child = byte_origin(alloc, root, below, address, child, CHILD)?;
    let by_parent = byte_origin(alloc, root, path, address, parent, PARENT)?;
    Ok((by_child, by_parent))
}

// The same, of which one run tells the last changes, unless one of the two has more events than it counts.
fn origins_beside(
    alloc: Global,
    root: &mut Space,
    path: &Path,
    below: &Path,
    number: u16,
    child: &Mem,
    parent: &Mem,
    address: u32,
) -> Result<(Vec<u8>, Vec<u8>), AllocError>
    requires sound { IsSound root.old }
    requires child { below.now.items ≡ child_of path.now.items number }
    ensures child { IfOk result (λ v. TellsOrigin root.old (Byte address) below.now.items all_events (byte_at child.now.memory address) (codes "child changed by") v.0.items) }
    ensures parent { IfOk result (λ v. TellsOrigin root.old (Byte address) path.now.items all_events (byte_at parent.now.memory address) (codes "parent changed by") v.1.items) }
    ensures same { root.new ≡ root.old }
{
    let tree = copy_tree(alloc, root)?;
    match last_changes(alloc, tree, path, below, number, Watched::Byte(address))? {
        Some((by_child, by_parent)) => {
            let of_child = changed_byte(alloc, root, below, address, child, by_child, CHILD)?;
            let of_parent = changed_byte(alloc, root, path, address, parent, by_parent, PARENT)?;
            Ok((of_child, of_parent))
        }
        None => origins_apart(alloc, root, path, below, child, parent, address),
    }
}

// The same by runs that answer for many spaces; none if they do not tell.
fn both_told(
    alloc: Global,
    runs: &mut Runs,
    path: &Path,
    below: &Path,
    child: &Mem,
    parent: &Mem,
    address: u32,
) -> Result<Option<(Vec<u8>, Vec<u8>)>, AllocError>
    ensures child { (root : Space) → IsSound root → TellRuns root runs.old → IfOk result (λ o. IfSome o (λ v. TellsOrigin root (Byte address) below.now.items all_events (byte_at child.now.memory address) (codes "child changed by") v.0.items)) }
    ensures parent { (root : Space) → IsSound root → TellRuns root runs.old → IfOk result (λ o. IfSome o (λ v. TellsOrigin root (Byte address) path.now.items all_events (byte_at parent.now.memory address) (codes "parent changed by") v.1.items)) }
    ensures runs { IfOk result (λ _. StillTell runs.old runs.new) }
{
    let Some(of_child) = byte_told(alloc, runs, below, address, child, CHILD)? else {
        return Ok(None);
    };
    let Some(of_parent) = byte_told(alloc, runs, path, address, parent, PARENT)? else {
        return Ok(None);
    };
    Ok(Some((of_child, of_parent)))
}

// The same, in runs of their own if those do not tell.
fn both_origins(
    alloc: Global,
    root: &mut Space,
    runs: &mut Runs,
    path: &Path,
    below: &Path,
    number: u16,
    child: &Mem,
    parent: &Mem,
    address: u32,
) -> Result<(Vec<u8>, Vec<u8>), AllocError>
    requires sound { IsSound root.old }
    requires runs { TellRuns root.old runs.old }
    requires child { below.now.items ≡ child_of path.now.items number }
    ensures child { IfOk result (λ v. TellsOrigin root.old (Byte address) below.now.items all_events (byte_at child.now.memory address) (codes "child changed by") v.0.items) }
    ensures parent { IfOk result (λ v. TellsOrigin root.old (Byte address) path.now.items all_events (byte_at parent.now.memory address) (codes "parent changed by") v.1.items) }
    ensures runs { IfOk result (λ _. StillTell runs.old runs.new) }
    ensures same { root.new ≡ root.old }
{
    match both_told(alloc, runs, path, below, child, parent, address)? {
        Some(told) => Ok(told),
        None => origins_beside(alloc, root, path, below, number, child, parent, address),
    }
}

// Of a space and the child that it joined, with the child's snapshot: the bytes at the address, and who changed the child's and the parent's.
fn told_conflict(
    alloc: Global,
    root: &mut Space,
    runs: &mut Runs,
    path: &Path,
    below: &Path,
    number: u16,
    sides: &Sides<'_>,
    address: u32,
) -> Result<Vec<u8>, AllocError>
    requires sound { IsSound root.old }
    requires runs { TellRuns root.old runs.old }
    requires child { below.now.items ≡ child_of path.now.items number }
    ensures told { IfOk result (λ v. TellsConflict root.old path.now.items below.now.items sides.now.parent.now sides.now.child.now sides.now.snapshot.now.memory address v.items) }
    ensures runs { IfOk result (λ _. StillTell runs.old runs.new) }
    ensures same { root.new ≡ root.old }
{
    let space = sides.parent;
    let joined = sides.child;
    let parent = &space.memory;
    let child = &joined.memory;
    let call = space.registers.register(17);
    let head = conflict_text(alloc, path, call, below, address)?;
    let bytes = bytes_text(
        alloc,
        sides.snapshot.byte(address),
        child.byte(address),
        parent.byte(address),
    )?;
    let (by_child, by_parent) = both_origins(
        alloc, root, runs, path, below, number, child, parent, address,
    )?;
    let mut text = head.into_bytes();
    text.extend_from_slice(bytes.as_bytes())?;
    text.extend_from_slice(&by_child)?;
    text.extend_from_slice(&by_parent)?;
    Ok(text)
}

// A space and the child at a path, with the child's snapshot; none exactly where no child with a snapshot stands there.
fn sides_of<'a>(end: &'a Space, below: &Path, parent: &'a Top) -> Option<Sides<'a>>
    ensures some { IfSome result (λ s. (s.parent.now ≡ parent.now) × StandsAt end.now below.now.items s.child.now s.snapshot.now.memory) }
    ensures none { IsNone result → (child : Top) (snapshot : Memory) → StandsAt end.now below.now.items child snapshot → ⊥ }
{
    let child = match at(end, below) {
        Some(space) => space.top(),
        None => return None,
    };
    match &child.snapshot {
        Some(snapshot) => Some(Sides {
            parent,
            child,
            snapshot,
        }),
        None => None,
    }
}

// That a space is in conflict at an address, and no more.
fn lone_conflict(alloc: Global, path: &Path, address: u32) -> Result<Vec<u8>, AllocError>
    ensures { IfOk result (λ v. v.items ≡ lone_conflict_text path.now.items address) }
{
    let line = lone_conflict_text(alloc, path, address)?;
    Ok(line.into_bytes())
}

/// Why a space of a settled tree is in conflict at an address: by which child, the bytes there, and who changed them.
pub(crate) fn explain_conflict(
    alloc: Global,
    root: &mut Space,
    runs: &mut Runs,
    end: &Space,
    path: &Path,
    parent: &Top,
    address: u32,
) -> Result<Vec<u8>, AllocError>
    requires sound { IsSound root.old }
    requires runs { TellRuns root.old runs.old }
    ensures told { IfOk result (λ v. ExplainsConflict root.old end.now path.now.items parent.now address v.items) }
    ensures runs { IfOk result (λ _. StillTell runs.old runs.new) }
    ensures same { root.new ≡ root.old }
{
    let number = parent.registers.register(11);
    let Some(below) = child_path(path, number)? else {
        return lone_conflict(alloc, path, address);
    };
    let Some(sides) = sides_of(end, &below, parent) else {
        return lone_conflict(alloc, path, address);
    };
    told_conflict(
        alloc,
        root,
        runs,
        path,
        &below,
        number as u16,
        &sides,
        address,
    )
}
