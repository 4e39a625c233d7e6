ghost use Rattle.std.specs.Prelude.{◌≡◌, ◌-◌, IfOk, IfSome, map};
ghost use Rattle.memory_model.specs.Memory.{byte_at};
ghost use Rattle.space_model.specs.Sound.{IsSound};
ghost use Rattle.space_model.specs.Space.{Space};
ghost use Rattle.explain_core.specs.declared.watching.Watched.TheVariants.{Byte};
ghost use Rattle.explain_core.specs.LastLines.{TellsLines};
ghost use Rattle.explain_core.specs.Lineage.{TellsLineage, events_told, noted_link};
ghost use Rattle.explain_core.specs.Reached.{HasSoMany, IsTrace};
ghost use Rattle.explain_why.specs.Origin.{TellsOrigin};
ghost use Rattle.explain_why.specs.Runs.{StillTell, TellAll, TellRuns};
ghost use Rattle.explain_why.specs.Why.{all_events};

use crate::origin::lineage_byte;
use explain_core::{LineRun, LineageLink, LineageRun, Watched, last_two_lines, lineage_of};
use space_tree::{Mem, Path};
use std::alloc::{AllocError, Global};

/// Runs of a tree that answer for many of its spaces: where what is watched comes from, and the last two events of spaces, if two or more trapped.
#[derive(Drop)]
pub(crate) struct Runs {
    pub(crate) lineages: Vec<LineageRun>,
    pub(crate) lines: Option<LineRun>,
}

/// Where what is watched of a path comes from, by the first run that tells; none if none does.
pub(crate) fn lineage_in(
    alloc: Global,
    runs: &mut Vec<LineageRun>,
    path: &Path,
    watched: Watched,
) -> Result<Option<Vec<LineageLink>>, AllocError>
    ensures tells { (root : Space) → IsSound root → TellAll root runs.old.items → IfOk result (λ o. IfSome o (λ v. TellsLineage root watched path.now.items all_events (map noted_link v.items))) }
    ensures count { (root : Space) → IsSound root → TellAll root runs.old.items → IfOk result (λ o. IfSome o (λ v. HasSoMany root path.now.items (events_told (map noted_link v.items)))) }
    ensures runs { IfOk result (λ _. (root : Space) → TellAll root runs.old.items → TellAll root runs.new.items) }
{
    for index in 0..runs.len() {
        let found = lineage_of(alloc, &mut runs[index], path, watched)?;
        if found.is_some() {
            return Ok(found);
        }
    }
    Ok(None)
}

/// How many own events the first of these links tells of.
pub(crate) fn events_told(links: &[LineageLink]) -> u64
    ensures { result ≡ events_told (map noted_link links.now) }
{
    match links {
        [] => 0,
        [first, ..] => first.count,
    }
}

/// The lines of the last two of the first `count` own events of a path; none if no run tells.
pub(crate) fn lines_in(
    alloc: Global,
    lines: &mut Option<LineRun>,
    path: &Path,
    count: u64,
) -> Result<Option<Vec<u8>>, AllocError>
    ensures lines { IfOk result (λ o. IfSome o (λ v. (root : Space) → IfSome lines.old (TellsLines root) → IsTrace root path.now.items (count - 1) count v.items)) }
    ensures run { IfOk result (λ _. (root : Space) → IfSome lines.old (TellsLines root) → IfSome lines.new (TellsLines root)) }
{
    match lines {
        Some(run) => last_two_lines(alloc, run, path, count),
        None => Ok(None),
    }
}

// Who changed the byte at an address of a memory of a space, by its lineage.
fn byte_by_lineage(
    alloc: Global,
    path: &Path,
    address: u32,
    memory: &Mem,
    lineage: &[LineageLink],
    word: &str,
) -> Result<Option<Vec<u8>>, AllocError>
    ensures { (root : Space) → TellsLineage root (Byte address) path.now.items all_events (map noted_link lineage.now) → IfOk result (λ o. IfSome o (λ v. TellsOrigin root (Byte address) path.now.items all_events (byte_at memory.now.memory address) word.now v.items)) }
{
    let text = lineage_byte(alloc, path, address, memory, lineage, word)?;
    Ok(Some(text))
}

/// Who changed the byte at an address of a memory of a space, by the first run that tells; none if none does.
pub(crate) fn byte_told(
    alloc: Global,
    runs: &mut Runs,
    path: &Path,
    address: u32,
    memory: &Mem,
    word: &str,
) -> Result<Option<Vec<u8>>, AllocError>
    ensures told { (root : Space) → IsSound root → TellRuns root runs.old → IfOk result (λ o. IfSome o (λ v. TellsOrigin root (Byte address) path.now.items all_events (byte_at memory.now.memory address) word.now v.items)) }
    ensures runs { IfOk result (λ _. StillTell runs.old runs.new) }
{
    match lineage_in(alloc, &mut runs.lineages, path, Watched::Byte(address))? {
        Some(links) => byte_by_lineage(alloc, path, address, memory, &links, word),
        None => Ok(None),
    }
}
