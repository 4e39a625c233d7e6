ghost use Rattle.std.specs.Prelude.{◌≡◌, ◌<◌, ◌-◌, IfOk, IfSome, true, map, option_map};
ghost use Rattle.space_model.specs.Sound.{IsSound};
ghost use Rattle.space_model.specs.Space.{Space};
ghost use Rattle.space_model.specs.Stop.{is_stopped};
ghost use Rattle.explain_core.specs.declared.watching.Watched.TheVariants.{Register};
ghost use Rattle.explain_core.specs.Instructions.{instruction_at_pc};
ghost use Rattle.explain_core.specs.LastLines.{TellsLines};
ghost use Rattle.explain_core.specs.Lineage.{events_told, noted_link};
ghost use Rattle.explain_core.specs.Reached.{HasSoMany, IsTrace, TellsLastOf};
ghost use Rattle.explain_core.specs.Watch.{noted_of};
ghost use Rattle.explain_why.specs.Trapped.{TellsLastTwo};
ghost use Rattle.explain_why.specs.Runs.{StillTell, TellRuns, TellsLineageOf, watched_by};
ghost use Rattle.explain_why.specs.Why.{TellsRegister, TellsTrap, address_register, all_events, base_register};

use crate::origin::{changed_origin, last_origin, lineage_origin};
use crate::runs::{Runs, events_told, lineage_in, lines_in};
use crate::texts::{register_word, trap_text};
use explain_core::{
    Change, LastEvents, LineRun, LineageLink, Watched, count_events, instruction_at_pc,
    last_events, trace,
};
use rv_decode::{Instr, Instruction};
use space_tree::{Cause, Path, Space, Status, Top, copy_tree};
use std::alloc::{AllocError, Global};

// The register from which an instruction makes the address of a load or a store.
fn base_register(instruction: Option<Instr>) -> Option<u8>
    ensures base { result ≡ base_register instruction }
    ensures within { IfSome result (λ r. r < 32) }
{
    match instruction?.instruction() {
        Instruction::Load { rs1, .. } | Instruction::Store { rs1, .. } => Some(rs1),
        _ => None,
    }
}

/// Of a space that a load or a store has stopped: that register.
pub(crate) fn address_register(top: &Top) -> Option<u8>
    ensures base { let t = top.now in result ≡ address_register t.status (instruction_at_pc t) }
    ensures within { IfSome result (λ r. r < 32) }
{
    match top.status {
        Status::Stopped {
            cause: Cause::LoadMisaligned
            | Cause::LoadFault
            | Cause::StoreMisaligned
            | Cause::StoreFault,
            ..
        } => base_register(instruction_at_pc(top)),
        _ => None,
    }
}

/// What is watched of a space that a trap has stopped: the register of the address, or x0, which never changes.
pub(crate) fn trap_watched(register: Option<u8>) -> Watched
    ensures { result ≡ watched_by register }
{
    match register {
        Some(register) => Watched::Register(register),
        None => Watched::Register(0),
    }
}

// What is watched: a register, where one is asked for.
fn watched_register(register: Option<u8>) -> Option<Watched>
    ensures { result ≡ option_map Register register }
{
    match register {
        Some(register) => Some(Watched::Register(register)),
        None => None,
    }
}

// Who changed a register of a space of a settled tree, where one is asked for and the last own event that changed it is known.
fn changed_register(
    alloc: Global,
    root: &mut Space,
    path: &Path,
    top: &Top,
    register: Option<u8>,
    change: Option<Change>,
) -> Result<Vec<u8>, AllocError>
    requires sound { IsSound root.old }
    requires within { IfSome register (λ r. r < 32) }
    requires change { TellsLastOf root.old path.now.items all_events (option_map Register register) (option_map noted_of change) }
    ensures told { IfOk result (λ v. TellsRegister root.old path.now.items top.now register v.items) }
    ensures same { root.new ≡ root.old }
{
    let Some(register) = register else {
        return Ok(Vec::new(alloc));
    };
    let word = register_word(alloc, register)?;
    let watched = Watched::Register(register);
    let value = top.registers.register(register);
    changed_origin(alloc, root, path, watched, value, change, &word)
}

// Who changed a register of a space of a settled tree, where one is asked for.
fn register_origin(
    alloc: Global,
    root: &mut Space,
    path: &Path,
    top: &Top,
    register: Option<u8>,
) -> Result<Vec<u8>, AllocError>
    requires sound { IsSound root.old }
    requires within { IfSome register (λ r. r < 32) }
    ensures told { IfOk result (λ v. TellsRegister root.old path.now.items top.now register v.items) }
    ensures same { root.new ≡ root.old }
{
    let Some(register) = register else {
        return Ok(Vec::new(alloc));
    };
    let word = register_word(alloc, register)?;
    let watched = Watched::Register(register);
    let value = top.registers.register(register);
    last_origin(alloc, root, path, watched, value, &word)
}

// How many own events a path has until no space of the tree runs any more.
fn events_of(alloc: Global, root: &mut Space, path: &Path) -> Result<u64, AllocError>
    requires { IsSound root.old }
    ensures count { IfOk result (λ n. HasSoMany root.old path.now.items n) }
    ensures same { root.new ≡ root.old }
{
    let tree = copy_tree(alloc, root)?;
    count_events(alloc, tree, path)
}

// The lines of the last two of so many own events of a path.
fn last_two(alloc: Global, root: &mut Space, path: &Path, count: u64) -> Result<Vec<u8>, AllocError>
    requires { IsSound root.old }
    ensures told { IfOk result (λ v. IsTrace root.old path.now.items (count - 1) count v.items) }
    ensures same { root.new ≡ root.old }
{
    if count == 0 {
        return Ok(Vec::new(alloc));
    }
    let tree = copy_tree(alloc, root)?;
    trace(alloc, tree, path, count - 1, count)
}

// The last two own events of a space of a settled tree, and who changed a register, where one is asked for: each question in a run of its own.
fn told_in_turn(
    alloc: Global,
    root: &mut Space,
    path: &Path,
    top: &Top,
    register: Option<u8>,
) -> Result<(Vec<u8>, Vec<u8>), AllocError>
    requires sound { IsSound root.old }
    requires within { IfSome register (λ r. r < 32) }
    ensures told { IfOk result (λ v. TellsLastTwo root.old path.now.items top.now register v.0.items v.1.items) }
    ensures same { root.new ≡ root.old }
{
    let count = events_of(alloc, root, path)?;
    let events = last_two(alloc, root, path, count)?;
    let source = register_origin(alloc, root, path, top, register)?;
    Ok((events, source))
}

// The same in one run, where the path has as many own events as the space that stands there has used: so it is unless Put has copied or made it anew.
fn told_at_once(
    alloc: Global,
    root: &mut Space,
    path: &Path,
    top: &Top,
    register: Option<u8>,
) -> Result<(Vec<u8>, Vec<u8>), AllocError>
    requires sound { IsSound root.old }
    requires within { IfSome register (λ r. r < 32) }
    ensures told { IfOk result (λ v. TellsLastTwo root.old path.now.items top.now register v.0.items v.1.items) }
    ensures same { root.new ≡ root.old }
{
    let tree = copy_tree(alloc, root)?;
    let count = u64::from(top.used);
    match last_events(alloc, tree, path, count, watched_register(register))? {
        Some(LastEvents { lines, change }) => {
            let source = changed_register(alloc, root, path, top, register, change)?;
            Ok((lines, source))
        }
        None => told_in_turn(alloc, root, path, top, register),
    }
}

// Who changed a register of a space of a settled tree, where one is asked for, by the lineage of the path.
fn register_lineage(
    alloc: Global,
    path: &Path,
    top: &Top,
    register: Option<u8>,
    lineage: &[LineageLink],
) -> Result<Vec<u8>, AllocError>
    requires { IfSome register (λ r. r < 32) }
    ensures { (root : Space) → TellsLineageOf root path.now.items register (map noted_link lineage.now) → IfOk result (λ v. TellsRegister root path.now.items top.now register v.items) }
{
    let Some(register) = register else {
        return Ok(Vec::new(alloc));
    };
    let word = register_word(alloc, register)?;
    let watched = Watched::Register(register);
    let value = top.registers.register(register);
    lineage_origin(alloc, path, watched, value, lineage, &word)
}

// The last two own events of a space of a settled tree, and who changed a register, if one is asked for, by the lineage of the path; none if no run tells the events.
fn told_by_lineage(
    alloc: Global,
    lines: &mut Option<LineRun>,
    path: &Path,
    top: &Top,
    register: Option<u8>,
    lineage: &[LineageLink],
) -> Result<Option<(Vec<u8>, Vec<u8>)>, AllocError>
    requires { IfSome register (λ r. r < 32) }
    ensures told { (root : Space) → HasSoMany root path.now.items (events_told (map noted_link lineage.now)) → TellsLineageOf root path.now.items register (map noted_link lineage.now) → IfSome lines.old (TellsLines root) → IfOk result (λ o. IfSome o (λ v. TellsLastTwo root path.now.items top.now register v.0.items v.1.items)) }
    ensures lines { IfOk result (λ _. (root : Space) → IfSome lines.old (TellsLines root) → IfSome lines.new (TellsLines root)) }
{
    let count = events_told(lineage);
    let Some(events) = lines_in(alloc, lines, path, count)? else {
        return Ok(None);
    };
    let source = register_lineage(alloc, path, top, register, lineage)?;
    Ok(Some((events, source)))
}

// The same by runs that answer for many spaces; none if they do not tell.
fn told_together(
    alloc: Global,
    runs: &mut Runs,
    path: &Path,
    top: &Top,
    register: Option<u8>,
) -> Result<Option<(Vec<u8>, Vec<u8>)>, AllocError>
    requires { IfSome register (λ r. r < 32) }
    ensures told { (root : Space) → IsSound root → TellRuns root runs.old → IfOk result (λ o. IfSome o (λ v. TellsLastTwo root path.now.items top.now register v.0.items v.1.items)) }
    ensures runs { IfOk result (λ _. StillTell runs.old runs.new) }
{
    if runs.lines.is_none() {
        return Ok(None);
    }
    match lineage_in(alloc, &mut runs.lineages, path, trap_watched(register))? {
        Some(links) => told_by_lineage(alloc, &mut runs.lines, path, top, register, &links),
        None => Ok(None),
    }
}

// The same, in runs of its own if those do not tell.
fn told_of_trap(
    alloc: Global,
    root: &mut Space,
    runs: &mut Runs,
    path: &Path,
    top: &Top,
    register: Option<u8>,
) -> Result<(Vec<u8>, Vec<u8>), AllocError>
    requires sound { IsSound root.old }
    requires runs { TellRuns root.old runs.old }
    requires within { IfSome register (λ r. r < 32) }
    ensures told { IfOk result (λ v. TellsLastTwo root.old path.now.items top.now register v.0.items v.1.items) }
    ensures runs { IfOk result (λ _. StillTell runs.old runs.new) }
    ensures same { root.new ≡ root.old }
{
    match told_together(alloc, runs, path, top, register)? {
        Some(told) => Ok(told),
        None => told_at_once(alloc, root, path, top, register),
    }
}

/// Why a trap has stopped a space of a settled tree: the event before it, the trap, and who changed the register of the address.
pub(crate) fn explain_trap(
    alloc: Global,
    root: &mut Space,
    runs: &mut Runs,
    path: &Path,
    top: &Top,
) -> Result<Vec<u8>, AllocError>
    requires sound { IsSound root.old }
    requires runs { TellRuns root.old runs.old }
    requires stopped { let t = top.now in is_stopped t.status ≡ true }
    ensures told { IfOk result (λ v. TellsTrap root.old path.now.items top.now v.items) }
    ensures runs { IfOk result (λ _. StillTell runs.old runs.new) }
    ensures same { root.new ≡ root.old }
{
    let head = trap_text(alloc, path, top.status)?;
    let register = address_register(top);
    let (events, source) = told_of_trap(alloc, root, runs, path, top, register)?;
    let mut text = head.into_bytes();
    text.extend_from_slice(&events)?;
    text.extend_from_slice(&source)?;
    Ok(text)
}
