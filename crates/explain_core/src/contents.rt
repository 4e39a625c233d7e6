ghost use Rattle.std.specs.Prelude.{◌≡◌, ◌++◌, IfOk, OnOk, string_bytes};
ghost use Rattle.std.specs.List.{flat_map};
ghost use Rattle.space_mem.specs.Held.{Covers, CoversIn, memory_in};
ghost use Rattle.explain_core.specs.Pages.{changed_pages, runs_of};
ghost use Rattle.explain_core.specs.Contents.{change_line, changed_text, contents_text, run_text};

use crate::files::push_files;
use crate::pages::{Run, changed_pages, runs_of};
use space_tree::Mem;
use std::alloc::{AllocError, Global};

// A run of pages.
fn run_text(alloc: Global, run: &Run) -> Result<String, AllocError>
    ensures { IfOk result (λ s. string_bytes s ≡ run_text run.now) }
{
    let first = run.first;
    let last = run.last;
    let permission = run.permission;
    format!(in alloc; "pages {first:08x} to {last:08x} permission {permission}\n")
}

// Appends a line for each of these runs of pages.
fn push_run_lines(alloc: Global, text: &mut Vec<u8>, runs: &[Run]) -> Result<(), AllocError>
    ensures { OnOk result (text.new.items ≡ text.old.items ++ flat_map run_text runs.now) }
{
    for run in runs {
        let line = run_text(alloc, run)?;
        text.extend_from_slice(line.as_bytes())?;
    }
    Ok(())
}

// Appends a line for each run of pages with one permission other than 0.
fn push_runs(alloc: Global, text: &mut Vec<u8>, memory: &Mem) -> Result<(), AllocError>
    ensures { OnOk result (text.new.items ≡ text.old.items ++ flat_map run_text (runs_of memory.now.memory)) }
{
    let runs = runs_of(alloc, memory)?;
    push_run_lines(alloc, text, &runs)
}

fn change_line(alloc: Global, address: u32) -> Result<String, AllocError>
    ensures { IfOk result (λ s. string_bytes s ≡ change_line address) }
{
    format!(in alloc; "changed {address:08x}\n")
}

// Appends a line for each of these pages, by their first addresses.
fn push_change_lines(alloc: Global, text: &mut Vec<u8>, changed: &[u32]) -> Result<(), AllocError>
    ensures { OnOk result (text.new.items ≡ text.old.items ++ flat_map change_line changed.now) }
{
    for address in changed {
        let line = change_line(alloc, *address)?;
        text.extend_from_slice(line.as_bytes())?;
    }
    Ok(())
}

// Appends a line for each page that has changed since the snapshot.
fn push_changes_since(
    alloc: Global,
    text: &mut Vec<u8>,
    memory: &Mem,
    snapshot: &Mem,
) -> Result<(), AllocError>
    requires { Covers memory.now snapshot.now.memory }
    ensures { OnOk result (text.new.items ≡ text.old.items ++ flat_map change_line (changed_pages memory.now.memory snapshot.now.memory)) }
{
    let changed = changed_pages(alloc, memory, snapshot)?;
    push_change_lines(alloc, text, &changed)
}

// Appends a line for each page that has changed since the snapshot, where there is one.
fn push_changes(
    alloc: Global,
    text: &mut Vec<u8>,
    memory: &Mem,
    snapshot: &Option<Mem>,
) -> Result<(), AllocError>
    requires { CoversIn memory.now snapshot.now }
    ensures { OnOk result (text.new.items ≡ text.old.items ++ changed_text memory.now.memory (memory_in snapshot.now)) }
{
    match snapshot {
        Some(snapshot) => push_changes_since(alloc, text, memory, snapshot),
        None => Ok(()),
    }
}

/// Appends what is shown of a memory beside its snapshot: its runs of pages, the pages that have changed, and its files.
pub(crate) fn push_contents(
    alloc: Global,
    text: &mut Vec<u8>,
    memory: &Mem,
    snapshot: &Option<Mem>,
) -> Result<(), AllocError>
    requires { CoversIn memory.now snapshot.now }
    ensures { OnOk result (text.new.items ≡ text.old.items ++ contents_text memory.now.memory (memory_in snapshot.now)) }
{
    push_runs(alloc, text, memory)?;
    push_changes(alloc, text, memory, snapshot)?;
    push_files(alloc, text, memory)
}
