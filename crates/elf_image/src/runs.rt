ghost use Rattle.std.specs.Prelude.{◌≡◌, ◌≤◌, ◌<◌, ◌^◌, ◌+◌, length, IfOk, OnOk};
ghost use Rattle.elf_model.specs.Loads as model;
ghost use Rattle.elf_model.specs.Loads.{AreLoads};
ghost use Rattle.elf_model.specs.Pages as pages;
ghost use Rattle.elf_model.specs.Reading as reading;
ghost use Rattle.elf_model.specs.Adding as adding;
ghost use Rattle.elf_image.specs.View.{load_view, load_views, run_view, run_views};

use crate::load::Load;
use memory_model::PAGE_SIZE;
use std::alloc::{AllocError, Global};
use std::collections::VecDeque;

/// Adjoining pages with one permission: from the first one on, and before the end.
#[derive(Clone, Copy, Drop)]
pub(crate) struct Run {
    pub(crate) first: u32,
    pub(crate) end: u32,
    /// From 0 to 7: 1 allows reading, 2 writing, 4 executing.
    pub(crate) permission: u8,
}

// Pages before runs of pages above them: one run with the first of those, if it adjoins and has the same permission.
fn join(runs: &mut VecDeque<Run>, run: Run) -> Result<(), AllocError>
    ensures { OnOk result (run_views runs.new.items ≡ reading.join (run_view run) (run_views runs.old.items)) }
{
    let Some(next) = runs.pop_front() else {
        return Ok(runs.push_front(run)?);
    };
    if next.first == run.end && next.permission == run.permission {
        return Ok(runs.push_front(Run {
            first: run.first,
            end: next.end,
            permission: run.permission,
        })?);
    }
    runs.push_front(next)?;
    Ok(runs.push_front(run)?)
}

// The page of a load's last byte.
fn last_page(load: &Load<'_>) -> u32
    requires filled { 0 < load.now.size }
    requires range { load.now.address + load.now.size ≤ 2 ^ 32 }
    ensures value { result ≡ pages.last_page (load_view load.now) }
    ensures most { result < 2 ^ 20 }
{
    ((u64::from(load.address) + u64::from(load.size) - 1) / u64::from(PAGE_SIZE)) as u32
}

// Pages of a load whose last page is the first one of `next`, the first of the runs, which is not among `runs` now.
fn share(runs: &mut VecDeque<Run>, load: &Load<'_>, next: Run) -> Result<(), AllocError>
    requires filled { 0 < load.now.size }
    requires range { load.now.address + load.now.size ≤ 2 ^ 32 }
    requires meets { next.first ≡ pages.last_page (load_view load.now) }
    ensures { OnOk result (run_views runs.new.items ≡ adding.share (load_view load.now) (run_view next) (run_views runs.old.items)) }
{
    let first = load.address / PAGE_SIZE;
    let last = last_page(load);
    if last + 1 != next.end {
        runs.push_front(Run {
            first: last + 1,
            end: next.end,
            permission: next.permission,
        })?;
    }
    join(
        runs,
        Run {
            first: last,
            end: last + 1,
            permission: load.permission | next.permission,
        },
    )?;
    if first < last {
        join(
            runs,
            Run {
                first,
                end: last,
                permission: load.permission,
            },
        )?;
    }
    Ok(())
}

// The pages of a load before the runs of the loads above it, which touch at most its last page.
fn add(runs: &mut VecDeque<Run>, load: &Load<'_>) -> Result<(), AllocError>
    requires filled { 0 < load.now.size }
    requires range { load.now.address + load.now.size ≤ 2 ^ 32 }
    ensures { OnOk result (run_views runs.new.items ≡ adding.add (load_view load.now) (run_views runs.old.items)) }
{
    let last = last_page(load);
    if let Some(next) = runs.pop_front() {
        if next.first == last {
            return share(runs, load, next);
        }
        runs.push_front(next)?;
    }
    join(
        runs,
        Run {
            first: load.address / PAGE_SIZE,
            end: last + 1,
            permission: load.permission,
        },
    )
}

/// The maximal runs of the pages that loads touch, by their addresses.
pub(crate) fn runs_of(alloc: Global, loads: &[Load<'_>]) -> Result<VecDeque<Run>, AllocError>
    requires { AreLoads 0 (2 ^ 32) (load_views loads.now) }
    ensures { IfOk result (λ runs. run_views runs.items ≡ reading.runs_of (load_views loads.now)) }
{
    let mut runs = VecDeque::new(alloc);
    let count = loads.len();
    for done in 0..count {
        add(&mut runs, &loads[count - 1 - done])?;
    }
    Ok(runs)
}
