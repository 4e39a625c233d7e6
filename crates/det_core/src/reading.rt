ghost use Rattle.std.specs.Prelude.{◌≡◌, ◌++◌, ℕ, List, OnOk, IfOk, IfErr, Ok, Err};
ghost use Rattle.fault_model.specs.Gives.{Gives};
ghost use Rattle.det_core.specs.Refused.{NamesRefused};
ghost use Rattle.det_core.specs.View.{item_view, path_views};
ghost use Rattle.schedule_model.specs.Reading.{schedule_of};
ghost use Rattle.schedule_model.specs.Schedule.{paths_in, ScheduleOf, IsFirstRefused};

use crate::schedule_fault::{ScheduleFault, bad};
use crate::schedule_line::{Item, item_of};
use space_tree::Path;
use std::alloc::{AllocError, Global};
use text_lines::first_line;

// Adds the path that a line says behind those before it.
fn add(paths: &mut Vec<Path>, item: Item) -> Result<(), AllocError>
    ensures { OnOk result (path_views paths.new.items ≡ path_views paths.old.items ++ paths_in (item_view item)) }
{
    match item {
        Item::Nothing => Ok(()),
        Item::Next(path) => Ok(paths.push(path)?),
    }
}

// What all lines say, or the first line that is refused.
fn paths_of(alloc: Global, bytes: &[u8]) -> Result<Vec<Path>, ScheduleFault>
    ensures { Gives (λ found. path_views found.items) result (schedule_of bytes.now) }
{
    let mut paths = Vec::new(alloc);
    let mut number = 1;
    let mut rest = bytes;
    while !rest.is_empty() {
        let (line, after) = first_line(rest);
        match item_of(line) {
            Some(item) => add(&mut paths, item)?,
            None => return Err(bad(number)),
        }
        number += 1;
        rest = after;
    }
    Ok(paths)
}

/// The paths of a schedule, in their order. Each of its lines is `/`, or one to eight parts of `/` and 1 to 5 decimal digits up to
/// 65,535, or empty, or begins with `#`. A line feed ends a line, the last may lack it, and one carriage return at a line's end is
/// dropped. An error is the first line that is none of these, or want of memory.
pub fn read_schedule(alloc: Global, bytes: &[u8]) -> Result<Vec<Path>, ScheduleFault>
    // What is read is what the lines say.
    ensures found { IfOk result (λ paths. ScheduleOf bytes.now (path_views paths.items)) }
    // A schedule is read, unless memory runs out.
    ensures only { (paths : List (List ℕ)) → ScheduleOf bytes.now paths → Gives (λ found. path_views found.items) result (Ok paths) }
    // The line that is named is the first one that is refused.
    ensures named { IfErr result (λ e. NamesRefused e bytes.now) }
    // The first line that is refused is named, unless memory runs out.
    ensures refused { (n : ℕ) → IsFirstRefused bytes.now n → Gives (λ found. path_views found.items) result (Err (record { line = n })) }
    // The same as a function of the bytes.
    ensures exact { Gives (λ found. path_views found.items) result (schedule_of bytes.now) }
{
    paths_of(alloc, bytes)
}
