ghost use Rattle.std.specs.Prelude.{◌≡◌, IfOk, option_map};
ghost use Rattle.explain_core.specs.Joins.{child_path, is_join, merges};
ghost use Rattle.explain_core.specs.Lineage.{joined_by};
ghost use Rattle.explain_core.specs.Watch.{told};

use crate::instructions::is_call;
use crate::watching::{Moment, Watched};
use call_model::{GET, TJOIN};
use space_tree::{Path, Regs};
use std::alloc::AllocError;
use trap_ret::options::{MERGE, has};

/// Whether these are the registers of a call that merges a child's memory.
pub fn merges(registers: &Regs) -> bool
    ensures { result ≡ merges registers.now }
{
    let call = registers.register(17);
    call == TJOIN || (call == GET && has(registers.register(10), MERGE))
}

// Whether an event joined a child.
fn is_join(path: &Path, watched: Watched, moment: &Moment) -> bool
    ensures { result ≡ is_join watched (told path.now.items moment.now) }
{
    let registers = moment.found.registers;
    match watched {
        Watched::Byte(_) => is_call(moment.found.instruction) && merges(&registers),
        Watched::Register(_) => false,
    }
}

/// The path of a child by its number; none exactly where the number is none of a child, or no space can stand there.
pub fn child_path(path: &Path, number: u32) -> Result<Option<Path>, AllocError>
    ensures { IfOk result (λ o. option_map (λ p. p.items) o ≡ child_path path.now.items number) }
{
    if number < 65536 && path.len() < 8 {
        let mut child = path.clone()?;
        child.push(number as u16);
        return Ok(Some(child));
    }
    Ok(None)
}

/// The path of the child that the last event joined.
pub(crate) fn joined_by(
    path: &Path,
    watched: Watched,
    last: Option<Moment>,
) -> Result<Option<Path>, AllocError>
    ensures { IfOk result (λ o. option_map (λ p. p.items) o ≡ joined_by path.now.items watched last) }
{
    match last {
        None => Ok(None),
        Some(moment) => {
            if !is_join(path, watched, &moment) {
                return Ok(None);
            }
            child_path(path, moment.found.registers.register(11))
        }
    }
}
