ghost use Rattle.std.specs.Prelude.{◌≡◌, ℕ, Bool, ◌+◌, ◌-◌, ◌^◌, ◌≤◌, ◌<◌, ◌++◌, length, IfOk, IfSome};
ghost use Rattle.call_model.specs.Limits.{greatest_depth, levels_below};
ghost use Rattle.instruction_model.specs.Outcome.{view_of};
ghost use Rattle.space_model.specs.Sound.{IsSoundTop};
ghost use Rattle.run_model.specs.Console.{most_output};
ghost use Rattle.space_step.specs.Output.{AdvancesWithOutput, named_bytes, named_from, named_length};

use crate::decode_cache::DecodeCache;
use crate::event::{Advance, Next};
use crate::running::{Progress, proceed};
use crate::source::Source;
use space_tree::Top;
use std::alloc::AllocError;

// Where registers a1 and a2 stand.
const A1: usize = 11;

const A2: usize = 12;

/// The bytes that a1 and a2 name, where they stand in one page, one that has bytes of its own.
pub(crate) fn lent_named(top: &Top) -> Option<&[u8]>
    ensures { IfSome result (λ bytes. bytes.now ≡ named_bytes top.now) }
{
    let from = top.registers.x()[A1];
    let length = top.registers.x()[A2];
    top.memory.lent(from, length)
}

/// The bytes that a1 and a2 name.
pub(crate) fn copy_named(top: &Top) -> Result<Vec<u8>, AllocError>
    requires { named_from top.now + named_length top.now ≤ 2 ^ 32 }
    ensures { IfOk result (λ bytes. bytes.items ≡ named_bytes top.now) }
{
    let from = top.registers.x()[A1];
    let length = top.registers.x()[A2];
    top.memory.bytes(top.memory.allocator(), from, length)
}

// Appends the bytes that a1 and a2 name.
fn append_named(top: &Top, output: &mut Vec<u8>) -> Result<(), AllocError>
    requires { named_from top.now + named_length top.now ≤ 2 ^ 32 }
    ensures { IfOk result (λ _. output.new.items ≡ output.old.items ++ named_bytes top.now) }
{
    let bytes = copy_named(top)?;
    output.extend_from_slice(&bytes)?;
    Ok(())
}

// Local events of a space at a depth, as many as the quantum, unless something blocks it or enough is ready.
#[tactic(auto, using(crate::proofs::WithOutput::nothing_goes))]
fn go_on_with_output<S: Source>(
    source: &mut S,
    top: &mut Top,
    depth: u8,
    quantum: u32,
    output: &mut Vec<u8>,
    enough: usize,
) -> Result<Advance, AllocError>
    requires agrees { S.agrees source.old (view_of top.old.memory) }
    requires depth { depth ≤ greatest_depth }
    requires quantum { 1 ≤ quantum }
    requires few { length output.old.items < enough }
    ensures advances { IfOk result (λ a. AdvancesWithOutput (levels_below depth) quantum enough a output.old.items output.new.items top.old top.new) }
    ensures agrees { S.agrees source.new (view_of top.new.memory) }
{
    let mut ran = 0;
    'stretches: while ran < quantum && output.len() < enough {
        let written = top.console_len();
        match proceed(source, top, depth, quantum - ran) {
            Progress::Went(events) => ran += events,
            Progress::Blocked(events, next) => {
                return Ok(Advance {
                    ran: ran + events,
                    next,
                });
            }
        }
        if top.console_len() > written {
            append_named(top, output)?;
        }
    }
    Ok(Advance {
        ran,
        next: Some(Next::Local),
    })
}

/// As `advance`, but what is written to the console is appended to `output` as well, and no event happens where `output` has `enough` bytes or more.
/// It has fewer at first. One event writes at most 65,536 bytes. Its one error is want of memory: the space is somewhere on its way then, and so is `output`.
#[tactic(auto, using(crate::proofs::WithOutput::output_bound))]
pub fn advance_with_output(
    top: &mut Top,
    depth: u8,
    quantum: u32,
    cache: &mut DecodeCache,
    output: &mut Vec<u8>,
    enough: usize,
) -> Result<Advance, AllocError>
    requires depth { depth ≤ greatest_depth }
    requires quantum { 1 ≤ quantum }
    requires few { length output.old.items < enough }
    ensures ok { IfOk result (λ a. AdvancesWithOutput (levels_below depth) quantum enough a output.old.items output.new.items top.old top.new) }
    ensures bound { IfOk result (λ _. length output.new.items < enough + most_output) }
    ensures sound { IfOk result (λ _. (fuel : ℕ) (root : Bool) → IsSoundTop fuel root top.old → IsSoundTop fuel root top.new) }
{
    let table = &mut *cache.table;
    table.renew();
    go_on_with_output(table, top, depth, quantum, output, enough)
}
