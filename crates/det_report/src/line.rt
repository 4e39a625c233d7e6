ghost use Rattle.std.specs.Prelude.{◌≡◌, ◌++◌, ◌∷◌, IfOk, OnOk, true, string_bytes};
ghost use Rattle.space_model.specs.Stop.{cause_word, is_stopped};
ghost use Rattle.report_model.specs.Digest.{digest_text};
ghost use Rattle.report_model.specs.Report.{state_text, stop_text};
ghost use Rattle.det_report.specs.Paths.{line_behind, path_in_line};

use crate::digesting::digest;
use space_tree::{Cause, Mem, Status, Top};
use std::alloc::{AllocError, Global};

/// The word of a cause.
pub fn cause_word(cause: Cause) -> &'static str
    ensures { result.now ≡ cause_word cause }
{
    match cause {
        Cause::FetchMisaligned => "fetch-misaligned",
        Cause::FetchFault => "fetch-fault",
        Cause::Illegal => "illegal",
        Cause::Breakpoint => "breakpoint",
        Cause::LoadMisaligned => "load-misaligned",
        Cause::LoadFault => "load-fault",
        Cause::StoreMisaligned => "store-misaligned",
        Cause::StoreFault => "store-fault",
        Cause::Badcall => "badcall",
        Cause::Conflict => "conflict",
        Cause::Limit => "limit",
        Cause::Fuel => "fuel",
        Cause::Ret => "ret",
        Cause::Fresh => "fresh",
    }
}

/// The cause and the value of a space that has stopped.
pub fn stop_text(alloc: Global, status: Status) -> Result<String, AllocError>
    requires { is_stopped status ≡ true }
    ensures { IfOk result (λ s. string_bytes s ≡ stop_text status) }
{
    match status {
        Status::Running => unreachable!(),
        Status::Stopped { cause, value } => {
            let word = cause_word(cause);
            format!(in alloc; "{word} {value:08x}")
        }
    }
}

// What a line says behind the path of a space that has stopped.
fn state_text(alloc: Global, top: &Top) -> Result<String, AllocError>
    requires { is_stopped top.now.status ≡ true }
    ensures { IfOk result (λ s. string_bytes s ≡ state_text top.now) }
{
    let stop = stop_text(alloc, top.status)?;
    let pc = top.registers.pc;
    let used = top.used;
    format!(in alloc; " {stop} {pc:08x} {used}")
}

// A path as its line shows it: the root, which has no steps, as `/`.
fn path_in_line(steps: &str) -> &str
    ensures { result.now ≡ path_in_line steps.now }
{
    if steps.is_empty() { "/" } else { steps }
}

// Appends a space and the digest of a memory, 64 hexadecimal digits.
fn push_digest(alloc: Global, memory: &Mem, text: &mut Vec<u8>) -> Result<(), AllocError>
    ensures { OnOk result (text.new.items ≡ text.old.items ++ 32 ∷ digest_text memory.now.memory) }
{
    let digits = hex::encode(alloc, digest(memory))?;
    text.push(b' ')?;
    text.extend_from_slice(digits.as_bytes())
}

/// Appends the line of a space that has stopped, which stands behind these steps, with the digest of its memory where it is asked for.
pub(crate) fn push_line(
    alloc: Global,
    steps: &str,
    top: &Top,
    digest: bool,
    text: &mut Vec<u8>,
) -> Result<(), AllocError>
    requires { is_stopped top.now.status ≡ true }
    ensures { OnOk result (text.new.items ≡ text.old.items ++ line_behind digest steps.now top.now) }
{
    let state = state_text(alloc, top)?;
    text.extend_from_slice(path_in_line(steps).as_bytes())?;
    text.extend_from_slice(state.as_bytes())?;
    if digest {
        push_digest(alloc, &top.memory, text)?;
    }
    text.push(b'\n')?;
    Ok(())
}
